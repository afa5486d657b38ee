//! Tokens, the sinks that take them, and their replies (HTML standard, section 13.2.5, "Tokenization").
//!
//! `tokens` has the tokens that a tokenizer emits; `tag` and `doctype` have tags and doctypes. `alike` compares lists of attributes up to
//! their order, and `key` has texts that are equal for tags that are alike. `sink` has the trait of a token sink, with its replies; `fault`
//! has the errors of a call, and `states` the states that a tree builder sets in a tokenizer. `laws` has the laws of tokens.
//!
//! This crate depends on h5_names only. The tokenizers emit its tokens, and the rules of tree construction take them. Begin with
//! `specs/TokenText.antt` (a token, independent of where its texts are in memory) and `specs/Reply.antt` (a reply); then read
//! `src/tokens.rt` and `src/sink.rt`.
#![tactic(auto)]

mod alike;
mod doctype;
mod fault;
mod key;
pub mod laws;
mod sink;
pub mod states;
mod tag;
mod tokens;

pub use doctype::Doctype;
pub use fault::BuildFault;
pub use key::tag_key;
pub use sink::{TokenSink, TokenSinkResult};
pub use tag::{Tag, TagKind};
pub use tokens::Token;
