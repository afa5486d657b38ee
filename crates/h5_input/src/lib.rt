//! A page in an input: its bytes are read in chunks, decoded, and made a tree, lines of tokens, or a list of parse errors.
//!
//! `page` has the calls. `source` reads bytes and passes their text on, and `context` has the element around a fragment. `decoding`
//! decodes bytes and counts those that are invalid. `tokens` writes tokens down as lines on their way to the tree builder, `tree_errors`
//! keeps the first parse errors of the tree builder, to which `joined_texts` passes whole texts, and `errors` has those and the ones of
//! tokenization in the order of their lines.
//! `options` says how a page is read, and `fault` has what can go wrong.
//!
//! The crate is based on `html_tree_builder`, whose standard tokenizer reads all of HTML, and on `h5_print` for escapes. No contract can
//! say what an input holds: that pages are read so is tested. Begin with `src/page.rt`.
#![tactic(auto)]

mod context;
mod decoding;
mod errors;
mod fault;
mod joined_texts;
mod options;
mod page;
mod source;
mod tokens;
mod tree_errors;

pub use context::is_context;
pub use decoding::HowRead;
pub use errors::{PageError, PageErrors};
pub use fault::InputFault;
pub use options::InputOpts;
pub use page::{errors_of, tokens_of, tree_of};
