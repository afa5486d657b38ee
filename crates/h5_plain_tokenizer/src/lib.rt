//! The plain tokenizer: from text to tokens, for any token sink. It reads one exact subset of HTML (HTML standard, section
//! 13.2.5).
//!
//! `tokenizer` has the tokenizer with its sink, and `reader` the rest of its state. `front` finds what the input begins with,
//! `plain` takes text, `bare` finds tags with only a name, and `tokens` makes tokens. `steps` takes one step, `run` takes steps
//! one after another, and `ending` handles the end of the input. `laws` has the laws of readings, among them that it doesn't
//! matter how the input is split.
//!
//! This crate depends on tokens, on `h5_markup`, and on `h5_tokenizer_input` for what the tokenizers have in common. The parser in
//! `h5_driver` runs it over the tree builder; `h5_round_trip` has what it reads of a serialized document. Begin with
//! `specs/Front.antt` (what the input begins with) and `specs/Read.antt` (what is emitted, and where reading stops), then
//! `src/steps.rt`.
#![tactic(auto)]

mod bare;
mod ending;
mod front;
pub mod laws;
mod plain;
mod reader;
mod run;
mod state;
mod steps;
mod tokenizer;
mod tokens;

pub use h5_tokenizer_input::{BufferQueue, TokenizerOpts, TokenizerResult};
pub use tokenizer::Tokenizer;
