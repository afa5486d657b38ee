//! The standard tokenizer: from text to tokens, for any token sink. It reads all of HTML (HTML standard, section 13.2.5).
//!
//! `tokenizer` has the tokenizer with its sink, and `reader` the rest of its state. `steps` reads a chunk, and `ending` handles
//! the end of the input. `telling` has the tokenizer that also reports parse errors: it takes one byte after another
//! (`telling_steps`, `telling_reader`). What a state does at a byte is in `h5_tokenizer_states`.
//!
//! This crate depends on tokens, on `h5_tokenizer_states`, and on `h5_tokenizer_input` for what the tokenizers have in common. `h5_tokenizer_spec` has
//! the definitions. Begin with `src/steps.rt`.
#![tactic(auto)]

mod ending;
mod handing;
mod reader;
mod steps;
mod telling;
mod telling_reader;
mod telling_steps;
mod tokenizer;

pub use h5_tokenizer_input::{BufferQueue, TokenizerOpts, TokenizerResult};
pub use h5_tokenizer_spec::{ErrorSink, Errors, LocatedError, ParseError, Position};
pub use telling::ReportingTokenizer;
pub use tokenizer::Tokenizer;
