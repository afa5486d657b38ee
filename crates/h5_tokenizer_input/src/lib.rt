//! What the tokenizers have in common.
//!
//! `buffer` has the queue of waiting text, `options` and `result` the options and results of a tokenizer, and `stage` whether
//! it has ended or failed. `stop` has the replies of a token sink that stop a tokenizer, and `taking` the calls of a token
//! sink. `last_name` has the name of the last start tag. `lines` counts newlines, `plain` the bytes that are text in every
//! state, and `parts` how much of a text is copied at a time. `likeness` is for the law that it doesn't matter how the input is
//! split. `decoder` decodes UTF-8 bytes that come in chunks; how they are split doesn't matter.
//!
//! The tokenizers themselves are in other crates: the plain one in `h5_plain_tokenizer`, the standard's in `h5_tokenizer_spec` (definition),
//! `h5_tokenizer_states` and `h5_standard_tokenizer`. This crate depends on names and tokens, and on `h5_markup` for the bytes that are plain.
//! Begin with `specs/Taking.antt` (what passing a token to a sink does), `specs/Lines.antt` (newlines) and
//! `specs/Blindness.antt` (token sinks to which it doesn't matter how texts are split), then `src/buffer.rt`.
#![tactic(auto)]

mod buffer;
mod decoder;
mod last_name;
mod likeness;
mod lines;
mod options;
mod parts;
mod plain;
mod result;
mod stage;
mod stop;
mod taking;

pub use buffer::BufferQueue;
pub use decoder::Utf8LossyDecoder;
pub use last_name::LastName;
pub use likeness::Likeness;
pub use lines::{few_newlines, line_behind, newlines_passed};
pub use options::TokenizerOpts;
pub use parts::part_size;
pub use plain::count_plain;
pub use result::TokenizerResult;
pub use stage::Stage;
pub use stop::{Stop, result_of, stop_of};
pub use taking::{ask, finish, offer};
