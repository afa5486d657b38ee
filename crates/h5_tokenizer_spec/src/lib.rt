//! The definition of HTML's tokenization: what the standard's 80 states do (HTML standard, section 13.2.5).
//!
//! `specs/Texts.antt`, `Tags.antt`, `Comments.antt`, `Doctypes.antt` and `References.antt` have the rows of each state, in the
//! standard's order and words, and `specs/Machine.antt` chooses the row. `specs/AtEnd.antt` has what each state leaves at the
//! end, `specs/ReferenceTable.antt` the names of character references, `specs/Reading.antt` the relation of reading,
//! `specs/End.antt` and `specs/Whole.antt` the end of the input, and `specs/Telling.antt` reading with parse errors. The
//! tokenizer itself is in `h5_tokenizer_states` and `h5_standard_tokenizer`.
//!
//! Code shares `kinds`, `errors` and `position` with these. `error_sink` has sinks of errors, `error_list` a list, and `laws`
//! the laws, such as that how the input is split doesn't matter. `proofs/Examples.antt` computes examples; `.ci/examples` tries
//! about 1,700 more from `examples.txt`, with another tokenizer's results. This crate depends on tokens, on `h5_tokenizer_input`, and
//! on `h5_markup` for attributes. The plain tokenizer (`h5_plain_tokenizer`) has a separate definition, of a subset.
//!
//! Begin with `specs/States.antt` and `specs/Turn.antt`, then compare a chapter with the standard.
#![tactic(auto)]

mod error_list;
mod error_sink;
mod errors;
mod kinds;
pub mod laws;
mod position;

pub use error_list::Errors;
pub use error_sink::ErrorSink;
pub use errors::ParseError;
pub use kinds::{Escape, Identifier, Quote, RawTextKind, TextKind};
pub use position::{LocatedError, Position, Spot};
