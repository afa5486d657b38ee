//! The standard's 80 states of tokenization, in code (HTML standard, section 13.2.5), and the search for named character
//! references (sections 13.2.5.73 and 13.5).
//!
//! `machine` has a state with what is being built in it, `machine_state` the states, and `transition` the results of rows. A
//! row takes one byte: `texts`, `tags`, `comments`, `doctypes` and `references` have the rows as the definitions of these names
//! in `h5_tokenizer_spec` do. `tag` and `open_name` have what is being built, and `codes` the characters of numbers. `ending` has the
//! end of the input; `telling`, `row_errors`, `end_errors` and the other modules of errors have parse errors. `runs` takes at
//! once what a state only adds, and `quoted` whole attributes.
//!
//! `numbers` has the 2,231 names of references with their texts; `write_table.py` writes it from the definition's list,
//! `specs/ReferenceTable.antt` of `h5_tokenizer_spec`. `table` has a reference by its number, `candidates` those that begin with what
//! was seen, `common` the few most frequent names, and `search` the searches. `proofs/NameLaws.antt` has how names are spelled.
//!
//! This crate depends on `h5_tokenizer_spec`. It calls no token sink; `h5_standard_tokenizer` does. Begin with `src/machine.rt`, then compare a
//! chapter with its definition; for the search, begin with `specs/Candidates.antt` and `src/search.rt`.
#![tactic(auto)]

mod candidates;
mod codes;
mod comments;
mod common;
mod doctype_errors;
mod doctypes;
mod end_errors;
mod ending;
mod machine;
mod machine_state;
mod numbers;
mod open_name;
mod quoted;
mod reference_errors;
mod references;
mod row_errors;
mod runs;
mod search;
mod signs;
mod table;
mod tag;
mod tag_errors;
mod tags;
mod telling;
mod text_errors;
mod texts;
mod transition;
mod wide;

pub use ending::end_of;
pub use machine::{Machine, Step};
pub use search::{Named, further_len, is_beginning, longest, seen_len};
pub use telling::tell_input_error;
pub use transition::CurrentToken;
