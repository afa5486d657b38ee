//! From text to a tree: a tokenizer over the tree builder (HTML standard, section 13.2, "Parsing HTML documents").
//!
//! `reader` has the trait `Reader` of a tokenizer over a builder. Over any implementor, `parser` has the parser of a document,
//! which takes text in chunks, and `bytes` one that takes UTF-8. `beginning` has the builders that parsers begin with, of
//! documents and of fragments in a context (section 13.4), and `options` the options of a tokenizer and a builder. `laws` has
//! the laws: how a text is split doesn't matter, and the text of a plain document makes that document again.
//!
//! The parser over the plain tokenizer is at the root of the crate (`plain`), and the one over the standard tokenizer is in
//! `standard`. Each has the sink as its one parameter.
//!
//! This crate depends on `h5_plain_tokenizer`, `h5_standard_tokenizer` and `h5_tree_builder`, on `h5_tokenizer_input` for bytes, and on `h5_round_trip`
//! for plain documents. Begin with `src/reader.rt` (what a parser requires of a tokenizer), `specs/Reading.antt` and
//! `specs/Parsing.antt` (parsers and their calls), and `src/parser.rt`.
#![tactic(auto)]

mod beginning;
pub mod bytes;
pub mod laws;
mod options;
pub mod parser;
mod plain;
pub mod reader;
pub mod standard;

pub use options::ParseOpts;
pub use plain::{
    Parser, PlainReader, Utf8Parser, parse_document, parse_fragment, parse_fragment_for_element,
};
pub use reader::Reader;
