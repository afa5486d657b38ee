//! From bytes in any encoding to a tree (HTML standard, section 13.2.3, "The input byte stream").
//!
//! `parser` has the parser of a document from bytes, in the page's encoding. `stage` has its stages: bytes wait until they
//! determine the encoding, and then they are decoded. `laws` has the law that how bytes are split doesn't matter.
//!
//! This crate depends on `h5_encodings`, which determines the encoding and decodes, and on `h5_driver`, whose parser takes the
//! text. Begin with `specs/Texts.antt` (the text of a page's bytes) and `src/parser.rt`.
#![tactic(auto)]

pub mod laws;
mod parser;
mod stage;

pub use parser::BytesParser;
