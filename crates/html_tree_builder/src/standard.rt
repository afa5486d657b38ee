//! The standard tokenizer, and the parser over it, which is also at the crate's root. They read all of HTML (WHATWG HTML
//! standard, section 13.2.5).
//!
//! Names, options and results are those of the plain tokenizer in `tokenizer`, and of the parser over it in `driver`. The tree
//! builder and the sinks are the same. `ReportingTokenizer` also reports parse errors, each with its `Position`, to an
//! `ErrorSink`, for example to `Errors`, a list.
pub use h5_driver::standard::{
    Parser, StandardReader, Utf8Parser, parse_document, parse_fragment, parse_fragment_for_element,
};
pub use h5_standard_tokenizer::{
    ErrorSink, Errors, LocatedError, ParseError, Position, ReportingTokenizer, Tokenizer,
};
