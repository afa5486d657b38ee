//! The tokenizer states that a tree builder sets (HTML standard, section 13.2.5, "Tokenization").

/// The tokenizer state for an element that holds text only.
#[derive(Clone, Copy, Debug, PartialEq, Eq)]
pub enum RawKind {
    /// RCDATA: with character references, as in `title` and `textarea`.
    Rcdata,
    /// RAWTEXT: without character references, as in `style`.
    Rawtext,
    /// Script data, as in `script`.
    ScriptData,
}

/// A tokenizer state.
#[derive(Clone, Copy, Debug, PartialEq, Eq)]
pub enum State {
    /// The data state.
    Data,
    /// RCDATA, RAWTEXT or script data: everything up to the element's end tag is text.
    RawData(RawKind),
    /// PLAINTEXT: everything that follows is text.
    Plaintext,
}
