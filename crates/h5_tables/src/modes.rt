//! Insertion modes.

/// The insertion mode (HTML standard, section 13.2.4.1, "The insertion mode").
#[derive(Clone, Copy, Debug, PartialEq, Eq)]
pub enum InsertionMode {
    Initial,
    BeforeHtml,
    BeforeHead,
    InHead,
    InHeadNoscript,
    AfterHead,
    InBody,
    Text,
    InTable,
    InTableText,
    InCaption,
    InColumnGroup,
    InTableBody,
    InRow,
    InCell,
    InTemplate,
    AfterBody,
    InFrameset,
    AfterFrameset,
    AfterAfterBody,
    AfterAfterFrameset,
}

/// How a text was split into runs of whitespace and of other characters.
#[derive(Clone, Copy, Debug, PartialEq, Eq)]
pub enum SplitStatus {
    /// It wasn't split.
    NotSplit,
    /// It is a run of whitespace.
    Whitespace,
    /// It is a run that begins with another character.
    NotWhitespace,
}
