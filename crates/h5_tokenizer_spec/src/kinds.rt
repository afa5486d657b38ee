//! Kinds of texts, escapes, quotes and identifiers.

/// The states that read text (HTML standard, sections 13.2.5.1 to 13.2.5.5 and 13.2.5.69).
#[derive(Clone, Copy, Debug, PartialEq, Eq)]
pub enum TextKind {
    /// Tags, comments and character references are recognized.
    Data,
    /// Character references and one end tag are recognized.
    Rcdata,
    /// One end tag is recognized.
    Rawtext,
    /// One end tag is recognized. A comment-like escape may hide end tags.
    ScriptData,
    /// Everything is text, to the end of the input.
    Plaintext,
    /// Everything is text up to `]]>`.
    CdataSection,
}

/// The texts that an end tag with the name of the last start tag ends.
#[derive(Clone, Copy, Debug, PartialEq, Eq)]
pub enum RawTextKind {
    Rcdata,
    Rawtext,
    ScriptData,
    /// A script inside a comment-like escape.
    EscapedScriptData,
}

/// How deep a script is escaped.
#[derive(Clone, Copy, Debug, PartialEq, Eq)]
pub enum Escape {
    /// After `<!--`.
    Escaped,
    /// After `<!--` and `<script`.
    DoubleEscaped,
}

/// The quotes around an attribute's value or an identifier.
#[derive(Clone, Copy, Debug, PartialEq, Eq)]
pub enum Quote {
    Double,
    Single,
}

/// The two identifiers of a doctype.
#[derive(Clone, Copy, Debug, PartialEq, Eq)]
pub enum Identifier {
    Public,
    System,
}
