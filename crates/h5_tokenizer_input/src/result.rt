//! How much of the input was read.

/// How much of the input was read.
#[derive(Debug, Drop)]
pub enum TokenizerResult<Handle> {
    /// All of it, except what isn't decided yet.
    Done,
    /// All up to a script that must be executed first.
    Script(Handle),
    /// All up to a place where the document names this encoding.
    EncodingIndicator(String),
}
