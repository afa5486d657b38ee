//! The result of a search at the start of a text.

/// The result of a search at the start of a text that may continue.
#[derive(Drop)]
pub enum Match<'a, T> {
    /// The text is too short to decide.
    Open,
    /// Not found.
    No,
    /// Found; this text follows.
    Found(T, &'a str),
}
