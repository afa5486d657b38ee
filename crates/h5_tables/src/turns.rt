//! Tokens that take turns, and how a turn ends.
use super::modes::{InsertionMode, SplitStatus};
use h5_token::Tag;

/// A token that takes turns: any token except doctypes, parse errors and empty texts.
#[derive(Drop)]
pub enum Token {
    Tag(Tag),
    Comment(String),
    /// A text that isn't empty: a whole one, or a run of one.
    Characters(SplitStatus, String),
    NullCharacter,
    Eof,
}

/// How a turn ends (HTML standard, section 13.2.6, "Tree construction"). The state has the token that takes another turn, and the reply.
#[derive(Clone, Copy, Debug, PartialEq, Eq)]
pub enum ProcessResult {
    /// The token is processed.
    Done,
    /// The token is processed, and its self-closing flag was acknowledged.
    DoneAckSelfClosing,
    /// The token takes another turn, in this mode.
    Reprocess(InsertionMode),
    /// The token is processed, and has a reply.
    Answer,
}
