//! Replies to the tokens of a list.
use h5_token::{BuildFault, TokenSinkResult};

/// The reply to a token of a list.
#[derive(Debug, Drop)]
pub enum Reply<Handle> {
    /// The token was taken.
    Answer(TokenSinkResult<Handle>),
    /// The token was refused, and nothing changed.
    Refused(BuildFault),
}
