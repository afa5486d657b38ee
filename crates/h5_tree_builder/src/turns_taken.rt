//! The result of taking a token.
use h5_token::TokenSinkResult;

/// The number of a token's turns, and the reply to it.
#[derive(Drop)]
pub struct Taken<Handle> {
    pub turns: u64,
    pub answer: TokenSinkResult<Handle>,
}
