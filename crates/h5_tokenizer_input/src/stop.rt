//! Replies of a token sink that stop a tokenizer.
ghost use Rattle.std.specs.Prelude.{◌≡◌, ℕ};
ghost use Rattle.h5_token.specs.Reply.{reply};
ghost use Rattle.h5_tokenizer_input.specs.Stops.{AnswersAs, result_of};

use super::result::TokenizerResult;
use h5_token::TokenSinkResult;

/// What makes `feed` return before the end of its input.
#[derive(Drop)]
pub enum Stop<H> {
    Script(H),
    EncodingIndicator(String),
}

/// Returns what stops the tokenizer, or `None` if the reply doesn't stop it.
pub fn stop_of<H: Drop>(answer: TokenSinkResult<H>) -> Option<Stop<H>>
    ensures { (node : H → ℕ) → AnswersAs node result (reply node answer) }
{
    match answer {
        TokenSinkResult::Script(handle) => Some(Stop::Script(handle)),
        TokenSinkResult::EncodingIndicator(encoding) => Some(Stop::EncodingIndicator(encoding)),
        _ => None,
    }
}

/// Returns the result of `feed` for what stops the tokenizer.
pub fn result_of<H: Drop>(stop: Stop<H>) -> TokenizerResult<H>
    ensures { result ≡ result_of stop }
{
    match stop {
        Stop::Script(handle) => TokenizerResult::Script(handle),
        Stop::EncodingIndicator(encoding) => TokenizerResult::EncodingIndicator(encoding),
    }
}
