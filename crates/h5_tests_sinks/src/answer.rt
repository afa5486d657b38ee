//! Replies of token sinks.
ghost use Rattle.std.specs.Prelude.{◌≡◌};
ghost use Rattle.h5_token.specs.Reply.{reply};
ghost use Rattle.h5_token.specs.TokenText.{token_text};
ghost use Rattle.h5_tests_sinks.specs.Answers.{is_start, reply_of, reply_to};

use h5_token::states::RawKind;
use h5_token::{TagKind, Token, TokenSinkResult};

/// The reply to start tags. The reply to all other tokens is `Continue`.
#[derive(Clone, Copy, Debug, PartialEq, Eq)]
pub enum Answer {
    /// `Continue`.
    ReadsOn,
    /// `Script`, with the handle 7.
    Stops,
    /// `RawData`.
    TurnsRaw(RawKind),
}

fn is_start(token: &Token) -> bool
    ensures { result ≡ is_start (token_text token.now) }
{
    match token {
        Token::TagToken(tag) => match tag.kind {
            TagKind::StartTag => true,
            TagKind::EndTag => false,
        },
        _ => false,
    }
}

fn result_of(answer: Answer) -> TokenSinkResult<u8>
    ensures { reply (λ handle. handle) result ≡ reply_of answer }
{
    match answer {
        Answer::ReadsOn => TokenSinkResult::Continue,
        Answer::Stops => TokenSinkResult::Script(7),
        Answer::TurnsRaw(kind) => TokenSinkResult::RawData(kind),
    }
}

/// The reply to a token.
pub fn reply_to(answer: Answer, token: &Token) -> TokenSinkResult<u8>
    ensures { reply (λ handle. handle) result ≡ reply_to answer (token_text token.now) }
{
    if is_start(token) {
        return result_of(answer);
    }
    TokenSinkResult::Continue
}
