//! The tokens that a text refuses (HTML standard, section 13.2.6.4.8): a tokenizer emits no tags there except the end
//! tag, no comments and no nulls.
ghost use Rattle.std.specs.Prelude.{◌≡◌};
ghost use Rattle.h5_token.specs.TokenText.{token_text};
ghost use Rattle.h5_builder_spec.specs.Run.{is_refused_in_text, refuses_in};

use h5_tables::InsertionMode;
use h5_token::{TagKind, Token};

fn is_refused_in_text(token: &Token) -> bool
    ensures { result ≡ is_refused_in_text (token_text token.now) }
{
    match token {
        Token::TagToken(tag) => tag.kind == TagKind::StartTag,
        Token::CommentToken(_) | Token::NullCharacterToken => true,
        _ => false,
    }
}

/// Returns true if a token is refused in a mode: in "text" a start tag, a comment and a null are.
#[inline(always)]
pub fn refuses_in(mode: InsertionMode, token: &Token) -> bool
    ensures { result ≡ refuses_in mode (token_text token.now) }
{
    match mode {
        InsertionMode::Text => is_refused_in_text(token),
        _ => false,
    }
}
