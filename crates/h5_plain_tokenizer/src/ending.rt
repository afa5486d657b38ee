//! The end of the input.
ghost use Rattle.std.specs.Prelude.{◌≡◌, IfOk, Option, false};
ghost use Rattle.std.specs.Option.{option_map};
ghost use Rattle.h5_token.specs.TokenText.{token_text};
ghost use Rattle.h5_plain_tokenizer.specs.End.{settle, text_token, unfinished, Closes};
ghost use Rattle.h5_plain_tokenizer.specs.Steps.{place_of};
ghost use Rattle.h5_markup.specs.Text.{text_of};

use super::front::{Construct, Mode, Opening, find_opening};
use super::state::State;
use h5_markup::{Match, text_of};
use h5_token::{BuildFault, Token, TokenSink};
use h5_tokenizer_input::{finish, line_behind, offer};
use std::alloc::{AllocError, Global};

fn text_token(alloc: Global, text: &str) -> Result<Option<Token>, AllocError>
    ensures { IfOk result (λ token. option_map token_text token ≡ text_token (text_of false text.now)) }
{
    let text = text_of(alloc, false, text)?;
    if text.as_str().is_empty() {
        return Ok(None);
    }
    Ok(Some(Token::CharacterTokens(text)))
}

fn unfinished(alloc: Global, construct: Construct, inner: &str) -> Result<Option<Token>, AllocError>
    ensures { IfOk result (λ token. option_map token_text token ≡ unfinished construct inner.now) }
{
    match construct {
        Construct::Comment => Ok(Some(Token::CommentToken(text_of(alloc, false, inner)?))),
        _ => Ok(None),
    }
}

// Returns the token that the end of the input makes of an undecided suffix, if any.
fn settle(
    alloc: Global,
    mode: Mode,
    last: &str,
    foreign: bool,
    rest: &str,
) -> Result<Option<Token>, AllocError>
    ensures { IfOk result (λ token. option_map token_text token ≡ settle mode last.now foreign rest.now) }
{
    match find_opening(mode, last, foreign, rest) {
        Match::Open => text_token(alloc, rest),
        Match::No => text_token(alloc, rest),
        Match::Found(opening, inner) => match opening {
            Opening::Begins(construct) => unfinished(alloc, construct, inner),
            Opening::Gives(_) => text_token(alloc, rest),
            Opening::Null => text_token(alloc, rest),
            Opening::Turns(_) => text_token(alloc, rest),
        },
    }
}

/// Passes the token of the undecided suffix to the sink, with the line in which that begins, then the end-of-file token, with
/// the line after the suffix, and calls the sink's `end`.
pub fn close<S: TokenSink>(
    sink: &mut S,
    state: &State,
    alloc: Global,
    rest: &str,
) -> Result<(), BuildFault>
    ensures { Closes S.reply_to S.after S.is_foreign S.ended (place_of state.now) (S.meaning sink.old) rest.now
        (S.meaning sink.new) result }
{
    let last_line = line_behind(state.line, rest, "");
    let foreign = sink.adjusted_current_node_present_but_not_in_html_namespace();
    match settle(alloc, state.mode, state.last.as_str(), foreign, rest)? {
        None => finish(sink, last_line),
        Some(token) => {
            offer(sink, token, state.line)?;
            finish(sink, last_line)
        }
    }
}
