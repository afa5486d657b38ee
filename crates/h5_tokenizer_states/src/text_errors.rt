//! The errors of the rows of texts, and of comments (HTML standard, sections 13.2.5.1 to 13.2.5.5, 13.2.5.9 to 13.2.5.31, 13.2.5.41
//! to 13.2.5.52 and 13.2.5.69 to 13.2.5.71).

ghost use Rattle.std.specs.Prelude.{◌≡◌, ◌∷◌, [], ◌++◌, ℕ, List};
ghost use Rattle.std.specs.Char.{to_ascii_lowercase};
ghost use Rattle.h5_tokenizer_spec.specs.Comments as c;
ghost use Rattle.h5_tokenizer_spec.specs.Machine.{turn};
ghost use Rattle.h5_tokenizer_spec.specs.References.{Reference};
ghost use Rattle.h5_tokenizer_spec.specs.Texts as t;
ghost use Rattle.h5_tokenizer_spec.specs.Words.{begins, same};
ghost use Rattle.h5_tokenizer_spec.specs.Told.{if_any};
ghost use Rattle.h5_tokenizer_states.specs.StateOf.{comment_state_of, text_state_of};

use super::machine_state::{CommentState, TextState};
use super::row_errors::{null_error, only_if};
use super::signs::{begins, begins_folded};
use h5_tokenizer_spec::{ParseError, TextKind};

// 13.2.5.1 to 5 and 69
fn any_text_error(kind: TextKind, b: u8) -> Option<ParseError>
    ensures { if_any result ≡ (t.text_state kind b).errors }
{
    match kind {
        TextKind::Data => null_error(b),
        TextKind::Rcdata => null_error(b),
        TextKind::Rawtext => null_error(b),
        TextKind::ScriptData => null_error(b),
        TextKind::Plaintext => null_error(b),
        TextKind::CdataSection => None,
    }
}

/// The error of a row of texts.
pub fn text_error(state: TextState, b: u8) -> Option<ParseError>
    ensures { (table : List Reference) (last buffer : List ℕ) → if_any result ≡ (turn table last (text_state_of state buffer) b).errors }
{
    match state {
        TextState::Text(kind) => any_text_error(kind, b),
        TextState::ScriptDataEscaped(_) => null_error(b),
        TextState::ScriptDataEscapedDash(_) => null_error(b),
        TextState::ScriptDataEscapedDashDash(_) => null_error(b),
        _ => None,
    }
}

// Returns true if a word begins with what was seen and this byte.
#[tactic(auto, using(crate::proofs::FurtherLaws::same_none, crate::proofs::FurtherLaws::same_next, crate::proofs::FurtherLaws::same_other))]
fn begins_further(seen: &str, b: u8, word: &[u8]) -> bool
    ensures { result ≡ begins same (seen.now ++ b ∷ []) word.now }
{
    let len = seen.len();
    if word.len() <= len {
        return false;
    }
    if word[len] != b {
        return false;
    }
    begins(seen, word)
}

/// Returns true if a word begins with what was seen and this byte, in any case of letters.
#[tactic(auto, using(crate::proofs::FurtherLaws::lower_none, crate::proofs::FurtherLaws::lower_next, crate::proofs::FurtherLaws::lower_other))]
pub fn begins_further_folded(seen: &str, b: u8, word: &[u8]) -> bool
    ensures { result ≡ begins to_ascii_lowercase (seen.now ++ b ∷ []) word.now }
{
    let len = seen.len();
    if word.len() <= len {
        return false;
    }
    if word[len].to_ascii_lowercase() != b.to_ascii_lowercase() {
        return false;
    }
    begins_folded(seen, word)
}

// Returns true if one of the openings begins with what was seen and this byte.
fn begins_opening(seen: &str, b: u8) -> bool
    ensures { result ≡ c.begins_opening (seen.now ++ b ∷ []) }
{
    begins_further(seen, b, b"--")
        || begins_further_folded(seen, b, b"doctype")
        || begins_further(seen, b, b"[CDATA[")
}

// 13.2.5.42 Markup declaration open state
fn markup_declaration_error(seen: &str, b: u8) -> Option<ParseError>
    ensures { if_any result ≡ (c.markup_declaration_open_state seen.now b).errors }
{
    only_if(
        !begins_opening(seen, b),
        ParseError::IncorrectlyOpenedComment,
    )
}

/// The error of a row of comments.
pub fn comment_error(state: CommentState, text: &str, b: u8) -> Option<ParseError>
    ensures { (table : List Reference) (last : List ℕ) → if_any result ≡ (turn table last (comment_state_of state text.now) b).errors }
{
    match state {
        CommentState::BogusComment => null_error(b),
        CommentState::MarkupDeclarationOpen => markup_declaration_error(text, b),
        CommentState::CommentStart => only_if(b == b'>', ParseError::AbruptClosingOfEmptyComment),
        CommentState::CommentStartDash => only_if(
            b == b'>',
            ParseError::AbruptClosingOfEmptyComment,
        ),
        CommentState::Comment => null_error(b),
        CommentState::CommentLessThanSignBangDashDash => only_if(
            b != b'>',
            ParseError::NestedComment,
        ),
        CommentState::CommentEndBang => only_if(b == b'>', ParseError::IncorrectlyClosedComment),
        _ => None,
    }
}
