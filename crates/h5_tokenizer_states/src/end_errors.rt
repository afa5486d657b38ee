//! The errors at the end of the input: the rows for "EOF" of each state.

ghost use Rattle.std.specs.Prelude.{◌≡◌, ◌++◌, ℕ, List, string_bytes};
ghost use Rattle.h5_token.specs.TokenText.{DoctypeText};
ghost use Rattle.h5_tokenizer_spec.specs.AtEnd.{at_end, behind_raw, flushed};
ghost use Rattle.h5_tokenizer_spec.specs.Construction.{Tag};
ghost use Rattle.h5_tokenizer_spec.specs.References.{Reference};
ghost use Rattle.h5_tokenizer_spec.specs.ReferenceTable.{references};
ghost use Rattle.h5_tokenizer_spec.specs.Told.{if_any};
ghost use Rattle.h5_tokenizer_states.specs.RowErrors.{all_of};
ghost use Rattle.h5_tokenizer_states.specs.StateOf.{comment_state_of, doctype_state_of, reference_state_of, return_of, tag_state_of, text_state_of};

use super::codes::code_error;
use super::machine_state::{
    CommentState, DoctypeState, ReferenceState, ReturnTo, TagState, TextState,
};
use super::reference_errors::named_error;
use super::references::OpenReference;
use super::row_errors::{RowErrors, only_if};
use super::tag::OpenTag;
use h5_tokenizer_spec::{ParseError, RawTextKind, TextKind};

// In a text that an end tag ends.
fn raw_end_error(kind: RawTextKind) -> Option<ParseError>
    ensures { (text : List ℕ) → if_any result ≡ (behind_raw kind text).errors }
{
    only_if(
        kind == RawTextKind::EscapedScriptData,
        ParseError::EofInScriptHtmlCommentLikeText,
    )
}

/// In a text.
pub fn text_end_error(state: TextState) -> Option<ParseError>
    ensures { (table : List Reference) (buffer : List ℕ) → if_any result ≡ (at_end table (text_state_of state buffer)).errors }
{
    match state {
        TextState::Text(kind) => only_if(kind == TextKind::CdataSection, ParseError::EofInCdata),
        TextState::RawLessThanSign(kind) => raw_end_error(kind),
        TextState::RawEndTagOpen(kind) => raw_end_error(kind),
        TextState::RawEndTagName(kind) => raw_end_error(kind),
        TextState::ScriptDataEscapeStart => None,
        TextState::ScriptDataEscapeStartDash => None,
        TextState::CdataSectionBracket => Some(ParseError::EofInCdata),
        TextState::CdataSectionEnd => Some(ParseError::EofInCdata),
        _ => Some(ParseError::EofInScriptHtmlCommentLikeText),
    }
}

/// In a tag.
pub fn tag_end_errors(state: TagState, tag: &OpenTag) -> RowErrors
    ensures { (table : List Reference) → all_of result ≡ (at_end table (tag_state_of state tag.now)).errors }
{
    match state {
        TagState::TagOpen => RowErrors::one(Some(ParseError::EofBeforeTagName)),
        TagState::EndTagOpen => RowErrors::one(Some(ParseError::EofBeforeTagName)),
        TagState::AttributeName => RowErrors {
            first: only_if(tag.is_repeated(), ParseError::DuplicateAttribute),
            second: Some(ParseError::EofInTag),
            third: None,
        },
        _ => RowErrors::one(Some(ParseError::EofInTag)),
    }
}

/// In a comment.
pub fn comment_end_error(state: CommentState) -> Option<ParseError>
    ensures { (table : List Reference) (comment : List ℕ) → if_any result ≡ (at_end table (comment_state_of state comment)).errors }
{
    match state {
        CommentState::BogusComment => None,
        CommentState::MarkupDeclarationOpen => Some(ParseError::IncorrectlyOpenedComment),
        _ => Some(ParseError::EofInComment),
    }
}

/// In a doctype.
pub fn doctype_end_error(state: DoctypeState, seen: &str) -> Option<ParseError>
    ensures { (table : List Reference) (doctype : DoctypeText) → if_any result ≡ (at_end table (doctype_state_of state doctype seen.now)).errors }
{
    match state {
        DoctypeState::BogusDoctype => None,
        DoctypeState::AfterDoctypeName => {
            if seen.is_empty() {
                return Some(ParseError::EofInDoctype);
            }
            Some(ParseError::InvalidCharacterSequenceAfterDoctypeName)
        }
        _ => Some(ParseError::EofInDoctype),
    }
}

// What is flushed into a value is dropped with its tag.
fn flushed_error(return_to: ReturnTo) -> Option<ParseError>
    ensures { (tag : Tag) (text : List ℕ) → if_any result ≡ (flushed (return_of return_to tag) text).errors }
{
    match return_to {
        ReturnTo::Data => None,
        ReturnTo::Rcdata => None,
        ReturnTo::Value(_) => Some(ParseError::EofInTag),
    }
}

// Returns the errors of a character reference, followed by that of its tag.
fn referring(
    first: Option<ParseError>,
    second: Option<ParseError>,
    return_to: ReturnTo,
) -> RowErrors
    ensures { (tag : Tag) (text : List ℕ) → all_of result ≡ if_any first ++ (if_any second ++ (flushed (return_of return_to tag) text).errors) }
{
    RowErrors {
        first,
        second,
        third: flushed_error(return_to),
    }
}

/// In a character reference.
pub fn reference_end_errors(
    state: ReferenceState,
    return_to: ReturnTo,
    reference: &OpenReference,
) -> RowErrors
    ensures { (tag : Tag) → all_of result
        ≡ (at_end references (reference_state_of state (return_of return_to tag) (string_bytes reference.now.seen) reference.now.code)).errors }
{
    let digitless = Some(ParseError::AbsenceOfDigitsInNumericCharacterReference);
    let unclosed = Some(ParseError::MissingSemicolonAfterCharacterReference);
    let code = reference.code;
    match state {
        ReferenceState::CharacterReference => referring(None, None, return_to),
        // If no byte follows, NUL replaces the next one: it is neither '=' nor an alphanumeric.
        ReferenceState::NamedCharacterReference => {
            let seen = reference.seen.as_str();
            referring(named_error(return_to, seen, 0), None, return_to)
        }
        ReferenceState::AmbiguousAmpersand => referring(None, None, return_to),
        ReferenceState::NumericCharacterReference => referring(digitless, None, return_to),
        ReferenceState::HexadecimalStart => referring(digitless, None, return_to),
        ReferenceState::DecimalStart => referring(digitless, None, return_to),
        ReferenceState::Hexadecimal => referring(unclosed, code_error(code), return_to),
        ReferenceState::Decimal => referring(unclosed, code_error(code), return_to),
        ReferenceState::NumericCharacterReferenceEnd => {
            referring(code_error(code), None, return_to)
        }
    }
}
