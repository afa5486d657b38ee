//! The errors of the rows of doctypes (HTML standard, sections 13.2.5.53 to 13.2.5.68).

ghost use Rattle.std.specs.Prelude.{◌≡◌, ◌++◌, ◌==◌, ◌&&◌, ◌||◌, [], ◌∷◌, if◌then◌else◌, length, ℕ, List};
ghost use Rattle.h5_token.specs.TokenText.{DoctypeText};
ghost use Rattle.h5_tokenizer_spec.specs.Doctypes as d;
ghost use Rattle.h5_tokenizer_spec.specs.Machine.{turn};
ghost use Rattle.h5_tokenizer_spec.specs.References.{Reference};
ghost use Rattle.h5_tokenizer_spec.specs.Signs as s;
ghost use Rattle.h5_tokenizer_spec.specs.Told.{if_any};
ghost use Rattle.h5_tokenizer_states.specs.StateOf.{doctype_state_of};

use super::machine_state::DoctypeState;
use super::row_errors::{null_error, only_if};
use super::signs::{is_blank, is_quote, sign_of};
use super::text_errors::begins_further_folded;
use h5_tokenizer_spec::{Identifier, ParseError, Quote};

// Returns the error of the one identifier, or of the other.
fn chosen(id: Identifier, public: ParseError, system: ParseError) -> ParseError
    ensures { result ≡ d.chosen id public system }
{
    match id {
        Identifier::Public => public,
        Identifier::System => system,
    }
}

// Returns true if one of the keywords begins with what was seen and this byte.
fn begins_keyword(seen: &str, b: u8) -> bool
    ensures { result ≡ d.begins_keyword (seen.now ++ b ∷ []) }
{
    begins_further_folded(seen, b, b"public") || begins_further_folded(seen, b, b"system")
}

// 13.2.5.53 DOCTYPE state
fn begin_doctype_error(b: u8) -> Option<ParseError>
    ensures { if_any result ≡ (d.doctype_state b).errors }
{
    only_if(
        !(is_blank(b) || b == b'>'),
        ParseError::MissingWhitespaceBeforeDoctypeName,
    )
}

// 13.2.5.54 Before DOCTYPE name state
fn before_doctype_name_error(b: u8) -> Option<ParseError>
    ensures { if_any result ≡ (d.before_doctype_name_state b).errors }
{
    match b {
        0 => Some(ParseError::UnexpectedNullCharacter),
        b'>' => Some(ParseError::MissingDoctypeName),
        _ => None,
    }
}

// Returns true if the byte is whitespace or '>' before the first letter.
fn is_before_keyword(seen: &str, b: u8) -> bool
    ensures { result ≡ ((length seen.now == 0) && (s.is_blank b || b == s.greater_than_sign)) }
{
    seen.is_empty() && (is_blank(b) || b == b'>')
}

// 13.2.5.56 After DOCTYPE name state
fn after_doctype_name_error(seen: &str, b: u8) -> Option<ParseError>
    ensures { (doctype : DoctypeText) → if_any result ≡ (d.after_doctype_name_state doctype seen.now b).errors }
{
    if is_before_keyword(seen, b) {
        return None;
    }
    only_if(
        !begins_keyword(seen, b),
        ParseError::InvalidCharacterSequenceAfterDoctypeName,
    )
}

// Returns the error of a missing identifier, or of missing quotes.
fn identifier_error(id: Identifier, b: u8) -> ParseError
    ensures { result ≡ (if b == 62 then d.chosen id ParseError.MissingDoctypePublicIdentifier ParseError.MissingDoctypeSystemIdentifier
        else d.chosen id ParseError.MissingQuoteBeforeDoctypePublicIdentifier ParseError.MissingQuoteBeforeDoctypeSystemIdentifier) }
{
    if b == b'>' {
        return chosen(
            id,
            ParseError::MissingDoctypePublicIdentifier,
            ParseError::MissingDoctypeSystemIdentifier,
        );
    }
    chosen(
        id,
        ParseError::MissingQuoteBeforeDoctypePublicIdentifier,
        ParseError::MissingQuoteBeforeDoctypeSystemIdentifier,
    )
}

// 13.2.5.57, 63: After DOCTYPE public keyword state, After DOCTYPE system keyword state
fn after_doctype_keyword_error(id: Identifier, b: u8) -> Option<ParseError>
    ensures { (doctype : DoctypeText) → if_any result ≡ (d.after_doctype_keyword_state id doctype b).errors }
{
    if is_blank(b) {
        return None;
    }
    if is_quote(b) {
        return Some(chosen(
            id,
            ParseError::MissingWhitespaceAfterDoctypePublicKeyword,
            ParseError::MissingWhitespaceAfterDoctypeSystemKeyword,
        ));
    }
    Some(identifier_error(id, b))
}

// 13.2.5.58, 64: Before DOCTYPE public identifier state, Before DOCTYPE system identifier state
fn before_doctype_identifier_error(id: Identifier, b: u8) -> Option<ParseError>
    ensures { (doctype : DoctypeText) → if_any result ≡ (d.before_doctype_identifier_state id doctype b).errors }
{
    if is_blank(b) || is_quote(b) {
        return None;
    }
    Some(identifier_error(id, b))
}

// 13.2.5.59, 60, 65, 66: DOCTYPE public and system identifier (double-quoted) and (single-quoted) state
fn doctype_identifier_error(id: Identifier, quote: Quote, b: u8) -> Option<ParseError>
    ensures { (doctype : DoctypeText) → if_any result ≡ (d.doctype_identifier_state id quote doctype b).errors }
{
    if b == sign_of(quote) {
        return None;
    }
    if b == 0 {
        return Some(ParseError::UnexpectedNullCharacter);
    }
    only_if(
        b == b'>',
        chosen(
            id,
            ParseError::AbruptDoctypePublicIdentifier,
            ParseError::AbruptDoctypeSystemIdentifier,
        ),
    )
}

// 13.2.5.61 After DOCTYPE public identifier state
fn after_doctype_public_identifier_error(b: u8) -> Option<ParseError>
    ensures { (doctype : DoctypeText) → if_any result ≡ (d.after_doctype_public_identifier_state doctype b).errors }
{
    if is_blank(b) || b == b'>' {
        return None;
    }
    if is_quote(b) {
        return Some(ParseError::MissingWhitespaceBetweenDoctypePublicAndSystemIdentifiers);
    }
    Some(ParseError::MissingQuoteBeforeDoctypeSystemIdentifier)
}

// 13.2.5.62 Between DOCTYPE public and system identifiers state
fn between_doctype_identifiers_error(b: u8) -> Option<ParseError>
    ensures { (doctype : DoctypeText) → if_any result ≡ (d.between_doctype_identifiers_state doctype b).errors }
{
    only_if(
        !(is_blank(b) || b == b'>' || is_quote(b)),
        ParseError::MissingQuoteBeforeDoctypeSystemIdentifier,
    )
}

// 13.2.5.67 After DOCTYPE system identifier state
fn after_doctype_system_identifier_error(b: u8) -> Option<ParseError>
    ensures { (doctype : DoctypeText) → if_any result ≡ (d.after_doctype_system_identifier_state doctype b).errors }
{
    only_if(
        !(is_blank(b) || b == b'>'),
        ParseError::UnexpectedCharacterAfterDoctypeSystemIdentifier,
    )
}

/// The error of a row of doctypes.
pub fn doctype_error(state: DoctypeState, seen: &str, b: u8) -> Option<ParseError>
    ensures { (table : List Reference) (last : List ℕ) (doctype : DoctypeText) →
        if_any result ≡ (turn table last (doctype_state_of state doctype seen.now) b).errors }
{
    match state {
        DoctypeState::BeginDoctype => begin_doctype_error(b),
        DoctypeState::BeforeDoctypeName => before_doctype_name_error(b),
        DoctypeState::DoctypeName => null_error(b),
        DoctypeState::AfterDoctypeName => after_doctype_name_error(seen, b),
        DoctypeState::AfterDoctypeKeyword(id) => after_doctype_keyword_error(id, b),
        DoctypeState::BeforeDoctypeIdentifier(id) => before_doctype_identifier_error(id, b),
        DoctypeState::DoctypeIdentifier(id, quote) => doctype_identifier_error(id, quote, b),
        DoctypeState::AfterDoctypePublicIdentifier => after_doctype_public_identifier_error(b),
        DoctypeState::BetweenDoctypeIdentifiers => between_doctype_identifiers_error(b),
        DoctypeState::AfterDoctypeSystemIdentifier => after_doctype_system_identifier_error(b),
        DoctypeState::BogusDoctype => null_error(b),
    }
}
