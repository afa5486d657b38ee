//! The errors of the rows of character references (HTML standard, sections 13.2.5.72 to 13.2.5.80).

ghost use Rattle.std.specs.Prelude.{◌≡◌, ◌++◌, [], ◌∷◌, ℕ, List, Some, take, string_bytes};
ghost use Rattle.std.specs.Str.{IsAscii};
ghost use Rattle.h5_tokenizer_spec.specs.Construction.{Tag};
ghost use Rattle.h5_tokenizer_spec.specs.Machine.{turn};
ghost use Rattle.h5_tokenizer_spec.specs.References as r;
ghost use Rattle.h5_tokenizer_spec.specs.References.{longest};
ghost use Rattle.h5_tokenizer_spec.specs.ReferenceTable.{references};
ghost use Rattle.h5_tokenizer_spec.specs.SeenAhead.{behind_found, seen_ahead};
ghost use Rattle.h5_tokenizer_spec.specs.States.{Return};
ghost use Rattle.h5_tokenizer_states.specs.Found.{found_in};
ghost use Rattle.h5_tokenizer_states.specs.Flushing.{behind_digits};
ghost use Rattle.h5_tokenizer_spec.specs.Told.{if_any};
ghost use Rattle.h5_tokenizer_states.specs.StateOf.{reference_state_of, return_of};

use super::codes::code_error;
use super::machine_state::{ReferenceState, ReturnTo};
use super::references::{OpenReference, is_closed, is_historical, split_found};
use super::row_errors::only_if;
use super::signs::is_hex_digit;
use crate::{Named, further_len, longest};
use h5_tokenizer_spec::ParseError;

// Returns true if a name of the table begins with what was seen and this byte.
fn begins_further(seen: &str, b: u8) -> bool
    ensures { result ≡ r.is_beginning references (seen.now ++ b ∷ []) }
{
    if further_len(seen.as_bytes(), &[b]) == 0 {
        return false;
    }
    true
}

// Returns the error of a name that was found in what was seen. The byte is the current one.
fn found_error(return_to: ReturnTo, seen: &str, found: &Named, b: u8) -> Option<ParseError>
    requires { IsAscii (take found.now.len seen.now) }
    ensures { (tag : Tag) → if_any result ≡ (r.named (return_of return_to tag) seen.now b (found_in seen.now (Some found.now))).errors }
{
    let (name, rest) = split_found(seen, found);
    if is_historical(return_to, name, rest, b) {
        return None;
    }
    only_if(
        !is_closed(name),
        ParseError::MissingSemicolonAfterCharacterReference,
    )
}

/// Returns the error of what was seen if no name goes on with the byte, which is the current one.
pub fn named_error(return_to: ReturnTo, seen: &str, b: u8) -> Option<ParseError>
    ensures { (tag : Tag) → if_any result ≡ (r.named (return_of return_to tag) seen.now b (longest references seen.now)).errors }
{
    match longest(seen.as_bytes()) {
        None => None,
        Some(found) => found_error(return_to, seen, &found, b),
    }
}

// 13.2.5.73 Named character reference state
fn named_reference_error(return_to: ReturnTo, seen: &str, b: u8) -> Option<ParseError>
    ensures { (tag : Tag) → if_any result ≡ (r.named_character_reference_state references (return_of return_to tag) seen.now b).errors }
{
    if begins_further(seen, b) {
        return None;
    }
    named_error(return_to, seen, b)
}

// After the digits of a number.
fn digits_error(code: u32, b: u8) -> Option<ParseError>
    ensures { (return : Return) → if_any result ≡ (behind_digits return code b).errors }
{
    if b == b';' {
        return code_error(code);
    }
    Some(ParseError::MissingSemicolonAfterCharacterReference)
}

// 13.2.5.78 Hexadecimal character reference state
fn hexadecimal_error(code: u32, b: u8) -> Option<ParseError>
    ensures { (return : Return) → if_any result ≡ (r.hexadecimal_state return code b).errors }
{
    if is_hex_digit(b) {
        return None;
    }
    digits_error(code, b)
}

// 13.2.5.79 Decimal character reference state
fn decimal_error(code: u32, b: u8) -> Option<ParseError>
    ensures { (return : Return) → if_any result ≡ (r.decimal_state return code b).errors }
{
    if b.is_ascii_digit() {
        return None;
    }
    digits_error(code, b)
}

// Returns how much was seen after the name that was found, if any.
fn behind_found(seen: &str) -> usize
    ensures { result ≡ behind_found (longest references seen.now) }
{
    match longest(seen.as_bytes()) {
        None => 0,
        Some(found) => {
            let (_name, rest) = split_found(seen, &found);
            rest.len()
        }
    }
}

/// Returns how much of what was seen in a state of character references the standard hasn't consumed.
pub fn seen_behind_name(state: ReferenceState, reference: &OpenReference) -> usize
    ensures { (return : Return) → result ≡ seen_ahead references (reference_state_of state return (string_bytes reference.now.seen) reference.now.code) }
{
    match state {
        ReferenceState::NamedCharacterReference => behind_found(reference.seen.as_str()),
        _ => 0,
    }
}

/// The error of a row of character references.
pub fn reference_error(
    state: ReferenceState,
    return_to: ReturnTo,
    reference: &OpenReference,
    b: u8,
) -> Option<ParseError>
    ensures { (last : List ℕ) (tag : Tag) → if_any result
        ≡ (turn references last (reference_state_of state (return_of return_to tag) (string_bytes reference.now.seen) reference.now.code) b).errors }
{
    match state {
        ReferenceState::CharacterReference => None,
        ReferenceState::NamedCharacterReference => named_reference_error(
            return_to,
            reference.seen.as_str(),
            b,
        ),
        ReferenceState::AmbiguousAmpersand => only_if(
            b == b';',
            ParseError::UnknownNamedCharacterReference,
        ),
        ReferenceState::NumericCharacterReference => None,
        ReferenceState::HexadecimalStart => only_if(
            !is_hex_digit(b),
            ParseError::AbsenceOfDigitsInNumericCharacterReference,
        ),
        ReferenceState::DecimalStart => only_if(
            !b.is_ascii_digit(),
            ParseError::AbsenceOfDigitsInNumericCharacterReference,
        ),
        ReferenceState::Hexadecimal => hexadecimal_error(reference.code, b),
        ReferenceState::Decimal => decimal_error(reference.code, b),
        ReferenceState::NumericCharacterReferenceEnd => code_error(reference.code),
    }
}
