//! The rows of character references (HTML standard, sections 13.2.5.72 to 13.2.5.80).

ghost use Rattle.std.specs.Prelude.{◌≡◌, ◌++◌, ◌∷◌, [], Some, IfOk, OnOk, codes, take, drop, encode_utf8, string_bytes, is_some, ℕ, List, if◌then◌else◌};
ghost use Rattle.std.specs.Str.{IsAscii};
ghost use Rattle.h5_tokenizer_spec.specs.Construction.{Tag};
ghost use Rattle.h5_tokenizer_spec.specs.Machine.{turn};
ghost use Rattle.h5_tokenizer_spec.specs.References as r;
ghost use Rattle.h5_tokenizer_spec.specs.References.{longest};
ghost use Rattle.h5_tokenizer_spec.specs.ReferenceTable.{references};
ghost use Rattle.h5_tokenizer_states.specs.Found.{found_in};
ghost use Rattle.h5_tokenizer_states.specs.StateOf.{reference_state_of, return_of};
ghost use Rattle.h5_tokenizer_states.specs.Flushing.{Flushes, DoesReference, DoesSeen, DoesCode, DoesFlush, behind_digits, text_named};

use super::codes::{code_point, with_digit};
use super::machine_state::{MachineState, ReferenceState, ReturnTo, returned};
use super::signs::{is_alphanumeric, is_hex_digit, push_byte};
use super::tag::OpenTag;
use super::transition::Transition;
use crate::{Named, is_beginning, longest};
use std::alloc::AllocError;

/// A character reference so far.
#[derive(Drop)]
pub struct OpenReference {
    /// What was seen of a name, or the sign before a hexadecimal number.
    pub seen: String,
    pub code: u32,
}

fn goes(state: ReferenceState, return_to: ReturnTo) -> Transition
    ensures { result ≡ Transition.Consumed (MachineState.Reference state return_to) }
{
    Transition::Consumed(MachineState::Reference(state, return_to))
}

fn again(state: ReferenceState, return_to: ReturnTo) -> Transition
    ensures { result ≡ Transition.Reconsumed (MachineState.Reference state return_to) }
{
    Transition::Reconsumed(MachineState::Reference(state, return_to))
}

/// Flushes code points consumed as a character reference.
pub fn flush(
    return_to: ReturnTo,
    tag: &mut OpenTag,
    out: &mut String,
    text: &str,
) -> Result<(), AllocError>
    ensures { OnOk result (Flushes return_to text.now tag.old (string_bytes out.old) tag.new (string_bytes out.new)) }
{
    match return_to {
        ReturnTo::Data => out.push_str(text),
        ReturnTo::Rcdata => out.push_str(text),
        ReturnTo::Value(_) => tag.push_value(text),
    }
}

/// Flushes a character consumed as a character reference.
pub fn flush_char(
    return_to: ReturnTo,
    tag: &mut OpenTag,
    out: &mut String,
    c: char,
) -> Result<(), AllocError>
    ensures { OnOk result (Flushes return_to (encode_utf8 c) tag.old (string_bytes out.old) tag.new (string_bytes out.new)) }
{
    match return_to {
        ReturnTo::Data => out.push(c),
        ReturnTo::Rcdata => out.push(c),
        ReturnTo::Value(_) => tag.push_value_char(c),
    }
}

fn is_in_attribute(return_to: ReturnTo) -> bool
    ensures { (tag : Tag) → result ≡ r.is_in_attribute (return_of return_to tag) }
{
    match return_to {
        ReturnTo::Data => false,
        ReturnTo::Rcdata => false,
        ReturnTo::Value(_) => true,
    }
}

// 13.2.5.72 Character reference state
fn character_reference(
    return_to: ReturnTo,
    reference: &mut OpenReference,
    tag: &mut OpenTag,
    out: &mut String,
    b: u8,
) -> Result<Transition, AllocError>
    ensures { IfOk result (λ transition. DoesReference transition (string_bytes out.old) (string_bytes out.new) tag.new (string_bytes reference.new.seen) reference.new.code (r.character_reference_state (return_of return_to tag.old) b)) }
{
    if is_alphanumeric(b) {
        reference.seen.clear();
        return Ok(again(ReferenceState::NamedCharacterReference, return_to));
    }
    if b == b'#' {
        return Ok(goes(ReferenceState::NumericCharacterReference, return_to));
    }
    flush(return_to, tag, out, "&")?;
    Ok(Transition::Reconsumed(returned(return_to)))
}

// Returns the first byte of what follows, or else the current byte.
fn next_of(rest: &str, b: u8) -> u8
    ensures { result ≡ r.first_of rest.now b }
{
    match rest.as_bytes().first() {
        Some(next) => *next,
        None => b,
    }
}

/// Returns true if a name ends in a semicolon.
#[tactic(auto, using(crate::proofs::FlushLaws::ends_in_last))]
pub fn is_closed(name: &str) -> bool
    ensures { result ≡ r.ends_in 59 name.now }
{
    let bytes = name.as_bytes();
    0 < bytes.len() && bytes[bytes.len() - 1] == b';'
}

/// Splits what was seen after the name that was found.
pub fn split_found<'a>(seen: &'a str, found: &Named) -> (&'a str, &'a str)
    requires { IsAscii (take found.now.len seen.now) }
    ensures name { result.0.now ≡ take found.now.len seen.now }
    ensures rest { result.1.now ≡ drop found.now.len seen.now }
{
    seen.split_at(found.len.min(seen.len()))
}

/// For historical reasons, a name without a semicolon in an attribute is text if '=' or an alphanumeric follows.
pub fn is_historical(return_to: ReturnTo, name: &str, rest: &str, b: u8) -> bool
    ensures { (tag : Tag) (text : List ℕ) →
        result ≡ r.is_historical (return_of return_to tag) (record { name = name.now; text = text; rest = rest.now }) b }
{
    let next = next_of(rest, b);
    is_in_attribute(return_to) && !is_closed(name) && (next == b'=' || is_alphanumeric(next))
}

// Flushes one text, and then another.
fn flush_both(
    return_to: ReturnTo,
    tag: &mut OpenTag,
    out: &mut String,
    text: &str,
    more: &str,
) -> Result<(), AllocError>
    ensures { OnOk result (Flushes return_to (text.now ++ more.now) tag.old (string_bytes out.old) tag.new (string_bytes out.new)) }
{
    flush(return_to, tag, out, text)?;
    flush(return_to, tag, out, more)
}

// Flushes what was seen, unchanged or with its name replaced. The byte is the current one.
fn flush_found(
    return_to: ReturnTo,
    seen: &str,
    tag: &mut OpenTag,
    out: &mut String,
    found: &Named,
    b: u8,
) -> Result<(), AllocError>
    requires { IsAscii (take found.now.len seen.now) }
    ensures { OnOk result (Flushes return_to (text_named (return_of return_to tag.old) seen.now b (found_in seen.now (Some found.now)))
        tag.old (string_bytes out.old) tag.new (string_bytes out.new)) }
{
    let (name, rest) = split_found(seen, found);
    if is_historical(return_to, name, rest, b) {
        return flush_both(return_to, tag, out, "&", seen);
    }
    flush_both(return_to, tag, out, found.text, rest)
}

/// Flushes what was seen, unchanged or with the name that it begins with replaced. The byte is the current one. Returns true if
/// there was such a name.
pub fn flush_named(
    return_to: ReturnTo,
    seen: &str,
    tag: &mut OpenTag,
    out: &mut String,
    b: u8,
) -> Result<bool, AllocError>
    ensures found { IfOk result (λ found. found ≡ is_some (longest references seen.now)) }
    ensures flushed { OnOk result (Flushes return_to (text_named (return_of return_to tag.old) seen.now b (longest references seen.now))
        tag.old (string_bytes out.old) tag.new (string_bytes out.new)) }
{
    match longest(seen.as_bytes()) {
        None => {
            flush_both(return_to, tag, out, "&", seen)?;
            Ok(false)
        }
        Some(found) => {
            flush_found(return_to, seen, tag, out, &found, b)?;
            Ok(true)
        }
    }
}

// Returns true if a name of the table begins with what was seen and this byte, and then appends the byte to what was seen.
fn goes_on(seen: &mut String, b: u8) -> Result<bool, AllocError>
    ensures { IfOk result (λ further. (further ≡ r.is_beginning references (string_bytes seen.old ++ b ∷ []))
        × (string_bytes seen.new ≡ (if further then string_bytes seen.old ++ b ∷ [] else string_bytes seen.old))) }
{
    if b >= 128 || is_closed(seen.as_str()) {
        return Ok(false);
    }
    push_byte(seen, b)?;
    if is_beginning(seen.as_bytes()) {
        return Ok(true);
    }
    let _ = seen.pop();
    Ok(false)
}

// 13.2.5.73 Named character reference state
fn named_character_reference(
    return_to: ReturnTo,
    seen: &mut String,
    tag: &mut OpenTag,
    out: &mut String,
    b: u8,
) -> Result<Transition, AllocError>
    ensures { IfOk result (λ transition. DoesSeen transition (string_bytes out.old) (string_bytes out.new) tag.new (string_bytes seen.new) (r.named_character_reference_state references (return_of return_to tag.old) (string_bytes seen.old) b)) }
{
    if goes_on(seen, b)? {
        return Ok(goes(ReferenceState::NamedCharacterReference, return_to));
    }
    if flush_named(return_to, seen.as_str(), tag, out, b)? {
        return Ok(Transition::Reconsumed(returned(return_to)));
    }
    Ok(again(ReferenceState::AmbiguousAmpersand, return_to))
}

// 13.2.5.74 Ambiguous ampersand state
fn ambiguous_ampersand(
    return_to: ReturnTo,
    tag: &mut OpenTag,
    out: &mut String,
    b: u8,
) -> Result<Transition, AllocError>
    ensures { IfOk result (λ transition. DoesFlush transition (string_bytes out.old) (string_bytes out.new) tag.new (r.ambiguous_ampersand_state (return_of return_to tag.old) b)) }
{
    if is_alphanumeric(b) {
        flush_char(return_to, tag, out, b as char)?;
        return Ok(goes(ReferenceState::AmbiguousAmpersand, return_to));
    }
    Ok(Transition::Reconsumed(returned(return_to)))
}

// 13.2.5.75 Numeric character reference state
fn numeric_character_reference(
    return_to: ReturnTo,
    seen: &mut String,
    b: u8,
) -> Result<Transition, AllocError>
    ensures { IfOk result (λ transition. (tag : Tag) (out : List ℕ) → DoesSeen transition out out tag (string_bytes seen.new)
        (r.numeric_character_reference_state (return_of return_to tag) b)) }
{
    if b == b'x' || b == b'X' {
        seen.clear();
        push_byte(seen, b)?;
        return Ok(goes(ReferenceState::HexadecimalStart, return_to));
    }
    Ok(again(ReferenceState::DecimalStart, return_to))
}

/// Flushes `&#` and the sign after it, if no digit follows.
pub fn flush_digitless(
    return_to: ReturnTo,
    seen: &str,
    tag: &mut OpenTag,
    out: &mut String,
) -> Result<(), AllocError>
    ensures { OnOk result (Flushes return_to (codes "&#" ++ seen.now) tag.old (string_bytes out.old) tag.new (string_bytes out.new)) }
{
    flush_both(return_to, tag, out, "&#", seen)
}

// 13.2.5.76 Hexadecimal character reference start state
fn hexadecimal_start(
    return_to: ReturnTo,
    reference: &mut OpenReference,
    tag: &mut OpenTag,
    out: &mut String,
    b: u8,
) -> Result<Transition, AllocError>
    ensures { IfOk result (λ transition. DoesReference transition (string_bytes out.old) (string_bytes out.new) tag.new (string_bytes reference.new.seen) reference.new.code (r.hexadecimal_start_state (return_of return_to tag.old) (string_bytes reference.old.seen) b)) }
{
    if is_hex_digit(b) {
        reference.code = 0;
        return Ok(again(ReferenceState::Hexadecimal, return_to));
    }
    flush_digitless(return_to, reference.seen.as_str(), tag, out)?;
    Ok(Transition::Reconsumed(returned(return_to)))
}

// 13.2.5.77 Decimal character reference start state
fn decimal_start(
    return_to: ReturnTo,
    code: &mut u32,
    tag: &mut OpenTag,
    out: &mut String,
    b: u8,
) -> Result<Transition, AllocError>
    ensures { IfOk result (λ transition. DoesCode transition (string_bytes out.old) (string_bytes out.new) tag.new code.new (r.decimal_start_state (return_of return_to tag.old) b)) }
{
    if b.is_ascii_digit() {
        *code = 0;
        return Ok(again(ReferenceState::Decimal, return_to));
    }
    flush_digitless(return_to, "", tag, out)?;
    Ok(Transition::Reconsumed(returned(return_to)))
}

// A number ends here, with or without a ';'.
fn behind_digits(
    return_to: ReturnTo,
    code: u32,
    tag: &mut OpenTag,
    out: &mut String,
    b: u8,
) -> Result<Transition, AllocError>
    ensures { IfOk result (λ transition. DoesCode transition (string_bytes out.old) (string_bytes out.new) tag.new code (behind_digits (return_of return_to tag.old) code b)) }
{
    if b == b';' {
        flush_char(return_to, tag, out, code_point(code))?;
        return Ok(Transition::Consumed(returned(return_to)));
    }
    Ok(again(ReferenceState::NumericCharacterReferenceEnd, return_to))
}

// 13.2.5.78 Hexadecimal character reference state
fn hexadecimal(
    return_to: ReturnTo,
    code: &mut u32,
    tag: &mut OpenTag,
    out: &mut String,
    b: u8,
) -> Result<Transition, AllocError>
    ensures { IfOk result (λ transition. DoesCode transition (string_bytes out.old) (string_bytes out.new) tag.new code.new (r.hexadecimal_state (return_of return_to tag.old) code.old b)) }
{
    if is_hex_digit(b) {
        *code = with_digit(*code, 16, b);
        return Ok(goes(ReferenceState::Hexadecimal, return_to));
    }
    behind_digits(return_to, *code, tag, out, b)
}

// 13.2.5.79 Decimal character reference state
fn decimal(
    return_to: ReturnTo,
    code: &mut u32,
    tag: &mut OpenTag,
    out: &mut String,
    b: u8,
) -> Result<Transition, AllocError>
    ensures { IfOk result (λ transition. DoesCode transition (string_bytes out.old) (string_bytes out.new) tag.new code.new (r.decimal_state (return_of return_to tag.old) code.old b)) }
{
    if b.is_ascii_digit() {
        *code = with_digit(*code, 10, b);
        return Ok(goes(ReferenceState::Decimal, return_to));
    }
    behind_digits(return_to, *code, tag, out, b)
}

// 13.2.5.80 Numeric character reference end state: no character is consumed
fn numeric_character_reference_end(
    return_to: ReturnTo,
    code: u32,
    tag: &mut OpenTag,
    out: &mut String,
) -> Result<Transition, AllocError>
    ensures { IfOk result (λ transition. DoesFlush transition (string_bytes out.old) (string_bytes out.new) tag.new (r.numeric_character_reference_end_state (return_of return_to tag.old) code)) }
{
    flush_char(return_to, tag, out, code_point(code))?;
    Ok(Transition::Reconsumed(returned(return_to)))
}

/// The row of a state of character references. Appends the text that it emits to `out`.
pub fn reference_turn(
    state: ReferenceState,
    return_to: ReturnTo,
    reference: &mut OpenReference,
    tag: &mut OpenTag,
    out: &mut String,
    b: u8,
) -> Result<Transition, AllocError>
    ensures { (last : List ℕ) → IfOk result (λ transition. DoesReference transition (string_bytes out.old) (string_bytes out.new) tag.new (string_bytes reference.new.seen) reference.new.code
        (turn references last (reference_state_of state (return_of return_to tag.old) (string_bytes reference.old.seen) reference.old.code) b)) }
{
    match state {
        ReferenceState::CharacterReference => {
            character_reference(return_to, reference, tag, out, b)
        }
        ReferenceState::NamedCharacterReference => {
            named_character_reference(return_to, &mut reference.seen, tag, out, b)
        }
        ReferenceState::AmbiguousAmpersand => ambiguous_ampersand(return_to, tag, out, b),
        ReferenceState::NumericCharacterReference => {
            numeric_character_reference(return_to, &mut reference.seen, b)
        }
        ReferenceState::HexadecimalStart => hexadecimal_start(return_to, reference, tag, out, b),
        ReferenceState::DecimalStart => decimal_start(return_to, &mut reference.code, tag, out, b),
        ReferenceState::Hexadecimal => hexadecimal(return_to, &mut reference.code, tag, out, b),
        ReferenceState::Decimal => decimal(return_to, &mut reference.code, tag, out, b),
        ReferenceState::NumericCharacterReferenceEnd => {
            numeric_character_reference_end(return_to, reference.code, tag, out)
        }
    }
}
