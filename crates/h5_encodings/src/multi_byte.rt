//! What the decoders of encodings with several bytes per character share.
ghost use Rattle.std.specs.Prelude.{◌≡◌, slice_index};
ghost use Rattle.h5_encodings.specs.MultiByte.{code_point, first_byte, is_between, katakana, last_byte, lead_breaks_off, lead_of, not_null};

use super::steps::{Kept, Shown, Step};

pub fn is_between(low: u8, high: u8, byte: u8) -> bool
    ensures { result ≡ is_between low high byte }
{
    low <= byte && byte <= high
}

/// Returns the lead byte that is stored, if any.
pub fn lead_of(kept: Kept) -> Option<u8>
    ensures { result ≡ lead_of kept }
{
    match kept {
        Kept::Lead(lead) => Some(lead),
        _ => None,
    }
}

/// Returns the half-width katakana of a byte from 0xA1 to 0xDF.
pub fn katakana(byte: u8) -> char
    ensures { result ≡ katakana byte }
{
    char::from_u32(0xFF61 + (byte as u32).saturating_sub(0xA1)).unwrap()
}

// Returns the entry of an index at a pointer, or U+0000 after its end.
fn entry(index: &[char], pointer: usize) -> char
    ensures { result ≡ slice_index index.now pointer }
{
    if pointer < index.len() {
        index[pointer]
    } else {
        '\0'
    }
}

// U+0000 in an index means that the pointer has no code point.
fn not_null(character: char) -> Option<char>
    ensures { result ≡ not_null character }
{
    if character == '\0' {
        None
    } else {
        Some(character)
    }
}

/// Returns the index code point of a pointer, if there is one (Encoding Standard, section 5, "index code point").
pub fn code_point(index: &[char], pointer: Option<usize>) -> Option<char>
    ensures { result ≡ code_point index.now pointer }
{
    match pointer {
        Some(pointer) => not_null(entry(index, pointer)),
        None => None,
    }
}

/// The step of the first byte of a character.
pub fn first_byte(is_lead: bool, byte: u8) -> Step
    ensures { result ≡ first_byte is_lead byte }
{
    if byte < 128 {
        return Step::of(Shown::Character(byte as char), Kept::Nothing);
    }
    if is_lead {
        Step::of(Shown::Nothing, Kept::Lead(byte))
    } else {
        Step::of(Shown::Error, Kept::Nothing)
    }
}

/// The step of the last byte of a code point. Without a code point, the output is an error, and then the byte itself if it is
/// ASCII.
pub fn last_byte(code_point: Option<char>, byte: u8) -> Step
    ensures { result ≡ last_byte code_point byte }
{
    let shown = match code_point {
        Some(character) => Shown::Character(character),
        None => {
            if byte < 128 {
                Shown::ErrorAnd(byte as char)
            } else {
                Shown::Error
            }
        }
    };
    Step::of(shown, Kept::Nothing)
}

/// Returns true if an end here is after a lead byte.
pub fn lead_breaks_off(lead: Option<u8>) -> bool
    ensures { result ≡ lead_breaks_off lead }
{
    lead.is_some()
}
