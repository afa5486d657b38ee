//! UTF-16.
ghost use Rattle.std.specs.Prelude.{◌≡◌};
ghost use Rattle.h5_encodings.specs.Utf16.{behind_leading, of_unit, pair, unit_of, utf_16_breaks_off, utf_16_step};

use super::steps::{Kept, Shown, Step};

// Returns the code unit of two bytes.
fn unit_of(is_big_endian: bool, first: u8, second: u8) -> u16
    ensures { result ≡ unit_of is_big_endian first second }
{
    if is_big_endian {
        first as u16 * 256 + second as u16
    } else {
        second as u16 * 256 + first as u16
    }
}

// The step of a code unit if nothing is stored.
fn of_unit(unit: u16) -> Step
    ensures { result ≡ of_unit unit }
{
    match char::from_u32(unit as u32) {
        Some(character) => Step::of(Shown::Character(character), Kept::Nothing),
        None => {
            if unit < 0xdc00 {
                Step::of(Shown::Nothing, Kept::Leading(unit))
            } else {
                Step::of(Shown::Error, Kept::Nothing)
            }
        }
    }
}

// Returns the character of a surrogate pair.
fn pair(leading: u16, trailing: u16) -> char
    ensures { result ≡ pair leading trailing }
{
    let high = (leading % 1024) as u32 * 1024;
    let low = (trailing % 1024) as u32;
    char::from_u32(0x10000 + high + low).unwrap()
}

// The step of a code unit after a leading surrogate.
fn behind_leading(leading: u16, unit: u16) -> Step
    ensures { result ≡ behind_leading leading unit }
{
    if 0xdc00 <= unit && unit <= 0xdfff {
        return Step::of(Shown::Character(pair(leading, unit)), Kept::Nothing);
    }
    match char::from_u32(unit as u32) {
        Some(character) => Step::of(Shown::ErrorAnd(character), Kept::Nothing),
        None => Step::of(Shown::Error, Kept::Leading(unit)),
    }
}

/// The step of a byte in UTF-16 (Encoding Standard, section 14.2.1, "shared UTF-16 decoder").
pub fn utf_16_step(is_big_endian: bool, kept: Kept, byte: u8) -> Step
    ensures { result ≡ utf_16_step is_big_endian kept byte }
{
    match kept {
        Kept::Nothing
        | Kept::Told
        | Kept::Lead(_)
        | Kept::Jis0212(_)
        | Kept::TwoOfFour(_, _)
        | Kept::ThreeOfFour(_, _, _)
        | Kept::Jp(_) => Step::of(Shown::Nothing, Kept::Half(byte)),
        Kept::Half(first) => of_unit(unit_of(is_big_endian, first, byte)),
        Kept::Leading(leading) => Step::of(Shown::Nothing, Kept::LeadingHalf(leading, byte)),
        Kept::LeadingHalf(leading, first) => {
            behind_leading(leading, unit_of(is_big_endian, first, byte))
        }
    }
}

/// Returns true if an end here is inside a character in UTF-16 (Encoding Standard, section 14.2.1, "shared UTF-16 decoder").
pub fn utf_16_breaks_off(kept: Kept) -> bool
    ensures { result ≡ utf_16_breaks_off kept }
{
    match kept {
        Kept::Nothing
        | Kept::Told
        | Kept::Lead(_)
        | Kept::Jis0212(_)
        | Kept::TwoOfFour(_, _)
        | Kept::ThreeOfFour(_, _, _)
        | Kept::Jp(_) => false,
        Kept::Half(_) | Kept::Leading(_) | Kept::LeadingHalf(_, _) => true,
    }
}
