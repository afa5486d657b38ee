//! Shift_JIS.
ghost use Rattle.std.specs.Prelude.{◌≡◌, ◌+◌, ◌-◌, ◌≤◌};
ghost use Rattle.h5_encodings.specs.ShiftJis.{character, first, lead_offset, offset, pointer, shift_jis_step};

use super::jis0208_index::jis0208_index;
use super::multi_byte::{code_point, first_byte, is_between, katakana, last_byte, lead_of};
use super::steps::{Kept, Shown, Step};

fn offset(byte: u8) -> usize
    ensures { result ≡ offset byte }
{
    if byte < 0x7F { 0x40 } else { 0x41 }
}

fn lead_offset(lead: u8) -> usize
    ensures { result ≡ lead_offset lead }
{
    if lead < 0xA0 { 0x81 } else { 0xC1 }
}

// Returns the pointer of a lead byte and the next byte. A lead byte is at least its offset.
fn pointer(lead: u8, byte: u8) -> Option<usize>
    ensures { result ≡ pointer lead byte }
{
    if is_between(0x40, 0x7E, byte) || is_between(0x80, 0xFC, byte) {
        let row = (lead as usize).saturating_sub(lead_offset(lead));
        Some(row * 188 + (byte as usize).saturating_sub(offset(byte)))
    } else {
        None
    }
}

// Returns the private-use character of a pointer from 8836 to 10715.
fn private(pointer: usize) -> char
    requires lower { 8836 ≤ pointer }
    requires upper { pointer ≤ 10715 }
    ensures { result ≡ 0xE000 + (pointer - 8836) }
{
    char::from_u32(0xE000 + (pointer - 8836) as u32).unwrap()
}

// Returns the character of a pointer, if it has one.
fn character(pointer: Option<usize>) -> Option<char>
    ensures { result ≡ character pointer }
{
    match pointer {
        Some(pointer) => {
            if 8836 <= pointer && pointer <= 10715 {
                Some(private(pointer))
            } else {
                code_point(jis0208_index(), Some(pointer))
            }
        }
        None => None,
    }
}

// The step of a byte that doesn't follow a lead byte.
fn first(byte: u8) -> Step
    ensures { result ≡ first byte }
{
    if byte == 0x80 {
        return Step::of(Shown::Character(byte as char), Kept::Nothing);
    }
    if is_between(0xA1, 0xDF, byte) {
        return Step::of(Shown::Character(katakana(byte)), Kept::Nothing);
    }
    first_byte(
        is_between(0x81, 0x9F, byte) || is_between(0xE0, 0xFC, byte),
        byte,
    )
}

/// The step of a byte in Shift_JIS (Encoding Standard, section 12.3.1, "Shift_JIS decoder").
pub fn shift_jis_step(kept: Kept, byte: u8) -> Step
    ensures { result ≡ shift_jis_step kept byte }
{
    match lead_of(kept) {
        Some(lead) => last_byte(character(pointer(lead, byte)), byte),
        None => first(byte),
    }
}
