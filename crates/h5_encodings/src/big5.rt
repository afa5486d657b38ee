//! Big5.
ghost use Rattle.std.specs.Prelude.{◌≡◌};
ghost use Rattle.h5_encodings.specs.Big5.{big5_step, of_pointer, offset, pointer};
ghost use Rattle.h5_encodings.specs.Steps.{shows};
ghost use Rattle.h5_encodings.specs.declared.steps.Kept.TheVariants as k;
ghost use Rattle.h5_encodings.specs.declared.steps.Shown.TheVariants.{Two};

use super::big5_index::big5_index;
use super::multi_byte::{code_point, first_byte, is_between, last_byte, lead_of};
use super::steps::{Kept, Shown, Step};

fn offset(byte: u8) -> usize
    ensures { result ≡ offset byte }
{
    if byte < 0x7F { 0x40 } else { 0x62 }
}

// Returns the pointer of a lead byte and the next byte. A lead byte is at least 0x81.
fn pointer(lead: u8, byte: u8) -> Option<usize>
    ensures { result ≡ pointer lead byte }
{
    if is_between(0x40, 0x7E, byte) || is_between(0xA1, 0xFE, byte) {
        let row = (lead as usize).saturating_sub(0x81);
        Some(row * 157 + (byte as usize).saturating_sub(offset(byte)))
    } else {
        None
    }
}

fn two(first: char, second: char) -> Step
    ensures { result ≡ shows (Two first second) k.Nothing }
{
    Step::of(Shown::Two(first, second), Kept::Nothing)
}

// The step of the last byte of a pointer.
fn of_pointer(pointer: Option<usize>, byte: u8) -> Step
    ensures { result ≡ of_pointer pointer byte }
{
    match pointer {
        Some(1133) => two('\u{CA}', '\u{304}'),
        Some(1135) => two('\u{CA}', '\u{30C}'),
        Some(1164) => two('\u{EA}', '\u{304}'),
        Some(1166) => two('\u{EA}', '\u{30C}'),
        _ => last_byte(code_point(big5_index(), pointer), byte),
    }
}

/// The step of a byte in Big5 (Encoding Standard, section 11.1.1, "Big5 decoder").
pub fn big5_step(kept: Kept, byte: u8) -> Step
    ensures { result ≡ big5_step kept byte }
{
    match lead_of(kept) {
        Some(lead) => of_pointer(pointer(lead, byte), byte),
        None => first_byte(is_between(0x81, 0xFE, byte), byte),
    }
}
