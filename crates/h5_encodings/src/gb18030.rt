//! gb18030 and GBK, which have one decoder.
ghost use Rattle.std.specs.Prelude.{◌≡◌, ◌≤◌};
ghost use Rattle.h5_encodings.specs.Gb18030.{behind_lead, behind_three, behind_two, counted_from, first, gb18030_breaks_off, gb18030_step, is_digit, is_lead, offset, pointer, ranges_code_point, ranges_pointer, row_at, scalar};

use super::gb18030_index::gb18030_index;
use super::gb18030_ranges::gb18030_ranges;
use super::multi_byte::{code_point, first_byte, is_between, last_byte};
use super::steps::{Kept, Shown, Step};

fn is_lead(byte: u8) -> bool
    ensures { result ≡ is_lead byte }
{
    is_between(0x81, 0xFE, byte)
}

fn is_digit(byte: u8) -> bool
    ensures { result ≡ is_digit byte }
{
    is_between(b'0', b'9', byte)
}

fn offset(byte: u8) -> usize
    ensures { result ≡ offset byte }
{
    if byte < 0x7F { 0x40 } else { 0x41 }
}

// Returns the pointer of a lead byte and the next byte. A lead byte is at least 0x81.
fn pointer(lead: u8, byte: u8) -> Option<usize>
    ensures { result ≡ pointer lead byte }
{
    if is_between(0x40, 0x7E, byte) || is_between(0x80, 0xFE, byte) {
        let row = (lead as usize).saturating_sub(0x81);
        Some(row * 190 + (byte as usize).saturating_sub(offset(byte)))
    } else {
        None
    }
}

// Returns the pointer of four bytes in the index gb18030 ranges.
fn ranges_pointer(first: u8, second: u8, third: u8, fourth: u8) -> u32
    ensures { result ≡ ranges_pointer first second third fourth }
{
    (first as u32).saturating_sub(0x81) * 12600
        + (second as u32).saturating_sub(0x30) * 1260
        + (third as u32).saturating_sub(0x81) * 10
        + (fourth as u32).saturating_sub(0x30)
}

// Returns the last row whose pointer is at most the given one. There are 207 rows.
fn row_at(rows: &[(u32, char)], pointer: u32) -> (u32, char)
    ensures { result ≡ row_at (0, 0) rows.now pointer }
{
    let mut found = (0, '\0');
    for &row in rows {
        if row.0 <= pointer {
            found = row;
        }
    }
    found
}

fn scalar(code: u32) -> Option<char>
    ensures { result ≡ scalar code }
{
    match char::from_u32(code) {
        Some(character) => Some(character),
        None => None,
    }
}

// Returns the code point that is as far after that of a row as the pointer is after the row's.
fn counted_from(row: (u32, char), pointer: u32) -> Option<char>
    requires { pointer ≤ 1237575 }
    ensures { result ≡ counted_from row pointer }
{
    scalar(row.1 as u32 + pointer.saturating_sub(row.0))
}

// Returns the index gb18030 ranges code point of a pointer, if it has one (Encoding Standard, section 5, "Indexes").
fn ranges_code_point(pointer: u32) -> Option<char>
    ensures { result ≡ ranges_code_point pointer }
{
    if (39419 < pointer && pointer < 189000) || 1237575 < pointer {
        return None;
    }
    if pointer == 7457 {
        return Some('\u{E7C7}');
    }
    counted_from(row_at(gb18030_ranges(), pointer), pointer)
}

// The step of a byte if no bytes are stored.
fn first(byte: u8) -> Step
    ensures { result ≡ first byte }
{
    if byte == 0x80 {
        return Step::of(Shown::Character('\u{20AC}'), Kept::Nothing);
    }
    first_byte(is_lead(byte), byte)
}

// The step of a byte after a lead byte.
fn behind_lead(lead: u8, byte: u8) -> Step
    ensures { result ≡ behind_lead lead byte }
{
    if is_digit(byte) {
        return Step::of(Shown::Nothing, Kept::TwoOfFour(lead, byte));
    }
    last_byte(code_point(gb18030_index(), pointer(lead, byte)), byte)
}

// The step of a byte after a lead byte and a digit. If it isn't the third of four bytes, the digit is a character.
fn behind_two(lead: u8, second: u8, byte: u8) -> Step
    ensures { result ≡ behind_two lead second byte }
{
    if is_lead(byte) {
        return Step::of(Shown::Nothing, Kept::ThreeOfFour(lead, second, byte));
    }
    first(byte).after(Shown::ErrorAnd(second as char))
}

// The step of a byte after three of four. If it isn't the fourth, the digit is a character, and the third byte is a lead byte.
fn behind_three(lead: u8, second: u8, third: u8, byte: u8) -> Step
    ensures { result ≡ behind_three lead second third byte }
{
    if !is_digit(byte) {
        return behind_lead(third, byte).after(Shown::ErrorAnd(second as char));
    }
    let shown = match ranges_code_point(ranges_pointer(lead, second, third, byte)) {
        Some(character) => Shown::Character(character),
        None => Shown::Error,
    };
    Step::of(shown, Kept::Nothing)
}

/// The step of a byte in gb18030 and in GBK (Encoding Standard, section 10.2.1, "gb18030 decoder").
pub fn gb18030_step(kept: Kept, byte: u8) -> Step
    ensures { result ≡ gb18030_step kept byte }
{
    match kept {
        Kept::Lead(lead) => behind_lead(lead, byte),
        Kept::TwoOfFour(lead, second) => behind_two(lead, second, byte),
        Kept::ThreeOfFour(lead, second, third) => behind_three(lead, second, third, byte),
        _ => first(byte),
    }
}

/// Returns true if an end here is inside a character in gb18030 and in GBK (Encoding Standard, section 10.2.1, "gb18030
/// decoder").
pub fn gb18030_breaks_off(kept: Kept) -> bool
    ensures { result ≡ gb18030_breaks_off kept }
{
    match kept {
        Kept::Lead(_) | Kept::TwoOfFour(_, _) | Kept::ThreeOfFour(_, _, _) => true,
        _ => false,
    }
}
