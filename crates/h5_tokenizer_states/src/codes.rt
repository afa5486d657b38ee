//! The numbers of character references (HTML standard, section 13.2.5.80).

ghost use Rattle.std.specs.Prelude.{◌≡◌, ◌<◌, ◌≤◌, ◌-◌, ◌+◌, ◌*◌, ◌||◌, true, encode_utf8, if◌then◌else◌, nat_lt};
ghost use Rattle.h5_tokenizer_spec.specs.References as r;
ghost use Rattle.h5_tokenizer_spec.specs.Signs.{is_hex_digit, replacement};
ghost use Rattle.h5_tokenizer_spec.specs.InputErrors.{character_errors};
ghost use Rattle.h5_tokenizer_spec.specs.Told.{if_any};

use super::row_errors::only_if;
use h5_tokenizer_spec::ParseError;

// The code points of references to 0x80 to 0x9F; 0 if the number is the code point.
const REPLACEMENTS: [u16; 32] = [
    0x20ac, 0, 0x201a, 0x0192, 0x201e, 0x2026, 0x2020, 0x2021, 0x02c6, 0x2030, 0x0160, 0x2039,
    0x0152, 0, 0x017d, 0, 0, 0x2018, 0x2019, 0x201c, 0x201d, 0x2022, 0x2013, 0x2014, 0x02dc,
    0x2122, 0x0161, 0x203a, 0x0153, 0, 0x017e, 0x0178,
];

// A number above the last code point stays above it.
const PAST_UNICODE: u32 = 0x110000;

fn bounded(code: u32) -> u32
    ensures { result ≡ r.bounded code }
{
    code.min(PAST_UNICODE)
}

// Returns the value of a hexadecimal digit.
fn digit(b: u8) -> u32
    requires { is_hex_digit b ≡ true }
    ensures { result ≡ r.digit b }
{
    if b.is_ascii_digit() {
        return (b - b'0') as u32;
    }
    (b.to_ascii_lowercase() - b'a') as u32 + 10
}

/// Appends a digit to a number, in this base. A number above the last code point stays above it.
pub fn with_digit(code: u32, base: u32, b: u8) -> u32
    requires { is_hex_digit b ≡ true }
    ensures { result ≡ r.bounded (code * base + r.digit b) }
{
    bounded(code.saturating_mul(base).saturating_add(digit(b)))
}

fn is_noncharacter(code: u32) -> bool
    ensures { result ≡ r.is_noncharacter code }
{
    (0xfdd0 <= code && code <= 0xfdef) || 0xfffe <= code % 0x10000
}

fn is_control(code: u32) -> bool
    ensures { result ≡ r.is_control code }
{
    (code < 0x20 && !(code == 9 || code == 10 || code == 12)) || (0x7f <= code && code <= 0x9f)
}

/// Returns the error of a number, if any.
pub fn code_error(code: u32) -> Option<ParseError>
    ensures { if_any result ≡ r.code_errors code }
{
    if code == 0 {
        return Some(ParseError::NullCharacterReference);
    }
    if code > 0x10ffff {
        return Some(ParseError::CharacterReferenceOutsideUnicodeRange);
    }
    if 0xd800 <= code && code <= 0xdfff {
        return Some(ParseError::SurrogateCharacterReference);
    }
    if is_noncharacter(code) {
        return Some(ParseError::NoncharacterCharacterReference);
    }
    only_if(is_control(code), ParseError::ControlCharacterReference)
}

/// Returns the error of a character of the input stream, if any: a noncharacter, or a control other than NUL and ASCII
/// whitespace (HTML standard, section 13.2.3.5).
pub fn input_error(c: char) -> Option<ParseError>
    ensures { if_any result ≡ character_errors c }
{
    let code = c as u32;
    if is_noncharacter(code) {
        return Some(ParseError::NoncharacterInInputStream);
    }
    only_if(
        is_control(code) && !(code == 0 || code == 13),
        ParseError::ControlCharacterInInputStream,
    )
}

// Returns the replacement of a code point of the C1 controls.
fn replaced(code: u32) -> u32
    requires low { 0x80 ≤ code }
    requires high { code ≤ 0x9f }
    ensures value { result ≡ r.or_itself code (r.at_or r.replacements (code - 0x80)) }
    ensures low { result < 0xd800 }
{
    let other = REPLACEMENTS[(code - 0x80) as usize];
    if other == 0 { code } else { other as u32 }
}

const UNKNOWN: char = '\u{fffd}';

// Returns the character with a number, or U+FFFD if there is none.
fn character(code: u32) -> char
    ensures { encode_utf8 result ≡ (if nat_lt 0x10ffff code || r.is_surrogate code then replacement else encode_utf8 code) }
{
    match char::from_u32(code) {
        Some(c) => c,
        None => UNKNOWN,
    }
}

/// Returns the character of a number.
pub fn code_point(code: u32) -> char
    ensures { encode_utf8 result ≡ r.code_point code }
{
    if code == 0 {
        return UNKNOWN;
    }
    if 0x80 <= code && code <= 0x9f {
        return character(replaced(code));
    }
    character(code)
}
