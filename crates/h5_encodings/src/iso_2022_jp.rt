//! ISO-2022-JP.
ghost use Rattle.std.specs.Prelude.{◌≡◌};
ghost use Rattle.h5_encodings.specs.Iso2022Jp.{behind_dollar, behind_escape, behind_lead, behind_parenthesis, behind_sign, between, byte_in, character, half_width, iso_2022_jp_ending, iso_2022_jp_step, keeps, no_escape, plain, pointer, shown_of, sign_at_end, start, state_of};
ghost use Rattle.h5_encodings.specs.Steps.{text_shown};

use super::jis0208_index::jis0208_index;
use super::multi_byte::{code_point, is_between};
use super::steps::{JpMode, JpPart, JpState, Kept, Shown, Step, broken_off};

// Returns the state of a decoder, by what it stores.
fn state_of(kept: Kept) -> JpState
    ensures { result ≡ state_of kept }
{
    match kept {
        Kept::Jp(state) => state,
        _ => JpState {
            mode: JpMode::Ascii,
            output_flag: false,
            part: JpPart::Nothing,
        },
    }
}

fn keeps(mode: JpMode, output_flag: bool, part: JpPart) -> Kept
    ensures { result ≡ keeps mode output_flag part }
{
    Kept::Jp(JpState {
        mode,
        output_flag,
        part,
    })
}

// Returns the half-width katakana of a byte from 0x21 to 0x5F.
fn half_width(byte: u8) -> char
    ensures { result ≡ half_width byte }
{
    char::from_u32(0xFF61 + (byte as u32).saturating_sub(0x21)).unwrap()
}

// SO, SI and ESC aren't characters.
fn plain(byte: u8) -> Option<char>
    ensures { result ≡ plain byte }
{
    if byte < 128 && !(byte == 0x0E || byte == 0x0F || byte == 0x1B) {
        Some(byte as char)
    } else {
        None
    }
}

// Returns the character of a single byte.
fn character(mode: JpMode, byte: u8) -> Option<char>
    ensures { result ≡ character mode byte }
{
    match mode {
        JpMode::Ascii => plain(byte),
        JpMode::Roman => match byte {
            0x5C => Some('\u{A5}'),
            0x7E => Some('\u{203E}'),
            _ => plain(byte),
        },
        JpMode::Katakana => {
            if is_between(0x21, 0x5F, byte) {
                Some(half_width(byte))
            } else {
                None
            }
        }
        JpMode::TwoBytes => None,
    }
}

fn shown_of(code_point: Option<char>) -> Shown
    ensures { result ≡ shown_of code_point }
{
    match code_point {
        Some(character) => Shown::Character(character),
        None => Shown::Error,
    }
}

// The step of a byte other than ESC, between characters.
fn byte_in(mode: JpMode, byte: u8) -> Step
    ensures { result ≡ byte_in mode byte }
{
    match mode {
        JpMode::Ascii | JpMode::Roman | JpMode::Katakana => Step::of(
            shown_of(character(mode, byte)),
            keeps(mode, false, JpPart::Nothing),
        ),
        JpMode::TwoBytes => {
            if is_between(0x21, 0x7E, byte) {
                Step::of(Shown::Nothing, keeps(mode, false, JpPart::Lead(byte)))
            } else {
                Step::of(Shown::Error, keeps(mode, false, JpPart::Nothing))
            }
        }
    }
}

// The step of a byte between characters.
fn between(mode: JpMode, output_flag: bool, byte: u8) -> Step
    ensures { result ≡ between mode output_flag byte }
{
    if byte == 0x1B {
        return Step::of(Shown::Nothing, keeps(mode, output_flag, JpPart::Escape));
    }
    byte_in(mode, byte)
}

// Returns the pointer of a lead byte and the next byte. A lead byte is at least 0x21.
fn pointer(lead: u8, byte: u8) -> Option<usize>
    ensures { result ≡ pointer lead byte }
{
    if is_between(0x21, 0x7E, byte) {
        Some((lead as usize).saturating_sub(0x21) * 94 + (byte as usize - 0x21))
    } else {
        None
    }
}

// The step of a byte after a lead byte.
fn behind_lead(mode: JpMode, output_flag: bool, lead: u8, byte: u8) -> Step
    ensures { result ≡ behind_lead mode output_flag lead byte }
{
    if byte == 0x1B {
        return Step::of(Shown::Error, keeps(mode, output_flag, JpPart::Escape));
    }
    Step::of(
        shown_of(code_point(jis0208_index(), pointer(lead, byte))),
        keeps(mode, output_flag, JpPart::Nothing),
    )
}

// The step of a byte after ESC.
fn behind_escape(mode: JpMode, output_flag: bool, byte: u8) -> Step
    ensures { result ≡ behind_escape mode output_flag byte }
{
    if byte == b'$' {
        return Step::of(
            Shown::Nothing,
            keeps(mode, output_flag, JpPart::EscapeDollar),
        );
    }
    if byte == b'(' {
        return Step::of(
            Shown::Nothing,
            keeps(mode, output_flag, JpPart::EscapeParenthesis),
        );
    }
    between(mode, false, byte).after(Shown::Error)
}

// Returns the mode that an escape with `$` and this last byte sets.
fn behind_dollar(byte: u8) -> Option<JpMode>
    ensures { result ≡ behind_dollar byte }
{
    if byte == b'@' || byte == b'B' {
        Some(JpMode::TwoBytes)
    } else {
        None
    }
}

// Returns the mode that an escape with `(` and this last byte sets.
fn behind_parenthesis(byte: u8) -> Option<JpMode>
    ensures { result ≡ behind_parenthesis byte }
{
    match byte {
        b'B' => Some(JpMode::Ascii),
        b'J' => Some(JpMode::Roman),
        b'I' => Some(JpMode::Katakana),
        _ => None,
    }
}

// The step of a byte after ESC and a sign that don't form an escape with it. The sign is read again, and then the byte.
fn no_escape(mode: JpMode, sign: u8, byte: u8) -> Step
    ensures { result ≡ no_escape mode sign byte }
{
    match mode {
        JpMode::Ascii | JpMode::Roman => between(mode, false, byte).after(Shown::ErrorAnd(
            sign as char,
        )),
        JpMode::Katakana => between(mode, false, byte).after(Shown::ErrorAnd(half_width(sign))),
        JpMode::TwoBytes => behind_lead(mode, false, sign, byte).after(Shown::Error),
    }
}

// The step of a byte after ESC and a sign, with the mode that they set, if any.
fn behind_sign(new: Option<JpMode>, mode: JpMode, output_flag: bool, sign: u8, byte: u8) -> Step
    ensures { result ≡ behind_sign new mode output_flag sign byte }
{
    match new {
        Some(new) => {
            let shown = if output_flag {
                Shown::Error
            } else {
                Shown::Nothing
            };
            Step::of(shown, keeps(new, true, JpPart::Nothing))
        }
        None => no_escape(mode, sign, byte),
    }
}

/// The step of a byte in ISO-2022-JP (Encoding Standard, section 12.2.1, "ISO-2022-JP decoder").
pub fn iso_2022_jp_step(kept: Kept, byte: u8) -> Step
    ensures { result ≡ iso_2022_jp_step kept byte }
{
    let state = state_of(kept);
    let mode = state.mode;
    let flag = state.output_flag;
    match state.part {
        JpPart::Nothing => between(mode, flag, byte),
        JpPart::Lead(lead) => behind_lead(mode, flag, lead, byte),
        JpPart::Escape => behind_escape(mode, flag, byte),
        JpPart::EscapeDollar => behind_sign(behind_dollar(byte), mode, flag, b'$', byte),
        JpPart::EscapeParenthesis => behind_sign(behind_parenthesis(byte), mode, flag, b'(', byte),
    }
}

// Returns the text of an end after ESC and `$`.
fn dollar_at_end(mode: JpMode) -> &'static str
    ensures { result.now ≡ text_shown (sign_at_end mode 0x24) }
{
    match mode {
        JpMode::Ascii => "\u{FFFD}$",
        JpMode::Roman => "\u{FFFD}$",
        JpMode::Katakana => "\u{FFFD}\u{FF64}",
        JpMode::TwoBytes => "\u{FFFD}\u{FFFD}",
    }
}

// Returns the text of an end after ESC and `(`.
fn parenthesis_at_end(mode: JpMode) -> &'static str
    ensures { result.now ≡ text_shown (sign_at_end mode 0x28) }
{
    match mode {
        JpMode::Ascii => "\u{FFFD}(",
        JpMode::Roman => "\u{FFFD}(",
        JpMode::Katakana => "\u{FFFD}\u{FF68}",
        JpMode::TwoBytes => "\u{FFFD}\u{FFFD}",
    }
}

/// Returns the text of the end in ISO-2022-JP (Encoding Standard, section 12.2.1, "ISO-2022-JP decoder").
pub fn iso_2022_jp_text_at_end(kept: Kept) -> &'static str
    ensures { result.now ≡ text_shown (iso_2022_jp_ending kept) }
{
    let state = state_of(kept);
    match state.part {
        JpPart::Nothing => "",
        JpPart::Lead(_) | JpPart::Escape => broken_off(true),
        JpPart::EscapeDollar => dollar_at_end(state.mode),
        JpPart::EscapeParenthesis => parenthesis_at_end(state.mode),
    }
}
