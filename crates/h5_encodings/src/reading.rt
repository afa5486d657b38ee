//! Bytes that are decoded in steps.
ghost use Rattle.std.specs.Prelude.{◌≡◌, ◌≤◌, ◌++◌, string_bytes, IfOk};
ghost use Rattle.h5_encodings.specs.Decoding.{reading_of};
ghost use Rattle.std.specs.Io.Iter.{u64_saturate};
ghost use Rattle.h5_encodings.specs.Steps.{errors_shown, errors_so_far, kept_after, step_errors, text_of_step, text_shown, text_so_far};

use super::big5::big5_step;
use super::encoding::Encoding;
use super::euc_jp::{euc_jp_breaks_off, euc_jp_step};
use super::euc_kr::euc_kr_step;
use super::gb18030::{gb18030_breaks_off, gb18030_step};
use super::iso_2022_jp::{iso_2022_jp_step, iso_2022_jp_text_at_end};
use super::multi_byte::{lead_breaks_off, lead_of};
use super::replacement::replacement_step;
use super::shift_jis::shift_jis_step;
use super::single_byte::single_byte_step;
use super::steps::{Kept, Shown, Step, broken_off};
use super::user_defined::user_defined_step;
use super::utf16::{utf_16_breaks_off, utf_16_step};
use std::alloc::AllocError;

// The step of a byte. UTF-8 has no steps; its output is empty here.
#[tactic(auto, unfolding(crate::specs::Decoding::reading_of))]
fn step(encoding: Encoding, kept: Kept, byte: u8) -> Step
    ensures { result ≡ (reading_of encoding).step kept byte }
{
    match encoding {
        Encoding::Utf8 => Step::of(Shown::Nothing, kept),
        Encoding::Gbk | Encoding::Gb18030 => gb18030_step(kept, byte),
        Encoding::Big5 => big5_step(kept, byte),
        Encoding::EucJp => euc_jp_step(kept, byte),
        Encoding::Iso2022Jp => iso_2022_jp_step(kept, byte),
        Encoding::ShiftJis => shift_jis_step(kept, byte),
        Encoding::EucKr => euc_kr_step(kept, byte),
        Encoding::Replacement => replacement_step(kept),
        Encoding::Utf16be => utf_16_step(true, kept, byte),
        Encoding::Utf16le => utf_16_step(false, kept, byte),
        Encoding::XUserDefined => user_defined_step(byte),
        Encoding::SingleByte(single) => single_byte_step(single, byte),
    }
}

/// Returns the text of the end, after what is stored.
#[tactic(auto, unfolding(crate::specs::Decoding::reading_of))]
pub fn text_at_end(encoding: Encoding, kept: Kept) -> &'static str
    ensures { result.now ≡ text_shown ((reading_of encoding).ending kept) }
{
    match encoding {
        Encoding::Gbk | Encoding::Gb18030 => broken_off(gb18030_breaks_off(kept)),
        Encoding::Iso2022Jp => iso_2022_jp_text_at_end(kept),
        Encoding::EucJp => broken_off(euc_jp_breaks_off(kept)),
        Encoding::Big5 | Encoding::ShiftJis | Encoding::EucKr => broken_off(lead_breaks_off(lead_of(
            kept,
        ))),
        Encoding::Utf16be | Encoding::Utf16le => broken_off(utf_16_breaks_off(kept)),
        Encoding::Utf8 | Encoding::Replacement | Encoding::XUserDefined | Encoding::SingleByte(_) =>
            "",
    }
}

// Returns how many U+FFFD in an output replace bytes.
fn errors_shown(shown: Shown) -> u64
    ensures count { result ≡ errors_shown shown }
    ensures few { result ≤ 2 }
{
    match shown {
        Shown::Nothing | Shown::Character(_) | Shown::Two(_, _) => 0,
        Shown::Error | Shown::ErrorAnd(_) => 1,
        Shown::TwoErrors => 2,
    }
}

// Appends an output.
fn push_shown(text: &mut String, shown: Shown) -> Result<(), AllocError>
    ensures { IfOk result (λ _. string_bytes text.new ≡ string_bytes text.old ++ text_shown shown) }
{
    match shown {
        Shown::Nothing => Ok(()),
        Shown::Character(character) => text.push(character),
        Shown::Two(first, second) => {
            text.push(first)?;
            text.push(second)
        }
        Shown::Error => text.push('\u{FFFD}'),
        Shown::ErrorAnd(character) => {
            text.push('\u{FFFD}')?;
            text.push(character)
        }
        Shown::TwoErrors => {
            text.push('\u{FFFD}')?;
            text.push('\u{FFFD}')
        }
    }
}

// Returns how many U+FFFD in the output of a step replace bytes.
fn step_errors(step: Step) -> u64
    ensures { result ≡ step_errors step }
{
    errors_shown(step.before) + errors_shown(step.shown)
}

// Appends the output of a step.
fn push_step(text: &mut String, step: Step) -> Result<(), AllocError>
    ensures { IfOk result (λ _. string_bytes text.new ≡ string_bytes text.old ++ text_of_step step) }
{
    push_shown(text, step.before)?;
    push_shown(text, step.shown)
}

/// What is stored after bytes, and how many U+FFFD have replaced some of them; this count stops at the maximum of `u64`.
#[derive(Clone, Copy, Debug, PartialEq, Eq)]
pub struct Behind {
    pub kept: Kept,
    pub errors: u64,
}

/// Appends the text of bytes as far as it is decided.
pub fn push_steps(
    text: &mut String,
    encoding: Encoding,
    kept: Kept,
    bytes: &[u8],
) -> Result<Behind, AllocError>
    ensures text { IfOk result (λ _. string_bytes text.new ≡ string_bytes text.old ++ text_so_far (reading_of encoding) kept bytes.now) }
    ensures kept { IfOk result (λ behind. behind.kept ≡ kept_after (reading_of encoding) kept bytes.now) }
    ensures errors { IfOk result (λ behind. behind.errors ≡ u64_saturate (errors_so_far (reading_of encoding) kept bytes.now)) }
{
    let mut behind = Behind { kept, errors: 0 };
    for &byte in bytes {
        let next = step(encoding, behind.kept, byte);
        push_step(text, next)?;
        behind = Behind {
            kept: next.kept,
            errors: behind.errors.saturating_add(step_errors(next)),
        };
    }
    Ok(behind)
}
