//! EUC-JP.
ghost use Rattle.std.specs.Prelude.{◌≡◌};
ghost use Rattle.h5_encodings.specs.EucJp.{behind_lead, euc_jp_breaks_off, euc_jp_step, is_lead, pointer};

use super::jis0208_index::jis0208_index;
use super::jis0212_index::jis0212_index;
use super::multi_byte::{code_point, first_byte, is_between, katakana, last_byte};
use super::steps::{Kept, Shown, Step};

// Returns the pointer of a lead byte and the next byte, for either index.
fn pointer(lead: u8, byte: u8) -> Option<usize>
    ensures { result ≡ pointer lead byte }
{
    if is_between(0xA1, 0xFE, lead) && is_between(0xA1, 0xFE, byte) {
        Some((lead as usize - 0xA1) * 94 + (byte as usize - 0xA1))
    } else {
        None
    }
}

// The step of a byte after a lead byte.
fn behind_lead(lead: u8, byte: u8) -> Step
    ensures { result ≡ behind_lead lead byte }
{
    if lead == 0x8E && is_between(0xA1, 0xDF, byte) {
        return Step::of(Shown::Character(katakana(byte)), Kept::Nothing);
    }
    if lead == 0x8F && is_between(0xA1, 0xFE, byte) {
        return Step::of(Shown::Nothing, Kept::Jis0212(byte));
    }
    last_byte(code_point(jis0208_index(), pointer(lead, byte)), byte)
}

fn is_lead(byte: u8) -> bool
    ensures { result ≡ is_lead byte }
{
    is_between(0x8E, 0x8F, byte) || is_between(0xA1, 0xFE, byte)
}

/// The step of a byte in EUC-JP (Encoding Standard, section 12.1.1, "EUC-JP decoder").
pub fn euc_jp_step(kept: Kept, byte: u8) -> Step
    ensures { result ≡ euc_jp_step kept byte }
{
    match kept {
        Kept::Lead(lead) => behind_lead(lead, byte),
        Kept::Jis0212(lead) => last_byte(code_point(jis0212_index(), pointer(lead, byte)), byte),
        _ => first_byte(is_lead(byte), byte),
    }
}

/// Returns true if an end here is inside a character in EUC-JP (Encoding Standard, section 12.1.1, "EUC-JP decoder").
pub fn euc_jp_breaks_off(kept: Kept) -> bool
    ensures { result ≡ euc_jp_breaks_off kept }
{
    match kept {
        Kept::Lead(_) | Kept::Jis0212(_) => true,
        _ => false,
    }
}
