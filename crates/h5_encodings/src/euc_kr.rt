//! EUC-KR.
ghost use Rattle.std.specs.Prelude.{◌≡◌};
ghost use Rattle.h5_encodings.specs.EucKr.{euc_kr_step, pointer};

use super::euc_kr_index::euc_kr_index;
use super::multi_byte::{code_point, first_byte, is_between, last_byte, lead_of};
use super::steps::{Kept, Step};

// Returns the pointer of a lead byte and the next byte. A lead byte is at least 0x81.
fn pointer(lead: u8, byte: u8) -> Option<usize>
    ensures { result ≡ pointer lead byte }
{
    if is_between(0x41, 0xFE, byte) {
        Some((lead as usize).saturating_sub(0x81) * 190 + (byte as usize - 0x41))
    } else {
        None
    }
}

/// The step of a byte in EUC-KR (Encoding Standard, section 13.1.1, "EUC-KR decoder").
pub fn euc_kr_step(kept: Kept, byte: u8) -> Step
    ensures { result ≡ euc_kr_step kept byte }
{
    match lead_of(kept) {
        Some(lead) => last_byte(code_point(euc_kr_index(), pointer(lead, byte)), byte),
        None => first_byte(is_between(0x81, 0xFE, byte), byte),
    }
}
