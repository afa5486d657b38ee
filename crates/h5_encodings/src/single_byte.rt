//! The single-byte encodings.
ghost use Rattle.std.specs.Prelude.{◌≡◌};
ghost use Rattle.h5_encodings.specs.SingleByte.{single_byte_step};

use super::encoding::SingleByte;
use super::steps::{Kept, Shown, Step};
use super::upper_halves::upper_half;

/// The step of a byte in a single-byte encoding (Encoding Standard, section 9.1, "single-byte decoder").
pub fn single_byte_step(encoding: SingleByte, byte: u8) -> Step
    ensures { result ≡ single_byte_step encoding byte }
{
    let shown = if byte < 128 {
        Shown::Character(byte as char)
    } else {
        let character = upper_half(encoding)[byte as usize - 128];
        if character == '\u{FFFD}' {
            Shown::Error
        } else {
            Shown::Character(character)
        }
    };
    Step::of(shown, Kept::Nothing)
}
