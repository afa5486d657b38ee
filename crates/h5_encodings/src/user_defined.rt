//! x-user-defined.
ghost use Rattle.std.specs.Prelude.{◌≡◌, ◌+◌, ◌-◌, nat_lt, if◌then◌else◌};
ghost use Rattle.h5_encodings.specs.UserDefined.{user_defined_step};

use super::steps::{Kept, Shown, Step};

// Returns the character of a byte: from 0x80 on a private-use character.
fn character(byte: u8) -> char
    ensures { result ≡ (if nat_lt byte 128 then byte else 0xF780 + (byte - 128)) }
{
    if byte < 128 {
        byte as char
    } else {
        char::from_u32(0xF780 + (byte as u32 - 128)).unwrap()
    }
}

/// The step of a byte in x-user-defined (Encoding Standard, section 14.5.1, "x-user-defined decoder").
pub fn user_defined_step(byte: u8) -> Step
    ensures { result ≡ user_defined_step byte }
{
    Step::of(Shown::Character(character(byte)), Kept::Nothing)
}
