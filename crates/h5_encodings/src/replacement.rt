//! The encoding "replacement".
ghost use Rattle.std.specs.Prelude.{◌≡◌};
ghost use Rattle.h5_encodings.specs.Replacement.{replacement_step};

use super::steps::{Kept, Shown, Step};

/// The step of a byte in "replacement": the output of the first byte is an error, that of any other is empty (Encoding
/// Standard, section 14.1.1, "replacement decoder").
pub fn replacement_step(kept: Kept) -> Step
    ensures { result ≡ replacement_step kept }
{
    let shown = match kept {
        Kept::Told => Shown::Nothing,
        _ => Shown::Error,
    };
    Step::of(shown, Kept::Told)
}
