//! The errors of tree builders, tokenizers and parsers.
ghost use Rattle.std.specs.Prelude.{◌≡◌};

use std::alloc::{AllocError, AllocFailed};
use thiserror::Error;

/// The error of a call of a tree builder, a tokenizer or a parser.
///
/// If several apply, `Failed` comes before `AfterEnd`, that before `NotInText`, and `Memory` last.
#[derive(Clone, Copy, Debug, PartialEq, Eq, Error)]
pub enum BuildFault {
    /// A token came after the end. Nothing has changed.
    #[error("a token after the end")]
    AfterEnd,
    /// A start tag, a comment or a NUL came where only text can. Nothing has changed.
    #[error("a token inside text")]
    NotInText,
    /// An allocation failed. The tree that was built so far is sound, and every later call fails.
    #[error("out of memory")]
    Memory,
    /// An earlier call failed. Nothing has changed.
    #[error("after a fault")]
    Failed,
}

impl From<AllocError> for BuildFault {
    ghost use Rattle.h5_token.specs.declared.fault.BuildFault.TheVariants.{Memory};

    ghost from_gives = { λ _ fault. fault ≡ Memory };

    fn from(_error: AllocError) -> BuildFault {
        BuildFault::Memory
    }
}

impl<T: Drop> From<AllocFailed<T>> for BuildFault {
    ghost use Rattle.h5_token.specs.declared.fault.BuildFault.TheVariants.{Memory};

    ghost from_gives = { λ _ fault. fault ≡ Memory };

    fn from(_error: AllocFailed<T>) -> BuildFault {
        BuildFault::Memory
    }
}
