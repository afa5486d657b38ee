//! The errors of a serializer.
ghost use Rattle.std.specs.Prelude.{◌≡◌};

use std::alloc::{AllocError, AllocFailed};
use thiserror::Error;

/// The error of a serializer's call.
#[derive(Clone, Copy, Debug, PartialEq, Eq, Error)]
pub enum SerializeFault {
    /// A start tag, an end tag or a text has no parent. Nothing has changed, and nothing was written.
    #[error("no parent is left")]
    NoParent,
    /// An allocation failed. Nothing of the call was written, and every later call fails.
    #[error("out of memory")]
    Memory,
    /// The writer failed. A prefix of the call's text was written, and nothing else; every later call fails.
    #[error("the writer failed")]
    Write,
    /// An earlier call failed with `Memory` or `Write`. Nothing was written.
    #[error("after a fault")]
    Failed,
}

impl From<AllocError> for SerializeFault {
    ghost use Rattle.h5_serialize.specs.declared.fault.SerializeFault.TheVariants.{Memory};

    ghost from_gives = { λ _ fault. fault ≡ Memory };

    fn from(_error: AllocError) -> SerializeFault {
        SerializeFault::Memory
    }
}

impl<T: Drop> From<AllocFailed<T>> for SerializeFault {
    ghost use Rattle.h5_serialize.specs.declared.fault.SerializeFault.TheVariants.{Memory};

    ghost from_gives = { λ _ fault. fault ≡ Memory };

    fn from(_error: AllocFailed<T>) -> SerializeFault {
        SerializeFault::Memory
    }
}
