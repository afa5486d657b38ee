//! The errors of an edit.
ghost use Rattle.std.specs.Prelude.{◌≡◌};

use std::alloc::AllocError;
use thiserror::Error;

/// The reason that an edit isn't possible. Nothing has changed.
#[derive(Clone, Copy, Debug, PartialEq, Eq, Error)]
pub enum EditError {
    /// One of the ids is not a node of the arena.
    #[error("no node of the arena")]
    UnknownNode,
    /// The child, or the node to copy, is the document.
    #[error("the document has no parent")]
    IsDocument,
    /// The child has a parent; detach it first. The contents of a template can't be detached.
    #[error("the node has a parent")]
    HasParent,
    /// The child is the new parent, or an ancestor of it.
    #[error("the node would contain itself")]
    WouldBeCycle,
    /// The text is empty.
    #[error("the text is empty")]
    EmptyText,
    /// The sibling is not a child: it has no parent, or is the contents of a template.
    #[error("the sibling has no parent")]
    NoParent,
    /// An allocation failed.
    #[error("out of memory")]
    Memory,
}

impl From<AllocError> for EditError {
    ghost use Rattle.h5_arena.specs.declared.fault.EditError.TheVariants.{Memory};

    ghost from_gives = { λ _ fault. fault ≡ Memory };

    fn from(_error: AllocError) -> EditError {
        EditError::Memory
    }
}
