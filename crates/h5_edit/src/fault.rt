//! The errors of an edit.
ghost use Rattle.std.specs.Prelude.{◌≡◌};
ghost use Rattle.h5_edit.specs.Moving.{IsMoveFault, move_fault};

use h5_arena::EditError;
use std::alloc::AllocError;
use thiserror::Error;

/// The reason that an edit fails.
#[derive(Clone, Copy, Debug, PartialEq, Eq, Error)]
pub enum EditFault {
    /// The node isn't an element. Nothing has changed.
    #[error("the node isn't an element")]
    NotAnElement,
    /// The node isn't a child: it has no parent, or is the contents of a template. Nothing has changed.
    #[error("the node has no parent")]
    NotAChild,
    /// A moved node is the new parent, or an ancestor of it. A part may have been moved.
    #[error("a node would contain itself")]
    WouldBeCycle,
    /// An allocation failed. A part may have been done.
    #[error("out of memory")]
    Memory,
}

impl From<AllocError> for EditFault {
    ghost use Rattle.h5_edit.specs.declared.fault.EditFault.TheVariants.{Memory};

    ghost from_gives = { λ _ fault. fault ≡ Memory };

    fn from(_error: AllocError) -> EditFault {
        EditFault::Memory
    }
}

// The reason that a move fails. A node that is moved was taken from its parent and isn't the document, and a text isn't empty. So all that
// keeps it from its place, besides memory, is that it would contain itself.
pub(crate) fn fault_of_move(error: EditError) -> EditFault
    ensures which { result ≡ move_fault error }
    ensures told { IsMoveFault result }
{
    match error {
        EditError::Memory => EditFault::Memory,
        _ => EditFault::WouldBeCycle,
    }
}
