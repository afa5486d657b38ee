//! Edits of a tree: what is done at one node of an arena.
//!
//! `edit` has the edits and does them, `moves` moves children, and `fault` has the errors. `specs/Editing.antt` says what each edit does, by
//! the arena's calls, and `specs/EditModel.antt` where each is possible.
#![tactic(auto)]

mod edit;
mod fault;
mod moves;

pub use edit::{Edit, edit_node};
pub use fault::EditFault;
