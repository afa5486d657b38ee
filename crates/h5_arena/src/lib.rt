//! A tree whose nodes are in one vector: a sink of a tree builder. Its nodes are a forest at any time (the invariant of `Arena`).
//!
//! `tree` has the arena and its reading calls, `sink` the calls of a tree builder, and `edits` the calls that edit a tree. `nodes` has the
//! nodes, `below` their children, and `shared` the kinds that elements with one name share. `makes` makes nodes; `link`, `links`,
//! `children` and `moves` change parents and children. `attributes` and `attribute_names` read and add attributes. `edit_attributes`,
//! `edit_text` and `copies` do the work of `edits`; `standing` finds out if a child may be inserted, and `fault` has the reasons. `kin` has
//! ancestors, siblings and descendants, `html` a node as HTML, `walk` the walk of a serializer over a node (HTML standard, section 13.3),
//! and `laws` the laws of its calls.
//!
//! Only `parse_error` changes the texts of errors and the flag `errors_lost` (`KeepsErrors`).
//!
//! This crate depends on h5_interface, whose `TreeSink` it implements, and on h5_serialize; the rules and the tree builder don't use it.
//! Begin with `specs/ArenaModel.antt` (the forest of the nodes) and `src/tree.rt`; then read `specs/NodeCalls.antt` and `src/walk.rt`.
#![tactic(auto)]

mod attribute_names;
mod attributes;
mod below;
mod children;
mod copies;
mod edit_attributes;
mod edit_text;
mod edits;
mod fault;
mod html;
mod kin;
pub mod laws;
mod link;
mod links;
mod makes;
mod moves;
mod nodes;
mod shared;
mod sink;
mod standing;
mod tree;
mod walk;

pub use fault::EditError;
pub use nodes::{Child, Kind, NodeId};
pub use tree::Arena;
pub use walk::NodeRef;
