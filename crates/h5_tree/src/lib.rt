//! Trees that are read in the same way, however they are stored: an arena, and a block of bytes that is read in place.
//!
//! `tree` has the trait `Tree`: 18 reads, each with its meaning in the forest that the tree is. `of_arena` implements it for an arena, and
//! `of_block` for `SoundView`, a block whose nodes are known to be a tree. `block_names` reads names and attributes of a block, and
//! `block_elements` its siblings and descendants. `laws` has three laws: a sound block is a forest in tree order, a block that a tree was
//! packed into is sound, and it has the calls of the tree's walk, if names are known and texts UTF-8 (`specs/KnownCalls.antt`).
//!
//! The forest of a block (`specs/BlockForest.antt`) is defined by the column of parents alone: the children of a node are the numbers with
//! that parent. It is proved that the first child, the next sibling and the end of a node find exactly these.
//!
//! This crate depends on h5_names, h5_interface, h5_serialize, h5_arena and h5_tree_block; h5_selectors selects in such trees. Begin with
//! `specs/Elements.antt` (elements of a forest) and `src/tree.rt`; then read `specs/BlockForest.antt`, `specs/Order.antt` and `src/laws.rt`.
#![tactic(auto)]

mod block_elements;
mod block_names;
pub mod laws;
mod of_arena;
mod of_block;
mod tree;

pub use of_block::SoundView;
pub use tree::Tree;
