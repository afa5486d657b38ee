//! A tree as one block of bytes.
//!
//! `columns` stores the nodes of a walk as columns of words, in tree order, and `of_arena` does this for an arena. `pack` writes the
//! columns as one block. `view` reads a block: each read is checked, so any bytes can be read, and `soundness` decides if they are a tree.
//! `names` stores names, `numbered_names` numbers them, and `numbers` numbers kinds and namespaces. `html` serializes a node of a block.
//! `unpack` makes an arena from a block, and `same_tree` compares the two.
//!
//! It is proved that a packed block is read as its columns (`IsReadAs` in `specs/Packed.antt`), and that an arena made from a block has the
//! block's tree (`IsTreeOf` in `specs/SameTree.antt`).
//!
//! This crate depends on h5_names, h5_interface, h5_serialize and h5_arena. Begin with `specs/Columns.antt` and `specs/Block.antt`; then
//! read `specs/Packed.antt`.
#![tactic(auto)]

mod columns;
mod html;
mod names;
mod numbered_names;
mod numbers;
mod of_arena;
mod pack;
mod same_tree;
mod soundness;
mod unpack;
mod view;

pub use columns::Columns;
pub use html::html_of;
pub use numbers::{COMMENT, DOCTYPE, DOCUMENT, ELEMENT, FRAGMENT, INSTRUCTION, NOTHING, TEXT};
pub use of_arena::{columns_of_document, columns_of_fragment};
pub use unpack::{Unpacked, arena_of};
pub use view::{Row, Span, View};
