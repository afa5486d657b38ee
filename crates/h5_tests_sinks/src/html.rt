//! The HTML of an arena.
use h5_arena::Arena;
use h5_serialize::{SerializeFault, SerializeOpts, serialize};
use std::alloc::Global;

/// The HTML of an arena's document, with the default options.
pub fn html_of(alloc: Global, arena: &Arena) -> Result<Vec<u8>, SerializeFault> {
    let node = arena.at(arena.document());
    serialize(alloc, Vec::new(alloc), &node, SerializeOpts::default())
}
