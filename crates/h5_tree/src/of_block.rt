//! A sound block is a tree. It is read in place.
ghost use Rattle.std.specs.Prelude.{◌≡◌, ◌<◌, IfSome, is_some, true};
ghost use Rattle.h5_tree_block.specs.Block as b;
ghost use Rattle.h5_tree_block.specs.Sound as s;
ghost use Rattle.h5_tree.specs.BlockForest.{forest_in, mode_in};

use super::block_elements::{
    elements_between, elements_from, elements_up_to, is_bare_from, parent_of,
};
use super::block_names::{
    find_row, has_local_name, has_namespace, is_element, is_html_element, is_same_type,
};
use super::tree::Tree;
use h5_interface::QuirksMode;
use h5_names::{LocalName, namespaces};
use h5_tree_block::{DOCUMENT, View};
use std::alloc::{AllocError, Global};

/// A sound block: `View::is_sound` returned true, so its nodes are a tree in tree order.
#[derive(Clone, Copy)]
pub struct SoundView<'a> {
    pub(crate) view: View<'a>,
    ghost sound: { s.is_sound view.block.now ≡ true },
    ghost small: { b.nodes_in view.block.now < 4294967296 },
}

impl<'a> SoundView<'a> {
    /// The tree of a block, or `None` if the block isn't sound. The time is linear in the length of the block.
    pub fn of(view: View<'a>) -> Option<SoundView<'a>>
        ensures is { is_some result ≡ s.is_sound view.entry.block.now }
        ensures block { IfSome result (λ tree. tree.view.block.now ≡ view.entry.block.now) }
    {
        // The number of nodes is a word.
        let _count = view.node_count();
        if view.is_sound() {
            Some(SoundView { view })
        } else {
            None
        }
    }
}

impl Tree for SoundView<'_> {
    type NodeId = u32;

    ghost number = { λ n. n };

    ghost forest = { λ t. forest_in t.view.block.now };

    ghost mode = { λ t. mode_in t.view.block.now };

    fn quirks_mode(&self) -> QuirksMode {
        match self.view.quirks() {
            1 => QuirksMode::LimitedQuirks,
            2 => QuirksMode::Quirks,
            _ => QuirksMode::NoQuirks,
        }
    }

    fn node_count(&self) -> usize {
        self.view.node_count() as usize
    }

    fn is_same_node(&self, one: u32, other: u32) -> bool {
        one == other
    }

    fn is_element(&self, id: u32) -> bool {
        is_element(&self.view, id)
    }

    fn is_html_element(&self, id: u32) -> bool {
        is_html_element(&self.view, id)
    }

    fn has_namespace(&self, id: u32, ns: &str) -> bool {
        has_namespace(&self.view, id, ns)
    }

    fn has_local_name(&self, id: u32, local: &LocalName) -> bool {
        has_local_name(&self.view, id, local)
    }

    fn is_same_type(&self, one: u32, other: u32) -> bool {
        is_same_type(&self.view, one, other)
    }

    fn attr(&self, id: u32, local: &str) -> Option<&str> {
        self.attr_in_namespace(id, namespaces::NONE, local)
    }

    fn attr_in_namespace(&self, id: u32, ns: &str, local: &str) -> Option<&str> {
        if is_element(&self.view, id) {
            find_row(&self.view, id, ns, local)
        } else {
            None
        }
    }

    fn parent(&self, id: u32) -> Option<u32> {
        parent_of(&self.view, id)
    }

    fn is_document(&self, id: u32) -> bool {
        self.view.kind(id) == DOCUMENT
    }

    fn is_empty(&self, id: u32) -> bool {
        is_bare_from(self, self.view.first_child(id))
    }

    fn child_elements(&self, alloc: Global, id: u32) -> Result<Vec<u32>, AllocError> {
        elements_from(alloc, self, self.view.first_child(id))
    }

    fn sibling_elements_before(&self, alloc: Global, id: u32) -> Result<Vec<u32>, AllocError> {
        match parent_of(&self.view, id) {
            Some(parent) => elements_up_to(alloc, self, self.view.first_child(parent), id),
            None => Ok(Vec::new(alloc)),
        }
    }

    fn sibling_elements_after(&self, alloc: Global, id: u32) -> Result<Vec<u32>, AllocError> {
        match parent_of(&self.view, id) {
            Some(_) => elements_from(alloc, self, self.view.next(id)),
            None => Ok(Vec::new(alloc)),
        }
    }

    fn descendant_elements(&self, alloc: Global, id: u32) -> Result<Vec<u32>, AllocError> {
        if id >= self.view.node_count() {
            return Ok(Vec::new(alloc));
        }
        elements_between(alloc, self, id + 1, self.view.end(id))
    }

    fn has_elements_or_leaves(&self, _id: u32) -> bool {
        // In a sound block only an element, its contents and the root have nodes below them.
        true
    }
}
