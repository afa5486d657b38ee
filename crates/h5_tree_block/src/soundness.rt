//! Tests if a block is a tree.
ghost use Rattle.std.specs.Prelude.{◌≡◌, ◌≤◌};
ghost use Rattle.h5_tree_block.specs.Block as b;
ghost use Rattle.h5_tree_block.specs.Sound as s;

use super::numbers::{COMMENT, DOCTYPE, DOCUMENT, ELEMENT, FRAGMENT, INSTRUCTION, NOTHING, TEXT};
use super::view::{View, word_at};

impl<'a> View<'a> {
    // Returns true if a node ends after it begins, and within its parent. Node 0 has no parent, and contains all nodes.
    fn stands(&self, node: u32) -> bool
        ensures { result ≡ s.stands self.now.block.now node }
    {
        let (parent, end) = (self.parent_word(node), self.end_word(node));
        if node == 0 {
            return parent == NOTHING && end == self.nodes;
        }
        node < end && parent < node && end <= self.end_word(parent)
    }

    // Returns true if the nodes around this one are in tree order: the next node is its child, unless this one ends there, and the first node
    // after its end is its sibling, unless its parent ends there.
    fn is_in_order(&self, node: u32) -> bool
        requires { node ≤ 4294967294 }
        ensures { result ≡ s.is_in_order self.now.block.now node }
    {
        let (parent, end) = (self.parent_word(node), self.end_word(node));
        if end != node + 1 && self.parent_word(node + 1) != node {
            return false;
        }
        node == 0 || end == self.end_word(parent) || self.parent_word(end) == parent
    }

    // Returns true if the kind of a node is known and allowed in its place: only the first node is a document, any other fragment is the
    // contents of the element before it, and a text, comment, doctype or processing instruction has no children.
    fn has_kind(&self, node: u32) -> bool
        requires { node ≤ 4294967294 }
        ensures { result ≡ s.has_kind self.now.block.now node }
    {
        let kind = self.kind(node);
        if kind == ELEMENT || node == 0 {
            return true;
        }
        if kind == FRAGMENT {
            let parent = self.parent_word(node);
            return self.kind(parent) == ELEMENT && node - 1 == parent;
        }
        (kind == TEXT || kind == INSTRUCTION || kind == COMMENT || kind == DOCTYPE)
            && self.end_word(node) == node + 1
    }

    // Returns true if a node lies within its parent, in tree order and of an allowed kind, and if its text, its rows and its name exist.
    fn is_node_sound(&self, node: u32) -> bool
        requires { node ≤ 4294967294 }
        ensures { result ≡ s.is_node_sound self.now.block.now node }
    {
        let (next, name) = (node + 1, self.name(node));
        self.stands(node)
            && self.is_in_order(node)
            && self.has_kind(node)
            && self.text_place(node) <= self.text_place(next)
            && self.first_row(node) <= self.first_row(next)
            && (name == NOTHING || name < self.names)
    }

    // Returns true if each node is sound.
    fn are_nodes_sound(&self) -> bool
        ensures { result ≡ s.all_below (s.is_node_sound self.now.block.now) (b.nodes_in self.now.block.now) }
    {
        for node in 0..self.nodes {
            if !self.is_node_sound(node) {
                return false;
            }
        }
        true
    }

    // Returns true if the ends of values don't decrease.
    fn do_values_grow(&self) -> bool
        ensures { result ≡ s.all_below (s.does_grow self.now.block.now (b.row_ends_at (b.nodes_in self.now.block.now) (b.rows_in self.now.block.now))) (b.rows_in self.now.block.now) }
    {
        for row in 0..self.rows {
            if self.value_end(row) < self.value_begin(row) {
                return false;
            }
        }
        true
    }

    // Returns true if the ends of names don't decrease.
    fn do_names_grow(&self) -> bool
        ensures { result ≡ s.all_below (s.does_grow self.now.block.now (b.name_ends_at self.now.block.now)) (b.names_in self.now.block.now) }
    {
        for name in 0..self.names {
            if self.name_end(name) < self.name_begin(name) {
                return false;
            }
        }
        true
    }

    // Returns true if node 0 is a root, where texts and rows begin.
    fn has_root(&self) -> bool
        ensures { result ≡ s.has_root self.now.block.now }
    {
        let kind = self.kind(0);
        (kind == DOCUMENT || kind == FRAGMENT) && self.text_place(0) == 0 && self.first_row(0) == 0
    }

    // Returns true if texts, rows, values and names end where the first words say.
    fn do_ends_fit(&self) -> bool
        ensures { result ≡ s.do_ends_fit self.now.block.now }
    {
        self.text_place(self.nodes) == word_at(self.block, 8)
            && self.first_row(self.nodes) == self.rows
            && self.value_begin(self.rows) == word_at(self.block, 7)
            && self.name_begin(self.names) == word_at(self.block, 6)
    }

    /// Returns true if the nodes of a block are a tree in tree order, and each text, attribute and name lies within the block. Every read of
    /// such a block returns, and a walk takes no more steps than the block has words. The time is linear in the length of the block.
    pub fn is_sound(&self) -> bool
        ensures { result ≡ s.is_sound self.now.block.now }
    {
        self.has_root()
            && self.do_ends_fit()
            && self.are_nodes_sound()
            && self.do_values_grow()
            && self.do_names_grow()
    }
}
