//! Compares the tree made from a block with the block.
ghost use Rattle.std.specs.Prelude.{◌≡◌, option_copied};
ghost use Rattle.std.specs.Option.{option_eq};
ghost use Rattle.h5_names.specs.AttributeText.{attribute_text, attribute_texts, is_same_attribute, is_same_name, is_same_text};
ghost use Rattle.h5_arena.specs.ArenaModel.{child_view, child_views, kind_view, optional_place};
ghost use Rattle.h5_tree_block.specs.Block as b;
ghost use Rattle.h5_tree_block.specs.Read as r;
ghost use Rattle.h5_tree_block.specs.SameTree as t;
ghost use Rattle.h5_tree_block.specs.Sound as s;

use super::numbers::{
    COMMENT, DOCTYPE, DOCUMENT, ELEMENT, FRAGMENT, INSTRUCTION, NOTHING, TEXT, namespace_url,
    prefix_text,
};
use super::unpack::Unpacked;
use super::view::View;
use h5_arena::{Child, Kind, NodeId};
use h5_names::{Attribute, Prefix, QualName};

// The data of a node of an arena.
#[derive(Clone, Copy)]
struct Parts<'a> {
    kind: &'a Kind,
    attrs: &'a [Attribute],
    contents: Option<NodeId>,
    children: &'a [Child],
}

// Returns true if a prefix has this text.
fn is_prefix(prefix: &Option<Prefix>, text: Option<&str>) -> bool
    ensures { result ≡ option_eq is_same_text prefix.now (option_copied text.entry) }
{
    match (prefix, text) {
        (Some(prefix), Some(text)) => prefix.as_str() == text,
        (None, None) => true,
        _ => false,
    }
}

impl<'a> View<'a> {
    // Returns true if a name has this number.
    #[tactic(auto, unfolding(crate::specs::Read::name_of))]
    fn is_name(&self, number: u32, name: &QualName) -> bool
        ensures { result ≡ is_same_name name.now (r.name_of self.now.block.now number) }
    {
        is_prefix(&name.prefix, prefix_text(self.prefix(number)))
            && name.ns.as_str() == namespace_url(self.namespace(number))
            && name.local.as_str() == self.local_of(number)
    }

    // Returns true if an attribute equals a row of a node.
    #[tactic(auto, unfolding(crate::specs::Read::attribute_of))]
    fn is_row(&self, node: u32, index: u32, attribute: &Attribute) -> bool
        ensures { result ≡ is_same_attribute (attribute_text attribute.now) (r.attribute_of self.now.block.now node index) }
    {
        self.is_name(self.row_name(node, index), &attribute.name)
            && attribute.value.as_str() == self.value_of(node, index)
    }

    // Returns true if attributes equal the rows of a node.
    fn are_rows(&self, node: u32, attrs: &[Attribute]) -> bool
        ensures { result ≡ t.are_same_rows self.now.block.now node 0 (attribute_texts attrs.now) }
    {
        let count = self.row_count(node);
        let mut index = 0u32;
        for attribute in attrs {
            if index >= count || !self.is_row(node, index, attribute) {
                return false;
            }
            index += 1;
        }
        index == count
    }

    // Returns true if a node has these attributes. Only elements have any.
    #[tactic(auto, unfolding(crate::specs::SameTree::are_same_attributes))]
    fn are_attributes(&self, node: u32, attrs: &[Attribute]) -> bool
        ensures { result ≡ t.are_same_attributes self.now.block.now node (attribute_texts attrs.now) }
    {
        if self.kind(node) == ELEMENT {
            self.are_rows(node, attrs)
        } else {
            attrs.is_empty()
        }
    }

    // Returns true if an element has this number. Number 0 is that of the root of a fragment.
    #[tactic(auto, unfolding(crate::specs::SameTree::is_same_element))]
    fn is_element(&self, node: u32, name: &QualName) -> bool
        ensures { result ≡ t.is_same_element self.now.block.now node name.now }
    {
        if node == 0 {
            return self.kind(0) == FRAGMENT && name.ns.is_html() && name.local.as_str() == "html";
        }
        self.kind(node) == ELEMENT && self.is_name(self.name(node), name)
    }

    // Returns true if the kind of a node is that of its number.
    #[tactic(auto, unfolding(crate::specs::SameTree::is_same_kind))]
    fn is_kind(&self, node: u32, kind: &Kind) -> bool
        ensures { result ≡ t.is_same_kind self.now.block.now node (kind_view kind.now) }
    {
        match kind {
            Kind::Document => self.kind(node) == DOCUMENT,
            Kind::Doctype {
                name,
                public_id,
                system_id,
            } => {
                self.kind(node) == DOCTYPE
                    && name.as_str() == self.value_of(node, 0)
                    && public_id.as_str() == self.value_of(node, 1)
                    && system_id.as_str() == self.value_of(node, 2)
            }
            Kind::Element(name) => self.is_element(node, name),
            Kind::Comment(text) => {
                self.kind(node) == COMMENT && text.as_str() == self.value_of(node, 0)
            }
            Kind::Instruction { target, text } => {
                self.kind(node) == INSTRUCTION
                    && target.as_str() == self.value_of(node, 0)
                    && text.as_str() == self.value_of(node, 1)
            }
            Kind::Fragment => node > 0 && self.kind(node) == FRAGMENT,
        }
    }

    // The first child of a node that isn't its contents.
    #[tactic(auto, unfolding(crate::specs::SameTree::first_behind_contents))]
    fn first_behind_contents(&self, node: u32) -> u32
        ensures { result ≡ t.first_behind_contents self.now.block.now node }
    {
        match self.contents(node) {
            NOTHING => self.first_child(node),
            contents => self.next(contents),
        }
    }
}

impl Unpacked {
    // Returns true if a child is the node with this number, or its text.
    #[tactic(auto, unfolding(crate::specs::SameTree::is_same_child))]
    fn is_child(&self, view: &View<'_>, number: u32, child: &Child) -> bool
        ensures { result ≡ t.is_same_child view.now.block.now self.now number (child_view child.now) }
    {
        match child {
            Child::Text(text) => view.kind(number) == TEXT && text.as_str() == view.text_of(number),
            Child::Node(child) => self.id(number) == Some(*child),
        }
    }

    // Returns true if children are the nodes from a number on, each the next sibling of the one before.
    fn are_children(&self, view: &View<'_>, first: u32, children: &[Child]) -> bool
        ensures { result ≡ t.are_same_children view.now.block.now self.now first (child_views children.now) }
    {
        let mut number = first;
        for child in children {
            if !self.is_child(view, number, child) {
                return false;
            }
            number = view.next(number);
        }
        number == NOTHING
    }

    // Returns true if the data of a node is that of its number.
    #[tactic(auto, unfolding(crate::specs::SameTree::is_same_node))]
    fn are_parts(&self, view: &View<'_>, number: u32, parts: &Parts<'_>) -> bool
        ensures { result ≡ t.is_same_node view.now.block.now self.now number (kind_view parts.now.kind.now) (attribute_texts parts.now.attrs.now) (optional_place parts.now.contents) (child_views parts.now.children.now) }
    {
        view.is_kind(number, parts.kind)
            && view.are_attributes(number, parts.attrs)
            && self.id(view.contents(number)) == parts.contents
            && self.are_children(view, view.first_behind_contents(number), parts.children)
    }

    // Returns true if a node of the arena is that of a number.
    fn is_node(&self, view: &View<'_>, number: u32, id: NodeId) -> bool
        ensures { result ≡ t.is_same_in view.now.block.now self.now number id.index }
    {
        if !self.arena.holds(id) {
            return false;
        }
        let parts = Parts {
            kind: self.arena.kind(id),
            attrs: self.arena.attrs(id),
            contents: self.arena.contents(id),
            children: self.arena.children(id),
        };
        self.are_parts(view, number, &parts)
    }

    // Returns true if the node made for a number is right. A text has no separate node.
    #[tactic(auto, unfolding(crate::specs::SameTree::is_same_at))]
    fn is_same_at(&self, view: &View<'_>, number: u32) -> bool
        ensures { result ≡ t.is_same_at view.now.block.now self.now number }
    {
        match self.id(number) {
            None => view.kind(number) == TEXT,
            Some(id) => view.kind(number) != TEXT && self.is_node(view, number, id),
        }
    }

    // Returns true if a node is a child of the document.
    #[tactic(auto, unfolding(crate::specs::SameTree::is_below_document))]
    fn is_below_document(&self, id: NodeId) -> bool
        ensures { result ≡ t.is_below_document self.now id.index }
    {
        self.arena.holds(id) && self.arena.parent(id) == Some(self.arena.document())
    }

    // Returns true if the root of a fragment is right below the document.
    #[tactic(auto, unfolding(crate::specs::SameTree::is_root_right))]
    pub(crate) fn is_root_right(&self, view: &View<'_>) -> bool
        ensures { result ≡ t.is_root_right view.now.block.now self.now }
    {
        if view.kind(0) != FRAGMENT {
            return true;
        }
        match self.id(0) {
            Some(root) => self.is_below_document(root),
            None => false,
        }
    }

    // Returns true if the node of each number is right.
    pub(crate) fn are_nodes_same(&self, view: &View<'_>) -> bool
        ensures { result ≡ s.all_below (t.is_same_at view.now.block.now self.now) (b.nodes_in view.now.block.now) }
    {
        for number in 0..view.node_count() {
            if !self.is_same_at(view, number) {
                return false;
            }
        }
        true
    }
}
