//! Ancestors, siblings and descendants of a node (DOM standard, section 1.1, "Trees").
ghost use Rattle.std.specs.Prelude.{◌≡◌, All, IfOk, IfSome, Some, map, string_bytes};
ghost use Rattle.std.specs.Option.{option_map};
ghost use Rattle.h5_interface.specs.Forest.{nodes};
ghost use Rattle.h5_arena.specs.ArenaModel.{ArenaView, IsChildHeld, IsHeld, at_node, child_view, child_views, forest_seen, place};
ghost use Rattle.h5_arena.specs.Kin.{descendants_with_text, ancestors, siblings_with_self, children_before, children_behind, descendants, first_of, last_of, texts_among};
ghost use Rattle.h5_arena.specs.Lent.{AreHeldLent, lent_views};

use super::children::is_node;
use super::nodes::{Child, NodeId};
use super::tree::Arena;
use std::alloc::{AllocError, Global};

// The children after a node, and those before it. The search begins at the first.
fn behind(children: &[Child], id: NodeId) -> &[Child]
    ensures children { child_views result.now ≡ children_behind id.index (child_views children.now) }
    ensures held { (a : ArenaView) → All (IsChildHeld a) children.now → All (IsChildHeld a) result.now }
{
    for (at, child) in children.iter().enumerate() {
        if is_node(child, id.index) {
            return &children[at + 1..];
        }
    }
    &[]
}

fn before(children: &[Child], id: NodeId) -> &[Child]
    ensures children { child_views result.now ≡ children_before id.index (child_views children.now) }
    ensures held { (a : ArenaView) → All (IsChildHeld a) children.now → All (IsChildHeld a) result.now }
{
    for (at, child) in children.iter().enumerate() {
        if is_node(child, id.index) {
            return &children[..at];
        }
    }
    children
}

// The nodes among children.
fn nodes_among(arena: &Arena, children: &[&Child]) -> Result<Vec<NodeId>, AllocError>
    requires { AreHeldLent arena.now children.now }
    ensures found { IfOk result (λ found. map place found.items ≡ nodes (lent_views children.now)) }
    ensures held { IfOk result (λ found. All (IsHeld arena.now) found.items) }
{
    let mut found = Vec::new(arena.alloc);
    for child in children {
        if let Child::Node(node) = *child {
            found.push(*node)?;
        }
    }
    Ok(found)
}

// The texts among children, joined.
fn texts_among(alloc: Global, children: &[&Child]) -> Result<String, AllocError>
    ensures { IfOk result (λ text. string_bytes text ≡ texts_among (lent_views children.now)) }
{
    let mut text = String::new(alloc);
    for child in children {
        if let Child::Text(part) = *child {
            text.push_str(part.as_str())?;
        }
    }
    Ok(text)
}

impl Arena {
    /// The children of a node's parent: the node itself and its siblings; none if the node is not a child.
    pub fn siblings_with_self(&self, id: NodeId) -> &[Child]
        requires { IsHeld self.now id }
        ensures children { child_views result.now ≡ siblings_with_self (forest_seen self.now) id.index }
        ensures held { All (IsChildHeld self.now) result.now }
    {
        match self.parent(id) {
            Some(parent) => self.children(parent),
            None => &[],
        }
    }

    /// The siblings before a node, in order. Searches the children of the parent for the node.
    pub fn siblings_before(&self, id: NodeId) -> &[Child]
        requires { IsHeld self.now id }
        ensures children { child_views result.now ≡ children_before id.index (siblings_with_self (forest_seen self.now) id.index) }
        ensures held { All (IsChildHeld self.now) result.now }
    {
        before(self.siblings_with_self(id), id)
    }

    /// The siblings after a node, in order. Searches the children of the parent for the node.
    pub fn siblings_after(&self, id: NodeId) -> &[Child]
        requires { IsHeld self.now id }
        ensures children { child_views result.now ≡ children_behind id.index (siblings_with_self (forest_seen self.now) id.index) }
        ensures held { All (IsChildHeld self.now) result.now }
    {
        behind(self.siblings_with_self(id), id)
    }

    /// The first child of a node, a node or a text, if there is one.
    pub fn first_child(&self, id: NodeId) -> Option<&Child>
        requires { IsHeld self.now id }
        ensures child { at_node (λ d. first_of d.children) self.now id ≡ Some (option_map (λ c. child_view c.now) result) }
        ensures held { IfSome result (λ c. IsChildHeld self.now c.now) }
    {
        self.children(id).first()
    }

    /// The last child of a node, a node or a text, if there is one.
    pub fn last_child(&self, id: NodeId) -> Option<&Child>
        requires { IsHeld self.now id }
        ensures child { at_node (λ d. last_of d.children) self.now id ≡ Some (option_map (λ c. child_view c.now) result) }
        ensures held { IfSome result (λ c. IsChildHeld self.now c.now) }
    {
        self.children(id).last()
    }

    /// The previous sibling of a node, a node or a text, if there is one.
    pub fn previous_sibling(&self, id: NodeId) -> Option<&Child>
        requires { IsHeld self.now id }
        ensures sibling { option_map (λ c. child_view c.now) result ≡ last_of (children_before id.index (siblings_with_self (forest_seen self.now) id.index)) }
        ensures held { IfSome result (λ c. IsChildHeld self.now c.now) }
    {
        self.siblings_before(id).last()
    }

    /// The next sibling of a node, a node or a text, if there is one.
    pub fn next_sibling(&self, id: NodeId) -> Option<&Child>
        requires { IsHeld self.now id }
        ensures sibling { option_map (λ c. child_view c.now) result ≡ first_of (children_behind id.index (siblings_with_self (forest_seen self.now) id.index)) }
        ensures held { IfSome result (λ c. IsChildHeld self.now c.now) }
    {
        self.siblings_after(id).first()
    }

    /// Returns the ancestors of a node, the nearest first. Fails with `AllocError` if an allocation fails.
    pub fn ancestors(&self, id: NodeId) -> Result<Vec<NodeId>, AllocError>
        requires { IsHeld self.now id }
        ensures found { IfOk result (λ found. map place found.items ≡ ancestors (forest_seen self.now) id.index) }
        ensures held { IfOk result (λ found. All (IsHeld self.now) found.items) }
    {
        let mut found = Vec::new(self.alloc);
        let mut at = id;
        for _step in 0..self.len() {
            let Some(parent) = self.parent(at) else {
                return Ok(found);
            };
            found.push(parent)?;
            at = parent;
        }
        Ok(found)
    }

    /// Returns everything below a node, nodes and texts, in tree order. Fails with `AllocError` if an allocation fails.
    pub fn descendants_with_text(&self, id: NodeId) -> Result<Vec<&Child>, AllocError>
        requires { IsHeld self.now id }
        ensures found { IfOk result (λ found. lent_views found.items ≡ descendants_with_text (forest_seen self.now) id.index) }
        ensures held { IfOk result (λ found. AreHeldLent self.now found.items) }
    {
        let mut found = Vec::new(self.alloc);
        let mut rest = self.children(id);
        let mut waiting: Vec<&[Child]> = Vec::new(self.alloc);
        loop {
            match rest.split_first() {
                Some((child, others)) => {
                    rest = others;
                    found.push(child)?;
                    if let Child::Node(node) = child {
                        if waiting.len() < self.len() {
                            waiting.push(rest)?;
                            rest = self.children(*node);
                        }
                    }
                }
                None => match waiting.pop() {
                    Some(others) => rest = others,
                    None => return Ok(found),
                },
            }
        }
    }

    /// Returns the nodes below a node, in tree order. Fails with `AllocError` if an allocation fails.
    pub fn descendants(&self, id: NodeId) -> Result<Vec<NodeId>, AllocError>
        requires { IsHeld self.now id }
        ensures found { IfOk result (λ found. map place found.items ≡ descendants (forest_seen self.now) id.index) }
        ensures held { IfOk result (λ found. All (IsHeld self.now) found.items) }
    {
        let below = self.descendants_with_text(id)?;
        nodes_among(self, below.as_slice())
    }

    /// Returns the texts below a node, joined in tree order (DOM standard, section 4.4, "descendant text content"). Fails with `AllocError`
    /// if an allocation fails.
    pub fn text(&self, id: NodeId) -> Result<String, AllocError>
        requires { IsHeld self.now id }
        ensures { IfOk result (λ text. string_bytes text ≡ texts_among (descendants_with_text (forest_seen self.now) id.index)) }
    {
        let below = self.descendants_with_text(id)?;
        texts_among(self.alloc, below.as_slice())
    }
}
