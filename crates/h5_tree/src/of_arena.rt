//! An arena is a tree. Of an id that it doesn't hold it reports nothing.
ghost use Rattle.std.specs.Prelude.{◌≡◌, ◌&&◌, All, IfOk, map, option_copied, true};
ghost use Rattle.h5_names.specs.AttributeText.{attribute_texts, is_same_text};
ghost use Rattle.h5_arena.specs.ArenaModel.{IsChildHeld, child_views, forest_seen, place};
ghost use Rattle.h5_tree.specs.Elements as e;

use super::tree::Tree;
use h5_arena::{Arena, Child, Kind, NodeId};
use h5_interface::{QuirksMode, TreeSink};
use h5_names::{Attribute, LocalName, Namespace, QualName};
use std::alloc::{AllocError, Global};

// The name of an element.
fn name_of(arena: &Arena, id: NodeId) -> Option<&QualName>
    ensures { option_copied result ≡ e.name_of (forest_seen arena.now) id.index }
{
    if arena.holds(id) {
        arena.name(id)
    } else {
        None
    }
}

fn is_element(arena: &Arena, id: NodeId) -> bool
    ensures { result ≡ e.is_element (forest_seen arena.now) id.index }
{
    name_of(arena, id).is_some()
}

// Returns true for a name with this namespace and local name.
fn is_named(name: &QualName, ns: &str, local: &str) -> bool
    ensures { result ≡ (is_same_text name.now.ns ns.now && is_same_text name.now.local local.now) }
{
    name.ns.as_str() == ns && name.local.as_str() == local
}

// The value of the first attribute with this namespace and local name.
fn value_in<'a>(attrs: &'a [Attribute], ns: &str, local: &str) -> Option<&'a str>
    ensures { option_copied result ≡ e.value_in ns.now local.now (attribute_texts attrs.now) }
{
    for attribute in attrs {
        if is_named(&attribute.name, ns, local) {
            return Some(attribute.value.as_str());
        }
    }
    None
}

// The elements among children.
fn elements_among(
    alloc: Global,
    arena: &Arena,
    children: &[Child],
) -> Result<Vec<NodeId>, AllocError>
    ensures { IfOk result (λ found. map place found.items ≡ e.elements_among (forest_seen arena.now) (child_views children.now)) }
{
    let mut found = Vec::new(alloc);
    for child in children {
        if let Child::Node(id) = child {
            if is_element(arena, *id) {
                found.push(*id)?;
            }
        }
    }
    Ok(found)
}

// The elements among nodes.
fn elements(alloc: Global, arena: &Arena, nodes: &[NodeId]) -> Result<Vec<NodeId>, AllocError>
    ensures { IfOk result (λ found. map place found.items ≡ e.elements (forest_seen arena.now) (map place nodes.now)) }
{
    let mut found = Vec::new(alloc);
    for node in nodes {
        if is_element(arena, *node) {
            found.push(*node)?;
        }
    }
    Ok(found)
}

// Returns true only if each of these children is an element, a text, or a node without children.
fn are_elements_or_leaves(arena: &Arena, children: &[Child]) -> bool
    requires { All (IsChildHeld arena.now) children.now }
    ensures { result ≡ true → e.AreElementsOrLeaves (forest_seen arena.now) (child_views children.now) }
{
    for child in children {
        if let Child::Node(id) = child {
            if !is_element(arena, *id) && !arena.children(*id).is_empty() {
                return false;
            }
        }
    }
    true
}

impl Tree for Arena {
    type NodeId = NodeId;

    ghost number = { place };

    ghost forest = { forest_seen };

    ghost mode = { λ a. a.quirks };

    fn quirks_mode(&self) -> QuirksMode {
        self.quirks()
    }

    fn node_count(&self) -> usize {
        // By its contract, the nodes are a forest.
        let _document = self.get_document();
        self.len()
    }

    fn is_same_node(&self, one: NodeId, other: NodeId) -> bool {
        one == other
    }

    fn is_element(&self, id: NodeId) -> bool {
        is_element(self, id)
    }

    fn is_html_element(&self, id: NodeId) -> bool {
        match name_of(self, id) {
            Some(name) => name.ns == Namespace::html(),
            None => false,
        }
    }

    fn has_namespace(&self, id: NodeId, ns: &str) -> bool {
        match name_of(self, id) {
            Some(name) => name.ns.as_str() == ns,
            None => false,
        }
    }

    fn has_local_name(&self, id: NodeId, local: &LocalName) -> bool {
        match name_of(self, id) {
            Some(name) => name.local == *local,
            None => false,
        }
    }

    fn is_same_type(&self, one: NodeId, other: NodeId) -> bool {
        match (name_of(self, one), name_of(self, other)) {
            (Some(one), Some(other)) => one.local == other.local && one.ns == other.ns,
            _ => false,
        }
    }

    fn attr(&self, id: NodeId, local: &str) -> Option<&str> {
        if self.holds(id) {
            self.attr(id, local)
        } else {
            None
        }
    }

    fn attr_in_namespace(&self, id: NodeId, ns: &str, local: &str) -> Option<&str> {
        if self.holds(id) {
            value_in(self.attrs(id), ns, local)
        } else {
            None
        }
    }

    fn parent(&self, id: NodeId) -> Option<NodeId> {
        if self.holds(id) {
            self.parent(id)
        } else {
            None
        }
    }

    fn is_document(&self, id: NodeId) -> bool {
        if self.holds(id) {
            matches!(self.kind(id), Kind::Document)
        } else {
            false
        }
    }

    fn is_empty(&self, id: NodeId) -> bool {
        if !self.holds(id) {
            return true;
        }
        for child in self.children(id) {
            match child {
                Child::Text(_) => return false,
                Child::Node(id) => {
                    if is_element(self, *id) {
                        return false;
                    }
                }
            }
        }
        true
    }

    fn child_elements(&self, alloc: Global, id: NodeId) -> Result<Vec<NodeId>, AllocError> {
        if self.holds(id) {
            elements_among(alloc, self, self.children(id))
        } else {
            Ok(Vec::new(alloc))
        }
    }

    fn sibling_elements_before(
        &self,
        alloc: Global,
        id: NodeId,
    ) -> Result<Vec<NodeId>, AllocError> {
        if self.holds(id) {
            elements_among(alloc, self, self.siblings_before(id))
        } else {
            Ok(Vec::new(alloc))
        }
    }

    fn sibling_elements_after(&self, alloc: Global, id: NodeId) -> Result<Vec<NodeId>, AllocError> {
        if self.holds(id) {
            elements_among(alloc, self, self.siblings_after(id))
        } else {
            Ok(Vec::new(alloc))
        }
    }

    fn descendant_elements(&self, alloc: Global, id: NodeId) -> Result<Vec<NodeId>, AllocError> {
        if self.holds(id) {
            elements(alloc, self, self.descendants(id)?.as_slice())
        } else {
            Ok(Vec::new(alloc))
        }
    }

    fn has_elements_or_leaves(&self, id: NodeId) -> bool {
        if self.holds(id) {
            are_elements_or_leaves(self, self.children(id))
        } else {
            true
        }
    }
}
