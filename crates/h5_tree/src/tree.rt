//! The reads of a tree. An id that isn't a node of the tree has no name, no attributes and no relatives.
ghost use Rattle.std.specs.Prelude.{◌≡◌, ◌==◌, ℕ, IfOk, map, option_copied, true};
ghost use Rattle.std.specs.Option.{option_map};
ghost use Rattle.h5_interface.specs.Forest.{Forest, attrs_of, children_of, kind_of};
ghost use Rattle.h5_interface.specs.declared.marks.QuirksMode.{QuirksMode};
ghost use Rattle.h5_arena.specs.ArenaModel.{value_of};
ghost use Rattle.h5_arena.specs.Kin.{tree_parent};
ghost use Rattle.h5_tree.specs.Elements as e;
ghost use Rattle.h5_tree.specs.Shape.{IsShaped};

use h5_interface::QuirksMode;
use h5_names::LocalName;
use std::alloc::{AllocError, Global};

/// A tree of elements, with what is needed to select in it. Its nodes are those of a forest, in which each id has a number.
///
/// Each read returns for any id. If the id isn't a node of the tree, a test of it returns false, except `is_empty` and
/// `has_elements_or_leaves`, an option is `None`, and a list is empty.
pub trait Tree {
    /// The id of a node.
    type NodeId: Copy;

    // The number of a node in the forest.
    ghost number: { Self.NodeId → ℕ };

    // The forest of the nodes, and its quirks mode.
    ghost forest: { Self → Forest };

    ghost mode: { Self → QuirksMode };

    /// The quirks mode.
    fn quirks_mode(&self) -> QuirksMode
        ensures { result ≡ mode self.now };

    /// The number of nodes, which are numbered from 0; in a block, texts are counted as well. In any tree, a node appears once below its
    /// parent and below no other node, and no node is its own ancestor.
    fn node_count(&self) -> usize
        ensures count { result ≡ (forest self.now).bound }
        ensures shape { IsShaped (forest self.now) };

    /// Returns true if two ids are of the same node.
    fn is_same_node(&self, one: Self::NodeId, other: Self::NodeId) -> bool
        ensures { result ≡ (number one == number other) };

    /// Returns true for an element.
    fn is_element(&self, id: Self::NodeId) -> bool
        ensures { result ≡ e.is_element (forest self.now) (number id) };

    /// Returns true for an element of HTML.
    fn is_html_element(&self, id: Self::NodeId) -> bool
        ensures { result ≡ e.is_html_element (forest self.now) (number id) };

    /// Returns true for an element in this namespace.
    fn has_namespace(&self, id: Self::NodeId, ns: &str) -> bool
        ensures { result ≡ e.has_namespace (forest self.now) ns.now (number id) };

    /// Returns true for an element with this local name.
    fn has_local_name(&self, id: Self::NodeId, local: &LocalName) -> bool
        ensures { result ≡ e.has_local_name (forest self.now) local.now (number id) };

    /// Returns true for two elements with the same local name and namespace.
    fn is_same_type(&self, one: Self::NodeId, other: Self::NodeId) -> bool
        ensures { result ≡ e.is_same_type (forest self.now) (number one) (number other) };

    /// The value of an attribute: of the first one with this local name and no namespace.
    fn attr(&self, id: Self::NodeId, local: &str) -> Option<&str>
        ensures { option_copied result ≡ value_of local.now (attrs_of (forest self.now) (number id)) };

    /// The value of an attribute: of the first one with this namespace and local name.
    fn attr_in_namespace(&self, id: Self::NodeId, ns: &str, local: &str) -> Option<&str>
        ensures { option_copied result ≡ e.value_in ns.now local.now (attrs_of (forest self.now) (number id)) };

    /// The node whose child a node is. The contents of a template aren't a child.
    fn parent(&self, id: Self::NodeId) -> Option<Self::NodeId>
        ensures { option_map number result ≡ tree_parent (forest self.now) (number id) };

    /// Returns true for a document.
    fn is_document(&self, id: Self::NodeId) -> bool
        ensures { result ≡ e.is_document (kind_of (forest self.now) (number id)) };

    /// Returns true if a node has neither elements nor texts as children.
    fn is_empty(&self, id: Self::NodeId) -> bool
        ensures { result ≡ e.is_empty (forest self.now) (number id) };

    /// Returns the elements among the children of a node, in order. Fails with `AllocError` if an allocation fails.
    fn child_elements(
        &self,
        alloc: Global,
        id: Self::NodeId,
    ) -> Result<Vec<Self::NodeId>, AllocError>
        ensures { IfOk result (λ found. map number found.items ≡ e.child_elements (forest self.now) (number id)) };

    /// Returns the elements among the siblings before a node, in order. Fails with `AllocError` if an allocation fails.
    fn sibling_elements_before(
        &self,
        alloc: Global,
        id: Self::NodeId,
    ) -> Result<Vec<Self::NodeId>, AllocError>
        ensures { IfOk result (λ found. map number found.items ≡ e.before (forest self.now) (number id)) };

    /// Returns the elements among the siblings after a node, in order. Fails with `AllocError` if an allocation fails.
    fn sibling_elements_after(
        &self,
        alloc: Global,
        id: Self::NodeId,
    ) -> Result<Vec<Self::NodeId>, AllocError>
        ensures { IfOk result (λ found. map number found.items ≡ e.behind (forest self.now) (number id)) };

    /// Returns the elements below a node, in tree order. The contents of a template aren't below it. Fails with `AllocError` if an allocation
    /// fails.
    fn descendant_elements(
        &self,
        alloc: Global,
        id: Self::NodeId,
    ) -> Result<Vec<Self::NodeId>, AllocError>
        ensures { IfOk result (λ found. map number found.items ≡ e.below (forest self.now) (number id)) };

    /// Returns true only if each child of a node is an element, a text, or a node without children.
    fn has_elements_or_leaves(&self, id: Self::NodeId) -> bool
        ensures { result ≡ true → e.AreElementsOrLeaves (forest self.now) (children_of (forest self.now) (number id)) };
}
