//! The arena, and its reading calls.
ghost use Rattle.std.specs.Prelude.{◌≡◌, ◌<◌, All, IfNone, IfOk, IfSome, Some, length, nat_lt, option_copied, true};
ghost use Rattle.h5_names.specs.AttributeText.{attribute_texts};

use super::attribute_names::AttributeNames;
use super::nodes::{Child, Kind, NodeData, NodeId};
use super::shared::SharedKinds;
use super::{attributes, makes};
use h5_interface::QuirksMode;
use h5_names::{Attribute, QualName};
use std::alloc::{AllocError, Global};
use std::marker::Model;

/// A tree whose nodes are in one vector, in the order in which they were made. The contents of a template are a separate node, which comes
/// after the template.
///
/// The ids passed to a call must be those of nodes of this arena, as `holds` tests. Only `try_append` and `try_insert_before` test them.
#[derive(Drop)]
pub struct Arena {
    pub(crate) nodes: Vec<NodeData>,
    // These two aren't in the view: their contents are also in the nodes.
    pub(crate) shared: SharedKinds,
    pub(crate) names: AttributeNames,
    pub(crate) quirks: QuirksMode,
    pub(crate) errors: Vec<String>,
    pub(crate) errors_lost: bool,
    // If false, the text of each error is lost.
    pub(crate) keeps_errors: bool,
    pub(crate) alloc: Global,
}

impl Model for Arena {
    ghost use Rattle.h5_arena.specs.ArenaModel.{ArenaView, IsArena, forest_in, node_views, texts_of};

    ghost Value = { ArenaView };

    ghost view = { λ a. record { nodes = node_views a.nodes.items; quirks = a.quirks; errors = texts_of a.errors.items; errors_lost = a.errors_lost; keeps_errors = a.keeps_errors } };

    ghost invariant = { λ a. IsArena a.names (forest_in a.nodes.items) };
}

ghost use Rattle.h5_interface.specs.Forest.{IsElement, IsNode};
ghost use Rattle.h5_arena.specs.ArenaModel.{ArenaView, IsChildHeld, IsChildOf, IsHeld, IsNoChild, at_node, child_parent, child_views, forest_seen, fragment_root, id_at, kind_view, name_of_kind, new_arena, optional_place, silent_arena, texts_of, value_of};

impl Arena {
    /// Returns an arena with only its document, in no-quirks mode and without errors. Fails with `AllocError` if an allocation fails.
    pub fn new(alloc: Global) -> Result<Arena, AllocError>
        ensures { IfOk result (λ a. a ≡ new_arena) }
    {
        Arena::begin(alloc, true)
    }

    /// Returns an arena as `new` does, but one that doesn't store the texts of parse errors: `errors` is empty, and `errors_lost` returns
    /// true once an error is reported. Fails with `AllocError` if an allocation fails.
    pub fn without_errors(alloc: Global) -> Result<Arena, AllocError>
        ensures { IfOk result (λ a. a ≡ silent_arena) }
    {
        Arena::begin(alloc, false)
    }

    // An arena with only its document, which stores the texts of errors or doesn't.
    fn begin(alloc: Global, keeps_errors: bool) -> Result<Arena, AllocError>
        ensures { IfOk result (λ a. a ≡ record new_arena { keeps_errors = keeps_errors }) }
    {
        let mut nodes = Vec::new(alloc);
        nodes.push(makes::bare_node(alloc, Kind::Document)?)?;
        Ok(Arena {
            nodes,
            shared: SharedKinds::new(alloc),
            names: AttributeNames::new(alloc),
            quirks: QuirksMode::NoQuirks,
            errors: Vec::new(alloc),
            errors_lost: false,
            keeps_errors,
            alloc,
        })
    }

    /// Returns true if this is a node of the arena.
    pub fn holds(&self, id: NodeId) -> bool
        ensures held { result ≡ nat_lt id.index (length self.now.nodes) }
        ensures node { result ≡ true → IsNode (forest_seen self.now) id.index }
    {
        id.index < self.len()
    }

    /// The document.
    pub fn document(&self) -> NodeId
        ensures document { result.index ≡ 0 }
        ensures held { IsHeld self.now result }
    {
        let _nodes = &self.nodes;
        NodeId { index: 0 }
    }

    /// The number of nodes, including those without a parent.
    pub fn len(&self) -> usize
        ensures { result ≡ length self.now.nodes }
    {
        self.nodes.len()
    }

    /// The node with this number in the order in which nodes were made, counted from 0, if there is one.
    pub fn id(&self, index: usize) -> Option<NodeId>
        ensures { result ≡ id_at self.now index }
    {
        if index < self.len() {
            Some(NodeId { index })
        } else {
            None
        }
    }

    /// The kind of a node.
    pub fn kind(&self, id: NodeId) -> &Kind
        requires { IsHeld self.now id }
        ensures { at_node (λ d. d.kind) self.now id ≡ Some (kind_view result.now) }
    {
        &*self.nodes[id.index].kind
    }

    /// The name of an element; `None` for any other node. A node with a name is an element.
    pub fn name(&self, id: NodeId) -> Option<&QualName>
        requires { IsHeld self.now id }
        ensures name { at_node (λ d. name_of_kind d.kind) self.now id ≡ Some (option_copied result) }
        ensures element { IfSome result (λ _. IsElement (forest_seen self.now) id.index) }
    {
        let node = &self.nodes[id.index];
        match &*node.kind {
            Kind::Element(name) => Some(name),
            _ => None,
        }
    }

    /// The attributes of an element, in the order in which they were added.
    pub fn attrs(&self, id: NodeId) -> &[Attribute]
        requires { IsHeld self.now id }
        ensures { at_node (λ d. d.attrs) self.now id ≡ Some (attribute_texts result.now) }
    {
        self.nodes[id.index].attrs.as_slice()
    }

    /// The value of an attribute: of the first one with this local name and no namespace. `None` if there is none, as for any node that
    /// isn't an element.
    pub fn attr(&self, id: NodeId, name: &str) -> Option<&str>
        requires { IsHeld self.now id }
        ensures { at_node (λ d. value_of name.now d.attrs) self.now id ≡ Some (option_copied result) }
    {
        attributes::value_of(self.attrs(id), name)
    }

    /// The children of a node, in order.
    pub fn children(&self, id: NodeId) -> &[Child]
        requires { IsHeld self.now id }
        ensures children { at_node (λ d. d.children) self.now id ≡ Some (child_views result.now) }
        ensures held { All (IsChildHeld self.now) result.now }
    {
        self.nodes[id.index].children.as_slice()
    }

    /// The node whose child a node is. The contents of a template aren't a child.
    pub fn parent(&self, id: NodeId) -> Option<NodeId>
        requires { IsHeld self.now id }
        ensures parent { at_node child_parent self.now id ≡ Some (optional_place result) }
        ensures held { IfSome result (IsHeld self.now) }
        ensures child { IfSome result (λ parent. IsChildOf (forest_seen self.now) id.index parent.index) }
        ensures no_child { IfNone result (IsNoChild (forest_seen self.now) id.index) }
    {
        self.child_parent(id)
    }

    // The node whose child a node is, as stored with the node.
    fn child_parent(&self, id: NodeId) -> Option<NodeId>
        requires { IsHeld self.now id }
        ensures parent { at_node child_parent self.now id ≡ Some (optional_place result) }
        ensures held { IfSome result (IsHeld self.now) }
    {
        let node = &self.nodes[id.index];
        match &*node.kind {
            Kind::Fragment => None,
            _ => node.parent.node(),
        }
    }

    /// The contents of a template; `None` for any other node.
    pub fn contents(&self, id: NodeId) -> Option<NodeId>
        requires { IsHeld self.now id }
        ensures contents { at_node (λ d. d.contents) self.now id ≡ Some (optional_place result) }
        ensures held { IfSome result (IsHeld self.now) }
    {
        self.nodes[id.index].contents.node()
    }

    /// The root that a fragment parser makes, an `html` element, whose children are the fragment: the document's last child. `None` if the
    /// document has no child, or its last child is a text.
    pub fn fragment_root(&self) -> Option<NodeId>
        ensures root { optional_place result ≡ fragment_root self.now }
        ensures held { IfSome result (IsHeld self.now) }
    {
        match self.children(self.document()).last() {
            Some(Child::Node(id)) => Some(*id),
            _ => None,
        }
    }

    /// The form with which an element was associated.
    pub fn form(&self, id: NodeId) -> Option<NodeId>
        requires { IsHeld self.now id }
        ensures form { at_node (λ d. d.marks.form) self.now id ≡ Some (optional_place result) }
        ensures held { IfSome result (IsHeld self.now) }
    {
        self.nodes[id.index].form.node()
    }

    /// Returns true if an element was marked as a script that has started.
    pub fn started(&self, id: NodeId) -> bool
        requires { IsHeld self.now id }
        ensures { at_node (λ d. d.marks.started) self.now id ≡ Some result }
    {
        self.nodes[id.index].started
    }

    /// The quirks mode.
    pub fn quirks(&self) -> QuirksMode
        ensures { result ≡ self.now.quirks }
    {
        self.quirks
    }

    /// The texts of the parse errors, in the order in which they were reported.
    pub fn errors(&self) -> &[String]
        ensures { texts_of result.now ≡ self.now.errors }
    {
        self.errors.as_slice()
    }

    /// Returns true if an allocation for the text of a parse error failed or, in an arena that stores no texts, if an error was reported.
    pub fn errors_lost(&self) -> bool
        ensures { result ≡ self.now.errors_lost }
    {
        self.errors_lost
    }
}
