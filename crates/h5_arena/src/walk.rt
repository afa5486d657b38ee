//! The walk of a serializer over a node of an arena (HTML standard, section 13.3, "Serializing HTML fragments").
ghost use Rattle.std.specs.Prelude.{◌≡◌, ◌∷◌, [], Some, option_copied};
ghost use Rattle.h5_interface.specs.Forest.{ElementNode};
ghost use Rattle.h5_serialize.specs.Walk.{Walks};
ghost use Rattle.h5_arena.specs.ArenaModel.{IsHeld, at_node, child_view, child_views, forest_seen, kind_view};
ghost use Rattle.h5_arena.specs.NodeCalls.{calls_of, calls_of_children, child_calls, shown_children};
ghost use Rattle.h5_arena.specs.OpenNodes.{AreNodes, Begins, OpensChild, OpensChildren, calls_left, end_calls};

use super::nodes::{Child, Kind, NodeId};
use super::tree::Arena;
use h5_names::QualName;
use h5_serialize::{Serialize, SerializeFault, Serializer, TraversalScope};

/// A borrowed node of an arena. A serializer can write it.
#[derive(Clone, Copy)]
pub struct NodeRef<'a> {
    pub arena: &'a Arena,
    pub id: NodeId,
    // The node is one of the arena.
    ghost held: { IsHeld arena.now id },
}

// An open node: its children that are left, and the name of an element that is still to be ended.
#[derive(Clone, Copy)]
struct OpenNode<'a> {
    rest: &'a [Child],
    name: Option<&'a QualName>,
}

impl Arena {
    /// A node, borrowed with its arena, for a serializer. `id` must be a node of this arena.
    pub fn at(&self, id: NodeId) -> NodeRef<'_>
        requires { IsHeld self.now id }
        ensures arena { result.arena.now ≡ self.now }
        ensures id { result.id ≡ id }
    {
        NodeRef { arena: self, id }
    }
}

// The children of a node in the walk: for a template, those of its contents.
fn shown_children(arena: &Arena, id: NodeId) -> &[Child]
    requires { IsHeld arena.now id }
    ensures { child_views result.now ≡ shown_children (forest_seen arena.now) id.index }
{
    let _nodes = &arena.nodes;
    match arena.contents(id) {
        Some(contents) => arena.children(contents),
        None => arena.children(id),
    }
}

// Starts an element, and opens it.
fn begin_element<'a, S: Serializer>(
    arena: &'a Arena,
    id: NodeId,
    name: &'a QualName,
    serializer: &mut S,
) -> Result<Option<OpenNode<'a>>, SerializeFault>
    requires held { IsHeld arena.now id }
    requires element { at_node (λ d. d.kind) arena.now id ≡ Some (ElementNode name.now) }
    ensures calls { Begins S.answer S.after S.writes S.breaks (forest_seen arena.now)
        (calls_of (forest_seen arena.now) id.index)
        (S.meaning serializer.old) (S.contents serializer.old) result
        (S.meaning serializer.new) (S.contents serializer.new) }
    ensures opened { OpensChildren (forest_seen arena.now) id.index result }
{
    let _nodes = &arena.nodes;
    serializer.start_elem_ref(name, arena.attrs(id).iter())?;
    Ok(Some(OpenNode {
        rest: shown_children(arena, id),
        name: Some(name),
    }))
}

// Begins a node: one with children is opened, any other is complete.
fn begin<'a, S: Serializer>(
    arena: &'a Arena,
    id: NodeId,
    serializer: &mut S,
) -> Result<Option<OpenNode<'a>>, SerializeFault>
    requires { IsHeld arena.now id }
    ensures calls { Begins S.answer S.after S.writes S.breaks (forest_seen arena.now)
        (calls_of (forest_seen arena.now) id.index)
        (S.meaning serializer.old) (S.contents serializer.old) result
        (S.meaning serializer.new) (S.contents serializer.new) }
    ensures opened { OpensChildren (forest_seen arena.now) id.index result }
{
    let _nodes = &arena.nodes;
    match arena.kind(id) {
        Kind::Element(name) => begin_element(arena, id, name, serializer),
        Kind::Document | Kind::Fragment => Ok(Some(OpenNode {
            rest: shown_children(arena, id),
            name: None,
        })),
        Kind::Comment(text) => {
            serializer.write_comment(text.as_str())?;
            Ok(None)
        }
        Kind::Doctype { name, .. } => {
            serializer.write_doctype(name.as_str())?;
            Ok(None)
        }
        Kind::Instruction { target, text } => {
            serializer.write_processing_instruction(target.as_str(), text.as_str())?;
            Ok(None)
        }
    }
}

// Begins a child.
fn begin_child<'a, S: Serializer>(
    arena: &'a Arena,
    child: &'a Child,
    serializer: &mut S,
) -> Result<Option<OpenNode<'a>>, SerializeFault>
    requires { AreNodes (forest_seen arena.now) (child_view child.now ∷ []) }
    ensures calls { Begins S.answer S.after S.writes S.breaks (forest_seen arena.now)
        (child_calls (calls_of (forest_seen arena.now)) (child_view child.now))
        (S.meaning serializer.old) (S.contents serializer.old) result
        (S.meaning serializer.new) (S.contents serializer.new) }
    ensures opened { OpensChild (forest_seen arena.now) (child_view child.now) result }
{
    match child {
        Child::Node(id) => begin(arena, *id, serializer),
        Child::Text(text) => {
            serializer.write_text(text.as_str())?;
            Ok(None)
        }
    }
}

// Ends a node after its children.
fn end<S: Serializer>(name: Option<&QualName>, serializer: &mut S) -> Result<(), SerializeFault>
    ensures { Walks S.answer S.after S.writes S.breaks (end_calls (option_copied name.entry))
        (S.meaning serializer.old) (S.contents serializer.old) result
        (S.meaning serializer.new) (S.contents serializer.new) }
{
    match name {
        Some(name) => serializer.end_elem_ref(name),
        None => Ok(()),
    }
}

// Makes the calls that are left of an open node. The nodes around the current one are in a vector.
fn walk_open<'a, S: Serializer>(
    arena: &'a Arena,
    first: OpenNode<'a>,
    serializer: &mut S,
) -> Result<(), SerializeFault>
    requires { AreNodes (forest_seen arena.now) (child_views first.rest.now) }
    ensures { Walks S.answer S.after S.writes S.breaks (calls_left (forest_seen arena.now) first.entry)
        (S.meaning serializer.old) (S.contents serializer.old) result
        (S.meaning serializer.new) (S.contents serializer.new) }
{
    let _nodes = &arena.nodes;
    let mut current = first;
    let mut around: Vec<OpenNode<'a>> = Vec::new(arena.alloc);
    loop {
        match current.rest.split_first() {
            Some((child, rest)) => {
                current.rest = rest;
                if let Some(opened) = begin_child(arena, child, serializer)? {
                    around.push(current)?;
                    current = opened;
                }
            }
            None => {
                end(current.name, serializer)?;
                match around.pop() {
                    Some(outer) => current = outer,
                    None => return Ok(()),
                }
            }
        }
    }
}

// Makes the calls of a node.
fn walk_node<S: Serializer>(
    arena: &Arena,
    id: NodeId,
    serializer: &mut S,
) -> Result<(), SerializeFault>
    requires { IsHeld arena.now id }
    ensures { Walks S.answer S.after S.writes S.breaks (calls_of (forest_seen arena.now) id.index)
        (S.meaning serializer.old) (S.contents serializer.old) result
        (S.meaning serializer.new) (S.contents serializer.new) }
{
    let _nodes = &arena.nodes;
    match begin(arena, id, serializer)? {
        Some(opened) => walk_open(arena, opened, serializer),
        None => Ok(()),
    }
}

// Makes the calls of the children of a node.
fn walk_below<S: Serializer>(
    arena: &Arena,
    id: NodeId,
    serializer: &mut S,
) -> Result<(), SerializeFault>
    requires { IsHeld arena.now id }
    ensures { Walks S.answer S.after S.writes S.breaks
        (calls_of_children (forest_seen arena.now) (shown_children (forest_seen arena.now) id.index))
        (S.meaning serializer.old) (S.contents serializer.old) result
        (S.meaning serializer.new) (S.contents serializer.new) }
{
    let _nodes = &arena.nodes;
    let rest = shown_children(arena, id);
    walk_open(arena, OpenNode { rest, name: None }, serializer)
}

impl Serialize for NodeRef<'_> {
    ghost use Rattle.h5_arena.specs.ArenaModel.{forest_seen};
    ghost use Rattle.h5_arena.specs.NodeCalls.{walk_of};

    ghost walk = { λ node. walk_of (forest_seen node.arena.now) node.id.index };

    /// Makes the calls of the node's walk. With `IncludeNode`: an element is started, followed by the calls of its children, and ended; a
    /// document and a fragment have only the calls of their children; any other node is one call. With `ChildrenOnly`: only the calls of
    /// the children. For a template, the children are those of its contents.
    ///
    /// Fails with the first error of the serializer, or with `Memory` if an allocation fails for a name or for the nodes that are open at
    /// one time; then the serializer is as after the calls made. Texts and attributes aren't copied.
    fn serialize<S: Serializer>(
        &self,
        serializer: &mut S,
        traversal_scope: TraversalScope,
    ) -> Result<(), SerializeFault> {
        match traversal_scope {
            TraversalScope::IncludeNode => walk_node(self.arena, self.id, serializer),
            TraversalScope::ChildrenOnly(_) => walk_below(self.arena, self.id, serializer),
        }
    }
}
