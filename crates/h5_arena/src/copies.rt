//! Copies a node with its subtree: the copies are a list of new nodes, made before any of them is added to the arena.
ghost use Rattle.std.specs.Prelude.{◌≡◌, ◌<◌, ◌+◌, ◌-◌, ◌^◌, ◌++◌, ◌∷◌, [], IfOk, None, OnOk, Option, Some, length, map, vec_len};
ghost use Rattle.std.specs.Option.{option_map, option_to_list};
ghost use Rattle.h5_names.specs.AttributeText.{attribute_texts};
ghost use Rattle.h5_interface.specs.Forest.{IsForest, below, nodes as nodes_among};
ghost use Rattle.h5_arena.specs.ArenaModel.{child_view, child_views, children_in, forest_in, link_place, node_view, node_views};
ghost use Rattle.h5_arena.specs.Copies.{AreCopies, copied, renumbered, wanted_below, wanted_views};

use super::below::{self, Below};
use super::link::Link;
use super::nodes::{Child, NodeData, NodeId};
use h5_names::Attribute;
use std::alloc::{AllocError, Global};

// A node to copy, and the copy that will be the parent of its copy.
#[derive(Clone, Copy)]
struct Source {
    id: NodeId,
    parent: Link,
}

fn copy_attributes(alloc: Global, attrs: &[Attribute]) -> Result<Vec<Attribute>, AllocError>
    ensures { IfOk result (λ copy. attribute_texts copy.items ≡ attribute_texts attrs.now) }
{
    let mut copy = Vec::with_capacity(alloc, attrs.len())?;
    for attribute in attrs {
        copy.push(attribute.clone()?)?;
    }
    Ok(copy)
}

// A copy of a child. A node is appended to the sources; its copy gets its future number, which is after the `count` nodes of the arena.
fn copy_child(
    child: &Child,
    parent: Link,
    count: usize,
    sources: &mut Vec<Source>,
) -> Result<Child, AllocError>
    requires { count < 2 ^ 63 }
    ensures copy { IfOk result (λ copy. child_view copy ∷ [] ≡ renumbered (count + vec_len sources.old) (child_view child.now ∷ [])) }
    ensures sources { OnOk result (wanted_views sources.new.items ≡
        wanted_views sources.old.items ++ wanted_below (link_place parent) (nodes_among (child_view child.now ∷ []))) }
{
    match child {
        Child::Text(text) => Ok(Child::Text(text.clone()?)),
        Child::Node(id) => {
            let index = count + sources.len();
            sources.push(Source { id: *id, parent })?;
            Ok(Child::Node(NodeId { index }))
        }
    }
}

// Copies of children, in order.
fn copy_children(
    alloc: Global,
    children: &[Child],
    parent: Link,
    count: usize,
    sources: &mut Vec<Source>,
) -> Result<Below, AllocError>
    requires { count < 2 ^ 63 }
    ensures copy { IfOk result (λ copy. child_views (children_in copy) ≡ renumbered (count + vec_len sources.old) (child_views children.now)) }
    ensures sources { OnOk result (wanted_views sources.new.items ≡
        wanted_views sources.old.items ++ wanted_below (link_place parent) (nodes_among (child_views children.now))) }
{
    let mut copies = Below::none(alloc);
    for child in children {
        let copy = copy_child(child, parent, count, sources)?;
        below::add_child(alloc, &mut copies, copy)?;
    }
    Ok(copies)
}

// A copy of the contents of a template, if there are any: they are appended to the sources.
fn copy_contents(
    contents: Link,
    parent: Link,
    count: usize,
    sources: &mut Vec<Source>,
) -> Result<Link, AllocError>
    requires { count < 2 ^ 63 }
    ensures copy { IfOk result (λ copy. link_place copy ≡ option_map (λ _. count + vec_len sources.old) (link_place contents)) }
    ensures sources { OnOk result (wanted_views sources.new.items ≡
        wanted_views sources.old.items ++ wanted_below (link_place parent) (option_to_list (link_place contents))) }
{
    match contents.node() {
        None => Ok(Link::none()),
        Some(id) => {
            let index = count + sources.len();
            sources.push(Source { id, parent })?;
            Ok(Link::to(NodeId { index }))
        }
    }
}

// A copy of a node, with this parent and this future number. The nodes directly below the node are appended to the sources.
fn copy_node(
    alloc: Global,
    node: &NodeData,
    parent: Link,
    place: NodeId,
    count: usize,
    sources: &mut Vec<Source>,
) -> Result<NodeData, AllocError>
    requires place { place.index < 2 ^ 64 - 1 }
    requires count { count < 2 ^ 63 }
    ensures copy { IfOk result (λ copy. node_view copy ≡ copied (count + vec_len sources.old) (link_place parent) (node_view node.now)) }
    ensures sources { OnOk result (wanted_views sources.new.items ≡
        wanted_views sources.old.items ++ wanted_below (Some place.index) (below (node_view node.now))) }
{
    let below = Link::to(place);
    let children = copy_children(alloc, node.children.as_slice(), below, count, sources)?;
    let contents = copy_contents(node.contents, below, count, sources)?;
    Ok(NodeData {
        kind: node.kind.clone()?,
        attrs: copy_attributes(alloc, node.attrs.as_slice())?,
        children,
        contents,
        parent,
        flags: node.flags,
        started: node.started,
        form: Link::none(),
    })
}

// Copies of a node and of its subtree, level by level, with their future numbers after the nodes. The copy of the node itself comes first.
pub(crate) fn copies(
    alloc: Global,
    nodes: &[NodeData],
    id: NodeId,
) -> Result<Vec<NodeData>, AllocError>
    requires held { id.index < length nodes.now }
    requires few { length nodes.now < 2 ^ 63 }
    requires forest { IsForest (forest_in nodes.now) }
    ensures { IfOk result (λ copies. AreCopies (forest_in nodes.now) id.index (node_views copies.items)) }
{
    let count = nodes.len();
    let mut sources = Vec::new(alloc);
    sources.push(Source {
        id,
        parent: Link::none(),
    })?;
    let mut copies: Vec<NodeData> = Vec::new(alloc);
    'queue: while copies.len() < sources.len() {
        let source = sources[copies.len()];
        let place = NodeId {
            index: count + copies.len(),
        };
        let node = &nodes[source.id.index];
        let copy = copy_node(alloc, node, source.parent, place, count, &mut sources)?;
        copies.push(copy)?;
    }
    Ok(copies)
}
