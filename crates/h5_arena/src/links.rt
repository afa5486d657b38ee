//! Changes of parents and children. If a call fails, all nodes are unchanged.
ghost use Rattle.std.specs.Prelude.{◌≡◌, ◌≢◌, ◌<◌, ◌==◌, ℕ, [], None, Some, OnOk, OnErr, string_bytes, vec_len};
ghost use Rattle.h5_interface.specs.Changes as change;
ghost use Rattle.h5_interface.specs.Forest.{FragmentNode, IsForest, kind_of, parent_of};
ghost use Rattle.h5_arena.specs.ArenaModel.{forest_in, node_views};

use super::link::Link;
use super::nodes::{Child, NodeData, NodeId};
use super::{below, children};
use std::alloc::{AllocError, Global};
use std::mem;

// Appends a node to another.
#[inline(always)]
pub(crate) fn append_node(
    nodes: &mut Vec<NodeData>,
    parent: NodeId,
    id: NodeId,
) -> Result<(), AllocError>
    requires parent { parent.index < vec_len nodes.old }
    requires held { id.index < vec_len nodes.old }
    requires forest { IsForest (forest_in nodes.old.items) }
    ensures ok { OnOk result (forest_in nodes.new.items ≡ change.append_node parent.index id.index (forest_in nodes.old.items)) }
    ensures err { OnErr result (node_views nodes.new.items ≡ node_views nodes.old.items) }
{
    let alloc = *nodes.allocator();
    let node = &mut nodes[parent.index];
    below::add_child(alloc, &mut node.children, Child::Node(id))?;
    let moved = &mut nodes[id.index];
    moved.parent = Link::to(parent);
    Ok(())
}

// Appends a text to the children of a node.
#[inline(always)]
pub(crate) fn append_text(
    nodes: &mut Vec<NodeData>,
    parent: NodeId,
    text: String,
) -> Result<(), AllocError>
    requires parent { parent.index < vec_len nodes.old }
    requires forest { IsForest (forest_in nodes.old.items) }
    ensures ok { OnOk result (forest_in nodes.new.items ≡ change.append_text parent.index (string_bytes text) (forest_in nodes.old.items)) }
    ensures err { OnErr result (node_views nodes.new.items ≡ node_views nodes.old.items) }
{
    let alloc = *nodes.allocator();
    let node = &mut nodes[parent.index];
    below::push_text(alloc, &mut node.children, text)?;
    Ok(())
}

// Inserts a node before a sibling, which has this parent.
fn insert_node_below(
    nodes: &mut Vec<NodeData>,
    parent: NodeId,
    sibling: NodeId,
    id: NodeId,
) -> Result<(), AllocError>
    requires parent { parent_of (forest_in nodes.old.items) sibling.index ≡ Some parent.index }
    requires no_fragment { kind_of (forest_in nodes.old.items) sibling.index ≢ Some FragmentNode }
    requires held { id.index < vec_len nodes.old }
    requires forest { IsForest (forest_in nodes.old.items) }
    ensures ok { OnOk result (forest_in nodes.new.items ≡ change.insert_node_below (Some parent.index) sibling.index id.index (forest_in nodes.old.items)) }
    ensures err { OnErr result (node_views nodes.new.items ≡ node_views nodes.old.items) }
{
    let alloc = *nodes.allocator();
    let node = &mut nodes[parent.index];
    let at = children::place_of(node.children.as_slice(), sibling.index);
    below::insert_node(alloc, &mut node.children, at, id)?;
    let placed = &mut nodes[id.index];
    placed.parent = Link::to(parent);
    Ok(())
}

// Inserts a text before a sibling, which has this parent.
fn insert_text_below(
    nodes: &mut Vec<NodeData>,
    parent: NodeId,
    sibling: NodeId,
    text: String,
) -> Result<(), AllocError>
    requires parent { parent_of (forest_in nodes.old.items) sibling.index ≡ Some parent.index }
    requires no_fragment { kind_of (forest_in nodes.old.items) sibling.index ≢ Some FragmentNode }
    requires forest { IsForest (forest_in nodes.old.items) }
    ensures ok { OnOk result (forest_in nodes.new.items ≡ change.insert_text_below (Some parent.index) sibling.index (string_bytes text) (forest_in nodes.old.items)) }
    ensures err { OnErr result (node_views nodes.new.items ≡ node_views nodes.old.items) }
{
    let alloc = *nodes.allocator();
    let node = &mut nodes[parent.index];
    let at = children::place_of(node.children.as_slice(), sibling.index);
    below::insert_text(alloc, &mut node.children, at, text)?;
    Ok(())
}

// Inserts a node before a sibling.
pub(crate) fn insert_node_before(
    nodes: &mut Vec<NodeData>,
    sibling: NodeId,
    id: NodeId,
) -> Result<(), AllocError>
    requires sibling { sibling.index < vec_len nodes.old }
    requires no_fragment { kind_of (forest_in nodes.old.items) sibling.index ≢ Some FragmentNode }
    requires held { id.index < vec_len nodes.old }
    requires forest { IsForest (forest_in nodes.old.items) }
    ensures ok { OnOk result (forest_in nodes.new.items ≡ change.insert_node_before sibling.index id.index (forest_in nodes.old.items)) }
    ensures err { OnErr result (node_views nodes.new.items ≡ node_views nodes.old.items) }
{
    match nodes[sibling.index].parent.node() {
        None => Ok(()),
        Some(parent) => {
            insert_node_below(nodes, parent, sibling, id)?;
            Ok(())
        }
    }
}

// Inserts a text before a sibling.
pub(crate) fn insert_text_before(
    nodes: &mut Vec<NodeData>,
    sibling: NodeId,
    text: String,
) -> Result<(), AllocError>
    requires sibling { sibling.index < vec_len nodes.old }
    requires no_fragment { kind_of (forest_in nodes.old.items) sibling.index ≢ Some FragmentNode }
    requires forest { IsForest (forest_in nodes.old.items) }
    ensures ok { OnOk result (forest_in nodes.new.items ≡ change.insert_text_before sibling.index (string_bytes text) (forest_in nodes.old.items)) }
    ensures err { OnErr result (node_views nodes.new.items ≡ node_views nodes.old.items) }
{
    match nodes[sibling.index].parent.node() {
        None => Ok(()),
        Some(parent) => {
            insert_text_below(nodes, parent, sibling, text)?;
            Ok(())
        }
    }
}

// Removes a node from this parent.
fn detach_from(nodes: &mut Vec<NodeData>, parent: NodeId, id: NodeId) -> Result<(), AllocError>
    requires parent { parent_of (forest_in nodes.old.items) id.index ≡ Some parent.index }
    requires no_fragment { kind_of (forest_in nodes.old.items) id.index ≢ Some FragmentNode }
    requires forest { IsForest (forest_in nodes.old.items) }
    ensures ok { OnOk result (forest_in nodes.new.items ≡ change.detach_from (Some parent.index) id.index (forest_in nodes.old.items)) }
    ensures err { OnErr result (node_views nodes.new.items ≡ node_views nodes.old.items) }
{
    let alloc = *nodes.allocator();
    let node = &mut nodes[parent.index];
    below::remove_node(alloc, &mut node.children, id)?;
    let moved = &mut nodes[id.index];
    moved.parent = Link::none();
    Ok(())
}

// Removes a node from its parent, if it has one.
pub(crate) fn detach(nodes: &mut Vec<NodeData>, id: NodeId) -> Result<(), AllocError>
    requires held { id.index < vec_len nodes.old }
    requires no_fragment { kind_of (forest_in nodes.old.items) id.index ≢ Some FragmentNode }
    requires forest { IsForest (forest_in nodes.old.items) }
    ensures ok { OnOk result (forest_in nodes.new.items ≡ change.detach id.index (forest_in nodes.old.items)) }
    ensures err { OnErr result (node_views nodes.new.items ≡ node_views nodes.old.items) }
{
    match nodes[id.index].parent.node() {
        None => Ok(()),
        Some(parent) => {
            detach_from(nodes, parent, id)?;
            Ok(())
        }
    }
}
