//! Moves all children of one node to another.
ghost use Rattle.std.specs.Prelude.{◌≡◌, ◌≢◌, ◌<◌, ◌≤◌, ℕ, Some, OnOk, OnErr, drop, length, vec_len};
ghost use Rattle.h5_interface.specs.Changes as change;
ghost use Rattle.h5_interface.specs.Changes.{has_child, set_parents};
ghost use Rattle.h5_interface.specs.Forest.{Forest, IsForest, children_of, count, nodes as nodes_among};
ghost use Rattle.h5_arena.specs.ArenaModel.{forest_in, node_views};
ghost use Rattle.h5_arena.specs.ChildTests.{is_node_at};

use super::below::{self, Below};
use super::link::Link;
use super::nodes::{Child, NodeData, NodeId};
use std::alloc::{AllocError, Global};
use std::mem;

// Sets the parent of the child at this index, if it is a node.
fn adopt_child(nodes: &mut Vec<NodeData>, parent: NodeId, at: usize)
    requires parent { parent.index < vec_len nodes.old }
    requires within { at < length (children_of (forest_in nodes.old.items) parent.index) }
    requires held { (n : ℕ) → 0 < count n (nodes_among (children_of (forest_in nodes.old.items) parent.index)) → n < vec_len nodes.old }
    ensures { forest_in nodes.new.items ≡
        set_parents (is_node_at (children_of (forest_in nodes.old.items) parent.index) at) (Some parent.index) (forest_in nodes.old.items) }
{
    let node = &nodes[parent.index];
    let children = node.children.as_slice();
    if let Child::Node(id) = &children[at] {
        let child = *id;
        let moved = &mut nodes[child.index];
        moved.parent = Link::to(parent);
    }
}

// Sets the parent of the children from this index on that are nodes.
fn adopt_children(nodes: &mut Vec<NodeData>, parent: NodeId, start: usize)
    requires parent { parent.index < vec_len nodes.old }
    requires held { (n : ℕ) → 0 < count n (nodes_among (children_of (forest_in nodes.old.items) parent.index)) → n < vec_len nodes.old }
    ensures { forest_in nodes.new.items ≡
        set_parents (has_child (drop start (children_of (forest_in nodes.old.items) parent.index))) (Some parent.index) (forest_in nodes.old.items) }
{
    let end = nodes[parent.index].children.len();
    for i in start..end {
        adopt_child(nodes, parent, i);
    }
}

// Moves all children of one node to the end of those of another. If it fails, all nodes are unchanged.
pub(crate) fn reparent(
    nodes: &mut Vec<NodeData>,
    alloc: Global,
    from: NodeId,
    to: NodeId,
) -> Result<(), AllocError>
    requires from { from.index < vec_len nodes.old }
    requires to { to.index < vec_len nodes.old }
    requires apart { from.index ≢ to.index }
    requires forest { IsForest (forest_in nodes.old.items) }
    ensures ok { OnOk result (forest_in nodes.new.items ≡ change.reparent from.index to.index (forest_in nodes.old.items)) }
    ensures err { OnErr result (node_views nodes.new.items ≡ node_views nodes.old.items) }
{
    let emptied = &mut nodes[from.index];
    let mut moved = mem::replace(&mut emptied.children, Below::none(alloc));
    let filled = &mut nodes[to.index];
    let start = filled.children.len();
    if let Err(e) = below::append_children(alloc, &mut filled.children, &mut moved) {
        let restored = &mut nodes[from.index];
        restored.children = moved;
        return Err(e);
    }
    adopt_children(nodes, to, start);
    Ok(())
}
