//! Replaces the children of a node with a text. If a call fails, all nodes are unchanged.
ghost use Rattle.std.specs.Prelude.{◌≡◌, ◌<◌, ℕ, IfOk, None, OnErr, OnOk, vec_len};
ghost use Rattle.h5_interface.specs.Changes.{has_child, set_parents};
ghost use Rattle.h5_interface.specs.Forest.{ChildNode, IsForest, count, nodes as nodes_among};
ghost use Rattle.h5_arena.specs.ArenaModel.{child_view, child_views, children_in, forest_in, node_views};
ghost use Rattle.h5_arena.specs.ChildTests.{is_this};
ghost use Rattle.h5_arena.specs.Edits.{text_alone, with_text};

use super::below::Below;
use super::link::Link;
use super::nodes::{Child, NodeData, NodeId};
use std::alloc::{AllocError, Global};
use std::mem;

// This text as the only child, or no child if it is empty.
fn only_text(alloc: Global, text: &str) -> Result<Below, AllocError>
    ensures { IfOk result (λ below. child_views (children_in below) ≡ text_alone text.now) }
{
    if text.is_empty() {
        return Ok(Below::none(alloc));
    }
    let text = String::from_str(alloc, text)?;
    Ok(Below::One(Child::Text(text)))
}

// Removes the parent of a child that is a node.
fn let_go(nodes: &mut Vec<NodeData>, child: &Child)
    requires { (n : ℕ) → child_view child.now ≡ ChildNode n → n < vec_len nodes.old }
    ensures { forest_in nodes.new.items ≡ set_parents (λ n. is_this n (child_view child.now)) None (forest_in nodes.old.items) }
{
    if let Child::Node(id) = child {
        let node = &mut nodes[id.index];
        node.parent = Link::none();
    }
}

// Removes the parents of children that are nodes.
fn let_all_go(nodes: &mut Vec<NodeData>, children: &[Child])
    requires { (n : ℕ) → 0 < count n (nodes_among (child_views children.now)) → n < vec_len nodes.old }
    ensures { forest_in nodes.new.items ≡ set_parents (has_child (child_views children.now)) None (forest_in nodes.old.items) }
{
    for child in children {
        let_go(nodes, child);
    }
}

// Replaces the children of a node with a text.
pub(crate) fn set_text(nodes: &mut Vec<NodeData>, id: NodeId, text: &str) -> Result<(), AllocError>
    requires held { id.index < vec_len nodes.old }
    requires forest { IsForest (forest_in nodes.old.items) }
    ensures ok { OnOk result (forest_in nodes.new.items ≡ with_text id.index text.now (forest_in nodes.old.items)) }
    ensures err { OnErr result (node_views nodes.new.items ≡ node_views nodes.old.items) }
{
    let alloc = *nodes.allocator();
    let only = only_text(alloc, text)?;
    let node = &mut nodes[id.index];
    let gone = mem::replace(&mut node.children, only);
    let_all_go(nodes, gone.as_slice());
    Ok(())
}
