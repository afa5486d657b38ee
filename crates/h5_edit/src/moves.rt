//! Moves of children: each is taken from its parent, and inserted elsewhere.
ghost use Rattle.std.specs.Prelude.{◌≡◌, All, IfErr, IfOk, OnOk, length};
ghost use Rattle.h5_interface.specs.Forest.{children_of};
ghost use Rattle.h5_interface.specs.Seen.{after_append, after_append_before, child_of};
ghost use Rattle.h5_arena.specs.ArenaModel.{IsHeld, child_view, child_views, forest_seen, place, seen_of};
ghost use Rattle.h5_edit.specs.Editing.{freed, inserted_after, moved_before, moved_into, with_children};
ghost use Rattle.h5_edit.specs.Moving.{IsMoveFault, IsWithin, KeepsRest, is_node, passed};

use super::fault::{EditFault, fault_of_move};
use h5_arena::{Arena, Child, NodeId};
use h5_interface::NodeOrText;
use std::alloc::{AllocError, Global};

// A child as it is passed to the arena: a text is copied.
fn copied_child(alloc: Global, child: &Child) -> Result<NodeOrText<NodeId>, AllocError>
    ensures { IfOk result (λ copied. child_of place copied ≡ child_view child.now) }
{
    match child {
        Child::Node(id) => Ok(NodeOrText::AppendNode(*id)),
        Child::Text(text) => {
            let copied = String::from_str(alloc, text.as_str())?;
            Ok(NodeOrText::AppendText(copied))
        }
    }
}

// Children as they are passed to the arena, one after another.
fn copied(alloc: Global, children: &[Child]) -> Result<Vec<NodeOrText<NodeId>>, AllocError>
    ensures { IfOk result (λ copied. passed copied.items ≡ child_views children.now) }
{
    let mut copied = Vec::new(alloc);
    for child in children {
        copied.push(copied_child(alloc, child)?)?;
    }
    Ok(copied)
}

// The children of a node, to be moved.
pub(crate) fn copied_children(
    alloc: Global,
    arena: &Arena,
    id: NodeId,
) -> Result<Vec<NodeOrText<NodeId>>, AllocError>
    requires { IsHeld arena.now id }
    ensures children { IfOk result (λ copied. passed copied.items ≡ children_of (forest_seen arena.now) id.index) }
    ensures within { IfOk result (λ copied. All (IsWithin (length arena.now.nodes)) (passed copied.items)) }
{
    copied(alloc, arena.children(id))
}

// Returns true if a child is this node.
fn is_node(child: &NodeOrText<NodeId>, node: NodeId) -> bool
    ensures { result ≡ is_node node.index (child_of place child.now) }
{
    match child {
        NodeOrText::AppendNode(id) => *id == node,
        NodeOrText::AppendText(_) => false,
    }
}

// Children, with others inserted after the first that is this node.
pub(crate) fn inserted_after(
    alloc: Global,
    children: Vec<NodeOrText<NodeId>>,
    node: NodeId,
    mut more: Vec<NodeOrText<NodeId>>,
) -> Result<Vec<NodeOrText<NodeId>>, AllocError>
    ensures { IfOk result (λ all. passed all.items ≡ inserted_after node.index (passed more.items) (passed children.items)) }
{
    let mut all = Vec::new(alloc);
    for child in children {
        let is_found = is_node(&child, node);
        all.push(child)?;
        if is_found {
            // Leaves `more` empty, so that a second find inserts nothing.
            all.append(&mut more)?;
        }
    }
    Ok(all)
}

// Takes a child from its parent; a text stays where it is.
fn free(arena: &mut Arena, child: &NodeOrText<NodeId>) -> Result<(), AllocError>
    requires { IsWithin (length arena.old.nodes) (child_of place child.now) }
    ensures ok { OnOk result (seen_of arena.new ≡ freed (child_of place child.now) (seen_of arena.old)) }
    ensures rest { KeepsRest arena.old arena.new }
{
    match child {
        NodeOrText::AppendNode(id) => arena.detach(*id),
        NodeOrText::AppendText(_) => Ok(()),
    }
}

// Moves a child to the place before a sibling.
fn put_before(
    arena: &mut Arena,
    sibling: NodeId,
    child: NodeOrText<NodeId>,
) -> Result<(), EditFault>
    requires { IsWithin (length arena.old.nodes) (child_of place child) }
    ensures ok { OnOk result (seen_of arena.new
        ≡ after_append_before sibling.index (child_of place child) (freed (child_of place child) (seen_of arena.old))) }
    ensures told { IfErr result IsMoveFault }
    ensures rest { KeepsRest arena.old arena.new }
{
    free(arena, &child)?;
    arena
        .try_insert_before(sibling, child)
        .map_err(fault_of_move)
}

// Moves a child to the end of a parent.
fn put_last(arena: &mut Arena, parent: NodeId, child: NodeOrText<NodeId>) -> Result<(), EditFault>
    requires { IsWithin (length arena.old.nodes) (child_of place child) }
    ensures ok { OnOk result (seen_of arena.new
        ≡ after_append parent.index (child_of place child) (freed (child_of place child) (seen_of arena.old))) }
    ensures told { IfErr result IsMoveFault }
    ensures rest { KeepsRest arena.old arena.new }
{
    free(arena, &child)?;
    arena.try_append(parent, child).map_err(fault_of_move)
}

// Moves children, one after another, to the place before a sibling.
pub(crate) fn move_before(
    arena: &mut Arena,
    sibling: NodeId,
    children: Vec<NodeOrText<NodeId>>,
) -> Result<(), EditFault>
    requires { All (IsWithin (length arena.old.nodes)) (passed children.items) }
    ensures ok { OnOk result (seen_of arena.new ≡ moved_before sibling.index (passed children.items) (seen_of arena.old)) }
    ensures told { IfErr result IsMoveFault }
    ensures rest { KeepsRest arena.old arena.new }
{
    for child in children {
        put_before(arena, sibling, child)?;
    }
    Ok(())
}

// Moves children, one after another, to the end of a parent.
pub(crate) fn move_into(
    arena: &mut Arena,
    parent: NodeId,
    children: Vec<NodeOrText<NodeId>>,
) -> Result<(), EditFault>
    requires { All (IsWithin (length arena.old.nodes)) (passed children.items) }
    ensures ok { OnOk result (seen_of arena.new ≡ moved_into parent.index (passed children.items) (seen_of arena.old)) }
    ensures told { IfErr result IsMoveFault }
    ensures rest { KeepsRest arena.old arena.new }
{
    for child in children {
        put_last(arena, parent, child)?;
    }
    Ok(())
}

// Replaces the children of a node by these, which are moved.
pub(crate) fn set_children(
    arena: &mut Arena,
    parent: NodeId,
    children: Vec<NodeOrText<NodeId>>,
) -> Result<(), EditFault>
    requires parent { IsHeld arena.old parent }
    requires children { All (IsWithin (length arena.old.nodes)) (passed children.items) }
    ensures ok { OnOk result (seen_of arena.new ≡ with_children parent.index (passed children.items) (seen_of arena.old)) }
    ensures told { IfErr result IsMoveFault }
    ensures rest { KeepsRest arena.old arena.new }
{
    arena.set_text(parent, "")?;
    move_into(arena, parent, children)
}
