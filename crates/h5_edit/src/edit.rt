//! The edits.
ghost use Rattle.std.specs.Prelude.{◌≡◌, OnOk, IfErr, IfOk, Some, ℕ, length};
ghost use Rattle.h5_interface.specs.Forest.{IsElement};
ghost use Rattle.h5_arena.specs.ArenaModel.{IsChildOf, IsHeld, IsNoChild, KeepsErrors, forest_seen, seen_of};
ghost use Rattle.h5_arena.specs.Edits.{child_parent_of};
ghost use Rattle.h5_edit.specs.Editing.{Append, InsertAfter, InsertBefore, Prepend, Remove, RemoveAttribute, Replace, SetAttribute, SetText, Unwrap, edited};
ghost use Rattle.h5_edit.specs.EditModel.{HoldsFrom, KeepsFromEdit, Suits, edit_view};
ghost use Rattle.h5_edit.specs.Moving.{KeepsRest};

use super::fault::EditFault;
use super::moves::{copied_children, inserted_after, move_before, move_into, set_children};
use h5_arena::{Arena, Kind, NodeId};
use std::alloc::{AllocError, Global};

/// What is done at a node of a tree. The HTML that is inserted is the children of another node, `from`, such as the root of a parsed
/// fragment. The nodes among them are moved, and the texts are copied; a text that comes next to a text is joined with it.
#[derive(Clone, Copy, Debug, PartialEq, Eq)]
pub enum Edit<'a> {
    /// Removes the node, with its subtree.
    Remove,
    /// Replaces the node with its children.
    Unwrap,
    /// Sets an attribute: the first one with this local name and no namespace. If there is none, adds one at the end.
    SetAttribute { name: &'a str, value: &'a str },
    /// Removes all attributes with this local name and no namespace.
    RemoveAttribute { name: &'a str },
    /// Replaces the children with a text, or with nothing if it is empty.
    SetText { text: &'a str },
    /// Inserts before the node.
    InsertBefore { from: NodeId },
    /// Inserts after the node.
    InsertAfter { from: NodeId },
    /// Inserts before the first child.
    Prepend { from: NodeId },
    /// Inserts after the last child.
    Append { from: NodeId },
    /// Replaces the node.
    Replace { from: NodeId },
}

// Succeeds if a node is an element.
fn check_element(arena: &Arena, id: NodeId) -> Result<(), EditFault>
    requires { IsHeld arena.now id }
    ensures element { OnOk result (IsElement (forest_seen arena.now) id.index) }
    ensures other { IfErr result (λ fault. (fault ≡ EditFault.NotAnElement) × (¬ (IsElement (forest_seen arena.now) id.index))) }
{
    match arena.kind(id) {
        Kind::Element(_) => Ok(()),
        _ => Err(EditFault::NotAnElement),
    }
}

// The parent of a node that is a child.
fn parent_of_child(arena: &Arena, id: NodeId) -> Result<NodeId, EditFault>
    requires { IsHeld arena.now id }
    ensures parent { IfOk result (λ parent. child_parent_of (forest_seen arena.now) id.index ≡ Some parent.index) }
    ensures held { IfOk result (IsHeld arena.now) }
    ensures child { IfOk result (λ parent. IsChildOf (forest_seen arena.now) id.index parent.index) }
    ensures no_child { IfErr result (λ fault. (fault ≡ EditFault.NotAChild) × IsNoChild (forest_seen arena.now) id.index) }
{
    match arena.parent(id) {
        Some(parent) => Ok(parent),
        None => Err(EditFault::NotAChild),
    }
}

// Removes a node, with its subtree.
fn remove(arena: &mut Arena, id: NodeId) -> Result<(), EditFault>
    requires { IsHeld arena.old id }
    ensures ok { OnOk result (seen_of arena.new ≡ edited Remove id.index (seen_of arena.old)) }
    ensures suits { OnOk result (Suits Remove (forest_seen arena.old) id.index) }
    ensures told { IfErr result (KeepsFromEdit Remove arena.old arena.new id.index) }
    ensures rest { KeepsRest arena.old arena.new }
{
    parent_of_child(arena, id)?;
    arena.detach(id)?;
    Ok(())
}

// Replaces a node with its children.
#[tactic(auto, using(crate::proofs::KeepLaws::told_of_move))]
fn unwrap(alloc: Global, arena: &mut Arena, id: NodeId) -> Result<(), EditFault>
    requires { IsHeld arena.old id }
    ensures ok { OnOk result (seen_of arena.new ≡ edited Unwrap id.index (seen_of arena.old)) }
    ensures suits { OnOk result (Suits Unwrap (forest_seen arena.old) id.index) }
    ensures told { IfErr result (KeepsFromEdit Unwrap arena.old arena.new id.index) }
    ensures rest { KeepsRest arena.old arena.new }
{
    parent_of_child(arena, id)?;
    let children = copied_children(alloc, arena, id)?;
    move_before(arena, id, children)?;
    arena.detach(id)?;
    Ok(())
}

// Sets an attribute of an element.
fn set_attribute(arena: &mut Arena, id: NodeId, name: &str, value: &str) -> Result<(), EditFault>
    requires { IsHeld arena.old id }
    ensures ok { OnOk result (seen_of arena.new ≡ edited (SetAttribute name.now value.now) id.index (seen_of arena.old)) }
    ensures suits { OnOk result (Suits (SetAttribute name.now value.now) (forest_seen arena.old) id.index) }
    ensures told { IfErr result (KeepsFromEdit (SetAttribute name.now value.now) arena.old arena.new id.index) }
    ensures rest { KeepsRest arena.old arena.new }
{
    check_element(arena, id)?;
    arena.set_attr(id, name, value)?;
    Ok(())
}

// Removes the attributes with this name from an element.
fn remove_attribute(arena: &mut Arena, id: NodeId, name: &str) -> Result<(), EditFault>
    requires { IsHeld arena.old id }
    ensures ok { OnOk result (seen_of arena.new ≡ edited (RemoveAttribute name.now) id.index (seen_of arena.old)) }
    ensures suits { OnOk result (Suits (RemoveAttribute name.now) (forest_seen arena.old) id.index) }
    ensures told { IfErr result (KeepsFromEdit (RemoveAttribute name.now) arena.old arena.new id.index) }
    ensures rest { KeepsRest arena.old arena.new }
{
    check_element(arena, id)?;
    arena.remove_attr(id, name);
    Ok(())
}

// Replaces the children of an element with a text.
fn set_text(arena: &mut Arena, id: NodeId, text: &str) -> Result<(), EditFault>
    requires { IsHeld arena.old id }
    ensures ok { OnOk result (seen_of arena.new ≡ edited (SetText text.now) id.index (seen_of arena.old)) }
    ensures suits { OnOk result (Suits (SetText text.now) (forest_seen arena.old) id.index) }
    ensures told { IfErr result (KeepsFromEdit (SetText text.now) arena.old arena.new id.index) }
    ensures rest { KeepsRest arena.old arena.new }
{
    check_element(arena, id)?;
    arena.set_text(id, text)?;
    Ok(())
}

// Inserts the children of another node before a node.
#[tactic(auto, using(crate::proofs::KeepLaws::told_of_move))]
fn insert_before(
    alloc: Global,
    arena: &mut Arena,
    id: NodeId,
    from: NodeId,
) -> Result<(), EditFault>
    requires node { IsHeld arena.old id }
    requires from { IsHeld arena.old from }
    ensures ok { OnOk result (seen_of arena.new ≡ edited (InsertBefore from.index) id.index (seen_of arena.old)) }
    ensures suits { OnOk result (Suits (InsertBefore from.index) (forest_seen arena.old) id.index) }
    ensures told { IfErr result (KeepsFromEdit (InsertBefore from.index) arena.old arena.new id.index) }
    ensures rest { KeepsRest arena.old arena.new }
{
    parent_of_child(arena, id)?;
    let children = copied_children(alloc, arena, from)?;
    move_before(arena, id, children)?;
    Ok(())
}

// Inserts the children of another node after a node.
#[tactic(auto, using(crate::proofs::KeepLaws::told_of_move))]
fn insert_after(alloc: Global, arena: &mut Arena, id: NodeId, from: NodeId) -> Result<(), EditFault>
    requires node { IsHeld arena.old id }
    requires from { IsHeld arena.old from }
    ensures ok { OnOk result (seen_of arena.new ≡ edited (InsertAfter from.index) id.index (seen_of arena.old)) }
    ensures suits { OnOk result (Suits (InsertAfter from.index) (forest_seen arena.old) id.index) }
    ensures told { IfErr result (KeepsFromEdit (InsertAfter from.index) arena.old arena.new id.index) }
    ensures rest { KeepsRest arena.old arena.new }
{
    let parent = parent_of_child(arena, id)?;
    let more = copied_children(alloc, arena, from)?;
    let beside = copied_children(alloc, arena, parent)?;
    let children = inserted_after(alloc, beside, id, more)?;
    set_children(arena, parent, children)?;
    Ok(())
}

// Inserts the children of another node before those of an element.
#[tactic(auto, using(crate::proofs::KeepLaws::told_of_move))]
fn prepend(alloc: Global, arena: &mut Arena, id: NodeId, from: NodeId) -> Result<(), EditFault>
    requires node { IsHeld arena.old id }
    requires from { IsHeld arena.old from }
    ensures ok { OnOk result (seen_of arena.new ≡ edited (Prepend from.index) id.index (seen_of arena.old)) }
    ensures suits { OnOk result (Suits (Prepend from.index) (forest_seen arena.old) id.index) }
    ensures told { IfErr result (KeepsFromEdit (Prepend from.index) arena.old arena.new id.index) }
    ensures rest { KeepsRest arena.old arena.new }
{
    check_element(arena, id)?;
    let mut children = copied_children(alloc, arena, from)?;
    let mut last = copied_children(alloc, arena, id)?;
    children.append(&mut last)?;
    set_children(arena, id, children)?;
    Ok(())
}

// Inserts the children of another node after those of an element.
#[tactic(auto, using(crate::proofs::KeepLaws::told_of_move))]
fn append(alloc: Global, arena: &mut Arena, id: NodeId, from: NodeId) -> Result<(), EditFault>
    requires node { IsHeld arena.old id }
    requires from { IsHeld arena.old from }
    ensures ok { OnOk result (seen_of arena.new ≡ edited (Append from.index) id.index (seen_of arena.old)) }
    ensures suits { OnOk result (Suits (Append from.index) (forest_seen arena.old) id.index) }
    ensures told { IfErr result (KeepsFromEdit (Append from.index) arena.old arena.new id.index) }
    ensures rest { KeepsRest arena.old arena.new }
{
    check_element(arena, id)?;
    let children = copied_children(alloc, arena, from)?;
    move_into(arena, id, children)?;
    Ok(())
}

// Replaces a node with the children of another.
#[tactic(auto, using(crate::proofs::KeepLaws::told_of_move))]
fn replace(alloc: Global, arena: &mut Arena, id: NodeId, from: NodeId) -> Result<(), EditFault>
    requires node { IsHeld arena.old id }
    requires from { IsHeld arena.old from }
    ensures ok { OnOk result (seen_of arena.new ≡ edited (Replace from.index) id.index (seen_of arena.old)) }
    ensures suits { OnOk result (Suits (Replace from.index) (forest_seen arena.old) id.index) }
    ensures told { IfErr result (KeepsFromEdit (Replace from.index) arena.old arena.new id.index) }
    ensures rest { KeepsRest arena.old arena.new }
{
    parent_of_child(arena, id)?;
    let children = copied_children(alloc, arena, from)?;
    move_before(arena, id, children)?;
    arena.detach(id)?;
    Ok(())
}

/// Does an edit at a node of a tree. Returns once it is done. Fails with `NotAnElement` if the edit is one of an element (`SetAttribute`,
/// `RemoveAttribute`, `SetText`, `Prepend` and `Append`) and the node isn't an element; with `NotAChild` if the edit is another one and the
/// node is not a child, since it has no parent or is the contents of a template; with `WouldBeCycle` if a node that is moved is the new
/// parent, or an ancestor of it; and with `Memory` if an allocation fails. Nothing has changed after `NotAnElement` and `NotAChild`, and
/// after `Memory` if the edit moves no children; after other failures a part of them may have been moved. `id` and the `from` of the edit
/// must be nodes of this arena.
pub fn edit_node(
    alloc: Global,
    arena: &mut Arena,
    id: NodeId,
    edit: &Edit<'_>,
) -> Result<(), EditFault>
    requires node { IsHeld arena.old id }
    requires from { HoldsFrom arena.old (edit_view edit.now) }
    ensures ok { OnOk result (seen_of arena.new ≡ edited (edit_view edit.now) id.index (seen_of arena.old)) }
    ensures suits { OnOk result (Suits (edit_view edit.now) (forest_seen arena.old) id.index) }
    ensures told { IfErr result (KeepsFromEdit (edit_view edit.now) arena.old arena.new id.index) }
    ensures errors { KeepsErrors arena.old arena.new }
    ensures held { length arena.new.nodes ≡ length arena.old.nodes }
    ensures elements { (n : ℕ) → IsElement (forest_seen arena.old) n → IsElement (forest_seen arena.new) n }
{
    match edit {
        Edit::Remove => remove(arena, id),
        Edit::Unwrap => unwrap(alloc, arena, id),
        Edit::SetAttribute { name, value } => set_attribute(arena, id, name, value),
        Edit::RemoveAttribute { name } => remove_attribute(arena, id, name),
        Edit::SetText { text } => set_text(arena, id, text),
        Edit::InsertBefore { from } => insert_before(alloc, arena, id, *from),
        Edit::InsertAfter { from } => insert_after(alloc, arena, id, *from),
        Edit::Prepend { from } => prepend(alloc, arena, id, *from),
        Edit::Append { from } => append(alloc, arena, id, *from),
        Edit::Replace { from } => replace(alloc, arena, id, *from),
    }
}
