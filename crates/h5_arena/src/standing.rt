//! Tests if a child may be inserted.
ghost use Rattle.std.specs.Prelude.{◌≡◌, ◌<◌, IfErr, IfNone, IfSome, OnOk, false, length, true};
ghost use Rattle.h5_interface.specs.Ancestors.{AtOrAbove};
ghost use Rattle.h5_interface.specs.Forest.{ChildNode, IsForest, parent_of};
ghost use Rattle.h5_interface.specs.Seen.{CanAppend, CanInsertBefore, IsFreeFor, MayStandBelow, child_of};
ghost use Rattle.h5_arena.specs.ArenaModel.{IsChildOf, IsNoChild, forest_in, place};
ghost use Rattle.h5_arena.specs.Edits.{Bars, IsThere, KeepsFromAppend, KeepsFromInsert};

use super::fault::EditError;
use super::nodes::{Kind, NodeData, NodeId};
use h5_interface::NodeOrText;

// Returns true if `above` is `id` or an ancestor of it. Walks up from `id`, parent by parent.
fn is_at_or_above(nodes: &[NodeData], above: NodeId, id: NodeId) -> bool
    requires held { id.index < length nodes.now }
    requires forest { IsForest (forest_in nodes.now) }
    ensures above { result ≡ true → AtOrAbove (parent_of (forest_in nodes.now)) above.index id.index }
    ensures apart { result ≡ false → ¬ (AtOrAbove (parent_of (forest_in nodes.now)) above.index id.index) }
{
    let mut at = id;
    // There are no more steps up than nodes.
    for _step in 0..nodes.len() {
        if at.index == above.index {
            return true;
        }
        match nodes[at.index].parent.node() {
            None => return false,
            Some(parent) => at = parent,
        }
    }
    unreachable!()
}

// Succeeds if a node may become a child of another; the error is the reason why not.
fn check_node(nodes: &[NodeData], parent: NodeId, id: NodeId) -> Result<(), EditError>
    requires parent { parent.index < length nodes.now }
    requires held { id.index < length nodes.now }
    requires forest { IsForest (forest_in nodes.now) }
    ensures may { OnOk result (IsFreeFor (forest_in nodes.now) parent.index id.index) }
    ensures told { IfErr result (λ fault. Bars (forest_in nodes.now) parent.index (ChildNode id.index) fault) }
{
    let node = &nodes[id.index];
    if matches!(&*node.kind, Kind::Document) {
        return Err(EditError::IsDocument);
    }
    if node.parent.node().is_some() {
        return Err(EditError::HasParent);
    }
    if is_at_or_above(nodes, id, parent) {
        return Err(EditError::WouldBeCycle);
    }
    Ok(())
}

// Succeeds if an existing child may be inserted below a node; the error is the reason why not.
fn check_below(
    nodes: &[NodeData],
    parent: NodeId,
    child: &NodeOrText<NodeId>,
) -> Result<(), EditError>
    requires parent { parent.index < length nodes.now }
    requires child { IsThere (forest_in nodes.now) (child_of place child.now) }
    requires forest { IsForest (forest_in nodes.now) }
    ensures may { OnOk result (MayStandBelow (forest_in nodes.now) parent.index (child_of place child.now)) }
    ensures told { IfErr result (λ fault. Bars (forest_in nodes.now) parent.index (child_of place child.now) fault) }
{
    match child {
        NodeOrText::AppendNode(id) => check_node(nodes, parent, *id),
        NodeOrText::AppendText(text) => {
            if text.is_empty() {
                return Err(EditError::EmptyText);
            }
            Ok(())
        }
    }
}

// Returns true if a child is a text or a node of the arena.
fn is_there(nodes: &[NodeData], child: &NodeOrText<NodeId>) -> bool
    ensures there { result ≡ true → IsThere (forest_in nodes.now) (child_of place child.now) }
    ensures gone { result ≡ false → ¬ (IsThere (forest_in nodes.now) (child_of place child.now)) }
{
    match child {
        NodeOrText::AppendNode(id) => id.index < nodes.len(),
        NodeOrText::AppendText(_) => true,
    }
}

// Succeeds if a child may be appended to a node; the error is the reason why not.
pub(crate) fn check_append(
    nodes: &[NodeData],
    parent: NodeId,
    child: &NodeOrText<NodeId>,
) -> Result<(), EditError>
    requires { IsForest (forest_in nodes.now) }
    ensures may { OnOk result (CanAppend (forest_in nodes.now) parent.index (child_of place child.now)) }
    ensures told { IfErr result (λ fault. KeepsFromAppend (forest_in nodes.now) parent.index (child_of place child.now) fault) }
{
    if parent.index >= nodes.len() {
        return Err(EditError::UnknownNode);
    }
    if !is_there(nodes, child) {
        return Err(EditError::UnknownNode);
    }
    check_below(nodes, parent, child)
}

// The node whose child a node is.
fn parent_of_child(nodes: &[NodeData], id: NodeId) -> Option<NodeId>
    requires { id.index < length nodes.now }
    ensures child { IfSome result (λ parent. IsChildOf (forest_in nodes.now) id.index parent.index) }
    ensures no_child { IfNone result (IsNoChild (forest_in nodes.now) id.index) }
{
    let node = &nodes[id.index];
    match &*node.kind {
        Kind::Fragment => None,
        _ => node.parent.node(),
    }
}

// Succeeds if a child may be inserted before a sibling; the error is the reason why not.
pub(crate) fn check_insert(
    nodes: &[NodeData],
    sibling: NodeId,
    child: &NodeOrText<NodeId>,
) -> Result<(), EditError>
    requires { IsForest (forest_in nodes.now) }
    ensures may { OnOk result (CanInsertBefore (forest_in nodes.now) sibling.index (child_of place child.now)) }
    ensures told { IfErr result (λ fault. KeepsFromInsert (forest_in nodes.now) sibling.index (child_of place child.now) fault) }
{
    if sibling.index >= nodes.len() {
        return Err(EditError::UnknownNode);
    }
    if !is_there(nodes, child) {
        return Err(EditError::UnknownNode);
    }
    match parent_of_child(nodes, sibling) {
        None => Err(EditError::NoParent),
        Some(parent) => check_below(nodes, parent, child),
    }
}
