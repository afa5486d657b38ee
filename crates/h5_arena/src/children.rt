//! Edits of the children of one node. Each joins texts that become neighbours.
ghost use Rattle.std.specs.Prelude.{◌≡◌, ◌<◌, ◌+◌, ◌++◌, ◌∷◌, [], ℕ, List, length, true, OnOk, OnErr, Some, slice_get, slice_set, string_bytes, vec_capacity, vec_len};
ghost use Rattle.std.specs.List.{remove};
ghost use Rattle.h5_interface.specs.Changes.{insert_before, joined, without};
ghost use Rattle.h5_interface.specs.Forest.{AreParted, ChildNode, ChildText, count, nodes};
ghost use Rattle.h5_arena.specs.ArenaModel.{child_view, child_views};
ghost use Rattle.h5_arena.specs.ChildTests.{is_child_node, is_child_text, texts_around, texts_meet};

use super::nodes::{Child, NodeId};
use std::alloc::AllocError;
use std::mem;

// Returns true if a child is this node.
pub(crate) fn is_node(child: &Child, index: usize) -> bool
    ensures { result ≡ is_child_node index (child_view child.now) }
{
    match child {
        Child::Node(id) => id.index == index,
        Child::Text(_) => false,
    }
}

fn is_text(child: &Child) -> bool
    ensures { result ≡ is_child_text (child_view child.now) }
{
    match child {
        Child::Node(_) => false,
        Child::Text(_) => true,
    }
}

// The index of a node among children. The search begins at the end, since most insertions before a sibling are near the end.
pub(crate) fn place_of(children: &[Child], index: usize) -> usize
    requires { 0 < count index (nodes (child_views children.now)) }
    ensures bound { result < length children.now }
    ensures found { slice_get (child_views children.now) result ≡ Some (ChildNode index) }
{
    let mut behind = children.len();
    'places: while behind > 0 {
        let at = behind - 1;
        if is_node(&children[at], index) {
            return at;
        }
        behind = at;
    }
    unreachable!()
}

// Appends to the text at this index. No child moves, and the capacity of the vector is unchanged.
fn push_to_text(children: &mut Vec<Child>, at: usize, text: &str) -> Result<(), AllocError>
    requires within { at < vec_len children.old }
    requires text { (t : List ℕ) × (slice_get (child_views children.old.items) at ≡ Some (ChildText t)) }
    ensures ok { OnOk result ((t : List ℕ) → slice_get (child_views children.old.items) at ≡ Some (ChildText t) →
        child_views children.new.items ≡ slice_set (child_views children.old.items) at (ChildText (t ++ text.now))) }
    ensures err { OnErr result (child_views children.new.items ≡ child_views children.old.items) }
    ensures len { vec_len children.new ≡ vec_len children.old }
    ensures room { vec_capacity children.new ≡ vec_capacity children.old }
{
    match &mut children[at] {
        Child::Text(before) => {
            before.push_str(text)?;
            Ok(())
        }
        Child::Node(_) => unreachable!(),
    }
}

// Adds a text as the last child.
pub(crate) fn push_text(children: &mut Vec<Child>, text: String) -> Result<(), AllocError>
    requires { AreParted (child_views children.old.items) }
    ensures ok { OnOk result
        (child_views children.new.items ≡ joined (child_views children.old.items ++ ChildText (string_bytes text) ∷ [])) }
    ensures err { OnErr result (child_views children.new.items ≡ child_views children.old.items) }
{
    let count = children.len();
    if count == 0 {
        children.push(Child::Text(text))?;
        return Ok(());
    }
    if is_text(&children[count - 1]) {
        push_to_text(children, count - 1, text.as_str())?;
        return Ok(());
    }
    children.push(Child::Text(text))?;
    Ok(())
}

// Inserts a node before the node at this index.
pub(crate) fn insert_node(
    children: &mut Vec<Child>,
    at: usize,
    id: NodeId,
) -> Result<(), AllocError>
    requires within { at < vec_len children.old }
    requires parted { AreParted (child_views children.old.items) }
    ensures ok { OnOk result ((s : ℕ) → slice_get (child_views children.old.items) at ≡ Some (ChildNode s) → count s (nodes (child_views children.old.items)) ≡ 1 →
        child_views children.new.items ≡ joined (insert_before s (ChildNode id.index) (child_views children.old.items))) }
    ensures err { OnErr result (child_views children.new.items ≡ child_views children.old.items) }
{
    children.insert(at, Child::Node(id))?;
    Ok(())
}

// Inserts a text before the node at this index.
pub(crate) fn insert_text(
    children: &mut Vec<Child>,
    at: usize,
    text: String,
) -> Result<(), AllocError>
    requires within { at < vec_len children.old }
    requires parted { AreParted (child_views children.old.items) }
    ensures ok { OnOk result ((s : ℕ) → slice_get (child_views children.old.items) at ≡ Some (ChildNode s) → count s (nodes (child_views children.old.items)) ≡ 1 →
        child_views children.new.items ≡ joined (insert_before s (ChildText (string_bytes text)) (child_views children.old.items))) }
    ensures err { OnErr result (child_views children.new.items ≡ child_views children.old.items) }
{
    if at == 0 {
        children.insert(at, Child::Text(text))?;
        return Ok(());
    }
    if is_text(&children[at - 1]) {
        push_to_text(children, at - 1, text.as_str())?;
        return Ok(());
    }
    children.insert(at, Child::Text(text))?;
    Ok(())
}

// Returns true if the children before and after an index are texts.
fn has_texts_around(children: &[Child], at: usize) -> bool
    requires { at < length children.now }
    ensures { result ≡ texts_around (child_views children.now) at }
{
    if at == 0 {
        return false;
    }
    if at >= children.len() - 1 {
        return false;
    }
    let before = is_text(&children[at - 1]);
    let after = is_text(&children[at + 1]);
    before && after
}

// Removes the node between two texts, and joins these.
fn remove_between(children: &mut Vec<Child>, at: usize, id: NodeId) -> Result<(), AllocError>
    requires within { at < vec_len children.old }
    requires node { slice_get (child_views children.old.items) at ≡ Some (ChildNode id.index) }
    requires around { texts_around (child_views children.old.items) at ≡ true }
    requires parted { AreParted (child_views children.old.items) }
    ensures ok { OnOk result (child_views children.new.items ≡ joined (remove (child_views children.old.items) at)) }
    ensures err { OnErr result (child_views children.new.items ≡ child_views children.old.items) }
{
    // The text after the node is taken out, and the node is put in its place, until the text is joined.
    let Child::Text(after) = mem::replace(&mut children[at + 1], Child::Node(id)) else {
        unreachable!();
    };
    if let Err(e) = push_to_text(children, at - 1, after.as_str()) {
        children[at + 1] = Child::Text(after);
        return Err(e);
    }
    let _ = children.remove(at + 1);
    let _ = children.remove(at);
    Ok(())
}

// Removes a node from children.
pub(crate) fn remove_node(children: &mut Vec<Child>, id: NodeId) -> Result<(), AllocError>
    requires once { count id.index (nodes (child_views children.old.items)) ≡ 1 }
    requires parted { AreParted (child_views children.old.items) }
    ensures ok { OnOk result (child_views children.new.items ≡ joined (without id.index (child_views children.old.items))) }
    ensures err { OnErr result (child_views children.new.items ≡ child_views children.old.items) }
{
    let at = place_of(children.as_slice(), id.index);
    if has_texts_around(children.as_slice(), at) {
        remove_between(children, at, id)?;
        return Ok(());
    }
    let _ = children.remove(at);
    Ok(())
}

// Returns true if the last child and the first moved child are texts.
fn have_meeting_texts(children: &[Child], moved: &[Child]) -> bool
    ensures { result ≡ texts_meet (child_views children.now) (child_views moved.now) }
{
    let count = children.len();
    if count == 0 || moved.len() == 0 {
        return false;
    }
    let last = is_text(&children[count - 1]);
    let first = is_text(&moved[0]);
    last && first
}

// Moves children to the end of others, where two texts meet.
fn append_meeting(children: &mut Vec<Child>, moved: &mut Vec<Child>) -> Result<(), AllocError>
    requires meet { texts_meet (child_views children.old.items) (child_views moved.old.items) ≡ true }
    requires parted { AreParted (child_views children.old.items) }
    requires parted_moved { AreParted (child_views moved.old.items) }
    ensures ok { OnOk result
        (child_views children.new.items ≡ joined (child_views children.old.items ++ child_views moved.old.items)) }
    ensures emptied { OnOk result (moved.new.items ≡ []) }
    ensures err { OnErr result (child_views children.new.items ≡ child_views children.old.items) }
    ensures stay { OnErr result (moved.new.items ≡ moved.old.items) }
{
    // This reserves memory for everything that is moved, so that after it only the allocation for the text can fail.
    children.reserve(moved.len())?;
    let last = children.len() - 1;
    match &moved[0] {
        Child::Node(_) => unreachable!(),
        Child::Text(first) => push_to_text(children, last, first.as_str())?,
    }
    let _ = moved.remove(0);
    match children.append(moved) {
        Ok(()) => Ok(()),
        Err(_) => unreachable!(),
    }
}

// Moves children to the end of others.
pub(crate) fn append_children(
    children: &mut Vec<Child>,
    moved: &mut Vec<Child>,
) -> Result<(), AllocError>
    requires parted { AreParted (child_views children.old.items) }
    requires parted_moved { AreParted (child_views moved.old.items) }
    ensures ok { OnOk result
        (child_views children.new.items ≡ joined (child_views children.old.items ++ child_views moved.old.items)) }
    ensures emptied { OnOk result (moved.new.items ≡ []) }
    ensures err { OnErr result (child_views children.new.items ≡ child_views children.old.items) }
    ensures stay { OnErr result (moved.new.items ≡ moved.old.items) }
{
    if children.is_empty() {
        mem::swap(children, moved);
        return Ok(());
    }
    if have_meeting_texts(children.as_slice(), moved.as_slice()) {
        append_meeting(children, moved)?;
        return Ok(());
    }
    children.append(moved)?;
    Ok(())
}
