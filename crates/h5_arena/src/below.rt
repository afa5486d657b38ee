//! The children of a node. A single child is stored in the node, since most nodes have no more than one.
ghost use Rattle.std.specs.Prelude.{◌≡◌, ◌<◌, ◌++◌, ◌∷◌, [], ℕ, IfOk, OnOk, OnErr, Some, length, slice_get, string_bytes};
ghost use Rattle.h5_interface.specs.Changes.{insert_before, joined, without};
ghost use Rattle.h5_interface.specs.Forest.{AreParted, ChildNode, ChildText, count, nodes};
ghost use Rattle.h5_arena.specs.ArenaModel.{IsList, child_views, children_in};

use super::children;
use super::nodes::{Child, NodeId};
use std::alloc::{AllocError, Global};
use std::{mem, slice};

/// The children of a node, in order.
#[derive(Drop)]
pub(crate) enum Below {
    One(Child),
    List(Vec<Child>),
}

impl Below {
    /// No children. Doesn't allocate.
    pub(crate) fn none(alloc: Global) -> Below
        ensures { children_in result ≡ [] }
    {
        Below::List(Vec::new(alloc))
    }

    /// The number of children.
    pub(crate) fn len(&self) -> usize
        ensures { result ≡ length (children_in self.now) }
    {
        self.as_slice().len()
    }

    /// The children, borrowed.
    pub(crate) fn as_slice(&self) -> &[Child]
        ensures value { result.now ≡ children_in self.now }
    {
        match self {
            Below::One(child) => slice::from_ref(child),
            Below::List(list) => list.as_slice(),
        }
    }
}

// A list with a single child, and memory for two more: most nodes with few children have two, three or five, counting texts of whitespace.
fn list_of(alloc: Global, children: &mut Below) -> Result<Vec<Child>, AllocError>
    ensures ok { OnOk result (children_in children.new ≡ []) }
    ensures list { IfOk result (λ list. list.items ≡ children_in children.old) }
    ensures err { OnErr result (children_in children.new ≡ children_in children.old) }
{
    let mut list = Vec::with_capacity(alloc, 3)?;
    match mem::replace(children, Below::none(alloc)) {
        Below::One(child) => match list.push(child) {
            Ok(()) => Ok(list),
            Err(_) => unreachable!(),
        },
        Below::List(all) => Ok(all),
    }
}

// Stores the children in a list from now on.
fn make_list(alloc: Global, children: &mut Below) -> Result<(), AllocError>
    ensures same { children_in children.new ≡ children_in children.old }
    ensures list { OnOk result (IsList children.new) }
{
    match children {
        Below::List(_) => Ok(()),
        Below::One(_) => {
            let list = list_of(alloc, children)?;
            *children = Below::List(list);
            Ok(())
        }
    }
}

// Adds a last child.
#[inline(always)]
pub(crate) fn add_child(alloc: Global, children: &mut Below, child: Child) -> Result<(), AllocError>
    ensures ok { OnOk result (children_in children.new ≡ children_in children.old ++ child ∷ []) }
    ensures err { OnErr result (children_in children.new ≡ children_in children.old) }
{
    if children.as_slice().is_empty() {
        *children = Below::One(child);
        return Ok(());
    }
    make_list(alloc, children)?;
    match children {
        Below::List(list) => {
            list.push(child)?;
            Ok(())
        }
        Below::One(_) => unreachable!(),
    }
}

// Adds a text as the last child.
pub(crate) fn push_text(alloc: Global, children: &mut Below, text: String) -> Result<(), AllocError>
    requires { AreParted (child_views (children_in children.old)) }
    ensures ok { OnOk result
        (child_views (children_in children.new) ≡ joined (child_views (children_in children.old) ++ ChildText (string_bytes text) ∷ [])) }
    ensures err { OnErr result (child_views (children_in children.new) ≡ child_views (children_in children.old)) }
{
    match children {
        Below::One(Child::Text(before)) => before.push_str(text.as_str()),
        Below::One(Child::Node(_)) => add_child(alloc, children, Child::Text(text)),
        Below::List(list) => {
            if list.is_empty() {
                *children = Below::One(Child::Text(text));
                return Ok(());
            }
            children::push_text(list, text)
        }
    }
}

// Inserts a node before the node at this index.
pub(crate) fn insert_node(
    alloc: Global,
    children: &mut Below,
    at: usize,
    id: NodeId,
) -> Result<(), AllocError>
    requires within { at < length (children_in children.old) }
    requires parted { AreParted (child_views (children_in children.old)) }
    ensures ok { OnOk result ((s : ℕ) → slice_get (child_views (children_in children.old)) at ≡ Some (ChildNode s) → count s (nodes (child_views (children_in children.old))) ≡ 1 →
        child_views (children_in children.new) ≡ joined (insert_before s (ChildNode id.index) (child_views (children_in children.old)))) }
    ensures err { OnErr result (child_views (children_in children.new) ≡ child_views (children_in children.old)) }
{
    make_list(alloc, children)?;
    match children {
        Below::List(list) => children::insert_node(list, at, id),
        Below::One(_) => unreachable!(),
    }
}

// Inserts a text before the node at this index.
pub(crate) fn insert_text(
    alloc: Global,
    children: &mut Below,
    at: usize,
    text: String,
) -> Result<(), AllocError>
    requires within { at < length (children_in children.old) }
    requires parted { AreParted (child_views (children_in children.old)) }
    ensures ok { OnOk result ((s : ℕ) → slice_get (child_views (children_in children.old)) at ≡ Some (ChildNode s) → count s (nodes (child_views (children_in children.old))) ≡ 1 →
        child_views (children_in children.new) ≡ joined (insert_before s (ChildText (string_bytes text)) (child_views (children_in children.old)))) }
    ensures err { OnErr result (child_views (children_in children.new) ≡ child_views (children_in children.old)) }
{
    make_list(alloc, children)?;
    match children {
        Below::List(list) => children::insert_text(list, at, text),
        Below::One(_) => unreachable!(),
    }
}

// Removes a node from children. Removing an only child needs no list.
#[tactic(auto, using(crate::proofs::MoveLaws::only_removed))]
pub(crate) fn remove_node(alloc: Global, children: &mut Below, id: NodeId) -> Result<(), AllocError>
    requires once { count id.index (nodes (child_views (children_in children.old))) ≡ 1 }
    requires parted { AreParted (child_views (children_in children.old)) }
    ensures ok { OnOk result (child_views (children_in children.new) ≡ joined (without id.index (child_views (children_in children.old)))) }
    ensures err { OnErr result (child_views (children_in children.new) ≡ child_views (children_in children.old)) }
{
    match children {
        Below::List(list) => children::remove_node(list, id),
        Below::One(_) => {
            *children = Below::none(alloc);
            Ok(())
        }
    }
}

// Moves children to the end of others; both are lists.
fn append_list(list: &mut Vec<Child>, moved: &mut Below) -> Result<(), AllocError>
    requires list { IsList moved.old }
    requires parted { AreParted (child_views list.old.items) }
    requires parted_moved { AreParted (child_views (children_in moved.old)) }
    ensures ok { OnOk result
        (child_views list.new.items ≡ joined (child_views list.old.items ++ child_views (children_in moved.old))) }
    ensures err { OnErr result (child_views list.new.items ≡ child_views list.old.items) }
    ensures stay { OnErr result (children_in moved.new ≡ children_in moved.old) }
{
    match moved {
        Below::List(more) => children::append_children(list, more),
        Below::One(_) => unreachable!(),
    }
}

// Moves children to the end of others.
pub(crate) fn append_children(
    alloc: Global,
    children: &mut Below,
    moved: &mut Below,
) -> Result<(), AllocError>
    requires parted { AreParted (child_views (children_in children.old)) }
    requires parted_moved { AreParted (child_views (children_in moved.old)) }
    ensures ok { OnOk result
        (child_views (children_in children.new) ≡ joined (child_views (children_in children.old) ++ child_views (children_in moved.old))) }
    ensures err { OnErr result (child_views (children_in children.new) ≡ child_views (children_in children.old)) }
    ensures stay { OnErr result (children_in moved.new ≡ children_in moved.old) }
{
    make_list(alloc, children)?;
    make_list(alloc, moved)?;
    match children {
        Below::List(list) => append_list(list, moved),
        Below::One(_) => unreachable!(),
    }
}
