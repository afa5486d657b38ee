//! Elements among the nodes of a sound block: among the siblings from one on, or among all nodes up to another.
ghost use Rattle.std.specs.Prelude.{◌≡◌, ◌≤◌, ◌<◌, ◌+◌, ◌==◌, ◌||◌, ◌∷◌, ◌++◌, [], ℕ, IfOk, None, OnOk, Some, cond};
ghost use Rattle.h5_tree_block.specs.Block as b;
ghost use Rattle.h5_tree.specs.BlockForest.{some_number};
ghost use Rattle.h5_tree.specs.ElementNumbers.{IsBefore, IsChildOrNone, elements_between, elements_from, elements_up_to, is_bare_from};

use super::block_names::is_element;
use super::of_block::SoundView;
use h5_tree_block::{ELEMENT, FRAGMENT, NOTHING, TEXT, View};
use std::alloc::{AllocError, Global};

// Adds a node to a list, if it is an element.
fn add_element(found: &mut Vec<u32>, view: &View<'_>, id: u32) -> Result<(), AllocError>
    ensures { OnOk result (found.new.items ≡ found.old.items ++ cond (b.kind_in view.now.block.now id == 1) (id ∷ []) []) }
{
    if is_element(view, id) {
        found.push(id)?;
    }
    Ok(())
}

/// The elements among the siblings from one on.
pub(crate) fn elements_from(
    alloc: Global,
    tree: &SoundView<'_>,
    first: u32,
) -> Result<Vec<u32>, AllocError>
    ensures { (p : ℕ) → IsChildOrNone tree.now.view.block.now p first → IfOk result (λ found. found.items ≡ elements_from tree.now.view.block.now p first) }
{
    let mut found = Vec::new(alloc);
    let mut child = first;
    while child != NOTHING {
        add_element(&mut found, &tree.view, child)?;
        child = tree.view.next(child);
    }
    Ok(found)
}

/// The elements among the siblings from one on, up to another.
pub(crate) fn elements_up_to(
    alloc: Global,
    tree: &SoundView<'_>,
    first: u32,
    id: u32,
) -> Result<Vec<u32>, AllocError>
    ensures { 0 < id → id < b.nodes_in tree.now.view.block.now → IsBefore tree.now.view.block.now (b.parent_in tree.now.view.block.now id) id first
        → IfOk result (λ found. found.items ≡ elements_up_to tree.now.view.block.now (b.parent_in tree.now.view.block.now id) id first) }
{
    let mut found = Vec::new(alloc);
    let mut sibling = first;
    while sibling < id {
        add_element(&mut found, &tree.view, sibling)?;
        sibling = tree.view.next(sibling);
    }
    Ok(found)
}

// The next number outside of contents: the contents of a template are skipped.
fn number_after(view: &View<'_>, at: u32) -> u32
    requires { at < 4294967295 }
    ensures number { result ≡ cond (b.kind_in view.now.block.now at == 11) (b.end_in view.now.block.now at) (at + 1) }
    ensures later { at < result }
{
    if view.kind(at) == FRAGMENT {
        view.end(at)
    } else {
        at + 1
    }
}

/// The elements among the nodes from one up to another, except those in the contents of templates.
pub(crate) fn elements_between(
    alloc: Global,
    tree: &SoundView<'_>,
    from: u32,
    to: u32,
) -> Result<Vec<u32>, AllocError>
    ensures { to ≤ b.nodes_in tree.now.view.block.now → IfOk result (λ found. found.items ≡ elements_between tree.now.view.block.now from to) }
{
    let mut found = Vec::new(alloc);
    let mut at = from;
    while at < to {
        add_element(&mut found, &tree.view, at)?;
        at = number_after(&tree.view, at);
    }
    Ok(found)
}

/// Returns true if there are neither elements nor texts among the siblings from one on.
pub(crate) fn is_bare_from(tree: &SoundView<'_>, first: u32) -> bool
    ensures { (p : ℕ) → IsChildOrNone tree.now.view.block.now p first → result ≡ is_bare_from tree.now.view.block.now p first }
{
    let mut child = first;
    while child != NOTHING {
        let kind = tree.view.kind(child);
        if kind == ELEMENT || kind == TEXT {
            return false;
        }
        child = tree.view.next(child);
    }
    true
}

// Returns true if a number isn't a child: it isn't a node, or is a text or a fragment.
fn is_no_child(view: &View<'_>, id: u32) -> bool
    ensures { result ≡ (b.kind_in view.now.block.now id == 0 || (b.kind_in view.now.block.now id == 3 || b.kind_in view.now.block.now id == 11)) }
{
    let kind = view.kind(id);
    kind == 0 || kind == TEXT || kind == FRAGMENT
}

// A number, unless it is `NOTHING`.
fn some(id: u32) -> Option<u32>
    ensures { result ≡ cond (id == 4294967295) None (Some id) }
{
    if id == NOTHING { None } else { Some(id) }
}

/// The node whose child a node is.
pub(crate) fn parent_of(view: &View<'_>, id: u32) -> Option<u32>
    ensures { result ≡ cond (b.kind_in view.now.block.now id == 0 || (b.kind_in view.now.block.now id == 3 || b.kind_in view.now.block.now id == 11)) None (some_number view.now.block.now (b.parent_in view.now.block.now id)) }
{
    if is_no_child(view, id) {
        return None;
    }
    some(view.parent(id))
}
