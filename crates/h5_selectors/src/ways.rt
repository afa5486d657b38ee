//! Relations between elements: parent, siblings and descendants. Only elements are returned.
ghost use Rattle.std.specs.Prelude.{◌≡◌, ◌∷◌, [], IfOk, map};
ghost use Rattle.std.specs.Option.{option_map, option_to_list};
ghost use Rattle.h5_selectors.specs.Ways.{ancestors, counted, first_of, is_root, last_of, led, parent_element};

use crate::{Side, Way};
use h5_tree::Tree;
use std::alloc::{AllocError, Global};

/// The parent, if it is an element.
pub(crate) fn parent_element<T: Tree>(tree: &T, id: T::NodeId) -> Option<T::NodeId>
    ensures { option_to_list (option_map T.number result) ≡ parent_element (T.forest tree.now) (T.number id) }
{
    match tree.parent(id) {
        Some(parent) if tree.is_element(parent) => Some(parent),
        _ => None,
    }
}

/// Returns true for the root of a document.
pub(crate) fn is_root<T: Tree>(tree: &T, id: T::NodeId) -> bool
    ensures { result ≡ is_root (T.forest tree.now) (T.number id) }
{
    match tree.parent(id) {
        Some(parent) => tree.is_document(parent),
        None => false,
    }
}

/// The ancestors of a node that are elements, the nearest first.
pub(crate) fn ancestors<T: Tree>(
    alloc: Global,
    tree: &T,
    id: T::NodeId,
) -> Result<Vec<T::NodeId>, AllocError>
    ensures { IfOk result (λ found. map T.number found.items ≡ ancestors (T.forest tree.now) (T.number id)) }
{
    let mut found = Vec::new(alloc);
    let mut at = id;
    for _step in 0..tree.node_count() {
        let Some(parent) = tree.parent(at) else {
            return Ok(found);
        };
        if tree.is_element(parent) {
            found.push(parent)?;
        }
        at = parent;
    }
    Ok(found)
}

// A list of one element, or an empty one.
fn one_or_none<N: Copy>(alloc: Global, id: Option<N>) -> Result<Vec<N>, AllocError>
    ensures { IfOk result (λ found. found.items ≡ option_to_list id) }
{
    let mut found = Vec::new(alloc);
    if let Some(id) = id {
        found.push(id)?;
    }
    Ok(found)
}

/// The siblings that are counted for an index, from the start or from the end.
pub(crate) fn counted<T: Tree>(
    alloc: Global,
    tree: &T,
    side: Side,
    id: T::NodeId,
) -> Result<Vec<T::NodeId>, AllocError>
    ensures { IfOk result (λ found. map T.number found.items ≡ counted side (T.forest tree.now) (T.number id)) }
{
    match side {
        Side::First => tree.sibling_elements_before(alloc, id),
        Side::Last => tree.sibling_elements_after(alloc, id),
    }
}

/// The elements in this relation to an element.
pub(crate) fn led<T: Tree>(
    alloc: Global,
    tree: &T,
    way: Way,
    id: T::NodeId,
) -> Result<Vec<T::NodeId>, AllocError>
    ensures { IfOk result (λ found. map T.number found.items ≡ led way (T.forest tree.now) (T.number id)) }
{
    match way {
        Way::Parent => one_or_none(alloc, parent_element(tree, id)),
        Way::Ancestor => ancestors(alloc, tree, id),
        Way::Previous => {
            let before = tree.sibling_elements_before(alloc, id)?;
            one_or_none(alloc, before.last().copied())
        }
        Way::Earlier => tree.sibling_elements_before(alloc, id),
        Way::Child => tree.child_elements(alloc, id),
        Way::Below => tree.descendant_elements(alloc, id),
        Way::Next => {
            let behind = tree.sibling_elements_after(alloc, id)?;
            one_or_none(alloc, behind.first().copied())
        }
        Way::Later => tree.sibling_elements_after(alloc, id),
    }
}
