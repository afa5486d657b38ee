//! Rows: a node and the elements below it, each linked to the rows around it.
ghost use Rattle.std.specs.Prelude.{◌≡◌, ◌≢◌, ◌<◌, List, None, ℕ, ◌∷◌, All, IfOk, IfSome, OnOk, Option, Some, get_or, length, map, true, vec_len};
ghost use Rattle.std.specs.Option.{option_map};
ghost use Rattle.h5_interface.specs.Forest.{Forest};
ghost use Rattle.h5_tree.specs.Elements.{AreElementsOrLeaves, below, child_elements};
ghost use Rattle.h5_tree.specs.Shape.{IsShaped};
ghost use Rattle.h5_selectors.specs.Query.{Context, context, seen_by};
ghost use Rattle.h5_selectors.specs.Rows.{AreBelow, AreBeside, AreChildRows, AreLinked, AreRising, AreRows, AreWithin, IsKnown, entry_before, entry_behind, node_in, node_of, nodes_in};

use super::holds::Query;
use h5_tree::Tree;
use std::alloc::{AllocError, Global};

/// The links of an element's row.
#[derive(Clone, Copy)]
pub(crate) struct Links {
    pub(crate) parent: Option<usize>,
    // The previous and the next sibling, if the parent is known.
    pub(crate) previous: Option<usize>,
    pub(crate) next: Option<usize>,
    // The first child, if the children are known.
    pub(crate) first: Option<usize>,
    pub(crate) knows_children: bool,
    // The first row after those of the subtree.
    end: usize,
}

/// A node and the elements below it, in tree order.
#[derive(Drop)]
pub(crate) struct Rows<N: Copy> {
    pub(crate) ids: Vec<N>,
    links: Vec<Links>,
}

impl<N: Copy> Rows<N> {
    /// The number of rows.
    pub(crate) fn len(&self) -> usize
        ensures { result ≡ length self.now.ids.items }
    {
        self.ids.len()
    }

    /// The node of a row.
    pub(crate) fn id(&self, row: usize) -> N
        requires { row < length self.now.ids.items }
        ensures { (place : N → ℕ) → place result ≡ node_of place self.now row }
    {
        self.ids[row]
    }

    /// The links of a row.
    pub(crate) fn links(&self, row: usize) -> Links
        requires count { length self.now.links.items ≡ length self.now.ids.items }
        requires within { row < length self.now.ids.items }
        ensures { (place : N → ℕ) (c : Context) → AreRows place c self.now → IsKnown (seen_by c) (nodes_in place self.now) row result }
    {
        self.links[row]
    }
}

// Links of this number of rows, all unknown.
fn unlinked(alloc: Global, count: usize) -> Result<Vec<Links>, AllocError>
    ensures count { IfOk result (λ links. vec_len links ≡ count) }
    ensures links { IfOk result (λ links. (f : Forest) (ns : List ℕ) → AreLinked f ns links.items) }
{
    let mut links = Vec::with_capacity(alloc, count)?;
    for at in 0..count {
        links.push(Links {
            parent: None,
            previous: None,
            next: None,
            first: None,
            knows_children: false,
            end: at + 1,
        })?;
    }
    Ok(links)
}

// The rows of the child elements of a row's node, and the first row after them. `None` if they aren't in the rows after it, each after the
// subtree of the one before.
fn child_rows<T: Tree>(
    tree: &T,
    children: &[T::NodeId],
    ids: &[T::NodeId],
    links: &[Links],
    at: usize,
    found: &mut Vec<usize>,
) -> Result<Option<usize>, AllocError>
    requires within { at < length ids.now }
    requires count { length links.now ≡ length ids.now }
    requires links { AreLinked (T.forest tree.now) (map T.number ids.now) links.now }
    ensures found { IfOk result (λ end. IfSome end (λ _. map (node_in (T.forest tree.now) (map T.number ids.now)) found.new.items ≡ map T.number children.now)) }
    ensures rising { OnOk result (AreRising found.new.items) }
    ensures within { OnOk result (AreWithin at (length ids.now) found.new.items) }
    ensures end { IfOk result (λ end. IfSome end (λ e. at < e)) }
{
    found.clear();
    let mut row = at + 1;
    for child in children {
        if row >= ids.len() || !tree.is_same_node(ids[row], *child) {
            return Ok(None);
        }
        found.push(row)?;
        row = links[row].end;
    }
    Ok(Some(row))
}

// Sets the links of a row to its parent and its siblings.
fn set_beside(
    links: &mut Vec<Links>,
    row: usize,
    parent: usize,
    previous: Option<usize>,
    next: Option<usize>,
)
    requires { row < length links.old.items }
    ensures count { length links.new.items ≡ length links.old.items }
    ensures links { (f : Forest) (ns : List ℕ) → AreLinked f ns links.old.items → AreBeside f ns row parent previous next → AreLinked f ns links.new.items }
{
    let changed = &mut links[row];
    changed.parent = Some(parent);
    changed.previous = previous;
    changed.next = next;
}

// Sets the link of a row to its first child, and the first row after its subtree.
fn set_first(links: &mut Vec<Links>, row: usize, first: Option<usize>, end: usize)
    requires within { row < length links.old.items }
    requires end { row < end }
    ensures count { length links.new.items ≡ length links.old.items }
    ensures links { (f : Forest) (ns : List ℕ) → AreLinked f ns links.old.items → AreBelow f ns row first → AreLinked f ns links.new.items }
{
    let changed = &mut links[row];
    changed.first = first;
    changed.knows_children = true;
    changed.end = end;
}

// The entry of a list before an index, and the one after it.
fn before(list: &[usize], at: usize) -> Option<usize>
    requires { at < length list.now }
    ensures { result ≡ entry_before list.now at }
{
    match at.checked_sub(1) {
        Some(previous) => Some(list[previous]),
        None => None,
    }
}

fn behind(list: &[usize], at: usize) -> Option<usize>
    requires { at < length list.now }
    ensures { result ≡ entry_behind list.now at }
{
    if at + 1 < list.len() {
        Some(list[at + 1])
    } else {
        None
    }
}

// Links the rows of children to their parent, and to each other.
fn link_children(links: &mut Vec<Links>, parent: usize, children: &[usize])
    requires within { AreWithin parent (length links.old.items) children.now }
    ensures count { length links.new.items ≡ length links.old.items }
    ensures links { (f : Forest) (ns : List ℕ) → AreLinked f ns links.old.items → AreChildRows f ns parent children.now → AreLinked f ns links.new.items }
{
    for at in 0..children.len() {
        let previous = before(children, at);
        set_beside(links, children[at], parent, previous, behind(children, at));
    }
}

// Links a row and the rows of its children, if these are in the order of the children.
fn link_row<T: Tree>(
    alloc: Global,
    tree: &T,
    ids: &[T::NodeId],
    links: &mut Vec<Links>,
    row: usize,
    room: &mut Vec<usize>,
) -> Result<(), AllocError>
    requires shape { IsShaped (T.forest tree.now) }
    requires within { row < length ids.now }
    requires count { length links.old.items ≡ length ids.now }
    requires links { AreLinked (T.forest tree.now) (map T.number ids.now) links.old.items }
    ensures count { OnOk result (length links.new.items ≡ length ids.now) }
    ensures links { OnOk result (AreLinked (T.forest tree.now) (map T.number ids.now) links.new.items) }
{
    if !tree.has_elements_or_leaves(ids[row]) {
        return Ok(());
    }
    let children = tree.child_elements(alloc, ids[row])?;
    let Some(end) = child_rows(tree, children.as_slice(), ids, links.as_slice(), row, room)? else {
        return Ok(());
    };
    link_children(links, row, room.as_slice());
    set_first(links, row, room.first().copied(), end);
    Ok(())
}

// The links of rows. Begins with the last row.
fn linked<T: Tree>(alloc: Global, tree: &T, ids: &[T::NodeId]) -> Result<Vec<Links>, AllocError>
    requires { IsShaped (T.forest tree.now) }
    ensures count { IfOk result (λ links. length links.items ≡ length ids.now) }
    ensures links { IfOk result (λ links. AreLinked (T.forest tree.now) (map T.number ids.now) links.items) }
{
    let mut links = unlinked(alloc, ids.len())?;
    let mut room = Vec::new(alloc);
    for step in 0..ids.len() {
        link_row(
            alloc,
            tree,
            ids,
            &mut links,
            ids.len() - 1 - step,
            &mut room,
        )?;
    }
    Ok(links)
}

// Returns true only if all links are known, except those of the first row to a parent and siblings.
fn are_known(links: &[Links]) -> bool
    ensures parents { result ≡ true → (k : ℕ) (d : Links) → 0 < k → k < length links.now → (get_or links.now k d).parent ≢ None }
    ensures children { result ≡ true → (k : ℕ) (d : Links) → k < length links.now → (get_or links.now k d).knows_children ≡ true }
{
    for at in 0..links.len() {
        if !links[at].knows_children || (at > 0 && links[at].parent.is_none()) {
            return false;
        }
    }
    true
}

// A node, and the elements below it, in tree order.
fn with_below<T: Tree>(alloc: Global, tree: &T, id: T::NodeId) -> Result<Vec<T::NodeId>, AllocError>
    ensures { IfOk result (λ ids. map T.number ids.items ≡ T.number id ∷ below (T.forest tree.now) (T.number id)) }
{
    let below = tree.descendant_elements(alloc, id)?;
    let mut ids = Vec::with_capacity(alloc, below.len() + 1)?;
    ids.push(id)?;
    for element in below.as_slice() {
        ids.push(*element)?;
    }
    Ok(ids)
}

/// Returns a node and the elements below it as rows, or `None` if a link isn't known.
pub(crate) fn rows_of<T: Tree>(
    query: &Query<'_, T>,
    id: T::NodeId,
) -> Result<Option<Rows<T::NodeId>>, AllocError>
    ensures rows { IfOk result (λ rows. IfSome rows (AreRows T.number (context (T.forest query.now.tree.now) query.now.is_quirky (option_map T.number query.now.scope)))) }
    ensures nodes { IfOk result (λ rows. IfSome rows (λ rows. nodes_in T.number rows ≡ T.number id ∷ below (T.forest query.now.tree.now) (T.number id))) }
{
    // The shape of the tree is known from here on.
    let _count = query.tree.node_count();
    let ids = with_below(query.alloc, query.tree, id)?;
    let links = linked(query.alloc, query.tree, ids.as_slice())?;
    if !are_known(links.as_slice()) {
        return Ok(None);
    }
    Ok(Some(Rows { ids, links }))
}
