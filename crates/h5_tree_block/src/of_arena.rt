//! The columns of an arena.
ghost use Rattle.std.specs.Prelude.{◌≡◌, All, None, IfOk, OnOk};
ghost use Rattle.std.specs.Option.{option_map};
ghost use Rattle.h5_interface.specs.Forest.{children_of};
ghost use Rattle.h5_serialize.specs.Walk.{after_each};
ghost use Rattle.h5_serialize.specs.declared.options.TraversalScope.TheVariants.{ChildrenOnly};
ghost use Rattle.h5_arena.specs.ArenaModel.{IsChildHeld, IsHeld, child_view, child_views, forest_seen, kind_view};
ghost use Rattle.h5_arena.specs.NodeCalls.{walk_of};
ghost use Rattle.h5_tree_block.specs.Columns as c;
ghost use Rattle.h5_tree_block.specs.Columns.{held};
ghost use Rattle.h5_tree_block.specs.Ids.{lent};

use super::columns::Columns;
use super::numbers::{DOCUMENT, FRAGMENT, mode_number};
use h5_arena::{Arena, Child, Kind, NodeId};
use h5_serialize::laws::calls_are_taken_in_turn;
use h5_serialize::{Serialize, TraversalScope};
use std::alloc::{AllocError, Global};

// The identifiers of a doctype.
#[derive(Clone, Copy)]
struct Ids<'a> {
    public_id: &'a str,
    system_id: &'a str,
}

// The identifiers of a node, if it is a doctype.
fn ids_of(kind: &Kind) -> Option<Ids<'_>>
    ensures { option_map lent result ≡ c.ids_of_kind (kind_view kind.now) }
{
    match kind {
        Kind::Doctype {
            public_id,
            system_id,
            ..
        } => Some(Ids {
            public_id: public_id.as_str(),
            system_id: system_id.as_str(),
        }),
        _ => None,
    }
}

// The identifiers of a child, if it is a doctype.
fn ids_of_child<'a>(arena: &'a Arena, child: &'a Child) -> Option<Ids<'a>>
    requires { IsChildHeld arena.now child.now }
    ensures { option_map lent result ≡ c.ids_of_child (forest_seen arena.now) (child_view child.now) }
{
    match child {
        Child::Node(id) => ids_of(arena.kind(*id)),
        Child::Text(_) => None,
    }
}

// The identifiers of the first doctype among children; empty if there is none.
fn ids_among<'a>(arena: &'a Arena, children: &'a [Child]) -> Ids<'a>
    requires { All (IsChildHeld arena.now) children.now }
    ensures { lent result ≡ c.ids_among (forest_seen arena.now) (child_views children.now) }
{
    for child in children {
        if let Some(ids) = ids_of_child(arena, child) {
            return ids;
        }
    }
    Ids {
        public_id: "",
        system_id: "",
    }
}

// The identifiers of a document's doctype.
fn doctype_ids(arena: &Arena) -> Ids<'_>
    ensures { lent result ≡ c.ids_among (forest_seen arena.now) (children_of (forest_seen arena.now) 0) }
{
    ids_among(arena, arena.children(arena.document()))
}

// Stores everything below a node, and ends the root.
fn take_below(columns: &mut Columns, arena: &Arena, root: NodeId) -> Result<(), AllocError>
    requires { IsHeld arena.now root }
    ensures { OnOk result (held columns.new ≡ c.closed (after_each c.after_call (held columns.old) (walk_of (forest_seen arena.now) root.index (ChildrenOnly None)))) }
{
    let scope = TraversalScope::ChildrenOnly(None);
    if arena.at(root).serialize(columns, scope).is_err() {
        return Err(AllocError);
    }
    calls_are_taken_in_turn::<Columns>();
    columns.close()
}

/// Returns the columns of a document. Fails with `AllocError` if an allocation fails, if a column has more than 4,294,967,294 entries or
/// bytes, or if the tree has more than 16,777,214 names. `scripting_enabled` must be the option that the tree was parsed with: the HTML of
/// the block depends on it.
#[tactic(auto, unfolding(crate::specs::Columns::document_columns))]
pub fn columns_of_document(
    alloc: Global,
    arena: &Arena,
    scripting_enabled: bool,
) -> Result<Columns, AllocError>
    ensures { IfOk result (λ columns. held columns ≡ c.document_columns arena.now scripting_enabled) }
{
    let ids = doctype_ids(arena);
    let mode = mode_number(arena.quirks(), scripting_enabled);
    let mut columns = Columns::new(alloc, mode, ids.public_id, ids.system_id)?;
    columns.open(DOCUMENT)?;
    take_below(&mut columns, arena, arena.document())?;
    Ok(columns)
}

/// Returns the columns of a fragment, which is below the root that a fragment parser makes; an empty fragment if there is no root. Fails as
/// [`columns_of_document`] does.
#[tactic(auto, unfolding(crate::specs::Columns::fragment_columns))]
pub fn columns_of_fragment(
    alloc: Global,
    arena: &Arena,
    scripting_enabled: bool,
) -> Result<Columns, AllocError>
    ensures { IfOk result (λ columns. held columns ≡ c.fragment_columns arena.now scripting_enabled) }
{
    let mode = mode_number(arena.quirks(), scripting_enabled);
    let mut columns = Columns::new(alloc, mode, "", "")?;
    columns.open(FRAGMENT)?;
    match arena.fragment_root() {
        Some(root) => take_below(&mut columns, arena, root)?,
        None => columns.close()?,
    }
    Ok(columns)
}
