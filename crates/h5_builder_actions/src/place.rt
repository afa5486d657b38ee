//! The place of insertion (HTML standard, section 13.2.6.1, "Creating and inserting nodes").
ghost use Rattle.std.specs.Prelude.{◌≡◌, ◌<◌, ◌+◌, ◌&&◌, length};
ghost use Rattle.h5_interface.specs.NewElement.{is_html_template};
ghost use Rattle.h5_tables.specs.TagSets.{is_table_outer};
ghost use Rattle.h5_builder_spec.specs.insertion.Place.{appropriate_place, foster_place, from_foster_parent, inside, place};
ghost use Rattle.h5_builder_spec.specs.World.{name_in, root};
ghost use Rattle.h5_builder_spec.specs.stack.Order.{IsIn};
ghost use Rattle.h5_builder_actions.specs.Places.{place_of};
ghost use Rattle.h5_builder_state.specs.Steps.{IsSound, world_of};
ghost use Rattle.h5_builder_state.specs.View.{stack_under};

use h5_builder_state::{
    FosterParent, Nothing, State, find_in_scope, handle_at, is_named, open_count, root_node,
};
use h5_interface::TreeSink;
use h5_names::{KnownName, LocalName};
use h5_tables::{is_html_known, table_outer};

/// A place for a node or a text.
#[derive(Drop)]
pub enum InsertionPoint<Handle> {
    /// As the last child of this node.
    LastChild(Handle),
    /// Before the first node, a table, if it has a parent; otherwise as the last child of the second, the element next
    /// older on the stack.
    TableFosterParenting(Handle, Handle),
}

// The node that gets the children of an open element: the contents of a template, otherwise the element.
#[tactic(auto, unfolding(h5_builder_state::specs::View::world))]
#[inline(always)]
fn last_child_place<S: TreeSink>(
    sink: &S,
    state: &State<S::Handle>,
    target: &S::Handle,
    is_template: bool,
) -> S::Handle
    requires sound { IsSound S.TreeSink sink.now state.now }
    requires open { IsIn (S.node target.now) (world_of S.TreeSink sink.now state.now).stack }
    requires template { is_template ≡ is_html_template (name_in (world_of S.TreeSink sink.now state.now).forest (S.node target.now)) }
    ensures { S.node result ≡ inside (world_of S.TreeSink sink.now state.now).forest (S.node target.now) }
{
    if is_template {
        sink.get_template_contents(target)
    } else {
        sink.clone_handle(target)
    }
}

// The node that gets the children of an open element.
#[tactic(auto, unfolding(h5_builder_state::specs::View::world))]
#[inline(always)]
fn inside<S: TreeSink>(sink: &S, state: &State<S::Handle>, target: &S::Handle) -> S::Handle
    requires sound { IsSound S.TreeSink sink.now state.now }
    requires open { IsIn (S.node target.now) (world_of S.TreeSink sink.now state.now).stack }
    ensures { S.node result ≡ inside (world_of S.TreeSink sink.now state.now).forest (S.node target.now) }
{
    let is_template = is_html_known(sink.elem_name(target), KnownName::Template);
    last_child_place(sink, state, target, is_template)
}

// The place of a foster-parented node.
fn foster_place<S: TreeSink>(sink: &S, state: &State<S::Handle>) -> InsertionPoint<S::Handle>
    requires { IsSound S.TreeSink sink.now state.now }
    ensures { place_of S.node result ≡ foster_place (world_of S.TreeSink sink.now state.now).forest (root (world_of S.TreeSink sink.now state.now))
        (from_foster_parent (world_of S.TreeSink sink.now state.now).forest (world_of S.TreeSink sink.now state.now).stack) }
{
    match find_in_scope(sink, state, &FosterParent, &Nothing) {
        Some(at) => foster_place_at(sink, state, at),
        None => InsertionPoint::LastChild(root_node(sink, state)),
    }
}

// The place of a foster-parented node by the element at this place, counted from the root.
#[tactic(auto, unfolding(h5_builder_state::specs::View::world, h5_builder_state::specs::View::stack_under))]
fn foster_place_at<S: TreeSink>(
    sink: &S,
    state: &State<S::Handle>,
    at: usize,
) -> InsertionPoint<S::Handle>
    requires sound { IsSound S.TreeSink sink.now state.now }
    requires at { at < length (world_of S.TreeSink sink.now state.now).stack }
    ensures { place_of S.node result ≡ foster_place (world_of S.TreeSink sink.now state.now).forest (root (world_of S.TreeSink sink.now state.now)) (stack_under S.node state.now (at + 1)) }
{
    let element = state.open_elems.elements.get(at);
    if is_html_known(sink.elem_name(&element.handle), KnownName::Template) {
        InsertionPoint::LastChild(inside(sink, state, &element.handle))
    } else {
        let below = state.open_elems.elements.get(at.saturating_sub(1));
        InsertionPoint::TableFosterParenting(
            sink.clone_handle(&element.handle),
            sink.clone_handle(&below.handle),
        )
    }
}

// A node that would be inserted into an open element is foster-parented.
#[inline(always)]
fn is_fostered<S: TreeSink>(sink: &S, state: &State<S::Handle>, target: &S::Handle) -> bool
    requires sound { IsSound S.TreeSink sink.now state.now }
    requires open { IsIn (S.node target.now) (world_of S.TreeSink sink.now state.now).stack }
    ensures { result ≡ ((world_of S.TreeSink sink.now state.now).foster && is_table_outer (name_in (world_of S.TreeSink sink.now state.now).forest (S.node target.now))) }
{
    state.foster_parenting && table_outer(sink.elem_name(target))
}

/// Returns the appropriate place for inserting a node into an open element.
#[inline(always)]
pub fn appropriate_place_for_insertion<S: TreeSink>(
    sink: &S,
    state: &State<S::Handle>,
    target: &S::Handle,
) -> InsertionPoint<S::Handle>
    requires sound { IsSound S.TreeSink sink.now state.now }
    requires open { IsIn (S.node target.now) (world_of S.TreeSink sink.now state.now).stack }
    ensures { place_of S.node result ≡ appropriate_place (world_of S.TreeSink sink.now state.now) (S.node target.now) }
{
    if is_fostered(sink, state, target) {
        foster_place(sink, state)
    } else {
        InsertionPoint::LastChild(inside(sink, state, target))
    }
}

/// Returns the appropriate place for inserting a node into the current node, or into the document if no element is
/// open. Unless the node is foster-parented, the number of the current node's name decides if it is a template.
#[inline(always)]
pub fn current_place<S: TreeSink>(sink: &S, state: &State<S::Handle>) -> InsertionPoint<S::Handle>
    requires { IsSound S.TreeSink sink.now state.now }
    ensures { place_of S.node result ≡ place (world_of S.TreeSink sink.now state.now) }
{
    let count = open_count(sink, state);
    if count == 0 {
        return InsertionPoint::LastChild(sink.get_document());
    }
    let target = handle_at(sink, state, count - 1);
    if state.foster_parenting {
        return appropriate_place_for_insertion(sink, state, target);
    }
    let template = LocalName::from_known(KnownName::Template);
    let is_template = is_named(sink, state, count - 1, &template);
    InsertionPoint::LastChild(last_child_place(sink, state, target, is_template))
}
