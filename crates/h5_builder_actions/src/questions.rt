//! Tests for closing formatting elements.
ghost use Rattle.std.specs.Prelude.{◌≡◌, is_some};
ghost use Rattle.h5_interface.specs.Forest.{IsNode};
ghost use Rattle.h5_builder_spec.specs.formatting.AdoptionAgency.{closes_current, closes_one, is_current_unlisted};
ghost use Rattle.h5_builder_spec.specs.formatting.Adoption.{newest_named};
ghost use Rattle.h5_builder_spec.specs.formatting.FormattingList.{nodes_of};
ghost use Rattle.h5_builder_spec.specs.stack.Order.{is_in};
ghost use Rattle.h5_builder_spec.specs.World.{name_in};
ghost use Rattle.h5_builder_state.specs.View.{listed_node};
ghost use Rattle.h5_builder_state.specs.Steps.{IsSound, world_of};
ghost use Rattle.h5_builder_state.specs.Listed.{entry_of};
ghost use Rattle.h5_builder_actions.specs.EntryPlaces.{entry_at, is_entry_of};
ghost use Rattle.h5_builder_actions.specs.FormattingPlaces.{IsNodeIn};

use super::find::find_formatting_element;
use super::walk::{entry_at, entry_count};
use h5_builder_state::{Listed, State, current_node, is_current_html};
use h5_interface::TreeSink;
use h5_names::LocalName;
use h5_tables::FormatEntry;

// The entry is that of an element.
fn is_entry_of<S: TreeSink>(
    sink: &S,
    entry: &FormatEntry<Listed<S::Handle>>,
    handle: &S::Handle,
) -> bool
    requires entry { IsNodeIn (S.sees sink.now).forest (entry_of (listed_node S.node) entry.now) }
    requires handle { IsNode (S.sees sink.now).forest (S.node handle.now) }
    ensures { result ≡ is_entry_of (S.node handle.now) (entry_of (listed_node S.node) entry.now) }
{
    match entry {
        FormatEntry::Element(listed, _) => sink.same_node(handle, &listed.handle),
        FormatEntry::Marker => false,
    }
}

/// Returns true if the entry at a place is that of an element.
pub fn is_listed_at<S: TreeSink>(
    sink: &S,
    state: &State<S::Handle>,
    at: usize,
    handle: &S::Handle,
) -> bool
    requires sound { IsSound S.TreeSink sink.now state.now }
    requires handle { IsNode (S.sees sink.now).forest (S.node handle.now) }
    ensures { result ≡ is_entry_of (S.node handle.now) (entry_at at (world_of S.TreeSink sink.now state.now).formatting) }
{
    at < entry_count(sink, state) && is_entry_of(sink, entry_at(sink, state, at), handle)
}

/// Returns true if the current node is the formatting element of a name.
pub fn closes_current<S: TreeSink>(sink: &S, state: &State<S::Handle>, name: &LocalName) -> bool
    requires { IsSound S.TreeSink sink.now state.now }
    ensures { result ≡ closes_current name.now (world_of S.TreeSink sink.now state.now) }
{
    match find_formatting_element(sink, state, name) {
        Some(place) => is_entry_of(
            sink,
            entry_at(sink, state, place),
            &current_node(sink, state),
        ),
        None => false,
    }
}

// The element, which has this name, is listed. Entries of other names are skipped.
#[tactic(auto, unfolding(h5_builder_state::specs::View::world))]
fn is_listed<S: TreeSink>(
    sink: &S,
    state: &State<S::Handle>,
    name: &LocalName,
    handle: &S::Handle,
) -> bool
    requires sound { IsSound S.TreeSink sink.now state.now }
    requires handle { IsNode (S.sees sink.now).forest (S.node handle.now) }
    requires named { (name_in (S.sees sink.now).forest (S.node handle.now)).local ≡ name.now }
    ensures { result ≡ is_in (S.node handle.now) (nodes_of (world_of S.TreeSink sink.now state.now).formatting) }
{
    let list = &state.active_formatting;
    let mut place = list.pass_others(name, list.len());
    'down: while place > 0 {
        place -= 1;
        if is_entry_of(sink, list.get(place), handle) {
            return true;
        }
        place = list.pass_others(name, place);
    }
    false
}

/// Returns true if the current node has this name and isn't listed.
pub fn is_current_unlisted<S: TreeSink>(
    sink: &S,
    state: &State<S::Handle>,
    name: &LocalName,
) -> bool
    requires { IsSound S.TreeSink sink.now state.now }
    ensures { result ≡ is_current_unlisted name.now (world_of S.TreeSink sink.now state.now) }
{
    is_current_html(sink, state, name) && !is_listed(sink, state, name, &current_node(sink, state))
}

/// Returns true if the adoption agency for a name closes only the current node, which isn't a parse error.
pub fn closes_one<S: TreeSink>(sink: &S, state: &State<S::Handle>, name: &LocalName) -> bool
    requires { IsSound S.TreeSink sink.now state.now }
    ensures { result ≡ closes_one name.now (world_of S.TreeSink sink.now state.now) }
{
    is_current_unlisted(sink, state, name) || closes_current(sink, state, name)
}

/// Returns true if a formatting element of a name is listed after the last marker.
pub fn is_named_listed<S: TreeSink>(sink: &S, state: &State<S::Handle>, name: &LocalName) -> bool
    ensures { result ≡ is_some (newest_named name.now (world_of S.TreeSink sink.now state.now).formatting) }
{
    find_formatting_element(sink, state, name).is_some()
}
