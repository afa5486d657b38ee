//! Searches of the adoption agency, on the stack of open elements and in the list of active formatting elements.
ghost use Rattle.std.specs.Prelude.{◌≡◌, ◌<◌, ◌+◌, ◌∷◌, ℕ, MatchOption, None, is_some, length};
ghost use Rattle.std.specs.List.{list_any};
ghost use Rattle.h5_interface.specs.Forest.{IsNode};
ghost use Rattle.h5_tables.specs.TagSets.{is_default_scope, is_special};
ghost use Rattle.h5_builder_spec.specs.formatting.Adoption.{furthest_block, newer_than, newest_named};
ghost use Rattle.h5_builder_spec.specs.formatting.FormattingList.{nodes_of};
ghost use Rattle.h5_builder_spec.specs.stack.Order.{is_in};
ghost use Rattle.h5_builder_spec.specs.World.{name_in};
ghost use Rattle.h5_builder_state.specs.Steps.{IsSound, world_of};
ghost use Rattle.h5_builder_state.specs.OpenPlaces.{IsOpenAt};
ghost use Rattle.h5_builder_actions.specs.FormattingPlaces.{AreNodes, IsBlockAt, IsEntryAt, IsListedAt};

use super::walk::{entry_at, entry_count};
use h5_builder_state::{State, newest_scope_end, open_at, open_count};
use h5_interface::TreeSink;
use h5_names::LocalName;
use h5_tables::FormatEntry;

/// Returns the place of the entry of a name's formatting element: the newest entry of the name after the last marker.
#[tactic(auto, unfolding(h5_builder_state::specs::View::world))]
pub fn find_formatting_element<S: TreeSink>(
    sink: &S,
    state: &State<S::Handle>,
    name: &LocalName,
) -> Option<usize>
    ensures found { is_some result ≡ is_some (newest_named name.now (world_of S.TreeSink sink.now state.now).formatting) }
    ensures place { MatchOption result (Unit {0}) (λ place. IsListedAt name.now place (world_of S.TreeSink sink.now state.now)) }
    ensures inside { MatchOption result (Unit {0}) (λ place. place < length (world_of S.TreeSink sink.now state.now).formatting) }
{
    state.active_formatting.find_newest_named(name)
}

/// Returns the place of an element's newest entry.
pub fn find_entry<S: TreeSink>(
    sink: &S,
    state: &State<S::Handle>,
    handle: &S::Handle,
) -> Option<usize>
    requires listed { AreNodes (S.sees sink.now).forest (nodes_of (world_of S.TreeSink sink.now state.now).formatting) }
    requires handle { IsNode (S.sees sink.now).forest (S.node handle.now) }
    ensures found { is_some result ≡ is_in (S.node handle.now) (nodes_of (world_of S.TreeSink sink.now state.now).formatting) }
    ensures place { MatchOption result (Unit {0}) (λ place. IsEntryAt (S.node handle.now) place (world_of S.TreeSink sink.now state.now)) }
    ensures inside { MatchOption result (Unit {0}) (λ place. place < length (world_of S.TreeSink sink.now state.now).formatting) }
{
    let mut place = entry_count(sink, state);
    'down: while place > 0 {
        place -= 1;
        if let FormatEntry::Element(listed, _) = entry_at(sink, state, place) {
            if sink.same_node(&listed.handle, handle) {
                return Some(place);
            }
        }
    }
    None
}

/// Returns true if the scope ends above the open element at a place, so that the element isn't in scope.
pub fn scope_ends_above<S: TreeSink>(sink: &S, state: &State<S::Handle>, place: usize) -> bool
    requires sound { IsSound S.TreeSink sink.now state.now }
    requires place { place < length (world_of S.TreeSink sink.now state.now).stack }
    ensures { (n : ℕ) → IsOpenAt n place (world_of S.TreeSink sink.now state.now)
        → result ≡ list_any (λ m. is_default_scope (name_in (world_of S.TreeSink sink.now state.now).forest m)) (newer_than n (world_of S.TreeSink sink.now state.now).stack) }
{
    newest_scope_end(sink, state) > place + 1
}

/// Returns the place of the furthest block of the open element at a place: the oldest special element above it.
pub fn find_block<S: TreeSink>(sink: &S, state: &State<S::Handle>, place: usize) -> Option<usize>
    requires sound { IsSound S.TreeSink sink.now state.now }
    requires place { place < length (world_of S.TreeSink sink.now state.now).stack }
    ensures block { (n : ℕ) → IsOpenAt n place (world_of S.TreeSink sink.now state.now)
        → MatchOption result (furthest_block (λ m. is_special (name_in (world_of S.TreeSink sink.now state.now).forest m)) (newer_than n (world_of S.TreeSink sink.now state.now).stack) ≡ None)
        (λ at. IsBlockAt n place at (world_of S.TreeSink sink.now state.now)) }
    ensures inside { MatchOption result (Unit {0}) (λ at. at < length (world_of S.TreeSink sink.now state.now).stack) }
{
    let count = open_count(sink, state);
    let mut above = place + 1;
    'up: while above < count {
        if open_at(sink, state, above).summary.special {
            return Some(above);
        }
        above += 1;
    }
    None
}
