//! The scope test for one element, and access to the list of active formatting elements, by places counted from the
//! oldest entry.
ghost use Rattle.std.specs.Prelude.{◌≡◌, ◌<◌, ◌≤◌, ◌+◌, ◌∷◌, ◌++◌, [], ℕ, List, length};
ghost use Rattle.h5_token.specs.TokenText.{TagText};
ghost use Rattle.h5_builder_spec.specs.formatting.FormattingList.{ElementEntry, Entry, nodes_of};
ghost use Rattle.h5_builder_spec.specs.stack.Order.{IsIn};
ghost use Rattle.h5_builder_actions.specs.Rounds.{IsElementEntry};
ghost use Rattle.h5_interface.specs.Forest.{IsElement};
ghost use Rattle.h5_tables.specs.TagSets.{is_default_scope};
ghost use Rattle.h5_builder_spec.specs.World.{name_in};
ghost use Rattle.h5_builder_state.specs.View.{listed_node};
ghost use Rattle.h5_builder_state.specs.Stamps.{AreStamped, IsAbove, IsStamped, stamps_of};
ghost use Rattle.h5_builder_state.specs.Steps.{world_of};
ghost use Rattle.h5_builder_state.specs.Listed.{entry_of};
ghost use Rattle.h5_builder_actions.specs.View.{list_under};

use h5_builder_state::{Listed, State};
use h5_interface::TreeSink;
use h5_tables::{FormatEntry, default_scope};

/// Returns true if an element ends a scope.
pub fn ends_scope<S: TreeSink>(sink: &S, handle: &S::Handle) -> bool
    requires { IsElement (S.sees sink.now).forest (S.node handle.now) }
    ensures { result ≡ is_default_scope (name_in (S.sees sink.now).forest (S.node handle.now)) }
{
    default_scope(sink.elem_name(handle))
}

/// Returns the number of entries.
#[tactic(auto, unfolding(h5_builder_state::specs::View::world, crate::specs::View::list_under))]
pub fn entry_count<S: TreeSink>(sink: &S, state: &State<S::Handle>) -> usize
    ensures count { result ≡ length (world_of S.TreeSink sink.now state.now).formatting }
    ensures all { list_under S.node state.now result ≡ (world_of S.TreeSink sink.now state.now).formatting }
    ensures none { list_under S.node state.now 0 ≡ [] }
{
    state.active_formatting.len()
}

/// Returns the entry at a place, which must be less than the number of entries.
#[tactic(auto, unfolding(h5_builder_state::specs::View::world, crate::specs::View::list_under))]
pub fn entry_at<'a, S: TreeSink>(
    sink: &S,
    state: &'a State<S::Handle>,
    place: usize,
) -> &'a FormatEntry<Listed<S::Handle>>
    requires { place < length (world_of S.TreeSink sink.now state.now).formatting }
    ensures list { list_under S.node state.now (place + 1) ≡ entry_of (listed_node S.node) result.now ∷ list_under S.node state.now place }
    ensures count { length (list_under S.node state.now place) ≡ place }
    ensures stamped { AreStamped S.node state.now.open_elems state.now.active_formatting → IsStamped S.node (stamps_of S.node state.now.open_elems) state.now.open_elems.last result.now }
    ensures listed { (n : ℕ) → (tag : TagText) → entry_of (listed_node S.node) result.now ≡ ElementEntry n tag → IsIn n (nodes_of (world_of S.TreeSink sink.now state.now).formatting) }
{
    state.active_formatting.get(place)
}

/// Returns the listed element at a place, with its stamp; the place must be that of an element's entry.
pub fn listed_at<'a, S: TreeSink>(
    sink: &S,
    state: &'a State<S::Handle>,
    at: usize,
) -> &'a Listed<S::Handle>
    requires { IsElementEntry at (world_of S.TreeSink sink.now state.now) }
    ensures listed { IsIn (S.node result.now.handle) (nodes_of (world_of S.TreeSink sink.now state.now).formatting) }
    ensures node { (newer older : List Entry) → (n : ℕ) → (tag : TagText) → (world_of S.TreeSink sink.now state.now).formatting ≡ newer ++ ElementEntry n tag ∷ older → at ≡ length older
        → S.node result.now.handle ≡ n }
    ensures given { AreStamped S.node state.now.open_elems state.now.active_formatting → result.now.stamp ≤ state.now.open_elems.last }
    ensures above { AreStamped S.node state.now.open_elems state.now.active_formatting → IsAbove (S.node result.now.handle) result.now.stamp (stamps_of S.node state.now.open_elems) }
{
    match entry_at(sink, state, at) {
        FormatEntry::Element(listed, _) => listed,
        FormatEntry::Marker => unreachable!(),
    }
}

/// Returns the handle of the listed element at a place, which must be that of an element's entry.
pub fn element_at<'a, S: TreeSink>(
    sink: &S,
    state: &'a State<S::Handle>,
    at: usize,
) -> &'a S::Handle
    requires { IsElementEntry at (world_of S.TreeSink sink.now state.now) }
    ensures listed { IsIn (S.node result.now) (nodes_of (world_of S.TreeSink sink.now state.now).formatting) }
    ensures node { (newer older : List Entry) → (n : ℕ) → (tag : TagText) → (world_of S.TreeSink sink.now state.now).formatting ≡ newer ++ ElementEntry n tag ∷ older → at ≡ length older
        → S.node result.now ≡ n }
{
    &listed_at(sink, state, at).handle
}
