//! Recomputes the summaries of open elements after those below them changed.
ghost use Rattle.std.specs.Prelude.{◌≡◌, ◌<◌, ◌≤◌, ◌+◌, ◌^◌, List, Some, drop, length, map, reverse};
ghost use Rattle.h5_names.specs.declared.qualified.QualName.{QualName as NameText};
ghost use Rattle.h5_builder_state.specs.Numbered.{numbers};
ghost use Rattle.h5_builder_spec.specs.Sound.{Sound};
ghost use Rattle.h5_builder_spec.specs.World.{names_of};
ghost use Rattle.h5_builder_state.specs.Numbers.{name_number};
ghost use Rattle.h5_builder_state.specs.Stamps.{AreStamped};
ghost use Rattle.h5_builder_state.specs.Steps.{IsSound, world_of};
ghost use Rattle.h5_builder_state.specs.Summaries.{all_open, summaries};
ghost use Rattle.h5_builder_state.specs.View.{IsKeptOver, elements_of, kept_under, names_under};

use super::open_element::{AllOpen, OpenElement, Summary};
use super::open_elems::open_count;
use super::state::State;
use h5_interface::TreeSink;

/// Returns what is known about the `count` oldest open elements.
#[tactic(auto, unfolding(crate::specs::View::world, crate::specs::View::names_under))]
pub fn all_under<S: TreeSink>(sink: &S, state: &State<S::Handle>, count: usize) -> AllOpen
    requires count { count ≤ length (world_of S.TreeSink sink.now state.now).stack }
    requires kept { kept_under state.now count ≡ summaries (names_under S.sees S.node sink.now state.now count) }
    ensures known { result ≡ all_open (names_under S.sees S.node sink.now state.now count) }
    ensures few { result.templates ≤ count }
{
    if count == 0 {
        AllOpen::none()
    } else {
        state.open_elems.elements.get(count - 1).summary.all
    }
}

// Recomputes the summary of the open element at a place; those of all older ones must be right.
fn renew_at<S: TreeSink>(sink: &S, state: &mut State<S::Handle>, place: usize)
    requires sound { Sound (world_of S.TreeSink sink.now state.old) }
    requires place { place < length (world_of S.TreeSink sink.now state.old).stack }
    requires few { place + 1 < 2 ^ 32 }
    requires kept { kept_under state.old place ≡ summaries (names_under S.sees S.node sink.now state.old place) }
    ensures world { world_of S.TreeSink sink.now state.new ≡ world_of S.TreeSink sink.now state.old }
    ensures kept { kept_under state.new (place + 1) ≡ summaries (names_under S.sees S.node sink.now state.new (place + 1)) }
    ensures newer { drop (place + 1) (elements_of state.new) ≡ drop (place + 1) (elements_of state.old) }
    ensures numbers { numbers state.new.open_elems.elements ≡ numbers state.old.open_elems.elements }
    ensures same { state.new.open_elems.numbers ≡ state.old.open_elems.numbers }
    ensures stamped { AreStamped S.node state.old.open_elems state.old.active_formatting → AreStamped S.node state.new.open_elems state.new.active_formatting }
{
    let all = all_under(sink, state, place);
    let former = state.open_elems.elements.get(place);
    let (handle, stamp) = (sink.clone_handle(&former.handle), former.stamp);
    let summary = Summary::new(sink.elem_name(&handle), all, place as u32);
    let element = OpenElement {
        handle,
        summary,
        stamp,
    };
    state.open_elems.elements.set(place, element);
}

/// Recomputes the summaries of the open elements from a place on; those of all older ones, and the numbers of all, must
/// be right.
pub fn renew_from<S: TreeSink>(sink: &S, state: &mut State<S::Handle>, first: usize)
    requires sound { Sound (world_of S.TreeSink sink.now state.old) }
    requires first { first ≤ length (world_of S.TreeSink sink.now state.old).stack }
    requires kept { kept_under state.old first ≡ summaries (names_under S.sees S.node sink.now state.old first) }
    requires numbered { map Some (reverse (numbers state.old.open_elems.elements)) ≡ map (name_number state.old.open_elems.numbers) (names_of (world_of S.TreeSink sink.now state.old)) }
    requires stamped { AreStamped S.node state.old.open_elems state.old.active_formatting }
    ensures world { world_of S.TreeSink sink.now state.new ≡ world_of S.TreeSink sink.now state.old }
    ensures sound { IsSound S.TreeSink sink.now state.new }
{
    let count = open_count(sink, state);
    let mut place = first;
    'up: while place < count {
        renew_at(sink, state, place);
        place += 1;
    }
}

/// Recomputes the summaries of the open elements from a place on, up to one that doesn't change. The summaries of all
/// older ones must be right, `before` must be what was known about as many others, and the summaries from there on must
/// be right over those.
pub fn renew_over<S: TreeSink>(
    sink: &S,
    state: &mut State<S::Handle>,
    first: usize,
    before: AllOpen,
)
    requires sound { Sound (world_of S.TreeSink sink.now state.old) }
    requires first { first ≤ length (world_of S.TreeSink sink.now state.old).stack }
    requires kept { kept_under state.old first ≡ summaries (names_under S.sees S.node sink.now state.old first) }
    requires over { (older : List NameText) × (before ≡ all_open older) × (length older ≡ first) × IsKeptOver S.node (S.sees sink.now).forest (drop first (elements_of state.old)) older }
    requires numbered { map Some (reverse (numbers state.old.open_elems.elements)) ≡ map (name_number state.old.open_elems.numbers) (names_of (world_of S.TreeSink sink.now state.old)) }
    requires stamped { AreStamped S.node state.old.open_elems state.old.active_formatting }
    ensures world { world_of S.TreeSink sink.now state.new ≡ world_of S.TreeSink sink.now state.old }
    ensures sound { IsSound S.TreeSink sink.now state.new }
{
    let count = open_count(sink, state);
    let mut place = first;
    let mut was = before;
    'up: while place < count && was != all_under(sink, state, place) {
        was = state.open_elems.elements.get(place).summary.all;
        renew_at(sink, state, place);
        place += 1;
    }
}
