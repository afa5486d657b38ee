//! Reconstructs the active formatting elements.
ghost use Rattle.std.specs.Prelude.{◌≡◌, ◌<◌, ◌≤◌, ℕ, length, OnOk, vec_len};
ghost use Rattle.h5_builder_spec.specs.formatting.FormattingList.{open_rest};
ghost use Rattle.h5_builder_spec.specs.Rows.{ReconstructActiveFormattingElements};
ghost use Rattle.h5_builder_actions.specs.EntryPlaces.{entry_at, is_staying, renewed, with_node_at};
ghost use Rattle.h5_builder_state.specs.Listed.{entries_of};
ghost use Rattle.h5_builder_state.specs.Steps.{IsSound, MakesIfOk, errors_of, world_of};

use super::walk::entry_count;
use crate::insert_element;
use h5_builder_state::{Listed, State, current_listed, find_listed};
use h5_interface::TreeSink;
use h5_tables::FormatEntry;
use std::alloc::AllocError;

// Sets the place of the element of an entry. A marker stays as it is.
#[tactic(auto, unfolding(h5_builder_state::specs::View::world))]
fn set_place<S: TreeSink>(sink: &S, state: &mut State<S::Handle>, at: usize, place: usize)
    requires sound { IsSound S.TreeSink sink.now state.old }
    requires at { at < length (world_of S.TreeSink sink.now state.old).formatting }
    ensures world { world_of S.TreeSink sink.now state.new ≡ world_of S.TreeSink sink.now state.old }
    ensures stack { state.new.open_elems ≡ state.old.open_elems }
    ensures sound { IsSound S.TreeSink sink.now state.new }
{
    if let FormatEntry::Element(listed, _) = state.active_formatting.get(at) {
        let element = Listed {
            handle: sink.clone_handle(&listed.handle),
            stamp: listed.stamp,
            place,
        };
        state.active_formatting.set_handle(at, element);
    }
}

// The entry at a place stays: it is a marker, or its element is open. If the element is at another place than the entry
// has, the entry gets that place, so that the next search takes one step.
#[tactic(auto, unfolding(h5_builder_state::specs::View::world))]
fn stays_at<S: TreeSink>(sink: &S, state: &mut State<S::Handle>, at: usize) -> bool
    requires sound { IsSound S.TreeSink sink.now state.old }
    requires at { at < length (world_of S.TreeSink sink.now state.old).formatting }
    ensures stays { result ≡ is_staying (world_of S.TreeSink sink.now state.old).stack (entry_at at (world_of S.TreeSink sink.now state.old).formatting) }
    ensures world { world_of S.TreeSink sink.now state.new ≡ world_of S.TreeSink sink.now state.old }
    ensures stack { state.new.open_elems ≡ state.old.open_elems }
    ensures sound { IsSound S.TreeSink sink.now state.new }
{
    let FormatEntry::Element(listed, _) = state.active_formatting.get(at) else {
        return true;
    };
    let said = listed.place;
    match find_listed(sink, state, listed) {
        Some(place) => {
            if place != said {
                set_place(sink, state, at, place);
            }
            true
        }
        None => false,
    }
}

// The number of entries that stay: the oldest ones, up to the last marker or the last open element. Entries may get
// other places for their elements.
fn count_staying<S: TreeSink>(sink: &S, state: &mut State<S::Handle>) -> usize
    requires { IsSound S.TreeSink sink.now state.old }
    ensures count { result ≡ length (open_rest (world_of S.TreeSink sink.now state.old).stack (world_of S.TreeSink sink.now state.old).formatting) }
    ensures world { world_of S.TreeSink sink.now state.new ≡ world_of S.TreeSink sink.now state.old }
    ensures stack { state.new.open_elems ≡ state.old.open_elems }
    ensures sound { IsSound S.TreeSink sink.now state.new }
{
    let mut place = entry_count(sink, state);
    'rewind: while place > 0 {
        if stays_at(sink, state, place - 1) {
            return place;
        }
        place -= 1;
    }
    0
}

// Inserts a new element for the entry at a place.
#[tactic(auto, unfolding(h5_builder_state::specs::View::world))]
fn make_anew<S: TreeSink>(
    sink: &mut S,
    state: &mut State<S::Handle>,
    place: usize,
) -> Result<(), AllocError>
    requires sound { IsSound S.TreeSink sink.old state.old }
    requires place { place < length (world_of S.TreeSink sink.old state.old).formatting }
    ensures world { OnOk result (world_of S.TreeSink sink.new state.new ≡ renewed S.choices place (world_of S.TreeSink sink.old state.old)) }
    ensures quiet { errors_of S.TreeSink sink.new ≡ errors_of S.TreeSink sink.old }
    ensures sound { IsSound S.TreeSink sink.new state.new }
{
    if let FormatEntry::Element(_, tag) = state.active_formatting.get(place) {
        let copy = tag.clone()?;
        insert_element(
            sink,
            state,
            copy.name,
            copy.attrs,
            copy.had_duplicate_attributes,
        )?;
        let current = current_listed(sink, state);
        state.active_formatting.set_handle(place, current);
    }
    Ok(())
}

/// Inserts new elements for the entries after the last marker and after the last open element, the oldest first. Fails
/// with `AllocError` if an allocation fails; the elements made until then stay.
pub fn reconstruct_active_formatting_elements<S: TreeSink>(
    sink: &mut S,
    state: &mut State<S::Handle>,
) -> Result<(), AllocError>
    requires { IsSound S.TreeSink sink.old state.old }
    ensures { MakesIfOk S.TreeSink ReconstructActiveFormattingElements sink.old state.old sink.new state.new result }
{
    let first = count_staying(sink, state);
    for place in first..state.active_formatting.len() {
        make_anew(sink, state, place)?;
    }
    Ok(())
}
