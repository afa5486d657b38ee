//! Replaces open elements.
ghost use Rattle.std.specs.Prelude.{◌≡◌, ◌<◌, ◌≤◌, ◌+◌, ◌-◌, ◌^◌, ◌++◌, ℕ, All, OnErr, OnOk, drop, length, map, reverse, take, vec_len};
ghost use Rattle.h5_builder_state.specs.Numbered.{values};
ghost use Rattle.h5_interface.specs.Forest.{IsElement};
ghost use Rattle.h5_builder_spec.specs.Sound.{Sound};
ghost use Rattle.h5_builder_spec.specs.World.{names_of};
ghost use Rattle.h5_builder_spec.specs.stack.Order.{IsIn};
ghost use Rattle.h5_builder_state.specs.Replaced.{AreNumbered, IsPut, StayNumbered};
ghost use Rattle.h5_builder_state.specs.Stamps.{AreStamped, MayStandBelow, stamped_as, stamps_of};
ghost use Rattle.h5_builder_state.specs.Steps.{IsSound, world_of};
ghost use Rattle.h5_builder_state.specs.Summaries.{IsKept, summaries};
ghost use Rattle.h5_builder_state.specs.View.{elements_of, kept_under, names_under, open_node, stack_over, stack_under, with_stack};

use super::open_element::{OpenElement, Summary};
use super::renew::{all_under, renew_over};
use super::state::State;
use h5_interface::TreeSink;
use std::alloc::AllocError;

// An element with a stamp replaces the one at a place; the summaries of all older ones are right.
#[tactic(auto, unfolding(crate::specs::View::world))]
fn put_at<S: TreeSink>(
    sink: &S,
    state: &mut State<S::Handle>,
    place: usize,
    handle: S::Handle,
    stamp: u32,
) -> Result<(), AllocError>
    requires element { IsElement (S.sees sink.now).forest (S.node handle) }
    requires place { place < length (world_of S.TreeSink sink.now state.old).stack }
    requires few { place + 1 < 2 ^ 32 }
    requires kept { kept_under state.old place ≡ summaries (names_under S.sees S.node sink.now state.old place) }
    ensures ok { OnOk result (IsPut S.node (S.sees sink.now).forest (S.node handle) place stamp state.old.open_elems state.new.open_elems) }
    ensures err { OnErr result (state.new.open_elems.elements ≡ state.old.open_elems.elements) }
    ensures stay { StayNumbered state.old.open_elems.numbers state.new.open_elems.numbers }
    ensures last { state.new.open_elems.last ≡ state.old.open_elems.last }
    ensures listed { state.new.active_formatting ≡ state.old.active_formatting }
    ensures world { world_of S.TreeSink sink.now state.new ≡ with_stack (world_of S.TreeSink sink.now state.new).stack (world_of S.TreeSink sink.now state.old) }
{
    let all = all_under(sink, state, place);
    let name = sink.elem_name(&handle);
    let number = state.open_elems.numbers.number(name)?;
    let summary = Summary::new(name, all, place as u32);
    let element = OpenElement {
        handle,
        summary,
        stamp,
    };
    state.open_elems.elements.replace(place, number, element)?;
    Ok(())
}

// Elements with this stamp replace as many others, from a place on; the summaries of those above aren't recomputed yet.
#[tactic(auto, unfolding(crate::specs::View::world))]
fn put_all<S: TreeSink>(
    sink: &S,
    state: &mut State<S::Handle>,
    first: usize,
    handles: Vec<S::Handle>,
    stamp: u32,
) -> Result<(), AllocError>
    requires sound { IsSound S.TreeSink sink.now state.old }
    requires elements { (n : ℕ) → IsIn n (map S.node handles.items) → IsElement (S.sees sink.now).forest n }
    requires inside { first + vec_len handles ≤ length (world_of S.TreeSink sink.now state.old).stack }
    ensures ok { OnOk result (map (open_node S.node) (elements_of state.new)
        ≡ map (open_node S.node) (take first (elements_of state.old)) ++ (map S.node handles.items ++ map (open_node S.node) (drop (first + vec_len handles) (elements_of state.old)))) }
    ensures kept { OnOk result (kept_under state.new (first + vec_len handles) ≡ summaries (names_under S.sees S.node sink.now state.new (first + vec_len handles))) }
    ensures newer { OnOk result (drop (first + vec_len handles) (elements_of state.new) ≡ drop (first + vec_len handles) (elements_of state.old)) }
    ensures numbered { OnOk result (AreNumbered S.node (S.sees sink.now).forest state.new.open_elems) }
    ensures stamps { OnOk result (stamps_of S.node state.new.open_elems
        ≡ take first (stamps_of S.node state.old.open_elems) ++ (map (stamped_as S.node stamp) handles.items ++ drop (first + vec_len handles) (stamps_of S.node state.old.open_elems))) }
    ensures older { take first state.new.open_elems.elements ≡ take first state.old.open_elems.elements }
    ensures stay { StayNumbered state.old.open_elems.numbers state.new.open_elems.numbers }
    ensures last { state.new.open_elems.last ≡ state.old.open_elems.last }
    ensures listed { state.new.active_formatting ≡ state.old.active_formatting }
    ensures world { world_of S.TreeSink sink.now state.new ≡ with_stack (world_of S.TreeSink sink.now state.new).stack (world_of S.TreeSink sink.now state.old) }
{
    let mut place = first;
    for handle in handles {
        put_at(sink, state, place, handle, stamp)?;
        place += 1;
    }
    Ok(())
}

/// Replaces open elements from a place on by as many others, without notifying the sink. They get the stamp of the
/// newest of the replaced ones. It takes a step for each of them, and for each one above about which something else is
/// known then. Fails with `AllocError` if an allocation fails; then only the elements below the place stay.
#[tactic(auto, unfolding(crate::specs::View::world))]
pub fn replace_open<S: TreeSink>(
    sink: &S,
    state: &mut State<S::Handle>,
    place: usize,
    handles: Vec<S::Handle>,
) -> Result<(), AllocError>
    requires sound { IsSound S.TreeSink sink.now state.old }
    requires some { 0 < vec_len handles }
    requires inside { place + vec_len handles ≤ length (world_of S.TreeSink sink.now state.old).stack }
    requires below { All (MayStandBelow S.node (drop (place + vec_len handles - 1) (stamps_of S.node state.old.open_elems)) (map S.node handles.items)) state.old.active_formatting }
    requires stands { Sound (with_stack ((stack_over S.node state.old (place + vec_len handles) ++ reverse (map S.node handles.items)) ++ stack_under S.node state.old place) (world_of S.TreeSink sink.now state.old)) }
    ensures ok { OnOk result (world_of S.TreeSink sink.now state.new
        ≡ with_stack ((stack_over S.node state.old (place + vec_len handles) ++ reverse (map S.node handles.items)) ++ stack_under S.node state.old place) (world_of S.TreeSink sink.now state.old)) }
    ensures err { OnErr result (world_of S.TreeSink sink.now state.new ≡ with_stack (stack_under S.node state.old place) (world_of S.TreeSink sink.now state.old)) }
    ensures kept { IsKept state.new.open_elems (names_of (world_of S.TreeSink sink.now state.new)) }
    ensures stamped { AreStamped S.node state.new.open_elems state.new.active_formatting }
{
    let end = place + handles.len();
    let before = all_under(sink, state, end);
    let stamp = state.open_elems.elements.get(end - 1).stamp;
    match put_all(sink, state, place, handles, stamp) {
        Ok(()) => {
            renew_over(sink, state, end, before);
            Ok(())
        }
        Err(refused) => {
            state.open_elems.elements.truncate(place);
            Err(refused)
        }
    }
}
