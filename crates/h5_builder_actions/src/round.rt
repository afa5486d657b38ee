//! A round of the adoption agency with a furthest block.
ghost use Rattle.std.specs.Prelude.{◌≡◌, ◌<◌, ◌+◌, ◌∷◌, ◌++◌, ℕ, List, IfOk, OnOk, length};
ghost use Rattle.h5_token.specs.TokenText.{TagText, tag_text};
ghost use Rattle.h5_interface.specs.Changes.{reparent};
ghost use Rattle.h5_interface.specs.Forest.{ChildNode};
ghost use Rattle.h5_interface.specs.Seen.{after_pop, changed, with_last_child};
ghost use Rattle.h5_builder_spec.specs.formatting.AdoptionAgency.{adopt, make_for, KeepsKinds};
ghost use Rattle.h5_builder_spec.specs.formatting.Adoption.{FormattingElement, FurthestBlock};
ghost use Rattle.h5_builder_spec.specs.formatting.FormattingList.{ElementEntry, Entry};
ghost use Rattle.h5_builder_spec.specs.stack.Order.{IsIn};
ghost use Rattle.h5_builder_state.specs.Steps.{IsSound, errors_of, world_of};
ghost use Rattle.h5_builder_state.specs.View.{stack_under};
ghost use Rattle.h5_builder_actions.specs.Rounds.{IsElementEntry, IsRound, SomeRound};

use super::clones::make_clones;
use super::moved_block::{move_block, refill};
use super::relisting::relist;
use super::stack::{restack, round_handles};
use super::walk::entry_at;
use h5_builder_state::{State, handle_at, open_at};
use h5_interface::TreeSink;
use h5_tables::FormatEntry;
use h5_token::Tag;
use std::alloc::AllocError;

// The tag of the element that is listed at a place.
fn tag_at<'a, S: TreeSink>(sink: &S, state: &'a State<S::Handle>, at: usize) -> &'a Tag
    requires { IsElementEntry at (world_of S.TreeSink sink.now state.now) }
    ensures { (newer older : List Entry) → (n : ℕ) → (tag : TagText) → (world_of S.TreeSink sink.now state.now).formatting ≡ newer ++ ElementEntry n tag ∷ older → at ≡ length older
        → tag_text result.now ≡ tag }
{
    match entry_at(sink, state, at) {
        FormatEntry::Element(_, tag) => tag,
        FormatEntry::Marker => unreachable!(),
    }
}

// Notifies the sink that the element at a place is popped.
fn tell_popped<S: TreeSink>(sink: &mut S, state: &State<S::Handle>, place: usize)
    requires sound { IsSound S.TreeSink sink.old state.now }
    requires place { place < length (world_of S.TreeSink sink.old state.now).stack }
    ensures told { (n : ℕ) → (older : List ℕ) → stack_under S.node state.now (place + 1) ≡ n ∷ older → S.sees sink.new ≡ after_pop S.choices n (S.sees sink.old) }
    ensures quiet { errors_of S.TreeSink sink.new ≡ errors_of S.TreeSink sink.old }
    ensures sound { IsSound S.TreeSink sink.new state.now }
    ensures kinds { KeepsKinds (S.sees sink.old).forest (S.sees sink.new).forest }
{
    sink.pop(&open_at(sink, state, place).handle);
}

/// A round of the adoption agency. The furthest block, at its place, moves with the clones of elements between to the
/// place that the standard gives; its children move below a clone of the formatting element, at its place; list and
/// stack change accordingly. Fails with `AllocError` if an allocation fails; the changes made until then stay.
pub fn adopt<S: TreeSink>(
    sink: &mut S,
    state: &mut State<S::Handle>,
    at: usize,
    place: usize,
    block: usize,
) -> Result<(), AllocError>
    requires sound { IsSound S.TreeSink sink.old state.old }
    requires round { SomeRound place at block (world_of S.TreeSink sink.old state.old) }
    ensures done { OnOk result ((name : List ℕ) → (f : FormattingElement) → (k : FurthestBlock) → IsRound name f k place at block (world_of S.TreeSink sink.old state.old)
        → world_of S.TreeSink sink.new state.new ≡ adopt S.choices f k (world_of S.TreeSink sink.old state.old)) }
    ensures quiet { errors_of S.TreeSink sink.new ≡ errors_of S.TreeSink sink.old }
    ensures sound { IsSound S.TreeSink sink.new state.new }
{
    let clones = make_clones(sink, state, place + 1, block)?;
    move_block(sink, state, place, &clones.outermost)?;
    let tag = tag_at(sink, state, at);
    let clone = refill(sink, state, tag, handle_at(sink, state, block))?;
    tell_popped(sink, state, place);
    let handles = round_handles(sink, state, block, &clones.made, &clone)?;
    relist(sink, state, at, place + 1, block, &clones.made, clone);
    restack(sink, state, place, block, handles)
}
