//! The clones of elements between the formatting element and its furthest block.
ghost use Rattle.std.specs.Prelude.{◌≡◌, ◌≤◌, ◌<◌, ◌+◌, ◌∷◌, ℕ, List, IfOk, OnOk, length, map};
ghost use Rattle.h5_token.specs.TokenText.{tag_text};
ghost use Rattle.h5_builder_spec.specs.formatting.Adoption.{to_clone};
ghost use Rattle.h5_builder_spec.specs.formatting.AdoptionAgency.{IsLoose, nest, tag_in, wrapped, KeepsKinds};
ghost use Rattle.h5_builder_state.specs.Steps.{IsSound, errors_of, world_of};
ghost use Rattle.h5_builder_state.specs.View.{stack_under};
ghost use Rattle.h5_builder_actions.specs.Hanging.{IsLooseOver, nest_of, open_between, with_clone, with_clone_by};
ghost use Rattle.h5_builder_actions.specs.FormattingPlaces.{AreNodes};

use super::find::find_entry;
use super::hang::wrap;
use super::walk::entry_at;
use h5_builder_state::{State, handle_at};
use h5_interface::TreeSink;
use h5_tables::FormatEntry;
use h5_token::Tag;
use std::alloc::AllocError;

/// Clones around a node, the innermost first.
#[derive(Drop)]
pub struct Clones<Handle> {
    pub made: Vec<Handle>,
    /// The outermost clone, or the node itself if there are no clones.
    pub outermost: Handle,
}

// Creates a clone for this tag around the outermost one.
fn add_clone<S: TreeSink>(
    sink: &mut S,
    state: &State<S::Handle>,
    clones: &mut Clones<S::Handle>,
    tag: &Tag,
) -> Result<(), AllocError>
    requires sound { IsSound S.TreeSink sink.old state.now }
    requires may { IsLooseOver (world_of S.TreeSink sink.old state.now) (S.node clones.old.outermost) }
    ensures done { OnOk result (nest_of S.node (S.sees sink.new).forest clones.new ≡ with_clone S.choices (tag_text tag.now) (nest_of S.node (S.sees sink.old).forest clones.old)) }
    ensures quiet { errors_of S.TreeSink sink.new ≡ errors_of S.TreeSink sink.old }
    ensures quirks { OnOk result ((S.sees sink.new).quirks ≡ (S.sees sink.old).quirks) }
    ensures sound { IsSound S.TreeSink sink.new state.now }
    ensures kinds { KeepsKinds (S.sees sink.old).forest (S.sees sink.new).forest }
    ensures nodes { OnOk result (AreNodes (S.sees sink.old).forest (map S.node clones.old.made.items) → AreNodes (S.sees sink.new).forest (map S.node clones.new.made.items)) }
    ensures loose { OnOk result ((block : ℕ) → IsLoose (S.sees sink.old).forest (world_of S.TreeSink sink.old state.now).stack block (S.node clones.old.outermost)
        → IsLoose (S.sees sink.new).forest (world_of S.TreeSink sink.old state.now).stack block (S.node clones.new.outermost)) }
{
    let outer = wrap(sink, tag, &clones.outermost)?;
    let copy = sink.clone_handle(&outer);
    clones.outermost = outer;
    clones.made.push(copy)?;
    Ok(())
}

// Creates a clone for the tag with which the open element at a place is listed, if it is.
fn clone_at<S: TreeSink>(
    sink: &mut S,
    state: &State<S::Handle>,
    clones: &mut Clones<S::Handle>,
    place: usize,
) -> Result<(), AllocError>
    requires sound { IsSound S.TreeSink sink.old state.now }
    requires place { place < length (world_of S.TreeSink sink.old state.now).stack }
    requires may { IsLooseOver (world_of S.TreeSink sink.old state.now) (S.node clones.old.outermost) }
    ensures done { OnOk result ((n : ℕ) (older : List ℕ) → stack_under S.node state.now (place + 1) ≡ n ∷ older →
        nest_of S.node (S.sees sink.new).forest clones.new ≡ with_clone_by S.choices (tag_in (world_of S.TreeSink sink.old state.now).formatting n) (nest_of S.node (S.sees sink.old).forest clones.old)) }
    ensures quiet { errors_of S.TreeSink sink.new ≡ errors_of S.TreeSink sink.old }
    ensures quirks { OnOk result ((S.sees sink.new).quirks ≡ (S.sees sink.old).quirks) }
    ensures sound { IsSound S.TreeSink sink.new state.now }
    ensures kinds { KeepsKinds (S.sees sink.old).forest (S.sees sink.new).forest }
    ensures nodes { OnOk result (AreNodes (S.sees sink.old).forest (map S.node clones.old.made.items) → AreNodes (S.sees sink.new).forest (map S.node clones.new.made.items)) }
    ensures loose { OnOk result ((block : ℕ) → IsLoose (S.sees sink.old).forest (world_of S.TreeSink sink.old state.now).stack block (S.node clones.old.outermost)
        → IsLoose (S.sees sink.new).forest (world_of S.TreeSink sink.old state.now).stack block (S.node clones.new.outermost)) }
{
    match find_entry(sink, state, handle_at(sink, state, place)) {
        Some(at) => match entry_at(sink, state, at) {
            FormatEntry::Element(_, tag) => add_clone(sink, state, clones, tag),
            FormatEntry::Marker => Ok(()),
        },
        None => Ok(()),
    }
}

/// Creates clones around the furthest block, which is at the second place, of those elements between the first place
/// and the block that are listed and among the three nearest to it. Fails with `AllocError` if an allocation fails; the
/// clones made until then stay.
pub fn make_clones<S: TreeSink>(
    sink: &mut S,
    state: &State<S::Handle>,
    first: usize,
    block: usize,
) -> Result<Clones<S::Handle>, AllocError>
    requires sound { IsSound S.TreeSink sink.old state.now }
    requires first { 0 < first }
    requires between { first ≤ block }
    requires block { block < length (world_of S.TreeSink sink.old state.now).stack }
    ensures done { IfOk result (λ clones. (n : ℕ) (older : List ℕ) → stack_under S.node state.now (block + 1) ≡ n ∷ older →
        nest_of S.node (S.sees sink.new).forest clones ≡ nest S.choices (world_of S.TreeSink sink.old state.now).formatting
        (to_clone (world_of S.TreeSink sink.old state.now).formatting (open_between S.node state.now first block)) n (S.sees sink.old).forest) }
    ensures quiet { errors_of S.TreeSink sink.new ≡ errors_of S.TreeSink sink.old }
    ensures quirks { OnOk result ((S.sees sink.new).quirks ≡ (S.sees sink.old).quirks) }
    ensures sound { IsSound S.TreeSink sink.new state.now }
    ensures kinds { KeepsKinds (S.sees sink.old).forest (S.sees sink.new).forest }
    ensures nodes { IfOk result (λ clones. AreNodes (S.sees sink.new).forest (map S.node clones.made.items)) }
    ensures loose { IfOk result (λ clones. (n : ℕ) (older : List ℕ) → stack_under S.node state.now (block + 1) ≡ n ∷ older →
        IsLoose (S.sees sink.new).forest (world_of S.TreeSink sink.old state.now).stack n (S.node clones.outermost)) }
{
    let outermost = sink.clone_handle(handle_at(sink, state, block));
    let made = Vec::new(state.alloc);
    let mut clones = Clones { made, outermost };
    let mut place = block;
    let mut left: usize = 3;
    'near: while place > first && left > 0 {
        place -= 1;
        left -= 1;
        clone_at(sink, state, &mut clones, place)?;
    }
    Ok(clones)
}
