//! The stack of open elements after a round of the adoption agency.
ghost use Rattle.std.specs.Prelude.{◌≡◌, ◌<◌, ◌≤◌, ◌+◌, ◌-◌, ◌∷◌, ◌++◌, ℕ, All, List, IfOk, OnOk, drop, length, map, reverse, vec_len};
ghost use Rattle.h5_interface.specs.Forest.{IsNode};
ghost use Rattle.h5_builder_spec.specs.Sound.{AllStand, Sound};
ghost use Rattle.h5_builder_state.specs.Stamps.{MayStandBelow, stamps_of};
ghost use Rattle.h5_builder_state.specs.Steps.{Becomes, BecomesIfOk, IsSound, world_of};
ghost use Rattle.h5_builder_state.specs.View.{stack_over, stack_under, with_stack};
ghost use Rattle.h5_builder_actions.specs.FormattingPlaces.{AreNodes};

use h5_builder_state::{State, handle_at, open_count, push_open, replace_open, truncate};
use h5_interface::TreeSink;
use std::alloc::AllocError;

// Clones are pushed, the last of them first.
fn push_clones<S: TreeSink>(
    sink: &S,
    clones: &Vec<S::Handle>,
    handles: &mut Vec<S::Handle>,
) -> Result<(), AllocError>
    requires { AreNodes (S.sees sink.now).forest (map S.node clones.now.items) }
    ensures { OnOk result (reverse (map S.node handles.new.items) ≡ map S.node clones.now.items ++ reverse (map S.node handles.old.items)) }
{
    let mut left = clones.len();
    'down: while left > 0 {
        left -= 1;
        handles.push(sink.clone_handle(&clones[left]))?;
    }
    Ok(())
}

// The open elements above a place are pushed, the oldest first.
fn push_newer<S: TreeSink>(
    sink: &S,
    state: &State<S::Handle>,
    block: usize,
    handles: &mut Vec<S::Handle>,
) -> Result<(), AllocError>
    requires sound { IsSound S.TreeSink sink.now state.now }
    requires block { block < length (world_of S.TreeSink sink.now state.now).stack }
    ensures { OnOk result (reverse (map S.node handles.new.items) ≡ stack_over S.node state.now (block + 1) ++ reverse (map S.node handles.old.items)) }
{
    let count = open_count(sink, state);
    let mut place = block + 1;
    'up: while place < count {
        handles.push(sink.clone_handle(handle_at(sink, state, place)))?;
        place += 1;
    }
    Ok(())
}

/// Returns the handles that a round puts between the older elements and those above the block, the oldest first: the
/// clones, the last of them first, the block, which is at a place, and the clone of the formatting element. Fails with
/// `AllocError` if an allocation fails.
pub fn round_handles<S: TreeSink>(
    sink: &S,
    state: &State<S::Handle>,
    block: usize,
    clones: &Vec<S::Handle>,
    clone: &S::Handle,
) -> Result<Vec<S::Handle>, AllocError>
    requires sound { IsSound S.TreeSink sink.now state.now }
    requires block { block < length (world_of S.TreeSink sink.now state.now).stack }
    requires clones { AreNodes (S.sees sink.now).forest (map S.node clones.now.items) }
    requires clone { IsNode (S.sees sink.now).forest (S.node clone.now) }
    ensures { IfOk result (λ handles. (b : ℕ) → (older : List ℕ) → stack_under S.node state.now (block + 1) ≡ b ∷ older
        → reverse (map S.node handles.items) ≡ S.node clone.now ∷ b ∷ map S.node clones.now.items) }
{
    let mut handles = Vec::new(state.alloc);
    push_clones(sink, clones, &mut handles)?;
    handles.push(sink.clone_handle(handle_at(sink, state, block)))?;
    handles.push(sink.clone_handle(clone))?;
    Ok(handles)
}

// Keeps the `count` oldest elements. The sink isn't notified.
fn keep_oldest<S: TreeSink>(sink: &S, state: &mut State<S::Handle>, count: usize)
    requires { IsSound S.TreeSink sink.now state.old }
    ensures { Becomes S.TreeSink (λ w. record w { stack = stack_under S.node state.old count }) sink.now state.old sink.now state.new }
{
    truncate(sink, state, count);
}

// Replaces the elements from a place on by these, the oldest first. If an allocation fails, only some of them are on
// the stack.
fn reopen<S: TreeSink>(
    sink: &S,
    state: &mut State<S::Handle>,
    place: usize,
    handles: Vec<S::Handle>,
) -> Result<(), AllocError>
    requires sound { IsSound S.TreeSink sink.now state.old }
    requires stands { AllStand (world_of S.TreeSink sink.now state.old).forest (reverse (map S.node handles.items) ++ stack_under S.node state.old place) (world_of S.TreeSink sink.now state.old).formatting
        (world_of S.TreeSink sink.now state.old).head (world_of S.TreeSink sink.now state.old).form (world_of S.TreeSink sink.now state.old).context }
    ensures { BecomesIfOk S.TreeSink (λ w. record w { stack = reverse (map S.node handles.items) ++ stack_under S.node state.old place }) sink.now state.old sink.now state.new result }
{
    keep_oldest(sink, state, place);
    for handle in handles {
        push_open(sink, state, handle)?;
    }
    Ok(())
}

// Replaces as many elements from a place on by these; those above stay. If an allocation fails, only the elements below
// the place are on the stack.
fn replace<S: TreeSink>(
    sink: &S,
    state: &mut State<S::Handle>,
    place: usize,
    handles: Vec<S::Handle>,
) -> Result<(), AllocError>
    requires sound { IsSound S.TreeSink sink.now state.old }
    requires some { 0 < vec_len handles }
    requires inside { place + vec_len handles ≤ length (world_of S.TreeSink sink.now state.old).stack }
    requires below { All (MayStandBelow S.node (drop (place + vec_len handles - 1) (stamps_of S.node state.old.open_elems)) (map S.node handles.items)) state.old.active_formatting }
    requires stands { Sound (with_stack ((stack_over S.node state.old (place + vec_len handles) ++ reverse (map S.node handles.items)) ++ stack_under S.node state.old place) (world_of S.TreeSink sink.now state.old)) }
    ensures { BecomesIfOk S.TreeSink (with_stack ((stack_over S.node state.old (place + vec_len handles) ++ reverse (map S.node handles.items)) ++ stack_under S.node state.old place)) sink.now state.old sink.now state.new result }
{
    replace_open(sink, state, place, handles)
}

/// Replaces the elements from a place up to that of the block by these, the oldest first; those above the block stay
/// above them, at the same places if the numbers are equal. Fails with `AllocError` if an allocation fails; then some
/// elements may be missing.
pub fn restack<S: TreeSink>(
    sink: &S,
    state: &mut State<S::Handle>,
    place: usize,
    block: usize,
    mut handles: Vec<S::Handle>,
) -> Result<(), AllocError>
    requires sound { IsSound S.TreeSink sink.now state.old }
    requires place { place ≤ block }
    requires block { block < length (world_of S.TreeSink sink.now state.old).stack }
    requires below { All (MayStandBelow S.node (drop block (stamps_of S.node state.old.open_elems)) (map S.node handles.items)) state.old.active_formatting }
    requires stands { Sound (with_stack ((stack_over S.node state.old (block + 1) ++ reverse (map S.node handles.items)) ++ stack_under S.node state.old place) (world_of S.TreeSink sink.now state.old)) }
    ensures { BecomesIfOk S.TreeSink (with_stack ((stack_over S.node state.old (block + 1) ++ reverse (map S.node handles.items)) ++ stack_under S.node state.old place)) sink.now state.old sink.now state.new result }
{
    if handles.len() == block + 1 - place {
        replace(sink, state, place, handles)
    } else {
        push_newer(sink, state, block, &mut handles)?;
        reopen(sink, state, place, handles)
    }
}
