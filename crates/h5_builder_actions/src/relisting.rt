//! The list of active formatting elements after a round of the adoption agency.
ghost use Rattle.std.specs.Prelude.{◌≡◌, ◌<◌, ◌≤◌, ◌+◌, ◌-◌, ◌∷◌, ◌++◌, ℕ, zero, suc, List, IsOk, drop, length, map, take};
ghost use Rattle.h5_token.specs.TokenText.{TagText};
ghost use Rattle.h5_interface.specs.Forest.{IsNode};
ghost use Rattle.h5_builder_spec.specs.formatting.Adoption.{FormattingElement, round_list};
ghost use Rattle.h5_builder_spec.specs.formatting.FormattingList.{ElementEntry, Entry, nodes_of};
ghost use Rattle.h5_builder_spec.specs.formatting.InnerLoop.{walked};
ghost use Rattle.h5_builder_spec.specs.stack.Order.{IsIn};
ghost use Rattle.h5_builder_state.specs.Steps.{Becomes, IsSound, world_of};
ghost use Rattle.h5_builder_state.specs.View.{stack_under};
ghost use Rattle.h5_builder_actions.specs.Relists.{Relists};
ghost use Rattle.h5_builder_actions.specs.Restacks.{MayRestack};
ghost use Rattle.h5_builder_actions.specs.Rounds.{IsElementEntry};
ghost use Rattle.h5_builder_actions.specs.FormattingPlaces.{AreNodes};

use super::find::find_entry;
use super::walk::listed_at;
use h5_builder_state::{Listed, State, handle_at};
use h5_interface::TreeSink;

// The entry at a place gets another element, with the place at which that is put, and keeps its tag and its stamp.
fn swap_entry<S: TreeSink>(
    sink: &S,
    state: &mut State<S::Handle>,
    at: usize,
    handle: S::Handle,
    stands: usize,
)
    requires { IsElementEntry at (world_of S.TreeSink sink.now state.old) }
    ensures done { (newer older : List Entry) → (n : ℕ) → (tag : TagText) → (world_of S.TreeSink sink.now state.old).formatting ≡ newer ++ ElementEntry n tag ∷ older → at ≡ length older
        → world_of S.TreeSink sink.now state.new ≡ record (world_of S.TreeSink sink.now state.old) { formatting = newer ++ ElementEntry (S.node handle) tag ∷ older } }
    ensures stack { state.new.open_elems ≡ state.old.open_elems }
    ensures restack { (block place : ℕ) (ns below : List ℕ) (newer older : List Entry) (n : ℕ) (tag : TagText) → (world_of S.TreeSink sink.now state.old).formatting ≡ newer ++ ElementEntry n tag ∷ older → at ≡ length older
        → stack_under S.node state.old (place + 1) ≡ n ∷ below → place ≤ block → ¬ (IsIn (S.node handle) (world_of S.TreeSink sink.now state.old).stack)
        → MayRestack S.node state.old.open_elems block ns state.old.active_formatting → MayRestack S.node state.old.open_elems block ns state.new.active_formatting }
{
    let stamp = listed_at(sink, state, at).stamp;
    let element = Listed {
        handle,
        stamp,
        place: stands,
    };
    state.active_formatting.set_handle(at, element);
}

/// Removes the entry at a place.
pub fn drop_entry<S: TreeSink>(sink: &S, state: &mut State<S::Handle>, at: usize)
    requires { at < length (world_of S.TreeSink sink.now state.old).formatting }
    ensures done { (newer older : List Entry) → (e : Entry) → (world_of S.TreeSink sink.now state.old).formatting ≡ newer ++ e ∷ older → at ≡ length older
        → world_of S.TreeSink sink.now state.new ≡ record (world_of S.TreeSink sink.now state.old) { formatting = newer ++ older } }
    ensures stack { state.new.open_elems ≡ state.old.open_elems }
    ensures restack { (block : ℕ) (ns : List ℕ) → MayRestack S.node state.old.open_elems block ns state.old.active_formatting → MayRestack S.node state.old.open_elems block ns state.new.active_formatting }
{
    let _ = state.active_formatting.remove(at);
}

// Moves the entry at a place right above the entry at another place, which is higher.
fn move_entry<S: TreeSink>(sink: &S, state: &mut State<S::Handle>, from: usize, to: usize)
    requires order { from ≤ to }
    requires to { to < length (world_of S.TreeSink sink.now state.old).formatting }
    ensures done { (newer middle older : List Entry) → (e x : Entry) → (world_of S.TreeSink sink.now state.old).formatting ≡ newer ++ x ∷ (middle ++ e ∷ older) → from ≡ length older → to ≡ length (middle ++ e ∷ older)
        → world_of S.TreeSink sink.now state.new ≡ record (world_of S.TreeSink sink.now state.old) { formatting = newer ++ e ∷ x ∷ (middle ++ older) } }
    ensures stack { state.new.open_elems ≡ state.old.open_elems }
    ensures restack { (block : ℕ) (ns : List ℕ) → MayRestack S.node state.old.open_elems block ns state.old.active_formatting → MayRestack S.node state.old.open_elems block ns state.new.active_formatting }
{
    state.active_formatting.move_up(from, to);
}

// Moves the entry at a place right above that of an element, which is higher.
fn move_above<S: TreeSink>(sink: &S, state: &mut State<S::Handle>, from: usize, handle: &S::Handle)
    requires from { from < length (world_of S.TreeSink sink.now state.old).formatting }
    requires listed { AreNodes (S.sees sink.now).forest (nodes_of (world_of S.TreeSink sink.now state.old).formatting) }
    requires handle { IsNode (S.sees sink.now).forest (S.node handle.now) }
    ensures done { (newer middle older : List Entry) → (tag : TagText) → (e : Entry) → (world_of S.TreeSink sink.now state.old).formatting ≡ newer ++ ElementEntry (S.node handle.now) tag ∷ (middle ++ e ∷ older)
        → ¬ (IsIn (S.node handle.now) (nodes_of newer)) → from ≡ length older
        → world_of S.TreeSink sink.now state.new ≡ record (world_of S.TreeSink sink.now state.old) { formatting = newer ++ e ∷ ElementEntry (S.node handle.now) tag ∷ (middle ++ older) } }
    ensures stack { state.new.open_elems ≡ state.old.open_elems }
    ensures restack { (block : ℕ) (ns : List ℕ) → MayRestack S.node state.old.open_elems block ns state.old.active_formatting → MayRestack S.node state.old.open_elems block ns state.new.active_formatting }
{
    if let Some(to) = find_entry(sink, state, handle) {
        if from <= to {
            move_entry(sink, state, from, to);
        }
    }
}

// A listed element between the formatting element and the furthest block gives its entry to the next clone, if there is
// one. Returns the number of clones used then. The clones are put below the new place of the block, the first one
// highest.
fn relist_near<S: TreeSink>(
    sink: &S,
    state: &mut State<S::Handle>,
    place: usize,
    clones: &Vec<S::Handle>,
    used: usize,
    new_block: usize,
) -> usize
    requires place { place < length (world_of S.TreeSink sink.now state.old).stack }
    requires used { used ≤ length clones.now.items }
    requires clones { AreNodes (S.sees sink.now).forest (map S.node clones.now.items) }
    requires open { AreNodes (S.sees sink.now).forest (world_of S.TreeSink sink.now state.old).stack }
    requires unopened { (n : ℕ) → IsIn n (map S.node clones.now.items) → ¬ (IsIn n (world_of S.TreeSink sink.now state.old).stack) }
    requires listed { AreNodes (S.sees sink.now).forest (nodes_of (world_of S.TreeSink sink.now state.old).formatting) }
    ensures listed { AreNodes (S.sees sink.now).forest (nodes_of (world_of S.TreeSink sink.now state.new).formatting) }
    ensures used { result ≤ length clones.now.items }
    ensures walked { (n : ℕ) → (older : List ℕ) → stack_under S.node state.old (place + 1) ≡ n ∷ older → (k : ℕ) → (ns : List ℕ)
        → walked (suc k) (n ∷ ns) (drop used (map S.node clones.now.items)) (world_of S.TreeSink sink.now state.old).formatting
        ≡ walked k ns (drop result (map S.node clones.now.items)) (world_of S.TreeSink sink.now state.new).formatting }
    ensures world { world_of S.TreeSink sink.now state.new ≡ record (world_of S.TreeSink sink.now state.old) { formatting = (world_of S.TreeSink sink.now state.new).formatting } }
    ensures stack { state.new.open_elems ≡ state.old.open_elems }
    ensures restack { (block : ℕ) (ns : List ℕ) → place ≤ block → MayRestack S.node state.old.open_elems block ns state.old.active_formatting → MayRestack S.node state.old.open_elems block ns state.new.active_formatting }
{
    match find_entry(sink, state, handle_at(sink, state, place)) {
        Some(at) if used < clones.len() => {
            swap_entry(
                sink,
                state,
                at,
                sink.clone_handle(&clones[used]),
                new_block.saturating_sub(used + 1),
            );
            used + 1
        }
        _ => used,
    }
}

// A listed element between the two that isn't near to the furthest block is removed from the list.
fn relist_far<S: TreeSink>(sink: &S, state: &mut State<S::Handle>, place: usize)
    requires place { place < length (world_of S.TreeSink sink.now state.old).stack }
    requires open { AreNodes (S.sees sink.now).forest (world_of S.TreeSink sink.now state.old).stack }
    requires listed { AreNodes (S.sees sink.now).forest (nodes_of (world_of S.TreeSink sink.now state.old).formatting) }
    ensures listed { AreNodes (S.sees sink.now).forest (nodes_of (world_of S.TreeSink sink.now state.new).formatting) }
    ensures walked { (n : ℕ) → (older : List ℕ) → stack_under S.node state.old (place + 1) ≡ n ∷ older → (ns ys : List ℕ)
        → walked zero (n ∷ ns) ys (world_of S.TreeSink sink.now state.old).formatting ≡ walked zero ns ys (world_of S.TreeSink sink.now state.new).formatting }
    ensures world { world_of S.TreeSink sink.now state.new ≡ record (world_of S.TreeSink sink.now state.old) { formatting = (world_of S.TreeSink sink.now state.new).formatting } }
    ensures stack { state.new.open_elems ≡ state.old.open_elems }
    ensures restack { (block : ℕ) (ns : List ℕ) → MayRestack S.node state.old.open_elems block ns state.old.active_formatting → MayRestack S.node state.old.open_elems block ns state.new.active_formatting }
{
    if let Some(at) = find_entry(sink, state, handle_at(sink, state, place)) {
        drop_entry(sink, state, at);
    }
}

// Handles all elements between, from the one nearest to the furthest block on. The clones are put below the new place
// of the block.
fn relist_between<S: TreeSink>(
    sink: &S,
    state: &mut State<S::Handle>,
    first: usize,
    block: usize,
    clones: &Vec<S::Handle>,
    new_block: usize,
)
    requires block { block ≤ length (world_of S.TreeSink sink.now state.old).stack }
    requires clones { AreNodes (S.sees sink.now).forest (map S.node clones.now.items) }
    requires open { AreNodes (S.sees sink.now).forest (world_of S.TreeSink sink.now state.old).stack }
    requires unopened { (n : ℕ) → IsIn n (map S.node clones.now.items) → ¬ (IsIn n (world_of S.TreeSink sink.now state.old).stack) }
    requires listed { AreNodes (S.sees sink.now).forest (nodes_of (world_of S.TreeSink sink.now state.old).formatting) }
    ensures listed { AreNodes (S.sees sink.now).forest (nodes_of (world_of S.TreeSink sink.now state.new).formatting) }
    ensures world { world_of S.TreeSink sink.now state.new ≡ record (world_of S.TreeSink sink.now state.old) {
      formatting = walked 3 (take (block - first) (stack_under S.node state.old block)) (map S.node clones.now.items) (world_of S.TreeSink sink.now state.old).formatting;
    } }
    ensures stack { state.new.open_elems ≡ state.old.open_elems }
    ensures restack { (ns : List ℕ) → MayRestack S.node state.old.open_elems block ns state.old.active_formatting → MayRestack S.node state.old.open_elems block ns state.new.active_formatting }
{
    let mut place = block;
    let mut used = 0;
    'down: while place > first {
        place -= 1;
        if block - place <= 3 {
            used = relist_near(sink, state, place, clones, used, new_block);
        } else {
            relist_far(sink, state, place);
        }
    }
}

/// Changes the list in a round: the elements between give their entries to their clones or are removed; the formatting
/// element's entry becomes that of its clone, and moves right above that of the first of the clones.
pub fn relist<S: TreeSink>(
    sink: &S,
    state: &mut State<S::Handle>,
    at: usize,
    first: usize,
    block: usize,
    clones: &Vec<S::Handle>,
    clone: S::Handle,
)
    requires sound { IsSound S.TreeSink sink.now state.old }
    requires clones { AreNodes (S.sees sink.now).forest (map S.node clones.now.items) }
    requires clone { IsNode (S.sees sink.now).forest (S.node clone) }
    requires relists { (f : FormattingElement) × (between : List ℕ) × Relists f between (map S.node clones.now.items) (S.node clone) at first block (world_of S.TreeSink sink.now state.old) }
    ensures done { (f : FormattingElement) → (between : List ℕ) → Relists f between (map S.node clones.now.items) (S.node clone) at first block (world_of S.TreeSink sink.now state.old)
        → Becomes S.TreeSink (λ w. record w { formatting = round_list f.node f.tag between (map S.node clones.now.items) (S.node clone) w.formatting }) sink.now state.old sink.now state.new }
    ensures stack { state.new.open_elems ≡ state.old.open_elems }
    ensures restack { MayRestack S.node state.old.open_elems block (S.node clone ∷ map S.node clones.now.items) state.new.active_formatting }
{
    // Above the older elements are then the clones, the block, and the clone of the formatting element.
    let new_block = first.saturating_sub(1).saturating_add(clones.len());
    relist_between(sink, state, first, block, clones, new_block);
    swap_entry(sink, state, at, clone, new_block.saturating_add(1));
    if !clones.is_empty() {
        move_above(sink, state, at, &clones[0]);
    }
}
