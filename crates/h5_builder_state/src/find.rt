//! Finds an open element on the stack by its handle.
ghost use Rattle.std.specs.Prelude.{◌≡◌, ◌<◌, ◌+◌, ◌∷◌, ℕ, false, true, MatchOption, Some, is_some, length};
ghost use Rattle.h5_interface.specs.Forest.{IsElement};
ghost use Rattle.h5_tables.specs.TagSets.{is_default_scope};
ghost use Rattle.h5_builder_spec.specs.stack.Order.{IsIn, is_in};
ghost use Rattle.h5_builder_spec.specs.stack.Scope.{node_in_scope};
ghost use Rattle.h5_builder_spec.specs.World.{name_in, names_of};
ghost use Rattle.h5_builder_state.specs.Numbers.{name_number};
ghost use Rattle.h5_builder_state.specs.OpenPlaces.{IsOpenAt};
ghost use Rattle.h5_builder_state.specs.Stamps.{IsAbove, stamps_of};
ghost use Rattle.h5_builder_state.specs.Steps.{IsSound, world_of};
ghost use Rattle.h5_builder_state.specs.View.{stack_under};

use super::open_element::Listed;
use super::open_elems::{open_at, open_count};
use super::state::State;
use h5_interface::TreeSink;
use h5_tables::default_scope;

/// Returns the handle of the open element at a place, which must be less than the number of open elements.
#[tactic(auto, unfolding(crate::specs::View::world, crate::specs::View::stack_under))]
pub fn handle_at<'a, S: TreeSink>(
    sink: &S,
    state: &'a State<S::Handle>,
    place: usize,
) -> &'a S::Handle
    requires { place < length (world_of S.TreeSink sink.now state.now).stack }
    ensures stack { stack_under S.node state.now (place + 1) ≡ S.node result.now ∷ stack_under S.node state.now place }
    ensures count { length (stack_under S.node state.now place) ≡ place }
    ensures open { IsIn (S.node result.now) (world_of S.TreeSink sink.now state.now).stack }
{
    &state.open_elems.elements.get(place).handle
}

// The open element at a place has a lower stamp than `since`. Then an element above all elements with a lower stamp is
// open neither there nor below.
#[tactic(auto, unfolding(crate::specs::View::world, crate::specs::View::stack_under))]
fn is_lower<S: TreeSink>(sink: &S, state: &State<S::Handle>, place: usize, since: u32) -> bool
    requires { place < length (world_of S.TreeSink sink.now state.now).stack }
    ensures { (n : ℕ) → IsAbove n since (stamps_of S.node state.now.open_elems) → result ≡ true → is_in n (stack_under S.node state.now (place + 1)) ≡ false }
{
    state.open_elems.elements.get(place).stamp < since
}

// With at most this many open elements, each is compared: that takes less than getting the name and its number.
const FEW: usize = 16;

// The place of an open element; the walk begins at the current node, and ends at an element with a lower stamp than
// `since`.
#[tactic(auto, using(h5_builder_spec::proofs::changes::SoundLaws::element_is_node))]
fn find_among_all<S: TreeSink>(
    sink: &S,
    state: &State<S::Handle>,
    handle: &S::Handle,
    since: u32,
) -> Option<usize>
    requires sound { IsSound S.TreeSink sink.now state.now }
    requires element { IsElement (S.sees sink.now).forest (S.node handle.now) }
    requires above { IsAbove (S.node handle.now) since (stamps_of S.node state.now.open_elems) }
    ensures found { is_some result ≡ is_in (S.node handle.now) (world_of S.TreeSink sink.now state.now).stack }
    ensures place { MatchOption result (Unit {0}) (λ place. IsOpenAt (S.node handle.now) place (world_of S.TreeSink sink.now state.now)) }
    ensures inside { MatchOption result (Unit {0}) (λ place. place < length (world_of S.TreeSink sink.now state.now).stack) }
{
    let mut place = open_count(sink, state);
    'down: while place > 0 {
        place -= 1;
        if sink.same_node(handle_at(sink, state, place), handle) {
            return Some(place);
        }
        if is_lower(sink, state, place, since) {
            return None;
        }
    }
    None
}

// The place of an open element whose name has this number: the walk goes from the newest open element of the number to
// older ones, and ends at one with a lower stamp than `since`.
#[tactic(auto, using(h5_builder_spec::proofs::changes::SoundLaws::element_is_node))]
fn find_numbered<S: TreeSink>(
    sink: &S,
    state: &State<S::Handle>,
    handle: &S::Handle,
    number: u32,
    since: u32,
) -> Option<usize>
    requires sound { IsSound S.TreeSink sink.now state.now }
    requires element { IsElement (S.sees sink.now).forest (S.node handle.now) }
    requires number { name_number state.now.open_elems.numbers (name_in (S.sees sink.now).forest (S.node handle.now)) ≡ Some number }
    requires above { IsAbove (S.node handle.now) since (stamps_of S.node state.now.open_elems) }
    ensures found { is_some result ≡ is_in (S.node handle.now) (world_of S.TreeSink sink.now state.now).stack }
    ensures place { MatchOption result (Unit {0}) (λ place. IsOpenAt (S.node handle.now) place (world_of S.TreeSink sink.now state.now)) }
    ensures inside { MatchOption result (Unit {0}) (λ place. place < length (world_of S.TreeSink sink.now state.now).stack) }
{
    let mut next = state.open_elems.elements.newest(number);
    'down: while next > 0 {
        let place = next - 1;
        if sink.same_node(handle_at(sink, state, place), handle) {
            return Some(place);
        }
        if is_lower(sink, state, place, since) {
            return None;
        }
        next = state.open_elems.elements.older(place);
    }
    None
}

// The place of an open element above which no element has a lower stamp than `since`. If many are open, only those that
// share the number of its name are compared with it.
fn find_since<S: TreeSink>(
    sink: &S,
    state: &State<S::Handle>,
    handle: &S::Handle,
    since: u32,
) -> Option<usize>
    requires sound { IsSound S.TreeSink sink.now state.now }
    requires element { IsElement (S.sees sink.now).forest (S.node handle.now) }
    requires above { IsAbove (S.node handle.now) since (stamps_of S.node state.now.open_elems) }
    ensures found { is_some result ≡ is_in (S.node handle.now) (world_of S.TreeSink sink.now state.now).stack }
    ensures place { MatchOption result (Unit {0}) (λ place. IsOpenAt (S.node handle.now) place (world_of S.TreeSink sink.now state.now)) }
    ensures inside { MatchOption result (Unit {0}) (λ place. place < length (world_of S.TreeSink sink.now state.now).stack) }
{
    if open_count(sink, state) <= FEW {
        return find_among_all(sink, state, handle, since);
    }
    match state.open_elems.numbers.find(sink.elem_name(handle)) {
        Ok(Some(number)) => find_numbered(sink, state, handle, number, since),
        Ok(None) => None,
        // There is no memory for the name in lower case.
        Err(_) => find_among_all(sink, state, handle, since),
    }
}

/// Returns the place of an open element, counted from the root. If many are open, only those that share the number of
/// its name are compared with it.
pub fn find_open<S: TreeSink>(
    sink: &S,
    state: &State<S::Handle>,
    handle: &S::Handle,
) -> Option<usize>
    requires sound { IsSound S.TreeSink sink.now state.now }
    requires element { IsElement (S.sees sink.now).forest (S.node handle.now) }
    ensures found { is_some result ≡ is_in (S.node handle.now) (world_of S.TreeSink sink.now state.now).stack }
    ensures place { MatchOption result (Unit {0}) (λ place. IsOpenAt (S.node handle.now) place (world_of S.TreeSink sink.now state.now)) }
    ensures inside { MatchOption result (Unit {0}) (λ place. place < length (world_of S.TreeSink sink.now state.now).stack) }
{
    find_since(sink, state, handle, 0)
}

// The element is at this place, which may be past the end of the stack.
#[tactic(auto, using(h5_builder_spec::proofs::changes::SoundLaws::element_is_node))]
fn stands_at<S: TreeSink>(
    sink: &S,
    state: &State<S::Handle>,
    handle: &S::Handle,
    place: usize,
) -> bool
    requires sound { IsSound S.TreeSink sink.now state.now }
    requires element { IsElement (S.sees sink.now).forest (S.node handle.now) }
    ensures here { result ≡ true → IsOpenAt (S.node handle.now) place (world_of S.TreeSink sink.now state.now) }
    ensures inside { result ≡ true → place < length (world_of S.TreeSink sink.now state.now).stack }
{
    if place >= open_count(sink, state) {
        return false;
    }
    sink.same_node(handle_at(sink, state, place), handle)
}

// The number of places at which an element is searched first: it moves down when an element below it is removed.
const NEAR: usize = 3;

// The place of an element, if it is `place` or right below.
fn find_near<S: TreeSink>(
    sink: &S,
    state: &State<S::Handle>,
    handle: &S::Handle,
    place: usize,
) -> Option<usize>
    requires sound { IsSound S.TreeSink sink.now state.now }
    requires element { IsElement (S.sees sink.now).forest (S.node handle.now) }
    ensures place { MatchOption result (Unit {0}) (λ place. IsOpenAt (S.node handle.now) place (world_of S.TreeSink sink.now state.now)) }
    ensures inside { MatchOption result (Unit {0}) (λ place. place < length (world_of S.TreeSink sink.now state.now).stack) }
{
    for lower in 0..NEAR {
        let near = place.saturating_sub(lower);
        if stands_at(sink, state, handle, near) {
            return Some(near);
        }
    }
    None
}

/// Returns the place of an open element that is listed as a formatting element, counted from the root. It is searched
/// first at the place where it was when it was listed and right below, and then not below an element with a lower
/// stamp: so it takes few steps if the element is still there, and if it is closed.
pub fn find_listed<S: TreeSink>(
    sink: &S,
    state: &State<S::Handle>,
    listed: &Listed<S::Handle>,
) -> Option<usize>
    requires sound { IsSound S.TreeSink sink.now state.now }
    requires element { IsElement (S.sees sink.now).forest (S.node listed.now.handle) }
    requires above { IsAbove (S.node listed.now.handle) listed.now.stamp (stamps_of S.node state.now.open_elems) }
    ensures found { is_some result ≡ is_in (S.node listed.now.handle) (world_of S.TreeSink sink.now state.now).stack }
    ensures place { MatchOption result (Unit {0}) (λ place. IsOpenAt (S.node listed.now.handle) place (world_of S.TreeSink sink.now state.now)) }
    ensures inside { MatchOption result (Unit {0}) (λ place. place < length (world_of S.TreeSink sink.now state.now).stack) }
{
    if let Some(place) = find_near(sink, state, &listed.handle, listed.place) {
        return Some(place);
    }
    find_since(sink, state, &listed.handle, listed.stamp)
}

/// Returns true if this element is open and in scope.
#[tactic(auto, using(h5_builder_spec::proofs::changes::SoundLaws::element_is_node))]
pub fn is_node_in_scope<S: TreeSink>(sink: &S, state: &State<S::Handle>, handle: &S::Handle) -> bool
    requires sound { IsSound S.TreeSink sink.now state.now }
    requires element { IsElement (S.sees sink.now).forest (S.node handle.now) }
    ensures { result ≡ node_in_scope (S.node handle.now) is_default_scope (names_of (world_of S.TreeSink sink.now state.now)) (world_of S.TreeSink sink.now state.now).stack }
{
    let mut place = open_count(sink, state);
    'down: while place > 0 {
        place -= 1;
        let element = open_at(sink, state, place);
        if sink.same_node(handle, &element.handle) {
            return true;
        }
        if default_scope(sink.elem_name(&element.handle)) {
            return false;
        }
    }
    false
}
