//! Removes an element from anywhere on the stack of open elements.
ghost use Rattle.std.specs.Prelude.{◌≡◌, ◌≢◌, if◌then◌else◌};
ghost use Rattle.h5_interface.specs.Forest.{IsElement};
ghost use Rattle.h5_builder_spec.specs.formatting.Adoption.{without_node};
ghost use Rattle.h5_builder_spec.specs.stack.Order.{is_in};
ghost use Rattle.h5_builder_spec.specs.Rows.{RemoveFromStack};
ghost use Rattle.h5_builder_spec.specs.World.{World, root};
ghost use Rattle.h5_builder_state.specs.Steps.{IsSound, Makes, world_of};
ghost use Rattle.h5_builder_state.specs.View.{with_stack};

use h5_builder_state::{State, find_open, renew_from};
use h5_interface::TreeSink;

// Removes an element from the stack, if it is open, without notifying the sink. Returns true if it was open.
fn take_out<S: TreeSink>(sink: &S, state: &mut State<S::Handle>, handle: &S::Handle) -> bool
    requires sound { IsSound S.TreeSink sink.now state.old }
    requires element { IsElement (S.sees sink.now).forest (S.node handle.now) }
    requires root { S.node handle.now ≢ root (world_of S.TreeSink sink.now state.old) }
    ensures found { result ≡ is_in (S.node handle.now) (world_of S.TreeSink sink.now state.old).stack }
    ensures world { world_of S.TreeSink sink.now state.new ≡ (let w = world_of S.TreeSink sink.now state.old in
        if is_in (S.node handle.now) w.stack then with_stack (without_node (S.node handle.now) w.stack) w else w) }
    ensures sound { IsSound S.TreeSink sink.now state.new }
{
    match find_open(sink, state, handle) {
        Some(place) => {
            let _ = state.open_elems.elements.remove(place);
            renew_from(sink, state, place);
            true
        }
        None => false,
    }
}

/// Removes an element, which must not be the root, from the stack, and notifies the sink, if the element is open.
#[tactic(auto, unfolding(h5_builder_spec::specs::formatting::AdoptionAgency::remove_from_stack))]
pub fn remove_from_stack<S: TreeSink>(
    sink: &mut S,
    state: &mut State<S::Handle>,
    handle: &S::Handle,
)
    requires sound { IsSound S.TreeSink sink.old state.old }
    requires element { IsElement (S.sees sink.old).forest (S.node handle.now) }
    requires root { S.node handle.now ≢ root (world_of S.TreeSink sink.old state.old) }
    ensures { Makes S.TreeSink (RemoveFromStack (S.node handle.now)) sink.old state.old sink.new state.new }
{
    if take_out(sink, state, handle) {
        sink.pop(handle);
    }
}
