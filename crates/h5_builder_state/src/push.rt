//! Pushes an element onto the stack of open elements.
ghost use Rattle.std.specs.Prelude.{◌∷◌};
ghost use Rattle.h5_builder_spec.specs.Sound.{AllStand};
ghost use Rattle.h5_builder_state.specs.Steps.{BecomesIfOk, IsSound, world_of};

use super::open_element::{OpenElement, Summary};
use super::open_elems::all_open;
use super::state::State;
use h5_interface::TreeSink;
use std::alloc::AllocError;

/// Pushes an element, with its summary. Fails with `AllocError` if an allocation fails.
#[tactic(auto, unfolding(crate::specs::View::world))]
pub fn push_open<S: TreeSink>(
    sink: &S,
    state: &mut State<S::Handle>,
    handle: S::Handle,
) -> Result<(), AllocError>
    requires sound { IsSound S.TreeSink sink.now state.old }
    requires stands { AllStand (world_of S.TreeSink sink.now state.old).forest (S.node handle ∷ (world_of S.TreeSink sink.now state.old).stack) (world_of S.TreeSink sink.now state.old).formatting
        (world_of S.TreeSink sink.now state.old).head (world_of S.TreeSink sink.now state.old).form (world_of S.TreeSink sink.now state.old).context }
    ensures { BecomesIfOk S.TreeSink (λ w. record w { stack = S.node handle ∷ w.stack }) sink.now state.old sink.now state.new result }
{
    let all = all_open(sink, state);
    let place = state.open_elems.elements.next_place()?;
    let name = sink.elem_name(&handle);
    let number = state.open_elems.numbers.number(name)?;
    let summary = Summary::new(name, all, place);
    let stamp = state.open_elems.next_stamp();
    let element = OpenElement {
        handle,
        summary,
        stamp,
    };
    state.open_elems.elements.push(number, element)?;
    state.open_elems.last = stamp;
    Ok(())
}
