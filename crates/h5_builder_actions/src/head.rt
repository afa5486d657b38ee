//! The head element, pushed again (HTML standard, section 13.2.6.4.6, start tags that use the rules of "in head").
ghost use Rattle.std.specs.Prelude.{◌≡◌, MatchOption};
ghost use Rattle.std.specs.Option.{option_map};
ghost use Rattle.h5_builder_spec.specs.Changes.{push_head};
ghost use Rattle.h5_builder_spec.specs.Rows.{PushHead};
ghost use Rattle.h5_builder_spec.specs.Sound.{Sound};
ghost use Rattle.h5_builder_state.specs.Steps.{IsSound, MakesIfOk, world_of};

use h5_builder_state::{State, push_open};
use h5_interface::TreeSink;
use std::alloc::AllocError;

/// Returns a handle of the head element, if there is one.
#[tactic(auto, unfolding(h5_builder_state::specs::View::world))]
pub fn known_head<S: TreeSink>(sink: &S, state: &State<S::Handle>) -> Option<S::Handle>
    requires { IsSound S.TreeSink sink.now state.now }
    ensures { option_map S.node result ≡ (world_of S.TreeSink sink.now state.now).head }
{
    match &state.head_elem {
        Some(head) => Some(sink.clone_handle(head)),
        None => None,
    }
}

/// Pushes the head element, if there is one, as the current node. Fails with `AllocError` if an allocation fails.
#[tactic(auto, unfolding(h5_builder_state::specs::View::world))]
pub fn push_head<S: TreeSink>(sink: &S, state: &mut State<S::Handle>) -> Result<(), AllocError>
    requires sound { IsSound S.TreeSink sink.now state.old }
    requires ready { Sound (push_head (world_of S.TreeSink sink.now state.old)) }
    ensures { MakesIfOk S.TreeSink PushHead sink.now state.old sink.now state.new result }
{
    if let Some(handle) = known_head(sink, state) {
        push_open(sink, state, handle)?;
    }
    Ok(())
}
