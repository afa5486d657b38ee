//! An `option` that is copied when it is closed (HTML standard, section 13.2.6.4.7, an end tag "option").
ghost use Rattle.std.specs.Prelude.{◌≡◌, MatchOption};
ghost use Rattle.std.specs.Option.{option_map};
ghost use Rattle.h5_interface.specs.Forest.{IsElement};
ghost use Rattle.h5_builder_spec.specs.modes.InBody.{oldest_option};
ghost use Rattle.h5_builder_spec.specs.Rows.{CopyClosedOption};
ghost use Rattle.h5_builder_state.specs.Steps.{IsSound, MakesIfOk, world_of};

use h5_builder_state::{State, all_open, find_open, open_at};
use h5_interface::TreeSink;
use std::alloc::AllocError;

/// Returns a handle of the open HTML `option` that is nearest to the root, if one is open.
pub fn oldest_option<S: TreeSink>(sink: &S, state: &State<S::Handle>) -> Option<S::Handle>
    requires { IsSound S.TreeSink sink.now state.now }
    ensures oldest { option_map S.node result ≡ oldest_option (world_of S.TreeSink sink.now state.now) }
    ensures element { MatchOption result (Unit {0}) (λ handle. IsElement (S.sees sink.now).forest (S.node handle)) }
{
    let place = all_open(sink, state).oldest_option as usize;
    if place == 0 {
        return None;
    }
    Some(sink.clone_handle(&open_at(sink, state, place - 1).handle))
}

/// Copies an option into `selectedcontent` elements, if it isn't open any more. Fails with `AllocError` if an
/// allocation fails.
#[tactic(auto, unfolding(h5_builder_spec::specs::stack::Closing::copy_closed_option))]
pub fn copy_closed_option<S: TreeSink>(
    sink: &mut S,
    state: &State<S::Handle>,
    option: &S::Handle,
) -> Result<(), AllocError>
    requires sound { IsSound S.TreeSink sink.old state.now }
    requires element { IsElement (S.sees sink.old).forest (S.node option.now) }
    ensures { MakesIfOk S.TreeSink (CopyClosedOption (S.node option.now)) sink.old state.now sink.new state.now result }
{
    if find_open(sink, state, option).is_some() {
        Ok(())
    } else {
        sink.maybe_clone_an_option_into_selectedcontent(option)
    }
}
