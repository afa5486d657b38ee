//! Tests for framesets, and the removal of the body that a frameset replaces (HTML standard, sections 13.2.6.4.7 and
//! 13.2.6.4.18).
ghost use Rattle.std.specs.Prelude.{◌≡◌, OnOk};
ghost use Rattle.h5_interface.specs.Seen.{changed};
ghost use Rattle.h5_builder_spec.specs.Changes.{detach_known};
ghost use Rattle.h5_builder_spec.specs.stack.Order.{second_from_last};
ghost use Rattle.h5_builder_spec.specs.modes.InFrameset.{is_in_frameset, is_root_alone};
ghost use Rattle.h5_builder_spec.specs.Rows.{RemoveBody};
ghost use Rattle.h5_builder_spec.specs.World.{names_of};
ghost use Rattle.h5_builder_state.specs.Steps.{IsSound, MakesIfOk, errors_of, world_of};

use h5_builder_state::{State, truncate};
use h5_interface::TreeSink;
use h5_names::KnownName;
use h5_tables::is_html_known;
use std::alloc::AllocError;

/// Returns true if only the root is open.
#[tactic(auto, unfolding(h5_builder_state::specs::View::world))]
pub fn is_root_alone<S: TreeSink>(sink: &S, state: &State<S::Handle>) -> bool
    ensures { result ≡ is_root_alone (names_of (world_of S.TreeSink sink.now state.now)) }
{
    state.open_elems.elements.len() == 1
}

/// Returns true if the element next older than the current node is a `frameset`.
#[tactic(auto, unfolding(h5_builder_state::specs::View::world, h5_builder_spec::specs::World::names_of))]
pub fn is_below_frameset<S: TreeSink>(sink: &S, state: &State<S::Handle>) -> bool
    requires { IsSound S.TreeSink sink.now state.now }
    ensures { result ≡ is_in_frameset (names_of (world_of S.TreeSink sink.now state.now)) }
{
    let count = state.open_elems.elements.len();
    if count > 1 {
        let below = state.open_elems.elements.get(count - 2);
        is_html_known(sink.elem_name(&below.handle), KnownName::Frameset)
    } else {
        false
    }
}

// The body, the second open element, leaves its parent.
#[tactic(auto, unfolding(h5_builder_state::specs::View::world))]
fn detach_body<S: TreeSink>(sink: &mut S, state: &State<S::Handle>) -> Result<(), AllocError>
    requires { IsSound S.TreeSink sink.old state.now }
    ensures done { OnOk result (S.sees sink.new ≡ changed (detach_known (second_from_last (world_of S.TreeSink sink.old state.now).stack)) (S.sees sink.old)) }
    ensures quiet { errors_of S.TreeSink sink.new ≡ errors_of S.TreeSink sink.old }
    ensures sound { IsSound S.TreeSink sink.new state.now }
{
    if state.open_elems.elements.len() > 1 {
        sink.remove_from_parent(&state.open_elems.elements.get(1).handle)
    } else {
        Ok(())
    }
}

/// Removes the body, the second open element, from its parent; only the root stays open. The sink isn't notified of
/// pops. Fails with `AllocError` if an allocation fails.
#[tactic(auto, unfolding(h5_builder_state::specs::View::world, h5_builder_spec::specs::Changes::remove_body))]
pub fn remove_body<S: TreeSink>(
    sink: &mut S,
    state: &mut State<S::Handle>,
) -> Result<(), AllocError>
    requires { IsSound S.TreeSink sink.old state.old }
    ensures { MakesIfOk S.TreeSink RemoveBody sink.old state.old sink.new state.new result }
{
    detach_body(sink, state)?;
    truncate(sink, state, 1);
    Ok(())
}
