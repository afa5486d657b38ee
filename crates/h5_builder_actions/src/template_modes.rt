//! The stack of template insertion modes (HTML standard, section 13.2.4.1).
ghost use Rattle.std.specs.Prelude.{◌≡◌, not};
ghost use Rattle.h5_builder_spec.specs.modes.InBody.{no_template_mode};
ghost use Rattle.h5_builder_spec.specs.Rows.{PopTemplateMode, PushTemplateMode, SwitchTemplateMode};
ghost use Rattle.h5_builder_state.specs.Steps.{IsSound, Makes, MakesIfOk, world_of};

use h5_builder_state::State;
use h5_interface::TreeSink;
use h5_tables::InsertionMode;
use std::alloc::AllocError;

/// Returns true if there is a template insertion mode.
#[tactic(auto, unfolding(h5_builder_state::specs::View::world))]
pub fn has_template_mode<S: TreeSink>(sink: &S, state: &State<S::Handle>) -> bool
    ensures { result ≡ not (no_template_mode (world_of S.TreeSink sink.now state.now).template_modes) }
{
    !state.template_modes.is_empty()
}

/// Pushes a template insertion mode. Fails with `AllocError` if an allocation fails.
#[tactic(auto, unfolding(h5_builder_state::specs::View::world, h5_builder_spec::specs::World::names_of))]
pub fn push_template_mode<S: TreeSink>(
    sink: &S,
    state: &mut State<S::Handle>,
    mode: InsertionMode,
) -> Result<(), AllocError>
    requires { IsSound S.TreeSink sink.now state.old }
    ensures { MakesIfOk S.TreeSink (PushTemplateMode mode) sink.now state.old sink.now state.new result }
{
    state.template_modes.push(mode)?;
    Ok(())
}

/// Pops the current template insertion mode.
#[tactic(auto, unfolding(h5_builder_state::specs::View::world, h5_builder_spec::specs::World::names_of))]
pub fn pop_template_mode<S: TreeSink>(sink: &S, state: &mut State<S::Handle>)
    requires { IsSound S.TreeSink sink.now state.old }
    ensures { Makes S.TreeSink PopTemplateMode sink.now state.old sink.now state.new }
{
    let _ = state.template_modes.pop();
}

/// Replaces the current template insertion mode. Fails with `AllocError` if an allocation fails; then the current one
/// may be missing.
#[tactic(auto, unfolding(h5_builder_state::specs::View::world, h5_builder_spec::specs::World::names_of))]
pub fn switch_template_mode<S: TreeSink>(
    sink: &S,
    state: &mut State<S::Handle>,
    mode: InsertionMode,
) -> Result<(), AllocError>
    requires { IsSound S.TreeSink sink.now state.old }
    ensures { MakesIfOk S.TreeSink (SwitchTemplateMode mode) sink.now state.old sink.now state.new result }
{
    pop_template_mode(sink, state);
    push_template_mode(sink, state, mode)
}
