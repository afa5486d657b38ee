//! Steps that change a field, or the current node.
ghost use Rattle.std.specs.Prelude.{◌≡◌, ◌≤◌, codes, is_some};
ghost use Rattle.std.specs.Option.{option_map};
ghost use Rattle.h5_tables.specs.TagSets.{is_html_named};
ghost use Rattle.h5_interface.specs.Forest.{IsNode};
ghost use Rattle.h5_builder_spec.specs.modes.InBody.{is_quirks};
ghost use Rattle.h5_builder_spec.specs.modes.InTableText.{saved_mode};
ghost use Rattle.h5_builder_spec.specs.Rows.{ClearForm, MarkStarted, Pop, SaveMode, SetFoster, SetFramesetNotOk, SetIgnoreLf, SetMode, SetQuirksMode};
ghost use Rattle.h5_builder_spec.specs.modes.Shared.{is_context};
ghost use Rattle.h5_builder_spec.specs.World.{current};
ghost use Rattle.h5_builder_state.specs.Stamps.{IsAbove, stamps_of};
ghost use Rattle.h5_builder_state.specs.Steps.{IsOpen, IsSound, Makes, world_of};

use super::open_element::Listed;
use super::open_elems::open_count;
use super::state::State;
use h5_interface::{QuirksMode, TreeSink};
use h5_names::KnownName;
use h5_tables::{InsertionMode, is_html_known};

/// Returns the insertion mode.
#[tactic(auto, unfolding(crate::specs::View::world))]
pub fn current_mode<S: TreeSink>(sink: &S, state: &State<S::Handle>) -> InsertionMode
    ensures { result ≡ (world_of S.TreeSink sink.now state.now).mode }
{
    state.mode
}

/// Sets the insertion mode.
#[tactic(auto, unfolding(crate::specs::View::world))]
pub fn set_mode<S: TreeSink>(sink: &S, state: &mut State<S::Handle>, mode: InsertionMode)
    requires { IsSound S.TreeSink sink.now state.old }
    ensures { Makes S.TreeSink (SetMode mode) sink.now state.old sink.now state.new }
{
    state.mode = mode;
}

/// Saves the insertion mode as the one to return to.
#[tactic(auto, unfolding(crate::specs::View::world, h5_builder_spec::specs::World::names_of))]
pub fn save_mode<S: TreeSink>(sink: &S, state: &mut State<S::Handle>)
    requires { IsSound S.TreeSink sink.now state.old }
    ensures { Makes S.TreeSink SaveMode sink.now state.old sink.now state.new }
{
    state.orig_mode = Some(state.mode);
}

/// Turns foster parenting on or off.
#[tactic(auto, unfolding(crate::specs::View::world, h5_builder_spec::specs::World::names_of))]
pub fn set_foster<S: TreeSink>(sink: &S, state: &mut State<S::Handle>, on: bool)
    requires { IsSound S.TreeSink sink.now state.old }
    ensures made { Makes S.TreeSink (SetFoster on) sink.now state.old sink.now state.new }
    ensures again { state.new.again ≡ state.old.again }
    ensures answer { state.new.answer ≡ state.old.answer }
{
    state.foster_parenting = on;
}

/// Sets the frameset-ok flag to "not ok".
#[tactic(auto, unfolding(crate::specs::View::world, h5_builder_spec::specs::World::names_of))]
pub fn set_frameset_not_ok<S: TreeSink>(sink: &S, state: &mut State<S::Handle>)
    requires { IsSound S.TreeSink sink.now state.old }
    ensures { Makes S.TreeSink SetFramesetNotOk sink.now state.old sink.now state.new }
{
    state.frameset_ok = false;
}

/// Sets the flag by which a newline that comes next is dropped.
#[tactic(auto, unfolding(crate::specs::View::world, h5_builder_spec::specs::World::names_of))]
pub fn set_ignore_lf<S: TreeSink>(sink: &S, state: &mut State<S::Handle>)
    requires { IsSound S.TreeSink sink.now state.old }
    ensures { Makes S.TreeSink SetIgnoreLf sink.now state.old sink.now state.new }
{
    state.ignore_lf = true;
}

/// Sets the quirks mode of builder and sink.
#[tactic(auto, unfolding(crate::specs::View::world, h5_builder_spec::specs::Changes::set_quirks_mode, h5_builder_spec::specs::World::names_of))]
pub fn set_quirks_mode<S: TreeSink>(sink: &mut S, state: &mut State<S::Handle>, mode: QuirksMode)
    requires { IsSound S.TreeSink sink.old state.old }
    ensures { Makes S.TreeSink (SetQuirksMode mode) sink.old state.old sink.new state.new }
{
    state.quirks_mode = mode;
    sink.set_quirks_mode(mode);
}

/// Returns a handle of the current node, or of the document if no element is open.
#[tactic(auto, unfolding(crate::specs::View::world))]
pub fn current_node<S: TreeSink>(sink: &S, state: &State<S::Handle>) -> S::Handle
    requires { IsSound S.TreeSink sink.now state.now }
    ensures current { S.node result ≡ current (world_of S.TreeSink sink.now state.now) }
    ensures node { IsNode (S.sees sink.now).forest (S.node result) }
{
    match state.open_elems.elements.last() {
        Some(element) => sink.clone_handle(&element.handle),
        None => sink.get_document(),
    }
}

// A stamp with which the current node may be listed.
#[tactic(auto, unfolding(crate::specs::View::world))]
fn current_stamp<S: TreeSink>(sink: &S, state: &State<S::Handle>) -> u32
    requires { IsSound S.TreeSink sink.now state.now }
    ensures given { result ≤ state.now.open_elems.last }
    ensures above { IsAbove (current (world_of S.TreeSink sink.now state.now)) result (stamps_of S.node state.now.open_elems) }
{
    match state.open_elems.elements.last() {
        Some(element) => element.stamp.min(state.open_elems.last),
        None => 0,
    }
}

/// Returns the current node with a stamp and its place, as it may be listed.
pub fn current_listed<S: TreeSink>(sink: &S, state: &State<S::Handle>) -> Listed<S::Handle>
    requires { IsSound S.TreeSink sink.now state.now }
    ensures current { S.node result.handle ≡ current (world_of S.TreeSink sink.now state.now) }
    ensures given { result.stamp ≤ state.now.open_elems.last }
    ensures above { IsAbove (S.node result.handle) result.stamp (stamps_of S.node state.now.open_elems) }
{
    Listed {
        handle: current_node(sink, state),
        stamp: current_stamp(sink, state),
        place: open_count(sink, state).saturating_sub(1),
    }
}

/// Pops the current node, and notifies the sink.
#[tactic(auto, unfolding(crate::specs::View::world, h5_builder_spec::specs::Changes::pop))]
pub fn pop<S: TreeSink>(sink: &mut S, state: &mut State<S::Handle>)
    requires { IsOpen S.TreeSink sink.old state.old }
    ensures { Makes S.TreeSink Pop sink.old state.old sink.new state.new }
{
    if let Some(element) = state.open_elems.elements.pop() {
        sink.pop(&element.handle);
    }
}

/// Marks the current node as a script that has started.
#[tactic(auto, unfolding(crate::specs::View::world, h5_builder_spec::specs::Changes::mark_started))]
pub fn mark_started<S: TreeSink>(sink: &mut S, state: &State<S::Handle>)
    requires { IsOpen S.TreeSink sink.old state.now }
    ensures { Makes S.TreeSink MarkStarted sink.old state.now sink.new state.now }
{
    let script = current_node(sink, state);
    sink.mark_script_already_started(&script);
}

/// Returns true if there is a form element.
#[tactic(auto, unfolding(crate::specs::View::world))]
pub fn has_form<S: TreeSink>(sink: &S, state: &State<S::Handle>) -> bool
    ensures { result ≡ is_some (world_of S.TreeSink sink.now state.now).form }
{
    state.form_elem.is_some()
}

/// Clears the form element, and returns it.
#[tactic(auto, unfolding(crate::specs::View::world, h5_builder_spec::specs::World::names_of))]
pub fn take_form<S: TreeSink>(sink: &S, state: &mut State<S::Handle>) -> Option<S::Handle>
    requires { IsSound S.TreeSink sink.now state.old }
    ensures made { Makes S.TreeSink ClearForm sink.now state.old sink.now state.new }
    ensures form { option_map S.node result ≡ (world_of S.TreeSink sink.now state.old).form }
{
    state.form_elem.take()
}

/// Returns true if a fragment is built.
#[tactic(auto, unfolding(crate::specs::View::world))]
pub fn is_fragment<S: TreeSink>(sink: &S, state: &State<S::Handle>) -> bool
    ensures { result ≡ is_some (world_of S.TreeSink sink.now state.now).context }
{
    state.context_elem.is_some()
}

/// Returns true if a frameset may still replace the body.
#[tactic(auto, unfolding(crate::specs::View::world))]
pub fn is_frameset_ok<S: TreeSink>(sink: &S, state: &State<S::Handle>) -> bool
    ensures { result ≡ (world_of S.TreeSink sink.now state.now).frameset_ok }
{
    state.frameset_ok
}

/// Returns true if the context of a fragment is an HTML `select`.
#[tactic(auto, unfolding(crate::specs::View::world))]
pub fn is_select_context<S: TreeSink>(sink: &S, state: &State<S::Handle>) -> bool
    requires { IsSound S.TreeSink sink.now state.now }
    ensures { result ≡ is_context (is_html_named (codes "select")) (world_of S.TreeSink sink.now state.now) }
{
    match &state.context_elem {
        Some(context) => is_html_known(sink.elem_name(context), KnownName::Select),
        None => false,
    }
}

/// Returns true if the document is that of an `iframe` with `srcdoc`.
#[tactic(auto, unfolding(crate::specs::View::world))]
pub fn has_srcdoc<S: TreeSink>(sink: &S, state: &State<S::Handle>) -> bool
    ensures { result ≡ (world_of S.TreeSink sink.now state.now).options.iframe_srcdoc }
{
    state.opts.iframe_srcdoc
}

/// Returns true if scripting is enabled.
#[tactic(auto, unfolding(crate::specs::View::world))]
pub fn is_scripting<S: TreeSink>(sink: &S, state: &State<S::Handle>) -> bool
    ensures { result ≡ (world_of S.TreeSink sink.now state.now).options.scripting_enabled }
{
    state.opts.scripting_enabled
}

/// Returns the mode that was left for a text.
#[tactic(auto, unfolding(crate::specs::View::world))]
pub fn saved_mode<S: TreeSink>(sink: &S, state: &State<S::Handle>) -> InsertionMode
    ensures { result ≡ saved_mode (world_of S.TreeSink sink.now state.now) }
{
    state.orig_mode.unwrap_or(InsertionMode::InTable)
}

/// Returns true if the builder is in quirks mode.
#[tactic(auto, unfolding(crate::specs::View::world))]
pub fn is_in_quirks<S: TreeSink>(sink: &S, state: &State<S::Handle>) -> bool
    ensures { result ≡ is_quirks (world_of S.TreeSink sink.now state.now).quirks }
{
    match state.quirks_mode {
        QuirksMode::Quirks => true,
        QuirksMode::LimitedQuirks | QuirksMode::NoQuirks => false,
    }
}
