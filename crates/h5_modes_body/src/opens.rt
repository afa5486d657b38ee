//! The last steps of several start tags.
ghost use Rattle.std.specs.Prelude.{◌≡◌, OnOk};
ghost use Rattle.h5_token.specs.TokenText.{tag_text};
ghost use Rattle.h5_builder_spec.specs.Changes.{set_frameset_not_ok};
ghost use Rattle.h5_builder_spec.specs.modes.InBody.{in_body_opens};
ghost use Rattle.h5_builder_spec.specs.Rows.{apply_all};
ghost use Rattle.h5_builder_state.specs.Steps.{IsSound, errors_of, world_of};

use h5_builder_actions::{insert_tag, reconstruct_active_formatting_elements};
use h5_builder_state::{State, set_frameset_not_ok};
use h5_interface::TreeSink;
use h5_token::Tag;
use std::alloc::AllocError;

/// Inserts an element for a tag, after active formatting elements are reconstructed. Fails with `AllocError` if an
/// allocation fails; the elements made until then stay.
pub(crate) fn open_element<S: TreeSink>(
    sink: &mut S,
    state: &mut State<S::Handle>,
    tag: Tag,
) -> Result<(), AllocError>
    requires { IsSound S.TreeSink sink.old state.old }
    ensures done { OnOk result
        (world_of S.TreeSink sink.new state.new ≡ apply_all S.choices (in_body_opens (tag_text tag)) (world_of S.TreeSink sink.old state.old)) }
    ensures quiet { errors_of S.TreeSink sink.new ≡ errors_of S.TreeSink sink.old }
    ensures sound { IsSound S.TreeSink sink.new state.new }
{
    reconstruct_active_formatting_elements(sink, state)?;
    insert_tag(sink, state, tag)
}

/// As `open_element`; the frameset-ok flag is set to "not ok".
pub(crate) fn open_control<S: TreeSink>(
    sink: &mut S,
    state: &mut State<S::Handle>,
    tag: Tag,
) -> Result<(), AllocError>
    requires { IsSound S.TreeSink sink.old state.old }
    ensures done { OnOk result
        (world_of S.TreeSink sink.new state.new ≡ set_frameset_not_ok (apply_all S.choices (in_body_opens (tag_text tag)) (world_of S.TreeSink sink.old state.old))) }
    ensures quiet { errors_of S.TreeSink sink.new ≡ errors_of S.TreeSink sink.old }
    ensures sound { IsSound S.TreeSink sink.new state.new }
{
    open_element(sink, state, tag)?;
    set_frameset_not_ok(sink, state);
    Ok(())
}
