//! Elements without content, of forms and others (HTML standard, section 13.2.6.4.7).
ghost use Rattle.std.specs.Prelude.{◌&&◌, ◌<◌, ◌∷◌, ◌≡◌, OnOk, codes, false, true};
ghost use Rattle.h5_names.specs.AttributeText.{attribute_texts};
ghost use Rattle.h5_builder_spec.specs.modes.InBody.{has_option_in_scope, in_body_start_hr, in_body_start_image, in_body_start_input, in_body_start_part, named_in_scope, unless_hidden};
ghost use Rattle.h5_builder_spec.specs.stack.Closing.{generate_implied_end_in_select};
ghost use Rattle.h5_builder_spec.specs.Rows.{InsertAndPopElement, ReconstructActiveFormattingElements, apply_all};
ghost use Rattle.h5_builder_state.specs.Steps.{IsSound, TellsErrors, errors_of, world_of};
ghost use Rattle.h5_builder_state.specs.Turn.{TakesTag};
ghost use Rattle.h5_builder_spec.specs.World.{names_of};

use super::hidden::is_type_hidden;
use super::select::is_option_in_scope;
use h5_builder_actions::{
    close_p_element_in_button_scope, expect_to_close, find_in_default_scope,
    generate_implied_end_in_select, insert_and_pop_element, insert_and_pop_tag,
    reconstruct_active_formatting_elements,
};
use h5_builder_state::{
    State, Turn, in_scope_named, pop_until_named, report_error, report_tag, set_frameset_not_ok,
};
use h5_interface::TreeSink;
use h5_names::{KnownName, LocalName};
use h5_tables::{ProcessResult, TreeError};
use h5_token::Tag;
use std::alloc::AllocError;

/// A start tag `image`, which is handled as `img`.
#[cold]
pub fn in_body_start_image<S: TreeSink>(
    sink: &mut S,
    state: &mut State<S::Handle>,
    tag: Tag,
) -> Turn
    requires { IsSound S.TreeSink sink.old state.old }
    ensures { TakesTag S.TreeSink in_body_start_image tag sink.old state.old sink.new state.new result }
{
    report_tag(sink, state, TreeError::ImageStartTag, &tag);
    reconstruct_active_formatting_elements(sink, state)?;
    let img = LocalName::from_known(KnownName::Img);
    insert_and_pop_element(sink, state, img, tag.attrs, tag.had_duplicate_attributes)?;
    set_frameset_not_ok(sink, state);
    Ok(ProcessResult::DoneAckSelfClosing)
}

/// A start tag `param`, `source` or `track`.
pub fn in_body_start_part<S: TreeSink>(sink: &mut S, state: &mut State<S::Handle>, tag: Tag) -> Turn
    requires { IsSound S.TreeSink sink.old state.old }
    ensures { TakesTag S.TreeSink in_body_start_part tag sink.old state.old sink.new state.new result }
{
    insert_and_pop_tag(sink, state, tag)?;
    Ok(ProcessResult::DoneAckSelfClosing)
}

// An `input`; unless it is hidden, the frameset-ok flag is set to "not ok".
fn insert_input<S: TreeSink>(
    sink: &mut S,
    state: &mut State<S::Handle>,
    tag: Tag,
) -> Result<(), AllocError>
    requires { IsSound S.TreeSink sink.old state.old }
    ensures done { OnOk result
        (world_of S.TreeSink sink.new state.new ≡ apply_all S.choices (ReconstructActiveFormattingElements ∷ InsertAndPopElement tag.name (attribute_texts tag.attrs.items) tag.had_duplicate_attributes ∷ unless_hidden (attribute_texts tag.attrs.items)) (world_of S.TreeSink sink.old state.old)) }
    ensures quiet { errors_of S.TreeSink sink.new ≡ errors_of S.TreeSink sink.old }
    ensures sound { IsSound S.TreeSink sink.new state.new }
{
    let hidden = is_type_hidden(tag.attrs.as_slice());
    reconstruct_active_formatting_elements(sink, state)?;
    insert_and_pop_tag(sink, state, tag)?;
    if !hidden {
        set_frameset_not_ok(sink, state);
    }
    Ok(())
}

/// A start tag `input`: a `select` in scope is closed.
#[tactic(auto, unfolding(h5_builder_spec::specs::modes::InBody::in_body_start_input))]
pub fn in_body_start_input<S: TreeSink>(
    sink: &mut S,
    state: &mut State<S::Handle>,
    tag: Tag,
) -> Turn
    requires { IsSound S.TreeSink sink.old state.old }
    ensures { TakesTag S.TreeSink in_body_start_input tag sink.old state.old sink.new state.new result }
{
    let select = LocalName::from_known(KnownName::Select);
    match find_in_default_scope(sink, state, &select) {
        Some(place) => {
            report_tag(sink, state, TreeError::InputInSelect, &tag);
            pop_until_named(sink, state, &select, place);
            insert_input(sink, state, tag)?;
            Ok(ProcessResult::DoneAckSelfClosing)
        }
        None => {
            insert_input(sink, state, tag)?;
            Ok(ProcessResult::DoneAckSelfClosing)
        }
    }
}

// If a `select` is in scope, an open option is a parse error at an `hr`.
fn check_rule<S: TreeSink>(sink: &mut S, state: &State<S::Handle>, in_select: bool)
    requires { IsSound S.TreeSink sink.old state.now }
    ensures told { TellsErrors S.TreeSink sink.old sink.new state.now }
    ensures noted { (in_select && has_option_in_scope (names_of (world_of S.TreeSink sink.old state.now))) ≡ true → 0 < errors_of S.TreeSink sink.new }
    ensures quiet { (in_select && has_option_in_scope (names_of (world_of S.TreeSink sink.old state.now))) ≡ false → errors_of S.TreeSink sink.new ≡ errors_of S.TreeSink sink.old }
{
    if in_select && is_option_in_scope(sink, state) {
        report_error(sink, state, TreeError::HrInOption);
    }
}

/// A start tag `hr`: a `p` in button scope is closed and, if a `select` is in scope, elements with implied end tags.
pub fn in_body_start_hr<S: TreeSink>(sink: &mut S, state: &mut State<S::Handle>, tag: Tag) -> Turn
    requires { IsSound S.TreeSink sink.old state.old }
    ensures { TakesTag S.TreeSink in_body_start_hr tag sink.old state.old sink.new state.new result }
{
    let expected = close_p_element_in_button_scope(sink, state);
    expect_to_close(sink, state, expected);
    let in_select = in_scope_named(sink, state, KnownName::Select);
    generate_implied_end_in_select(sink, state);
    check_rule(sink, state, in_select);
    insert_and_pop_tag(sink, state, tag)?;
    set_frameset_not_ok(sink, state);
    Ok(ProcessResult::DoneAckSelfClosing)
}
