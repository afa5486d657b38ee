//! Forms in the body (HTML standard, section 13.2.6.4.7).
ghost use Rattle.std.specs.Prelude.{◌≡◌, ◌∷◌, [], codes};
ghost use Rattle.h5_builder_spec.specs.modes.InBody.{close_open_form, close_the_form, in_body_end_form, in_body_start_form, named_in_scope};
ghost use Rattle.h5_builder_spec.specs.Rows.{GenerateImpliedEnd, PopUntilNamed};
ghost use Rattle.h5_builder_spec.specs.inner.Kept.{HasHtmlRoot};
ghost use Rattle.h5_builder_state.specs.Steps.{IsSound, world_of};
ghost use Rattle.h5_builder_state.specs.Turn.{TakesTag};

use h5_builder_actions::{
    close_p_element_in_button_scope, expect_to_close, find_in_default_scope,
    generate_implied_end_tags, insert_form, remove_from_stack,
};
use h5_builder_state::{
    State, Turn, current_node, has_form, has_open_template, is_current_html, is_node_in_scope,
    pop_until_named, report_error, take_form,
};
use h5_interface::TreeSink;
use h5_names::{KnownName, LocalName};
use h5_tables::{ProcessResult, TreeError};
use h5_token::Tag;

/// A start tag `form`; it is ignored if there is a form element and no template is open.
#[tactic(auto, unfolding(h5_builder_spec::specs::modes::InBody::in_body_start_form))]
pub fn in_body_start_form<S: TreeSink>(sink: &mut S, state: &mut State<S::Handle>, tag: Tag) -> Turn
    requires { IsSound S.TreeSink sink.old state.old }
    ensures { TakesTag S.TreeSink in_body_start_form tag sink.old state.old sink.new state.new result }
{
    if has_form(sink, state) && !has_open_template(sink, state) {
        report_error(sink, state, TreeError::NestedForms);
        Ok(ProcessResult::Done)
    } else {
        let expected = close_p_element_in_button_scope(sink, state);
        expect_to_close(sink, state, expected);
        insert_form(sink, state, tag.attrs, tag.had_duplicate_attributes)?;
        Ok(ProcessResult::Done)
    }
}

// Clears the form element, and removes it from the stack if it is in scope.
#[tactic(auto, unfolding(h5_builder_spec::specs::modes::InBody::close_the_form))]
fn close_form_element<S: TreeSink>(sink: &mut S, state: &mut State<S::Handle>, tag: Tag) -> Turn
    requires sound { IsSound S.TreeSink sink.old state.old }
    requires ready { HasHtmlRoot (world_of S.TreeSink sink.old state.old) }
    ensures { TakesTag S.TreeSink (λ tag w. close_the_form w.form w) tag sink.old state.old sink.new state.new result }
{
    let _ = tag;
    let Some(form) = take_form(sink, state) else {
        report_error(sink, state, TreeError::NoFormElementToClose);
        return Ok(ProcessResult::Done);
    };
    if !is_node_in_scope(sink, state, &form) {
        report_error(sink, state, TreeError::FormElementOutOfScope);
        return Ok(ProcessResult::Done);
    }
    generate_implied_end_tags(sink, state);
    let current = current_node(sink, state);
    let expected = sink.same_node(&current, &form);
    expect_to_close(sink, state, expected);
    remove_from_stack(sink, state, &form);
    Ok(ProcessResult::Done)
}

// In a template, the open HTML `form` is closed, if one is in scope.
#[tactic(auto, unfolding(h5_builder_spec::specs::modes::InBody::close_open_form))]
fn close_open_form<S: TreeSink>(sink: &mut S, state: &mut State<S::Handle>, tag: Tag) -> Turn
    requires { IsSound S.TreeSink sink.old state.old }
    ensures { TakesTag S.TreeSink (λ tag w. close_open_form w) tag sink.old state.old sink.new state.new result }
{
    let _ = tag;
    let form = LocalName::from_known(KnownName::Form);
    match find_in_default_scope(sink, state, &form) {
        Some(place) => {
            generate_implied_end_tags(sink, state);
            let expected = is_current_html(sink, state, &form);
            expect_to_close(sink, state, expected);
            pop_until_named(sink, state, &form, place);
            Ok(ProcessResult::Done)
        }
        None => {
            report_error(sink, state, TreeError::NoFormToClose);
            Ok(ProcessResult::Done)
        }
    }
}

/// An end tag `form`: it closes the form element, wherever it is in scope; in a template, the open `form` in scope.
#[tactic(auto, unfolding(h5_builder_spec::specs::modes::InBody::in_body_end_form))]
pub fn in_body_end_form<S: TreeSink>(sink: &mut S, state: &mut State<S::Handle>, tag: Tag) -> Turn
    requires sound { IsSound S.TreeSink sink.old state.old }
    requires ready { HasHtmlRoot (world_of S.TreeSink sink.old state.old) }
    ensures { TakesTag S.TreeSink in_body_end_form tag sink.old state.old sink.new state.new result }
{
    if has_open_template(sink, state) {
        close_open_form(sink, state, tag)
    } else {
        close_form_element(sink, state, tag)
    }
}
