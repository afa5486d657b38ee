//! Elements whose content is text, in the body (HTML standard, section 13.2.6.4.7, start tags "plaintext", "textarea",
//! "xmp", "iframe", "noembed" and "noscript").
ghost use Rattle.h5_builder_spec.specs.modes.InBody.{in_body_start_iframe, in_body_start_noembed, in_body_start_noscript, in_body_start_plaintext, in_body_start_textarea, in_body_start_xmp};
ghost use Rattle.h5_builder_state.specs.Steps.{IsSound};
ghost use Rattle.h5_builder_state.specs.Turn.{TakesTag};

use h5_builder_actions::{
    close_p_element_in_button_scope, expect_to_close, insert_tag,
    reconstruct_active_formatting_elements,
};
use h5_builder_state::{State, Turn, is_scripting, set_answer, set_frameset_not_ok, set_ignore_lf};
use h5_interface::TreeSink;
use h5_modes_head::{parse_raw_data, to_raw_text_mode};
use h5_tables::ProcessResult;
use h5_token::states::RawKind;
use h5_token::{Tag, TokenSinkResult};

/// A start tag `plaintext`: all that follows is text.
pub fn in_body_start_plaintext<S: TreeSink>(
    sink: &mut S,
    state: &mut State<S::Handle>,
    tag: Tag,
) -> Turn
    requires { IsSound S.TreeSink sink.old state.old }
    ensures { TakesTag S.TreeSink in_body_start_plaintext tag sink.old state.old sink.new state.new result }
{
    let expected = close_p_element_in_button_scope(sink, state);
    expect_to_close(sink, state, expected);
    insert_tag(sink, state, tag)?;
    set_answer(sink, state, TokenSinkResult::Plaintext);
    Ok(ProcessResult::Answer)
}

/// A start tag `textarea`: a newline at the start of its text is dropped.
pub fn in_body_start_textarea<S: TreeSink>(
    sink: &mut S,
    state: &mut State<S::Handle>,
    tag: Tag,
) -> Turn
    requires { IsSound S.TreeSink sink.old state.old }
    ensures { TakesTag S.TreeSink in_body_start_textarea tag sink.old state.old sink.new state.new result }
{
    set_ignore_lf(sink, state);
    set_frameset_not_ok(sink, state);
    parse_raw_data(sink, state, tag, RawKind::Rcdata)
}

/// A start tag `xmp`: a `p` in button scope is closed first.
pub fn in_body_start_xmp<S: TreeSink>(sink: &mut S, state: &mut State<S::Handle>, tag: Tag) -> Turn
    requires { IsSound S.TreeSink sink.old state.old }
    ensures { TakesTag S.TreeSink in_body_start_xmp tag sink.old state.old sink.new state.new result }
{
    let expected = close_p_element_in_button_scope(sink, state);
    expect_to_close(sink, state, expected);
    reconstruct_active_formatting_elements(sink, state)?;
    set_frameset_not_ok(sink, state);
    insert_tag(sink, state, tag)?;
    to_raw_text_mode(sink, state, RawKind::Rawtext);
    Ok(ProcessResult::Answer)
}

/// A start tag `iframe`.
pub fn in_body_start_iframe<S: TreeSink>(
    sink: &mut S,
    state: &mut State<S::Handle>,
    tag: Tag,
) -> Turn
    requires { IsSound S.TreeSink sink.old state.old }
    ensures { TakesTag S.TreeSink in_body_start_iframe tag sink.old state.old sink.new state.new result }
{
    set_frameset_not_ok(sink, state);
    parse_raw_data(sink, state, tag, RawKind::Rawtext)
}

/// A start tag `noembed`.
pub fn in_body_start_noembed<S: TreeSink>(
    sink: &mut S,
    state: &mut State<S::Handle>,
    tag: Tag,
) -> Turn
    requires { IsSound S.TreeSink sink.old state.old }
    ensures { TakesTag S.TreeSink in_body_start_noembed tag sink.old state.old sink.new state.new result }
{
    parse_raw_data(sink, state, tag, RawKind::Rawtext)
}

/// A start tag `noscript`: if scripting is enabled, its content is text.
#[tactic(auto, unfolding(h5_builder_spec::specs::modes::InBody::in_body_start_noscript))]
pub fn in_body_start_noscript<S: TreeSink>(
    sink: &mut S,
    state: &mut State<S::Handle>,
    tag: Tag,
) -> Turn
    requires { IsSound S.TreeSink sink.old state.old }
    ensures { TakesTag S.TreeSink in_body_start_noscript tag sink.old state.old sink.new state.new result }
{
    if is_scripting(sink, state) {
        return parse_raw_data(sink, state, tag, RawKind::Rawtext);
    }
    reconstruct_active_formatting_elements(sink, state)?;
    insert_tag(sink, state, tag)?;
    Ok(ProcessResult::Done)
}
