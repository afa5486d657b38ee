//! Templates, by rules of "in head" that other modes also use (HTML standard, section 13.2.6.4.4, start and end tags
//! whose tag name is "template", and section 13.2.6.4.16, the end of the file).
ghost use Rattle.std.specs.Prelude.{◌≡◌, [], ◌∷◌, codes};
ghost use Rattle.h5_builder_spec.specs.modes.InHead.{in_head_end_template, in_head_start_template, template_eof};
ghost use Rattle.h5_builder_spec.specs.Rows.{ClearActiveFormattingToMarker, PopTemplateMode, PopUntilNamed, ResetMode, apply_all};
ghost use Rattle.h5_builder_state.specs.Steps.{IsSound, world_of};
ghost use Rattle.h5_builder_state.specs.Turn.{TakesTag, TakesToken};

use h5_builder_actions::{
    clear_active_formatting_to_marker, expect_to_close, generate_implied_end_thoroughly,
    insert_marker, insert_template, pop_template_mode, push_template_mode, reset_insertion_mode,
};
use h5_builder_state::{
    State, Turn, find_named, has_open_template, is_current_html, pop_until_named, report_error,
    set_again, set_frameset_not_ok, set_mode, unexpected_tag,
};
use h5_interface::TreeSink;
use h5_names::{KnownName, LocalName};
use h5_tables::{InsertionMode, ProcessResult, Token, TreeError};
use h5_token::Tag;

// A start tag `template`.
pub(crate) fn in_head_start_template<S: TreeSink>(
    sink: &mut S,
    state: &mut State<S::Handle>,
    tag: Tag,
) -> Turn
    requires { IsSound S.TreeSink sink.old state.old }
    ensures { TakesTag S.TreeSink in_head_start_template tag sink.old state.old sink.new state.new result }
{
    insert_marker(sink, state)?;
    set_frameset_not_ok(sink, state);
    set_mode(sink, state, InsertionMode::InTemplate);
    push_template_mode(sink, state, InsertionMode::InTemplate)?;
    insert_template(sink, state, tag)?;
    Ok(ProcessResult::Done)
}

// Closes the newest template, without notifying the sink: removes its marker and its mode, and resets the mode.
fn close_template<S: TreeSink>(sink: &S, state: &mut State<S::Handle>)
    requires { IsSound S.TreeSink sink.now state.old }
    ensures world { world_of S.TreeSink sink.now state.new ≡ apply_all S.choices (PopUntilNamed (codes "template") ∷ ClearActiveFormattingToMarker ∷ PopTemplateMode ∷ ResetMode ∷ []) (world_of S.TreeSink sink.now state.old) }
    ensures sound { IsSound S.TreeSink sink.now state.new }
{
    let template = LocalName::from_known(KnownName::Template);
    let place = find_named(sink, state, &template);
    pop_until_named(sink, state, &template, place);
    clear_active_formatting_to_marker(sink, state);
    pop_template_mode(sink, state);
    let mode = reset_insertion_mode(sink, state);
    set_mode(sink, state, mode);
}

/// An end tag `template`; it is ignored if no template is open.
#[tactic(auto, unfolding(h5_builder_spec::specs::modes::InHead::in_head_end_template))]
pub fn in_head_end_template<S: TreeSink>(
    sink: &mut S,
    state: &mut State<S::Handle>,
    tag: Tag,
) -> Turn
    requires { IsSound S.TreeSink sink.old state.old }
    ensures { TakesTag S.TreeSink in_head_end_template tag sink.old state.old sink.new state.new result }
{
    if !has_open_template(sink, state) {
        unexpected_tag(sink, state, &tag);
        return Ok(ProcessResult::Done);
    }
    let template = LocalName::from_known(KnownName::Template);
    generate_implied_end_thoroughly(sink, state);
    let expected = is_current_html(sink, state, &template);
    expect_to_close(sink, state, expected);
    close_template(sink, state);
    Ok(ProcessResult::Done)
}

/// The end of the file, while there are template insertion modes: an open template is closed, which is a parse error,
/// and the token is reprocessed.
#[tactic(auto, unfolding(h5_builder_spec::specs::modes::InHead::template_eof))]
pub fn template_eof<S: TreeSink>(sink: &mut S, state: &mut State<S::Handle>, token: Token) -> Turn
    requires { IsSound S.TreeSink sink.old state.old }
    ensures { TakesToken S.TreeSink (λ t w. template_eof w) token sink.old state.old sink.new state.new result }
{
    if !has_open_template(sink, state) {
        return Ok(ProcessResult::Done);
    }
    report_error(sink, state, TreeError::EofInTemplate);
    close_template(sink, state);
    let mode = reset_insertion_mode(sink, state);
    set_again(sink, state, token);
    Ok(ProcessResult::Reprocess(mode))
}
