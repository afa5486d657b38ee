//! The mode "in frameset" (HTML standard, section 13.2.6.4.18).
ghost use Rattle.h5_tables.specs.TurnText.{HasText, turn_text};
ghost use Rattle.h5_builder_spec.specs.ByName.{by_known, ignored_tag};
ghost use Rattle.h5_builder_spec.specs.modes.InFrameset.{in_frameset, in_frameset_end, in_frameset_end_frameset, in_frameset_start, in_frameset_start_frame, in_frameset_start_frameset, in_frameset_tag};
ghost use Rattle.h5_builder_state.specs.Steps.{IsOpen, IsSound};
ghost use Rattle.h5_builder_state.specs.Turn.{TakesTag, TakesToken};

use h5_builder_actions::{
    append_comment, append_text, insert_and_pop_tag, insert_tag, is_below_frameset, is_root_alone,
};
use h5_builder_state::{
    State, Turn, is_fragment, pop, report_error, set_mode, unexpected, unexpected_tag,
};
use h5_interface::TreeSink;
use h5_modes_head::{ignored_tag, in_body_start_html, in_head_start_tag};
use h5_names::KnownName;
use h5_tables::{InsertionMode, ProcessResult, SplitStatus, Token, TreeError};
use h5_token::{Tag, TagKind};

// A start tag `frameset`.
fn in_frameset_start_frameset<S: TreeSink>(
    sink: &mut S,
    state: &mut State<S::Handle>,
    tag: Tag,
) -> Turn
    requires { IsSound S.TreeSink sink.old state.old }
    ensures { TakesTag S.TreeSink in_frameset_start_frameset tag sink.old state.old sink.new state.new result }
{
    insert_tag(sink, state, tag)?;
    Ok(ProcessResult::Done)
}

// A start tag `frame`: the element is empty.
fn in_frameset_start_frame<S: TreeSink>(
    sink: &mut S,
    state: &mut State<S::Handle>,
    tag: Tag,
) -> Turn
    requires { IsSound S.TreeSink sink.old state.old }
    ensures { TakesTag S.TreeSink in_frameset_start_frame tag sink.old state.old sink.new state.new result }
{
    insert_and_pop_tag(sink, state, tag)?;
    Ok(ProcessResult::DoneAckSelfClosing)
}

// An end tag `frameset`: after the outermost one, in a document, the mode is left.
#[tactic(auto, unfolding(h5_builder_spec::specs::modes::InFrameset::in_frameset_end_frameset))]
fn in_frameset_end_frameset<S: TreeSink>(
    sink: &mut S,
    state: &mut State<S::Handle>,
    tag: Tag,
) -> Turn
    requires { IsOpen S.TreeSink sink.old state.old }
    ensures { TakesTag S.TreeSink in_frameset_end_frameset tag sink.old state.old sink.new state.new result }
{
    if is_root_alone(sink, state) {
        unexpected_tag(sink, state, &tag);
        return Ok(ProcessResult::Done);
    }
    let leaves = !is_fragment(sink, state) && !is_below_frameset(sink, state);
    pop(sink, state);
    if leaves {
        set_mode(sink, state, InsertionMode::AfterFrameset);
    }
    Ok(ProcessResult::Done)
}

// Start tags, by their names.
#[tactic(auto, unfolding(h5_builder_spec::specs::modes::InFrameset::in_frameset_start, h5_names::specs::KnownNames::name_text))]
fn in_frameset_start_tag<S: TreeSink>(sink: &mut S, state: &mut State<S::Handle>, tag: Tag) -> Turn
    requires { IsOpen S.TreeSink sink.old state.old }
    ensures { TakesTag S.TreeSink (by_known in_frameset_start ignored_tag) tag sink.old state.old sink.new state.new result }
{
    match tag.name.known() {
        KnownName::Html => in_body_start_html(sink, state, tag),
        KnownName::Frameset => in_frameset_start_frameset(sink, state, tag),
        KnownName::Frame => in_frameset_start_frame(sink, state, tag),
        KnownName::Noframes => in_head_start_tag(sink, state, tag),
        _ => ignored_tag(sink, state, tag),
    }
}

// End tags, by their names.
#[tactic(auto, unfolding(h5_builder_spec::specs::modes::InFrameset::in_frameset_end, h5_names::specs::KnownNames::name_text))]
fn in_frameset_end_tag<S: TreeSink>(sink: &mut S, state: &mut State<S::Handle>, tag: Tag) -> Turn
    requires { IsOpen S.TreeSink sink.old state.old }
    ensures { TakesTag S.TreeSink (by_known in_frameset_end ignored_tag) tag sink.old state.old sink.new state.new result }
{
    match tag.name.known() {
        KnownName::Frameset => in_frameset_end_frameset(sink, state, tag),
        _ => ignored_tag(sink, state, tag),
    }
}

#[tactic(auto, using(h5_builder_spec::proofs::rows::KnownRuleLaws::in_frameset_start_known, h5_builder_spec::proofs::rows::KnownRuleLaws::in_frameset_end_known), unfolding(h5_builder_spec::specs::modes::InFrameset::in_frameset_tag))]
fn in_frameset_tag<S: TreeSink>(sink: &mut S, state: &mut State<S::Handle>, tag: Tag) -> Turn
    requires { IsOpen S.TreeSink sink.old state.old }
    ensures { TakesTag S.TreeSink in_frameset_tag tag sink.old state.old sink.new state.new result }
{
    match tag.kind {
        TagKind::StartTag => in_frameset_start_tag(sink, state, tag),
        TagKind::EndTag => in_frameset_end_tag(sink, state, tag),
    }
}

// The end of the file; it is a parse error if a frameset is open.
fn in_frameset_eof<S: TreeSink>(sink: &mut S, state: &mut State<S::Handle>) -> Turn
    requires { IsSound S.TreeSink sink.old state.old }
    ensures { TakesToken S.TreeSink in_frameset Token.Eof sink.old state.old sink.new state.new result }
{
    if !is_root_alone(sink, state) {
        report_error(sink, state, TreeError::EofInFrameset);
    }
    Ok(ProcessResult::Done)
}

/// A turn in "in frameset".
pub fn step_in_frameset<S: TreeSink>(
    sink: &mut S,
    state: &mut State<S::Handle>,
    token: Token,
) -> Turn
    requires open { IsOpen S.TreeSink sink.old state.old }
    requires text { HasText (turn_text token) }
    ensures { TakesToken S.TreeSink in_frameset token sink.old state.old sink.new state.new result }
{
    match token {
        Token::Tag(tag) => in_frameset_tag(sink, state, tag),
        Token::Comment(text) => {
            append_comment(sink, state, text)?;
            Ok(ProcessResult::Done)
        }
        Token::Characters(SplitStatus::Whitespace, text) => {
            append_text(sink, state, text)?;
            Ok(ProcessResult::Done)
        }
        Token::Eof => in_frameset_eof(sink, state),
        other => {
            unexpected(sink, state, &other);
            Ok(ProcessResult::Done)
        }
    }
}
