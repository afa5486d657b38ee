//! The mode "after frameset" (HTML standard, section 13.2.6.4.19).
ghost use Rattle.h5_tables.specs.TurnText.{HasText, turn_text};
ghost use Rattle.h5_builder_spec.specs.modes.AfterFrameset.{after_frameset, after_frameset_end, after_frameset_end_html, after_frameset_start, after_frameset_tag};
ghost use Rattle.h5_builder_spec.specs.ByName.{by_known, ignored_tag};
ghost use Rattle.h5_builder_state.specs.Steps.{IsOpen, IsSound};
ghost use Rattle.h5_builder_state.specs.Turn.{TakesTag, TakesToken};

use h5_builder_actions::{append_comment, append_text};
use h5_builder_state::{State, Turn, set_mode, unexpected};
use h5_interface::TreeSink;
use h5_modes_head::{ignored_tag, in_body_start_html, in_head_start_tag};
use h5_names::KnownName;
use h5_tables::{InsertionMode, ProcessResult, SplitStatus, Token};
use h5_token::{Tag, TagKind};

/// Start tags, by their names, in this mode and in "after after frameset".
#[tactic(auto, unfolding(h5_builder_spec::specs::modes::AfterFrameset::after_frameset_start, h5_names::specs::KnownNames::name_text))]
pub(crate) fn after_frameset_start_tag<S: TreeSink>(
    sink: &mut S,
    state: &mut State<S::Handle>,
    tag: Tag,
) -> Turn
    requires { IsOpen S.TreeSink sink.old state.old }
    ensures { TakesTag S.TreeSink (by_known after_frameset_start ignored_tag) tag sink.old state.old sink.new state.new result }
{
    match tag.name.known() {
        KnownName::Html => in_body_start_html(sink, state, tag),
        KnownName::Noframes => in_head_start_tag(sink, state, tag),
        _ => ignored_tag(sink, state, tag),
    }
}

// An end tag `html`.
fn after_frameset_end_html<S: TreeSink>(
    sink: &mut S,
    state: &mut State<S::Handle>,
    tag: Tag,
) -> Turn
    requires { IsSound S.TreeSink sink.old state.old }
    ensures { TakesTag S.TreeSink after_frameset_end_html tag sink.old state.old sink.new state.new result }
{
    let _ = tag;
    set_mode(sink, state, InsertionMode::AfterAfterFrameset);
    Ok(ProcessResult::Done)
}

// End tags, by their names.
#[tactic(auto, unfolding(h5_builder_spec::specs::modes::AfterFrameset::after_frameset_end, h5_names::specs::KnownNames::name_text))]
fn after_frameset_end_tag<S: TreeSink>(sink: &mut S, state: &mut State<S::Handle>, tag: Tag) -> Turn
    requires { IsOpen S.TreeSink sink.old state.old }
    ensures { TakesTag S.TreeSink (by_known after_frameset_end ignored_tag) tag sink.old state.old sink.new state.new result }
{
    match tag.name.known() {
        KnownName::Html => after_frameset_end_html(sink, state, tag),
        _ => ignored_tag(sink, state, tag),
    }
}

#[tactic(auto, using(h5_builder_spec::proofs::rows::KnownRuleLaws::after_frameset_start_known, h5_builder_spec::proofs::rows::KnownRuleLaws::after_frameset_end_known), unfolding(h5_builder_spec::specs::modes::AfterFrameset::after_frameset_tag))]
fn after_frameset_tag<S: TreeSink>(sink: &mut S, state: &mut State<S::Handle>, tag: Tag) -> Turn
    requires { IsOpen S.TreeSink sink.old state.old }
    ensures { TakesTag S.TreeSink after_frameset_tag tag sink.old state.old sink.new state.new result }
{
    match tag.kind {
        TagKind::StartTag => after_frameset_start_tag(sink, state, tag),
        TagKind::EndTag => after_frameset_end_tag(sink, state, tag),
    }
}

/// A turn in "after frameset".
pub fn step_after_frameset<S: TreeSink>(
    sink: &mut S,
    state: &mut State<S::Handle>,
    token: Token,
) -> Turn
    requires open { IsOpen S.TreeSink sink.old state.old }
    requires text { HasText (turn_text token) }
    ensures { TakesToken S.TreeSink after_frameset token sink.old state.old sink.new state.new result }
{
    match token {
        Token::Tag(tag) => after_frameset_tag(sink, state, tag),
        Token::Comment(text) => {
            append_comment(sink, state, text)?;
            Ok(ProcessResult::Done)
        }
        Token::Characters(SplitStatus::Whitespace, text) => {
            append_text(sink, state, text)?;
            Ok(ProcessResult::Done)
        }
        Token::Eof => Ok(ProcessResult::Done),
        other => {
            unexpected(sink, state, &other);
            Ok(ProcessResult::Done)
        }
    }
}
