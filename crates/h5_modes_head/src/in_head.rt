//! The mode "in head" (HTML standard, section 13.2.6.4.4).
ghost use Rattle.h5_builder_spec.specs.ByName.{by_known, ignored_tag};
ghost use Rattle.h5_tables.specs.TurnText.{HasText, turn_text};
ghost use Rattle.h5_builder_spec.specs.modes.InHead.{in_head, in_head_end, in_head_end_head, in_head_tag};
ghost use Rattle.h5_builder_state.specs.Steps.{IsOpen};
ghost use Rattle.h5_builder_state.specs.Turn.{TakesTag, TakesToken};

use super::ignored::ignored_tag;
use super::in_head_start_tags::{in_head_else, in_head_start_tag};
use super::template::in_head_end_template;
use h5_builder_actions::{append_comment, append_text};
use h5_builder_state::{State, Turn, pop, set_mode};
use h5_interface::TreeSink;
use h5_names::KnownName;
use h5_tables::{InsertionMode, ProcessResult, SplitStatus, Token};
use h5_token::{Tag, TagKind};

// An end tag `head`.
fn in_head_end_head<S: TreeSink>(sink: &mut S, state: &mut State<S::Handle>, tag: Tag) -> Turn
    requires { IsOpen S.TreeSink sink.old state.old }
    ensures { TakesTag S.TreeSink in_head_end_head tag sink.old state.old sink.new state.new result }
{
    let _ = tag;
    pop(sink, state);
    set_mode(sink, state, InsertionMode::AfterHead);
    Ok(ProcessResult::Done)
}

// End tags, by their names.
#[tactic(auto, unfolding(h5_builder_spec::specs::modes::InHead::in_head_end, h5_builder_spec::specs::ByName::outer_names, h5_names::specs::KnownNames::name_text))]
fn in_head_end_tag<S: TreeSink>(sink: &mut S, state: &mut State<S::Handle>, tag: Tag) -> Turn
    requires { IsOpen S.TreeSink sink.old state.old }
    ensures { TakesTag S.TreeSink (by_known in_head_end ignored_tag) tag sink.old state.old sink.new state.new result }
{
    match tag.name.known() {
        KnownName::Head => in_head_end_head(sink, state, tag),
        KnownName::Body | KnownName::Html | KnownName::Br => in_head_else(
            sink,
            state,
            Token::Tag(tag),
        ),
        KnownName::Template => in_head_end_template(sink, state, tag),
        _ => ignored_tag(sink, state, tag),
    }
}

#[tactic(auto, using(h5_builder_spec::proofs::rows::KnownRuleLaws::in_head_end_known), unfolding(h5_builder_spec::specs::modes::InHead::in_head_tag))]
fn in_head_tag<S: TreeSink>(sink: &mut S, state: &mut State<S::Handle>, tag: Tag) -> Turn
    requires { IsOpen S.TreeSink sink.old state.old }
    ensures { TakesTag S.TreeSink in_head_tag tag sink.old state.old sink.new state.new result }
{
    match tag.kind {
        TagKind::StartTag => in_head_start_tag(sink, state, tag),
        TagKind::EndTag => in_head_end_tag(sink, state, tag),
    }
}

/// A turn in "in head".
pub fn step_in_head<S: TreeSink>(sink: &mut S, state: &mut State<S::Handle>, token: Token) -> Turn
    requires open { IsOpen S.TreeSink sink.old state.old }
    requires text { HasText (turn_text token) }
    ensures { TakesToken S.TreeSink in_head token sink.old state.old sink.new state.new result }
{
    match token {
        Token::Tag(tag) => in_head_tag(sink, state, tag),
        Token::Comment(text) => {
            append_comment(sink, state, text)?;
            Ok(ProcessResult::Done)
        }
        Token::Characters(SplitStatus::Whitespace, text) => {
            append_text(sink, state, text)?;
            Ok(ProcessResult::Done)
        }
        other => in_head_else(sink, state, other),
    }
}
