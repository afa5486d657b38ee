//! The mode "after after body" (HTML standard, section 13.2.6.4.20).
ghost use Rattle.h5_builder_spec.specs.modes.AfterBody.{back_to_body};
ghost use Rattle.h5_builder_spec.specs.ByName.{by_known, of_tag};
ghost use Rattle.h5_tables.specs.TurnText.{HasText, turn_text};
ghost use Rattle.h5_builder_spec.specs.modes.AfterAfterBody.{after_after_body, after_after_body_start, after_after_body_tag};
ghost use Rattle.h5_builder_state.specs.Steps.{IsOpen};
ghost use Rattle.h5_builder_state.specs.Turn.{TakesTag, TakesToken};

use super::after_body::back_to_body;
use super::body_text::in_body_text;
use h5_builder_actions::append_comment_to_doc;
use h5_builder_state::{State, Turn};
use h5_interface::TreeSink;
use h5_modes_head::in_body_start_html;
use h5_names::KnownName;
use h5_tables::{ProcessResult, SplitStatus, Token};
use h5_token::{Tag, TagKind};

// Start tags, by their names.
#[tactic(auto, unfolding(h5_builder_spec::specs::modes::AfterAfterBody::after_after_body_start, h5_names::specs::KnownNames::name_text))]
fn after_after_body_start_tag<S: TreeSink>(
    sink: &mut S,
    state: &mut State<S::Handle>,
    tag: Tag,
) -> Turn
    requires { IsOpen S.TreeSink sink.old state.old }
    ensures { TakesTag S.TreeSink (by_known after_after_body_start (of_tag back_to_body)) tag sink.old state.old sink.new state.new result }
{
    match tag.name.known() {
        KnownName::Html => in_body_start_html(sink, state, tag),
        _ => back_to_body(sink, state, Token::Tag(tag)),
    }
}

#[tactic(auto, using(h5_builder_spec::proofs::rows::KnownRuleLaws::after_after_body_start_known), unfolding(h5_builder_spec::specs::modes::AfterAfterBody::after_after_body_tag))]
fn after_after_body_tag<S: TreeSink>(sink: &mut S, state: &mut State<S::Handle>, tag: Tag) -> Turn
    requires { IsOpen S.TreeSink sink.old state.old }
    ensures { TakesTag S.TreeSink after_after_body_tag tag sink.old state.old sink.new state.new result }
{
    match tag.kind {
        TagKind::StartTag => after_after_body_start_tag(sink, state, tag),
        TagKind::EndTag => back_to_body(sink, state, Token::Tag(tag)),
    }
}

/// A turn in "after after body".
pub fn step_after_after_body<S: TreeSink>(
    sink: &mut S,
    state: &mut State<S::Handle>,
    token: Token,
) -> Turn
    requires open { IsOpen S.TreeSink sink.old state.old }
    requires text { HasText (turn_text token) }
    ensures { TakesToken S.TreeSink after_after_body token sink.old state.old sink.new state.new result }
{
    match token {
        Token::Tag(tag) => after_after_body_tag(sink, state, tag),
        Token::Comment(text) => {
            append_comment_to_doc(sink, state, text)?;
            Ok(ProcessResult::Done)
        }
        Token::Characters(SplitStatus::Whitespace, text) => in_body_text(
            sink,
            state,
            SplitStatus::Whitespace,
            text,
        ),
        Token::Eof => Ok(ProcessResult::Done),
        other => back_to_body(sink, state, other),
    }
}
