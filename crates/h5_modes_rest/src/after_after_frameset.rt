//! The mode "after after frameset" (HTML standard, section 13.2.6.4.21).
ghost use Rattle.h5_tables.specs.TurnText.{HasText, turn_text};
ghost use Rattle.h5_builder_spec.specs.modes.AfterAfterFrameset.{after_after_frameset, after_after_frameset_tag};
ghost use Rattle.h5_builder_state.specs.Steps.{IsOpen};
ghost use Rattle.h5_builder_state.specs.Turn.{TakesTag, TakesToken};

use super::after_frameset::after_frameset_start_tag;
use h5_builder_actions::append_comment_to_doc;
use h5_builder_state::{State, Turn, unexpected};
use h5_interface::TreeSink;
use h5_modes_body::in_body_text;
use h5_modes_head::ignored_tag;
use h5_tables::{ProcessResult, SplitStatus, Token};
use h5_token::{Tag, TagKind};

#[tactic(auto, using(h5_builder_spec::proofs::rows::KnownRuleLaws::after_frameset_start_known), unfolding(h5_builder_spec::specs::modes::AfterAfterFrameset::after_after_frameset_tag))]
fn after_after_frameset_tag<S: TreeSink>(
    sink: &mut S,
    state: &mut State<S::Handle>,
    tag: Tag,
) -> Turn
    requires { IsOpen S.TreeSink sink.old state.old }
    ensures { TakesTag S.TreeSink after_after_frameset_tag tag sink.old state.old sink.new state.new result }
{
    match tag.kind {
        TagKind::StartTag => after_frameset_start_tag(sink, state, tag),
        TagKind::EndTag => ignored_tag(sink, state, tag),
    }
}

/// A turn in "after after frameset".
pub fn step_after_after_frameset<S: TreeSink>(
    sink: &mut S,
    state: &mut State<S::Handle>,
    token: Token,
) -> Turn
    requires open { IsOpen S.TreeSink sink.old state.old }
    requires text { HasText (turn_text token) }
    ensures { TakesToken S.TreeSink after_after_frameset token sink.old state.old sink.new state.new result }
{
    match token {
        Token::Tag(tag) => after_after_frameset_tag(sink, state, tag),
        Token::Comment(text) => {
            append_comment_to_doc(sink, state, text)?;
            Ok(ProcessResult::Done)
        }
        Token::Characters(SplitStatus::Whitespace, text) => {
            in_body_text(sink, state, SplitStatus::Whitespace, text)
        }
        Token::Eof => Ok(ProcessResult::Done),
        other => {
            unexpected(sink, state, &other);
            Ok(ProcessResult::Done)
        }
    }
}
