//! The mode "text" (HTML standard, section 13.2.6.4.8).
ghost use Rattle.std.specs.Prelude.{codes};
ghost use Rattle.h5_tables.specs.TurnText.{EofTurn, HasText, turn_text};
ghost use Rattle.h5_builder_spec.specs.modes.TextMode.{text_end, text_mode};
ghost use Rattle.h5_builder_state.specs.Steps.{IsOpen};
ghost use Rattle.h5_builder_state.specs.Turn.{TakesTag, TakesToken, FollowsRule};

use h5_builder_actions::append_text;
use h5_builder_state::{
    State, Turn, current_node, is_current_html, mark_started, pop, report_error, saved_mode,
    set_again, set_answer, set_mode, unexpected,
};
use h5_interface::TreeSink;
use h5_names::{KnownName, LocalName};
use h5_tables::{ProcessResult, Token, TreeError};
use h5_token::{Tag, TagKind, TokenSinkResult};

// An end tag: the text's element is closed; for a script, the reply gives the element to the tokenizer.
#[tactic(auto, unfolding(h5_builder_spec::specs::Changes::pop))]
fn text_end<S: TreeSink>(sink: &mut S, state: &mut State<S::Handle>, tag: Tag) -> Turn
    requires { IsOpen S.TreeSink sink.old state.old }
    ensures { TakesTag S.TreeSink text_end tag sink.old state.old sink.new state.new result }
{
    let element = current_node(sink, state);
    pop(sink, state);
    let mode = saved_mode(sink, state);
    set_mode(sink, state, mode);
    if tag.name.is(KnownName::Script) {
        set_answer(sink, state, TokenSinkResult::Script(element));
        Ok(ProcessResult::Answer)
    } else {
        Ok(ProcessResult::Done)
    }
}

// The end of the file: a script that is open is marked as started, and the text's element is closed.
#[tactic(auto, unfolding(h5_builder_spec::specs::Changes::pop, h5_builder_spec::specs::Changes::mark_started))]
fn text_eof<S: TreeSink>(sink: &mut S, state: &mut State<S::Handle>) -> Turn
    requires { IsOpen S.TreeSink sink.old state.old }
    ensures { FollowsRule S.TreeSink (text_mode EofTurn) EofTurn sink.old state.old sink.new state.new result }
{
    report_error(sink, state, TreeError::EofInText);
    if is_current_html(sink, state, &LocalName::from_known(KnownName::Script)) {
        mark_started(sink, state);
    }
    pop(sink, state);
    let mode = saved_mode(sink, state);
    set_again(sink, state, Token::Eof);
    Ok(ProcessResult::Reprocess(mode))
}

/// A turn in "text". Start tags, comments and nulls shouldn't reach it; each is a parse error.
pub fn step_text_mode<S: TreeSink>(sink: &mut S, state: &mut State<S::Handle>, token: Token) -> Turn
    requires open { IsOpen S.TreeSink sink.old state.old }
    requires text { HasText (turn_text token) }
    ensures { TakesToken S.TreeSink text_mode token sink.old state.old sink.new state.new result }
{
    match token {
        Token::Tag(tag) => match tag.kind {
            TagKind::EndTag => text_end(sink, state, tag),
            TagKind::StartTag => {
                unexpected(sink, state, &Token::Tag(tag));
                Ok(ProcessResult::Done)
            }
        },
        Token::Characters(_, text) => {
            append_text(sink, state, text)?;
            Ok(ProcessResult::Done)
        }
        Token::Eof => text_eof(sink, state),
        other => {
            unexpected(sink, state, &other);
            Ok(ProcessResult::Done)
        }
    }
}
