//! The mode "initial" (HTML standard, section 13.2.6.4.1).
ghost use Rattle.h5_tables.specs.TurnText.{HasText, turn_text};
ghost use Rattle.h5_builder_spec.specs.modes.InitialMode.{initial, initial_else};
ghost use Rattle.h5_builder_state.specs.Steps.{IsSound};
ghost use Rattle.h5_builder_state.specs.Turn.{TakesToken};

use h5_builder_actions::append_comment_to_doc;
use h5_builder_state::{State, Turn, has_srcdoc, set_again, set_quirks_mode, unexpected};
use h5_interface::{QuirksMode, TreeSink};
use h5_tables::{InsertionMode, ProcessResult, SplitStatus, Token};

// Anything else: without a doctype the document is in quirks mode, unless it is that of an `iframe` with `srcdoc`.
#[tactic(auto, unfolding(h5_builder_spec::specs::modes::InitialMode::initial_else))]
fn initial_else<S: TreeSink>(sink: &mut S, state: &mut State<S::Handle>, token: Token) -> Turn
    requires { IsSound S.TreeSink sink.old state.old }
    ensures { TakesToken S.TreeSink initial_else token sink.old state.old sink.new state.new result }
{
    if has_srcdoc(sink, state) {
        set_again(sink, state, token);
        Ok(ProcessResult::Reprocess(InsertionMode::BeforeHtml))
    } else {
        unexpected(sink, state, &token);
        set_quirks_mode(sink, state, QuirksMode::Quirks);
        set_again(sink, state, token);
        Ok(ProcessResult::Reprocess(InsertionMode::BeforeHtml))
    }
}

/// A turn in "initial".
pub fn step_initial<S: TreeSink>(sink: &mut S, state: &mut State<S::Handle>, token: Token) -> Turn
    requires sound { IsSound S.TreeSink sink.old state.old }
    requires text { HasText (turn_text token) }
    ensures { TakesToken S.TreeSink initial token sink.old state.old sink.new state.new result }
{
    match token {
        Token::Comment(text) => {
            append_comment_to_doc(sink, state, text)?;
            Ok(ProcessResult::Done)
        }
        Token::Characters(SplitStatus::Whitespace, _) => Ok(ProcessResult::Done),
        other => initial_else(sink, state, other),
    }
}
