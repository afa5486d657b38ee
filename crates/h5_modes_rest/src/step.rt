//! A token in foreign content.
ghost use Rattle.std.specs.Prelude.{◌≢◌, [], ◌∷◌, string_bytes};
ghost use Rattle.h5_token.specs.TokenText.{tag_text};
ghost use Rattle.h5_tables.specs.TurnText.{HasText, NullTurn, TagTurn, TextTurn, turn_text};
ghost use Rattle.h5_builder_spec.specs.modes.ForeignContent.{foreign_tag, foreign_text_row, replacement_text};
ghost use Rattle.h5_builder_spec.specs.Rows.{AppendText, IsDone, errs};
ghost use Rattle.h5_modes_rest.specs.ForeignSteps.{Steps, StepsForeign};
ghost use Rattle.h5_builder_state.specs.Steps.{IsSound};
ghost use Rattle.h5_builder_state.specs.Turn.{FollowsRule};

use super::end_tags::foreign_end;
use super::start_tags::foreign_start;
use h5_builder_actions::{append_comment, append_text};
use h5_builder_state::{State, Turn, set_frameset_ok_by_text, unexpected};
use h5_interface::TreeSink;
use h5_tables::{ProcessResult, SplitStatus, Token};
use h5_token::{Tag, TagKind};
use std::alloc::AllocError;

/// The result of a token in foreign content, unless an allocation failed.
#[derive(Drop)]
pub enum ForeignStep {
    /// The turn ended.
    Ended(ProcessResult),
    /// The token, unchanged, is left to the rules of the current insertion mode, in the same turn.
    ByMode(Token),
}

// A text is inserted, and the frameset-ok flag is set to "not ok" if the text isn't all whitespace.
fn foreign_text<S: TreeSink>(
    sink: &mut S,
    state: &mut State<S::Handle>,
    status: SplitStatus,
    text: String,
) -> Turn
    requires sound { IsSound S.TreeSink sink.old state.old }
    requires text { string_bytes text ≢ [] }
    ensures { FollowsRule S.TreeSink (λ w. foreign_text_row (string_bytes text)) (TextTurn status (string_bytes text)) sink.old state.old sink.new state.new result }
{
    let _ = status;
    set_frameset_ok_by_text(sink, state, text.as_str());
    append_text(sink, state, text)?;
    Ok(ProcessResult::Done)
}

// A null, which U+FFFD replaces.
fn foreign_null<S: TreeSink>(sink: &mut S, state: &mut State<S::Handle>) -> Turn
    requires { IsSound S.TreeSink sink.old state.old }
    ensures { FollowsRule S.TreeSink (λ w. errs (AppendText replacement_text ∷ []) IsDone) NullTurn sink.old state.old sink.new state.new result }
{
    unexpected(sink, state, &Token::NullCharacter);
    let replacement = String::from_str(state.alloc, "\u{fffd}")?;
    append_text(sink, state, replacement)?;
    Ok(ProcessResult::Done)
}

fn foreign_tag<S: TreeSink>(
    sink: &mut S,
    state: &mut State<S::Handle>,
    tag: Tag,
) -> Result<ForeignStep, AllocError>
    requires { IsSound S.TreeSink sink.old state.old }
    ensures { Steps S.TreeSink (foreign_tag tag.kind (tag_text tag)) (TagTurn (tag_text tag)) sink.old state.old sink.new state.new result }
{
    match tag.kind {
        TagKind::StartTag => foreign_start(sink, state, tag),
        TagKind::EndTag => Ok(foreign_end(sink, state, tag)),
    }
}

/// A turn of a token in foreign content. Fails with `AllocError` if an allocation fails; the state is then sound.
pub fn step_foreign<S: TreeSink>(
    sink: &mut S,
    state: &mut State<S::Handle>,
    token: Token,
) -> Result<ForeignStep, AllocError>
    requires sound { IsSound S.TreeSink sink.old state.old }
    requires text { HasText (turn_text token) }
    ensures { StepsForeign S.TreeSink (turn_text token) sink.old state.old sink.new state.new result }
{
    match token {
        Token::Tag(tag) => foreign_tag(sink, state, tag),
        Token::Comment(text) => {
            append_comment(sink, state, text)?;
            Ok(ForeignStep::Ended(ProcessResult::Done))
        }
        Token::Characters(status, text) => {
            Ok(ForeignStep::Ended(foreign_text(sink, state, status, text)?))
        }
        Token::NullCharacter => Ok(ForeignStep::Ended(foreign_null(sink, state)?)),
        Token::Eof => Ok(ForeignStep::Ended(ProcessResult::Done)),
    }
}
