//! The mode "in table text" (HTML standard, section 13.2.6.4.10).
ghost use Rattle.std.specs.Prelude.{◌≡◌, ◌≢◌, [], IfOk, string_bytes};
ghost use Rattle.h5_tables.specs.TurnResult.{Reprocess};
ghost use Rattle.h5_tables.specs.TurnText.{HasText, TextTurn, turn_text};
ghost use Rattle.h5_tables.specs.declared.modes.SplitStatus.TheVariants.{NotSplit};
ghost use Rattle.h5_tables.specs.declared.turns.Token.{Token};
ghost use Rattle.h5_builder_spec.specs.modes.InTableText.{in_table_text, in_table_text_else, pending_text};
ghost use Rattle.h5_builder_spec.specs.Rows.{AppendPendingText, Follows};
ghost use Rattle.h5_builder_spec.specs.inner.Kept.{HasHtmlRoot};
ghost use Rattle.h5_builder_state.specs.Steps.{IsSound, MakesIfOk, errors_of, world_of};
ghost use Rattle.h5_builder_state.specs.Turn.{TakesToken, FollowsRule};

use super::foster::foster_parent_in_body;
use h5_builder_actions::{append_pending_text, append_text, take_pending_text};
use h5_builder_state::{PendingText, State, Turn, saved_mode, set_again, unexpected};
use h5_interface::TreeSink;
use h5_tables::{InsertionMode, ProcessResult, SplitStatus, Token};
use std::alloc::AllocError;

// The buffered text: if it is all whitespace, it is inserted where it came; otherwise it is handled by the rules of "in
// body", with foster parenting on.
#[tactic(auto, unfolding(h5_builder_spec::specs::modes::InTableText::pending_text))]
fn insert_pending_text<S: TreeSink>(
    sink: &mut S,
    state: &mut State<S::Handle>,
    pending: PendingText,
) -> Turn
    requires sound { IsSound S.TreeSink sink.old state.old }
    requires ready { HasHtmlRoot (world_of S.TreeSink sink.old state.old) }
    ensures { FollowsRule S.TreeSink (pending_text pending) (TextTurn NotSplit pending) sink.old state.old sink.new state.new result }
{
    if pending.is_empty() {
        Ok(ProcessResult::Done)
    } else if pending.is_blank() {
        append_text(sink, state, pending.into_string())?;
        Ok(ProcessResult::Done)
    } else {
        let text = pending.into_string();
        foster_parent_in_body(sink, state, Token::Characters(SplitStatus::NotSplit, text))
    }
}

/// Before any token that isn't a text or a null: inserts the buffered text first, and returns the mode that was left,
/// in which the token must be reprocessed. Fails with `AllocError` if an allocation fails; the state is then sound.
#[tactic(auto, unfolding(h5_builder_spec::specs::modes::InTableText::in_table_text_else))]
pub fn leave_table_text<S: TreeSink>(
    sink: &mut S,
    state: &mut State<S::Handle>,
) -> Result<InsertionMode, AllocError>
    requires sound { IsSound S.TreeSink sink.old state.old }
    requires ready { HasHtmlRoot (world_of S.TreeSink sink.old state.old) }
    ensures asks { IfOk result (λ mode. (token : Token) →
        Follows S.choices S.node (in_table_text_else (turn_text token) (world_of S.TreeSink sink.old state.old)) (turn_text token) (world_of S.TreeSink sink.old state.old) (world_of S.TreeSink sink.new state.new) (errors_of S.TreeSink sink.old) (errors_of S.TreeSink sink.new) (Reprocess mode token)) }
    ensures sound { IsSound S.TreeSink sink.new state.new }
{
    let pending = take_pending_text(sink, state);
    insert_pending_text(sink, state, pending)?;
    Ok(saved_mode(sink, state))
}

// Anything else: the buffered text comes first, and then the token in the mode that was left.
fn in_table_text_else<S: TreeSink>(sink: &mut S, state: &mut State<S::Handle>, token: Token) -> Turn
    requires sound { IsSound S.TreeSink sink.old state.old }
    requires ready { HasHtmlRoot (world_of S.TreeSink sink.old state.old) }
    ensures { TakesToken S.TreeSink in_table_text_else token sink.old state.old sink.new state.new result }
{
    let mode = leave_table_text(sink, state)?;
    set_again(sink, state, token);
    Ok(ProcessResult::Reprocess(mode))
}

/// Appends a text of the table to the buffered text. Fails with `AllocError` if an allocation fails.
pub fn keep_table_text<S: TreeSink>(
    sink: &S,
    state: &mut State<S::Handle>,
    text: String,
) -> Result<(), AllocError>
    requires { IsSound S.TreeSink sink.now state.old }
    ensures { MakesIfOk S.TreeSink (AppendPendingText (string_bytes text)) sink.now state.old sink.now state.new result }
{
    append_pending_text(sink, state, text)
}

/// A turn in "in table text".
pub fn step_in_table_text<S: TreeSink>(
    sink: &mut S,
    state: &mut State<S::Handle>,
    token: Token,
) -> Turn
    requires sound { IsSound S.TreeSink sink.old state.old }
    requires ready { HasHtmlRoot (world_of S.TreeSink sink.old state.old) }
    requires text { HasText (turn_text token) }
    ensures { TakesToken S.TreeSink in_table_text token sink.old state.old sink.new state.new result }
{
    match token {
        Token::Characters(_, text) => {
            keep_table_text(sink, state, text)?;
            Ok(ProcessResult::Done)
        }
        Token::NullCharacter => {
            unexpected(sink, state, &Token::NullCharacter);
            Ok(ProcessResult::Done)
        }
        token => in_table_text_else(sink, state, token),
    }
}
