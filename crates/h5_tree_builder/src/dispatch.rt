//! The turns of one token (HTML standard, section 13.2.6, "the tree construction dispatcher").
ghost use Rattle.std.specs.Prelude.{◌≡◌, ◌<◌, false, true, IfOk};
ghost use Rattle.h5_tables.specs.TurnText.{HasText, is_self_closing as is_closing_turn, turn_text};
ghost use Rattle.h5_builder_spec.specs.insertion.Foreign.{is_foreign};
ghost use Rattle.h5_builder_spec.specs.modes.ForeignContent.{dispatch};
ghost use Rattle.h5_builder_spec.specs.modes.Modes.{rule};
ghost use Rattle.h5_builder_spec.specs.Settle.{settle};
ghost use Rattle.h5_builder_state.specs.Steps.{IsSound, TellsErrors, errors_of, world_of};
ghost use Rattle.h5_builder_state.specs.Turn.{FollowsRule};
ghost use Rattle.h5_tree_builder.specs.Chains.{IsReady, Settles};

use super::turns_taken::Taken;
use h5_builder_actions::is_foreign;
use h5_builder_state::{
    State, Turn, current_mode, report_error, set_mode, take_again, take_answer, unexpected,
};
use h5_interface::TreeSink;
use h5_modes_body::{step_after_after_body, step_after_body, step_in_body};
use h5_modes_head::{
    step_after_head, step_before_head, step_before_html, step_in_head, step_in_head_noscript,
    step_initial, step_text_mode,
};
use h5_modes_rest::{
    ForeignStep, step_after_after_frameset, step_after_frameset, step_foreign, step_in_frameset,
    step_in_template,
};
use h5_modes_tables::{
    step_in_caption, step_in_cell, step_in_column_group, step_in_row, step_in_table,
    step_in_table_body, step_in_table_text,
};
use h5_tables::{InsertionMode, ProcessResult, Token, TreeError};
use h5_token::{TagKind, TokenSinkResult};
use std::alloc::AllocError;

// One turn, by the rule of the mode.
fn step_by_mode<S: TreeSink>(sink: &mut S, state: &mut State<S::Handle>, token: Token) -> Turn
    requires ready { IsReady S.TreeSink sink.old state.old }
    requires text { HasText (turn_text token) }
    ensures { FollowsRule S.TreeSink (rule (world_of S.TreeSink sink.old state.old).mode (turn_text token)) (turn_text token) sink.old state.old sink.new state.new result }
{
    match current_mode(sink, state) {
        InsertionMode::Initial => step_initial(sink, state, token),
        InsertionMode::BeforeHtml => step_before_html(sink, state, token),
        InsertionMode::BeforeHead => step_before_head(sink, state, token),
        InsertionMode::InHead => step_in_head(sink, state, token),
        InsertionMode::InHeadNoscript => step_in_head_noscript(sink, state, token),
        InsertionMode::AfterHead => step_after_head(sink, state, token),
        InsertionMode::InBody => step_in_body(sink, state, token),
        InsertionMode::Text => step_text_mode(sink, state, token),
        InsertionMode::InTable => step_in_table(sink, state, token),
        InsertionMode::InTableText => step_in_table_text(sink, state, token),
        InsertionMode::InCaption => step_in_caption(sink, state, token),
        InsertionMode::InColumnGroup => step_in_column_group(sink, state, token),
        InsertionMode::InTableBody => step_in_table_body(sink, state, token),
        InsertionMode::InRow => step_in_row(sink, state, token),
        InsertionMode::InCell => step_in_cell(sink, state, token),
        InsertionMode::AfterBody => step_after_body(sink, state, token),
        InsertionMode::AfterAfterBody => step_after_after_body(sink, state, token),
        InsertionMode::InTemplate => step_in_template(sink, state, token),
        InsertionMode::InFrameset => step_in_frameset(sink, state, token),
        InsertionMode::AfterFrameset => step_after_frameset(sink, state, token),
        InsertionMode::AfterAfterFrameset => step_after_after_frameset(sink, state, token),
    }
}

// One turn in foreign content: by its rules, or by the rule of the mode if they leave the token to it.
#[inline(never)]
fn step_in_foreign<S: TreeSink>(sink: &mut S, state: &mut State<S::Handle>, token: Token) -> Turn
    requires ready { IsReady S.TreeSink sink.old state.old }
    requires text { HasText (turn_text token) }
    requires foreign { is_foreign S.choices (turn_text token) (world_of S.TreeSink sink.old state.old) ≡ true }
    ensures { FollowsRule S.TreeSink (dispatch S.choices (turn_text token)) (turn_text token) sink.old state.old sink.new state.new result }
{
    match step_foreign(sink, state, token)? {
        ForeignStep::Ended(result) => Ok(result),
        ForeignStep::ByMode(again) => step_by_mode(sink, state, again),
    }
}

// One turn: by the rules of foreign content, or by the rule of the mode.
#[inline(always)]
fn step<S: TreeSink>(sink: &mut S, state: &mut State<S::Handle>, token: Token) -> Turn
    requires ready { IsReady S.TreeSink sink.old state.old }
    requires text { HasText (turn_text token) }
    ensures { FollowsRule S.TreeSink (dispatch S.choices (turn_text token)) (turn_text token) sink.old state.old sink.new state.new result }
{
    if is_foreign(sink, state, &token) {
        step_in_foreign(sink, state, token)
    } else {
        step_by_mode(sink, state, token)
    }
}

// The token is a start tag with the self-closing flag.
fn is_self_closing(token: &Token) -> bool
    ensures { result ≡ is_closing_turn (turn_text token.now) }
{
    match token {
        Token::Tag(tag) => tag.kind == TagKind::StartTag && tag.self_closing,
        _ => false,
    }
}

// Reports a parse error for a self-closing flag that wasn't acknowledged.
fn error_if_self_closing<S: TreeSink>(sink: &mut S, state: &State<S::Handle>, self_closing: bool)
    requires { IsSound S.TreeSink sink.old state.now }
    ensures told { TellsErrors S.TreeSink sink.old sink.new state.now }
    ensures quiet { self_closing ≡ false → errors_of S.TreeSink sink.new ≡ errors_of S.TreeSink sink.old }
    ensures noted { self_closing ≡ true → 0 < errors_of S.TreeSink sink.new }
{
    if self_closing {
        report_error(sink, state, TreeError::SelfClosingTagWithContent);
    }
}

/// Runs the chain of a token: turn after turn, as long as they end in "again". Returns the number of turns and the
/// reply. Fails with `AllocError` if an allocation fails; the state is then sound.
#[inline(always)]
pub fn process_to_completion<S: TreeSink>(
    sink: &mut S,
    state: &mut State<S::Handle>,
    token: Token,
) -> Result<Taken<S::Handle>, AllocError>
    requires ready { IsReady S.TreeSink sink.old state.old }
    requires text { HasText (turn_text token) }
    ensures { Settles S.TreeSink (settle S.choices (turn_text token)) true sink.old state.old sink.new state.new result }
{
    let self_closing = is_self_closing(&token);
    let mut rest = token;
    let mut turns: u64 = 1;
    'turns: loop {
        match step(sink, state, rest)? {
            ProcessResult::Done => {
                error_if_self_closing(sink, state, self_closing);
                return Ok(Taken {
                    turns,
                    answer: TokenSinkResult::Continue,
                });
            }
            ProcessResult::DoneAckSelfClosing => {
                return Ok(Taken {
                    turns,
                    answer: TokenSinkResult::Continue,
                });
            }
            ProcessResult::Answer => {
                let answer = take_answer(sink, state);
                return Ok(Taken { turns, answer });
            }
            ProcessResult::Reprocess(mode) => {
                let again = take_again(sink, state);
                set_mode(sink, state, mode);
                rest = again;
                turns += 1;
            }
        }
    }
}
