//! The parse errors of the current byte, and of the end.

ghost use Rattle.std.specs.Prelude.{◌≡◌};
ghost use Rattle.h5_tokenizer_spec.specs.AtEnd.{at_end};
ghost use Rattle.h5_tokenizer_spec.specs.InputErrors.{character_errors};
ghost use Rattle.h5_tokenizer_spec.specs.Machine.{turn};
ghost use Rattle.h5_tokenizer_spec.specs.ReferenceTable.{references};
ghost use Rattle.h5_tokenizer_spec.specs.SeenAhead.{seen_ahead, told_of_row};
ghost use Rattle.h5_tokenizer_spec.specs.Telling.{end_errors, row_errors};
ghost use Rattle.h5_tokenizer_spec.specs.Told.{Tells, told_at};
ghost use Rattle.h5_tokenizer_states.specs.MachineText.{place_of};
ghost use Rattle.h5_tokenizer_states.specs.RowErrors.{all_of};
ghost use Rattle.h5_tokenizer_states.specs.StateOf.{comment_state_of, doctype_state_of, state_of};
ghost use Rattle.h5_token.specs.TokenText.{DoctypeText};

use super::codes::input_error;
use super::doctype_errors::doctype_error;
use super::end_errors::{
    comment_end_error, doctype_end_error, reference_end_errors, tag_end_errors, text_end_error,
};
use super::machine::{Machine, normal};
use super::machine_state::{CommentState, DoctypeState, MachineState};
use super::reference_errors::{reference_error, seen_behind_name};
use super::row_errors::RowErrors;
use super::tag_errors::tag_errors;
use super::text_errors::{comment_error, text_error};
use h5_tokenizer_spec::{ErrorSink, Position};

/// Reports the error of a character of the input stream, if there is one, at this position.
pub fn tell_input_error<E: ErrorSink>(c: char, at: Position, errors: &mut E)
    ensures { Tells E.Told errors.old errors.new (told_at at (character_errors c)) }
{
    match input_error(c) {
        None => {}
        Some(error) => errors.error(error, at),
    }
}

// Returns how much of what was seen in a comment state the standard hasn't consumed.
fn comment_ahead(state: CommentState, text: &str) -> usize
    ensures { result ≡ seen_ahead references (comment_state_of state text.now) }
{
    match state {
        CommentState::MarkupDeclarationOpen => text.len(),
        _ => 0,
    }
}

// Returns how much of what was seen in a doctype state the standard hasn't consumed.
fn doctype_ahead(state: DoctypeState, seen: &str) -> usize
    ensures { (doctype : DoctypeText) → result ≡ seen_ahead references (doctype_state_of state doctype seen.now) }
{
    match state {
        DoctypeState::AfterDoctypeName => seen.len(),
        _ => 0,
    }
}

impl Machine {
    // Returns the errors of the state's row, at a normalized byte.
    fn row_errors(&self, b: u8) -> RowErrors
        ensures { all_of result ≡ (turn references self.now.last (state_of self.now.at self.now.parts) b).errors }
    {
        match self.at {
            MachineState::Text(state) => RowErrors::one(text_error(state, b)),
            MachineState::Tag(state) => tag_errors(state, &self.tag, b),
            MachineState::Comment(state) => RowErrors::one(comment_error(
                state,
                self.comment.as_str(),
                b,
            )),
            MachineState::Doctype(state) => RowErrors::one(doctype_error(
                state,
                self.buffer.as_str(),
                b,
            )),
            MachineState::Reference(state, return_to) => RowErrors::one(reference_error(
                state,
                return_to,
                &self.reference,
                b,
            )),
        }
    }

    // Returns the errors of the end, in the state.
    fn end_errors(&self) -> RowErrors
        ensures { all_of result ≡ (at_end references (state_of self.now.at self.now.parts)).errors }
    {
        match self.at {
            MachineState::Text(state) => RowErrors::one(text_end_error(state)),
            MachineState::Tag(state) => tag_end_errors(state, &self.tag),
            MachineState::Comment(state) => RowErrors::one(comment_end_error(state)),
            MachineState::Doctype(state) => RowErrors::one(doctype_end_error(
                state,
                self.buffer.as_str(),
            )),
            MachineState::Reference(state, return_to) => {
                reference_end_errors(state, return_to, &self.reference)
            }
        }
    }

    /// Returns how much of what was seen in the state the standard hasn't consumed, since it looks ahead there.
    pub fn seen_ahead(&self) -> usize
        ensures { result ≡ seen_ahead references (state_of self.now.at self.now.parts) }
    {
        match self.at {
            MachineState::Text(_) => 0,
            MachineState::Tag(_) => 0,
            MachineState::Comment(state) => comment_ahead(state, self.comment.as_str()),
            MachineState::Doctype(state) => doctype_ahead(state, self.buffer.as_str()),
            MachineState::Reference(state, _) => seen_behind_name(state, &self.reference),
        }
    }

    /// Reports the errors of the row at the current byte, at this position, or before what was seen if the standard looks
    /// ahead.
    pub fn tell_errors<E: ErrorSink>(&self, b: u8, at: Position, errors: &mut E)
        ensures { Tells E.Told errors.old errors.new (told_of_row (seen_ahead references (place_of self.now).state) at (row_errors references (place_of self.now) b)) }
    {
        self.row_errors(normal(b))
            .tell(self.seen_ahead() as u64, at, errors);
    }

    /// Reports the errors of the end of the input, at this position, or before what was seen if the standard looks ahead.
    pub fn tell_errors_at_end<E: ErrorSink>(&self, at: Position, errors: &mut E)
        ensures { Tells E.Told errors.old errors.new (told_of_row (seen_ahead references (place_of self.now).state) at (end_errors references (place_of self.now))) }
    {
        self.end_errors().tell(self.seen_ahead() as u64, at, errors);
    }
}
