//! The end of the input.

ghost use Rattle.std.specs.Prelude.{◌≡◌, string_bytes};
ghost use Rattle.h5_tokenizer_input.specs.Told.{handed, told};
ghost use Rattle.h5_tokenizer_spec.specs.End.{Closes};
ghost use Rattle.h5_tokenizer_spec.specs.ReferenceTable.{references};
ghost use Rattle.h5_tokenizer_states.specs.Ending.{left_of};
ghost use Rattle.h5_tokenizer_states.specs.MachineText.{place_of};
ghost use Rattle.h5_standard_tokenizer.specs.Closing.{TakesAll};

use super::handing::take_token;
use h5_token::{BuildFault, Token, TokenSink};
use h5_tokenizer_input::{finish, offer};
use h5_tokenizer_states::{CurrentToken, Machine, end_of};
use std::alloc::Global;

// Passes a text to the sink, unless it is empty.
fn offer_text<S: TokenSink>(sink: &mut S, text: String, line: u64) -> Result<(), BuildFault>
    ensures { TakesAll S.reply_to S.after S.ended (S.meaning sink.old) (told (string_bytes text)) line (S.meaning sink.new) result }
{
    if text.as_str().is_empty() {
        return Ok(());
    }
    offer(sink, Token::CharacterTokens(text), line)
}

// Passes the token that is being built to the sink, if it must be emitted.
fn offer_construct<S: TokenSink>(
    sink: &mut S,
    machine: &mut Machine,
    construct: Option<CurrentToken>,
) -> Result<(), BuildFault>
    ensures takes { TakesAll S.reply_to S.after S.ended (S.meaning sink.old) (handed (left_of construct machine.old.parts)) machine.old.began (S.meaning sink.new) result }
    ensures line { machine.new.line ≡ machine.old.line }
{
    let Some(construct) = construct else {
        return Ok(());
    };
    let token = take_token(machine, construct)?;
    offer(sink, token, machine.began())
}

/// Passes what the end of the input makes of what is being built to the sink, then the end-of-file token, and calls the sink's
/// `end`.
pub fn close<S: TokenSink>(
    sink: &mut S,
    machine: &mut Machine,
    alloc: Global,
) -> Result<(), BuildFault>
    ensures { Closes S.reply_to S.after S.ended references (place_of machine.old) (S.meaning sink.old) (S.meaning sink.new) result }
{
    let mut text = String::new(alloc);
    let construct = end_of(machine, &mut text)?;
    offer_text(sink, text, machine.began())?;
    offer_construct(sink, machine, construct)?;
    finish(sink, machine.line())
}
