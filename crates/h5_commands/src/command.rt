//! A run of the program.
ghost use Rattle.std.specs.Prelude.{◌≡◌, None, Some};
ghost use Rattle.std.specs.IoError.{error_kind};
ghost use Rattle.h5_commands.specs.Faults.{message_of, status_of};
ghost use Rattle.h5_commands.specs.Outcome.{AppendsFront, AreRead, Comes, ComesBy, Ends, EndsUnread, IsRead, LinesCome, Puts};
ghost use Rattle.h5_commands.specs.Words.{command_of, command_text};

use super::build::{build, fragment_output, html_output, tree_output};
use super::fault::{Fault, bad_line, fault_of_read, fault_of_words};
use super::output::write_bytes;
use super::words::{Command, command_of};
use h5_print::{Item, LineFault, parse};
use std::alloc::Global;
use std::io::{self, Read, Write};

/// Runs the command with these arguments, and returns the exit status: 0, or that of an error, whose message is written to `faults`. The
/// output is written to `out` after all of it is computed; if an error comes before that, nothing is written to `out`.
///
/// Errors are found in this order: arguments that aren't a command, before anything is read; an input that can't be read; an input that
/// isn't UTF-8; the first bad line; an output that can't be written. A failed allocation may come at any time.
pub fn run<R: Read + Drop, Out: Write, Note: Write>(
    alloc: Global,
    words: &[String],
    input: R,
    out: &mut Out,
    faults: &mut Note,
) -> u8
    ensures ends { Ends words.now (R.remaining input)
        (Out.contents out.old) (Out.contents out.new) (Note.contents faults.old) (Note.contents faults.new) result }
    ensures usage { command_of words.now ≡ None → result ≡ 2 }
{
    match output_of(alloc, words, input) {
        Ok(output) => put(output.as_slice(), out, faults),
        Err(fault) => say(&fault, faults),
    }
}

/// Writes the message for arguments that can't be read, and returns the exit status: 1 exactly if the error's kind is `OutOfMemory`, and
/// else 2, since arguments that aren't text aren't a command.
pub fn refuse_words<Note: Write>(error: &io::Error, faults: &mut Note) -> u8
    ensures { EndsUnread (error_kind error.now) (Note.contents faults.old) (Note.contents faults.new) result }
{
    let fault = fault_of_words(error);
    say(&fault, faults)
}

// The output of a command.
fn output_of<R: Read + Drop>(alloc: Global, words: &[String], input: R) -> Result<Vec<u8>, Fault>
    ensures { Comes words.now (R.remaining input) result }
{
    match command_of(words) {
        Some(command) => output_by(alloc, command, input),
        None => Err(Fault::Usage),
    }
}

fn output_by<R: Read + Drop>(alloc: Global, command: Command, input: R) -> Result<Vec<u8>, Fault>
    ensures { ComesBy (Some (command_text command.entry)) (R.remaining input) result }
{
    let text = read_text(alloc, input)?;
    match command {
        Command::Tokens => tokens_output(alloc, text.as_str()),
        Command::Tree => tree_output(alloc, text),
        Command::Fragment(context) => fragment_output(alloc, context, text),
        Command::Html => html_output(alloc, text),
    }
}

// The output of lines of tokens.
fn tokens_output(alloc: Global, text: &str) -> Result<Vec<u8>, Fault>
    ensures { LinesCome text.now result }
{
    let items = read_items(alloc, text)?;
    build(alloc, items)
}

// The whole input.
fn read_text<R: Read + Drop>(alloc: Global, mut input: R) -> Result<String, Fault>
    ensures { IsRead (R.remaining input) result }
{
    let mut bytes = Vec::new(alloc);
    match input.read_to_end(&mut bytes) {
        Ok(_) => match String::from_utf8(bytes) {
            Ok(text) => Ok(text),
            Err(_) => Err(Fault::NotUtf8),
        },
        Err(error) => Err(fault_of_read(&error)),
    }
}

// The items of the input.
fn read_items(alloc: Global, text: &str) -> Result<Vec<Item>, Fault>
    ensures { AreRead text.now result }
{
    match parse(alloc, text) {
        Ok(items) => Ok(items),
        Err(LineFault::Bad(line)) => Err(bad_line(alloc, line)?),
        Err(LineFault::Memory) => Err(Fault::Memory),
    }
}

// Writes the output, and returns the status.
fn put<Out: Write, Note: Write>(output: &[u8], out: &mut Out, faults: &mut Note) -> u8
    ensures { Puts output.now (Out.contents out.old) (Out.contents out.new) (Note.contents faults.old) (Note.contents faults.new) result }
{
    if write_bytes(out, output).is_err() || out.flush().is_err() {
        return say(&Fault::Unwritable, faults);
    }
    0
}

// Writes the message of an error, and returns its status, also if the message can't be written.
fn say<W: Write>(fault: &Fault, faults: &mut W) -> u8
    ensures status { result ≡ status_of fault.now }
    ensures said { AppendsFront (W.contents faults.old) (W.contents faults.new) (message_of fault.now) }
{
    let _ = write_bytes(faults, fault.message().as_bytes());
    fault.status()
}
