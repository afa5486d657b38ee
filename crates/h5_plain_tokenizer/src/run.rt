//! Steps, one after another.
ghost use Rattle.std.specs.Prelude.{◌≡◌, false};
ghost use Rattle.h5_plain_tokenizer.specs.Steps.{place_of, Pending, Runs, RunsFrom, Skips};

use super::state::{Halt, Search, State, Turn};
use super::steps::step;
use h5_markup::{Match, literal};
use h5_token::{BuildFault, TokenSink};
use std::alloc::Global;

// Takes steps until a reply stops the tokenizer, or further input decides what comes next.
fn run<'a, S: TokenSink>(
    sink: &mut S,
    state: &mut State,
    alloc: Global,
    text: &'a str,
    search: Option<Search>,
) -> Result<Halt<'a, S::Handle>, BuildFault>
    requires started { state.old.at_start ≡ false }
    requires pending { Pending search state.old.mode state.old.last text.now }
    ensures { Runs S.reply_to S.after S.is_foreign S.node (place_of state.old) (S.meaning sink.old) text.now
        (place_of state.new) (S.meaning sink.new) result }
{
    let mut rest = text;
    let mut search = search;
    'steps: loop {
        match step(sink, state, alloc, rest, search)? {
            Turn::Waits(search) => return Ok(Halt::Waits(rest, search)),
            Turn::Stops(stop, after, lines) => {
                state.line = state.line.saturating_add(lines);
                return Ok(Halt::Stops(stop, after));
            }
            Turn::Goes(after, lines) => {
                state.line = state.line.saturating_add(lines);
                // For the loop's next turn: `after` is UTF-8.
                let _bytes = after.as_bytes();
                rest = after;
                search = None;
            }
        }
    }
}

// Skips the byte order mark, if one is allowed and there. Returns nothing if further input decides that.
fn skip_mark<'a>(
    state: &mut State,
    text: &'a str,
    search: Option<Search>,
) -> Option<(&'a str, Option<Search>)>
    requires { Pending search state.old.mode state.old.last text.now }
    ensures { Skips (place_of state.old) text.now (place_of state.new) result }
{
    if !state.at_start {
        return Some((text, search));
    }
    match literal(text, "\u{feff}") {
        Match::Open => None,
        Match::No => {
            state.at_start = false;
            Some((text, None))
        }
        Match::Found(_, rest) => {
            state.at_start = false;
            Some((rest, None))
        }
    }
}

/// Skips the byte order mark, if there is one, and takes steps until a reply stops the tokenizer, or further input decides what
/// comes next.
pub fn run_from<'a, S: TokenSink>(
    sink: &mut S,
    state: &mut State,
    alloc: Global,
    text: &'a str,
    search: Option<Search>,
) -> Result<Halt<'a, S::Handle>, BuildFault>
    requires { Pending search state.old.mode state.old.last text.now }
    ensures { RunsFrom S.reply_to S.after S.is_foreign S.node (place_of state.old) (S.meaning sink.old) text.now
        (place_of state.new) (S.meaning sink.new) result }
{
    match skip_mark(state, text, search) {
        None => Ok(Halt::Waits(text, None)),
        Some((rest, search)) => run(sink, state, alloc, rest, search),
    }
}
