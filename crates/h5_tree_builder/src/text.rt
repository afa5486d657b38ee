//! Takes a text, run by run (HTML standard, section 13.2.6.1: the standard takes characters one by one; a run of
//! characters that a rule handles in the same way is taken at once).
ghost use Rattle.std.specs.Prelude.{◌≡◌, ◌≢◌, ◌<◌, [], length, take, true, IfOk, IsOk, OnOk, string_bytes};
ghost use Rattle.std.specs.Str.{IsCharBoundary};
ghost use Rattle.h5_builder_spec.specs.insertion.Foreign.{is_foreign_text};
ghost use Rattle.h5_builder_spec.specs.Run.{is_empty_text, text_step, without_lf};
ghost use Rattle.h5_builder_spec.specs.inner.Kept.{Fits};
ghost use Rattle.h5_builder_spec.specs.Text.{IsRun, is_quiet_text, text_any};
ghost use Rattle.h5_tables.specs.declared.modes.SplitStatus.TheVariants.{NotSplit};
ghost use Rattle.h5_builder_state.specs.Steps.{IsSound, errors_of, world_of};
ghost use Rattle.h5_tree_builder.specs.Chains.{IsReady, Settles};

use super::dispatch::process_to_completion;
use super::turns_taken::Taken;
use h5_builder_actions::is_foreign_text;
use h5_builder_state::{State, current_mode, first_run};
use h5_interface::TreeSink;
use h5_tables::{SplitStatus, Token};
use h5_token::TokenSinkResult;
use std::alloc::AllocError;

// The first run of a text; in foreign content, the whole text.
fn next_run<S: TreeSink>(sink: &S, state: &State<S::Handle>, text: &str) -> (SplitStatus, usize)
    requires sound { IsSound S.TreeSink sink.now state.now }
    requires text { text.now ≢ [] }
    ensures boundary { IsCharBoundary text.now result.1 }
    ensures some { 0 < result.1 }
    ensures run { IsRun (world_of S.TreeSink sink.now state.now).mode (is_foreign_text S.choices (world_of S.TreeSink sink.now state.now)) result.0 (take result.1 text.now) }
    ensures whole { is_foreign_text S.choices (world_of S.TreeSink sink.now state.now) ≡ true → (result.0 ≡ NotSplit) × (result.1 ≡ length text.now) }
{
    if is_foreign_text(sink, state) {
        (SplitStatus::NotSplit, text.len())
    } else {
        first_run(current_mode(sink, state), text)
    }
}

// Takes a run of a text.
#[inline(always)]
fn process_run<S: TreeSink>(
    sink: &mut S,
    state: &mut State<S::Handle>,
    status: SplitStatus,
    run: String,
) -> Result<u64, AllocError>
    requires ready { IsReady S.TreeSink sink.old state.old }
    requires text { string_bytes run ≢ [] }
    requires run { IsRun (world_of S.TreeSink sink.old state.old).mode (is_foreign_text S.choices (world_of S.TreeSink sink.old state.old)) status (string_bytes run) }
    ensures done { OnOk result (world_of S.TreeSink sink.new state.new ≡ text_any S.choices (string_bytes run) (world_of S.TreeSink sink.old state.old)) }
    ensures quiet { OnOk result (is_quiet_text (world_of S.TreeSink sink.old state.old).mode ≡ true → errors_of S.TreeSink sink.new ≡ errors_of S.TreeSink sink.old) }
    ensures sound { IsSound S.TreeSink sink.new state.new }
    ensures fits { OnOk result (Fits (world_of S.TreeSink sink.new state.new)) }
{
    let taken = process_to_completion(sink, state, Token::Characters(status, run))?;
    Ok(taken.turns)
}

// Takes a text, split into its runs.
#[tactic(auto, using(crate::proofs::TextLaws::run_then_rest, crate::proofs::TextLaws::mode_stays))]
fn process_runs<S: TreeSink>(
    sink: &mut S,
    state: &mut State<S::Handle>,
    text: &str,
) -> Result<u64, AllocError>
    requires ready { IsReady S.TreeSink sink.old state.old }
    ensures done { OnOk result (world_of S.TreeSink sink.new state.new ≡ text_any S.choices text.now (world_of S.TreeSink sink.old state.old)) }
    ensures quiet { OnOk result (is_quiet_text (world_of S.TreeSink sink.old state.old).mode ≡ true → errors_of S.TreeSink sink.new ≡ errors_of S.TreeSink sink.old) }
    ensures sound { IsSound S.TreeSink sink.new state.new }
    ensures fits { OnOk result (Fits (world_of S.TreeSink sink.new state.new)) }
{
    let mut rest = text;
    let mut turns: u64 = 0;
    'runs: while !rest.is_empty() {
        let (status, length) = next_run(sink, state, rest);
        let (run, tail) = rest.split_at(length);
        let run = String::from_str(state.alloc, run)?;
        turns = turns.saturating_add(process_run(sink, state, status, run)?);
        rest = tail;
    }
    Ok(turns)
}

// Takes a text, run by run; if it is a single run, it is moved. Returns the turns of all runs.
#[inline(always)]
fn process_text<S: TreeSink>(
    sink: &mut S,
    state: &mut State<S::Handle>,
    text: String,
) -> Result<u64, AllocError>
    requires ready { IsReady S.TreeSink sink.old state.old }
    ensures done { OnOk result (world_of S.TreeSink sink.new state.new ≡ text_any S.choices (string_bytes text) (world_of S.TreeSink sink.old state.old)) }
    ensures quiet { OnOk result (is_quiet_text (world_of S.TreeSink sink.old state.old).mode ≡ true → errors_of S.TreeSink sink.new ≡ errors_of S.TreeSink sink.old) }
    ensures free { string_bytes text ≡ [] → IsOk result }
    ensures empty { IfOk result (λ n. string_bytes text ≡ [] → (n ≡ 0) × (errors_of S.TreeSink sink.new ≡ errors_of S.TreeSink sink.old)) }
    ensures sound { IsSound S.TreeSink sink.new state.new }
    ensures fits { OnOk result (Fits (world_of S.TreeSink sink.new state.new)) }
{
    if text.is_empty() {
        return Ok(0);
    }
    let (status, length) = next_run(sink, state, text.as_str());
    if length == text.len() {
        process_run(sink, state, status, text)
    } else {
        process_runs(sink, state, text.as_str())
    }
}

// A text without its first newline, if that is to be dropped.
#[inline(always)]
fn drop_lf(ignore_lf: bool, text: String) -> String
    ensures { string_bytes result ≡ without_lf ignore_lf (string_bytes text) }
{
    let mut text = text;
    if ignore_lf && text.as_bytes().first() == Some(&b'\n') {
        text.remove(0);
    }
    text
}

/// Takes a text that comes as a token; if a newline is to be dropped, the text loses a leading one. Returns the turns
/// of all its runs. Fails with `AllocError` if an allocation fails.
#[inline(always)]
pub fn take_text<S: TreeSink>(
    sink: &mut S,
    state: &mut State<S::Handle>,
    ignore_lf: bool,
    text: String,
) -> Result<Taken<S::Handle>, AllocError>
    requires { IsReady S.TreeSink sink.old state.old }
    ensures settles { Settles S.TreeSink (text_step S.choices (without_lf ignore_lf (string_bytes text))) (is_empty_text (without_lf ignore_lf (string_bytes text))) sink.old state.old sink.new state.new result }
    ensures free { without_lf ignore_lf (string_bytes text) ≡ [] → IsOk result }
{
    let text = drop_lf(ignore_lf, text);
    let turns = process_text(sink, state, text)?;
    Ok(Taken {
        turns,
        answer: TokenSinkResult::Continue,
    })
}
