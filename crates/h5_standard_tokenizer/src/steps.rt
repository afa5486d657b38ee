//! A chunk of the input, read to its end or to a reply that stops the tokenizer.

ghost use Rattle.std.specs.Prelude.{◌≡◌, ◌<◌, ◌⊎◌, ℕ, List, [], ◌∷◌, true, false, IfOk, OnOk, drop, length, slice_index, string_bytes};
ghost use Rattle.h5_tokenizer_spec.specs.ReferenceTable.{references};
ghost use Rattle.h5_tokenizer_spec.specs.Reading.{ReaderPlace, outcome, is_dropped};
ghost use Rattle.h5_markup.specs.Bare.{IsBareTag};
ghost use Rattle.h5_tokenizer_states.specs.MachineText.{place_of, IsQuiet, PassesRun};
ghost use Rattle.h5_tokenizer_states.specs.declared.machine_state.MachineState.TheVariants as MachineState;
ghost use Rattle.h5_tokenizer_states.specs.declared.machine_state.TextState.TheVariants as TextState;
ghost use Rattle.h5_tokenizer_spec.specs.declared.kinds.TextKind.TheVariants as TextKind;
ghost use Rattle.h5_standard_tokenizer.specs.Weight.{weight};
ghost use Rattle.h5_tokenizer_states.specs.Wide.{takes_wide};
ghost use Rattle.h5_standard_tokenizer.specs.Steps.{Holds, Makes, Runs, IsLess, progress_of};

use super::handing::{hand_on, hand_on_tag, hand_on_text};
use h5_token::{BuildFault, TagKind, TokenSink};
use h5_tokenizer_input::Stop;
use h5_tokenizer_states::{Machine, Step};
use std::alloc::{AllocError, Global};
use std::mem;

/// How much of a chunk was read.
#[derive(Drop)]
pub enum Halt<'a, H> {
    /// All of it.
    Done,
    /// A reply stopped the tokenizer before this input.
    Stops(Stop<H>, &'a str),
}

/// Text that was emitted but not yet passed to the sink, and the line in which it begins.
#[derive(Drop)]
pub struct Emitted {
    pub text: String,
    pub line: u64,
}

impl Emitted {
    ghost use Rattle.std.specs.Prelude.{◌≡◌, ℕ, List, [], OnOk, string_bytes};
    ghost use Rattle.h5_tokenizer_spec.specs.Reading.{ReaderPlace};
    ghost use Rattle.h5_standard_tokenizer.specs.Steps.{Holds, Leads};

    /// Returns an empty text, for what is emitted next, in this line. Allocates nothing.
    pub fn new(alloc: Global, line: u64) -> Emitted
        ensures text { string_bytes result.text ≡ [] }
        ensures line { result.line ≡ line }
    {
        Emitted {
            text: String::new(alloc),
            line,
        }
    }

    // Passes the text to the sink, unless it is empty. What is emitted next begins in this line.
    fn hand_on<S: TokenSink>(
        &mut self,
        sink: &mut S,
        line: u64,
    ) -> Result<Option<Stop<S::Handle>>, BuildFault>
        ensures handed { (p q : ReaderPlace) (m : S.Meaning) (xs ys : List ℕ)
            → Holds S.reply_to S.after S.is_foreign p m xs (string_bytes self.old.text) self.old.line q (S.meaning sink.old) ys
            → Leads S.reply_to S.after S.is_foreign S.node p m xs q ys (S.meaning sink.new) result }
        ensures text { OnOk result (string_bytes self.new.text ≡ []) }
        ensures line { self.new.line ≡ line }
    {
        let began = mem::replace(&mut self.line, line);
        if self.text.as_str().is_empty() {
            return Ok(None);
        }
        let alloc = *self.text.allocator();
        let text = mem::replace(&mut self.text, String::new(alloc));
        hand_on_text(sink, text, began)
    }
}

/// The result of a step.
#[derive(Drop)]
pub enum Progress<'a, H> {
    GoesOn(&'a str),
    Stops(Stop<H>, &'a str),
}

/// Returns the result for a reply.
pub fn progress_of<'a, H: Drop>(stopped: Option<Stop<H>>, rest: &'a str) -> Progress<'a, H>
    ensures { result ≡ progress_of stopped rest.entry }
{
    match stopped {
        Some(stop) => Progress::Stops(stop, rest),
        None => Progress::GoesOn(rest),
    }
}

/// Returns what follows the first byte, which must be ASCII.
pub fn behind_byte<'a>(rest: &'a str) -> &'a str
    requires some { 0 < length rest.now }
    requires ascii { slice_index rest.now 0 < 128 }
    ensures { result.now ≡ drop 1 rest.entry.now }
{
    // For the split: `rest` is UTF-8.
    let _bytes = rest.as_bytes();
    rest.split_at(1).1
}

// Takes one byte, at the start of `rest`. Text may be held only if the byte neither emits a token nor requires a check of the
// adjusted current node.
fn byte_step<'a, S: TokenSink>(
    sink: &mut S,
    machine: &mut Machine,
    emitted: &mut Emitted,
    b: u8,
    rest: &'a str,
) -> Result<Progress<'a, S::Handle>, BuildFault>
    requires front { rest.now ≡ b ∷ drop 1 rest.now }
    requires narrow { takes_wide machine.old.at ≡ true → b < 128 }
    requires quiet { is_dropped (place_of machine.old) b ≡ false
        → IsQuiet (outcome references (place_of machine.old) b) ⊎ (string_bytes emitted.old.text ≡ []) }
    ensures makes { (p : ReaderPlace) (m : S.Meaning) (xs : List ℕ)
        → Holds S.reply_to S.after S.is_foreign p m xs (string_bytes emitted.old.text) emitted.old.line (place_of machine.old) (S.meaning sink.old) rest.now
        → Makes S.reply_to S.after S.is_foreign S.node p m xs (string_bytes emitted.new.text) emitted.new.line (place_of machine.new) (S.meaning sink.new) result }
    ensures less { IsLess (place_of machine.old) rest.now (place_of machine.new) result }
{
    match machine.take(b, &mut emitted.text)? {
        Step::Reconsumed => Ok(Progress::GoesOn(rest)),
        Step::Consumed => Ok(Progress::GoesOn(behind_byte(rest))),
        Step::Emitted(construct, line) => {
            let stopped = hand_on(sink, machine, construct, line)?;
            emitted.line = machine.began();
            Ok(progress_of(stopped, behind_byte(rest)))
        }
        Step::Asks => {
            if sink.adjusted_current_node_present_but_not_in_html_namespace() {
                machine.begin_cdata_section();
            }
            emitted.line = machine.began();
            Ok(Progress::GoesOn(behind_byte(rest)))
        }
    }
}

// Takes one byte that neither emits a token nor requires a check of the adjusted current node. Appends the text that it emits
// to `out`.
fn quiet_byte<'a>(
    machine: &mut Machine,
    out: &mut String,
    b: u8,
    rest: &'a str,
) -> Result<&'a str, AllocError>
    requires front { rest.now ≡ b ∷ drop 1 rest.now }
    requires narrow { takes_wide machine.old.at ≡ true → b < 128 }
    requires quiet { is_dropped (place_of machine.old) b ≡ false → IsQuiet (outcome references (place_of machine.old) b) }
    ensures passes { IfOk result (λ after. PassesRun machine.old rest.now (string_bytes out.old) (string_bytes out.new) machine.new after.now) }
    ensures less { IfOk result (λ after. weight (place_of machine.new) after.now < weight (place_of machine.old) rest.now) }
{
    match machine.take(b, out)? {
        Step::Reconsumed => Ok(rest),
        Step::Consumed => Ok(behind_byte(rest)),
        Step::Emitted(_, _) => unreachable!(),
        Step::Asks => unreachable!(),
    }
}

// Takes one such byte, or one of the most frequent character references.
fn quiet_step<'a>(
    machine: &mut Machine,
    out: &mut String,
    b: u8,
    rest: &'a str,
) -> Result<&'a str, AllocError>
    requires front { rest.now ≡ b ∷ drop 1 rest.now }
    requires narrow { takes_wide machine.old.at ≡ true → b < 128 }
    requires quiet { is_dropped (place_of machine.old) b ≡ false → IsQuiet (outcome references (place_of machine.old) b) }
    ensures passes { IfOk result (λ after. PassesRun machine.old rest.now (string_bytes out.old) (string_bytes out.new) machine.new after.now) }
    ensures less { IfOk result (λ after. weight (place_of machine.new) after.now < weight (place_of machine.old) rest.now) }
{
    if let Some((text, behind)) = machine.find_common(rest) {
        machine.pass_common(text, out)?;
        return Ok(behind);
    }
    quiet_byte(machine, out, b, rest)
}

// Reads up to a byte that may emit a token or require a check of the adjusted current node, or to the end of the chunk.
fn pass<'a>(machine: &mut Machine, out: &mut String, piece: &'a str) -> Result<&'a str, AllocError>
    ensures passes { IfOk result (λ after. PassesRun machine.old piece.now (string_bytes out.old) (string_bytes out.new) machine.new after.now) }
    ensures narrow { IfOk result (λ after. takes_wide machine.new.at ≡ true → 0 < length after.now → slice_index after.now 0 < 128) }
{
    let mut rest = piece;
    'bytes: loop {
        let behind = machine.take_run(rest, out)?;
        let Some(b) = behind.as_bytes().first() else {
            return Ok(behind);
        };
        if machine.may_hand(*b) || machine.may_be_bare(behind) {
            return Ok(behind);
        }
        let after = quiet_step(machine, out, *b, behind)?;
        // For the loop's next turn: `after` is UTF-8.
        let _bytes = after.as_bytes();
        rest = after;
    }
}

// The step of a tag with only a name at the start, when no text is held.
#[inline(never)]
fn bare_step<'a, S: TokenSink>(
    sink: &mut S,
    machine: &mut Machine,
    emitted: &mut Emitted,
    kind: TagKind,
    name: &str,
    rest: &'a str,
    after: &'a str,
) -> Result<Progress<'a, S::Handle>, BuildFault>
    requires data { machine.old.at ≡ MachineState.Text (TextState.Text TextKind.Data) }
    requires tag { IsBareTag rest.now kind name.now after.now }
    requires none { string_bytes emitted.old.text ≡ [] }
    ensures makes { (p : ReaderPlace) (m : S.Meaning) (xs : List ℕ)
        → Holds S.reply_to S.after S.is_foreign p m xs (string_bytes emitted.old.text) emitted.old.line (place_of machine.old) (S.meaning sink.old) rest.now
        → Makes S.reply_to S.after S.is_foreign S.node p m xs (string_bytes emitted.new.text) emitted.new.line (place_of machine.new) (S.meaning sink.new) result }
    ensures less { IsLess (place_of machine.old) rest.now (place_of machine.new) result }
{
    let _rest = rest;
    let line = machine.began();
    let tag = machine.pass_bare(kind, name)?;
    let stopped = hand_on_tag(sink, machine, tag, line)?;
    emitted.line = machine.began();
    Ok(progress_of(stopped, after))
}

// Takes one step, on a suffix that isn't empty: up to the next token or check, and that.
fn step<'a, S: TokenSink>(
    sink: &mut S,
    machine: &mut Machine,
    emitted: &mut Emitted,
    rest: &'a str,
) -> Result<Progress<'a, S::Handle>, BuildFault>
    requires { 0 < length rest.now }
    ensures makes { (p : ReaderPlace) (m : S.Meaning) (xs : List ℕ)
        → Holds S.reply_to S.after S.is_foreign p m xs (string_bytes emitted.old.text) emitted.old.line (place_of machine.old) (S.meaning sink.old) rest.now
        → Makes S.reply_to S.after S.is_foreign S.node p m xs (string_bytes emitted.new.text) emitted.new.line (place_of machine.new) (S.meaning sink.new) result }
    ensures less { IsLess (place_of machine.old) rest.now (place_of machine.new) result }
{
    let rest = pass(machine, &mut emitted.text, rest)?;
    let Some(b) = rest.as_bytes().first() else {
        return Ok(Progress::GoesOn(rest));
    };
    if let Some(stop) = emitted.hand_on(sink, machine.began())? {
        return Ok(Progress::Stops(stop, rest));
    }
    if let Some((kind, name, after)) = machine.find_bare(rest) {
        return bare_step(sink, machine, emitted, kind, name, rest, after);
    }
    if let Some((name, after)) = machine.find_opening(rest) {
        machine.pass_opening(name)?;
        return Ok(Progress::GoesOn(after));
    }
    byte_step(sink, machine, emitted, *b, rest)
}

/// Reads a chunk. Everything that it emits is passed to the sink.
pub fn read_piece<'a, S: TokenSink>(
    sink: &mut S,
    machine: &mut Machine,
    alloc: Global,
    piece: &'a str,
) -> Result<Halt<'a, S::Handle>, BuildFault>
    ensures { Runs S.reply_to S.after S.is_foreign S.node (place_of machine.old) (S.meaning sink.old) piece.now (place_of machine.new) (S.meaning sink.new) result }
{
    let mut emitted = Emitted::new(alloc, machine.began());
    let mut rest = piece;
    'steps: while !rest.is_empty() {
        match step(sink, machine, &mut emitted, rest)? {
            Progress::GoesOn(after) => {
                // For the loop's next turn: `after` is UTF-8.
                let _bytes = after.as_bytes();
                rest = after;
            }
            Progress::Stops(stop, after) => return Ok(Halt::Stops(stop, after)),
        }
    }
    match emitted.hand_on(sink, machine.began())? {
        Some(stop) => Ok(Halt::Stops(stop, rest)),
        None => Ok(Halt::Done),
    }
}
