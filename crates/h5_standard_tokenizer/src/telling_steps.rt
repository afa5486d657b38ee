//! A chunk of the input, read one byte after another, with its parse errors.

ghost use Rattle.std.specs.Prelude.{◌≡◌, ◌<◌, ◌≤◌, ◌⊎◌, ℕ, List, [], ◌∷◌, ◌++◌, true, false, IsSome, IfSome, OnOk, IfOk, drop, length, encode_utf8, string_bytes, if◌then◌else◌};
ghost use Rattle.h5_tokenizer_spec.specs.declared.errors.ParseError.TheVariants as wrong;
ghost use Rattle.h5_tokenizer_spec.specs.declared.kinds.TextKind.TheVariants as kind;
ghost use Rattle.h5_tokenizer_spec.specs.declared.position.Spot.{Spot};
ghost use Rattle.h5_tokenizer_spec.specs.ReferenceTable.{references};
ghost use Rattle.h5_tokenizer_spec.specs.Reading.{ReaderPlace, in_state, is_dropped, outcome};
ghost use Rattle.h5_tokenizer_spec.specs.Spots.{spot_behind_all, spot_past};
ghost use Rattle.h5_tokenizer_spec.specs.States.{Text};
ghost use Rattle.h5_tokenizer_spec.specs.Telling.{Reached, at_first};
ghost use Rattle.h5_tokenizer_spec.specs.Told.{Tells, told_at};
ghost use Rattle.h5_tokenizer_states.specs.MachineText.{place_of, Drops, IsQuiet, PassesRun};
ghost use Rattle.h5_tokenizer_states.specs.Wide.{takes_wide};
ghost use Rattle.h5_standard_tokenizer.specs.Steps.{IsLess, Runs};
ghost use Rattle.h5_standard_tokenizer.specs.Telling.{CameBefore, CameOn, IsWideCharacter, LeadsTelling, MakesTelling, RunsTelling, TellsRow};

use super::handing::{hand_on, hand_on_text};
use super::steps::{Emitted, Halt, Progress, behind_byte, progress_of};
use h5_token::{BuildFault, TokenSink};
use h5_tokenizer_input::Stop;
use h5_tokenizer_spec::{ErrorSink, ParseError, Position, Spot};
use h5_tokenizer_states::{Machine, Step, tell_input_error};
use std::alloc::{AllocError, Global};
use std::mem;

// Returns the first character of a text, its bytes, and what follows them.
fn first_character<'a>(rest: &'a str) -> Option<(char, &'a str, &'a str)>
    ensures front { IfSome result (λ first. first.1.now ≡ encode_utf8 first.0) }
    ensures rest { IfSome result (λ first. rest.entry.now ≡ encode_utf8 first.0 ++ first.2.now) }
    ensures some { 0 < length rest.entry.now → IsSome result }
{
    // For the split: `rest` is UTF-8.
    let _bytes = rest.as_bytes();
    let mut chars = rest.chars();
    match chars.next() {
        None => None,
        Some(c) => {
            let (front, behind) = rest.split_at(c.len_utf8());
            Some((c, front, behind))
        }
    }
}

// Reports the errors of the input at its first character, if its first byte is new, and those of the row at that byte; if the
// state has seen bytes ahead, first those of the row.
fn tell_front<E: ErrorSink>(c: char, b: u8, machine: &Machine, spot: Spot, errors: &mut E)
    ensures { (xs behind : List ℕ) → xs ≡ encode_utf8 c ++ behind → TellsRow E.Told errors.old errors.new (place_of machine.now) spot xs b }
{
    let at = spot.position(machine.line());
    if !spot.is_new {
        machine.tell_errors(b, at, errors);
    } else if machine.seen_ahead() == 0 {
        tell_input_error(c, at, errors);
        machine.tell_errors(b, at, errors);
    } else {
        machine.tell_errors(b, at, errors);
        tell_input_error(c, at, errors);
    }
}

// Passes the held text to the sink, if there is any. What is emitted next begins in this line.
fn hand_on_held<S: TokenSink, E: ErrorSink>(
    sink: &mut S,
    emitted: &mut Emitted,
    line: u64,
    errors: &E,
) -> Result<Option<Stop<S::Handle>>, BuildFault>
    ensures handed { (start : Reached S.Meaning) (first : E) (p : ReaderPlace) (s : Spot) (xs : List ℕ)
        → CameOn S.reply_to S.after S.is_foreign E.Told start first (string_bytes emitted.old.text) emitted.old.line p s (S.meaning sink.old) xs errors.now
        → LeadsTelling S.reply_to S.after S.is_foreign E.Told start first S.node [] p.began p s (S.meaning sink.new) xs errors.now result }
    ensures text { OnOk result (string_bytes emitted.new.text ≡ []) }
    ensures line { emitted.new.line ≡ line }
{
    let began = mem::replace(&mut emitted.line, line);
    if emitted.text.as_str().is_empty() {
        return Ok(None);
    }
    let alloc = *emitted.text.allocator();
    let text = mem::replace(&mut emitted.text, String::new(alloc));
    hand_on_text(sink, text, began)
}

// Passes the held text to the sink if this byte may emit a token or require a check of the adjusted current node.
fn hand_on_before<S: TokenSink, E: ErrorSink>(
    sink: &mut S,
    machine: &Machine,
    emitted: &mut Emitted,
    b: u8,
    errors: &E,
) -> Result<Option<Stop<S::Handle>>, BuildFault>
    ensures handed { (start : Reached S.Meaning) (first : E) (s : Spot) (xs : List ℕ)
        → CameOn S.reply_to S.after S.is_foreign E.Told start first (string_bytes emitted.old.text) emitted.old.line (place_of machine.now) s (S.meaning sink.old) xs errors.now
        → LeadsTelling S.reply_to S.after S.is_foreign E.Told start first S.node (string_bytes emitted.new.text) emitted.new.line (place_of machine.now) s (S.meaning sink.new) xs errors.now result }
    ensures quiet { OnOk result (is_dropped (place_of machine.now) b ≡ false
        → IsQuiet (outcome references (place_of machine.now) b) ⊎ (string_bytes emitted.new.text ≡ [])) }
{
    if !machine.may_hand(b) {
        return Ok(None);
    }
    hand_on_held(sink, emitted, machine.began(), errors)
}

// Begins a CDATA section if the adjusted current node isn't in the HTML namespace, else reports an error.
fn ask_node<S: TokenSink, E: ErrorSink>(
    sink: &S,
    machine: &mut Machine,
    at: Position,
    errors: &mut E,
)
    ensures place { place_of machine.new ≡ (if S.is_foreign (S.meaning sink.now) then in_state (Text kind.CdataSection) (place_of machine.old) else place_of machine.old) }
    ensures tells { Tells E.Told errors.old errors.new (told_at at (if S.is_foreign (S.meaning sink.now) then [] else wrong.CdataInHtmlContent ∷ [])) }
{
    if sink.adjusted_current_node_present_but_not_in_html_namespace() {
        machine.begin_cdata_section();
        return;
    }
    errors.error(ParseError::CdataInHtmlContent, at);
}

// Takes one byte, at the start of `rest`, whose errors were reported. Text may be held only if the byte neither emits a token
// nor requires a check of the adjusted current node.
fn telling_byte_step<'a, S: TokenSink, E: ErrorSink>(
    sink: &mut S,
    machine: &mut Machine,
    emitted: &mut Emitted,
    spot: &mut Spot,
    errors: &mut E,
    b: u8,
    rest: &'a str,
) -> Result<Progress<'a, S::Handle>, BuildFault>
    requires front { rest.now ≡ b ∷ drop 1 rest.now }
    requires kept { is_dropped (place_of machine.old) b ≡ false }
    requires narrow { takes_wide machine.old.at ≡ true → b < 128 }
    requires quiet { IsQuiet (outcome references (place_of machine.old) b) ⊎ (string_bytes emitted.old.text ≡ []) }
    ensures makes { (start : Reached S.Meaning) (first : E)
        → CameBefore S.reply_to S.after S.is_foreign E.Told start first (string_bytes emitted.old.text) emitted.old.line (place_of machine.old) spot.old (S.meaning sink.old) rest.now b errors.old
        → MakesTelling S.reply_to S.after S.is_foreign E.Told start first S.node (string_bytes emitted.new.text) emitted.new.line (place_of machine.new) spot.new (S.meaning sink.new) errors.new result }
    ensures less { IsLess (place_of machine.old) rest.now (place_of machine.new) result }
{
    let at = spot.position(machine.line());
    match machine.take(b, &mut emitted.text)? {
        Step::Reconsumed => {
            spot.meet();
            Ok(Progress::GoesOn(rest))
        }
        Step::Consumed => {
            spot.pass(b);
            Ok(Progress::GoesOn(behind_byte(rest)))
        }
        Step::Emitted(construct, line) => {
            spot.pass(b);
            let stopped = hand_on(sink, machine, construct, line)?;
            emitted.line = machine.began();
            Ok(progress_of(stopped, behind_byte(rest)))
        }
        Step::Asks => {
            spot.pass(b);
            ask_node(sink, machine, at, errors);
            emitted.line = machine.began();
            Ok(Progress::GoesOn(behind_byte(rest)))
        }
    }
}

// Drops a LINE FEED after a CARRIAGE RETURN.
fn drop_step<'a>(
    machine: &mut Machine,
    out: &mut String,
    spot: &mut Spot,
    b: u8,
    rest: &'a str,
) -> Result<&'a str, AllocError>
    requires front { rest.now ≡ b ∷ drop 1 rest.now }
    requires dropped { is_dropped (place_of machine.old) b ≡ true }
    ensures rest { IfOk result (λ after. after.now ≡ drop 1 rest.entry.now) }
    ensures drops { OnOk result (Drops machine.old b (string_bytes out.old) (string_bytes out.new) machine.new) }
    ensures spot { spot.new ≡ spot_past spot.old }
{
    spot.pass_dropped();
    let _step = machine.take(b, out)?;
    Ok(behind_byte(rest))
}

// Takes a character that isn't ASCII, in a state that takes it as it is.
fn wide_step(
    machine: &mut Machine,
    out: &mut String,
    spot: &mut Spot,
    front: &str,
) -> Result<(), AllocError>
    requires wide { takes_wide machine.old.at ≡ true }
    requires character { IsWideCharacter front.now }
    ensures run { OnOk result (PassesRun machine.old front.now (string_bytes out.old) (string_bytes out.new) machine.new []) }
    ensures spot { spot.new ≡ spot_behind_all front.now spot.old }
{
    spot.pass_all(front.as_bytes());
    let _rest = machine.take_run(front, out)?;
    Ok(())
}

// Returns true if a byte is taken together with the whole character that it begins.
fn is_taken_wide(machine: &Machine, b: u8) -> bool
    ensures wide { result ≡ true → (128 ≤ b) × (takes_wide machine.now.at ≡ true) }
    ensures narrow { result ≡ false → takes_wide machine.now.at ≡ true → b < 128 }
{
    b >= 128 && machine.takes_wide()
}

// Takes one step at a byte that isn't dropped. Text may be held only if the byte neither emits a token nor requires a check of
// the adjusted current node.
fn front_step<'a, S: TokenSink, E: ErrorSink>(
    sink: &mut S,
    machine: &mut Machine,
    emitted: &mut Emitted,
    spot: &mut Spot,
    errors: &mut E,
    b: u8,
    rest: &'a str,
) -> Result<Progress<'a, S::Handle>, BuildFault>
    requires front { rest.now ≡ b ∷ drop 1 rest.now }
    requires kept { is_dropped (place_of machine.old) b ≡ false }
    requires quiet { IsQuiet (outcome references (place_of machine.old) b) ⊎ (string_bytes emitted.old.text ≡ []) }
    ensures makes { (start : Reached S.Meaning) (first : E)
        → CameOn S.reply_to S.after S.is_foreign E.Told start first (string_bytes emitted.old.text) emitted.old.line (place_of machine.old) spot.old (S.meaning sink.old) rest.now errors.old
        → MakesTelling S.reply_to S.after S.is_foreign E.Told start first S.node (string_bytes emitted.new.text) emitted.new.line (place_of machine.new) spot.new (S.meaning sink.new) errors.new result }
    ensures less { IsLess (place_of machine.old) rest.now (place_of machine.new) result }
{
    let Some((c, front, behind)) = first_character(rest) else {
        unreachable!()
    };
    tell_front(c, b, machine, *spot, errors);
    if is_taken_wide(machine, b) {
        wide_step(machine, &mut emitted.text, spot, front)?;
        return Ok(Progress::GoesOn(behind));
    }
    telling_byte_step(sink, machine, emitted, spot, errors, b, rest)
}

// Takes one step, on a suffix that isn't empty.
fn telling_step<'a, S: TokenSink, E: ErrorSink>(
    sink: &mut S,
    machine: &mut Machine,
    emitted: &mut Emitted,
    spot: &mut Spot,
    errors: &mut E,
    rest: &'a str,
) -> Result<Progress<'a, S::Handle>, BuildFault>
    requires { 0 < length rest.now }
    ensures makes { (start : Reached S.Meaning) (first : E)
        → CameOn S.reply_to S.after S.is_foreign E.Told start first (string_bytes emitted.old.text) emitted.old.line (place_of machine.old) spot.old (S.meaning sink.old) rest.now errors.old
        → MakesTelling S.reply_to S.after S.is_foreign E.Told start first S.node (string_bytes emitted.new.text) emitted.new.line (place_of machine.new) spot.new (S.meaning sink.new) errors.new result }
    ensures less { IsLess (place_of machine.old) rest.now (place_of machine.new) result }
{
    let Some(b) = rest.as_bytes().first() else {
        unreachable!()
    };
    if machine.is_dropped(*b) {
        let after = drop_step(machine, &mut emitted.text, spot, *b, rest)?;
        return Ok(Progress::GoesOn(after));
    }
    if let Some(stop) = hand_on_before(sink, machine, emitted, *b, errors)? {
        return Ok(Progress::Stops(stop, rest));
    }
    front_step(sink, machine, emitted, spot, errors, *b, rest)
}

// Reads a chunk, and reports its errors. Everything that it emits is passed to the sink.
fn read_bytes<'a, S: TokenSink, E: ErrorSink>(
    sink: &mut S,
    machine: &mut Machine,
    spot: &mut Spot,
    errors: &mut E,
    alloc: Global,
    piece: &'a str,
) -> Result<Halt<'a, S::Handle>, BuildFault>
    ensures { RunsTelling S.reply_to S.after S.is_foreign E.Told (at_first (place_of machine.old) spot.old (S.meaning sink.old) piece.now) errors.old
        S.node (place_of machine.new) spot.new (S.meaning sink.new) errors.new result }
{
    let mut emitted = Emitted::new(alloc, machine.began());
    let mut rest = piece;
    'steps: while !rest.is_empty() {
        match telling_step(sink, machine, &mut emitted, spot, errors, rest)? {
            Progress::GoesOn(after) => {
                // For the loop's next turn: `after` is UTF-8.
                let _bytes = after.as_bytes();
                rest = after;
            }
            Progress::Stops(stop, after) => return Ok(Halt::Stops(stop, after)),
        }
    }
    match hand_on_held(sink, &mut emitted, machine.began(), errors)? {
        Some(stop) => Ok(Halt::Stops(stop, rest)),
        None => Ok(Halt::Done),
    }
}

/// Reads a chunk, and reports its errors. Everything that it emits is passed to the sink.
pub fn read_telling<'a, S: TokenSink, E: ErrorSink>(
    sink: &mut S,
    machine: &mut Machine,
    spot: &mut Spot,
    errors: &mut E,
    alloc: Global,
    piece: &'a str,
) -> Result<Halt<'a, S::Handle>, BuildFault>
    ensures reads { Runs S.reply_to S.after S.is_foreign S.node (place_of machine.old) (S.meaning sink.old) piece.now (place_of machine.new) (S.meaning sink.new) result }
    ensures tells { RunsTelling S.reply_to S.after S.is_foreign E.Told (at_first (place_of machine.old) spot.old (S.meaning sink.old) piece.now) errors.old
        S.node (place_of machine.new) spot.new (S.meaning sink.new) errors.new result }
{
    read_bytes(sink, machine, spot, errors, alloc, piece)
}
