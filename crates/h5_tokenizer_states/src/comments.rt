//! The rows of comments and bogus comments (HTML standard, sections 13.2.5.41 to 13.2.5.52).

ghost use Rattle.std.specs.Prelude.{◌≡◌, ◌<◌, ◌==◌, ◌&&◌, true, ℕ, List, [], ◌∷◌, ◌++◌, IfOk, IfSome, string_bytes, codes};
ghost use Rattle.h5_tokenizer_spec.specs.Comments as c;
ghost use Rattle.h5_tokenizer_spec.specs.Machine.{turn};
ghost use Rattle.h5_tokenizer_spec.specs.References.{Reference};
ghost use Rattle.h5_tokenizer_states.specs.OutcomeOf.{DoesComment};
ghost use Rattle.h5_tokenizer_states.specs.StateOf.{comment_state_of};
ghost use Rattle.h5_tokenizer_states.specs.Wide.{comment_takes_wide};

use super::machine_state::{CommentState, DoctypeState, MachineState};
use super::signs::{begins, begins_folded, is_folded, is_word, pop_byte, push_byte, push_cleaned};
use super::transition::{CurrentToken, Transition};
use h5_tokenizer_spec::TextKind;
use std::alloc::AllocError;

const HANDS: Transition = Transition::Emitted(CurrentToken::Comment, TextKind::Data);

// 13.2.5.41 Bogus comment state
fn bogus_comment(comment: &mut String, b: u8) -> Result<Transition, AllocError>
    requires { b < 128 }
    ensures { IfOk result (λ transition. DoesComment transition (string_bytes comment.new) (c.bogus_comment_state (string_bytes comment.old) b)) }
{
    if b == b'>' {
        return Ok(HANDS);
    }
    push_cleaned(comment, b)?;
    Ok(Transition::Consumed(MachineState::Comment(CommentState::BogusComment)))
}

// Returns true if one of the openings begins with this.
fn begins_opening(seen: &str) -> bool
    ensures { result ≡ c.begins_opening seen.now }
{
    begins(seen, b"--") || begins_folded(seen, b"doctype") || begins(seen, b"[CDATA[")
}

// Begins a bogus comment with what was seen.
fn not_opened() -> Transition
    ensures { result ≡ Transition.Reconsumed (MachineState.Comment CommentState.BogusComment) }
{
    Transition::Reconsumed(MachineState::Comment(CommentState::BogusComment))
}

// 13.2.5.42 Markup declaration open state. If what was seen isn't an opening, it already is the comment that it begins.
fn markup_declaration_open(seen: &mut String, b: u8) -> Result<Transition, AllocError>
    ensures { IfOk result (λ transition. DoesComment transition (string_bytes seen.new) (c.markup_declaration_open_state (string_bytes seen.old) b)) }
{
    if b >= 128 {
        return Ok(not_opened());
    }
    push_byte(seen, b)?;
    if is_word(seen.as_str(), b"--") {
        return Ok(Transition::Consumed(MachineState::Comment(CommentState::CommentStart)));
    }
    if is_folded(seen.as_str(), b"doctype") {
        return Ok(Transition::Consumed(MachineState::Doctype(DoctypeState::BeginDoctype)));
    }
    if is_word(seen.as_str(), b"[CDATA[") {
        return Ok(Transition::Asks);
    }
    if begins_opening(seen.as_str()) {
        return Ok(Transition::Consumed(MachineState::Comment(CommentState::MarkupDeclarationOpen)));
    }
    pop_byte(seen);
    Ok(not_opened())
}

// 13.2.5.43 Comment start state
fn comment_start(comment: &mut String, b: u8) -> Transition
    ensures { DoesComment result (string_bytes comment.new) (c.comment_start_state b) }
{
    comment.clear();
    match b {
        b'-' => Transition::Consumed(MachineState::Comment(CommentState::CommentStartDash)),
        b'>' => HANDS,
        _ => Transition::Reconsumed(MachineState::Comment(CommentState::Comment)),
    }
}

// 13.2.5.44 Comment start dash state
fn comment_start_dash(comment: &mut String, b: u8) -> Result<Transition, AllocError>
    ensures { IfOk result (λ transition. DoesComment transition (string_bytes comment.new) (c.comment_start_dash_state b)) }
{
    comment.clear();
    match b {
        b'-' => Ok(Transition::Consumed(MachineState::Comment(CommentState::CommentEnd))),
        b'>' => Ok(HANDS),
        _ => {
            comment.push_str("-")?;
            Ok(Transition::Reconsumed(MachineState::Comment(CommentState::Comment)))
        }
    }
}

// 13.2.5.45 Comment state
fn comment(comment: &mut String, b: u8) -> Result<Transition, AllocError>
    requires { b < 128 }
    ensures { IfOk result (λ transition. DoesComment transition (string_bytes comment.new) (c.comment_state (string_bytes comment.old) b)) }
{
    match b {
        b'<' => {
            comment.push_str("<")?;
            Ok(Transition::Consumed(MachineState::Comment(CommentState::CommentLessThanSign)))
        }
        b'-' => Ok(Transition::Consumed(MachineState::Comment(CommentState::CommentEndDash))),
        _ => {
            push_cleaned(comment, b)?;
            Ok(Transition::Consumed(MachineState::Comment(CommentState::Comment)))
        }
    }
}

// 13.2.5.46 Comment less-than sign state
fn comment_less_than_sign(comment: &mut String, b: u8) -> Result<Transition, AllocError>
    ensures { IfOk result (λ transition. DoesComment transition (string_bytes comment.new) (c.comment_less_than_sign_state (string_bytes comment.old) b)) }
{
    match b {
        b'!' => {
            comment.push_str("!")?;
            Ok(Transition::Consumed(MachineState::Comment(CommentState::CommentLessThanSignBang)))
        }
        b'<' => {
            comment.push_str("<")?;
            Ok(Transition::Consumed(MachineState::Comment(CommentState::CommentLessThanSign)))
        }
        _ => Ok(Transition::Reconsumed(MachineState::Comment(CommentState::Comment))),
    }
}

// 13.2.5.47 Comment less-than sign bang state
fn comment_less_than_sign_bang(b: u8) -> Transition
    ensures { (comment : List ℕ) → DoesComment result comment (c.comment_less_than_sign_bang_state comment b) }
{
    if b == b'-' {
        return Transition::Consumed(MachineState::Comment(
            CommentState::CommentLessThanSignBangDash,
        ));
    }
    Transition::Reconsumed(MachineState::Comment(CommentState::Comment))
}

// 13.2.5.48 Comment less-than sign bang dash state
fn comment_less_than_sign_bang_dash(b: u8) -> Transition
    ensures { (comment : List ℕ) → DoesComment result comment (c.comment_less_than_sign_bang_dash_state comment b) }
{
    if b == b'-' {
        return Transition::Consumed(MachineState::Comment(
            CommentState::CommentLessThanSignBangDashDash,
        ));
    }
    Transition::Reconsumed(MachineState::Comment(CommentState::CommentEndDash))
}

// 13.2.5.49 Comment less-than sign bang dash dash state
fn comment_less_than_sign_bang_dash_dash(b: u8) -> Transition
    ensures { (comment : List ℕ) → DoesComment result comment (c.comment_less_than_sign_bang_dash_dash_state comment b) }
{
    Transition::Reconsumed(MachineState::Comment(CommentState::CommentEnd))
}

// 13.2.5.50 Comment end dash state
fn comment_end_dash(comment: &mut String, b: u8) -> Result<Transition, AllocError>
    ensures { IfOk result (λ transition. DoesComment transition (string_bytes comment.new) (c.comment_end_dash_state (string_bytes comment.old) b)) }
{
    if b == b'-' {
        return Ok(Transition::Consumed(MachineState::Comment(CommentState::CommentEnd)));
    }
    comment.push_str("-")?;
    Ok(Transition::Reconsumed(MachineState::Comment(CommentState::Comment)))
}

// 13.2.5.51 Comment end state
fn comment_end(comment: &mut String, b: u8) -> Result<Transition, AllocError>
    ensures { IfOk result (λ transition. DoesComment transition (string_bytes comment.new) (c.comment_end_state (string_bytes comment.old) b)) }
{
    match b {
        b'>' => Ok(HANDS),
        b'!' => Ok(Transition::Consumed(MachineState::Comment(CommentState::CommentEndBang))),
        b'-' => {
            comment.push_str("-")?;
            Ok(Transition::Consumed(MachineState::Comment(CommentState::CommentEnd)))
        }
        _ => {
            comment.push_str("--")?;
            Ok(Transition::Reconsumed(MachineState::Comment(CommentState::Comment)))
        }
    }
}

// 13.2.5.52 Comment end bang state
fn comment_end_bang(comment: &mut String, b: u8) -> Result<Transition, AllocError>
    ensures { IfOk result (λ transition. DoesComment transition (string_bytes comment.new) (c.comment_end_bang_state (string_bytes comment.old) b)) }
{
    match b {
        b'-' => {
            comment.push_str("--!")?;
            Ok(Transition::Consumed(MachineState::Comment(CommentState::CommentEndDash)))
        }
        b'>' => Ok(HANDS),
        _ => {
            comment.push_str("--!")?;
            Ok(Transition::Reconsumed(MachineState::Comment(CommentState::Comment)))
        }
    }
}

/// The row of a comment state.
pub fn comment_turn(state: CommentState, text: &mut String, b: u8) -> Result<Transition, AllocError>
    requires { comment_takes_wide state ≡ true → b < 128 }
    ensures { IfOk result (λ transition. (table : List Reference) (last : List ℕ) → DoesComment transition (string_bytes text.new)
        (turn table last (comment_state_of state (string_bytes text.old)) b)) }
{
    match state {
        CommentState::BogusComment => bogus_comment(text, b),
        CommentState::MarkupDeclarationOpen => markup_declaration_open(text, b),
        CommentState::CommentStart => Ok(comment_start(text, b)),
        CommentState::CommentStartDash => comment_start_dash(text, b),
        CommentState::Comment => comment(text, b),
        CommentState::CommentLessThanSign => comment_less_than_sign(text, b),
        CommentState::CommentLessThanSignBang => Ok(comment_less_than_sign_bang(b)),
        CommentState::CommentLessThanSignBangDash => Ok(comment_less_than_sign_bang_dash(b)),
        CommentState::CommentLessThanSignBangDashDash => {
            Ok(comment_less_than_sign_bang_dash_dash(b))
        }
        CommentState::CommentEndDash => comment_end_dash(text, b),
        CommentState::CommentEnd => comment_end(text, b),
        CommentState::CommentEndBang => comment_end_bang(text, b),
    }
}
