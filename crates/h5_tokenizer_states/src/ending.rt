//! What is left at the end of the input: the rows for "EOF" of each state.

ghost use Rattle.std.specs.Prelude.{◌≡◌, ℕ, List, IfOk, OnOk, None, Some, string_bytes};
ghost use Rattle.h5_token.specs.TokenText.{doctype_text};
ghost use Rattle.h5_tokenizer_states.specs.Ending.{Ends};
ghost use Rattle.h5_tokenizer_states.specs.Parts.{Parts};
ghost use Rattle.h5_tokenizer_states.specs.StateOf.{comment_state_of, doctype_state_of, reference_state_of, return_of, state_of, tag_state_of, text_state_of};

use super::codes::code_point;
use super::doctypes::nameless;
use super::machine::Machine;
use super::machine_state::{
    CommentState, DoctypeState, MachineState, ReferenceState, ReturnTo, TagState, TextState,
};
use super::references::{OpenReference, flush, flush_char, flush_digitless, flush_named};
use super::tag::OpenTag;
use super::transition::CurrentToken;
use h5_token::Doctype;
use std::alloc::AllocError;

// In a text.
fn end_text(state: TextState, buffer: &str, out: &mut String) -> Result<(), AllocError>
    ensures { OnOk result ((parts : Parts) → Ends (text_state_of state buffer.now) (string_bytes out.old) (string_bytes out.new) None parts) }
{
    match state {
        TextState::RawLessThanSign(_) => out.push_str("<"),
        TextState::RawEndTagOpen(_) => out.push_str("</"),
        TextState::RawEndTagName(_) => {
            out.push_str("</")?;
            out.push_str(buffer)
        }
        TextState::CdataSectionBracket => out.push_str("]"),
        TextState::CdataSectionEnd => out.push_str("]]"),
        _ => Ok(()),
    }
}

// In a tag, which is dropped.
fn end_tag(state: TagState, out: &mut String) -> Result<(), AllocError>
    ensures { OnOk result ((parts : Parts) → Ends (tag_state_of state parts.tag) (string_bytes out.old) (string_bytes out.new) None parts) }
{
    match state {
        TagState::TagOpen => out.push_str("<"),
        TagState::EndTagOpen => out.push_str("</"),
        _ => Ok(()),
    }
}

// In a comment, which is emitted.
fn end_comment(state: CommentState, comment: &mut String)
    ensures { (parts : Parts) → (out : List ℕ) → Ends (comment_state_of state (string_bytes comment.old)) out out
        (Some CurrentToken.Comment) (record parts { comment = string_bytes comment.new }) }
{
    match state {
        CommentState::CommentStart => comment.clear(),
        CommentState::CommentStartDash => comment.clear(),
        _ => {}
    }
}

// In a doctype, which is emitted.
fn end_doctype(state: DoctypeState, doctype: &mut Doctype)
    ensures { (parts : Parts) → (out : List ℕ) → Ends (doctype_state_of state (doctype_text doctype.old) parts.buffer) out out
        (Some CurrentToken.Doctype) (record parts { doctype = doctype_text doctype.new }) }
{
    match state {
        DoctypeState::BogusDoctype => {}
        DoctypeState::BeginDoctype => *doctype = nameless(),
        DoctypeState::BeforeDoctypeName => *doctype = nameless(),
        _ => doctype.force_quirks = true,
    }
}

// In a character reference: what is flushed into a text is emitted; what is flushed into a value is dropped with its tag.
fn end_reference(
    state: ReferenceState,
    return_to: ReturnTo,
    reference: &OpenReference,
    tag: &mut OpenTag,
    out: &mut String,
) -> Result<(), AllocError>
    ensures { OnOk result ((parts : Parts) → Ends (reference_state_of state (return_of return_to tag.old) (string_bytes reference.now.seen) reference.now.code)
        (string_bytes out.old) (string_bytes out.new) None parts) }
{
    let seen = reference.seen.as_str();
    let code = reference.code;
    match state {
        ReferenceState::CharacterReference => flush(return_to, tag, out, "&"),
        // If no byte follows, NUL replaces the next one: it is neither '=' nor an alphanumeric.
        ReferenceState::NamedCharacterReference => {
            let _ = flush_named(return_to, seen, tag, out, 0)?;
            Ok(())
        }
        ReferenceState::AmbiguousAmpersand => Ok(()),
        ReferenceState::NumericCharacterReference => flush_digitless(return_to, "", tag, out),
        ReferenceState::HexadecimalStart => flush_digitless(return_to, seen, tag, out),
        ReferenceState::DecimalStart => flush_digitless(return_to, "", tag, out),
        ReferenceState::Hexadecimal => flush_char(return_to, tag, out, code_point(code)),
        ReferenceState::Decimal => flush_char(return_to, tag, out, code_point(code)),
        ReferenceState::NumericCharacterReferenceEnd => {
            flush_char(return_to, tag, out, code_point(code))
        }
    }
}

/// Handles the end of the input in the current state: appends its text to `out`, and returns the token that is left to emit, if
/// any.
pub fn end_of(machine: &mut Machine, out: &mut String) -> Result<Option<CurrentToken>, AllocError>
    ensures ending { IfOk result (λ left. Ends (state_of machine.old.at machine.old.parts) (string_bytes out.old) (string_bytes out.new) left machine.new.parts) }
    ensures others { machine.new ≡ record machine.old { parts = machine.new.parts } }
{
    match machine.at {
        MachineState::Text(state) => {
            end_text(state, machine.buffer.as_str(), out)?;
            Ok(None)
        }
        MachineState::Tag(state) => {
            end_tag(state, out)?;
            Ok(None)
        }
        MachineState::Comment(state) => {
            end_comment(state, &mut machine.comment);
            Ok(Some(CurrentToken::Comment))
        }
        MachineState::Doctype(state) => {
            end_doctype(state, &mut machine.doctype);
            Ok(Some(CurrentToken::Doctype))
        }
        MachineState::Reference(state, return_to) => {
            end_reference(state, return_to, &machine.reference, &mut machine.tag, out)?;
            Ok(None)
        }
    }
}
