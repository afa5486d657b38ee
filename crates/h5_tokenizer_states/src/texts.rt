//! The rows of texts (HTML standard, sections 13.2.5.1 to 13.2.5.5, 13.2.5.9 to 13.2.5.31 and 13.2.5.69 to 13.2.5.71).

ghost use Rattle.std.specs.Prelude.{◌≡◌, ◌<◌, ◌==◌, ◌&&◌, true, not, List, ◌++◌, IfOk, OnOk, map, string_bytes, codes};
ghost use Rattle.std.specs.Char.{to_ascii_lowercase, is_ascii_alphabetic};
ghost use Rattle.h5_tokenizer_spec.specs.Machine.{turn};
ghost use Rattle.h5_tokenizer_spec.specs.References.{Reference};
ghost use Rattle.h5_tokenizer_spec.specs.Texts as t;
ghost use Rattle.h5_tokenizer_spec.specs.Signs.{is_name_end};
ghost use Rattle.h5_tokenizer_spec.specs.States.{ScriptDataEscaped};
ghost use Rattle.h5_tokenizer_states.specs.Parts.{Parts};
ghost use Rattle.h5_tokenizer_states.specs.Signs.{cleaned};
ghost use Rattle.h5_tokenizer_states.specs.StateOf.{state_of, text_state_of};
ghost use Rattle.h5_tokenizer_states.specs.Wide.{text_takes_wide};
ghost use Rattle.h5_tokenizer_states.specs.OutcomeOf.{Does, DoesTag, DoesText, DoesBuffer, end_tag_behind, plain_less_than_sign_state};

use super::machine_state::{
    DATA, MachineState, ReferenceState, ReturnTo, TagState, TextState, text, text_of,
};
use super::signs::{is_blank, is_lowered, is_name_end, push_byte, push_cleaned};
use super::tag::OpenTag;
use super::transition::{CurrentToken, Transition};
use h5_token::TagKind;
use h5_tokenizer_input::LastName;
use h5_tokenizer_spec::{Escape, RawTextKind, TextKind};
use std::alloc::AllocError;

// 13.2.5.1 Data state
fn data(out: &mut String, b: u8) -> Result<Transition, AllocError>
    requires { b < 128 }
    ensures { IfOk result (λ transition. DoesText transition (string_bytes out.old) (string_bytes out.new) (t.data_state b)) }
{
    match b {
        b'&' => Ok(Transition::Consumed(MachineState::Reference(
            ReferenceState::CharacterReference,
            ReturnTo::Data,
        ))),
        b'<' => Ok(Transition::Consumed(MachineState::Tag(TagState::TagOpen))),
        0 => Ok(Transition::Emitted(CurrentToken::Null, TextKind::Data)),
        _ => {
            push_byte(out, b)?;
            Ok(Transition::Consumed(DATA))
        }
    }
}

// Appends to a text in which NUL is replaced.
fn replacing(out: &mut String, b: u8, state: TextState) -> Result<Transition, AllocError>
    requires { b < 128 }
    ensures transition { IfOk result (λ transition. transition ≡ Transition.Consumed (MachineState.Text state)) }
    ensures text { OnOk result (string_bytes out.new ≡ string_bytes out.old ++ cleaned b) }
{
    push_cleaned(out, b)?;
    Ok(Transition::Consumed(MachineState::Text(state)))
}

// 13.2.5.2 RCDATA state
fn rcdata(out: &mut String, b: u8) -> Result<Transition, AllocError>
    requires { b < 128 }
    ensures { IfOk result (λ transition. DoesText transition (string_bytes out.old) (string_bytes out.new) (t.rcdata_state b)) }
{
    match b {
        b'&' => Ok(Transition::Consumed(MachineState::Reference(
            ReferenceState::CharacterReference,
            ReturnTo::Rcdata,
        ))),
        b'<' => Ok(Transition::Consumed(MachineState::Text(TextState::RawLessThanSign(
            RawTextKind::Rcdata,
        )))),
        _ => replacing(out, b, TextState::Text(TextKind::Rcdata)),
    }
}

// 13.2.5.3 RAWTEXT state
fn rawtext(out: &mut String, b: u8) -> Result<Transition, AllocError>
    requires { b < 128 }
    ensures { IfOk result (λ transition. DoesText transition (string_bytes out.old) (string_bytes out.new) (t.rawtext_state b)) }
{
    match b {
        b'<' => Ok(Transition::Consumed(MachineState::Text(TextState::RawLessThanSign(
            RawTextKind::Rawtext,
        )))),
        _ => replacing(out, b, TextState::Text(TextKind::Rawtext)),
    }
}

// 13.2.5.4 Script data state
fn script_data(out: &mut String, b: u8) -> Result<Transition, AllocError>
    requires { b < 128 }
    ensures { IfOk result (λ transition. DoesText transition (string_bytes out.old) (string_bytes out.new) (t.script_data_state b)) }
{
    match b {
        b'<' => Ok(Transition::Consumed(MachineState::Text(TextState::RawLessThanSign(
            RawTextKind::ScriptData,
        )))),
        _ => replacing(out, b, TextState::Text(TextKind::ScriptData)),
    }
}

// 13.2.5.5 PLAINTEXT state
fn plaintext(out: &mut String, b: u8) -> Result<Transition, AllocError>
    requires { b < 128 }
    ensures { IfOk result (λ transition. DoesText transition (string_bytes out.old) (string_bytes out.new) (t.plaintext_state b)) }
{
    replacing(out, b, TextState::Text(TextKind::Plaintext))
}

// 13.2.5.69 CDATA section state: a NUL is emitted unchanged
fn cdata_section(out: &mut String, b: u8) -> Result<Transition, AllocError>
    requires { b < 128 }
    ensures { IfOk result (λ transition. DoesText transition (string_bytes out.old) (string_bytes out.new) (t.cdata_section_state b)) }
{
    match b {
        b']' => Ok(Transition::Consumed(MachineState::Text(TextState::CdataSectionBracket))),
        0 => Ok(Transition::Emitted(CurrentToken::Null, TextKind::CdataSection)),
        _ => {
            push_byte(out, b)?;
            Ok(Transition::Consumed(text(TextKind::CdataSection)))
        }
    }
}

fn any_text(kind: TextKind, out: &mut String, b: u8) -> Result<Transition, AllocError>
    requires { b < 128 }
    ensures { IfOk result (λ transition. DoesText transition (string_bytes out.old) (string_bytes out.new) (t.text_state kind b)) }
{
    match kind {
        TextKind::Data => data(out, b),
        TextKind::Rcdata => rcdata(out, b),
        TextKind::Rawtext => rawtext(out, b),
        TextKind::ScriptData => script_data(out, b),
        TextKind::Plaintext => plaintext(out, b),
        TextKind::CdataSection => cdata_section(out, b),
    }
}

// 13.2.5.9, 12: RCDATA and RAWTEXT less-than sign state
fn plain_less_than_sign(
    kind: RawTextKind,
    out: &mut String,
    b: u8,
) -> Result<Transition, AllocError>
    ensures { IfOk result (λ transition. DoesText transition (string_bytes out.old) (string_bytes out.new) (plain_less_than_sign_state kind b)) }
{
    if b == b'/' {
        return Ok(Transition::Consumed(MachineState::Text(TextState::RawEndTagOpen(kind))));
    }
    out.push_str("<")?;
    Ok(Transition::Reconsumed(text_of(kind)))
}

// 13.2.5.15 Script data less-than sign state
fn script_data_less_than_sign(out: &mut String, b: u8) -> Result<Transition, AllocError>
    ensures { IfOk result (λ transition. DoesText transition (string_bytes out.old) (string_bytes out.new) (t.raw_less_than_sign_state RawTextKind.ScriptData b)) }
{
    match b {
        b'/' => Ok(Transition::Consumed(MachineState::Text(TextState::RawEndTagOpen(
            RawTextKind::ScriptData,
        )))),
        b'!' => {
            out.push_str("<!")?;
            Ok(Transition::Consumed(MachineState::Text(TextState::ScriptDataEscapeStart)))
        }
        _ => {
            out.push_str("<")?;
            Ok(Transition::Reconsumed(text(TextKind::ScriptData)))
        }
    }
}

// 13.2.5.23 Script data escaped less-than sign state
fn escaped_less_than_sign(
    buffer: &mut String,
    out: &mut String,
    b: u8,
) -> Result<Transition, AllocError>
    ensures { IfOk result (λ transition. DoesBuffer transition (string_bytes out.old) (string_bytes out.new) (string_bytes buffer.new) (t.raw_less_than_sign_state RawTextKind.EscapedScriptData b)) }
{
    if b == b'/' {
        return Ok(Transition::Consumed(MachineState::Text(TextState::RawEndTagOpen(
            RawTextKind::EscapedScriptData,
        ))));
    }
    out.push_str("<")?;
    if b.is_ascii_alphabetic() {
        buffer.clear();
        return Ok(Transition::Reconsumed(MachineState::Text(
            TextState::ScriptDataDoubleEscapeStart,
        )));
    }
    Ok(Transition::Reconsumed(MachineState::Text(TextState::ScriptDataEscaped(Escape::Escaped))))
}

// 13.2.5.9, 12, 15, 23: RCDATA, RAWTEXT, Script data and Script data escaped less-than sign state
fn raw_less_than_sign(
    kind: RawTextKind,
    buffer: &mut String,
    out: &mut String,
    b: u8,
) -> Result<Transition, AllocError>
    ensures { IfOk result (λ transition. DoesBuffer transition (string_bytes out.old) (string_bytes out.new) (string_bytes buffer.new) (t.raw_less_than_sign_state kind b)) }
{
    match kind {
        RawTextKind::ScriptData => script_data_less_than_sign(out, b),
        RawTextKind::EscapedScriptData => escaped_less_than_sign(buffer, out, b),
        RawTextKind::Rcdata => plain_less_than_sign(kind, out, b),
        RawTextKind::Rawtext => plain_less_than_sign(kind, out, b),
    }
}

// 13.2.5.10, 13, 16, 24: RCDATA, RAWTEXT, Script data and Script data escaped end tag open state
fn raw_end_tag_open(
    kind: RawTextKind,
    buffer: &mut String,
    out: &mut String,
    b: u8,
) -> Result<Transition, AllocError>
    ensures { IfOk result (λ transition. DoesBuffer transition (string_bytes out.old) (string_bytes out.new) (string_bytes buffer.new) (t.raw_end_tag_open_state kind b)) }
{
    if b.is_ascii_alphabetic() {
        buffer.clear();
        return Ok(Transition::Reconsumed(MachineState::Text(TextState::RawEndTagName(kind))));
    }
    out.push_str("</")?;
    Ok(Transition::Reconsumed(text_of(kind)))
}

// Returns true if an end tag token with this name is appropriate: there was a start tag, and the last one has this name.
fn is_appropriate(last: &LastName, buffer: &String) -> bool
    ensures { result ≡ t.is_appropriate last.now (string_bytes buffer.now) }
{
    let last = last.as_str();
    !last.is_empty() && is_lowered(last.as_bytes(), buffer.as_bytes())
}

// Begins an appropriate end tag, whose name ends before this byte.
fn appropriate_end_tag(tag: &mut OpenTag, name: &str, b: u8) -> Result<Transition, AllocError>
    ensures { IfOk result (λ transition. DoesTag transition tag.new (end_tag_behind name.now b)) }
{
    tag.begin(TagKind::EndTag);
    tag.push_name(name)?;
    if is_blank(b) {
        return Ok(Transition::Consumed(MachineState::Tag(TagState::BeforeAttributeName)));
    }
    if b == b'/' {
        return Ok(Transition::Consumed(MachineState::Tag(TagState::SelfClosingStartTag)));
    }
    Ok(Transition::Emitted(CurrentToken::Tag, TextKind::Data))
}

// Returns true if this byte ends the name of an appropriate end tag.
fn ends_end_tag(last: &LastName, buffer: &String, b: u8) -> bool
    ensures { result ≡ (is_name_end b && t.is_appropriate last.now (string_bytes buffer.now)) }
{
    is_name_end(b) && is_appropriate(last, buffer)
}

// 13.2.5.11, 14, 17, 25: RCDATA, RAWTEXT, Script data and Script data escaped end tag name state. The buffer has the name as it
// was written.
fn raw_end_tag_name(
    kind: RawTextKind,
    last: &LastName,
    buffer: &mut String,
    tag: &mut OpenTag,
    out: &mut String,
    b: u8,
) -> Result<Transition, AllocError>
    ensures { IfOk result (λ transition. (parts : Parts) → Does transition (string_bytes out.old) (string_bytes out.new)
        (record parts { buffer = string_bytes buffer.new; tag = tag.new }) (t.raw_end_tag_name_state last.now kind (string_bytes buffer.old) b)) }
{
    if b.is_ascii_alphabetic() {
        push_byte(buffer, b)?;
        return Ok(Transition::Consumed(MachineState::Text(TextState::RawEndTagName(kind))));
    }
    if ends_end_tag(last, buffer, b) {
        return appropriate_end_tag(tag, buffer.as_str(), b);
    }
    out.push_str("</")?;
    out.push_str(buffer.as_str())?;
    Ok(Transition::Reconsumed(text_of(kind)))
}

// 13.2.5.18 Script data escape start state
fn script_data_escape_start(out: &mut String, b: u8) -> Result<Transition, AllocError>
    ensures { IfOk result (λ transition. DoesText transition (string_bytes out.old) (string_bytes out.new) (t.script_data_escape_start_state b)) }
{
    if b == b'-' {
        out.push_str("-")?;
        return Ok(Transition::Consumed(MachineState::Text(TextState::ScriptDataEscapeStartDash)));
    }
    Ok(Transition::Reconsumed(text(TextKind::ScriptData)))
}

// 13.2.5.19 Script data escape start dash state
fn script_data_escape_start_dash(out: &mut String, b: u8) -> Result<Transition, AllocError>
    ensures { IfOk result (λ transition. DoesText transition (string_bytes out.old) (string_bytes out.new) (t.script_data_escape_start_dash_state b)) }
{
    if b == b'-' {
        out.push_str("-")?;
        return Ok(Transition::Consumed(MachineState::Text(TextState::ScriptDataEscapedDashDash(
            Escape::Escaped,
        ))));
    }
    Ok(Transition::Reconsumed(text(TextKind::ScriptData)))
}

// A '<' in an escaped script, and in a script escaped twice.
fn less_than_sign(depth: Escape, out: &mut String) -> Result<Transition, AllocError>
    ensures { IfOk result (λ transition. DoesText transition (string_bytes out.old) (string_bytes out.new) (t.escaped_less_than_sign depth)) }
{
    match depth {
        Escape::Escaped => Ok(Transition::Consumed(MachineState::Text(TextState::RawLessThanSign(
            RawTextKind::EscapedScriptData,
        )))),
        Escape::DoubleEscaped => {
            out.push_str("<")?;
            Ok(Transition::Consumed(MachineState::Text(
                TextState::ScriptDataDoubleEscapedLessThanSign,
            )))
        }
    }
}

// 13.2.5.20, 27: Script data escaped state, Script data double escaped state
fn script_data_escaped(depth: Escape, out: &mut String, b: u8) -> Result<Transition, AllocError>
    requires { b < 128 }
    ensures { IfOk result (λ transition. DoesText transition (string_bytes out.old) (string_bytes out.new) (t.script_data_escaped_state depth b)) }
{
    match b {
        b'-' => {
            out.push_str("-")?;
            Ok(Transition::Consumed(MachineState::Text(TextState::ScriptDataEscapedDash(depth))))
        }
        b'<' => less_than_sign(depth, out),
        _ => replacing(out, b, TextState::ScriptDataEscaped(depth)),
    }
}

// 13.2.5.21, 28: Script data escaped dash state, Script data double escaped dash state
fn script_data_escaped_dash(
    depth: Escape,
    out: &mut String,
    b: u8,
) -> Result<Transition, AllocError>
    requires { b < 128 }
    ensures { IfOk result (λ transition. DoesText transition (string_bytes out.old) (string_bytes out.new) (t.script_data_escaped_dash_state depth b)) }
{
    match b {
        b'-' => {
            out.push_str("-")?;
            Ok(Transition::Consumed(MachineState::Text(TextState::ScriptDataEscapedDashDash(
                depth,
            ))))
        }
        b'<' => less_than_sign(depth, out),
        _ => replacing(out, b, TextState::ScriptDataEscaped(depth)),
    }
}

// 13.2.5.22, 29: Script data escaped dash dash state, Script data double escaped dash dash state
fn script_data_escaped_dash_dash(
    depth: Escape,
    out: &mut String,
    b: u8,
) -> Result<Transition, AllocError>
    requires { b < 128 }
    ensures { IfOk result (λ transition. DoesText transition (string_bytes out.old) (string_bytes out.new) (t.script_data_escaped_dash_dash_state depth b)) }
{
    match b {
        b'-' => {
            out.push_str("-")?;
            Ok(Transition::Consumed(MachineState::Text(TextState::ScriptDataEscapedDashDash(
                depth,
            ))))
        }
        b'<' => less_than_sign(depth, out),
        b'>' => {
            out.push_str(">")?;
            Ok(Transition::Consumed(text(TextKind::ScriptData)))
        }
        _ => replacing(out, b, TextState::ScriptDataEscaped(depth)),
    }
}

fn escaped_after(is_script: bool) -> MachineState
    ensures { (parts : Parts) → state_of result parts ≡ ScriptDataEscaped (t.escaped_after is_script) }
{
    if is_script {
        MachineState::Text(TextState::ScriptDataEscaped(Escape::DoubleEscaped))
    } else {
        MachineState::Text(TextState::ScriptDataEscaped(Escape::Escaped))
    }
}

// 13.2.5.26 Script data double escape start state
fn script_data_double_escape_start(
    buffer: &mut String,
    out: &mut String,
    b: u8,
) -> Result<Transition, AllocError>
    ensures { IfOk result (λ transition. DoesBuffer transition (string_bytes out.old) (string_bytes out.new) (string_bytes buffer.new) (t.script_data_double_escape_start_state (string_bytes buffer.old) b)) }
{
    if is_name_end(b) {
        push_byte(out, b)?;
        return Ok(Transition::Consumed(escaped_after(buffer.as_str() == "script")));
    }
    if b.is_ascii_alphabetic() {
        push_byte(out, b)?;
        push_byte(buffer, b.to_ascii_lowercase())?;
        return Ok(Transition::Consumed(MachineState::Text(TextState::ScriptDataDoubleEscapeStart)));
    }
    Ok(Transition::Reconsumed(MachineState::Text(TextState::ScriptDataEscaped(Escape::Escaped))))
}

// 13.2.5.30 Script data double escaped less-than sign state
fn script_data_double_escaped_less_than_sign(
    buffer: &mut String,
    out: &mut String,
    b: u8,
) -> Result<Transition, AllocError>
    ensures { IfOk result (λ transition. DoesBuffer transition (string_bytes out.old) (string_bytes out.new) (string_bytes buffer.new) (t.script_data_double_escaped_less_than_sign_state b)) }
{
    if b == b'/' {
        out.push_str("/")?;
        buffer.clear();
        return Ok(Transition::Consumed(MachineState::Text(TextState::ScriptDataDoubleEscapeEnd)));
    }
    Ok(Transition::Reconsumed(MachineState::Text(TextState::ScriptDataEscaped(
        Escape::DoubleEscaped,
    ))))
}

// 13.2.5.31 Script data double escape end state
fn script_data_double_escape_end(
    buffer: &mut String,
    out: &mut String,
    b: u8,
) -> Result<Transition, AllocError>
    ensures { IfOk result (λ transition. DoesBuffer transition (string_bytes out.old) (string_bytes out.new) (string_bytes buffer.new) (t.script_data_double_escape_end_state (string_bytes buffer.old) b)) }
{
    if is_name_end(b) {
        push_byte(out, b)?;
        return Ok(Transition::Consumed(escaped_after(buffer.as_str() != "script")));
    }
    if b.is_ascii_alphabetic() {
        push_byte(out, b)?;
        push_byte(buffer, b.to_ascii_lowercase())?;
        return Ok(Transition::Consumed(MachineState::Text(TextState::ScriptDataDoubleEscapeEnd)));
    }
    Ok(Transition::Reconsumed(MachineState::Text(TextState::ScriptDataEscaped(
        Escape::DoubleEscaped,
    ))))
}

// 13.2.5.70 CDATA section bracket state
fn cdata_section_bracket(out: &mut String, b: u8) -> Result<Transition, AllocError>
    ensures { IfOk result (λ transition. DoesText transition (string_bytes out.old) (string_bytes out.new) (t.cdata_section_bracket_state b)) }
{
    if b == b']' {
        return Ok(Transition::Consumed(MachineState::Text(TextState::CdataSectionEnd)));
    }
    out.push_str("]")?;
    Ok(Transition::Reconsumed(text(TextKind::CdataSection)))
}

// 13.2.5.71 CDATA section end state
fn cdata_section_end(out: &mut String, b: u8) -> Result<Transition, AllocError>
    ensures { IfOk result (λ transition. DoesText transition (string_bytes out.old) (string_bytes out.new) (t.cdata_section_end_state b)) }
{
    match b {
        b']' => {
            out.push_str("]")?;
            Ok(Transition::Consumed(MachineState::Text(TextState::CdataSectionEnd)))
        }
        b'>' => Ok(Transition::Consumed(DATA)),
        _ => {
            out.push_str("]]")?;
            Ok(Transition::Reconsumed(text(TextKind::CdataSection)))
        }
    }
}

/// The row of a text state. Appends the text that it emits to `out`.
pub fn text_turn(
    state: TextState,
    last: &LastName,
    buffer: &mut String,
    tag: &mut OpenTag,
    out: &mut String,
    b: u8,
) -> Result<Transition, AllocError>
    requires { text_takes_wide state ≡ true → b < 128 }
    ensures { IfOk result (λ transition. (table : List Reference) (parts : Parts) → Does transition (string_bytes out.old) (string_bytes out.new)
        (record parts { buffer = string_bytes buffer.new; tag = tag.new }) (turn table last.now (text_state_of state (string_bytes buffer.old)) b)) }
{
    match state {
        TextState::Text(kind) => any_text(kind, out, b),
        TextState::RawLessThanSign(kind) => raw_less_than_sign(kind, buffer, out, b),
        TextState::RawEndTagOpen(kind) => raw_end_tag_open(kind, buffer, out, b),
        TextState::RawEndTagName(kind) => raw_end_tag_name(kind, last, buffer, tag, out, b),
        TextState::ScriptDataEscapeStart => script_data_escape_start(out, b),
        TextState::ScriptDataEscapeStartDash => script_data_escape_start_dash(out, b),
        TextState::ScriptDataEscaped(depth) => script_data_escaped(depth, out, b),
        TextState::ScriptDataEscapedDash(depth) => script_data_escaped_dash(depth, out, b),
        TextState::ScriptDataEscapedDashDash(depth) => {
            script_data_escaped_dash_dash(depth, out, b)
        }
        TextState::ScriptDataDoubleEscapeStart => script_data_double_escape_start(buffer, out, b),
        TextState::ScriptDataDoubleEscapedLessThanSign => {
            script_data_double_escaped_less_than_sign(buffer, out, b)
        }
        TextState::ScriptDataDoubleEscapeEnd => script_data_double_escape_end(buffer, out, b),
        TextState::CdataSectionBracket => cdata_section_bracket(out, b),
        TextState::CdataSectionEnd => cdata_section_end(out, b),
    }
}
