//! Runs: bytes that a state only appends to a text or to what is being built, taken at once.

ghost use Rattle.std.specs.Prelude.{◌≡◌, ◌<◌, ◌≤◌, true, false, [], ◌++◌, map, OnOk, length, take, slice_index, string_bytes};
ghost use Rattle.std.specs.Char.{to_ascii_lowercase};
ghost use Rattle.h5_token.specs.TokenText.{doctype_text};
ghost use Rattle.h5_tokenizer_input.specs.Lines.{newlines};
ghost use Rattle.h5_tokenizer_spec.specs.Construction as construction;
ghost use Rattle.h5_tokenizer_states.specs.Runs.{is_changed, is_in, are_in, run_of, run_of_text, run_of_text_state, run_of_value, run_of_tag, run_of_comment, run_of_doctype, run_of_reference, at_behind, text_behind, doctype_behind, buffer_behind, tag_behind, doctype_text_behind, tag_flushed, text_put, text_flushed};

use super::doctypes::{new_doctype, push_doctype_name, push_identifier};
use super::machine_state::{
    CommentState, DoctypeState, MachineState, ReferenceState, ReturnTo, TagState, TextState,
    ValueKind,
};
use super::signs::{is_alphanumeric, is_blank, is_name_end, push_lowered, sign_of};
use super::tag::OpenTag;
use h5_markup::SharedNames;
use h5_token::Doctype;
use h5_tokenizer_input::count_plain;
use h5_tokenizer_spec::{Quote, TextKind};
use std::alloc::AllocError;

/// The bytes of a run. All bytes that end a run are ASCII.
#[derive(Clone, Copy, Debug, PartialEq, Eq)]
pub enum Run {
    /// No bytes.
    Nothing,
    /// All except `<`, `&`, NUL and CR.
    References,
    /// All except `<`, NUL and CR.
    Tags,
    /// All except NUL and CR.
    Plain,
    /// All except `]`, NUL and CR.
    Brackets,
    /// All except `-`, `<`, NUL and CR.
    Dashes,
    /// Bytes other than ASCII.
    Wide,
    /// ASCII letters.
    Letters,
    /// ASCII letters and digits.
    Alphanumerics,
    /// ASCII whitespace except CR.
    Blanks,
    /// All except ASCII whitespace, `/`, `>` and NUL.
    Name,
    /// All except ASCII whitespace, `/`, `>`, `=` and NUL.
    AttributeName,
    /// All except the quote, `&`, NUL and CR.
    Quoted(Quote),
    /// All except ASCII whitespace, `&`, `>` and NUL.
    Unquoted,
    /// All except `>`, NUL and CR.
    Bogus,
    /// All except ASCII whitespace, `>` and NUL.
    DoctypeName,
    /// All except the quote, `>`, NUL and CR.
    Identifier(Quote),
}

// A NUL, which most states replace, or a CR, which is a newline.
#[inline(always)]
fn is_changed(b: u8) -> bool
    ensures { result ≡ is_changed b }
{
    b == 0 || b == b'\r'
}

/// Returns true if a byte is in a run.
#[inline(always)]
pub fn is_in(run: Run, b: u8) -> bool
    ensures { result ≡ is_in run b }
{
    match run {
        Run::Nothing => false,
        Run::References => !(b == b'<' || b == b'&' || is_changed(b)),
        Run::Tags => !(b == b'<' || is_changed(b)),
        Run::Plain => !is_changed(b),
        Run::Brackets => !(b == b']' || is_changed(b)),
        Run::Dashes => !(b == b'-' || b == b'<' || is_changed(b)),
        Run::Wide => b >= 128,
        Run::Letters => b.is_ascii_alphabetic(),
        Run::Alphanumerics => is_alphanumeric(b),
        Run::Blanks => is_blank(b),
        Run::Name => !(is_name_end(b) || is_changed(b)),
        Run::AttributeName => !(is_name_end(b) || b == b'=' || is_changed(b)),
        Run::Quoted(quote) => !(b == sign_of(quote) || b == b'&' || is_changed(b)),
        Run::Unquoted => !(is_blank(b) || b == b'&' || b == b'>' || is_changed(b)),
        Run::Bogus => !(b == b'>' || is_changed(b)),
        Run::DoctypeName => !(is_blank(b) || b == b'>' || is_changed(b)),
        Run::Identifier(quote) => !(b == sign_of(quote) || b == b'>' || is_changed(b)),
    }
}

fn run_of_kind(kind: TextKind) -> Run
    ensures { result ≡ run_of_text kind }
{
    match kind {
        TextKind::Data => Run::References,
        TextKind::Rcdata => Run::References,
        TextKind::Rawtext => Run::Tags,
        TextKind::ScriptData => Run::Tags,
        TextKind::Plaintext => Run::Plain,
        TextKind::CdataSection => Run::Brackets,
    }
}

fn run_of_text(state: TextState) -> Run
    ensures { result ≡ run_of_text_state state }
{
    match state {
        TextState::Text(kind) => run_of_kind(kind),
        TextState::RawEndTagName(_) => Run::Letters,
        TextState::ScriptDataEscaped(_) => Run::Dashes,
        TextState::ScriptDataEscapedDash(_) => Run::Wide,
        TextState::ScriptDataEscapedDashDash(_) => Run::Wide,
        _ => Run::Nothing,
    }
}

fn run_of_value(value: ValueKind) -> Run
    ensures { result ≡ run_of_value value }
{
    match value {
        ValueKind::Quoted(quote) => Run::Quoted(quote),
        ValueKind::Unquoted => Run::Unquoted,
    }
}

fn run_of_tag(state: TagState) -> Run
    ensures { result ≡ run_of_tag state }
{
    match state {
        TagState::TagName => Run::Name,
        TagState::BeforeAttributeName => Run::Blanks,
        TagState::AttributeName => Run::AttributeName,
        TagState::AfterAttributeName => Run::Blanks,
        TagState::BeforeAttributeValue => Run::Blanks,
        TagState::AttributeValue(value) => run_of_value(value),
        _ => Run::Nothing,
    }
}

fn run_of_comment(state: CommentState) -> Run
    ensures { result ≡ run_of_comment state }
{
    match state {
        CommentState::BogusComment => Run::Bogus,
        CommentState::Comment => Run::Dashes,
        _ => Run::Nothing,
    }
}

fn run_of_doctype(state: DoctypeState) -> Run
    ensures { result ≡ run_of_doctype state }
{
    match state {
        DoctypeState::BeforeDoctypeName => Run::Wide,
        DoctypeState::DoctypeName => Run::DoctypeName,
        DoctypeState::BeforeDoctypeIdentifier(_) => Run::Blanks,
        DoctypeState::DoctypeIdentifier(_, quote) => Run::Identifier(quote),
        DoctypeState::BetweenDoctypeIdentifiers => Run::Blanks,
        DoctypeState::AfterDoctypeSystemIdentifier => Run::Blanks,
        DoctypeState::BogusDoctype => Run::Bogus,
        _ => Run::Nothing,
    }
}

fn run_of_reference(state: ReferenceState) -> Run
    ensures { result ≡ run_of_reference state }
{
    match state {
        ReferenceState::AmbiguousAmpersand => Run::Alphanumerics,
        _ => Run::Nothing,
    }
}

/// Returns the run of a state.
pub fn run_of(at: MachineState) -> Run
    ensures { result ≡ run_of at }
{
    match at {
        MachineState::Text(state) => run_of_text(state),
        MachineState::Tag(state) => run_of_tag(state),
        MachineState::Comment(state) => run_of_comment(state),
        MachineState::Doctype(state) => run_of_doctype(state),
        MachineState::Reference(state, _) => run_of_reference(state),
    }
}

// Returns the length of the run at the start, and its newlines. It is inlined for each run.
#[inline(always)]
fn count_in(run: Run, bytes: &[u8]) -> (usize, u64)
    ensures within { result.0 ≤ length bytes.now }
    ensures taken { are_in run (take result.0 bytes.now) ≡ true }
    ensures stops { result.0 < length bytes.now → is_in run (slice_index bytes.now result.0) ≡ false }
    ensures lines { result.1 ≡ newlines false (take result.0 bytes.now) }
{
    let mut lines: u64 = 0;
    for (i, b) in bytes.iter().enumerate() {
        if !is_in(run, *b) {
            return (i, lines);
        }
        if *b == b'\n' {
            lines += 1;
        }
    }
    (bytes.len(), lines)
}

// Counts a run of text with references: first the bytes that are text in every state, then one byte after another.
fn count_references(text: &str) -> (usize, u64)
    ensures within { result.0 ≤ length text.now }
    ensures taken { are_in Run.References (take result.0 text.now) ≡ true }
    ensures stops { result.0 < length text.now → is_in Run.References (slice_index text.now result.0) ≡ false }
    ensures lines { result.1 ≡ newlines false (take result.0 text.now) }
{
    let (n, lines) = count_plain(text);
    let (_, rest) = text.as_bytes().split_at(n);
    let (m, others) = count_in(Run::References, rest);
    (n + m, lines + others)
}

/// Returns the length of the run at the start, and its newlines. The most frequent runs are counted by separate code.
pub fn count_run(run: Run, text: &str) -> (usize, u64)
    ensures within { result.0 ≤ length text.now }
    ensures taken { are_in run (take result.0 text.now) ≡ true }
    ensures stops { result.0 < length text.now → is_in run (slice_index text.now result.0) ≡ false }
    ensures lines { result.1 ≡ newlines false (take result.0 text.now) }
{
    let bytes = text.as_bytes();
    match run {
        Run::Nothing => (0, 0),
        Run::References => count_references(text),
        Run::Tags => count_in(Run::Tags, bytes),
        Run::Dashes => count_in(Run::Dashes, bytes),
        Run::Blanks => count_in(Run::Blanks, bytes),
        Run::Name => count_in(Run::Name, bytes),
        Run::AttributeName => count_in(Run::AttributeName, bytes),
        Run::Quoted(Quote::Double) => count_in(Run::Quoted(Quote::Double), bytes),
        Run::Quoted(Quote::Single) => count_in(Run::Quoted(Quote::Single), bytes),
        Run::Unquoted => count_in(Run::Unquoted, bytes),
        _ => count_in(run, bytes),
    }
}

fn text_behind(state: TextState) -> TextState
    ensures { result ≡ text_behind state }
{
    match state {
        TextState::ScriptDataEscapedDash(depth) => TextState::ScriptDataEscaped(depth),
        TextState::ScriptDataEscapedDashDash(depth) => TextState::ScriptDataEscaped(depth),
        _ => state,
    }
}

fn doctype_behind(state: DoctypeState) -> DoctypeState
    ensures { result ≡ doctype_behind state }
{
    match state {
        DoctypeState::BeforeDoctypeName => DoctypeState::DoctypeName,
        _ => state,
    }
}

/// Returns the state after a run.
pub fn at_behind(at: MachineState) -> MachineState
    ensures { result ≡ at_behind at }
{
    match at {
        MachineState::Text(state) => MachineState::Text(text_behind(state)),
        MachineState::Tag(state) => MachineState::Tag(state),
        MachineState::Comment(state) => MachineState::Comment(state),
        MachineState::Doctype(state) => MachineState::Doctype(doctype_behind(state)),
        MachineState::Reference(state, return_to) => MachineState::Reference(state, return_to),
    }
}

/// Appends a run to a text, or to the name of an end tag.
pub fn add_text_run(
    state: TextState,
    front: &str,
    buffer: &mut String,
    out: &mut String,
) -> Result<(), AllocError>
    ensures buffer { OnOk result (string_bytes buffer.new ≡ buffer_behind state front.now (string_bytes buffer.old)) }
    ensures put { OnOk result (string_bytes out.new ≡ string_bytes out.old ++ text_put state front.now) }
{
    match state {
        TextState::RawEndTagName(_) => buffer.push_str(front),
        _ => out.push_str(front),
    }
}

/// Appends a run to a tag. Whitespace is skipped.
pub fn add_tag_run(
    state: TagState,
    front: &str,
    tag: &mut OpenTag,
    names: &mut SharedNames,
) -> Result<(), AllocError>
    requires { are_in (run_of_tag state) front.now ≡ true }
    ensures { OnOk result (tag.new ≡ tag_behind state front.now tag.old) }
{
    match state {
        TagState::TagName => tag.push_name_run(names, front),
        TagState::AttributeName => tag.push_attribute_run(names, front),
        TagState::AttributeValue(_) => tag.push_value(front),
        _ => Ok(()),
    }
}

// Begins a doctype, and the name with this run.
fn begin_doctype_name(front: &str, doctype: &mut Doctype, empty: String) -> Result<(), AllocError>
    requires { string_bytes empty ≡ [] }
    ensures { OnOk result (doctype_text doctype.new ≡ construction.new_doctype (map to_ascii_lowercase front.now)) }
{
    let mut name = empty;
    push_lowered(&mut name, front)?;
    *doctype = new_doctype(name);
    Ok(())
}

/// Appends a run to a doctype. Whitespace and what is bogus is skipped.
pub fn add_doctype_run(
    state: DoctypeState,
    front: &str,
    doctype: &mut Doctype,
    empty: String,
) -> Result<(), AllocError>
    requires { string_bytes empty ≡ [] }
    ensures { OnOk result (doctype_text doctype.new ≡ doctype_text_behind state front.now (doctype_text doctype.old)) }
{
    match state {
        DoctypeState::BeforeDoctypeName => begin_doctype_name(front, doctype, empty),
        DoctypeState::DoctypeName => push_doctype_name(doctype, front),
        DoctypeState::DoctypeIdentifier(id, _) => push_identifier(id, doctype, front),
        _ => Ok(()),
    }
}

/// Appends a run after an ambiguous ampersand.
pub fn add_reference_run(
    return_to: ReturnTo,
    front: &str,
    tag: &mut OpenTag,
    out: &mut String,
) -> Result<(), AllocError>
    ensures tag { OnOk result (tag.new ≡ tag_flushed return_to front.now tag.old) }
    ensures put { OnOk result (string_bytes out.new ≡ string_bytes out.old ++ text_flushed return_to front.now) }
{
    match return_to {
        ReturnTo::Data => out.push_str(front),
        ReturnTo::Rcdata => out.push_str(front),
        ReturnTo::Value(_) => tag.push_value(front),
    }
}
