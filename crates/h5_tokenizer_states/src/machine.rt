//! The machine: a state, what is being built in it, and lines.

ghost use Rattle.std.specs.Prelude.{◌≡◌, ◌<◌, ◌≤◌, ◌-◌, ◌^◌, true, false, ◌⊎◌, IfOk, OnOk, [], ◌++◌, ℕ, List, IfSome, length, map, slice_index, string_bytes};
ghost use Rattle.h5_token.specs.TokenText.{TagIs, tag_text, doctype_text};
ghost use Rattle.h5_markup.specs.Bare.{bare_tag, IsBareTag};
ghost use Rattle.h5_tokenizer_states.specs.Common.{IsCommon};
ghost use Rattle.h5_tokenizer_states.specs.Opening.{IsOpening};
ghost use Rattle.std.specs.Char.{is_ascii_alphabetic, to_ascii_lowercase};
ghost use Rattle.h5_tokenizer_spec.specs.Construction.{named_further, new_tag, token_of};
ghost use Rattle.h5_tokenizer_spec.specs.Lines.{normal};
ghost use Rattle.h5_tokenizer_spec.specs.Machine.{turn};
ghost use Rattle.h5_tokenizer_spec.specs.ReferenceTable.{references};
ghost use Rattle.h5_tokenizer_spec.specs.Reading as reading;
ghost use Rattle.h5_tokenizer_spec.specs.States.{Text};
ghost use Rattle.h5_tokenizer_states.specs.OutcomeOf.{Does};
ghost use Rattle.h5_tokenizer_states.specs.MachineText.{asks_in, hands_null, place_of, Takes, PassesRun, IsQuiet};
ghost use Rattle.h5_tokenizer_states.specs.Parts.{Parts};
ghost use Rattle.h5_tokenizer_states.specs.Runs.{are_in, at_behind, parts_behind, put_by, place_behind_run, run_of};
ghost use Rattle.h5_tokenizer_states.specs.StateOf.{state_of};
ghost use Rattle.h5_tokenizer_states.specs.Wide.{takes_wide};

use super::comments::comment_turn;
use super::doctypes::{doctype_turn, nameless};
use super::machine_state::{
    CommentState, DoctypeState, MachineState, ReferenceState, ReturnTo, TagState, TextState, text,
};
use super::quoted::find_quoted;
use super::references::{OpenReference, reference_turn};
use super::runs::{
    Run, add_doctype_run, add_reference_run, add_tag_run, add_text_run, at_behind, count_run,
    run_of,
};
use super::tag::OpenTag;
use super::tags::tag_turn;
use super::texts::text_turn;
use super::transition::{CurrentToken, Transition};
use super::wide::takes_wide;
use crate::further_len;
use h5_markup::{Match, SharedNames, find_bare, make_bare, reference};
use h5_names::LocalName;
use h5_token::{Doctype, Tag, TagKind};
use h5_tokenizer_input::LastName;
use h5_tokenizer_spec::TextKind;
use std::alloc::{AllocError, Global};
use std::marker::Model;
use std::mem;

/// The tokenizer's state machine (HTML standard, section 13.2.5).
pub struct Machine {
    pub(crate) at: MachineState,
    // The last start tag's name, or the empty text.
    pub(crate) last: LastName,
    // The names that HTML doesn't know.
    names: SharedNames,
    pub(crate) tag: OpenTag,
    pub(crate) comment: String,
    pub(crate) doctype: Doctype,
    pub(crate) reference: OpenReference,
    // The standard's temporary buffer, in the states that look at it.
    pub(crate) buffer: String,
    // True if the last byte was a CARRIAGE RETURN.
    after_return: bool,
    // The current line.
    line: u64,
    // The line in which what isn't emitted yet began.
    began: u64,
}

impl Drop for Machine {
    fn drop(self) {
        let Machine {
            at: _at,
            last: _last,
            names: _names,
            tag: _tag,
            comment: _comment,
            doctype: _doctype,
            reference: _reference,
            buffer: _buffer,
            after_return: _after_return,
            line: _line,
            began: _began,
        } = self;
    }
}

impl Model for Machine {
    ghost use Rattle.std.specs.Prelude.{string_bytes};
    ghost use Rattle.h5_token.specs.TokenText.{doctype_text};
    ghost use Rattle.h5_tokenizer_states.specs.MachineText.{MachineText};

    ghost Value = { MachineText };

    ghost view = { λ m. record {
      at = m.at;
      parts = record {
        tag = m.tag;
        comment = string_bytes m.comment;
        doctype = doctype_text m.doctype;
        buffer = string_bytes m.buffer;
        seen = string_bytes m.reference.seen;
        code = m.reference.code;
      };
      last = m.last;
      after_return = m.after_return;
      line = m.line;
      began = m.began;
    } };
}

/// What happened to the current byte.
#[derive(Clone, Copy, Debug, PartialEq, Eq)]
pub enum Step {
    /// The byte was consumed.
    Consumed,
    /// The byte is still current.
    Reconsumed,
    /// The byte was consumed, and this token must be emitted, with the line in which it began.
    Emitted(CurrentToken, u64),
    /// The byte was consumed, and the caller must check the adjusted current node.
    Asks,
}

// Returns true if all that was consumed has been emitted.
fn is_all_emitted(at: MachineState) -> bool
    ensures { (parts : Parts) → result ≡ reading.is_all_emitted (state_of at parts) }
{
    match at {
        MachineState::Text(state) => match state {
            TextState::RawLessThanSign(_) => false,
            TextState::RawEndTagOpen(_) => false,
            TextState::RawEndTagName(_) => false,
            TextState::CdataSectionBracket => false,
            TextState::CdataSectionEnd => false,
            _ => true,
        },
        MachineState::Reference(ReferenceState::AmbiguousAmpersand, return_to) => match return_to {
            ReturnTo::Value(_) => false,
            _ => true,
        },
        _ => false,
    }
}

// Returns true if a NUL is emitted as a token.
fn hands_null(at: MachineState) -> bool
    ensures { (parts : Parts) → result ≡ hands_null (state_of at parts) }
{
    match at {
        MachineState::Text(state) => match state {
            TextState::Text(TextKind::Data) => true,
            TextState::Text(TextKind::CdataSection) => true,
            _ => false,
        },
        _ => false,
    }
}

// Returns true if a '[' may require a check of the adjusted current node.
fn asks_in(at: MachineState) -> bool
    ensures { (parts : Parts) → result ≡ asks_in (state_of at parts) }
{
    match at {
        MachineState::Comment(state) => match state {
            CommentState::MarkupDeclarationOpen => true,
            _ => false,
        },
        _ => false,
    }
}

/// Converts CARRIAGE RETURN to LINE FEED.
pub fn normal(b: u8) -> u8
    ensures { result ≡ normal b }
{
    if b == b'\r' { b'\n' } else { b }
}

// Returns true if the text begins with a start tag.
fn is_opening(rest: &str) -> bool
    ensures { result ≡ true → (0 < length rest.now) × (slice_index rest.now 0 ≡ 60) × (is_ascii_alphabetic (slice_index rest.now 1) ≡ true) }
{
    match rest.as_bytes() {
        [b'<', b, ..] => b.is_ascii_alphabetic(),
        _ => false,
    }
}

impl Machine {
    /// Returns a machine in this state and in line 1, after a start tag with this name, or after none if the name is empty.
    pub fn new(alloc: Global, kind: TextKind, last: LastName) -> Machine
        ensures { place_of result ≡ record { state = Text kind; last = last; after_return = false; line = 1; began = 1 } }
    {
        Machine {
            at: text(kind),
            last,
            names: SharedNames::new(alloc),
            tag: OpenTag::new(alloc),
            comment: String::new(alloc),
            doctype: nameless(),
            reference: OpenReference {
                seen: String::new(alloc),
                code: 0,
            },
            buffer: String::new(alloc),
            after_return: false,
            line: 1,
            began: 1,
        }
    }

    /// Returns the current line.
    pub fn line(&self) -> u64
        ensures { result ≡ self.now.line }
    {
        self.line
    }

    /// Returns the line in which what isn't emitted yet began.
    pub fn began(&self) -> u64
        ensures { result ≡ self.now.began }
    {
        self.began
    }

    // The row of the state, at a normalized byte.
    fn turn(&mut self, b: u8, out: &mut String) -> Result<Transition, AllocError>
        requires { takes_wide self.old.at ≡ true → b < 128 }
        ensures row { IfOk result (λ transition. Does transition (string_bytes out.old) (string_bytes out.new) self.new.parts
            (turn references self.old.last (state_of self.old.at self.old.parts) b)) }
        ensures others { self.new ≡ record self.old { parts = self.new.parts } }
    {
        match self.at {
            MachineState::Text(state) => text_turn(
                state,
                &self.last,
                &mut self.buffer,
                &mut self.tag,
                out,
                b,
            ),
            MachineState::Tag(state) => tag_turn(state, &mut self.tag, &mut self.comment, out, b),
            MachineState::Comment(state) => comment_turn(state, &mut self.comment, b),
            MachineState::Doctype(state) => doctype_turn(
                state,
                &mut self.doctype,
                &mut self.buffer,
                b,
            ),
            MachineState::Reference(state, return_to) => reference_turn(
                state,
                return_to,
                &mut self.reference,
                &mut self.tag,
                out,
                b,
            ),
        }
    }

    // Switches to a state. If all was emitted, what is emitted next begins in the current line.
    fn go(&mut self, at: MachineState)
        ensures place { place_of self.new ≡ reading.in_state (state_of at self.old.parts) (place_of self.old) }
        ensures at { self.new.at ≡ at }
        ensures parts { self.new.parts ≡ self.old.parts }
    {
        self.at = at;
        if is_all_emitted(at) {
            self.began = self.line;
        }
    }

    // Moves after a consumed byte, to this state.
    fn go_behind(&mut self, b: u8, at: MachineState)
        ensures place { place_of self.new ≡ reading.behind b (state_of at self.old.parts) (place_of self.old) }
        ensures at { self.new.at ≡ at }
        ensures parts { self.new.parts ≡ self.old.parts }
    {
        self.after_return = b == b'\r';
        if b == b'\r' || b == b'\n' {
            self.line = self.line.saturating_add(1);
        }
        self.go(at);
    }

    /// Returns true if this byte may emit a token or require a check of the adjusted current node. What was emitted before must
    /// be passed to the sink first.
    pub fn may_hand(&self, b: u8) -> bool
        ensures { result ≡ false → reading.is_dropped (place_of self.now) b ≡ false → IsQuiet (reading.outcome references (place_of self.now) b) }
    {
        match b {
            b'>' => match self.at {
                MachineState::Text(TextState::RawEndTagName(_)) => true,
                MachineState::Text(_) => false,
                MachineState::Tag(TagState::TagOpen) => false,
                MachineState::Tag(TagState::EndTagOpen) => false,
                MachineState::Reference(_, _) => false,
                _ => true,
            },
            b'[' => asks_in(self.at),
            0 => hands_null(self.at),
            _ => false,
        }
    }

    /// Returns true if the byte is a LINE FEED after a CARRIAGE RETURN, which already was a newline.
    pub fn is_dropped(&self, b: u8) -> bool
        ensures { result ≡ reading.is_dropped (place_of self.now) b }
    {
        self.after_return && b == b'\n'
    }

    /// Returns true if the state takes bytes other than ASCII as they are. Such bytes are taken as a run.
    pub fn takes_wide(&self) -> bool
        ensures { result ≡ takes_wide self.now.at }
    {
        takes_wide(self.at)
    }

    /// Takes the current byte, and appends the text that it emits to `out`. If `takes_wide` returns true, the byte must be
    /// ASCII.
    pub fn take(&mut self, b: u8, out: &mut String) -> Result<Step, AllocError>
        requires { takes_wide self.old.at ≡ true → b < 128 }
        ensures { IfOk result (λ taken. Takes self.old b (string_bytes out.old) (string_bytes out.new) self.new taken) }
    {
        if self.is_dropped(b) {
            self.after_return = false;
            return Ok(Step::Consumed);
        }
        let began = self.began;
        match self.turn(normal(b), out)? {
            Transition::Consumed(at) => {
                self.go_behind(b, at);
                Ok(Step::Consumed)
            }
            Transition::Reconsumed(at) => {
                self.go(at);
                Ok(Step::Reconsumed)
            }
            Transition::Emitted(construct, kind) => {
                self.go_behind(b, text(kind));
                Ok(Step::Emitted(construct, began))
            }
            Transition::Asks => {
                self.go_behind(b, MachineState::Comment(CommentState::BogusComment));
                Ok(Step::Asks)
            }
        }
    }

    /// Begins a CDATA section: the adjusted current node isn't in the HTML namespace.
    pub fn begin_cdata_section(&mut self)
        ensures { place_of self.new ≡ reading.in_state (Text TextKind.CdataSection) (place_of self.old) }
    {
        self.go(text(TextKind::CdataSection));
    }

    /// Switches to the state of such a text.
    pub fn read_text(&mut self, kind: TextKind)
        ensures { place_of self.new ≡ record (place_of self.old) { state = Text kind } }
    {
        self.at = text(kind);
    }

    /// Sets the name of the last start tag.
    pub fn set_last(&mut self, name: LocalName)
        ensures { self.new ≡ record self.old { last = name } }
    {
        self.last = LastName::read(name);
    }

    /// Returns the complete tag, and takes it out of the machine.
    pub fn take_tag(&mut self) -> Result<Tag, AllocError>
        ensures tag { IfOk result (λ tag. TagIs (tag_text tag) ≡ token_of self.old.parts.tag) }
        ensures others { self.new ≡ record self.old { parts = record self.old.parts { tag = self.new.parts.tag } } }
    {
        self.tag.take()
    }

    /// Returns the complete comment, and takes it out of the machine.
    pub fn take_comment(&mut self) -> String
        ensures comment { string_bytes result ≡ self.old.parts.comment }
        ensures others { self.new ≡ record self.old { parts = record self.old.parts { comment = [] } } }
    {
        let alloc = *self.comment.allocator();
        mem::replace(&mut self.comment, String::new(alloc))
    }

    /// Returns the complete doctype, and takes it out of the machine.
    pub fn take_doctype(&mut self) -> Doctype
        ensures doctype { doctype_text result ≡ self.old.parts.doctype }
        ensures others { self.new ≡ record self.old { parts = record self.old.parts { doctype = self.new.parts.doctype } } }
    {
        mem::replace(&mut self.doctype, nameless())
    }

    // Appends a run to a text or to what is being built.
    fn add_run(&mut self, front: &str, out: &mut String) -> Result<(), AllocError>
        requires { are_in (run_of self.old.at) front.now ≡ true }
        ensures parts { OnOk result (self.new ≡ record self.old { parts = parts_behind self.old.at front.now self.old.parts }) }
        ensures put { OnOk result (string_bytes out.new ≡ string_bytes out.old ++ put_by self.old.at front.now) }
    {
        match self.at {
            MachineState::Text(state) => add_text_run(state, front, &mut self.buffer, out),
            MachineState::Tag(state) => add_tag_run(state, front, &mut self.tag, &mut self.names),
            MachineState::Comment(_) => self.comment.push_str(front),
            MachineState::Doctype(state) => {
                let empty = String::new(*self.comment.allocator());
                add_doctype_run(state, front, &mut self.doctype, empty)
            }
            MachineState::Reference(_, return_to) => add_reference_run(
                return_to,
                front,
                &mut self.tag,
                out,
            ),
        }
    }

    // Moves after a run with the given number of newlines.
    fn pass_run(&mut self, lines: u64)
        ensures place { place_of self.new ≡ place_behind_run (place_of self.old) (state_of (at_behind self.old.at) self.old.parts) lines }
        ensures at { self.new.at ≡ at_behind self.old.at }
        ensures fits { self.old.line ≤ 2 ^ 64 - 1 }
    {
        self.after_return = false;
        self.line = self.line.saturating_add(lines);
        self.go(at_behind(self.at));
    }

    // Returns true if the next byte is a LINE FEED that is dropped, since it follows a CARRIAGE RETURN.
    fn drops_next(&self, rest: &str) -> bool
        ensures { result ≡ reading.is_dropped (place_of self.now) (slice_index rest.now 0) }
    {
        match rest.as_bytes() {
            [b'\n', ..] => self.after_return,
            _ => false,
        }
    }

    // Takes the bytes that continue the name of a reference, and returns what follows them.
    fn take_name<'a>(&mut self, rest: &'a str) -> Result<&'a str, AllocError>
        requires named { (return_to : ReturnTo) × (self.old.at ≡ MachineState.Reference ReferenceState.NamedCharacterReference return_to) }
        requires kept { reading.is_dropped (place_of self.old) (slice_index rest.now 0) ≡ false }
        ensures passes { IfOk result (λ after. (out : List ℕ) → PassesRun self.old rest.now out out self.new after.now) }
        ensures at { self.new.at ≡ self.old.at }
    {
        let n = further_len(self.reference.seen.as_bytes(), rest.as_bytes());
        if n == 0 {
            return Ok(rest);
        }
        let (front, behind) = rest.split_at(n);
        self.reference.seen.push_str(front)?;
        self.after_return = false;
        Ok(behind)
    }

    // Takes the run at the start, and returns what follows it. Appends the text that it emits to `out`.
    fn take_bytes<'a>(&mut self, rest: &'a str, out: &mut String) -> Result<&'a str, AllocError>
        ensures passes { IfOk result (λ after. PassesRun self.old rest.now (string_bytes out.old) (string_bytes out.new) self.new after.now) }
        ensures narrow { IfOk result (λ after. takes_wide self.new.at ≡ true → 0 < length after.now → slice_index after.now 0 < 128) }
    {
        if self.drops_next(rest) {
            return Ok(rest);
        }
        if let MachineState::Reference(ReferenceState::NamedCharacterReference, _) = self.at {
            return self.take_name(rest);
        }
        let (n, lines) = count_run(run_of(self.at), rest);
        if n == 0 {
            return Ok(rest);
        }
        let (front, behind) = rest.split_at(n);
        self.add_run(front, out)?;
        self.pass_run(lines);
        Ok(behind)
    }

    // Takes the attribute at the start if it is quoted, and returns what follows it.
    fn take_quoted<'a>(&mut self, rest: &'a str) -> Result<&'a str, AllocError>
        requires { self.old.at ≡ MachineState.Tag TagState.BeforeAttributeName }
        ensures passes { IfOk result (λ after. (out : List ℕ) → PassesRun self.old rest.now out out self.new after.now) }
        ensures narrow { OnOk result (takes_wide self.new.at ≡ false) }
    {
        let Some(found) = find_quoted(rest) else {
            return Ok(rest);
        };
        self.tag
            .push_quoted(&mut self.names, found.name, found.value)?;
        self.after_return = false;
        self.line = self.line().saturating_add(found.lines);
        self.at = MachineState::Tag(TagState::AfterAttributeValueQuoted);
        Ok(found.rest)
    }

    /// Takes the run at the start, and a quoted attribute after it, and returns what follows. Appends the text that they emit
    /// to `out`.
    pub fn take_run<'a>(&mut self, rest: &'a str, out: &mut String) -> Result<&'a str, AllocError>
        ensures passes { IfOk result (λ after. PassesRun self.old rest.now (string_bytes out.old) (string_bytes out.new) self.new after.now) }
        ensures narrow { IfOk result (λ after. takes_wide self.new.at ≡ true → 0 < length after.now → slice_index after.now 0 < 128) }
    {
        let behind = self.take_bytes(rest, out)?;
        match self.at {
            MachineState::Tag(TagState::BeforeAttributeName) => self.take_quoted(behind),
            _ => Ok(behind),
        }
    }

    // Returns true only in the data state.
    fn is_in_data(&self) -> bool
        ensures { result ≡ true → self.now.at ≡ MachineState.Text (TextState.Text TextKind.Data) }
    {
        match self.at {
            MachineState::Text(TextState::Text(TextKind::Data)) => true,
            _ => false,
        }
    }

    /// Returns true if the text may begin with a tag that has only a name, in the data state. Such a tag is taken at once.
    #[inline(always)]
    pub fn may_be_bare(&self, rest: &str) -> bool
        ensures { result ≡ true → self.now.at ≡ MachineState.Text (TextState.Text TextKind.Data) }
    {
        match rest.as_bytes() {
            [b'<', b'/', ..] => self.is_in_data(),
            [b'<', b, ..] => b.is_ascii_alphabetic() && self.is_in_data(),
            _ => false,
        }
    }

    /// Returns the kind and the name of the tag at the start, and what follows it, if it can be taken at once.
    #[inline(always)]
    pub fn find_bare<'a>(&self, rest: &'a str) -> Option<(TagKind, &'a str, &'a str)>
        ensures { IfSome result (λ tag. (self.now.at ≡ MachineState.Text (TextState.Text TextKind.Data)) × IsBareTag rest.now tag.0 tag.1.now tag.2.now) }
    {
        if !self.is_in_data() {
            return None;
        }
        find_bare(rest)
    }

    /// Returns the text of the character reference at the start, and what follows it, if the state is the data state, the
    /// reference is one of the five most frequent ones, and something follows it. Such a reference is taken at once.
    #[inline(always)]
    pub fn find_common<'a>(&self, rest: &'a str) -> Option<(&'static str, &'a str)>
        ensures { IfSome result (λ found. (self.now.at ≡ MachineState.Text (TextState.Text TextKind.Data)) × IsCommon rest.now found.0.now found.1.now) }
    {
        match reference(rest) {
            Match::Found(text, behind) => {
                if behind.is_empty() || !self.is_in_data() {
                    return None;
                }
                Some((text, behind))
            }
            _ => None,
        }
    }

    /// Takes such a reference, and appends its text to `out`.
    pub fn pass_common(&mut self, text: &str, out: &mut String) -> Result<(), AllocError>
        ensures out { OnOk result (string_bytes out.new ≡ string_bytes out.old ++ text.now) }
        ensures others { OnOk result (self.new ≡ record self.old { after_return = false; began = self.old.line }) }
    {
        out.push_str(text)?;
        self.after_return = false;
        self.began = self.line();
        Ok(())
    }

    /// Returns the name of the start tag at the start, and what follows it, in the data state. Such a name is taken at once,
    /// with the `<` before it.
    pub fn find_opening<'a>(&self, rest: &'a str) -> Option<(&'a str, &'a str)>
        ensures { IfSome result (λ found. (self.now.at ≡ MachineState.Text (TextState.Text TextKind.Data)) × IsOpening rest.now found.0.now found.1.now) }
    {
        if !self.is_in_data() || !is_opening(rest) {
            return None;
        }
        let inside = rest.split_at(1).1;
        let (n, _) = count_run(Run::Name, inside);
        if n == 0 {
            return None;
        }
        Some(inside.split_at(n))
    }

    /// Takes the `<` and this name.
    pub fn pass_opening(&mut self, name: &str) -> Result<(), AllocError>
        requires { are_in Run.Name name.now ≡ true }
        ensures others { OnOk result (self.new ≡ record self.old {
          at = MachineState.Tag TagState.TagName;
          parts = record self.old.parts { tag = named_further (map to_ascii_lowercase name.now) (new_tag TagKind.StartTag []) };
          after_return = false;
        }) }
        ensures fits { self.old.line ≤ 2 ^ 64 - 1 }
    {
        // For the contract: the line is small enough.
        let _line = self.line();
        self.tag.begin(TagKind::StartTag);
        self.tag.push_name_run(&mut self.names, name)?;
        self.after_return = false;
        self.at = MachineState::Tag(TagState::TagName);
        Ok(())
    }

    /// Takes such a tag, and returns it.
    pub fn pass_bare(&mut self, kind: TagKind, name: &str) -> Result<Tag, AllocError>
        ensures tag { IfOk result (λ tag. TagIs (tag_text tag) ≡ bare_tag kind name.now) }
        ensures others { self.new ≡ record self.old { after_return = false; began = self.old.line } }
        ensures fits { self.old.line ≤ 2 ^ 64 - 1 }
    {
        let alloc = *self.comment.allocator();
        self.after_return = false;
        self.began = self.line();
        make_bare(alloc, &mut self.names, kind, name)
    }
}
