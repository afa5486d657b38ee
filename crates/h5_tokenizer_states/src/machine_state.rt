//! The states of tokenization, without what is being built in them (HTML standard, section 13.2.5).

ghost use Rattle.std.specs.Prelude.{◌≡◌};
ghost use Rattle.h5_tokenizer_spec.specs.States.{Text, text_of, returned};
ghost use Rattle.h5_tokenizer_states.specs.StateOf.{state_of, return_of};
ghost use Rattle.h5_tokenizer_states.specs.Parts.{Parts};

use h5_tokenizer_spec::{Escape, Identifier, Quote, RawTextKind, TextKind};

/// How the value of an attribute is written.
#[derive(Clone, Copy, Debug, PartialEq, Eq)]
pub enum ValueKind {
    Quoted(Quote),
    Unquoted,
}

/// The return state of a character reference.
#[derive(Clone, Copy, Debug, PartialEq, Eq)]
pub enum ReturnTo {
    Data,
    Rcdata,
    Value(ValueKind),
}

/// The states of texts: 1 to 5, 9 to 31 and 69 to 71.
#[derive(Clone, Copy, Debug, PartialEq, Eq)]
pub enum TextState {
    Text(TextKind),
    RawLessThanSign(RawTextKind),
    RawEndTagOpen(RawTextKind),
    RawEndTagName(RawTextKind),
    ScriptDataEscapeStart,
    ScriptDataEscapeStartDash,
    ScriptDataEscaped(Escape),
    ScriptDataEscapedDash(Escape),
    ScriptDataEscapedDashDash(Escape),
    ScriptDataDoubleEscapeStart,
    ScriptDataDoubleEscapedLessThanSign,
    ScriptDataDoubleEscapeEnd,
    CdataSectionBracket,
    CdataSectionEnd,
}

/// The states of tags: 6 to 8 and 32 to 40.
#[derive(Clone, Copy, Debug, PartialEq, Eq)]
pub enum TagState {
    TagOpen,
    EndTagOpen,
    TagName,
    BeforeAttributeName,
    AttributeName,
    AfterAttributeName,
    BeforeAttributeValue,
    AttributeValue(ValueKind),
    AfterAttributeValueQuoted,
    SelfClosingStartTag,
}

/// The states of comments and bogus comments: 41 to 52.
#[derive(Clone, Copy, Debug, PartialEq, Eq)]
pub enum CommentState {
    BogusComment,
    MarkupDeclarationOpen,
    CommentStart,
    CommentStartDash,
    Comment,
    CommentLessThanSign,
    CommentLessThanSignBang,
    CommentLessThanSignBangDash,
    CommentLessThanSignBangDashDash,
    CommentEndDash,
    CommentEnd,
    CommentEndBang,
}

/// The states of doctypes: 53 to 68.
#[derive(Clone, Copy, Debug, PartialEq, Eq)]
pub enum DoctypeState {
    BeginDoctype,
    BeforeDoctypeName,
    DoctypeName,
    AfterDoctypeName,
    AfterDoctypeKeyword(Identifier),
    BeforeDoctypeIdentifier(Identifier),
    DoctypeIdentifier(Identifier, Quote),
    AfterDoctypePublicIdentifier,
    BetweenDoctypeIdentifiers,
    AfterDoctypeSystemIdentifier,
    BogusDoctype,
}

/// The states of character references: 72 to 80.
#[derive(Clone, Copy, Debug, PartialEq, Eq)]
pub enum ReferenceState {
    CharacterReference,
    NamedCharacterReference,
    AmbiguousAmpersand,
    NumericCharacterReference,
    HexadecimalStart,
    DecimalStart,
    Hexadecimal,
    Decimal,
    NumericCharacterReferenceEnd,
}

/// A state, by its chapter.
#[derive(Clone, Copy, Debug, PartialEq, Eq)]
pub enum MachineState {
    Text(TextState),
    Tag(TagState),
    Comment(CommentState),
    Doctype(DoctypeState),
    Reference(ReferenceState, ReturnTo),
}

/// Returns the state of such a text.
pub fn text(kind: TextKind) -> MachineState
    ensures { result ≡ MachineState.Text (TextState.Text kind) }
{
    MachineState::Text(TextState::Text(kind))
}

/// The data state.
pub const DATA: MachineState = MachineState::Text(TextState::Text(TextKind::Data));

/// Returns the state of the text that is read if no end tag ends it.
pub fn text_of(kind: RawTextKind) -> MachineState
    ensures { (parts : Parts) → state_of result parts ≡ text_of kind }
{
    match kind {
        RawTextKind::Rcdata => text(TextKind::Rcdata),
        RawTextKind::Rawtext => text(TextKind::Rawtext),
        RawTextKind::ScriptData => text(TextKind::ScriptData),
        RawTextKind::EscapedScriptData => MachineState::Text(TextState::ScriptDataEscaped(
            Escape::Escaped,
        )),
    }
}

/// Returns the return state of a character reference.
pub fn returned(return_to: ReturnTo) -> MachineState
    ensures { (parts : Parts) → state_of result parts ≡ returned (return_of return_to parts.tag) }
{
    match return_to {
        ReturnTo::Data => DATA,
        ReturnTo::Rcdata => text(TextKind::Rcdata),
        ReturnTo::Value(value) => MachineState::Tag(TagState::AttributeValue(value)),
    }
}
