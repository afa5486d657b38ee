//! The rows of tags (HTML standard, sections 13.2.5.6 to 13.2.5.8 and 13.2.5.32 to 13.2.5.40).

ghost use Rattle.std.specs.Prelude.{◌≡◌, ◌<◌, true, IfOk, ℕ, List, string_bytes};
ghost use Rattle.h5_tokenizer_spec.specs.Machine.{turn};
ghost use Rattle.h5_tokenizer_spec.specs.References.{Reference};
ghost use Rattle.h5_tokenizer_spec.specs.Tags as g;
ghost use Rattle.h5_tokenizer_states.specs.OutcomeOf.{Does, DoesTag, DoesTagOrComment};
ghost use Rattle.h5_tokenizer_states.specs.Parts.{Parts};
ghost use Rattle.h5_tokenizer_states.specs.StateOf.{tag_state_of, value_of};
ghost use Rattle.h5_tokenizer_states.specs.Wide.{tag_takes_wide};
ghost use Rattle.h5_tokenizer_spec.specs.Turn.{hand_tag};

use super::machine_state::{
    CommentState, DATA, MachineState, ReferenceState, ReturnTo, TagState, ValueKind,
};
use super::signs::{REPLACEMENT, is_blank, is_name_end, sign_of};
use super::tag::OpenTag;
use super::transition::{CurrentToken, Transition};
use h5_token::TagKind;
use h5_tokenizer_spec::{Quote, TextKind};
use std::alloc::AllocError;

// Emits the current tag token.
fn hand_tag(tag: &mut OpenTag) -> Result<Transition, AllocError>
    ensures { IfOk result (λ transition. DoesTag transition tag.new (hand_tag tag.old)) }
{
    tag.complete()?;
    Ok(Transition::Emitted(CurrentToken::Tag, TextKind::Data))
}

// 13.2.5.6 Tag open state
fn tag_open(
    tag: &mut OpenTag,
    comment: &mut String,
    out: &mut String,
    b: u8,
) -> Result<Transition, AllocError>
    ensures { IfOk result (λ transition. (parts : Parts) → Does transition (string_bytes out.old) (string_bytes out.new)
        (record parts { tag = tag.new; comment = string_bytes comment.new }) (g.tag_open_state b)) }
{
    match b {
        b'!' => {
            comment.clear();
            Ok(Transition::Consumed(MachineState::Comment(CommentState::MarkupDeclarationOpen)))
        }
        b'/' => Ok(Transition::Consumed(MachineState::Tag(TagState::EndTagOpen))),
        b'?' => {
            comment.clear();
            Ok(Transition::Reconsumed(MachineState::Comment(CommentState::BogusComment)))
        }
        _ => {
            if b.is_ascii_alphabetic() {
                tag.begin(TagKind::StartTag);
                return Ok(Transition::Reconsumed(MachineState::Tag(TagState::TagName)));
            }
            out.push_str("<")?;
            Ok(Transition::Reconsumed(DATA))
        }
    }
}

// 13.2.5.7 End tag open state
fn end_tag_open(tag: &mut OpenTag, comment: &mut String, b: u8) -> Transition
    ensures { DoesTagOrComment result tag.new (string_bytes comment.new) (g.end_tag_open_state b) }
{
    if b.is_ascii_alphabetic() {
        tag.begin(TagKind::EndTag);
        return Transition::Reconsumed(MachineState::Tag(TagState::TagName));
    }
    if b == b'>' {
        return Transition::Consumed(DATA);
    }
    comment.clear();
    Transition::Reconsumed(MachineState::Comment(CommentState::BogusComment))
}

// 13.2.5.8 Tag name state
fn tag_name(tag: &mut OpenTag, b: u8) -> Result<Transition, AllocError>
    requires { b < 128 }
    ensures { IfOk result (λ transition. DoesTag transition tag.new (g.tag_name_state tag.old b)) }
{
    if is_blank(b) {
        return Ok(Transition::Consumed(MachineState::Tag(TagState::BeforeAttributeName)));
    }
    match b {
        b'/' => Ok(Transition::Consumed(MachineState::Tag(TagState::SelfClosingStartTag))),
        b'>' => hand_tag(tag),
        0 => {
            tag.push_name(REPLACEMENT)?;
            Ok(Transition::Consumed(MachineState::Tag(TagState::TagName)))
        }
        _ => {
            tag.push_name_byte(b)?;
            Ok(Transition::Consumed(MachineState::Tag(TagState::TagName)))
        }
    }
}

// 13.2.5.32 Before attribute name state
fn before_attribute_name(tag: &mut OpenTag, b: u8) -> Result<Transition, AllocError>
    ensures { IfOk result (λ transition. DoesTag transition tag.new (g.before_attribute_name_state tag.old b)) }
{
    if is_blank(b) {
        return Ok(Transition::Consumed(MachineState::Tag(TagState::BeforeAttributeName)));
    }
    match b {
        b'/' => Ok(Transition::Reconsumed(MachineState::Tag(TagState::AfterAttributeName))),
        b'>' => Ok(Transition::Reconsumed(MachineState::Tag(TagState::AfterAttributeName))),
        b'=' => {
            tag.begin_attribute()?;
            tag.push_attribute_byte(b)?;
            Ok(Transition::Consumed(MachineState::Tag(TagState::AttributeName)))
        }
        _ => {
            tag.begin_attribute()?;
            Ok(Transition::Reconsumed(MachineState::Tag(TagState::AttributeName)))
        }
    }
}

// 13.2.5.33 Attribute name state: on leaving it, a name that the tag already has is an error
fn attribute_name(tag: &mut OpenTag, b: u8) -> Result<Transition, AllocError>
    requires { b < 128 }
    ensures { IfOk result (λ transition. DoesTag transition tag.new (g.attribute_name_state tag.old b)) }
{
    if is_name_end(b) {
        return Ok(Transition::Reconsumed(MachineState::Tag(TagState::AfterAttributeName)));
    }
    if b == b'=' {
        return Ok(Transition::Consumed(MachineState::Tag(TagState::BeforeAttributeValue)));
    }
    if b == 0 {
        tag.push_attribute(REPLACEMENT)?;
    } else {
        tag.push_attribute_byte(b)?;
    }
    Ok(Transition::Consumed(MachineState::Tag(TagState::AttributeName)))
}

// 13.2.5.34 After attribute name state
fn after_attribute_name(tag: &mut OpenTag, b: u8) -> Result<Transition, AllocError>
    ensures { IfOk result (λ transition. DoesTag transition tag.new (g.after_attribute_name_state tag.old b)) }
{
    if is_blank(b) {
        return Ok(Transition::Consumed(MachineState::Tag(TagState::AfterAttributeName)));
    }
    match b {
        b'/' => Ok(Transition::Consumed(MachineState::Tag(TagState::SelfClosingStartTag))),
        b'=' => Ok(Transition::Consumed(MachineState::Tag(TagState::BeforeAttributeValue))),
        b'>' => hand_tag(tag),
        _ => {
            tag.begin_attribute()?;
            Ok(Transition::Reconsumed(MachineState::Tag(TagState::AttributeName)))
        }
    }
}

fn value(kind: ValueKind) -> MachineState
    ensures { result ≡ MachineState.Tag (TagState.AttributeValue kind) }
{
    MachineState::Tag(TagState::AttributeValue(kind))
}

// 13.2.5.35 Before attribute value state
fn before_attribute_value(tag: &mut OpenTag, b: u8) -> Result<Transition, AllocError>
    ensures { IfOk result (λ transition. DoesTag transition tag.new (g.before_attribute_value_state tag.old b)) }
{
    if is_blank(b) {
        return Ok(Transition::Consumed(MachineState::Tag(TagState::BeforeAttributeValue)));
    }
    match b {
        b'"' => Ok(Transition::Consumed(value(ValueKind::Quoted(Quote::Double)))),
        b'\'' => Ok(Transition::Consumed(value(ValueKind::Quoted(Quote::Single)))),
        b'>' => hand_tag(tag),
        _ => Ok(Transition::Reconsumed(value(ValueKind::Unquoted))),
    }
}

// 13.2.5.36, 37: Attribute value (double-quoted) and (single-quoted) state
fn attribute_value_quoted(quote: Quote, tag: &mut OpenTag, b: u8) -> Result<Transition, AllocError>
    requires { b < 128 }
    ensures { IfOk result (λ transition. DoesTag transition tag.new (g.attribute_value_quoted_state quote tag.old b)) }
{
    let kind = ValueKind::Quoted(quote);
    if b == sign_of(quote) {
        return Ok(Transition::Consumed(MachineState::Tag(TagState::AfterAttributeValueQuoted)));
    }
    match b {
        b'&' => Ok(Transition::Consumed(MachineState::Reference(
            ReferenceState::CharacterReference,
            ReturnTo::Value(kind),
        ))),
        0 => {
            tag.push_value(REPLACEMENT)?;
            Ok(Transition::Consumed(value(kind)))
        }
        _ => {
            tag.push_value_byte(b)?;
            Ok(Transition::Consumed(value(kind)))
        }
    }
}

// 13.2.5.38 Attribute value (unquoted) state
fn attribute_value_unquoted(tag: &mut OpenTag, b: u8) -> Result<Transition, AllocError>
    requires { b < 128 }
    ensures { IfOk result (λ transition. DoesTag transition tag.new (g.attribute_value_unquoted_state tag.old b)) }
{
    if is_blank(b) {
        return Ok(Transition::Consumed(MachineState::Tag(TagState::BeforeAttributeName)));
    }
    match b {
        b'&' => Ok(Transition::Consumed(MachineState::Reference(
            ReferenceState::CharacterReference,
            ReturnTo::Value(ValueKind::Unquoted),
        ))),
        b'>' => hand_tag(tag),
        0 => {
            tag.push_value(REPLACEMENT)?;
            Ok(Transition::Consumed(value(ValueKind::Unquoted)))
        }
        _ => {
            tag.push_value_byte(b)?;
            Ok(Transition::Consumed(value(ValueKind::Unquoted)))
        }
    }
}

fn attribute_value(kind: ValueKind, tag: &mut OpenTag, b: u8) -> Result<Transition, AllocError>
    requires { b < 128 }
    ensures { IfOk result (λ transition. DoesTag transition tag.new (g.attribute_value_state (value_of kind) tag.old b)) }
{
    match kind {
        ValueKind::Quoted(quote) => attribute_value_quoted(quote, tag, b),
        ValueKind::Unquoted => attribute_value_unquoted(tag, b),
    }
}

// 13.2.5.39 After attribute value (quoted) state
fn after_attribute_value_quoted(tag: &mut OpenTag, b: u8) -> Result<Transition, AllocError>
    ensures { IfOk result (λ transition. DoesTag transition tag.new (g.after_attribute_value_quoted_state tag.old b)) }
{
    if is_blank(b) {
        return Ok(Transition::Consumed(MachineState::Tag(TagState::BeforeAttributeName)));
    }
    match b {
        b'/' => Ok(Transition::Consumed(MachineState::Tag(TagState::SelfClosingStartTag))),
        b'>' => hand_tag(tag),
        _ => Ok(Transition::Reconsumed(MachineState::Tag(TagState::BeforeAttributeName))),
    }
}

// 13.2.5.40 Self-closing start tag state
fn self_closing_start_tag(tag: &mut OpenTag, b: u8) -> Result<Transition, AllocError>
    ensures { IfOk result (λ transition. DoesTag transition tag.new (g.self_closing_start_tag_state tag.old b)) }
{
    if b == b'>' {
        tag.close_itself();
        return hand_tag(tag);
    }
    Ok(Transition::Reconsumed(MachineState::Tag(TagState::BeforeAttributeName)))
}

/// The row of a tag state. Appends the text that it emits to `out`.
pub fn tag_turn(
    state: TagState,
    tag: &mut OpenTag,
    comment: &mut String,
    out: &mut String,
    b: u8,
) -> Result<Transition, AllocError>
    requires { tag_takes_wide state ≡ true → b < 128 }
    ensures { (table : List Reference) (last : List ℕ) → IfOk result (λ transition. (parts : Parts) → Does transition (string_bytes out.old) (string_bytes out.new)
        (record parts { tag = tag.new; comment = string_bytes comment.new }) (turn table last (tag_state_of state tag.old) b)) }
{
    match state {
        TagState::TagOpen => tag_open(tag, comment, out, b),
        TagState::EndTagOpen => Ok(end_tag_open(tag, comment, b)),
        TagState::TagName => tag_name(tag, b),
        TagState::BeforeAttributeName => before_attribute_name(tag, b),
        TagState::AttributeName => attribute_name(tag, b),
        TagState::AfterAttributeName => after_attribute_name(tag, b),
        TagState::BeforeAttributeValue => before_attribute_value(tag, b),
        TagState::AttributeValue(kind) => attribute_value(kind, tag, b),
        TagState::AfterAttributeValueQuoted => after_attribute_value_quoted(tag, b),
        TagState::SelfClosingStartTag => self_closing_start_tag(tag, b),
    }
}
