//! The errors of the rows of tags (HTML standard, sections 13.2.5.6 to 13.2.5.8 and 13.2.5.32 to 13.2.5.40).

ghost use Rattle.std.specs.Prelude.{◌≡◌, ◌++◌, ℕ, List};
ghost use Rattle.h5_tokenizer_spec.specs.Machine.{turn};
ghost use Rattle.h5_tokenizer_spec.specs.References.{Reference};
ghost use Rattle.h5_tokenizer_spec.specs.Tags as g;
ghost use Rattle.h5_tokenizer_spec.specs.Told.{if_any};
ghost use Rattle.h5_tokenizer_spec.specs.Turn.{hand_tag};
ghost use Rattle.h5_tokenizer_states.specs.RowErrors.{all_of};
ghost use Rattle.h5_tokenizer_states.specs.StateOf.{tag_state_of, value_of};

use super::machine_state::{TagState, ValueKind};
use super::row_errors::{NO_ERRORS, RowErrors, null_error, only_both, only_if};
use super::signs::{is_blank, is_name_end, is_quote, sign_of};
use super::tag::OpenTag;
use h5_tokenizer_spec::{ParseError, Quote};

// Returns this error, if there is one, followed by those of a tag that is emitted: of an end tag with attributes or a '/'.
fn handed_with(first: Option<ParseError>, tag: &OpenTag, closes_itself: bool) -> RowErrors
    ensures { all_of result ≡ if_any first ++ (hand_tag (record tag.now { self_closing = closes_itself })).errors }
{
    let is_end = tag.is_end();
    let has_attributes = tag.has_attributes();
    let second = only_both(is_end, has_attributes, ParseError::EndTagWithAttributes);
    let third = only_both(is_end, closes_itself, ParseError::EndTagWithTrailingSolidus);
    RowErrors {
        first,
        second,
        third,
    }
}

// Returns the errors of a tag that is emitted.
fn handed(tag: &OpenTag) -> RowErrors
    ensures { all_of result ≡ (hand_tag tag.now).errors }
{
    let closes_itself = tag.closes_itself();
    handed_with(None, tag, closes_itself)
}

// 13.2.5.6 Tag open state
fn tag_open_error(b: u8) -> Option<ParseError>
    ensures { if_any result ≡ (g.tag_open_state b).errors }
{
    match b {
        b'!' => None,
        b'/' => None,
        b'?' => Some(ParseError::UnexpectedQuestionMarkInsteadOfTagName),
        _ => {
            if b.is_ascii_alphabetic() {
                return None;
            }
            Some(ParseError::InvalidFirstCharacterOfTagName)
        }
    }
}

// 13.2.5.7 End tag open state
fn end_tag_open_error(b: u8) -> Option<ParseError>
    ensures { if_any result ≡ (g.end_tag_open_state b).errors }
{
    if b.is_ascii_alphabetic() {
        return None;
    }
    if b == b'>' {
        return Some(ParseError::MissingEndTagName);
    }
    Some(ParseError::InvalidFirstCharacterOfTagName)
}

// 13.2.5.8 Tag name state
fn tag_name_errors(tag: &OpenTag, b: u8) -> RowErrors
    ensures { all_of result ≡ (g.tag_name_state tag.now b).errors }
{
    if is_blank(b) {
        return NO_ERRORS;
    }
    match b {
        b'/' => NO_ERRORS,
        b'>' => handed(tag),
        _ => RowErrors::one(null_error(b)),
    }
}

// 13.2.5.32 Before attribute name state
fn before_attribute_name_error(tag: &OpenTag, b: u8) -> Option<ParseError>
    ensures { if_any result ≡ (g.before_attribute_name_state tag.now b).errors }
{
    if b == b'=' {
        return Some(ParseError::UnexpectedEqualsSignBeforeAttributeName);
    }
    None
}

fn is_odd_in_name(b: u8) -> bool
    ensures { result ≡ g.is_odd_in_name b }
{
    is_quote(b) || b == b'<'
}

// 13.2.5.33 Attribute name state
fn attribute_name_error(tag: &OpenTag, b: u8) -> Option<ParseError>
    ensures { if_any result ≡ (g.attribute_name_state tag.now b).errors }
{
    if is_name_end(b) {
        return only_if(tag.is_repeated(), ParseError::DuplicateAttribute);
    }
    match b {
        b'=' => only_if(tag.is_repeated(), ParseError::DuplicateAttribute),
        0 => Some(ParseError::UnexpectedNullCharacter),
        _ => only_if(
            is_odd_in_name(b),
            ParseError::UnexpectedCharacterInAttributeName,
        ),
    }
}

// 13.2.5.34 After attribute name state
fn after_attribute_name_errors(tag: &OpenTag, b: u8) -> RowErrors
    ensures { all_of result ≡ (g.after_attribute_name_state tag.now b).errors }
{
    if is_blank(b) {
        return NO_ERRORS;
    }
    match b {
        b'/' => NO_ERRORS,
        b'=' => NO_ERRORS,
        b'>' => handed(tag),
        _ => NO_ERRORS,
    }
}

// 13.2.5.35 Before attribute value state
fn before_attribute_value_errors(tag: &OpenTag, b: u8) -> RowErrors
    ensures { all_of result ≡ (g.before_attribute_value_state tag.now b).errors }
{
    if is_blank(b) {
        return NO_ERRORS;
    }
    match b {
        b'"' => NO_ERRORS,
        b'\'' => NO_ERRORS,
        b'>' => {
            let closes_itself = tag.closes_itself();
            handed_with(Some(ParseError::MissingAttributeValue), tag, closes_itself)
        }
        _ => NO_ERRORS,
    }
}

// 13.2.5.36, 37: Attribute value (double-quoted) and (single-quoted) state
fn attribute_value_quoted_error(quote: Quote, tag: &OpenTag, b: u8) -> Option<ParseError>
    ensures { if_any result ≡ (g.attribute_value_quoted_state quote tag.now b).errors }
{
    if b == sign_of(quote) {
        return None;
    }
    match b {
        b'&' => None,
        _ => null_error(b),
    }
}

fn is_odd_in_value(b: u8) -> bool
    ensures { result ≡ g.is_odd_in_value b }
{
    is_quote(b) || b == b'<' || b == b'=' || b == b'`'
}

// 13.2.5.38 Attribute value (unquoted) state
fn attribute_value_unquoted_errors(tag: &OpenTag, b: u8) -> RowErrors
    ensures { all_of result ≡ (g.attribute_value_unquoted_state tag.now b).errors }
{
    if is_blank(b) {
        return NO_ERRORS;
    }
    match b {
        b'&' => NO_ERRORS,
        b'>' => handed(tag),
        0 => RowErrors::one(Some(ParseError::UnexpectedNullCharacter)),
        _ => RowErrors::one(only_if(
            is_odd_in_value(b),
            ParseError::UnexpectedCharacterInUnquotedAttributeValue,
        )),
    }
}

fn attribute_value_errors(kind: ValueKind, tag: &OpenTag, b: u8) -> RowErrors
    ensures { all_of result ≡ (g.attribute_value_state (value_of kind) tag.now b).errors }
{
    match kind {
        ValueKind::Quoted(quote) => RowErrors::one(attribute_value_quoted_error(quote, tag, b)),
        ValueKind::Unquoted => attribute_value_unquoted_errors(tag, b),
    }
}

// 13.2.5.39 After attribute value (quoted) state
fn after_attribute_value_quoted_errors(tag: &OpenTag, b: u8) -> RowErrors
    ensures { all_of result ≡ (g.after_attribute_value_quoted_state tag.now b).errors }
{
    if is_blank(b) {
        return NO_ERRORS;
    }
    match b {
        b'/' => NO_ERRORS,
        b'>' => handed(tag),
        _ => RowErrors::one(Some(ParseError::MissingWhitespaceBetweenAttributes)),
    }
}

// 13.2.5.40 Self-closing start tag state
fn self_closing_start_tag_errors(tag: &OpenTag, b: u8) -> RowErrors
    ensures { all_of result ≡ (g.self_closing_start_tag_state tag.now b).errors }
{
    if b == b'>' {
        return handed_with(None, tag, true);
    }
    RowErrors::one(Some(ParseError::UnexpectedSolidusInTag))
}

/// The errors of a row of tags.
pub fn tag_errors(state: TagState, tag: &OpenTag, b: u8) -> RowErrors
    ensures { (table : List Reference) (last : List ℕ) → all_of result ≡ (turn table last (tag_state_of state tag.now) b).errors }
{
    match state {
        TagState::TagOpen => RowErrors::one(tag_open_error(b)),
        TagState::EndTagOpen => RowErrors::one(end_tag_open_error(b)),
        TagState::TagName => tag_name_errors(tag, b),
        TagState::BeforeAttributeName => RowErrors::one(before_attribute_name_error(tag, b)),
        TagState::AttributeName => RowErrors::one(attribute_name_error(tag, b)),
        TagState::AfterAttributeName => after_attribute_name_errors(tag, b),
        TagState::BeforeAttributeValue => before_attribute_value_errors(tag, b),
        TagState::AttributeValue(kind) => attribute_value_errors(kind, tag, b),
        TagState::AfterAttributeValueQuoted => after_attribute_value_quoted_errors(tag, b),
        TagState::SelfClosingStartTag => self_closing_start_tag_errors(tag, b),
    }
}
