//! The attributes of a tag, as the prescan reads them.
ghost use Rattle.std.specs.Prelude.{◌≡◌};
ghost use Rattle.h5_encodings.specs.Attributes.{attribute, attribute_at, behind_name, got_of, name_of, quoted, unquoted, value_at};
ghost use Rattle.h5_markup.specs.Cuts.{before, from};
ghost use Rattle.h5_encodings.specs.Cuts.{is_in};

use super::cut::{Class, cut_at, skip};
use super::label::is_same_word;

/// The attribute names that matter to the prescan.
#[derive(Clone, Copy, Debug, PartialEq, Eq)]
pub enum Name {
    HttpEquiv,
    Content,
    Charset,
    Other,
}

/// The result of reading an attribute.
#[derive(Clone, Copy)]
pub enum Got<'a> {
    /// The bytes end first.
    Cut,
    /// There are no more attributes. These bytes begin with the `>`.
    NoMore(&'a [u8]),
    /// An attribute, its value, and the bytes that follow it.
    Attribute(Name, &'a [u8], &'a [u8]),
}

fn name_of(text: &[u8]) -> Name
    ensures { result ≡ name_of text.now }
{
    if is_same_word(text, b"http-equiv") {
        Name::HttpEquiv
    } else if is_same_word(text, b"content") {
        Name::Content
    } else if is_same_word(text, b"charset") {
        Name::Charset
    } else {
        Name::Other
    }
}

// Reads a value up to its closing quote, and skips the quote.
fn quoted(name: Name, text: &[u8], quote: u8) -> Got<'_>
    ensures { got_of result ≡ quoted name (before (is_in (Class.Byte quote)) text.now) (from (is_in (Class.Byte quote)) text.now) }
{
    let (value, rest) = cut_at(text, Class::Byte(quote));
    match rest.split_first() {
        Some((_, behind)) => Got::Attribute(name, value, behind),
        None => Got::Cut,
    }
}

// Reads a value up to ASCII whitespace or `>`, which remains.
fn unquoted(name: Name, text: &[u8]) -> Got<'_>
    ensures { got_of result ≡ unquoted name (before (is_in Class.ValueEnd) text.now) (from (is_in Class.ValueEnd) text.now) }
{
    let (value, rest) = cut_at(text, Class::ValueEnd);
    match rest.split_first() {
        Some(_) => Got::Attribute(name, value, rest),
        None => Got::Cut,
    }
}

// Reads what follows `=` and whitespace.
fn value_at(name: Name, text: &[u8]) -> Got<'_>
    ensures { got_of result ≡ value_at name text.now }
{
    match text.split_first() {
        Some((first, rest)) => {
            if *first == b'"' || *first == b'\'' {
                quoted(name, rest, *first)
            } else {
                unquoted(name, text)
            }
        }
        None => Got::Cut,
    }
}

// Reads what follows a name and whitespace.
fn behind_name(name: Name, text: &[u8]) -> Got<'_>
    ensures { got_of result ≡ behind_name name text.now }
{
    match text.split_first() {
        Some((first, rest)) => {
            if *first == b'=' {
                value_at(name, skip(rest, Class::Blank))
            } else {
                Got::Attribute(name, &[], text)
            }
        }
        None => Got::Cut,
    }
}

// Reads an attribute, or the `>`. The text doesn't begin with whitespace or `/`.
fn attribute_at(text: &[u8]) -> Got<'_>
    ensures { got_of result ≡ attribute_at text.now }
{
    match text.split_first() {
        Some((first, rest)) => {
            if *first == b'>' {
                Got::NoMore(text)
            } else if *first == b'=' {
                let (_, behind) = cut_at(rest, Class::NameEnd);
                behind_name(Name::Other, skip(behind, Class::Blank))
            } else {
                let (name, behind) = cut_at(text, Class::NameEnd);
                behind_name(name_of(name), skip(behind, Class::Blank))
            }
        }
        None => Got::Cut,
    }
}

/// Reads the next attribute of a tag (HTML standard, section 13.2.3.2, "get an attribute").
#[tactic(auto, unfolding(crate::specs::Attributes::attribute))]
pub fn attribute(text: &[u8]) -> Got<'_>
    ensures { got_of result ≡ attribute text.now }
{
    attribute_at(skip(text, Class::BetweenAttributes))
}
