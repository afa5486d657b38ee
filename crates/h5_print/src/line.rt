//! Parses one line.
ghost use Rattle.std.specs.Prelude.{◌≡◌, IfOk, option_and_then};
ghost use Rattle.std.specs.Option.{option_map};
ghost use Rattle.std.specs.String.{string_bytes};
ghost use Rattle.h5_token.specs.declared.tag.TagKind.{TagKind};
ghost use Rattle.h5_print.specs.Lines as l;

use super::escapes::read_escapes;
use super::words::{Word, cut_word, word_of};
use h5_names::{Attribute, LocalName, Namespace, QualName, namespaces};
use h5_token::{Doctype, Tag, TagKind, Token};
use std::alloc::{AllocError, Global};

/// A part of the doctype or the tag above.
#[derive(Debug, Drop, PartialEq, Eq)]
pub enum Part {
    PublicId(String),
    SystemId(String),
    ForceQuirks,
    Attribute(Attribute),
    SelfClosing,
}

/// The meaning of a line.
#[derive(Debug, Drop, PartialEq, Eq)]
pub enum Line {
    /// An empty line.
    Blank,
    Token(Token),
    /// A part of the token above.
    Part(Part),
    /// The call of `end`.
    End,
}

// A name isn't empty, and contains no space.
fn is_name(text: &str) -> bool
    ensures { result ≡ l.is_name text.now }
{
    !text.is_empty() && !text.as_bytes().contains(&b' ')
}

// The text of an operand without its escapes; a missing operand is the empty text.
fn read_text(alloc: Global, operand: Option<&str>) -> Result<Option<String>, AllocError>
    ensures { IfOk result (λ read. option_map string_bytes read ≡ l.text_in
        (option_map (λ text. text.now) operand.entry)) }
{
    match operand {
        Some(text) => read_escapes(alloc, text),
        None => Ok(Some(String::new(alloc))),
    }
}

fn doctype_named(name: Option<String>) -> Line
    ensures { l.line_text result ≡ l.doctype_named (option_map string_bytes name) }
{
    Line::Token(Token::DoctypeToken(Doctype {
        name,
        public_id: None,
        system_id: None,
        force_quirks: false,
    }))
}

fn read_doctype(alloc: Global, operand: Option<&str>) -> Result<Option<Line>, AllocError>
    ensures { IfOk result (λ read. option_map l.line_text read ≡ l.doctype_in
        (option_map (λ text. text.now) operand.entry)) }
{
    match operand {
        None => Ok(Some(doctype_named(None))),
        Some(name) => {
            if is_name(name) {
                Ok(Some(doctype_named(Some(String::from_str(alloc, name)?))))
            } else {
                Ok(None)
            }
        }
    }
}

fn read_tag(alloc: Global, kind: TagKind, operand: Option<&str>) -> Result<Option<Line>, AllocError>
    ensures { IfOk result (λ read. option_map l.line_text read ≡ l.tag_in kind
        (option_map (λ text. text.now) operand.entry)) }
{
    match operand {
        None => Ok(None),
        Some(name) => {
            if is_name(name) {
                Ok(Some(Line::Token(Token::TagToken(Tag {
                    kind,
                    name: LocalName::new(alloc, name)?,
                    self_closing: false,
                    attrs: Vec::new(alloc),
                    had_duplicate_attributes: false,
                }))))
            } else {
                Ok(None)
            }
        }
    }
}

// An attribute without a prefix and a namespace.
fn make_attribute(alloc: Global, name: &str, value: String) -> Result<Line, AllocError>
    ensures { IfOk result (λ line. l.line_text line ≡ l.attribute_named name.now (string_bytes value)) }
{
    Ok(Line::Part(Part::Attribute(Attribute {
        name: QualName::new(
            None,
            Namespace::new(alloc, namespaces::NONE)?,
            LocalName::new(alloc, name)?,
        ),
        value,
    })))
}

fn read_attribute(alloc: Global, operand: &str) -> Result<Option<Line>, AllocError>
    ensures { IfOk result (λ read. option_map l.line_text read ≡ l.attribute_in (Some operand.now)) }
{
    let (name, value) = cut_word(operand);
    if !is_name(name) {
        return Ok(None);
    }
    match read_text(alloc, value)? {
        Some(value) => Ok(Some(make_attribute(alloc, name, value)?)),
        None => Ok(None),
    }
}

// A line that has only its word.
fn alone(line: Line, operand: Option<&str>) -> Option<Line>
    ensures { option_map l.line_text result ≡ l.alone (l.line_text line)
        (option_map (λ text. text.now) operand.entry) }
{
    match operand {
        None => Some(line),
        Some(_) => None,
    }
}

fn line_with(alloc: Global, word: Word, operand: Option<&str>) -> Result<Option<Line>, AllocError>
    ensures { IfOk result (λ read. option_map l.line_text read ≡ l.line_with word
        (option_map (λ text. text.now) operand.entry)) }
{
    match word {
        Word::Doctype => read_doctype(alloc, operand),
        Word::PublicId => Ok(read_text(alloc, operand)?.map(|id| Line::Part(Part::PublicId(id)))),
        Word::SystemId => Ok(read_text(alloc, operand)?.map(|id| Line::Part(Part::SystemId(id)))),
        Word::ForceQuirks => Ok(alone(Line::Part(Part::ForceQuirks), operand)),
        Word::StartTag => read_tag(alloc, TagKind::StartTag, operand),
        Word::EndTag => read_tag(alloc, TagKind::EndTag, operand),
        Word::Attribute => match operand {
            Some(text) => read_attribute(alloc, text),
            None => Ok(None),
        },
        Word::SelfClosing => Ok(alone(Line::Part(Part::SelfClosing), operand)),
        Word::Text => Ok(read_text(alloc, operand)?.map(|text| Line::Token(Token::CharacterTokens(
            text,
        )))),
        Word::Comment => Ok(read_text(alloc, operand)?.map(|text| Line::Token(Token::CommentToken(
            text,
        )))),
        Word::Null => Ok(alone(Line::Token(Token::NullCharacterToken), operand)),
        Word::ParseError => Ok(read_text(alloc, operand)?.map(|text| Line::Token(Token::ParseError(
            text,
        )))),
        Word::EndOfFile => Ok(alone(Line::Token(Token::EOFToken), operand)),
        Word::End => Ok(alone(Line::End, operand)),
    }
}

/// Parses a line without its LF. Returns `None` if it is invalid itself: if its word is not one of the fourteen, if a name is empty or
/// contains a space, if a text has an unknown escape, or if a space follows a word that has no operand. Fails with `AllocError` if an
/// allocation fails.
pub fn parse_line(alloc: Global, line: &str) -> Result<Option<Line>, AllocError>
    ensures { IfOk result (λ read. option_map l.line_text read ≡ l.line_of line.now) }
{
    if line.is_empty() {
        return Ok(Some(Line::Blank));
    }
    let (word, operand) = cut_word(line);
    match word_of(word) {
        Some(word) => line_with(alloc, word, operand),
        None => Ok(None),
    }
}
