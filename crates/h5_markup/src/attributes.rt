//! The attributes of a tag.
ghost use Rattle.std.specs.Prelude.{◌≡◌, ◌<◌, IfOk, [], false, drop, length};
ghost use Rattle.h5_names.specs.AttributeText.{attribute_texts};
ghost use Rattle.h5_markup.specs.Cuts.{is_in, from};
ghost use Rattle.h5_markup.specs.Attributes as a;
ghost use Rattle.h5_markup.specs.Writing.{written, WrittenAt};
ghost use Rattle.h5_markup.specs.Text as t;

use super::cut::{Class, cut_at, cut_name, cut_past, skip};
use super::keeping::Keeping;
use super::matches::Match;
use super::needle::literal;
use super::shared_names::SharedNames;
use h5_names::Attribute;
use std::alloc::{AllocError, Global};

/// An attribute as it is written, and the text after it.
#[derive(Drop)]
pub struct Written<'a> {
    pub name: &'a str,
    pub value: &'a str,
    pub rest: &'a str,
}

fn cut_unquoted<'a>(name: &'a str, text: &'a str) -> Written<'a>
    ensures { written result ≡ a.value_to Class.ValueEnd name.entry.now text.entry.now (from (is_in Class.ValueEnd) text.entry.now) }
{
    let (value, rest) = cut_at(text, Class::ValueEnd);
    Written { name, value, rest }
}

fn cut_quoted<'a>(name: &'a str, text: &'a str, class: Class) -> Written<'a>
    ensures { written result ≡ a.value_to class name.entry.now text.entry.now (drop 1 (from (is_in class) text.entry.now)) }
{
    let (value, rest) = cut_past(text, class);
    Written { name, value, rest }
}

// The value after a `=` and whitespace.
fn cut_value<'a>(name: &'a str, text: &'a str) -> Written<'a>
    ensures { written result ≡ a.valued name.entry.now text.entry.now }
{
    match literal(text, "\"") {
        Match::Found(_, inner) => cut_quoted(name, inner, Class::DoubleQuote),
        Match::Open => cut_unquoted(name, text),
        Match::No => match literal(text, "'") {
            Match::Found(_, inner) => cut_quoted(name, inner, Class::SingleQuote),
            Match::Open => cut_unquoted(name, text),
            Match::No => cut_unquoted(name, text),
        },
    }
}

// The part after a name and whitespace.
fn cut_rest<'a>(name: &'a str, text: &'a str) -> Written<'a>
    ensures { written result ≡ a.with_value name.entry.now text.entry.now }
{
    match literal(text, "=") {
        Match::Found(_, inner) => cut_value(name, skip(inner, Class::Blank)),
        Match::Open => Written {
            name,
            value: "",
            rest: text,
        },
        Match::No => Written {
            name,
            value: "",
            rest: text,
        },
    }
}

// The first attribute of a text.
fn cut_attribute<'a>(text: &'a str) -> Written<'a>
    requires { 0 < length text.now }
    ensures { WrittenAt text.now (written result) }
{
    let (name, behind) = cut_name(text, Class::AttributeNameEnd);
    match behind.as_bytes() {
        // The common form; it needs no other tests.
        [b'=', b'"', ..] => {
            let (_, inner) = behind.split_at(2);
            cut_quoted(name, inner, Class::DoubleQuote)
        }
        _ => cut_rest(name, skip(behind, Class::Blank)),
    }
}

/// The attributes of a tag, each name once, and whether a duplicate was dropped.
#[derive(Drop)]
pub struct Kept {
    pub attributes: Vec<Attribute>,
    pub duplicates: bool,
}

// The greatest number of attributes to reserve memory for in advance.
const MOST: usize = 8;

// Estimates the number of attributes: the number of `=` in the first bytes. Few bytes count as one attribute and aren't read.
fn likely_count(bytes: &[u8]) -> usize {
    if bytes.len() < 16 {
        return 1;
    }
    let front = &bytes[..bytes.len().min(255)];
    let mut count: u8 = 0;
    for b in front {
        if *b == b'=' {
            count += 1;
        }
    }
    (count as usize).max(1).min(MOST)
}

/// Returns the attributes in the text between a tag's name and its `>`, in order, without duplicates of names. Fails with `AllocError` if
/// an allocation fails (HTML standard, sections 13.2.5.32, "Before attribute name state", to 13.2.5.40, "Self-closing start tag state").
pub fn read_attributes(
    alloc: Global,
    names: &mut SharedNames,
    text: &str,
) -> Result<Kept, AllocError>
    ensures attributes { IfOk result (λ kept. attribute_texts kept.attributes.items ≡ a.distinct [] (a.attributes_of text.now)) }
    ensures duplicates { IfOk result (λ kept. kept.duplicates ≡ a.has_duplicates (a.attributes_of text.now)) }
{
    let mut kept = Keeping::new(alloc, likely_count(text.as_bytes()));
    let mut rest = text;
    'attributes: loop {
        let front = skip(rest, Class::BetweenAttributes);
        if front.is_empty() {
            kept.attributes.shrink_to_fit();
            return Ok(Kept {
                attributes: kept.attributes,
                duplicates: kept.duplicates,
            });
        }
        let attribute = cut_attribute(front);
        let name = names.name(alloc, attribute.name)?;
        kept.keep(alloc, name, attribute.value)?;
        // The next iteration needs the fact that this is text.
        let _bytes = attribute.rest.as_bytes();
        rest = attribute.rest;
    }
}
