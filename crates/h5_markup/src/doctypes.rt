//! Doctypes.
ghost use Rattle.std.specs.Prelude.{◌≡◌, IfOk};
ghost use Rattle.std.specs.Option.{option_map};
ghost use Rattle.h5_token.specs.OptionalText.{optional_text};
ghost use Rattle.h5_token.specs.TokenText.{doctype_text};
ghost use Rattle.h5_markup.specs.Text as t;
ghost use Rattle.h5_markup.specs.Cuts.{is_in, before, from};
ghost use Rattle.h5_markup.specs.Doctypes as d;
ghost use Rattle.h5_markup.specs.Quoting.{quoted_of, identifiers_of};

use super::cut::{Class, cut_at, cut_past, skip};
use super::matches::Match;
use super::needle::{literal, word};
use super::text::text_of;
use h5_token::Doctype;
use std::alloc::{AllocError, Global};

/// A quoted identifier, and the text after it and after whitespace.
#[derive(Clone, Copy)]
pub struct Quoted<'a> {
    pub identifier: &'a str,
    pub rest: &'a str,
}

/// The identifiers of a doctype.
#[derive(Clone, Copy)]
pub struct Identifiers<'a> {
    pub public_id: Option<&'a str>,
    pub system_id: Option<&'a str>,
}

// An identifier up to its closing quote, if that follows.
fn closed_by<'a>(text: &'a str, class: Class) -> Option<Quoted<'a>>
    ensures { option_map quoted_of result
        ≡ d.closed_by (before (is_in class) text.entry.now) (from (is_in class) text.entry.now) }
{
    let (_, quote) = cut_at(text, class);
    if quote.is_empty() {
        return None;
    }
    let (identifier, behind) = cut_past(text, class);
    Some(Quoted {
        identifier,
        rest: skip(behind, Class::Blank),
    })
}

fn cut_quoted<'a>(text: &'a str) -> Option<Quoted<'a>>
    ensures { option_map quoted_of result ≡ d.quoted text.entry.now }
{
    match literal(text, "\"") {
        Match::Found(_, inner) => closed_by(inner, Class::DoubleQuote),
        Match::Open => None,
        Match::No => match literal(text, "'") {
            Match::Found(_, inner) => closed_by(inner, Class::SingleQuote),
            Match::Open => None,
            Match::No => None,
        },
    }
}

// An identifier at the end of the doctype.
fn last<'a>(quoted: Option<Quoted<'a>>) -> Option<&'a str>
    ensures { option_map (λ id. id.now) result ≡ d.last (option_map quoted_of quoted.entry) }
{
    match quoted {
        None => None,
        Some(quoted) => {
            if quoted.rest.is_empty() {
                Some(quoted.identifier)
            } else {
                None
            }
        }
    }
}

fn with_system<'a>(
    public_id: Option<&'a str>,
    system_id: Option<&'a str>,
) -> Option<Identifiers<'a>>
    ensures { option_map identifiers_of result
        ≡ d.with_system (option_map (λ id. id.now) public_id.entry) (option_map (λ id. id.now) system_id.entry) }
{
    match system_id {
        None => None,
        Some(id) => Some(Identifiers {
            public_id,
            system_id: Some(id),
        }),
    }
}

// The identifiers after PUBLIC: one or two.
fn public_ids<'a>(text: &'a str) -> Option<Identifiers<'a>>
    ensures { option_map identifiers_of result ≡ d.public_ids (d.quoted text.entry.now) }
{
    match cut_quoted(text) {
        None => None,
        Some(public) => {
            if public.rest.is_empty() {
                return Some(Identifiers {
                    public_id: Some(public.identifier),
                    system_id: None,
                });
            }
            with_system(Some(public.identifier), last(cut_quoted(public.rest)))
        }
    }
}

// The identifiers after the name and whitespace, if they are valid.
fn cut_identifiers<'a>(text: &'a str) -> Option<Identifiers<'a>>
    ensures { option_map identifiers_of result ≡ d.identifiers text.entry.now }
{
    if text.is_empty() {
        return Some(Identifiers {
            public_id: None,
            system_id: None,
        });
    }
    match word(text, "PUBLIC") {
        Match::Found(_, rest) => public_ids(skip(rest, Class::Blank)),
        Match::Open => None,
        Match::No => match word(text, "SYSTEM") {
            Match::Found(_, rest) => with_system(None, last(cut_quoted(skip(rest, Class::Blank)))),
            Match::Open => None,
            Match::No => None,
        },
    }
}

fn make_id(alloc: Global, id: Option<&str>) -> Result<Option<String>, AllocError>
    ensures { IfOk result (λ made. optional_text made ≡ d.made (option_map (λ id. id.now) id.entry)) }
{
    match id {
        None => Ok(None),
        Some(id) => Ok(Some(text_of(alloc, false, id)?)),
    }
}

// The doctype of this name.
fn make_named(alloc: Global, name: &str, rest: &str) -> Result<Doctype, AllocError>
    ensures { IfOk result (λ doctype. doctype_text doctype ≡ d.identified (t.name_of name.now) (d.identifiers rest.now)) }
{
    let mut lower = text_of(alloc, false, name)?;
    lower.make_ascii_lowercase();
    match cut_identifiers(rest) {
        None => Ok(Doctype {
            name: Some(lower),
            public_id: None,
            system_id: None,
            force_quirks: true,
        }),
        Some(ids) => Ok(Doctype {
            name: Some(lower),
            public_id: make_id(alloc, ids.public_id)?,
            system_id: make_id(alloc, ids.system_id)?,
            force_quirks: false,
        }),
    }
}

/// Returns the doctype of the text between `<!DOCTYPE` and `>`. If there is no name, or the name is followed by anything except `PUBLIC` or
/// `SYSTEM` with its identifiers, the doctype has no identifiers and forces quirks. Fails with `AllocError` if an allocation fails (HTML
/// standard, sections 13.2.5.53, "DOCTYPE state", to 13.2.5.68).
pub fn make_doctype(alloc: Global, text: &str) -> Result<Doctype, AllocError>
    ensures { IfOk result (λ doctype. doctype_text doctype ≡ d.doctype_of text.now) }
{
    let (name, rest) = cut_at(skip(text, Class::Blank), Class::Blank);
    if name.is_empty() {
        return Ok(Doctype {
            name: None,
            public_id: None,
            system_id: None,
            force_quirks: true,
        });
    }
    make_named(alloc, name, skip(rest, Class::Blank))
}
