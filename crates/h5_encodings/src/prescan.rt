//! The prescan: finds the encoding that the first bytes of a page declare.
ghost use Rattle.std.specs.Prelude.{◌≡◌, IfOk};
ghost use Rattle.h5_encodings.specs.Prescan.{found_here, here_in, here_of, inside_tag, inside_of, is_declaration, is_meta, is_tag, kind_of, past_meta, past_tag, prescan, scan};

use super::attribute::{Got, attribute};
use super::cut::{Class, after, begins, begins_in, behind, cut_at};
use super::encoding::Encoding;
use super::label::is_same_word;
use super::said::Said;
use super::xml::xml_encoding;
use std::alloc::{AllocError, Global};

/// What the prescan finds at a position.
#[derive(Clone, Copy, Debug, PartialEq, Eq)]
pub enum Kind {
    Comment,
    /// A `meta` with attributes.
    Meta,
    /// Another start tag, or an end tag.
    Tag,
    /// `<!`, `</` or `<?`, up to the next `>`.
    Declaration,
    /// A single byte.
    Text,
}

/// The attributes of a tag.
#[derive(Clone, Copy)]
pub enum Inside<'a> {
    /// The bytes end first.
    CutOff,
    /// What the attributes declare, and the bytes from the `>` on.
    Ended(Said, &'a [u8]),
}

/// The result of reading what is at one position.
#[derive(Clone, Copy)]
pub enum Here<'a> {
    /// The bytes end first.
    Over,
    Names(Encoding),
    /// No encoding. The prescan continues with these bytes.
    Passes(&'a [u8]),
}

fn is_meta(text: &[u8]) -> bool
    ensures { result ≡ is_meta text.now }
{
    if text.len() < 5 {
        return false;
    }
    let (front, rest) = text.split_at(5);
    is_same_word(front, b"<meta") && begins_in(rest, Class::BetweenAttributes)
}

fn is_tag(text: &[u8]) -> bool
    ensures { result ≡ is_tag text.now }
{
    (begins(text, b"<") && begins_in(after(text, 1), Class::Letter))
        || (begins(text, b"</") && begins_in(after(text, 2), Class::Letter))
}

fn is_declaration(text: &[u8]) -> bool
    ensures { result ≡ is_declaration text.now }
{
    begins(text, b"<!") || (begins(text, b"</") || begins(text, b"<?"))
}

#[tactic(auto, unfolding(crate::specs::Prescan::kind_of))]
fn kind_of(text: &[u8]) -> Kind
    ensures { result ≡ kind_of text.now }
{
    if begins(text, b"<!--") {
        Kind::Comment
    } else if is_meta(text) {
        Kind::Meta
    } else if is_tag(text) {
        Kind::Tag
    } else if is_declaration(text) {
        Kind::Declaration
    } else {
        Kind::Text
    }
}

// Reads the attributes of a tag.
fn inside_tag(alloc: Global, text: &[u8]) -> Result<Inside<'_>, AllocError>
    ensures { IfOk result (λ found. inside_of found ≡ inside_tag text.now) }
{
    let mut said = Said::new();
    let mut rest = text;
    for _attribute in 0..text.len() {
        match attribute(rest) {
            Got::Cut => return Ok(Inside::CutOff),
            Got::NoMore(end) => return Ok(Inside::Ended(said, end)),
            Got::Attribute(name, value, behind) => {
                said = said.with(alloc, name, value)?;
                rest = behind;
            }
        }
    }
    Ok(Inside::CutOff)
}

// Returns the result for a `meta` with these attributes.
fn past_meta(found: Inside<'_>) -> Here<'_>
    ensures { here_of result ≡ past_meta (inside_of found.entry) }
{
    match found {
        Inside::CutOff => Here::Over,
        Inside::Ended(said, rest) => match said.encoding() {
            Some(encoding) => Here::Names(encoding),
            None => Here::Passes(rest),
        },
    }
}

fn past_tag(found: Inside<'_>) -> Here<'_>
    ensures { here_of result ≡ past_tag (inside_of found.entry) }
{
    match found {
        Inside::CutOff => Here::Over,
        Inside::Ended(_, rest) => Here::Passes(rest),
    }
}

// Reads what is at the start, by its kind.
fn here_in(alloc: Global, kind: Kind, text: &[u8]) -> Result<Here<'_>, AllocError>
    ensures { IfOk result (λ found. here_of found ≡ here_in kind text.now) }
{
    match kind {
        Kind::Comment => match behind(after(text, 2), b"-->") {
            Some(rest) => Ok(Here::Passes(rest)),
            None => Ok(Here::Over),
        },
        Kind::Meta => Ok(past_meta(inside_tag(alloc, after(text, 5))?)),
        Kind::Tag => {
            let (_, rest) = cut_at(text, Class::ValueEnd);
            Ok(past_tag(inside_tag(alloc, rest)?))
        }
        Kind::Declaration => {
            let (_, end) = cut_at(text, Class::Byte(b'>'));
            match end.split_first() {
                Some(_) => Ok(Here::Passes(end)),
                None => Ok(Here::Over),
            }
        }
        Kind::Text => Ok(Here::Passes(after(text, 1))),
    }
}

// Reads what is at the start.
#[tactic(auto, unfolding(crate::specs::Prescan::found_here))]
fn found_here(alloc: Global, text: &[u8]) -> Result<Here<'_>, AllocError>
    ensures { IfOk result (λ found. here_of found ≡ found_here text.now) }
{
    here_in(alloc, kind_of(text), text)
}

// Finds the encoding that a `meta` declares.
fn scan(alloc: Global, bytes: &[u8]) -> Result<Option<Encoding>, AllocError>
    ensures { IfOk result (λ named. named ≡ scan 0 bytes.now) }
{
    let mut skipped = 0;
    for at in 0..bytes.len() {
        if skipped > 0 {
            skipped -= 1;
        } else {
            let (_, unread) = bytes.split_at(at);
            match found_here(alloc, unread)? {
                Here::Over => return Ok(None),
                Here::Names(encoding) => return Ok(Some(encoding)),
                Here::Passes(rest) => skipped = (unread.len() - 1).saturating_sub(rest.len()),
            }
        }
    }
    Ok(None)
}

/// Returns the encoding that bytes declare: by `<?x` in UTF-16 at the start, by a `meta`, or by an XML declaration at the start
/// (HTML standard, section 13.2.3.2, "prescan a byte stream to determine its encoding"). Fails with `AllocError` if an
/// allocation fails.
#[tactic(auto, unfolding(crate::specs::Prescan::prescan))]
pub fn prescan(alloc: Global, bytes: &[u8]) -> Result<Option<Encoding>, AllocError>
    ensures { IfOk result (λ named. named ≡ prescan bytes.now) }
{
    if begins(bytes, b"<\0?\0x\0") {
        return Ok(Some(Encoding::Utf16le));
    }
    if begins(bytes, b"\0<\0?\0x") {
        return Ok(Some(Encoding::Utf16be));
    }
    match scan(alloc, bytes)? {
        Some(encoding) => Ok(Some(encoding)),
        None => Ok(xml_encoding(bytes)),
    }
}
