//! The encoding that the attributes of a `meta` declare.
ghost use Rattle.std.specs.Prelude.{◌≡◌, IfOk, string_bytes};
ghost use Rattle.h5_encodings.specs.Said.{by_charset, by_content, declared_by, encoding_in_content, instead_of, instead_of_utf16, isomorphic, named_by, nothing_said, says};

use super::attribute::Name;
use super::encoding::{Encoding, SingleByte};
use super::label::is_same_word;
use h5_tables::extract_a_character_encoding_from_a_meta_element;
use std::alloc::{AllocError, Global};

/// The encoding that was declared, and by which attribute.
#[derive(Clone, Copy, Debug, PartialEq, Eq)]
pub enum Declared {
    Nothing,
    /// By a `content`, which needs the pragma.
    ByContent(Encoding),
    /// By a `charset`; `None` if its value isn't a label.
    ByCharset(Option<Encoding>),
}

/// What the attributes of a `meta` have declared so far.
#[derive(Clone, Copy, Debug, PartialEq, Eq)]
pub struct Said {
    /// There was an `http-equiv`.
    pub has_equiv: bool,
    /// The first one was `content-type`.
    pub has_pragma: bool,
    /// There was a `content`.
    pub has_content: bool,
    pub declared: Declared,
}

// Converts each byte to the character with its number.
fn isomorphic(alloc: Global, bytes: &[u8]) -> Result<String, AllocError>
    ensures { IfOk result (λ text. string_bytes text ≡ isomorphic bytes.now) }
{
    let mut text = String::with_capacity(alloc, bytes.len())?;
    for &byte in bytes {
        text.push(byte as char)?;
    }
    Ok(text)
}

// Returns the encoding that a `content` declares.
#[tactic(auto, unfolding(crate::specs::Said::encoding_in_content))]
fn encoding_in_content(alloc: Global, value: &[u8]) -> Result<Option<Encoding>, AllocError>
    ensures { IfOk result (λ named. named ≡ encoding_in_content value.now) }
{
    let text = isomorphic(alloc, value)?;
    match extract_a_character_encoding_from_a_meta_element(text.as_str()) {
        Some(label) => Ok(Encoding::for_label(label.as_bytes())),
        None => Ok(None),
    }
}

fn by_content(declared: Declared, named: Option<Encoding>) -> Declared
    ensures { result ≡ by_content declared named }
{
    match declared {
        Declared::Nothing => match named {
            Some(encoding) => Declared::ByContent(encoding),
            None => Declared::Nothing,
        },
        Declared::ByContent(_) | Declared::ByCharset(_) => declared,
    }
}

fn by_charset(declared: Declared, named: Option<Encoding>) -> Declared
    ensures { result ≡ by_charset declared named }
{
    match declared {
        Declared::Nothing | Declared::ByContent(_) => Declared::ByCharset(named),
        Declared::ByCharset(_) => declared,
    }
}

fn declared_by(has_pragma: bool, declared: Declared) -> Option<Encoding>
    ensures { result ≡ declared_by has_pragma declared }
{
    match declared {
        Declared::Nothing => None,
        Declared::ByContent(encoding) => { if has_pragma { Some(encoding) } else { None } }
        Declared::ByCharset(named) => named,
    }
}

/// Returns the encoding that is used if an XML declaration declares this one. UTF-8 replaces UTF-16: bytes in which the
/// declaration was found aren't UTF-16.
pub fn instead_of_utf16(encoding: Encoding) -> Encoding
    ensures { result ≡ instead_of_utf16 encoding }
{
    match encoding {
        Encoding::Utf16be | Encoding::Utf16le => Encoding::Utf8,
        Encoding::Utf8
        | Encoding::Gbk
        | Encoding::Gb18030
        | Encoding::Big5
        | Encoding::EucJp
        | Encoding::Iso2022Jp
        | Encoding::ShiftJis
        | Encoding::EucKr
        | Encoding::Replacement
        | Encoding::XUserDefined
        | Encoding::SingleByte(_) => encoding,
    }
}

// Returns the encoding that is used if a `meta` declares this one.
fn instead_of(encoding: Encoding) -> Encoding
    ensures { result ≡ instead_of encoding }
{
    match encoding {
        Encoding::XUserDefined => Encoding::SingleByte(SingleByte::Windows1252),
        Encoding::Utf16be | Encoding::Utf16le => Encoding::Utf8,
        Encoding::Utf8
        | Encoding::Gbk
        | Encoding::Gb18030
        | Encoding::Big5
        | Encoding::EucJp
        | Encoding::Iso2022Jp
        | Encoding::ShiftJis
        | Encoding::EucKr
        | Encoding::Replacement
        | Encoding::SingleByte(_) => encoding,
    }
}

impl Said {
    /// Returns the state before any attribute.
    pub fn new() -> Said
        ensures { result ≡ nothing_said }
    {
        Said {
            has_equiv: false,
            has_pragma: false,
            has_content: false,
            declared: Declared::Nothing,
        }
    }

    /// Adds an attribute.
    pub fn with(self, alloc: Global, name: Name, value: &[u8]) -> Result<Said, AllocError>
        ensures { IfOk result (λ said. said ≡ says self name value.now) }
    {
        match name {
            Name::HttpEquiv => {
                if self.has_equiv {
                    return Ok(self);
                }
                Ok(Said {
                    has_equiv: true,
                    has_pragma: is_same_word(value, b"content-type"),
                    ..self
                })
            }
            Name::Content => {
                if self.has_content {
                    return Ok(self);
                }
                let named = encoding_in_content(alloc, value)?;
                Ok(Said {
                    has_content: true,
                    declared: by_content(self.declared, named),
                    ..self
                })
            }
            Name::Charset => Ok(Said {
                declared: by_charset(self.declared, Encoding::for_label(value)),
                ..self
            }),
            Name::Other => Ok(self),
        }
    }

    /// Returns the encoding that the `meta` declares.
    pub fn encoding(self) -> Option<Encoding>
        ensures { result ≡ named_by self }
    {
        match declared_by(self.has_pragma, self.declared) {
            Some(encoding) => Some(instead_of(encoding)),
            None => None,
        }
    }
}
