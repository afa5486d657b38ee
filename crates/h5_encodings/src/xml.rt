//! The encoding that an XML declaration declares.
ghost use Rattle.std.specs.Prelude.{◌≡◌};
ghost use Rattle.h5_markup.specs.Cuts.{before, from};
ghost use Rattle.h5_encodings.specs.Cuts.{is_in};
ghost use Rattle.h5_encodings.specs.XmlDeclaration.{equals_at, in_quotes, quote_at, read_as, xml_encoding};

use super::cut::{Class, begins, behind, cut_at, skip};
use super::encoding::Encoding;
use super::said::instead_of_utf16;

// Returns the encoding that is used for a declared one.
fn read_as(named: Option<Encoding>) -> Option<Encoding>
    ensures { result ≡ read_as named }
{
    match named {
        Some(encoding) => Some(instead_of_utf16(encoding)),
        None => None,
    }
}

// Reads a label up to its closing quote, if there is one.
fn in_quotes(text: &[u8], quote: u8) -> Option<Encoding>
    ensures { result ≡ in_quotes (before (is_in (Class.Byte quote)) text.now) (from (is_in (Class.Byte quote)) text.now) }
{
    let (label, end) = cut_at(text, Class::Byte(quote));
    end.split_first()?;
    let (_, space) = cut_at(label, Class::UpToSpace);
    match space.split_first() {
        Some(_) => None,
        None => read_as(Encoding::for_label(label)),
    }
}

// Reads what follows the `=` and bytes up to SPACE.
fn quote_at(text: &[u8]) -> Option<Encoding>
    ensures { result ≡ quote_at text.now }
{
    let (first, rest) = text.split_first()?;
    if *first == b'"' || *first == b'\'' {
        in_quotes(rest, *first)
    } else {
        None
    }
}

// Reads what follows `encoding` and bytes up to SPACE.
fn equals_at(text: &[u8]) -> Option<Encoding>
    ensures { result ≡ equals_at text.now }
{
    let (first, rest) = text.split_first()?;
    if *first == b'=' {
        quote_at(skip(rest, Class::UpToSpace))
    } else {
        None
    }
}

/// Returns the encoding that the XML declaration at the start declares, or UTF-8 if it declares UTF-16 (HTML standard, section
/// 13.2.3.2, "get an XML encoding").
#[tactic(auto, unfolding(crate::specs::XmlDeclaration::xml_encoding))]
pub fn xml_encoding(text: &[u8]) -> Option<Encoding>
    ensures { result ≡ xml_encoding text.now }
{
    if !begins(text, b"<?xml") {
        return None;
    }
    let (declaration, end) = cut_at(text, Class::Byte(b'>'));
    end.split_first()?;
    let named = behind(declaration, b"encoding")?;
    equals_at(skip(named, Class::UpToSpace))
}
