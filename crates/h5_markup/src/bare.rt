//! Tags that have only a name, as most tags do.
ghost use Rattle.std.specs.Prelude.{◌≡◌, ◌<◌, false, true, IfSome, IfOk};
ghost use Rattle.std.specs.Char.{is_ascii_alphabetic};
ghost use Rattle.h5_token.specs.TokenText.{TagIs, tag_text};
ghost use Rattle.h5_markup.specs.Bare.{bare_tag, IsBare, IsBareName, IsBareTag};
ghost use Rattle.h5_markup.specs.Cuts.{is_in};

use super::cut::Class;
use super::shared_names::SharedNames;
use h5_token::{Tag, TagKind};
use std::alloc::{AllocError, Global};

// Returns true only if a byte may be in such a name: a letter or, after the first byte, a digit.
fn is_name_byte(b: u8, first: bool) -> bool
    ensures name { result ≡ true → is_in Class.NameEnd b ≡ false }
    ensures high { result ≡ true → 13 < b }
    ensures first { first ≡ true → result ≡ is_ascii_alphabetic b }
{
    b.is_ascii_alphabetic() || (!first && b.is_ascii_digit())
}

// The length of a name of letters and digits, if a `>` follows it.
fn bare_name(bytes: &[u8]) -> Option<usize>
    ensures { IfSome result (λ n. IsBareName bytes.now n) }
{
    for (i, b) in bytes.iter().enumerate() {
        if !is_name_byte(*b, i == 0) {
            return if i > 0 && *b == b'>' { Some(i) } else { None };
        }
    }
    None
}

// The tag whose name begins here.
fn cut_bare<'a>(kind: TagKind, text: &'a str) -> Option<(TagKind, &'a str, &'a str)>
    ensures { IfSome result (λ tag. (tag.0 ≡ kind) × IsBare text.now tag.1.now tag.2.now) }
{
    let n = bare_name(text.as_bytes())?;
    let (name, behind) = text.split_at(n);
    let (_, rest) = behind.split_at(1);
    Some((kind, name, rest))
}

/// The kind and the name of the tag that the text begins with, and the text after it, if the tag has only a name, of letters and digits
/// (HTML standard, section 13.2.5.8, "Tag name state").
#[inline(always)]
pub fn find_bare<'a>(text: &'a str) -> Option<(TagKind, &'a str, &'a str)>
    ensures { IfSome result (λ tag. IsBareTag text.now tag.0 tag.1.now tag.2.now) }
{
    let bytes = text.as_bytes();
    if bytes.len() < 2 || bytes[0] != b'<' {
        return None;
    }
    if bytes[1] == b'/' {
        let (_, inner) = text.split_at(2);
        return cut_bare(TagKind::EndTag, inner);
    }
    let (_, inner) = text.split_at(1);
    cut_bare(TagKind::StartTag, inner)
}

/// Returns the tag of such a name. Fails with `AllocError` if an allocation fails (HTML standard, section 13.2.5.8, "Tag name state").
pub fn make_bare(
    alloc: Global,
    names: &mut SharedNames,
    kind: TagKind,
    name: &str,
) -> Result<Tag, AllocError>
    ensures { IfOk result (λ tag. TagIs (tag_text tag) ≡ bare_tag kind name.now) }
{
    Ok(Tag {
        kind,
        name: names.name(alloc, name)?,
        self_closing: false,
        attrs: Vec::new(alloc),
        had_duplicate_attributes: false,
    })
}
