//! The encoding that a tag names (HTML standard, section 13.2.6.4.4, a start tag "meta").
ghost use Rattle.std.specs.Prelude.{◌≡◌, IfOk, option_map, string_bytes};
ghost use Rattle.std.specs.Option.{option_copied};
ghost use Rattle.h5_token.specs.TokenText.{tag_text};
ghost use Rattle.h5_builder_spec.specs.NamedEncoding.{content_encoding, is_content_type, named_encoding};

use h5_names::{KnownName, LocalName};
use h5_tables::extract_a_character_encoding_from_a_meta_element;
use h5_token::Tag;
use std::alloc::{AllocError, Global};

// The value of `http-equiv` is `content-type`, in any case of ASCII letters.
fn is_content_type(value: Option<&str>) -> bool
    ensures { result ≡ is_content_type (option_copied value.entry) }
{
    match value {
        None => false,
        Some(text) => text.eq_ignore_ascii_case("content-type"),
    }
}

// The encoding that the value of `content` names.
fn content_encoding(value: Option<&str>) -> Option<&str>
    ensures { option_copied result ≡ content_encoding (option_copied value.entry) }
{
    extract_a_character_encoding_from_a_meta_element(value?)
}

// The encoding that the tag names, borrowed from it.
#[tactic(auto, unfolding(h5_builder_spec::specs::NamedEncoding::named_encoding))]
fn named_encoding(tag: &Tag) -> Option<&str>
    ensures { option_copied result ≡ named_encoding (tag_text tag.now).attrs }
{
    if let Some(charset) = tag.get_attribute(&LocalName::from_known(KnownName::Charset)) {
        return Some(charset);
    }
    let http_equiv = LocalName::from_known(KnownName::HttpEquiv);
    if is_content_type(tag.get_attribute(&http_equiv)) {
        content_encoding(tag.get_attribute(&LocalName::from_known(KnownName::Content)))
    } else {
        None
    }
}

/// Returns a copy of the encoding that the tag names. Fails with `AllocError` if an allocation fails.
pub(crate) fn copy_named_encoding(alloc: Global, tag: &Tag) -> Result<Option<String>, AllocError>
    ensures { IfOk result (λ encoding. option_map string_bytes encoding ≡ named_encoding (tag_text tag.now).attrs) }
{
    match named_encoding(tag) {
        None => Ok(None),
        Some(encoding) => Ok(Some(String::from_str(alloc, encoding)?)),
    }
}
