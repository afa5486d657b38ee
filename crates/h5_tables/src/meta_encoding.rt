//! The encoding in the `content` attribute of a `meta` element.
ghost use Rattle.std.specs.Prelude.{◌≡◌, ◌<◌, option_map};
ghost use Rattle.h5_tables.specs.MetaEncoding.{after_charset, after_declaration, encoding_at, meta_encoding, up_to_end, up_to_quote};

use h5_markup::{Class, Match, cut_at, skip, word};
use memchr::memchr2;

// The text after `charset`, whitespace and `=` at the start of a text.
fn after_declaration(text: &str) -> Option<&str>
    ensures { option_map (λ rest. rest.now) result ≡ after_declaration text.now }
{
    let Match::Found((), behind) = word(text, "charset") else {
        return None;
    };
    skip(behind, Class::Blank).strip_prefix('=')
}

// The text after the first `charset` that whitespace and a `=` follow. The search goes from one `c` to the next, so it passes each
// whitespace at most once more than `after_declaration` does: there is no `c` inside `charset` or among whitespace.
fn after_charset(text: &str) -> Option<&str>
    ensures { option_map (λ rest. rest.now) result ≡ after_charset text.now }
{
    let mut unread = text;
    while let Some(n) = memchr2(b'c', b'C', unread.as_bytes()) {
        let (_, found) = unread.split_at(n);
        if let Some(rest) = after_declaration(found) {
            return Some(rest);
        }
        (_, unread) = found.split_at(1);
    }
    None
}

// The text before the next such quote.
fn up_to_quote(text: &str, quote: char) -> Option<&str>
    requires { quote < 128 }
    ensures { option_map (λ front. front.now) result ≡ up_to_quote quote text.now }
{
    let (front, _) = text.split_once(quote)?;
    Some(front)
}

// The text before the first whitespace or `;`, or all of it.
fn up_to_end(text: &str) -> &str
    ensures { result.now ≡ up_to_end text.now }
{
    let (front, _) = cut_at(text, Class::Blank);
    match front.split_once(';') {
        Some((before, _)) => before,
        None => front,
    }
}

// The encoding at the start of a text: in quotes, or up to whitespace or a `;`.
fn encoding_at(text: &str) -> Option<&str>
    ensures { option_map (λ name. name.now) result ≡ encoding_at text.now }
{
    if let Some(rest) = text.strip_prefix('"') {
        up_to_quote(rest, '"')
    } else if let Some(rest) = text.strip_prefix('\'') {
        up_to_quote(rest, '\'')
    } else if text.is_empty() {
        None
    } else {
        Some(up_to_end(text))
    }
}

/// Returns the encoding that the text declares, borrowed from it: after the first `charset` that a `=`, perhaps after whitespace, follows;
/// in quotes, or up to whitespace or a `;`. Returns `None` if there is no such `charset`, if only whitespace follows the `=`, or if a quote
/// isn't closed. The name may be empty or unknown. Doesn't allocate (HTML standard, "Fetching resources", "Extracting character encodings
/// from meta elements").
pub fn extract_a_character_encoding_from_a_meta_element(input: &str) -> Option<&str>
    ensures { option_map (λ text. text.now) result ≡ meta_encoding input.now }
{
    let value = after_charset(input)?;
    encoding_at(skip(value, Class::Blank))
}
