//! What is left of texts and values.
ghost use Rattle.std.specs.Prelude.{◌≡◌, true, IfOk, string_bytes};
ghost use Rattle.h5_clean.specs.Texts.{may_stand, readable, without_marks};

use super::place::Spot;
use h5_builder_state::is_blank_text;
use std::alloc::{AllocError, Global};

/// Returns true if a text has neither NUL nor CR, so that all of it is left.
pub fn is_readable(text: &str) -> bool
    ensures left { result ≡ true → readable text.now ≡ text.now }
    ensures all { readable text.now ≡ text.now → result ≡ true }
{
    memchr::memchr2(0, b'\r', text.as_bytes()).is_none()
}

/// Returns a text with each CR replaced by LF, and without NULs. Fails with `AllocError` if an allocation fails.
pub fn readable(alloc: Global, text: &str) -> Result<String, AllocError>
    ensures { IfOk result (λ made. string_bytes made ≡ readable text.now) }
{
    if is_readable(text) {
        return String::from_str(alloc, text);
    }
    let mut made = String::new(alloc);
    for c in text.chars() {
        if c != '\0' {
            made.push(if c == '\r' { '\n' } else { c })?;
        }
    }
    Ok(made)
}

/// Returns true if a text is allowed at a spot.
pub fn may_stand(spot: Spot, text: &str) -> bool
    ensures { result ≡ may_stand spot text.now }
{
    match spot {
        Spot::InFlow => true,
        Spot::Nowhere => false,
        Spot::InTable | Spot::InColumns | Spot::InSection | Spot::InRow => is_blank_text(text),
    }
}

/// Returns a text without U+FEFF at its start.
pub fn without_marks(text: &str) -> &str
    ensures { result.now ≡ without_marks text.now }
{
    text.trim_start_matches('\u{feff}')
}

/// Returns bytes as a text. Fails with `AllocError` if they aren't UTF-8.
pub fn text_of_bytes(bytes: Vec<u8>) -> Result<String, AllocError>
    ensures { IfOk result (λ text. string_bytes text ≡ bytes.items) }
{
    String::from_utf8(bytes).map_err(|_| AllocError)
}
