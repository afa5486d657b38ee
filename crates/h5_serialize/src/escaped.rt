//! Escaped texts as strings (HTML standard, section 13.3, "Serializing HTML fragments": escaping a string).
ghost use Rattle.std.specs.Prelude.{◌≡◌, IfOk, false, string_bytes, true};
ghost use Rattle.h5_serialize.specs.Escape.{escape};

use super::escape::write_escaped;
use super::fault::SerializeFault;
use std::alloc::{AllocError, Global};

// An escaped text, as bytes.
fn escaped_bytes(alloc: Global, text: &str, attr_mode: bool) -> Result<Vec<u8>, SerializeFault>
    ensures { IfOk result (λ bytes. bytes.items ≡ escape attr_mode text.now) }
{
    let mut bytes = Vec::new(alloc);
    write_escaped(&mut bytes, text, attr_mode)?;
    Ok(bytes)
}

// An escaped text. Writing to a vector fails only if an allocation fails, and an escaped text is valid UTF-8.
fn escaped(alloc: Global, text: &str, attr_mode: bool) -> Result<String, AllocError>
    ensures { IfOk result (λ escaped. string_bytes escaped ≡ escape attr_mode text.now) }
{
    match escaped_bytes(alloc, text, attr_mode) {
        Ok(bytes) => match String::from_utf8(bytes) {
            Ok(escaped) => Ok(escaped),
            Err(_) => Err(AllocError),
        },
        Err(_) => Err(AllocError),
    }
}

/// Returns a text as it is written between tags: `&`, U+00A0, `<` and `>` become references. Fails with `AllocError` if an allocation
/// fails.
pub fn escape_text(alloc: Global, text: &str) -> Result<String, AllocError>
    ensures { IfOk result (λ escaped. string_bytes escaped ≡ escape false text.now) }
{
    escaped(alloc, text, false)
}

/// Returns a text as it is written in an attribute's value, between double quotes: `&`, U+00A0, `<`, `>` and `"` become references. Fails
/// with `AllocError` if an allocation fails.
pub fn escape_attribute(alloc: Global, text: &str) -> Result<String, AllocError>
    ensures { IfOk result (λ escaped. string_bytes escaped ≡ escape true text.now) }
{
    escaped(alloc, text, true)
}
