//! Escapes of texts in lines.
ghost use Rattle.std.specs.Prelude.{◌≡◌, ◌++◌, ◌∷◌, ◌<◌, List, ℕ, length, IfOk, OnOk, MatchOption, None};
ghost use Rattle.std.specs.Option.{option_map};
ghost use Rattle.std.specs.String.{string_bytes};
ghost use Rattle.h5_print.specs.Escapes.{byte_of, escape, letter_of, put, unescape};

use std::alloc::{AllocError, Global};

// The character of the letter after a backslash.
fn char_of(letter: char) -> Option<char>
    ensures { result ≡ byte_of letter }
{
    match letter {
        'n' => Some('\n'),
        't' => Some('\t'),
        'f' => Some('\u{c}'),
        'r' => Some('\r'),
        '0' => Some('\0'),
        '\\' => Some('\\'),
        _ => None,
    }
}

// The letter of a character that has one.
fn letter_of(c: char) -> Option<char>
    ensures { result ≡ letter_of c }
{
    match c {
        '\n' => Some('n'),
        '\t' => Some('t'),
        '\u{c}' => Some('f'),
        '\r' => Some('r'),
        '\0' => Some('0'),
        '\\' => Some('\\'),
        _ => None,
    }
}

// The character of the letter after a backslash, and the text after that.
fn cut_letter<'a>(text: &'a str) -> Option<(char, &'a str)>
    ensures { MatchOption result (unescape (92 ∷ text.now) ≡ None)
        (λ found. (unescape (92 ∷ text.now) ≡ put (Some found.0) (unescape found.1.now))
        × (found.0 < 128) × (length found.1.now < length text.now)) }
{
    let mut chars = text.chars();
    let letter = chars.next()?;
    match char_of(letter) {
        Some(c) => Some((c, chars.as_str())),
        None => None,
    }
}

/// Returns the text that was written with these escapes, or `None` if a backslash is followed by another letter than the six, or by
/// nothing. Fails with `AllocError` if an allocation fails.
pub fn read_escapes(alloc: Global, text: &str) -> Result<Option<String>, AllocError>
    ensures { IfOk result (λ read. option_map string_bytes read ≡ unescape text.now) }
{
    let mut out = String::with_capacity(alloc, text.len())?;
    let mut rest = text;
    while let Some((front, behind)) = rest.split_once('\\') {
        out.push_str(front)?;
        let Some((c, after)) = cut_letter(behind) else {
            return Ok(None);
        };
        out.push(c)?;
        // The next iteration needs the fact that this is text.
        let _bytes = after.as_bytes();
        rest = after;
    }
    out.push_str(rest)?;
    Ok(Some(out))
}

/// Appends a text with its escapes to another. Fails with `AllocError` if an allocation fails; then a part of it may have been written.
pub fn write_escapes(out: &mut String, text: &str) -> Result<(), AllocError>
    ensures { OnOk result (string_bytes out.new ≡ string_bytes out.old ++ escape text.now) }
{
    for c in text.chars() {
        match letter_of(c) {
            Some(letter) => {
                out.push('\\')?;
                out.push(letter)?;
            }
            None => out.push(c)?,
        }
    }
    Ok(())
}
