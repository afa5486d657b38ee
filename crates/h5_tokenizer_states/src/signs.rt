//! Bytes that the rows name, and appending to texts.

ghost use Rattle.std.specs.Prelude.{◌≡◌, ◌<◌, ◌==◌, ℕ, List, [], ◌∷◌, ◌++◌, OnOk, map, string_bytes};
ghost use Rattle.std.specs.Char.{to_ascii_lowercase};
ghost use Rattle.h5_names.specs.AttributeText.{is_same_text};
ghost use Rattle.h5_tokenizer_spec.specs.Signs.{is_blank, is_name_end, is_quote, sign_of, is_alphanumeric, is_hex_digit};
ghost use Rattle.h5_tokenizer_spec.specs.Words.{begins, is_all, same};
ghost use Rattle.h5_tokenizer_states.specs.Signs.{cleaned};

use h5_tokenizer_spec::Quote;
use std::alloc::AllocError;

/// Returns true for TAB, LF, FF and SPACE. A CR has become a LF before.
#[inline(always)]
pub fn is_blank(b: u8) -> bool
    ensures { result ≡ is_blank b }
{
    b == b'\t' || b == b'\n' || b == 0x0c || b == b' '
}

/// Returns true for a byte that ends a name.
#[inline(always)]
pub fn is_name_end(b: u8) -> bool
    ensures { result ≡ is_name_end b }
{
    is_blank(b) || b == b'/' || b == b'>'
}

#[inline(always)]
pub fn is_quote(b: u8) -> bool
    ensures { result ≡ is_quote b }
{
    b == b'"' || b == b'\''
}

#[inline(always)]
pub fn sign_of(quote: Quote) -> u8
    ensures { result ≡ sign_of quote }
{
    match quote {
        Quote::Double => b'"',
        Quote::Single => b'\'',
    }
}

#[inline(always)]
pub fn is_alphanumeric(b: u8) -> bool
    ensures { result ≡ is_alphanumeric b }
{
    b.is_ascii_digit() || b.is_ascii_alphabetic()
}

pub fn is_hex_digit(b: u8) -> bool
    ensures { result ≡ is_hex_digit b }
{
    b.is_ascii_digit() || (b'A' <= b && b <= b'F') || (b'a' <= b && b <= b'f')
}

/// U+FFFD REPLACEMENT CHARACTER, which replaces a NUL.
pub const REPLACEMENT: &str = "\u{fffd}";

/// Appends an ASCII byte.
pub fn push_byte(text: &mut String, b: u8) -> Result<(), AllocError>
    requires { b < 128 }
    ensures { OnOk result (string_bytes text.new ≡ string_bytes text.old ++ b ∷ []) }
{
    text.push(b as char)
}

/// Appends an ASCII byte, or U+FFFD for a NUL.
pub fn push_cleaned(text: &mut String, b: u8) -> Result<(), AllocError>
    requires { b < 128 }
    ensures { OnOk result (string_bytes text.new ≡ string_bytes text.old ++ cleaned b) }
{
    if b == 0 {
        return text.push_str(REPLACEMENT);
    }
    push_byte(text, b)
}

/// Removes an ASCII byte from the end of a text.
pub fn pop_byte(text: &mut String)
    ensures { (front : List ℕ) (x : ℕ) → x < 128 → string_bytes text.old ≡ front ++ x ∷ [] → string_bytes text.new ≡ front }
{
    let _ = text.pop();
}

/// Returns true if `text` equals `written` with letters in lower case.
pub fn is_lowered(text: &[u8], written: &[u8]) -> bool
    ensures { result ≡ is_same_text text.now (map to_ascii_lowercase written.now) }
{
    if text.len() != written.len() {
        return false;
    }
    for (i, b) in written.iter().enumerate() {
        if text[i] != b.to_ascii_lowercase() {
            return false;
        }
    }
    true
}

/// Appends a text, with letters in lower case.
pub fn push_lowered(text: &mut String, more: &str) -> Result<(), AllocError>
    ensures { OnOk result (string_bytes text.new ≡ string_bytes text.old ++ map to_ascii_lowercase more.now) }
{
    // Most names are written in lower case.
    if is_lowered(more.as_bytes(), more.as_bytes()) {
        return text.push_str(more);
    }
    let mut lower = String::from_str(*text.allocator(), more)?;
    lower.make_ascii_lowercase();
    text.push_str(lower.as_str())
}

/// Returns true if a word begins with `seen`, in any case of letters.
pub fn begins_folded(seen: &str, word: &[u8]) -> bool
    ensures { result ≡ begins to_ascii_lowercase seen.now word.now }
{
    let bytes = seen.as_bytes();
    if word.len() < bytes.len() {
        return false;
    }
    bytes.eq_ignore_ascii_case(&word[..bytes.len()])
}

/// Returns true if `seen` is a word, in any case of letters.
pub fn is_folded(seen: &str, word: &[u8]) -> bool
    ensures { result ≡ is_all to_ascii_lowercase seen.now word.now }
{
    seen.as_bytes().eq_ignore_ascii_case(word)
}

/// Returns true if `seen` is a word.
#[tactic(auto, using(crate::proofs::FoldLaws::is_all_same))]
pub fn is_word(seen: &str, word: &[u8]) -> bool
    ensures { result ≡ is_all same seen.now word.now }
{
    seen.as_bytes() == word
}

/// Returns true if a word begins with `seen`.
#[tactic(auto, using(crate::proofs::WordLaws::begins_same))]
pub fn begins(seen: &str, word: &[u8]) -> bool
    ensures { result ≡ begins same seen.now word.now }
{
    word.starts_with(seen.as_bytes())
}
