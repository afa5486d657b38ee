//! Splits whole texts at the first byte of a class.
ghost use Rattle.std.specs.Prelude.{◌≡◌, ℕ, Bool, ◌<◌, ◌≤◌, ◌==◌, true, false, IfSome, not, length, slice_index};
ghost use Rattle.h5_markup.specs.Cuts.{is_in, before, from, past};

use memchr::memchr;

/// Classes of bytes that end or separate the parts of a tag or a doctype. All of them are ASCII.
#[derive(Clone, Copy, Debug, PartialEq, Eq)]
pub enum Class {
    /// ASCII whitespace: TAB, LF, FF, CR and SPACE.
    Blank,
    /// ASCII whitespace or `/`.
    BetweenAttributes,
    /// ASCII whitespace, `/` or `>`.
    NameEnd,
    /// ASCII whitespace, `/`, `>` or `=`.
    AttributeNameEnd,
    /// ASCII whitespace or `>`.
    ValueEnd,
    DoubleQuote,
    SingleQuote,
}

fn is_in(class: Class, b: u8) -> bool
    ensures { result ≡ is_in class b }
{
    match class {
        Class::Blank => b.is_ascii_whitespace(),
        Class::BetweenAttributes => b == b'/' || b.is_ascii_whitespace(),
        Class::NameEnd => b <= b'>' && (b == b'>' || (b == b'/' || b.is_ascii_whitespace())),
        Class::AttributeNameEnd => {
            b <= b'>' && (b == b'=' || (b == b'>' || (b == b'/' || b.is_ascii_whitespace())))
        }
        Class::ValueEnd => b <= b'>' && (b == b'>' || b.is_ascii_whitespace()),
        Class::DoubleQuote => b == b'"',
        Class::SingleQuote => b == b'\'',
    }
}

// The index of the first byte that is in the class, or that isn't, as `wanted` says; the length if there is none.
pub(crate) fn first_index(bytes: &[u8], class: Class, wanted: bool) -> usize
    ensures within { result ≤ length bytes.now }
    ensures passed { (k : ℕ) → k < result → is_in class (slice_index bytes.now k) ≡ not wanted }
    ensures stops { result < length bytes.now → is_in class (slice_index bytes.now result) ≡ wanted }
{
    for (i, b) in bytes.iter().enumerate() {
        if is_in(class, *b) == wanted {
            return i;
        }
    }
    bytes.len()
}

// The index of the first `wanted` byte, or the length if there is none.
pub(crate) fn first_byte(bytes: &[u8], wanted: u8) -> usize
    ensures within { result ≤ length bytes.now }
    ensures passed { (k : ℕ) → k < result → (slice_index bytes.now k == wanted) ≡ false }
    ensures stops { result < length bytes.now → (slice_index bytes.now result == wanted) ≡ true }
{
    match memchr(wanted, bytes) {
        Some(n) => n,
        None => bytes.len(),
    }
}

// The only byte of a class, if the class is one of quotes.
fn quote_of(class: Class) -> Option<u8>
    ensures { IfSome result (λ quote. (x : ℕ) → is_in class x ≡ (x == quote)) }
{
    match class {
        Class::DoubleQuote => Some(b'"'),
        Class::SingleQuote => Some(b'\''),
        _ => None,
    }
}

// The index of the first byte that is in the class, or the length if there is none.
fn first_inside(bytes: &[u8], class: Class) -> usize
    ensures within { result ≤ length bytes.now }
    ensures passed { (k : ℕ) → k < result → is_in class (slice_index bytes.now k) ≡ false }
    ensures stops { result < length bytes.now → is_in class (slice_index bytes.now result) ≡ true }
{
    match quote_of(class) {
        Some(quote) => first_byte(bytes, quote),
        None => first_index(bytes, class, true),
    }
}

/// Returns the text before the first byte of the class, and the text from that byte on.
pub fn cut_at(text: &str, class: Class) -> (&str, &str)
    ensures front { result.0.now ≡ before (is_in class) text.now }
    ensures back { result.1.now ≡ from (is_in class) text.now }
{
    let n = first_inside(text.as_bytes(), class);
    text.split_at(n)
}

/// Returns the text after leading bytes of the class.
pub fn skip(text: &str, class: Class) -> &str
    ensures { result.now ≡ past class text.now }
{
    let n = first_index(text.as_bytes(), class, false);
    let (_, rest) = text.split_at(n);
    rest
}

ghost use Rattle.std.specs.Prelude.{drop};
ghost use Rattle.h5_markup.specs.Cuts.{CutsName};

/// Returns the text before the first byte of the class, and the text after that byte.
pub fn cut_past(text: &str, class: Class) -> (&str, &str)
    ensures front { result.0.now ≡ before (is_in class) text.now }
    ensures back { result.1.now ≡ drop 1 (from (is_in class) text.now) }
{
    let (front, back) = cut_at(text, class);
    // The next split needs the fact that this is text.
    let _bytes = back.as_bytes();
    if back.is_empty() {
        return (front, back);
    }
    let (_, rest) = back.split_at(1);
    (front, rest)
}

/// Returns the first byte with everything up to the next byte of the class, and the text from that byte on. The text must not be empty.
pub fn cut_name(text: &str, class: Class) -> (&str, &str)
    requires { 0 < length text.now }
    ensures { CutsName class text.now result.0.now result.1.now }
{
    let (_, others) = text.as_bytes().split_at(1);
    let n = first_index(others, class, true);
    text.split_at(1 + n)
}
