//! Splitting bytes at a byte of some class.
ghost use Rattle.std.specs.Prelude.{◌≡◌, ℕ, ◌<◌, ◌≤◌, drop, length, not, option_map, slice_index};
ghost use Rattle.h5_markup.specs.Cuts.{before, from};
ghost use Rattle.h5_encodings.specs.Cuts.{begins, begins_in, behind, is_in, past};

/// Classes of bytes that end or separate what the prescan reads.
#[derive(Clone, Copy, Debug, PartialEq, Eq)]
pub enum Class {
    /// ASCII whitespace: TAB, LF, FF, CR and SPACE.
    Blank,
    /// ASCII whitespace or `/`.
    BetweenAttributes,
    /// ASCII whitespace, `/`, `>` or `=`.
    NameEnd,
    /// ASCII whitespace or `>`.
    ValueEnd,
    /// A byte up to SPACE.
    UpToSpace,
    Letter,
    Byte(u8),
}

fn is_in(class: Class, byte: u8) -> bool
    ensures { result ≡ is_in class byte }
{
    match class {
        Class::Blank => byte.is_ascii_whitespace(),
        Class::BetweenAttributes => byte == b'/' || byte.is_ascii_whitespace(),
        Class::NameEnd => {
            byte == b'=' || (byte == b'>' || (byte == b'/' || byte.is_ascii_whitespace()))
        }
        Class::ValueEnd => byte == b'>' || byte.is_ascii_whitespace(),
        Class::UpToSpace => byte <= b' ',
        Class::Letter => byte.is_ascii_alphabetic(),
        Class::Byte(wanted) => byte == wanted,
    }
}

// Returns the index of the first byte that is in the class, or of the first that isn't. Returns the length if there is none.
fn first_index(bytes: &[u8], class: Class, wanted: bool) -> usize
    ensures within { result ≤ length bytes.now }
    ensures passed { (k : ℕ) → k < result → is_in class (slice_index bytes.now k) ≡ not wanted }
    ensures stops { result < length bytes.now → is_in class (slice_index bytes.now result) ≡ wanted }
{
    for (i, b) in bytes.iter().enumerate() {
        if is_in(class, *b) == wanted {
            return i;
        }
    }
    bytes.len()
}

/// Splits bytes before the first one of the class.
pub fn cut_at(bytes: &[u8], class: Class) -> (&[u8], &[u8])
    ensures front { result.0.now ≡ before (is_in class) bytes.now }
    ensures back { result.1.now ≡ from (is_in class) bytes.now }
{
    let n = first_index(bytes, class, true);
    bytes.split_at(n)
}

/// Skips the bytes of the class at the start.
pub fn skip(bytes: &[u8], class: Class) -> &[u8]
    ensures { result.now ≡ past class bytes.now }
{
    let n = first_index(bytes, class, false);
    let (_, rest) = bytes.split_at(n);
    rest
}

/// Returns true if the bytes begin with the word.
pub fn begins(bytes: &[u8], word: &[u8]) -> bool
    ensures { result ≡ begins word.now bytes.now }
{
    bytes.starts_with(word)
}

/// Returns what follows the first `count` bytes.
pub fn after(bytes: &[u8], count: usize) -> &[u8]
    ensures { result.now ≡ drop count bytes.now }
{
    if count <= bytes.len() {
        let (_, rest) = bytes.split_at(count);
        rest
    } else {
        &[]
    }
}

/// Returns true if there is a first byte, and it is of the class.
pub fn begins_in(bytes: &[u8], class: Class) -> bool
    ensures { result ≡ begins_in class bytes.now }
{
    match bytes.split_first() {
        Some((first, _)) => is_in(class, *first),
        None => false,
    }
}

/// Returns what follows the first occurrence of the word, if it occurs.
pub fn behind<'a>(bytes: &'a [u8], word: &[u8]) -> Option<&'a [u8]>
    ensures { option_map (λ rest. rest.now) result ≡ behind word.now bytes.now }
{
    let mut unread = bytes;
    while let Some((_, more)) = unread.split_first() {
        if unread.starts_with(word) {
            let (_, rest) = unread.split_at(word.len());
            return Some(rest);
        }
        unread = more;
    }
    None
}
