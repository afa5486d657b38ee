//! Text that means itself.
ghost use Rattle.std.specs.Prelude.{◌≡◌, ℕ, true, false, ◌<◌, ◌≤◌, length, slice_index};
ghost use Rattle.h5_markup.specs.Plain.{is_plain};

/// Returns true if a byte is text in every state: it begins no tag, no character reference and no end of a CDATA section, and it isn't
/// replaced (HTML standard, section 13.2.5, "Tokenization").
pub fn is_plain(b: u8) -> bool
    ensures { result ≡ is_plain b }
{
    b > b']' || !(b == b'<' || b == b'&' || b == b'\r' || b == 0 || b == b']')
}

/// Returns true only if each of fewer than 256 bytes is text in every state. The loop doesn't end early, so that several bytes are compared
/// at once; a byte can count them.
#[inline(always)]
pub fn are_plain(bytes: &[u8]) -> bool
    requires { length bytes.now < 256 }
    ensures { result ≡ true → (k : ℕ) → k < length bytes.now → is_plain (slice_index bytes.now k) ≡ true }
{
    let mut others: u8 = 0;
    for b in bytes {
        if !is_plain(*b) {
            others += 1;
        }
    }
    others == 0
}

// The length of a prefix of plain bytes, in blocks of 64.
fn plain_blocks(bytes: &[u8]) -> usize
    ensures within { result ≤ length bytes.now }
    ensures plain { (k : ℕ) → k < result → is_plain (slice_index bytes.now k) ≡ true }
{
    let mut n = 0;
    while bytes.len() - n > 63 {
        let (_, rest) = bytes.split_at(n);
        let (block, _) = rest.split_at(64);
        if !are_plain(block) {
            return n;
        }
        n += 64;
    }
    n
}

// The index of the first byte that isn't plain, or the length if all are.
fn first_other(bytes: &[u8]) -> usize
    ensures within { result ≤ length bytes.now }
    ensures plain { (k : ℕ) → k < result → is_plain (slice_index bytes.now k) ≡ true }
    ensures stops { result < length bytes.now → is_plain (slice_index bytes.now result) ≡ false }
{
    for (i, b) in bytes.iter().enumerate() {
        if !is_plain(*b) {
            return i;
        }
    }
    bytes.len()
}

/// The length of the longest prefix of bytes that are text in every state: none of them begins a tag, a character reference or the end of a
/// CDATA section, or is replaced (HTML standard, section 13.2.5, "Tokenization").
pub fn plain_len(text: &str) -> usize
    ensures within { result ≤ length text.now }
    ensures plain { (k : ℕ) → k < result → is_plain (slice_index text.now k) ≡ true }
    ensures stops { result < length text.now → is_plain (slice_index text.now result) ≡ false }
{
    let bytes = text.as_bytes();
    let n = plain_blocks(bytes);
    let (_, rest) = bytes.split_at(n);
    n + first_other(rest)
}
