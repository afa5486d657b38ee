//! Bytes that are text in every state, with their newlines.
ghost use Rattle.std.specs.Prelude.{◌≡◌, ℕ, false, true, ◌<◌, ◌≤◌, length, slice_index, take};
ghost use Rattle.h5_markup.specs.Plain.{is_plain};
ghost use Rattle.h5_tokenizer_input.specs.Lines.{newlines};

use super::lines::few_newlines;
use h5_markup::{are_plain, is_plain};

// Returns the length of a prefix that is text in every state, in blocks of 64 bytes, and its newlines.
fn count_blocks(bytes: &[u8]) -> (usize, u64)
    ensures within { result.0 ≤ length bytes.now }
    ensures plain { (k : ℕ) → k < result.0 → is_plain (slice_index bytes.now k) ≡ true }
    ensures lines { result.1 ≡ newlines false (take result.0 bytes.now) }
{
    let mut n = 0;
    let mut lines: u64 = 0;
    while bytes.len() - n > 63 {
        let (_, rest) = bytes.split_at(n);
        let (block, _) = rest.split_at(64);
        if !are_plain(block) {
            return (n, lines);
        }
        lines += few_newlines(block, false) as u64;
        n += 64;
    }
    (n, lines)
}

// Returns the index of the first byte that isn't text in every state, or the length if there is none, and the number of
// newlines before it.
#[inline(always)]
fn count_bytes(bytes: &[u8]) -> (usize, u64)
    ensures within { result.0 ≤ length bytes.now }
    ensures plain { (k : ℕ) → k < result.0 → is_plain (slice_index bytes.now k) ≡ true }
    ensures stops { result.0 < length bytes.now → is_plain (slice_index bytes.now result.0) ≡ false }
    ensures lines { result.1 ≡ newlines false (take result.0 bytes.now) }
{
    let mut lines: u64 = 0;
    for (i, b) in bytes.iter().enumerate() {
        // Most bytes are letters in lower case, which need no other test.
        if *b <= b']' {
            if !is_plain(*b) {
                return (i, lines);
            }
            if *b == b'\n' {
                lines += 1;
            }
        }
    }
    (bytes.len(), lines)
}

// Does what `count_bytes` does, faster for bytes that are mostly text.
#[inline(never)]
fn count_far(bytes: &[u8]) -> (usize, u64)
    ensures within { result.0 ≤ length bytes.now }
    ensures plain { (k : ℕ) → k < result.0 → is_plain (slice_index bytes.now k) ≡ true }
    ensures stops { result.0 < length bytes.now → is_plain (slice_index bytes.now result.0) ≡ false }
    ensures lines { result.1 ≡ newlines false (take result.0 bytes.now) }
{
    let (n, lines) = count_blocks(bytes);
    let (_, rest) = bytes.split_at(n);
    let (m, others) = count_bytes(rest);
    (n + m, lines + others)
}

// How many bytes are tested one by one, before the others are tested in blocks. Most texts are shorter.
const NEAR: usize = 32;

/// Returns the length of the longest prefix that is text in every state, and its newlines.
pub fn count_plain(text: &str) -> (usize, u64)
    ensures within { result.0 ≤ length text.now }
    ensures plain { (k : ℕ) → k < result.0 → is_plain (slice_index text.now k) ≡ true }
    ensures stops { result.0 < length text.now → is_plain (slice_index text.now result.0) ≡ false }
    ensures lines { result.1 ≡ newlines false (take result.0 text.now) }
{
    let bytes = text.as_bytes();
    let (front, rest) = bytes.split_at(bytes.len().min(NEAR));
    let (n, lines) = count_bytes(front);
    if n < front.len() {
        return (n, lines);
    }
    let (m, others) = count_far(rest);
    (n + m, lines + others)
}
