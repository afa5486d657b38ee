//! Newlines and lines. CR LF, CR and LF are one newline each.
ghost use Rattle.std.specs.Prelude.{◌≡◌, ◌<◌, ◌≤◌, ℕ, false, length, slice_index};
ghost use Rattle.h5_tokenizer_input.specs.Lines.{line_behind, newlines, newlines_passed};

/// Counts the newlines of fewer than 256 bytes, after a CR if `behind_cr`.
pub fn few_newlines(bytes: &[u8], behind_cr: bool) -> u8
    requires { length bytes.now < 256 }
    ensures { result ≡ newlines behind_cr bytes.now }
{
    let mut count: u8 = 0;
    let mut after_cr = behind_cr;
    for b in bytes {
        if *b == b'\r' || (*b == b'\n' && !after_cr) {
            count += 1;
        }
        after_cr = *b == b'\r';
    }
    count
}

// Returns the index of the first byte that may be a newline, or the length if there is none.
fn first_low(bytes: &[u8]) -> usize
    ensures within { result ≤ length bytes.now }
    ensures passed { (k : ℕ) → k < result → 13 < slice_index bytes.now k }
{
    for (i, b) in bytes.iter().enumerate() {
        if *b <= b'\r' {
            return i;
        }
    }
    bytes.len()
}

// Counts newlines like `few_newlines`, faster for bytes that have few.
fn rare_newlines(bytes: &[u8], behind_cr: bool) -> u8
    requires { length bytes.now < 256 }
    ensures { result ≡ newlines behind_cr bytes.now }
{
    if behind_cr {
        return few_newlines(bytes, true);
    }
    let (_, rest) = bytes.split_at(first_low(bytes));
    few_newlines(rest, false)
}

// Counts the newlines of bytes.
#[inline(never)]
fn newlines(bytes: &[u8]) -> u64
    ensures { result ≡ newlines false bytes.now }
{
    let mut count: u64 = 0;
    let mut after_cr = false;
    let mut rest = bytes;
    while rest.len() > 63 {
        let (front, back) = rest.split_at(64);
        count += few_newlines(front, after_cr) as u64;
        after_cr = rest[63] == b'\r';
        rest = back;
    }
    count + rare_newlines(rest, after_cr) as u64
}

/// Counts the newlines of the part of a text that is before its suffix `rest`. `rest` must not be longer than the text.
#[inline(always)]
pub fn newlines_passed(text: &str, rest: &str) -> u64
    requires { length rest.now ≤ length text.now }
    ensures { result ≡ newlines_passed text.now rest.now }
{
    let n = text.len() - rest.len();
    if n == 0 {
        return 0;
    }
    newlines(&text.as_bytes()[..n])
}

/// Returns the line that `rest` begins in, of a text that begins in the given line. The count stops at the maximum of `u64`.
/// `rest` must not be longer than the text.
pub fn line_behind(line: u64, text: &str, rest: &str) -> u64
    requires { length rest.now ≤ length text.now }
    ensures { result ≡ line_behind line text.now rest.now }
{
    line.saturating_add(newlines_passed(text, rest))
}
