//! The numbers of items.
ghost use Rattle.std.specs.Prelude.{◌≡◌, ◌++◌, IfOk, OnOk, string_bytes};
ghost use Rattle.h5_page.specs.Numbers as n;

use std::alloc::{AllocError, Global};
use std::fmt::Write;

/// The number of an item: `size`, or its negative if `is_below`.
#[derive(Clone, Copy, Debug)]
pub struct ItemNumber {
    pub size: usize,
    pub is_below: bool,
}

// The largest size.
const LIMIT: usize = 1_000_000_000;

/// Returns the size plus 1, up to the limit.
pub fn one_more(size: usize) -> usize
    ensures { result ≡ n.one_more size }
{
    if size < LIMIT { size + 1 } else { LIMIT }
}

// Appends a digit to a size, up to the limit.
fn with_digit(size: usize, digit: u8) -> usize
    ensures { result ≡ n.with_digit size digit }
{
    if size < LIMIT && digit >= b'0' {
        size * 10 + (digit - b'0') as usize
    } else {
        LIMIT
    }
}

// Returns the value of the digits at the start of a text.
fn digits_in(text: &[u8]) -> usize
    ensures { result ≡ n.digits_in 0 text.now }
{
    let mut size = 0;
    for byte in text {
        if !byte.is_ascii_digit() {
            return size;
        }
        size = with_digit(size, *byte);
    }
    size
}

impl ItemNumber {
    /// Returns 1, the first number by default.
    pub fn one() -> ItemNumber
        ensures { result ≡ n.one }
    {
        ItemNumber {
            size: 1,
            is_below: false,
        }
    }

    /// Returns the first number of a list with `count` items: 1, or `count` if the numbers are reversed.
    pub fn first(count: usize, falls: bool) -> ItemNumber
        ensures { result ≡ n.first count falls }
    {
        if falls {
            ItemNumber {
                size: count,
                is_below: false,
            }
        } else {
            ItemNumber::one()
        }
    }

    /// Returns the next number, which is smaller if the numbers are reversed.
    pub fn next(self, falls: bool) -> ItemNumber
        ensures { result ≡ n.next falls self }
    {
        let grows = if falls { self.is_below } else { !self.is_below };
        if grows {
            ItemNumber {
                size: one_more(self.size),
                is_below: self.is_below,
            }
        } else if self.size == 0 {
            ItemNumber {
                size: 1,
                is_below: falls,
            }
        } else {
            ItemNumber {
                size: self.size - 1,
                is_below: self.is_below,
            }
        }
    }

    /// Returns the mark of an item with this number. Fails with `AllocError` if an allocation fails.
    pub fn mark(self, alloc: Global) -> Result<String, AllocError>
        ensures { IfOk result (λ mark. string_bytes mark ≡ n.mark_of self) }
    {
        let mut mark = String::new(alloc);
        if self.is_below && self.size > 0 {
            mark.push('-')?;
        }
        let size = self.size;
        write!(mark, "{size}.")?;
        Ok(mark)
    }
}

// Parses a number without a sign.
fn unsigned(text: &[u8], is_below: bool) -> Option<ItemNumber>
    ensures { result ≡ n.unsigned is_below text.now }
{
    match text {
        [first, ..] if first.is_ascii_digit() => Some(ItemNumber {
            size: digits_in(text),
            is_below,
        }),
        _ => None,
    }
}

/// Returns the number that a value begins with (HTML standard, section 2.3.4.1, "Signed integers"), if there is one.
pub fn number_in(text: &str) -> Option<ItemNumber>
    ensures { result ≡ n.number_in text.now }
{
    match text.as_bytes() {
        [b'-', digits @ ..] => unsigned(digits, true),
        [b'+', digits @ ..] => unsigned(digits, false),
        digits => unsigned(digits, false),
    }
}
