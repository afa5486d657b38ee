//! A decoder of UTF-8 bytes that come in chunks.
ghost use Rattle.std.specs.Prelude.{◌≡◌, ◌++◌, ◌<◌, ◌≤◌, ℕ, List, [], length, drop, string_bytes, IfOk, OnErr, MatchOption};
ghost use Rattle.std.specs.Str.{IsUtf8, StartsWithNoChar};
ghost use Rattle.std.specs.Str.Lossy.{utf8_error_len, utf8_lossy};
ghost use Rattle.h5_tokenizer_input.specs.Decoding.{Appends, IsDecoded, IsUnfinished};

use std::alloc::{AllocError, Global};
use std::marker::Model;

// Splits bytes after their longest prefix that is UTF-8.
fn split_text(bytes: &[u8]) -> (&str, &[u8])
    ensures parts { result.0.now ++ result.1.now ≡ bytes.now }
    ensures text { IsUtf8 result.0.now }
    ensures rest { StartsWithNoChar result.1.now }
{
    match bytes.utf8_chunks().next() {
        Some(chunk) => {
            let text = chunk.valid();
            let (_, rest) = bytes.split_at(text.len());
            (text, rest)
        }
        None => ("", bytes),
    }
}

// Returns how many bytes one U+FFFD replaces, or `None` if the bytes that follow decide that.
fn error_len(bytes: &[u8]) -> Option<usize>
    requires { StartsWithNoChar bytes.now }
    ensures value { result ≡ utf8_error_len bytes.now }
    ensures within { MatchOption result (Unit {0}) (λ size. (0 < size) × (size ≤ length bytes.now)) }
{
    match str::from_utf8(bytes) {
        Ok(_) => None,
        Err(error) => error.error_len(),
    }
}

// Appends the text of the bytes as far as it is decided. Returns how many bytes that took.
fn push_text(text: &mut String, bytes: &[u8]) -> Result<usize, AllocError>
    ensures within { IfOk result (λ taken. taken ≤ length bytes.now) }
    ensures appends { IfOk result (λ taken. Appends bytes.now (drop taken bytes.now) (string_bytes text.old) (string_bytes text.new)) }
    ensures unfinished { IfOk result (λ taken. IsUnfinished (drop taken bytes.now)) }
{
    let mut taken = 0;
    'errors: loop {
        let (front, rest) = split_text(&bytes[taken..]);
        text.push_str(front)?;
        taken += front.len();
        match error_len(rest) {
            Some(size) => {
                text.push('\u{FFFD}')?;
                taken += size;
            }
            None => return Ok(taken),
        }
    }
}

// Appends the text of an unfinished character, with as many of the bytes as it takes to decide that text, and returns the
// remaining bytes. If there are too few, none remain, and the character is still unfinished.
fn push_front<'a>(
    text: &mut String,
    unfinished: &mut Vec<u8>,
    bytes: &'a [u8],
) -> Result<&'a [u8], AllocError>
    requires { IsUnfinished unfinished.old.items }
    ensures appends { IfOk result (λ rest. Appends (unfinished.old.items ++ bytes.now) (unfinished.new.items ++ rest.now) (string_bytes text.old) (string_bytes text.new)) }
    ensures unfinished { IfOk result (λ _. IsUnfinished unfinished.new.items) }
    ensures decided { IfOk result (λ rest. 0 < length unfinished.new.items → rest.now ≡ []) }
{
    let mut rest = bytes;
    'bytes: while !unfinished.is_empty() {
        let Some((byte, more)) = rest.split_first() else {
            return Ok(rest);
        };
        unfinished.push(*byte)?;
        rest = more;
        let taken = push_text(text, unfinished.as_slice())?;
        unfinished.drain(..taken);
    }
    Ok(rest)
}

/// A decoder of UTF-8 bytes that come in chunks, like tendril's `Utf8LossyDecoder`. U+FFFD replaces each error: a longest run
/// of bytes that begin a character but don't finish it, or else one byte (Encoding Standard, "UTF-8 decode without BOM";
/// Unicode, "U+FFFD Substitution of Maximal Subparts"). A byte order mark is decoded like any other character.
///
/// It stores the bytes of an unfinished character, which are at most three. Contracts see it as these bytes.
#[derive(Drop)]
pub struct Utf8LossyDecoder {
    unfinished: Vec<u8>,
    alloc: Global,
}

impl Model for Utf8LossyDecoder {
    ghost use Rattle.std.specs.Prelude.{ℕ, List};
    ghost use Rattle.h5_tokenizer_input.specs.Decoding.{IsUnfinished};

    ghost Value = { List ℕ };

    ghost view = { λ decoder. decoder.unfinished.items };

    ghost invariant = { λ decoder. IsUnfinished decoder.unfinished.items };
}

impl Utf8LossyDecoder {
    /// Returns a new decoder. Allocates nothing.
    pub fn new(alloc: Global) -> Utf8LossyDecoder
        ensures { result ≡ [] }
    {
        Utf8LossyDecoder {
            unfinished: Vec::new(alloc),
            alloc,
        }
    }

    /// Decodes the next bytes, as far as their text is decided. If this fails, nothing changes.
    pub fn decode(&mut self, bytes: &[u8]) -> Result<String, AllocError>
        ensures decoded { IfOk result (λ text. IsDecoded (self.old ++ bytes.now) (string_bytes text) self.new) }
        ensures same { OnErr result (self.new ≡ self.old) }
    {
        let mut text = String::with_capacity(self.alloc, bytes.len())?;
        let mut unfinished = Vec::from_slice(self.alloc, self.unfinished.as_slice())?;
        let rest = push_front(&mut text, &mut unfinished, bytes)?;
        if unfinished.is_empty() {
            let taken = push_text(&mut text, rest)?;
            unfinished = Vec::from_slice(self.alloc, &rest[taken..])?;
        }
        self.unfinished = unfinished;
        Ok(text)
    }

    /// Returns the text of what is left at the end: U+FFFD for an unfinished character, else the empty text.
    pub fn finish(self) -> &'static str
        ensures { result.now ≡ utf8_lossy self }
    {
        if self.unfinished.is_empty() {
            ""
        } else {
            "\u{FFFD}"
        }
    }
}
