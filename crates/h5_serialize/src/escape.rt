//! Writes text with its escapes.
//!
//! The text is searched for the bytes at which a character with a reference can begin; the text before is written unchanged. It is searched
//! for `&`, `<` and `>` first, and each segment between these for the others, so that no byte is searched more than twice. A short text is
//! first tested byte by byte, since most short texts need no escape.
ghost use Rattle.std.specs.Prelude.{◌≡◌, ℕ, true, false, ◌<◌, ◌≤◌, ◌+◌, ◌++◌, ◌||◌, List, length, slice_index, OnErr, IfOk, IsOkUnless, MatchOption};
ghost use Rattle.std.specs.Char.{encode_utf8};
ghost use Rattle.std.specs.Io.KnownBytes.{Appends};
ghost use Rattle.memchr.specs.Find.{IsFirstByte, is_byte3};
ghost use Rattle.h5_serialize.specs.Escape.{escape, escape_char};
ghost use Rattle.h5_serialize.specs.Fronts.{AppendsFront, Writes};
ghost use Rattle.h5_serialize.specs.Places.{reference_at, is_candidate, IsPlainBefore, HasNoMarkBefore};

use super::fault::SerializeFault;
use memchr::{memchr, memchr2, memchr3};
use std::io::{ErrorKind, Write};

// Writes the bytes that the writer did not accept at once.
#[inline(never)]
fn write_rest<Wr: Write>(writer: &mut Wr, bytes: &[u8]) -> Result<(), SerializeFault>
    ensures bytes { Writes result (Wr.contents writer.old) (Wr.contents writer.new) bytes.now }
    ensures fault { IsOkUnless result SerializeFault.Write }
{
    let mut rest = bytes;
    for _ in 0..u64::MAX {
        if rest.is_empty() {
            return Ok(());
        }
        match writer.write(rest) {
            Ok(0) => return Err(SerializeFault::Write),
            Ok(n) => rest = &rest[n..],
            Err(error) => {
                if error.kind() != ErrorKind::Interrupted {
                    return Err(SerializeFault::Write);
                }
            }
        }
    }
    Err(SerializeFault::Write)
}

/// Writes bytes. Fails with `Write` if the writer fails; then a prefix of the bytes has been written.
pub fn write_bytes<Wr: Write>(writer: &mut Wr, bytes: &[u8]) -> Result<(), SerializeFault>
    ensures bytes { Writes result (Wr.contents writer.old) (Wr.contents writer.new) bytes.now }
    ensures fault { IsOkUnless result SerializeFault.Write }
{
    if bytes.is_empty() {
        return Ok(());
    }
    // Most writers accept all bytes at once.
    match writer.write(bytes) {
        Ok(0) => Err(SerializeFault::Write),
        Ok(n) if n == bytes.len() => Ok(()),
        Ok(n) => write_rest(writer, &bytes[n..]),
        Err(error) => {
            if error.kind() != ErrorKind::Interrupted {
                return Err(SerializeFault::Write);
            }
            write_rest(writer, bytes)
        }
    }
}

/// Writes a text unescaped. Fails with `Write` if the writer fails; then a prefix of the text has been written.
pub fn write_verbatim<Wr: Write>(writer: &mut Wr, text: &str) -> Result<(), SerializeFault>
    ensures text { Writes result (Wr.contents writer.old) (Wr.contents writer.new) text.now }
    ensures fault { IsOkUnless result SerializeFault.Write }
{
    write_bytes(writer, text.as_bytes())
}

/// Writes three texts. Fails with `Write` if the writer fails; then a prefix of the joined text has been written.
pub fn write_between<Wr: Write>(
    writer: &mut Wr,
    before: &str,
    text: &str,
    after: &str,
) -> Result<(), SerializeFault>
    ensures text { Writes result (Wr.contents writer.old) (Wr.contents writer.new)
        (before.now ++ text.now ++ after.now) }
    ensures fault { IsOkUnless result SerializeFault.Write }
{
    write_verbatim(writer, before)?;
    write_verbatim(writer, text)?;
    write_verbatim(writer, after)
}

// The index of the first `&`, `<` or `>`, or the length.
fn first_mark(bytes: &[u8]) -> usize
    ensures len { result ≤ length bytes.now }
    ensures before { HasNoMarkBefore bytes.now result }
    ensures found { result < length bytes.now → is_byte3 0x26 0x3c 0x3e (slice_index bytes.now result) ≡ true }
{
    match memchr3(b'&', b'<', b'>', bytes) {
        Some(i) => i,
        None => bytes.len(),
    }
}

// The index of the first C2 or, in the attribute mode, `"`.
fn find_candidate(attr_mode: bool, bytes: &[u8]) -> Option<usize>
    ensures { IsFirstByte (is_candidate attr_mode) bytes.now result }
{
    if attr_mode {
        memchr2(b'"', 0xc2, bytes)
    } else {
        memchr(0xc2, bytes)
    }
}

// The index of the first such byte from an index on, or the length.
fn first_candidate(attr_mode: bool, bytes: &[u8], from: usize) -> usize
    requires { from ≤ length bytes.now }
    ensures low { from ≤ result }
    ensures high { result ≤ length bytes.now }
    ensures before { (k : ℕ) → from ≤ k → k < result → is_candidate attr_mode (slice_index bytes.now k) ≡ false }
{
    match find_candidate(attr_mode, &bytes[from..]) {
        Some(i) => from + i,
        None => bytes.len(),
    }
}

// Returns true if a character with a reference begins at an index.
fn is_reference_at(attr_mode: bool, bytes: &[u8], i: usize) -> bool
    requires { i < length bytes.now }
    ensures { result ≡ reference_at attr_mode bytes.now i }
{
    match bytes[i] {
        b'&' | b'<' | b'>' => true,
        b'"' => attr_mode,
        0xc2 => i + 1 < bytes.len() && bytes[i + 1] == 0xa0,
        _ => false,
    }
}

// The index of the first character with a reference in a text without `&`, `<` and `>`, or the length.
fn first_reference(attr_mode: bool, bytes: &[u8]) -> usize
    requires { HasNoMarkBefore bytes.now (length bytes.now) }
    ensures len { result ≤ length bytes.now }
    ensures plain { IsPlainBefore attr_mode bytes.now result }
    ensures found { result < length bytes.now → reference_at attr_mode bytes.now result ≡ true }
{
    let mut from = 0;
    while from < bytes.len() {
        let i = first_candidate(attr_mode, bytes, from);
        if i == bytes.len() || is_reference_at(attr_mode, bytes, i) {
            return i;
        }
        from = i + 1;
    }
    bytes.len()
}

// The reference of a character, if it has one.
fn reference(attr_mode: bool, c: char) -> Option<&'static str>
    ensures { MatchOption result (escape_char attr_mode c ≡ encode_utf8 c)
        (λ s. escape_char attr_mode c ≡ s.now) }
{
    match c {
        '&' => Some("&amp;"),
        '\u{a0}' => Some("&nbsp;"),
        '<' => Some("&lt;"),
        '>' => Some("&gt;"),
        '"' if attr_mode => Some("&quot;"),
        _ => None,
    }
}

// Writes one character with its escape.
fn write_char<Wr: Write>(writer: &mut Wr, attr_mode: bool, c: char) -> Result<(), SerializeFault>
    ensures text { Writes result (Wr.contents writer.old) (Wr.contents writer.new) (escape_char attr_mode c) }
    ensures fault { IsOkUnless result SerializeFault.Write }
{
    match reference(attr_mode, c) {
        Some(text) => write_verbatim(writer, text),
        None => {
            let mut buffer = [0; 4];
            write_verbatim(writer, c.encode_utf8(&mut buffer))
        }
    }
}

// Writes the text up to the first reference, and one more character. The text must have no `&`, `<` and `>`. Returns the remainder, if any.
fn write_front<'a, Wr: Write>(
    writer: &mut Wr,
    attr_mode: bool,
    text: &'a str,
) -> Result<Option<&'a str>, SerializeFault>
    requires { HasNoMarkBefore text.now (length text.now) }
    ensures text { IfOk result (λ left. MatchOption left
        (Appends (Wr.contents writer.old) (Wr.contents writer.new) (escape attr_mode text.now))
        (λ rest. (part : List ℕ) × Appends (Wr.contents writer.old) (Wr.contents writer.new) part
        × (escape attr_mode text.now ≡ part ++ escape attr_mode rest.now) × (length rest.now < length text.now)
        × HasNoMarkBefore rest.now (length rest.now))) }
    ensures front { OnErr result
        (AppendsFront (Wr.contents writer.old) (Wr.contents writer.new) (escape attr_mode text.now)) }
    ensures fault { IsOkUnless result SerializeFault.Write }
{
    let n = first_reference(attr_mode, text.as_bytes());
    let (front, after) = text.split_at(n);
    // No effect at run time: the proof needs the fact that the remainder is text.
    let _tail = after.as_bytes();
    write_verbatim(writer, front)?;
    let mut chars = after.chars();
    match chars.next() {
        None => Ok(None),
        Some(c) => {
            write_char(writer, attr_mode, c)?;
            Ok(Some(chars.as_str()))
        }
    }
}

// Writes a text without `&`, `<` and `>`.
fn write_segment<Wr: Write>(
    writer: &mut Wr,
    attr_mode: bool,
    text: &str,
) -> Result<(), SerializeFault>
    requires { HasNoMarkBefore text.now (length text.now) }
    ensures text { Writes result (Wr.contents writer.old) (Wr.contents writer.new) (escape attr_mode text.now) }
    ensures fault { IsOkUnless result SerializeFault.Write }
{
    let mut rest = text;
    while let Some(after) = write_front(writer, attr_mode, rest)? {
        // No effect at run time: the proof needs the fact that the remainder is text.
        let _bytes = after.as_bytes();
        rest = after;
    }
    Ok(())
}

// Writes the text up to the first `&`, `<` or `>`, and that character. Returns the remainder, if any.
fn write_to_mark<'a, Wr: Write>(
    writer: &mut Wr,
    attr_mode: bool,
    text: &'a str,
) -> Result<Option<&'a str>, SerializeFault>
    ensures text { IfOk result (λ left. MatchOption left
        (Appends (Wr.contents writer.old) (Wr.contents writer.new) (escape attr_mode text.now))
        (λ rest. (part : List ℕ) × Appends (Wr.contents writer.old) (Wr.contents writer.new) part
        × (escape attr_mode text.now ≡ part ++ escape attr_mode rest.now) × (length rest.now < length text.now))) }
    ensures front { OnErr result
        (AppendsFront (Wr.contents writer.old) (Wr.contents writer.new) (escape attr_mode text.now)) }
    ensures fault { IsOkUnless result SerializeFault.Write }
{
    let n = first_mark(text.as_bytes());
    let (front, after) = text.split_at(n);
    // No effect at run time: the proof needs the fact that both parts are text.
    let _head = front.as_bytes();
    let _tail = after.as_bytes();
    write_segment(writer, attr_mode, front)?;
    let mut chars = after.chars();
    match chars.next() {
        None => Ok(None),
        Some(c) => {
            write_char(writer, attr_mode, c)?;
            Ok(Some(chars.as_str()))
        }
    }
}

// Returns true if a character with a reference can begin with this byte.
fn may_begin(attr_mode: bool, b: u8) -> bool
    ensures { result ≡ (is_byte3 0x26 0x3c 0x3e b || is_candidate attr_mode b) }
{
    (b == b'&' || b == b'<' || b == b'>') || ((attr_mode && b == b'"') || b == 0xc2)
}

// The length of the longest prefix in which no byte can begin a character with a reference.
fn plain_len(attr_mode: bool, bytes: &[u8]) -> usize
    ensures len { result ≤ length bytes.now }
    ensures plain { IsPlainBefore attr_mode bytes.now result }
{
    for (i, b) in bytes.iter().enumerate() {
        if may_begin(attr_mode, *b) {
            return i;
        }
    }
    bytes.len()
}

// Returns true only if a text is short and has no escapes. Most texts are like that, and three searches would take longer than a look at
// each byte.
fn is_short_and_plain(attr_mode: bool, text: &str) -> bool
    ensures { result ≡ true → escape attr_mode text.now ≡ text.now }
{
    text.len() < 64 && plain_len(attr_mode, text.as_bytes()) == text.len()
}

/// Writes a text with its escapes. Fails with `Write` if the writer fails; then a prefix of the escaped text has been written.
pub fn write_escaped<Wr: Write>(
    writer: &mut Wr,
    text: &str,
    attr_mode: bool,
) -> Result<(), SerializeFault>
    ensures text { Writes result (Wr.contents writer.old) (Wr.contents writer.new) (escape attr_mode text.now) }
    ensures fault { IsOkUnless result SerializeFault.Write }
{
    if is_short_and_plain(attr_mode, text) {
        return write_verbatim(writer, text);
    }
    let mut rest = text;
    while let Some(after) = write_to_mark(writer, attr_mode, rest)? {
        // No effect at run time: the proof needs the fact that the remainder is text.
        let _bytes = after.as_bytes();
        rest = after;
    }
    Ok(())
}
