//! Text, up to what isn't plain text.
ghost use Rattle.std.specs.Prelude.{◌≡◌, List, [], ℕ, Bool, true, IfOk, IfSome, ◌<◌, ◌≤◌, length};
ghost use Rattle.std.specs.String.{string_bytes};
ghost use Rattle.std.specs.Option.{option_copied};
ghost use Rattle.h5_markup.specs.Matching as m;
ghost use Rattle.h5_markup.specs.MatchOf.{match_of};
ghost use Rattle.h5_tokenizer_input.specs.Lines.{newlines_passed};
ghost use Rattle.h5_plain_tokenizer.specs.Front.{opening};
ghost use Rattle.h5_plain_tokenizer.specs.Openings.{opening_of};
ghost use Rattle.h5_plain_tokenizer.specs.Steps.{TakesBits, TakesSome, TakesMany};

use super::front::{Mode, Opening, find_opening};
use h5_markup::{Match, plain_len};
use h5_tokenizer_input::count_plain;
use memchr::memchr;
use std::alloc::{AllocError, Global};

/// Takes text where nothing else begins: all that is plain, or one byte that might have begun something. The text must not be
/// empty.
#[inline(always)]
pub fn take_plain<'a>(text: &'a str, out: &mut String) -> Result<&'a str, AllocError>
    requires { 0 < length text.now }
    ensures { IfOk result (λ rest. (mode : Mode) (last : List ℕ) (foreign : Bool) → opening mode last foreign text.now ≡ m.No
        → TakesBits mode last foreign text.now rest.now (string_bytes out.old) (string_bytes out.new)) }
{
    let n = plain_len(text).max(1);
    let (front, rest) = text.split_at(n);
    out.push_str(front)?;
    Ok(rest)
}

/// Plain text, and what follows it.
#[derive(Clone, Copy)]
pub struct Plain<'a> {
    pub front: &'a str,
    pub after: &'a str,
    /// The number of newlines in the plain text.
    pub lines: u64,
}

/// Splits a text after the plain text at its start, if there is any.
#[inline(always)]
pub fn cut_plain<'a>(text: &'a str) -> Option<Plain<'a>>
    ensures begins { IfSome result (λ plain. (mode : Mode) (last : List ℕ) (foreign : Bool)
        → TakesBits mode last foreign text.now plain.after.now [] plain.front.now) }
    ensures lines { IfSome result (λ plain. plain.lines ≡ newlines_passed text.now plain.after.now) }
{
    let (n, lines) = count_plain(text);
    if n == 0 {
        return None;
    }
    let (front, after) = text.split_at(n);
    Some(Plain {
        front,
        after,
        lines,
    })
}

// How many bytes of the text are searched for the next tag.
const AHEAD: usize = 1024;

// Returns the number of bytes before the next tag, as far as it is searched for.
fn length_ahead(text: &str) -> usize
    ensures { result ≤ 1024 }
{
    let bytes = text.as_bytes();
    let near = &bytes[..bytes.len().min(AHEAD)];
    match memchr(b'<', near) {
        Some(i) => i,
        None => near.len(),
    }
}

/// Returns a text that begins with `front`, with room for what comes before the next tag, since that mostly belongs to the
/// text.
pub fn begin_long(alloc: Global, front: &str, after: &str) -> Result<String, AllocError>
    ensures { IfOk result (λ text. string_bytes text ≡ front.now) }
{
    let mut text = String::with_capacity(alloc, front.len() + length_ahead(after))?;
    text.push_str(front)?;
    Ok(text)
}

/// Returns a text that begins with `front`. If a reference follows, it will continue the text.
#[inline(always)]
pub fn begin_text(alloc: Global, front: &str, after: &str) -> Result<String, AllocError>
    ensures { IfOk result (λ text. string_bytes text ≡ front.now) }
{
    match after.as_bytes() {
        [b'&', ..] => begin_long(alloc, front, after),
        _ => String::from_str(alloc, front),
    }
}

// Takes text if the search found nothing but text.
fn take_bit<'a>(
    found: Match<'a, Opening>,
    text: &'a str,
    out: &mut String,
) -> Result<Option<&'a str>, AllocError>
    ensures { IfOk result (λ rest. (mode : Mode) (last : List ℕ) (foreign : Bool) → opening mode last foreign text.now ≡ match_of opening_of found.entry
        → TakesSome mode last foreign text.now (option_copied rest) (string_bytes out.old) (string_bytes out.new)) }
{
    match found {
        Match::Found(Opening::Gives(bit), rest) => {
            out.push_str(bit)?;
            Ok(Some(rest))
        }
        Match::No => {
            if text.is_empty() {
                return Ok(None);
            }
            Ok(Some(take_plain(text, out)?))
        }
        _ => Ok(None),
    }
}

// Returns true if a tag begins here in the data state. Most texts end this way, and then nothing else is tested.
fn is_at_tag(mode: Mode, text: &str) -> bool {
    match text.as_bytes() {
        [b'<', b'/', b, ..] | [b'<', b, ..] => mode == Mode::Data && b.is_ascii_alphabetic(),
        _ => false,
    }
}

// Takes a part of text, if there is one.
#[inline(always)]
fn take_some<'a>(
    mode: Mode,
    last: &str,
    text: &'a str,
    out: &mut String,
) -> Result<Option<&'a str>, AllocError>
    ensures { IfOk result (λ rest. TakesSome mode last.now true text.now (option_copied rest)
        (string_bytes out.old) (string_bytes out.new)) }
{
    if is_at_tag(mode, text) {
        return Ok(None);
    }
    take_bit(find_opening(mode, last, true, text), text, out)
}

/// Takes all the text there is.
#[inline(always)]
pub fn take_texts<'a>(
    mode: Mode,
    last: &str,
    text: &'a str,
    out: &mut String,
) -> Result<&'a str, AllocError>
    ensures { IfOk result (λ rest. TakesMany mode last.now text.now rest.now
        (string_bytes out.old) (string_bytes out.new)) }
{
    let mut rest = text;
    while let Some(after) = take_some(mode, last, rest, out)? {
        // For the loop's next turn: `after` is UTF-8.
        let _bytes = after.as_bytes();
        rest = after;
    }
    Ok(rest)
}
