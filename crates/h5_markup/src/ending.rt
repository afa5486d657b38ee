//! Finds the end of a comment, a doctype or a tag.
ghost use Rattle.std.specs.Prelude.{◌≡◌, ◌<◌, ◌≤◌, Some, true, length, take, slice_index};
ghost use Rattle.h5_markup.specs.Ending.{may_end, ends, named, next, walk};

use super::cut::{Class, first_byte, first_index};
use super::quoted::passed_len;

/// The state at a byte of a comment, a doctype or a tag, by the names of the standard's states (HTML standard, sections 13.2.5.6 to
/// 13.2.5.54).
#[derive(Clone, Copy, Debug, PartialEq, Eq)]
pub enum Inside {
    Comment,
    CommentEndDash,
    CommentEnd,
    Doctype,
    TagName,
    BeforeAttributeName,
    AttributeName,
    AfterAttributeName,
    BeforeAttributeValue,
    AttributeValueDoubleQuoted,
    AttributeValueSingleQuoted,
    AttributeValueUnquoted,
}

fn may_end(place: Inside) -> bool
    ensures { result ≡ may_end place }
{
    match place {
        Inside::Comment => false,
        Inside::CommentEndDash => false,
        Inside::AttributeValueDoubleQuoted => false,
        Inside::AttributeValueSingleQuoted => false,
        _ => true,
    }
}

fn ends(place: Inside, b: u8) -> bool
    ensures { result ≡ ends place b }
{
    b == b'>' && may_end(place)
}

fn named(b: u8) -> Inside
    ensures { result ≡ named b }
{
    if b.is_ascii_whitespace() {
        Inside::AfterAttributeName
    } else if b == b'/' {
        Inside::BeforeAttributeName
    } else if b == b'=' {
        Inside::BeforeAttributeValue
    } else {
        Inside::AttributeName
    }
}

fn next(place: Inside, b: u8) -> Inside
    ensures { result ≡ next place b }
{
    match place {
        Inside::Comment => choose(b == b'-', Inside::CommentEndDash, Inside::Comment),
        Inside::CommentEndDash => choose(b == b'-', Inside::CommentEnd, Inside::Comment),
        Inside::CommentEnd => choose(b == b'-', Inside::CommentEnd, Inside::Comment),
        Inside::Doctype => Inside::Doctype,
        Inside::TagName => choose(
            b.is_ascii_whitespace() || b == b'/',
            Inside::BeforeAttributeName,
            Inside::TagName,
        ),
        Inside::BeforeAttributeName => choose(
            b.is_ascii_whitespace() || b == b'/',
            Inside::BeforeAttributeName,
            Inside::AttributeName,
        ),
        Inside::AttributeName => named(b),
        Inside::AfterAttributeName => named(b),
        Inside::BeforeAttributeValue => begun_value(b),
        Inside::AttributeValueDoubleQuoted => choose(b == b'"', Inside::BeforeAttributeName, place),
        Inside::AttributeValueSingleQuoted => {
            choose(b == b'\'', Inside::BeforeAttributeName, place)
        }
        Inside::AttributeValueUnquoted => {
            choose(b.is_ascii_whitespace(), Inside::BeforeAttributeName, place)
        }
    }
}

fn begun_value(b: u8) -> Inside
    ensures { result ≡ next Inside.BeforeAttributeValue b }
{
    if b.is_ascii_whitespace() {
        Inside::BeforeAttributeValue
    } else if b == b'"' {
        Inside::AttributeValueDoubleQuoted
    } else if b == b'\'' {
        Inside::AttributeValueSingleQuoted
    } else {
        Inside::AttributeValueUnquoted
    }
}

ghost use Rattle.std.specs.Prelude.{cond};

fn choose(test: bool, yes: Inside, no: Inside) -> Inside
    ensures { result ≡ cond test yes no }
{
    if test { yes } else { no }
}

// A number of bytes that don't change the state, and that can be passed at once.
fn unmoved(bytes: &[u8], place: Inside) -> usize
    ensures within { result ≤ length bytes.now }
    ensures walked { walk place (take result bytes.now) ≡ Some place }
{
    match place {
        Inside::Comment => first_byte(bytes, b'-'),
        Inside::Doctype => first_byte(bytes, b'>'),
        Inside::TagName => first_index(bytes, Class::NameEnd, true),
        Inside::BeforeAttributeName => passed_len(bytes),
        Inside::AttributeName => first_index(bytes, Class::AttributeNameEnd, true),
        Inside::AttributeValueDoubleQuoted => first_byte(bytes, b'"'),
        Inside::AttributeValueSingleQuoted => first_byte(bytes, b'\''),
        Inside::AttributeValueUnquoted => first_index(bytes, Class::ValueEnd, true),
        _ => 0,
    }
}

// Returns the index of the `>` that ends a comment, a doctype or a tag, or the length if there is none, and the state at that index. The
// bytes begin in the state `place`.
fn find_end(bytes: &[u8], place: Inside) -> (usize, Inside)
    ensures within { result.0 ≤ length bytes.now }
    ensures walked { walk place (take result.0 bytes.now) ≡ Some result.1 }
    ensures ended { result.0 < length bytes.now → ends result.1 (slice_index bytes.now result.0) ≡ true }
{
    let mut now = place;
    let mut n = 0;
    while n < bytes.len() {
        let (_, unread) = bytes.split_at(n);
        n += unmoved(unread, now);
        if n == bytes.len() || ends(now, bytes[n]) {
            return (n, now);
        }
        now = next(now, bytes[n]);
        n += 1;
    }
    (n, now)
}

ghost use Rattle.h5_markup.specs.Sought.{EndsAs};

/// The result of a search for the end.
#[derive(Drop)]
pub enum Sought<'a> {
    /// The text before the `>`, the text after it, and the state at the `>`.
    End(&'a str, &'a str, Inside),
    /// The text has no end so far; the state at the next byte.
    Open(Inside),
}

/// Looks for the `>` that ends a comment, a doctype or a tag, in the text after its opening. The first `from` bytes must have been read
/// before and have led to the state `place`.
#[inline(always)]
pub fn seek_end(text: &str, from: usize, place: Inside) -> Sought<'_>
    requires { from ≤ length text.now }
    ensures { (start : Inside) → walk start (take from text.now) ≡ Some place → EndsAs result start text.now }
{
    let bytes = text.as_bytes();
    let (_, unread) = bytes.split_at(from);
    let (n, now) = find_end(unread, place);
    if n == unread.len() {
        return Sought::Open(now);
    }
    let (inner, behind) = text.split_at(from + n);
    let (_, rest) = behind.split_at(1);
    Sought::End(inner, rest, now)
}
