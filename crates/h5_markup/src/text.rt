//! Replacements in a text, and the meaning of whole texts.
ghost use Rattle.std.specs.Prelude.{◌≡◌};
ghost use Rattle.h5_markup.specs.MatchOf.{match_of};
ghost use Rattle.h5_markup.specs.Text as t;

use super::matches::Match;
use super::needle::literal;
use super::plain::plain_len;
use std::alloc::{AllocError, Global};

fn gives<'a>(bytes: &'static str, found: Match<'a, ()>) -> Match<'a, &'static str>
    ensures { match_of (λ text. text.now) result ≡ t.gives bytes.entry.now (match_of {B = Unit {0}} (λ _. tt) found.entry) }
{
    match found {
        Match::Open => Match::Open,
        Match::No => Match::No,
        Match::Found(_, rest) => Match::Found(bytes, rest),
    }
}

/// One of the five character references that are supported, at the start of a text: its character, and the text after it. `Open` if what
/// follows decides (HTML standard, section 13.2.5.73, "Named character reference state").
pub fn reference<'a>(text: &'a str) -> Match<'a, &'static str>
    ensures { match_of (λ text. text.now) result ≡ t.reference text.now }
{
    match text.as_bytes() {
        [] => Match::Open,
        [b'&'] => Match::Open,
        [b'&', b'a', ..] => gives("&", literal(text, "&amp;")),
        [b'&', b'l', ..] => gives("<", literal(text, "&lt;")),
        [b'&', b'g', ..] => gives(">", literal(text, "&gt;")),
        [b'&', b'q', ..] => gives("\"", literal(text, "&quot;")),
        [b'&', b'n', ..] => gives("\u{a0}", literal(text, "&nbsp;")),
        _ => Match::No,
    }
}

/// CR LF or CR at the start of a text, which become LF, and the text after it. A CR at the end is `Open` (HTML standard, section 13.2.3.5,
/// "Preprocessing the input stream").
pub fn newline<'a>(text: &'a str) -> Match<'a, &'static str>
    ensures { match_of (λ text. text.now) result ≡ t.newline text.now }
{
    match gives("\n", literal(text, "\r\n")) {
        Match::No => gives("\n", literal(text, "\r")),
        found => found,
    }
}

/// A newline at the start of a text, or a NUL, which becomes U+FFFD, and the text after it. A CR at the end is `Open` (HTML standard,
/// section 13.2.5, "Tokenization").
pub fn cleaned<'a>(text: &'a str) -> Match<'a, &'static str>
    ensures { match_of (λ text. text.now) result ≡ t.cleaned text.now }
{
    match text.as_bytes() {
        [] => Match::Open,
        [b'\r', ..] => newline(text),
        [0, ..] => gives("\u{fffd}", literal(text, "\0")),
        _ => Match::No,
    }
}

/// The replacement at the start of a text: of a newline, a NUL or, with `references`, a character reference. `Open` if what follows decides
/// (HTML standard, section 13.2.5, "Tokenization").
pub fn escape<'a>(references: bool, text: &'a str) -> Match<'a, &'static str>
    ensures { match_of (λ text. text.now) result ≡ t.escape references text.now }
{
    if !references {
        return cleaned(text);
    }
    match text.as_bytes() {
        [b'&', ..] => reference(text),
        _ => cleaned(text),
    }
}

ghost use Rattle.std.specs.Prelude.{IfOk, Bool, length, ◌<◌, ℕ};
ghost use Rattle.std.specs.String.{string_bytes};
ghost use Rattle.h5_markup.specs.Text.{ReadsBit, IsPlainAt};

// Reads plain bytes, or a byte that might have begun something.
fn read_plain<'a>(text: &'a str, out: &mut String) -> Result<&'a str, AllocError>
    requires { 0 < length text.now }
    ensures { IfOk result (λ rest. (references : Bool) → IsPlainAt references text.now
        → ReadsBit references text.now rest.now (string_bytes out.old) (string_bytes out.new)) }
{
    let n = plain_len(text).max(1);
    let (front, rest) = text.split_at(n);
    out.push_str(front)?;
    Ok(rest)
}

// Reads the start of a whole text.
fn read_bit<'a>(references: bool, text: &'a str, out: &mut String) -> Result<&'a str, AllocError>
    requires { 0 < length text.now }
    ensures { IfOk result (λ rest. ReadsBit references text.now rest.now (string_bytes out.old) (string_bytes out.new)) }
{
    match escape(references, text) {
        Match::Found(bytes, rest) => {
            out.push_str(bytes)?;
            Ok(rest)
        }
        Match::No => read_plain(text, out),
        Match::Open => match text.strip_prefix("\r") {
            Some(rest) => {
                out.push_str("\n")?;
                Ok(rest)
            }
            None => read_plain(text, out),
        },
    }
}

/// Returns the meaning of a whole text: newlines become LF, NULs U+FFFD, and, with `references`, character references their characters. An
/// undecided end means itself, except that a CR is a newline. Fails with `AllocError` if an allocation fails (HTML standard, section
/// 13.2.5, "Tokenization").
pub fn text_of(alloc: Global, references: bool, text: &str) -> Result<String, AllocError>
    ensures { IfOk result (λ s. string_bytes s ≡ t.text_of references text.now) }
{
    if plain_len(text) == text.len() {
        return String::from_str(alloc, text);
    }
    let mut out = String::with_capacity(alloc, text.len())?;
    let mut rest = text;
    while !rest.is_empty() {
        let after = read_bit(references, rest, &mut out)?;
        // The next iteration needs the fact that this is text.
        let _bytes = after.as_bytes();
        rest = after;
    }
    Ok(out)
}
