//! Searches for fixed texts.
ghost use Rattle.std.specs.Prelude.{◌≡◌, ◌<◌, ◌-◌, length, slice_index};
ghost use Rattle.std.specs.Char.{is_ascii_alphabetic};
ghost use Rattle.h5_markup.specs.Matching.{and_then, ahead, literal, peek, word};
ghost use Rattle.h5_markup.specs.Cuts.{is_in};
ghost use Rattle.h5_markup.specs.MatchOf.{match_of};
ghost use Rattle.h5_markup.specs.Spelled.{Spells};

use super::cut::Class;
use super::matches::Match;

/// Returns whether the text begins with the needle.
pub fn literal<'a>(text: &'a str, needle: &str) -> Match<'a, ()>
    ensures { match_of (λ _. tt) result ≡ literal needle.now text.now }
{
    if let Some(rest) = text.strip_prefix(needle) {
        Match::Found((), rest)
    } else if needle.starts_with(text) {
        Match::Open
    } else {
        Match::No
    }
}

// A comparison of the start of a text with a needle.
#[derive(Clone, Copy)]
enum Spelled {
    Whole,
    Partly,
    Otherwise,
}

// Compares ASCII case-insensitively.
fn compare(text: &[u8], needle: &[u8]) -> Spelled
    ensures { Spells result needle.now text.now }
{
    for (i, p) in needle.iter().enumerate() {
        match text.get(i) {
            None => return Spelled::Partly,
            Some(x) => {
                if x.to_ascii_lowercase() != p.to_ascii_lowercase() {
                    return Spelled::Otherwise;
                }
            }
        }
    }
    Spelled::Whole
}

/// Returns whether the text begins with the needle, ASCII case-insensitively. The needle must end with an ASCII character.
pub fn word<'a>(text: &'a str, needle: &str) -> Match<'a, ()>
    requires some { 0 < length needle.now }
    requires ascii { slice_index needle.now (length needle.now - 1) < 128 }
    ensures { match_of (λ _. tt) result ≡ word needle.now text.now }
{
    match compare(text.as_bytes(), needle.as_bytes()) {
        Spelled::Partly => Match::Open,
        Spelled::Otherwise => Match::No,
        Spelled::Whole => {
            let (_, rest) = text.split_at(needle.len());
            Match::Found((), rest)
        }
    }
}

/// Returns true if the byte ends a tag's name: ASCII whitespace, `/` or `>`.
pub fn ends_name(b: u8) -> bool
    ensures { result ≡ is_in Class.NameEnd b }
{
    b == b'>' || (b == b'/' || b.is_ascii_whitespace())
}

/// Returns whether the text begins with this name, ASCII case-insensitively, and the name ends there. If found, the whole text follows.
pub fn name_is<'a>(text: &'a str, name: &str) -> Match<'a, ()>
    ensures { match_of (λ _. tt) result
        ≡ ahead (and_then (word name.now text.now) (λ _ rest. peek (is_in Class.NameEnd) rest)) text.now }
{
    match compare(text.as_bytes(), name.as_bytes()) {
        Spelled::Partly => Match::Open,
        Spelled::Otherwise => Match::No,
        Spelled::Whole => match text.as_bytes().get(name.len()) {
            None => Match::Open,
            Some(b) => {
                if ends_name(*b) {
                    Match::Found((), text)
                } else {
                    Match::No
                }
            }
        },
    }
}

/// Returns whether the text begins with an ASCII letter. If found, the whole text follows.
pub fn peek_letter<'a>(text: &'a str) -> Match<'a, ()>
    ensures { match_of (λ _. tt) result ≡ peek is_ascii_alphabetic text.now }
{
    match text.as_bytes() {
        [] => Match::Open,
        [b, ..] => {
            if b.is_ascii_alphabetic() {
                Match::Found((), text)
            } else {
                Match::No
            }
        }
    }
}
