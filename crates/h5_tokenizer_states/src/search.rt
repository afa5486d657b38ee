//! Searches in the table of references: how much of a text begins a name, and the longest name in what was seen. They allocate
//! nothing.
ghost use Rattle.std.specs.Prelude.{◌≡◌, ◌<◌, ◌≤◌, ◌+◌, true, false, ◌++◌, length, take};
ghost use Rattle.h5_tokenizer_spec.specs.References.{is_beginning, longest};
ghost use Rattle.h5_tokenizer_spec.specs.ReferenceTable.{references};
ghost use Rattle.h5_tokenizer_states.specs.Found.{found_in};
ghost use Rattle.h5_tokenizer_states.specs.Numbered.{how_many, name_of, text_of};

use super::candidates::{Candidates, candidates_of};
use super::common::common;
use super::table::{name, text};

/// The longest name that a text begins with.
#[derive(Clone, Copy, Debug, PartialEq, Eq)]
pub struct Named {
    /// The length of the name in bytes.
    pub len: usize,
    /// The characters of the name.
    pub text: &'static str,
}

/// Returns true if the name of a reference begins with this (HTML standard, section 13.2.5.73).
pub fn is_beginning(seen: &[u8]) -> bool
    ensures { result ≡ is_beginning references seen.now }
{
    !candidates_of(seen).is_empty()
}

/// Returns how many bytes of a text can be appended to what was seen so that a name still begins with it.
pub fn further_len(seen: &[u8], text: &[u8]) -> usize
    ensures within { result ≤ length text.now }
    ensures begins { is_beginning references seen.now ≡ true → is_beginning references (seen.now ++ take result text.now) ≡ true }
    ensures some { 0 < result → is_beginning references (seen.now ++ take result text.now) ≡ true }
    ensures longest { result < length text.now → is_beginning references (seen.now ++ take (result + 1) text.now) ≡ false }
{
    if seen.is_empty() {
        if let Some(number) = common(text) {
            return name(number).len();
        }
    }
    let mut candidates = candidates_of(seen);
    for (len, &byte) in text.iter().enumerate() {
        candidates = candidates.narrowed(seen.len() + len, byte);
        if candidates.is_empty() {
            return len;
        }
    }
    text.len()
}

/// Returns the length of the longest prefix of a text that a name begins with.
pub fn seen_len(text: &[u8]) -> usize
    ensures within { result ≤ length text.now }
    ensures begins { is_beginning references (take result text.now) ≡ true }
    ensures longest { result < length text.now → is_beginning references (take (result + 1) text.now) ≡ false }
{
    further_len(&[], text)
}

// Returns the length and the text of a reference's name.
fn reference(number: usize) -> Named
    requires { number < how_many }
    ensures len { result.len ≡ length (name_of number) }
    ensures text { result.text.now ≡ text_of number }
{
    Named {
        len: name(number).len(),
        text: text(number),
    }
}

/// Returns the longest prefix of what was seen that is a name (HTML standard, section 13.2.5.73).
pub fn longest(seen: &[u8]) -> Option<Named>
    ensures { found_in seen.now result ≡ longest references seen.now }
{
    if let Some(number) = common(seen) {
        return Some(reference(number));
    }
    let mut candidates = Candidates::all();
    let mut found = None;
    for (depth, &byte) in seen.iter().enumerate() {
        candidates = candidates.narrowed(depth, byte);
        if candidates.is_empty() {
            return found;
        }
        if name(candidates.from).len() == depth + 1 {
            found = Some(reference(candidates.from));
        }
    }
    found
}
