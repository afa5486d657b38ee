//! Finds entries by name: the newest after the last marker, and entries that a search may skip.
ghost use Rattle.std.specs.Prelude.{◌≡◌, ◌<◌, ◌≤◌, ℕ, MatchOption, is_some, vec_len};
ghost use Rattle.h5_builder_spec.specs.formatting.Adoption.{newest_named};
ghost use Rattle.h5_builder_state.specs.Keys.{IsIndexOf, IsIndexed};
ghost use Rattle.h5_builder_state.specs.Listed.{AreOtherwiseNamed, IsNewestNamedAt, entries_of};
ghost use Rattle.h5_builder_state.specs.ListNumbers.{IsAfterMarkers};

use super::index::Index;
use super::numbers::{MARKER, after_markers, is_named, name_number};
use h5_names::LocalName;
use h5_tables::FormatEntry;

// By the index, from the newest entry of the name's number to older ones.
fn find_numbered<Handle>(
    entries: &Vec<FormatEntry<Handle>>,
    index: &Index,
    name: &LocalName,
) -> Option<usize>
    requires { IsIndexOf index.now entries.now.items }
    ensures found { (node : Handle → ℕ) → is_some result ≡ is_some (newest_named name.now (entries_of node entries.now.items)) }
    ensures place { (node : Handle → ℕ) → MatchOption result (Unit {0}) (λ place. IsNewestNamedAt name.now place (entries_of node entries.now.items)) }
    ensures inside { MatchOption result (Unit {0}) (λ place. place < vec_len entries.now) }
{
    let end = index.numbers.newest(MARKER);
    let mut next = index.numbers.newest(name_number(name));
    'down: while next > end {
        let place = next - 1;
        if is_named(&entries[place], name) {
            return Some(place);
        }
        next = index.numbers.older(place);
    }
    None
}

// By a walk over all of them.
fn find_among_all<Handle>(
    entries: &Vec<FormatEntry<Handle>>,
    end: usize,
    name: &LocalName,
) -> Option<usize>
    requires { IsAfterMarkers end entries.now.items }
    ensures found { (node : Handle → ℕ) → is_some result ≡ is_some (newest_named name.now (entries_of node entries.now.items)) }
    ensures place { (node : Handle → ℕ) → MatchOption result (Unit {0}) (λ place. IsNewestNamedAt name.now place (entries_of node entries.now.items)) }
    ensures inside { MatchOption result (Unit {0}) (λ place. place < vec_len entries.now) }
{
    let mut next = entries.len();
    'down: while next > end {
        next -= 1;
        if is_named(&entries[next], name) {
            return Some(next);
        }
    }
    None
}

/// Returns the place of the newest entry of a name after the last marker.
pub(super) fn find_newest_named<Handle>(
    entries: &Vec<FormatEntry<Handle>>,
    index: &Option<Index>,
    name: &LocalName,
) -> Option<usize>
    requires { IsIndexed index.now entries.now.items }
    ensures found { (node : Handle → ℕ) → is_some result ≡ is_some (newest_named name.now (entries_of node entries.now.items)) }
    ensures place { (node : Handle → ℕ) → MatchOption result (Unit {0}) (λ place. IsNewestNamedAt name.now place (entries_of node entries.now.items)) }
    ensures inside { MatchOption result (Unit {0}) (λ place. place < vec_len entries.now) }
{
    match index {
        Some(index) => find_numbered(entries, index, name),
        None => find_among_all(entries, after_markers(entries), name),
    }
}

// By the index, if `below` is the end, or the place of an entry of the name.
fn pass_numbered<Handle>(
    entries: &Vec<FormatEntry<Handle>>,
    index: &Index,
    name: &LocalName,
    below: usize,
) -> usize
    requires indexed { IsIndexOf index.now entries.now.items }
    requires below { below ≤ vec_len entries.now }
    ensures within { result ≤ below }
    ensures others { AreOtherwiseNamed name.now result below entries.now.items }
{
    let number = name_number(name);
    if below == entries.len() {
        index.numbers.newest(number)
    } else if index.numbers.number_at(below) == number {
        index.numbers.older(below)
    } else {
        below
    }
}

/// Returns a place such that no entry from there up to `below` has the name.
pub(super) fn pass_others<Handle>(
    entries: &Vec<FormatEntry<Handle>>,
    index: &Option<Index>,
    name: &LocalName,
    below: usize,
) -> usize
    requires indexed { IsIndexed index.now entries.now.items }
    requires below { below ≤ vec_len entries.now }
    ensures within { result ≤ below }
    ensures others { AreOtherwiseNamed name.now result below entries.now.items }
{
    match index {
        Some(index) => pass_numbered(entries, index, name, below),
        None => below,
    }
}
