//! The entries after the last marker that are alike to a tag.
ghost use Rattle.std.specs.Prelude.{◌≡◌, ◌≢◌, ◌<◌, ◌≤◌, ◌+◌, ◌^◌, ◌∷◌, ℕ, List, length};
ghost use Rattle.h5_builder_state.specs.Numbered.{numbers};
ghost use Rattle.h5_token.specs.TokenText.{tag_text};
ghost use Rattle.h5_builder_spec.specs.formatting.FormattingList.{Entry as EntryText};
ghost use Rattle.h5_builder_state.specs.Keys.{AreOthers, IsIndexOf, IsIndexed};
ghost use Rattle.h5_builder_state.specs.Listed.{alike_from, entries_of, entry_of, none_found};
ghost use Rattle.h5_builder_state.specs.ListNumbers.{IsAfterMarkers, entry_number};

use super::index::Index;
use super::keys::{FEW, NO_KEY};
use super::numbers::{MARKER, after_markers};
use crate::NumberedStack;
use h5_tables::FormatEntry;
use h5_token::Tag;

/// The number of entries that are alike to a tag, and the place of the earliest of them.
#[derive(Clone, Copy)]
pub(super) struct Alike {
    pub(super) count: usize,
    pub(super) earliest: usize,
}

// The result with one more entry, which is older than those before.
fn with_entry<Handle>(found: Alike, tag: &Tag, entry: &FormatEntry<Handle>, place: usize) -> Alike
    requires { found.count + 1 < 2 ^ 64 }
    ensures found { entry_number entry.now ≢ 0 → (node : Handle → ℕ) (older : List EntryText) → length older ≡ place
        → alike_from (tag_text tag.now) (entry_of node entry.now ∷ older) found ≡ alike_from (tag_text tag.now) older result }
    ensures few { result.count ≤ found.count + 1 }
{
    if let FormatEntry::Element(_, other) = entry {
        if tag.equiv_modulo_attr_order(other) {
            return Alike {
                count: found.count + 1,
                earliest: place,
            };
        }
    }
    found
}

// By a walk over all of them.
fn find_among_all<Handle>(entries: &Vec<FormatEntry<Handle>>, end: usize, tag: &Tag) -> Alike
    requires { IsAfterMarkers end entries.now.items }
    ensures { (node : Handle → ℕ) → result ≡ alike_from (tag_text tag.now) (entries_of node entries.now.items) none_found }
{
    let mut found = Alike {
        count: 0,
        earliest: 0,
    };
    let mut next = entries.len();
    'down: while next > end {
        next -= 1;
        found = with_entry(found, tag, &entries[next], next);
    }
    found
}

// By a walk over those that have the key of the tag, by its number, and those without a key.
fn find_by_key<Handle>(
    entries: &Vec<FormatEntry<Handle>>,
    keys: &NumberedStack<()>,
    end: usize,
    tag: &Tag,
    number: u32,
) -> Alike
    requires after { IsAfterMarkers end entries.now.items }
    requires others { AreOthers (tag_text tag.now) number (numbers keys.now) entries.now.items }
    ensures { (node : Handle → ℕ) → result ≡ alike_from (tag_text tag.now) (entries_of node entries.now.items) none_found }
{
    let mut found = Alike {
        count: 0,
        earliest: 0,
    };
    let mut keyed = keys.newest(number);
    let mut unkeyed = keys.newest(NO_KEY);
    'down: while keyed.max(unkeyed) > end {
        let place = keyed.max(unkeyed) - 1;
        found = with_entry(found, tag, &entries[place], place);
        let older = keys.older(place);
        if keyed > unkeyed {
            keyed = older;
        } else {
            unkeyed = older;
        }
    }
    found
}

// By the index: if there are many entries, those with another key are skipped. If an allocation fails for the key of
// the tag, all are compared with it.
fn find_by_index<Handle>(entries: &Vec<FormatEntry<Handle>>, index: &Index, tag: &Tag) -> Alike
    requires { IsIndexOf index.now entries.now.items }
    ensures { (node : Handle → ℕ) → result ≡ alike_from (tag_text tag.now) (entries_of node entries.now.items) none_found }
{
    let end = index.numbers.newest(MARKER);
    if entries.len().saturating_sub(end) >= FEW {
        if let Ok(number) = index.key_numbers.find(tag) {
            return find_by_key(entries, &index.keys, end, tag, number);
        }
    }
    find_among_all(entries, end, tag)
}

/// Returns the number of entries after the last marker that are alike to a tag, and the place of the earliest.
pub(super) fn find_alike<Handle>(
    entries: &Vec<FormatEntry<Handle>>,
    index: &Option<Index>,
    tag: &Tag,
) -> Alike
    requires { IsIndexed index.now entries.now.items }
    ensures { (node : Handle → ℕ) → result ≡ alike_from (tag_text tag.now) (entries_of node entries.now.items) none_found }
{
    match index {
        Some(index) => find_by_index(entries, index, tag),
        None => find_among_all(entries, after_markers(entries), tag),
    }
}
