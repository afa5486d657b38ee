//! The list of active formatting elements.
ghost use Rattle.std.specs.Prelude.{◌≡◌, ◌<◌, ◌≤◌, ◌↔◌, ◌∷◌, ◌++◌, [], ℕ, IsSome, MatchOption, OnErr, OnOk, is_some, length, slice_index_or, vec_len};
ghost use Rattle.std.specs.List.{insert, remove};
ghost use Rattle.std.specs.Option.{option_to_list};
ghost use Rattle.h5_builder_spec.specs.formatting.Adoption.{newest_named};
ghost use Rattle.h5_builder_spec.specs.formatting.FormattingList.{count_alike, without_earliest};
ghost use Rattle.h5_token.specs.TokenText.{tag_text};
ghost use Rattle.h5_builder_state.specs.Listed.{AreOtherwiseNamed, IsHandedOver, IsNewestNamedAt, entries_of, without_place};

use super::index::{Index, build_index, move_index, push_index, remove_index, truncate_index};
use super::named::{find_newest_named, pass_others};
use super::surplus::find_alike;
use crate::move_up;
use h5_names::LocalName;
use h5_tables::FormatEntry;
use h5_token::Tag;
use std::alloc::{AllocError, Global};
use std::marker::Model;

// The entry at a place gets another element, and keeps its tag.
fn set_element<Handle: Drop>(entries: &mut Vec<FormatEntry<Handle>>, place: usize, handle: Handle)
    requires { place < vec_len entries.old }
    ensures { IsHandedOver handle place entries.old.items entries.new.items }
{
    if let FormatEntry::Element(listed, _) = &mut entries[place] {
        *listed = handle;
    }
}

// At most this many entries after the last marker may be alike.
const MOST_ALIKE: usize = 3;

/// The list of active formatting elements. A long list has an index, with the place of the newest entry of each name,
/// and with the entries that may be alike to an entry.
///
/// Contracts see it as the list of its entries, the oldest first. Places are counted from the oldest.
pub struct FormattingList<Handle> {
    entries: Vec<FormatEntry<Handle>>,
    index: Option<Index>,
}

impl<Handle: Drop> Drop for FormattingList<Handle> {
    fn drop(self) {
        let FormattingList {
            entries: _entries,
            index: _index,
        } = self;
    }
}

impl<Handle> Model for FormattingList<Handle> {
    ghost use Rattle.std.specs.Prelude.{List};
    ghost use Rattle.h5_builder_state.specs.Keys.{IsIndexed};
    ghost use Rattle.h5_tables.specs.declared.entry.FormatEntry.{FormatEntry};

    ghost Value = { List (FormatEntry Handle) };

    ghost view = { λ list. list.entries.items };

    ghost invariant = { λ list. IsIndexed list.index list.entries.items };
}

impl<Handle> FormattingList<Handle> {
    ghost use Rattle.h5_tables.specs.declared.entry.FormatEntry.{FormatEntry as EntryAt};

    /// Returns an empty list.
    pub fn new(alloc: Global) -> FormattingList<Handle>
        ensures { result ≡ [] }
    {
        FormattingList {
            entries: Vec::new(alloc),
            index: None,
        }
    }

    /// Returns the number of entries.
    pub fn len(&self) -> usize
        ensures { result ≡ length self.now }
    {
        self.entries.len()
    }

    /// Returns the entry at a place, which must be less than `len`.
    pub fn get(&self, place: usize) -> &FormatEntry<Handle>
        requires { place < length self.now }
        ensures { result.now ≡ slice_index_or self.now place result.now }
    {
        &self.entries[place]
    }

    /// Returns all entries, the oldest first.
    pub fn as_slice(&self) -> &[FormatEntry<Handle>]
        ensures { result.now ≡ self.now }
    {
        self.entries.as_slice()
    }

    /// Adds an entry as the newest. Fails with `AllocError` if an allocation fails; then the list is unchanged.
    pub fn push(&mut self, entry: FormatEntry<Handle>) -> Result<(), AllocError>
    where
        Handle: Drop,
        ensures ok { OnOk result (self.new ≡ self.old ++ entry ∷ []) }
        ensures err { OnErr result (self.new ≡ self.old) }
    {
        if self.index.is_some() {
            self.entries.reserve(1)?;
            push_index(&mut self.index, &self.entries, &entry)?;
        }
        self.entries.push(entry)?;
        build_index(&mut self.index, &self.entries);
        Ok(())
    }

    /// Removes the newest entry, and returns it.
    pub fn pop(&mut self) -> Option<FormatEntry<Handle>>
        ensures some { IsSome result ↔ (0 < length self.old) }
        ensures value { self.old ≡ self.new ++ option_to_list result }
    {
        if self.index.is_some() {
            let count = self.len().saturating_sub(1);
            truncate_index(&mut self.index, &self.entries, count);
        }
        self.entries.pop()
    }

    /// Removes the entry at a place, which must be less than `len`, and returns it. The entries above move down by one.
    pub fn remove(&mut self, place: usize) -> FormatEntry<Handle>
        requires { place < length self.old }
        ensures value { result ≡ slice_index_or self.old place result }
        ensures rest { self.new ≡ remove self.old place }
    {
        remove_index(&mut self.index, &self.entries, place);
        self.entries.remove(place)
    }

    /// Moves the entry at a place to another one, which must not be lower; those between move down by one. It doesn't
    /// allocate.
    pub fn move_up(&mut self, from: usize, to: usize)
    where
        Handle: Drop,
        requires order { from ≤ to }
        requires inside { to < length self.old }
        ensures { (entry : EntryAt Handle) → entry ≡ slice_index_or self.old from entry → self.new ≡ insert (remove self.old from) to entry }
    {
        move_index(&mut self.index, &self.entries, from, to);
        move_up(&mut self.entries, from, to);
    }

    /// Replaces the element of the entry at a place, and keeps its tag. A marker stays as it is.
    pub fn set_handle(&mut self, place: usize, handle: Handle)
    where
        Handle: Drop,
        requires { place < length self.old }
        ensures { IsHandedOver handle place self.old self.new }
    {
        set_element(&mut self.entries, place, handle);
    }

    /// Returns the place of the newest entry of a name after the last marker. In a long list this takes one step for a
    /// name that HTML knows.
    pub fn find_newest_named(&self, name: &LocalName) -> Option<usize>
        ensures found { (node : Handle → ℕ) → is_some result ≡ is_some (newest_named name.now (entries_of node self.now)) }
        ensures place { (node : Handle → ℕ) → MatchOption result (Unit {0}) (λ place. IsNewestNamedAt name.now place (entries_of node self.now)) }
        ensures inside { MatchOption result (Unit {0}) (λ place. place < length self.now) }
    {
        find_newest_named(&self.entries, &self.index, name)
    }

    /// Returns a place such that no entry from there up to `below` has the name. In a long list, if `below` is its end
    /// or has that name, and HTML knows the name, the entry right below the place has the name, and this takes one
    /// step.
    pub fn pass_others(&self, name: &LocalName, below: usize) -> usize
        requires { below ≤ length self.now }
        ensures within { result ≤ below }
        ensures others { AreOtherwiseNamed name.now result below self.now }
    {
        pass_others(&self.entries, &self.index, name, below)
    }

    /// Returns the place of the earliest entry after the last marker that is alike to a tag, if there are as many as
    /// allowed. In a long list entries with other keys are skipped.
    pub fn find_surplus(&self, tag: &Tag) -> Option<usize>
        ensures within { MatchOption result (Unit {0}) (λ place. place < length self.now) }
        ensures few { (node : Handle → ℕ) → MatchOption result (count_alike (tag_text tag.now) (entries_of node self.now) < 3)
            (λ place. 3 ≤ count_alike (tag_text tag.now) (entries_of node self.now)) }
        ensures earliest { (node : Handle → ℕ) → MatchOption result (Unit {0}) (λ place.
            without_place place (entries_of node self.now) ≡ without_earliest (tag_text tag.now) (entries_of node self.now)) }
    {
        let found = find_alike(&self.entries, &self.index, tag);
        if found.count < MOST_ALIKE {
            None
        } else {
            Some(found.earliest)
        }
    }
}
