//! The index of a long list: the numbers of its entries, by names and by keys.
//!
//! A short list has none: walking over it takes less than keeping an index.
ghost use Rattle.std.specs.Prelude.{◌≡◌, ◌<◌, ◌≤◌, ◌∷◌, ◌++◌, [], List, IfOk, OnErr, OnOk, length, slice_index_or, take, vec_len};
ghost use Rattle.std.specs.List.{insert, remove};
ghost use Rattle.h5_builder_state.specs.Numbered.{Numbered};
ghost use Rattle.h5_tables.specs.declared.entry.FormatEntry.{FormatEntry as EntryAt};
ghost use Rattle.h5_builder_state.specs.Keys.{IsIndexOf, IsIndexed};

use super::keys::KeyNumbers;
use super::numbers::{MARKER, entry_number};
use super::stacks::push_both;
use crate::NumberedStack;
use h5_tables::FormatEntry;
use std::alloc::AllocError;

// A list of this many entries is long.
const MANY: usize = 16;

/// The numbers of the entries of a list.
#[derive(Drop)]
pub struct Index {
    /// The numbers by names.
    pub(super) numbers: NumberedStack<()>,
    /// The numbers by keys.
    pub(super) keys: NumberedStack<()>,
    pub(super) key_numbers: KeyNumbers,
}

impl Index {
    // An entry is added as the newest.
    fn push<Handle>(&mut self, entry: &FormatEntry<Handle>) -> Result<(), AllocError>
        ensures ok { OnOk result ((items : List (EntryAt Handle)) → IsIndexOf self.old items → IsIndexOf self.new (items ++ entry.now ∷ [])) }
        ensures err { OnErr result ((items : List (EntryAt Handle)) → IsIndexOf self.old items → IsIndexOf self.new items) }
    {
        let count = self
            .numbers
            .len()
            .saturating_sub(self.numbers.newest(MARKER));
        let key = self.key_numbers.number(entry, count)?;
        push_both(&mut self.numbers, &mut self.keys, entry_number(entry), key)?;
        Ok(())
    }

    // The `count` oldest entries stay.
    fn truncate(&mut self, count: usize)
        ensures numbers { self.new.numbers ≡ take count self.old.numbers }
        ensures keys { self.new.keys ≡ take count self.old.keys }
        ensures same { self.new.key_numbers ≡ self.old.key_numbers }
    {
        self.numbers.truncate(count);
        self.keys.truncate(count);
    }

    // The entry at a place is removed.
    fn remove(&mut self, place: usize)
        requires numbers { place < length self.old.numbers }
        requires keys { place < length self.old.keys }
        ensures numbers { self.new.numbers ≡ remove self.old.numbers place }
        ensures keys { self.new.keys ≡ remove self.old.keys place }
        ensures same { self.new.key_numbers ≡ self.old.key_numbers }
    {
        self.numbers.remove(place);
        self.keys.remove(place);
    }

    // The entry at a place moves to another one, which isn't lower.
    fn move_up(&mut self, from: usize, to: usize)
        requires order { from ≤ to }
        requires numbers { to < length self.old.numbers }
        requires keys { to < length self.old.keys }
        ensures numbers { (one : Numbered _) → one ≡ slice_index_or self.old.numbers from one → self.new.numbers ≡ insert (remove self.old.numbers from) to one }
        ensures keys { (one : Numbered _) → one ≡ slice_index_or self.old.keys from one → self.new.keys ≡ insert (remove self.old.keys from) to one }
        ensures same { self.new.key_numbers ≡ self.old.key_numbers }
    {
        self.numbers.move_up(from, to);
        self.keys.move_up(from, to);
    }

    // The index of these entries.
    fn of<Handle>(entries: &Vec<FormatEntry<Handle>>) -> Result<Index, AllocError>
        ensures { IfOk result (λ index. IsIndexOf index entries.now.items) }
    {
        let alloc = *entries.allocator();
        let mut index = Index {
            numbers: NumberedStack::new(alloc),
            keys: NumberedStack::new(alloc),
            key_numbers: KeyNumbers::new(alloc),
        };
        for entry in entries {
            index.push(entry)?;
        }
        Ok(index)
    }
}

/// Adds an entry to the index, as the newest. If an allocation fails, the index stays right for the old entries.
pub(super) fn push_index<Handle>(
    index: &mut Option<Index>,
    entries: &Vec<FormatEntry<Handle>>,
    entry: &FormatEntry<Handle>,
) -> Result<(), AllocError>
    requires { IsIndexed index.old entries.now.items }
    ensures ok { OnOk result (IsIndexed index.new (entries.now.items ++ entry.now ∷ [])) }
    ensures err { OnErr result (IsIndexed index.new entries.now.items) }
{
    match index {
        Some(index) => index.push(entry),
        None => Ok(()),
    }
}

/// Keeps the `count` oldest entries. An empty list has no index.
pub(super) fn truncate_index<Handle>(
    index: &mut Option<Index>,
    entries: &Vec<FormatEntry<Handle>>,
    count: usize,
)
    requires { IsIndexed index.old entries.now.items }
    ensures { IsIndexed index.new (take count entries.now.items) }
{
    if count == 0 {
        *index = None;
    } else if let Some(index) = index {
        index.truncate(count);
    }
}

/// Removes the entry at a place from the index.
pub(super) fn remove_index<Handle>(
    index: &mut Option<Index>,
    entries: &Vec<FormatEntry<Handle>>,
    place: usize,
)
    requires indexed { IsIndexed index.old entries.now.items }
    requires inside { place < vec_len entries.now }
    ensures { IsIndexed index.new (remove entries.now.items place) }
{
    if let Some(index) = index {
        index.remove(place);
    }
}

/// Moves the entry at a place to another one, which isn't lower.
pub(super) fn move_index<Handle>(
    index: &mut Option<Index>,
    entries: &Vec<FormatEntry<Handle>>,
    from: usize,
    to: usize,
)
    requires indexed { IsIndexed index.old entries.now.items }
    requires order { from ≤ to }
    requires inside { to < vec_len entries.now }
    ensures { (entry : EntryAt Handle) → entry ≡ slice_index_or entries.now.items from entry → IsIndexed index.new (insert (remove entries.now.items from) to entry) }
{
    if let Some(index) = index {
        index.move_up(from, to);
    }
}

/// Builds an index if there are many entries. If an allocation fails, they stay without one.
pub(super) fn build_index<Handle>(index: &mut Option<Index>, entries: &Vec<FormatEntry<Handle>>)
    requires { IsIndexed index.old entries.now.items }
    ensures { IsIndexed index.new entries.now.items }
{
    if index.is_none() && entries.len() >= MANY {
        if let Ok(built) = Index::of(entries) {
            *index = Some(built);
        }
    }
}
