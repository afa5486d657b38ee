//! The list of active formatting elements, from its end to its last marker (HTML standard, section 13.2.4.3).
ghost use Rattle.std.specs.Prelude.{◌≡◌, length, map};
ghost use Rattle.h5_builder_spec.specs.formatting.FormattingList.{after_marker};
ghost use Rattle.h5_tree_builder.specs.ActiveFormatting.{falling, given_entry, given_place, still_given};
ghost use Rattle.h5_tree_builder.specs.Held.{building};

use super::builder::TreeBuilder;
use h5_builder_state::Listed;
use h5_interface::TreeSink;
use h5_tables::FormatEntry;
use h5_token::Tag;

/// An iterator over the active formatting elements from the newest to the last marker, each with its place in the list,
/// counted from the oldest entry, and with the tag for which it was created. After that it returns only `None`.
#[derive(Drop)]
pub struct ActiveFormattingIter<'a, Handle> {
    pub(crate) entries: &'a [FormatEntry<Listed<Handle>>],
}

impl<'a, Handle> Iterator for ActiveFormattingIter<'a, Handle> {
    ghost use Rattle.std.specs.Iterator.{YieldsFirstBy, item_count};
    ghost use Rattle.h5_tree_builder.specs.ActiveFormatting.{still_given};

    type Item = (usize, &'a Handle, &'a Tag);

    ghost next_gives = { YieldsFirstBy (λ item. (item.0, (item.1.now, item.2.now))) (λ rest. still_given rest.entries.now) };

    ghost remaining = { item_count (λ rest. still_given rest.entries.now) };

    fn next(&mut self) -> Option<(usize, &'a Handle, &'a Tag)> {
        match self.entries.split_last() {
            Some((FormatEntry::Element(listed, tag), older)) => {
                self.entries = older;
                Some((older.len(), &listed.handle, tag))
            }
            _ => None,
        }
    }
}

impl<Handle: Drop, Sink: TreeSink<Handle = Handle> + Drop> TreeBuilder<Handle, Sink> {
    /// Returns the active formatting elements from the newest to the last marker.
    #[tactic(auto, unfolding(h5_builder_state::specs::View::world))]
    pub fn active_formatting_end_to_marker(&self) -> ActiveFormattingIter<'_, Handle>
        ensures entries { map (given_entry Sink.node) (still_given result.entries.now) ≡ after_marker (building Sink.sees Sink.node self.now).view.world.formatting }
        ensures places { map given_place (still_given result.entries.now) ≡ falling (length (building Sink.sees Sink.node self.now).view.world.formatting) (after_marker (building Sink.sees Sink.node self.now).view.world.formatting) }
    {
        ActiveFormattingIter {
            entries: self.state.active_formatting.as_slice(),
        }
    }
}
