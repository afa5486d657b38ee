//! The numbers by which entries are found.
ghost use Rattle.std.specs.Prelude.{◌≡◌};
ghost use Rattle.h5_builder_state.specs.Listed.{is_named};
ghost use Rattle.h5_builder_state.specs.ListNumbers.{IsAfterMarkers, entry_number, name_number};

use h5_names::LocalName;
use h5_tables::FormatEntry;

// The number of markers.
pub(super) const MARKER: u32 = 0;

// The number of a name. Names that HTML doesn't know share one.
#[tactic(auto, unfolding(crate::specs::ListNumbers::name_number))]
pub(super) fn name_number(name: &LocalName) -> u32
    ensures { result ≡ name_number name.now }
{
    name.known() as u32 + 1
}

pub(super) fn entry_number<Handle>(entry: &FormatEntry<Handle>) -> u32
    ensures { result ≡ entry_number entry.now }
{
    match entry {
        FormatEntry::Element(_, tag) => name_number(&tag.name),
        FormatEntry::Marker => MARKER,
    }
}

// The entry is that of an element whose tag has this name.
pub(super) fn is_named<Handle>(entry: &FormatEntry<Handle>, name: &LocalName) -> bool
    ensures { result ≡ is_named name.now entry.now }
{
    match entry {
        FormatEntry::Element(_, tag) => tag.name == *name,
        FormatEntry::Marker => false,
    }
}

/// Returns the place right after the last marker, or that of the oldest entry if there is no marker, by a walk from the
/// newest entry on.
pub(super) fn after_markers<Handle>(entries: &Vec<FormatEntry<Handle>>) -> usize
    ensures { IsAfterMarkers result entries.now.items }
{
    let mut place = entries.len();
    'down: while place > 0 && entry_number(&entries[place - 1]) != MARKER {
        place -= 1;
    }
    place
}
