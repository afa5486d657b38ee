//! Markers in the list of active formatting elements.
ghost use Rattle.std.specs.Prelude.{◌≡◌, ◌++◌, ℕ, List, OnErr};
ghost use Rattle.h5_tables.specs.declared.entry.FormatEntry.{FormatEntry as EntryAt};
ghost use Rattle.h5_builder_spec.specs.formatting.FormattingList.{clear_to_marker};
ghost use Rattle.h5_builder_spec.specs.Rows.{ClearActiveFormattingToMarker, InsertMarker};
ghost use Rattle.h5_builder_state.specs.Listed.{entries_of};
ghost use Rattle.h5_builder_state.specs.Steps.{IsSound, Makes, MakesIfOk, world_of};

use h5_builder_state::{FormattingList, State};
use h5_interface::TreeSink;
use h5_tables::FormatEntry;
use std::alloc::AllocError;

/// Adds a marker to the list, as the newest entry. Fails with `AllocError` if an allocation fails; then nothing
/// changes.
#[tactic(auto, unfolding(h5_builder_state::specs::View::world, h5_builder_spec::specs::formatting::Formatting::insert_marker))]
pub fn insert_marker<S: TreeSink>(sink: &S, state: &mut State<S::Handle>) -> Result<(), AllocError>
    requires { IsSound S.TreeSink sink.now state.old }
    ensures made { MakesIfOk S.TreeSink InsertMarker sink.now state.old sink.now state.new result }
    ensures err { OnErr result (world_of S.TreeSink sink.now state.new ≡ world_of S.TreeSink sink.now state.old) }
{
    state.active_formatting.push(FormatEntry::Marker)?;
    Ok(())
}

// Removes entries, the newest first, up to and including a marker.
fn clear_to_marker<Handle: Drop>(entries: &mut FormattingList<Handle>)
    ensures cleared { (node : Handle → ℕ) → entries_of node entries.new ≡ clear_to_marker (entries_of node entries.old) }
    ensures older { (newer : List (EntryAt Handle)) × (entries.old ≡ entries.new ++ newer) }
{
    'clear: while let Some(entry) = entries.pop() {
        if let FormatEntry::Marker = entry {
            return;
        }
    }
}

/// Removes entries from the list, the newest first, up to and including a marker.
#[tactic(auto, unfolding(h5_builder_state::specs::View::world, h5_builder_spec::specs::formatting::Formatting::clear_active_formatting_to_marker))]
pub fn clear_active_formatting_to_marker<S: TreeSink>(sink: &S, state: &mut State<S::Handle>)
    requires { IsSound S.TreeSink sink.now state.old }
    ensures { Makes S.TreeSink ClearActiveFormattingToMarker sink.now state.old sink.now state.new }
{
    clear_to_marker(&mut state.active_formatting);
}
