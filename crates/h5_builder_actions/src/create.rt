//! New formatting elements.
ghost use Rattle.std.specs.Prelude.{◌≡◌, ◌<◌, ◌≤◌, ℕ, IsTrue, MatchOption, OnErr, OnOk, length};
ghost use Rattle.h5_token.specs.TokenText.{tag_text};
ghost use Rattle.h5_tables.specs.TagSets.{formatting_names, is_one_of};
ghost use Rattle.h5_builder_spec.specs.formatting.FormattingList.{push_formatting};
ghost use Rattle.h5_builder_spec.specs.Rows.{CreateFormattingElement};
ghost use Rattle.h5_builder_state.specs.Listed.{entries_of};
ghost use Rattle.h5_builder_state.specs.Steps.{IsSound, MakesIfOk};
ghost use Rattle.h5_builder_actions.specs.Restacks.{IsPushed};

use crate::insert_element;
use h5_builder_state::{FormattingList, State, current_listed};
use h5_interface::TreeSink;
use h5_tables::FormatEntry;
use h5_token::Tag;
use std::alloc::AllocError;

// Adds an element and its tag to the list. If three entries after the last marker are alike already, the earliest of
// them is removed.
fn push_formatting<Handle: Drop>(
    entries: &mut FormattingList<Handle>,
    handle: Handle,
    tag: Tag,
) -> Result<(), AllocError>
    ensures ok { OnOk result ((node : Handle → ℕ) → entries_of node entries.new ≡ push_formatting (node handle) (tag_text tag) (entries_of node entries.old)) }
    ensures pushed { OnOk result (IsPushed (FormatEntry.Element handle tag) entries.old entries.new) }
    ensures err { OnErr result (entries.new ≡ entries.old) }
{
    let surplus = entries.find_surplus(&tag);
    entries.push(FormatEntry::Element(handle, tag))?;
    if let Some(place) = surplus {
        let _ = entries.remove(place);
    }
    Ok(())
}

/// Inserts an HTML element for a formatting element's tag at the place of insertion, and adds it to the list. It
/// becomes the current node. Fails with `AllocError` if an allocation fails.
#[tactic(auto, unfolding(h5_builder_state::specs::View::world, h5_builder_spec::specs::formatting::Formatting::create_formatting_element))]
pub fn create_formatting_element<S: TreeSink>(
    sink: &mut S,
    state: &mut State<S::Handle>,
    tag: Tag,
) -> Result<(), AllocError>
    requires sound { IsSound S.TreeSink sink.old state.old }
    requires name { IsTrue (is_one_of formatting_names (tag_text tag).name) }
    ensures { MakesIfOk S.TreeSink (CreateFormattingElement (tag_text tag)) sink.old state.old sink.new state.new result }
{
    let copy = tag.clone()?;
    insert_element(
        sink,
        state,
        copy.name,
        copy.attrs,
        copy.had_duplicate_attributes,
    )?;
    let current = current_listed(sink, state);
    push_formatting(&mut state.active_formatting, current, tag)
}
