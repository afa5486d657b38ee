//! The headings of a page.
use super::entries::{Listing, entries_of};
use super::item::Item;
use html_tree_builder::arena::NodeRef;
use std::alloc::{AllocError, Global};

/// The headings below a node in tree order: the level and the text of each. A heading in a heading ends the text of the outer one. Fails with
/// `AllocError` if an allocation fails.
pub fn headings(alloc: Global, top: &NodeRef<'_>) -> Result<Vec<Item>, AllocError> {
    let entries = entries_of(alloc, top, Listing::Headings)?;
    let mut found = Vec::new(alloc);
    for entry in entries.list.as_slice() {
        let text = entries.words_of(entry)?;
        let mut item = Item::new(alloc);
        item.add("level", entry.label)?;
        item.add("text", text.as_str())?;
        found.push(item)?;
    }
    Ok(found)
}
