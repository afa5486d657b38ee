//! The text of a page.
ghost use Rattle.std.specs.Prelude.{◌≡◌, None, IfOk, OnOk, map, reverse, string_bytes};
ghost use Rattle.html_tree_builder.specs.Walk.{after_each};
ghost use Rattle.html_tree_builder.specs.Types.{ChildrenOnly};
ghost use Rattle.html_tree_builder.specs.ArenaModel.{forest_seen};
ghost use Rattle.html_tree_builder.specs.NodeCalls.{walk_of};
ghost use Rattle.h5_page.specs.Counts as count;
ghost use Rattle.h5_page.specs.Text.{after_call, hrefs_of, plain_opts, text_of};
ghost use Rattle.h5_page.specs.TextOfPage.{IsTextOf};

use super::counts::ItemCounter;
use super::page::{tree_of, unwritten};
use super::text_writer::{PageText, TextOpts, TextWriter};
use html_tree_builder::arena::NodeRef;
use html_tree_builder::laws::calls_are_taken_in_turn;
use html_tree_builder::serialize::{Serialize, SerializeFault, TraversalScope};
use std::alloc::{AllocError, Global};

// Receives the calls of the walk of a node's children.
fn take_calls(writer: &mut TextWriter, node: &NodeRef<'_>) -> Result<(), SerializeFault>
    ensures { OnOk result (writer.new ≡ after_each after_call writer.old (walk_of (forest_seen node.now.arena.now) node.now.id.index (ChildrenOnly None))) }
{
    node.serialize(writer, TraversalScope::ChildrenOnly(None))?;
    calls_are_taken_in_turn::<TextWriter>();
    Ok(())
}

// Counts items in the walk of a node's children.
fn count_calls(counter: &mut ItemCounter, node: &NodeRef<'_>) -> Result<(), SerializeFault>
    ensures { OnOk result (counter.new ≡ after_each count.after_call counter.old (walk_of (forest_seen node.now.arena.now) node.now.id.index (ChildrenOnly None))) }
{
    node.serialize(counter, TraversalScope::ChildrenOnly(None))?;
    calls_are_taken_in_turn::<ItemCounter>();
    Ok(())
}

// Returns how many items each numbered list below a node has; the last list comes first.
fn counts_below(alloc: Global, node: &NodeRef<'_>) -> Result<Vec<usize>, AllocError>
    ensures { IfOk result (λ counts. counts.items ≡ reverse (count.counts_of (walk_of (forest_seen node.now.arena.now) node.now.id.index (ChildrenOnly None)))) }
{
    let mut counter = ItemCounter::new(alloc);
    count_calls(&mut counter, node).map_err(unwritten)?;
    let mut counts = counter.into_counts();
    counts.reverse();
    Ok(counts)
}

/// Returns the text below a node, and, if links have numbers, the `href` of each. Fails with `AllocError` if an allocation
/// fails.
pub fn text_with(alloc: Global, node: &NodeRef<'_>, opts: TextOpts) -> Result<PageText, AllocError>
    ensures text { IfOk result (λ page. string_bytes page.text ≡ text_of opts (walk_of (forest_seen node.now.arena.now) node.now.id.index (ChildrenOnly None))) }
    ensures hrefs { IfOk result (λ page. map string_bytes page.hrefs.items ≡ hrefs_of opts (walk_of (forest_seen node.now.arena.now) node.now.id.index (ChildrenOnly None))) }
{
    let counts = counts_below(alloc, node)?;
    let mut writer = TextWriter::new(alloc, opts, counts);
    take_calls(&mut writer, node).map_err(unwritten)?;
    let page = writer.into_text()?;
    Ok(page)
}

/// Returns the text below a node. Lines aren't wrapped. Fails with `AllocError` if an allocation fails.
pub fn text_of(alloc: Global, node: &NodeRef<'_>) -> Result<String, AllocError>
    ensures { IfOk result (λ text. string_bytes text ≡ text_of plain_opts (walk_of (forest_seen node.now.arena.now) node.now.id.index (ChildrenOnly None))) }
{
    let page = text_with(alloc, node, TextOpts::plain())?;
    Ok(page.text)
}

/// Returns the text of a page. Lines aren't wrapped. Fails with `AllocError` if an allocation fails.
pub fn text_of_page(alloc: Global, page: String) -> Result<String, AllocError>
    ensures { IfOk result (λ text. IsTextOf (string_bytes page) (string_bytes text)) }
{
    let arena = tree_of(alloc, page)?;
    let text = text_of(alloc, &arena.at(arena.document()))?;
    Ok(text)
}
