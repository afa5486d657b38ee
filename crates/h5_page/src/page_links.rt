//! The links of a page.
ghost use Rattle.std.specs.Prelude.{◌≡◌, None, IfOk, OnOk, string_bytes};
ghost use Rattle.html_tree_builder.specs.Walk.{after_each};
ghost use Rattle.html_tree_builder.specs.Types.{ChildrenOnly};
ghost use Rattle.html_tree_builder.specs.ArenaModel.{forest_seen};
ghost use Rattle.html_tree_builder.specs.NodeCalls.{walk_of};
ghost use Rattle.h5_page.specs.Links.{after_call, kept, link_texts, links_of};
ghost use Rattle.h5_page.specs.LinksOfPage.{AreLinksOf};

use super::links::{Link, Links};
use super::page::{tree_of, unwritten};
use html_tree_builder::arena::NodeRef;
use html_tree_builder::laws::calls_are_taken_in_turn;
use html_tree_builder::serialize::{Serialize, SerializeFault, TraversalScope};
use std::alloc::{AllocError, Global};

// Receives the calls of the walk of a node's children.
fn take_calls(links: &mut Links, node: &NodeRef<'_>) -> Result<(), SerializeFault>
    ensures { OnOk result (kept links.new ≡ after_each after_call (kept links.old) (walk_of (forest_seen node.now.arena.now) node.now.id.index (ChildrenOnly None))) }
{
    node.serialize(links, TraversalScope::ChildrenOnly(None))?;
    calls_are_taken_in_turn::<Links>();
    Ok(())
}

/// Returns the links below a node, in tree order. Fails with `AllocError` if an allocation fails.
pub fn links_of(alloc: Global, node: &NodeRef<'_>) -> Result<Vec<Link>, AllocError>
    ensures { IfOk result (λ links. link_texts links.items ≡ links_of (walk_of (forest_seen node.now.arena.now) node.now.id.index (ChildrenOnly None))) }
{
    let mut links = Links::new(alloc);
    take_calls(&mut links, node).map_err(unwritten)?;
    let list = links.into_list()?;
    Ok(list)
}

/// Returns the links of a page, in tree order. Fails with `AllocError` if an allocation fails.
pub fn links_of_page(alloc: Global, page: String) -> Result<Vec<Link>, AllocError>
    ensures { IfOk result (λ links. AreLinksOf (string_bytes page) (link_texts links.items)) }
{
    let arena = tree_of(alloc, page)?;
    let links = links_of(alloc, &arena.at(arena.document()))?;
    Ok(links)
}
