//! The metadata of a page.
use super::item::Item;
use super::words::words_of;
use html_tree_builder::arena::NodeRef;
use std::alloc::{AllocError, Global};

// A name and its value.
fn said(alloc: Global, name: &str, content: &str) -> Result<Item, AllocError> {
    let mut item = Item::new(alloc);
    item.add("name", name)?;
    item.add("content", content)?;
    Ok(item)
}

// The metadata in a `meta`.
fn said_by_meta(alloc: Global, node: &NodeRef<'_>) -> Result<Option<Item>, AllocError> {
    let (arena, id) = (node.arena, node.id);
    if let Some(charset) = arena.attr(id, "charset") {
        return Ok(Some(said(alloc, "charset", charset)?));
    }
    let name = match arena.attr(id, "name") {
        Some(name) => Some(name),
        None => arena.attr(id, "property"),
    };
    match (name, arena.attr(id, "content")) {
        (Some(name), Some(content)) => Ok(Some(said(alloc, name, content)?)),
        _ => Ok(None),
    }
}

// The metadata in a `link`, if it is the canonical one.
fn said_by_link(alloc: Global, node: &NodeRef<'_>) -> Result<Option<Item>, AllocError> {
    let (arena, id) = (node.arena, node.id);
    match (arena.attr(id, "rel"), arena.attr(id, "href")) {
        (Some(rel), Some(href)) if rel.eq_ignore_ascii_case("canonical") => {
            Ok(Some(said(alloc, "canonical", href)?))
        }
        _ => Ok(None),
    }
}

// The metadata in the root.
fn said_by_root(alloc: Global, node: &NodeRef<'_>) -> Result<Option<Item>, AllocError> {
    match node.arena.attr(node.id, "lang") {
        Some(lang) => Ok(Some(said(alloc, "lang", lang)?)),
        None => Ok(None),
    }
}

fn title(alloc: Global, node: &NodeRef<'_>) -> Result<Option<Item>, AllocError> {
    let text = words_of(alloc, node)?;
    Ok(Some(said(alloc, "title", text.as_str())?))
}

// The metadata in an element.
fn said_by(alloc: Global, local: &str, node: &NodeRef<'_>) -> Result<Option<Item>, AllocError> {
    match local {
        "html" => said_by_root(alloc, node),
        "title" => title(alloc, node),
        "meta" => said_by_meta(alloc, node),
        "link" => said_by_link(alloc, node),
        _ => Ok(None),
    }
}

/// The metadata of a page in tree order: its language, its title, each `meta` with a name or a property, its encoding and its canonical link;
/// the name and the content of each. Fails with `AllocError` if an allocation fails.
pub fn about(alloc: Global, top: &NodeRef<'_>) -> Result<Vec<Item>, AllocError> {
    let arena = top.arena;
    let mut found = Vec::new(alloc);
    for id in arena.descendants(top.id)? {
        if let Some(name) = arena.name(id) {
            if name.ns.is_html() {
                if let Some(item) = said_by(alloc, name.local.as_str(), &arena.at(id))? {
                    found.push(item)?;
                }
            }
        }
    }
    Ok(found)
}
