//! Fragments.
use html_tree_builder::interface::create_element;
use html_tree_builder::serialize::serialize;
use html_tree_builder::token::BuildFault;
use html_tree_builder::{
    Arena, LocalName, Namespace, NodeId, ParseOpts, Parser, QualName, SerializeOpts,
    parse_fragment, parse_fragment_for_element,
};
use std::alloc::{AllocError, Global};

// Returns the name of an HTML element.
fn html_name(alloc: Global, local: &str) -> Result<QualName, AllocError> {
    Ok(QualName::new(None, Namespace::html(), LocalName::new(alloc, local)?))
}

// Writes what is below the root of a fragment as HTML.
fn write_fragment(alloc: Global, arena: &Arena) -> anyhow::Result<Vec<u8>> {
    match arena.fragment_root() {
        Some(root) => {
            let root = arena.at(root);
            let html = serialize(alloc, Vec::new(alloc), &root, SerializeOpts::default())?;
            Ok(html)
        }
        None => Ok(Vec::new(alloc)),
    }
}

/// Parses a text as the contents of a `tr`, and writes them as HTML.
pub fn fragment(alloc: Global, text: &str) -> anyhow::Result<Vec<u8>> {
    let name = html_name(alloc, "tr")?;
    let opts = ParseOpts::default();
    let parser = parse_fragment(alloc, Arena::new(alloc)?, opts, name, Vec::new(alloc), true)?;
    let arena = parser.one(text)?;
    write_fragment(alloc, &arena)
}

// Makes a parser of the contents of this element, or none if it isn't an element of the arena.
fn parser_in(
    alloc: Global,
    arena: Arena,
    element: NodeId,
) -> Result<Option<Parser<Arena>>, BuildFault> {
    if !arena.holds(element) {
        return Ok(None);
    }
    match arena.name(element) {
        Some(_) => {
            let opts = ParseOpts::default();
            let parser = parse_fragment_for_element(alloc, arena, opts, element, true, None)?;
            Ok(Some(parser))
        }
        None => Ok(None),
    }
}

/// Parses a text as the contents of an element that its arena holds already, and writes them as HTML.
pub fn fragment_in_an_element(alloc: Global, name: &str, text: &str) -> anyhow::Result<Vec<u8>> {
    let name = html_name(alloc, name)?;
    let mut arena = Arena::new(alloc)?;
    let element = create_element(&mut arena, name, Vec::new(alloc))?;
    match parser_in(alloc, arena, element)? {
        Some(parser) => {
            let arena = parser.one(text)?;
            write_fragment(alloc, &arena)
        }
        None => Ok(Vec::new(alloc)),
    }
}
