//! Prints the elements that a selector matches.
use super::fault::Fault;
use h5_listing::{Form, Item, print_items};
use h5_page::{TextOpts, text_with};
use html_tree_builder::arena::NodeRef;
use html_tree_builder::select::{Selector, SelectorError};
use html_tree_builder::{Arena, NodeId};
use std::alloc::{AllocError, Global};
use std::io::Write;

/// What to print of each element that a selector matches.
#[derive(Clone, Copy)]
pub enum Shown<'a> {
    /// The element as HTML.
    Html,
    /// Its text.
    Text,
    /// The value of this attribute, if the element has it.
    Attr(&'a str),
}

// The name of what is printed in JSON.
fn name_of(shown: Shown<'_>) -> &'static str {
    match shown {
        Shown::Html => "html",
        Shown::Text => "text",
        Shown::Attr(_) => "value",
    }
}

/// The elements to select, and what to print of each.
#[derive(Drop)]
pub struct Selection<'a> {
    pub selector: Selector,
    pub shown: Shown<'a>,
    /// True if the page was parsed with scripting: HTML and text are written so.
    pub scripting_enabled: bool,
}

// The text of a node, as `text` prints it.
fn text_below(
    alloc: Global,
    node: &NodeRef<'_>,
    scripting_enabled: bool,
) -> Result<String, AllocError> {
    let opts = TextOpts {
        scripting_enabled,
        ..TextOpts::plain()
    };
    let page = text_with(alloc, node, opts)?;
    Ok(page.text)
}

// The output for an element, if there is any.
fn shown_of(
    alloc: Global,
    arena: &Arena,
    id: NodeId,
    selection: &Selection<'_>,
) -> Result<Option<String>, AllocError> {
    if !arena.holds(id) {
        return Ok(None);
    }
    match selection.shown {
        Shown::Html => {
            let html = arena.outer_html(id, selection.scripting_enabled)?;
            Ok(Some(html))
        }
        Shown::Text => {
            let text = text_below(alloc, &arena.at(id), selection.scripting_enabled)?;
            Ok(Some(text))
        }
        Shown::Attr(name) => match arena.attr(id, name) {
            Some(value) => Ok(Some(String::from_str(alloc, value)?)),
            None => Ok(None),
        },
    }
}

// Writes a text and a newline.
fn put_line<W: Write>(text: String, out: &mut W) -> Result<(), Fault> {
    let mut line = text;
    if !line.as_str().ends_with('\n') {
        line.push('\n')?;
    }
    out.write_all(line.as_bytes()).map_err(Fault::Write)
}

// Writes one line per element.
fn put_lines<W: Write>(
    alloc: Global,
    arena: &Arena,
    found: &[NodeId],
    selection: &Selection<'_>,
    out: &mut W,
) -> Result<(), Fault> {
    for id in found {
        if let Some(text) = shown_of(alloc, arena, *id, selection)? {
            put_line(text, out)?;
        }
    }
    Ok(())
}

// The items of the elements, each under the name of what is printed.
fn items_of(
    alloc: Global,
    arena: &Arena,
    found: &[NodeId],
    selection: &Selection<'_>,
) -> Result<Vec<Item>, AllocError> {
    let mut items = Vec::new(alloc);
    for id in found {
        if let Some(text) = shown_of(alloc, arena, *id, selection)? {
            let mut item = Item::new(alloc);
            item.add(name_of(selection.shown), text.as_str())?;
            items.push(item)?;
        }
    }
    Ok(items)
}

/// Writes the elements below a node that a selector matches, each followed by a newline, or as JSON with this path.
pub fn put_selected<W: Write>(
    alloc: Global,
    top: &NodeRef<'_>,
    selection: &Selection<'_>,
    form: Form,
    path: Option<&str>,
    out: &mut W,
) -> Result<(), Fault> {
    let arena = top.arena;
    let found = selection.selector.select(arena, top.id)?;
    if let Form::Lines = form {
        return put_lines(alloc, arena, found.as_slice(), selection, out);
    }
    let items = items_of(alloc, arena, found.as_slice(), selection)?;
    let mut text = String::new(alloc);
    print_items(items.as_slice(), &mut text, form, path)?;
    out.write_all(text.as_bytes()).map_err(Fault::Write)
}

/// Reports why a text isn't a selector, and returns the exit status. An error of standard error is ignored.
pub fn tell_selector(rt: &HostRuntime, text: &str, fault: &SelectorError) -> u8 {
    match fault {
        SelectorError::Memory => {
            let _told = writeln!(rt.stderr(), "hengaruto: out of memory");
            1
        }
        SelectorError::Invalid { at, problem } => {
            let _told = writeln!(
                rt.stderr(),
                "hengaruto: invalid selector '{text}': at offset {at}: {problem}"
            );
            2
        }
    }
}
