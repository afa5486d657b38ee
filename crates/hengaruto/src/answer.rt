//! Prints what a subcommand shows of a tree.
use super::fault::Fault;
use super::output::{Output, TreeOutput};
use super::parts::Parts;
use super::request::PageOpts;
use super::select::put_selected;
use h5_listing::{
    Form, Item, about, all_links, base_of, begin_object, headings, links, node_lines, print_items,
    references,
};
use h5_page::{TextOpts, text_with};
use h5_print::{print_quirks, write_tree};
use html_tree_builder::arena::NodeRef;
use html_tree_builder::clean::{AllowList, DefaultPolicy, clean_tree};
use html_tree_builder::encodings::Encoding;
use html_tree_builder::serialize::{SerializeFault, serialize};
use html_tree_builder::{Arena, QuirksMode, SerializeOpts};
use std::alloc::{AllocError, Global};
use std::io::{ErrorKind, Write};
use url::Url;

/// What to print of a page, and how.
#[derive(Clone, Copy)]
pub struct Asked<'a> {
    pub output: &'a Output<'a>,
    pub page: PageOpts<'a>,
}

// The node that holds the page: the document, or the root of a fragment.
fn top_of(arena: &Arena, is_fragment: bool) -> NodeRef<'_> {
    if is_fragment {
        if let Some(root) = arena.fragment_root() {
            return arena.at(root);
        }
    }
    arena.at(arena.document())
}

// The links or references.
fn links_asked(
    alloc: Global,
    is_all: bool,
    base: Option<&Url>,
    top: &NodeRef<'_>,
) -> Result<Vec<Item>, AllocError> {
    let base = base_of(alloc, top, base)?;
    if is_all {
        all_links(alloc, top, base.as_ref())
    } else {
        links(alloc, top, base.as_ref())
    }
}

// The text, followed by the targets of its links if they have numbers.
fn text_asked(alloc: Global, opts: TextOpts, top: &NodeRef<'_>) -> Result<String, AllocError> {
    let page = text_with(alloc, top, opts)?;
    let mut text = page.text;
    if !page.hrefs.is_empty() {
        let base = base_of(alloc, top, None)?;
        let items = references(alloc, page.hrefs.as_slice(), base.as_ref())?;
        text.push('\n')?;
        print_items(items.as_slice(), &mut text, Form::Lines, None)?;
    }
    Ok(text)
}

// The items of a listing.
fn items_text(alloc: Global, page: &PageOpts<'_>, items: &[Item]) -> Result<Vec<u8>, AllocError> {
    let mut text = String::new(alloc);
    print_items(items, &mut text, page.form, page.path())?;
    Ok(text.into_bytes())
}

// Writes a tree as JSON: an object for each node, and one for the quirks mode.
fn put_nodes<W: Write>(
    alloc: Global,
    path: Option<&str>,
    top: &NodeRef<'_>,
    out: &mut W,
) -> Result<(), Fault> {
    let mut lines = node_lines(alloc, top, path)?;
    let mode = match top.arena.quirks() {
        QuirksMode::Quirks => "Quirks",
        QuirksMode::LimitedQuirks => "LimitedQuirks",
        QuirksMode::NoQuirks => "NoQuirks",
    };
    begin_object(alloc, &mut lines, path)?;
    write!(lines, "\"quirks\":\"{mode}\"}}\n").map_err(|_refused| Fault::Memory)?;
    out.write_all(lines.as_bytes()).map_err(Fault::Write)
}

// Writes a tree, one line per node, and its quirks mode. A deep tree has long lines, so it is written in parts.
fn put_tree<W: Write>(alloc: Global, arena: &Arena, out: &mut W) -> Result<(), Fault> {
    if let Err(error) = write_tree(alloc, arena, out) {
        return Err(match error.kind() {
            ErrorKind::OutOfMemory => Fault::Memory,
            _ => Fault::Write(error),
        });
    }
    let mut quirks = String::new(alloc);
    print_quirks(&mut quirks, arena.quirks())?;
    out.write_all(quirks.as_bytes()).map_err(Fault::Write)
}

// Writes a tree as HTML, in parts.
fn put_html<W: Write>(
    alloc: Global,
    page: &PageOpts<'_>,
    top: &NodeRef<'_>,
    out: &mut W,
) -> Result<(), Fault> {
    let opts = SerializeOpts {
        scripting_enabled: page.input.scripting_enabled,
        ..SerializeOpts::default()
    };
    let mut parts = Parts::new(alloc, out);
    if let Err(fault) = serialize(alloc, &mut parts, top, opts) {
        return Err(parts.fault(fault));
    }
    parts.finish()
}

// Writes as HTML what a policy, or else the default policy, allows of a tree.
fn cleaned(
    alloc: Global,
    top: &NodeRef<'_>,
    policy: Option<&AllowList>,
) -> Result<Vec<u8>, SerializeFault> {
    match policy {
        Some(policy) => clean_tree(alloc, top, policy, Vec::new(alloc)),
        None => clean_tree(alloc, top, &DefaultPolicy, Vec::new(alloc)),
    }
}

// The metadata of a page, and last the encoding that it was decoded from.
fn about_read(
    alloc: Global,
    top: &NodeRef<'_>,
    encoding: Encoding,
) -> Result<Vec<Item>, AllocError> {
    let mut items = about(alloc, top)?;
    let mut read = Item::new(alloc);
    read.add("name", "encoding")?;
    read.add("content", encoding.name())?;
    items.push(read)?;
    Ok(items)
}

/// Writes this output of the tree of a document or a fragment, which was decoded from this encoding.
pub fn put_answer<W: Write>(
    alloc: Global,
    page: &PageOpts<'_>,
    output: &TreeOutput<'_>,
    arena: &Arena,
    encoding: Encoding,
    out: &mut W,
) -> Result<(), Fault> {
    let top = top_of(arena, page.context.is_some());
    let text = match output {
        TreeOutput::Nodes => match page.form {
            Form::Json => return put_nodes(alloc, page.path(), &top, out),
            Form::Lines | Form::Array => return put_tree(alloc, arena, out),
        },
        TreeOutput::Html | TreeOutput::Edited(_) => return put_html(alloc, page, &top, out),
        TreeOutput::Select(selection) => {
            return put_selected(alloc, &top, selection, page.form, page.path(), out);
        }
        TreeOutput::Text(opts) => text_asked(alloc, *opts, &top)?.into_bytes(),
        TreeOutput::Links { is_all, base } => {
            let items = links_asked(alloc, *is_all, base.as_ref(), &top)?;
            items_text(alloc, page, items.as_slice())?
        }
        TreeOutput::Outline => {
            let items = headings(alloc, &top)?;
            items_text(alloc, page, items.as_slice())?
        }
        TreeOutput::Meta => {
            let items = about_read(alloc, &top, encoding)?;
            items_text(alloc, page, items.as_slice())?
        }
        TreeOutput::Clean(policy) => cleaned(alloc, &top, policy.as_ref())?,
    };
    out.write_all(text.as_slice()).map_err(Fault::Write)
}
