//! The printed parts of an arena.
use h5_arena::Arena;
use h5_print::{print_tree, read_escapes};
use std::alloc::{AllocError, Global};
use std::fmt::Write;

// Appends a line of a printed tree to a document: after `| `, without its escapes, and after a newline if it isn't the first.
fn put_line(alloc: Global, document: &mut String, line: &str) -> Result<(), AllocError> {
    if !document.is_empty() {
        document.push('\n')?;
    }
    document.push_str("| ")?;
    match read_escapes(alloc, line)? {
        Some(text) => document.push_str(text.as_str()),
        None => document.push_str(line),
    }
}

// Appends the lines of a printed tree that begin with this indent to a document.
fn put_lines(
    alloc: Global,
    document: &mut String,
    tree: &str,
    indent: &str,
) -> Result<(), AllocError> {
    for line in tree.lines() {
        if let Some(line) = line.strip_prefix(indent) {
            put_line(alloc, document, line)?;
        }
    }
    Ok(())
}

// The document of the lines of a printed tree that begin with this indent.
fn document_in(alloc: Global, tree: &str, indent: &str) -> Result<String, AllocError> {
    let mut document = String::new(alloc);
    put_lines(alloc, &mut document, tree, indent)?;
    Ok(document)
}

/// The tree of a document, or the tree below the root of a fragment: the printed lines that begin with this indent, without it.
pub fn document_of(alloc: Global, arena: &Arena, indent: &str) -> Result<String, AllocError> {
    let tree = print_tree(alloc, arena)?;
    document_in(alloc, tree.as_str(), indent)
}

// Appends messages, one on each line.
fn put_messages(lines: &mut String, messages: &[String]) -> Result<(), AllocError> {
    for message in messages {
        writeln!(lines, "{message}")?;
    }
    Ok(())
}

/// The messages of parse errors, one on each line.
pub fn messages_of(alloc: Global, arena: &Arena) -> Result<String, AllocError> {
    let mut lines = String::new(alloc);
    put_messages(&mut lines, arena.errors())?;
    Ok(lines)
}

// The name of the element with this number, if it has no parent.
fn loose_name(arena: &Arena, number: usize) -> Option<&str> {
    let node = arena.id(number)?;
    match (arena.parent(node), arena.name(node)) {
        (None, Some(name)) => Some(name.local.as_str()),
        _ => None,
    }
}

// Appends the lines of the elements that have no parent.
fn put_loose(lines: &mut String, arena: &Arena) -> Result<(), AllocError> {
    for number in 0..arena.len() {
        if let Some(name) = loose_name(arena, number) {
            writeln!(lines, "{number} {name}")?;
        }
    }
    Ok(())
}

/// The lines of the elements that have no parent: their numbers, in the order in which nodes were made, and their names.
pub fn loose_of(alloc: Global, arena: &Arena) -> Result<String, AllocError> {
    let mut lines = String::new(alloc);
    put_loose(&mut lines, arena)?;
    Ok(lines)
}

// Returns true if the node with this number is a script that has started.
fn has_started(arena: &Arena, number: usize) -> bool {
    match arena.id(number) {
        Some(node) => arena.started(node),
        None => false,
    }
}

/// The number of scripts that have started.
pub fn count_started(arena: &Arena) -> usize {
    let mut count: usize = 0;
    for number in 0..arena.len() {
        if has_started(arena, number) {
            count = count.saturating_add(1);
        }
    }
    count
}
