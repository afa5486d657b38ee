//! Parse errors and their places.
use html_tree_builder::standard::{Errors, ReportingTokenizer};
use html_tree_builder::tree_builder::{TreeBuilder, TreeBuilderOpts};
use html_tree_builder::{Arena, BufferQueue, TokenizerOpts, TokenizerResult};
use std::alloc::{AllocError, Global};
use std::fmt::Write;

/// Finds the first hundred parse errors of a page's text.
pub fn errors_in(alloc: Global, text: &str) -> anyhow::Result<Errors> {
    let mut queue = BufferQueue::new(alloc);
    queue.push_back(String::from_str(alloc, text)?)?;
    let builder = TreeBuilder::new(alloc, Arena::new(alloc)?, TreeBuilderOpts::default());
    let errors = Errors::new(alloc, 100);
    let mut reader = ReportingTokenizer::new(alloc, builder, errors, TokenizerOpts::default());
    // A `script` or the encoding of a `meta` stops the reader before all is read.
    for _ in 0..u64::MAX {
        if let TokenizerResult::Done = reader.feed(&mut queue)? {
            break;
        }
    }
    reader.end()?;
    Ok(reader.errors)
}

/// Writes a line for each error: its line, its column and its name.
pub fn lines_of(alloc: Global, errors: &Errors) -> Result<String, AllocError> {
    let mut lines = String::new(alloc);
    for told in errors.kept() {
        let (line, column, name) = (told.at.line, told.at.column, told.error.name());
        write!(lines, "{line}:{column}: {name}\n")?;
    }
    Ok(lines)
}
