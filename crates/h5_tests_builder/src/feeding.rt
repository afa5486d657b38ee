//! Tree builders that process lines of tokens.
use h5_interface::TreeSink;
use h5_print::{Item, parse};
use h5_token::Token;
use h5_tree_builder::TreeBuilder;
use std::alloc::Global;
use std::test::Fail;

// The tokens of lines, each with its line.
fn tokens_of(alloc: Global, lines: &str) -> Result<Vec<(Token, u64)>, Fail> {
    let mut tokens = Vec::new(alloc);
    for item in parse(alloc, lines)? {
        if let Item::Token(token, line) = item {
            tokens.push((token, line))?;
        }
    }
    Ok(tokens)
}

/// Passes the tokens of lines to a tree builder.
pub fn take_lines<Handle: Drop, Sink: TreeSink<Handle = Handle> + Drop>(
    builder: &mut TreeBuilder<Handle, Sink>,
    alloc: Global,
    lines: &str,
) -> Result<(), Fail> {
    builder.process_all(tokens_of(alloc, lines)?)?;
    Ok(())
}
