//! Texts on one line.
use html_tree_builder::arena::{Child, NodeRef};
use std::alloc::{AllocError, Global};

/// Writes the words of a text, separated by one space. Fails with `AllocError` if an allocation fails.
pub fn write_words(line: &mut String, text: &str) -> Result<(), AllocError> {
    let mut is_first = true;
    for word in text.split_ascii_whitespace() {
        if !is_first {
            line.push(' ')?;
        }
        line.push_str(word)?;
        is_first = false;
    }
    Ok(())
}

// The joined texts below a node, with the replacement text of each image.
fn texts_and_images(alloc: Global, node: &NodeRef<'_>) -> Result<String, AllocError> {
    let arena = node.arena;
    let mut text = String::new(alloc);
    for child in arena.descendants_with_text(node.id)? {
        match child {
            Child::Text(part) => text.push_str(part.as_str())?,
            Child::Node(id) => {
                if let Some(alt) = arena.attr(*id, "alt") {
                    text.push(' ')?;
                    text.push_str(alt)?;
                    text.push(' ')?;
                }
            }
        }
    }
    Ok(text)
}

/// The words of the texts below a node and of the replacement texts of images. Fails with `AllocError` if an allocation fails.
pub(crate) fn words_of(alloc: Global, node: &NodeRef<'_>) -> Result<String, AllocError> {
    let text = texts_and_images(alloc, node)?;
    let mut line = String::new(alloc);
    write_words(&mut line, text.as_str())?;
    Ok(line)
}
