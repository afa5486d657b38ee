//! The encoding that a page declares.
use html_tree_builder::encoding::extract_a_character_encoding_from_a_meta_element;
use html_tree_builder::encodings::Encoding;
use html_tree_builder::{Arena, NodeId};
use std::alloc::AllocError;

// Returns true if a text is a label of an encoding.
fn is_label(text: Option<&str>) -> bool {
    match text {
        Some(label) => Encoding::for_label(label.as_bytes()).is_some(),
        None => false,
    }
}

// Returns true if a node is a `meta`.
fn is_meta(arena: &Arena, id: NodeId) -> bool {
    if !arena.holds(id) {
        return false;
    }
    match arena.name(id) {
        Some(name) => name.ns.is_html() && name.local.as_str() == "meta",
        None => false,
    }
}

// Returns true if an element declares an encoding by its `charset`.
fn has_charset(arena: &Arena, id: NodeId) -> bool {
    arena.holds(id) && is_label(arena.attr(id, "charset"))
}

// Returns true if an element declares an encoding as the header `content-type` does.
fn has_content_type(arena: &Arena, id: NodeId) -> bool {
    if !arena.holds(id) {
        return false;
    }
    match (arena.attr(id, "http-equiv"), arena.attr(id, "content")) {
        (Some(header), Some(content)) => {
            let label = extract_a_character_encoding_from_a_meta_element(content);
            header.eq_ignore_ascii_case("content-type") && is_label(label)
        }
        _ => false,
    }
}

// Sets an attribute of an element.
fn set(arena: &mut Arena, id: NodeId, name: &str, value: &str) -> Result<(), AllocError> {
    if arena.holds(id) && arena.name(id).is_some() {
        arena.set_attr(id, name, value)?;
    }
    Ok(())
}

/// Makes each `meta` of a tree that declares an encoding one that declares UTF-8 (HTML standard, section 4.2.5.4, "Specifying the document's
/// character encoding"). Fails with `AllocError` if an allocation fails.
pub fn declare_utf8(arena: &mut Arena) -> Result<(), AllocError> {
    for index in 0..arena.len() {
        if let Some(id) = arena.id(index) {
            if is_meta(arena, id) && has_charset(arena, id) {
                set(arena, id, "charset", "utf-8")?;
            }
            if is_meta(arena, id) && has_content_type(arena, id) {
                set(arena, id, "content", "text/html; charset=utf-8")?;
            }
        }
    }
    Ok(())
}
