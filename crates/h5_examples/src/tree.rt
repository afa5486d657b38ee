//! Trees: their headings, elements by selectors, and edits.
use html_tree_builder::select::Selector;
use html_tree_builder::serialize::escape_text;
use html_tree_builder::{Arena, NodeId, NodeOrText, QualName};
use std::alloc::Global;
use std::fmt::Write;

// Returns the marks of a heading, by the name of its element.
fn marks_of(name: &QualName) -> Option<&'static str> {
    match name.local.as_str() {
        "h1" => Some("#"),
        "h2" => Some("##"),
        "h3" => Some("###"),
        _ => None,
    }
}

/// Writes a line for each heading of a tree: its marks and its text.
pub fn outline(alloc: Global, arena: &Arena) -> anyhow::Result<String> {
    let mut lines = String::new(alloc);
    for id in arena.descendants(arena.document())? {
        if let Some(marks) = arena.name(id).and_then(marks_of) {
            let text = arena.text(id)?;
            write!(lines, "{marks} {text}\n")?;
        }
    }
    Ok(lines)
}

/// Finds the elements that a selector matches.
pub fn found(alloc: Global, arena: &Arena, selector: &str) -> anyhow::Result<Vec<NodeId>> {
    let selector = Selector::parse(alloc, selector)?;
    let found = selector.select(arena, arena.document())?;
    Ok(found)
}

/// Gives each link a `rel`, and removes each script.
pub fn tidy(alloc: Global, arena: &mut Arena) -> anyhow::Result<()> {
    for id in found(alloc, arena, "a[href]")? {
        if arena.holds(id) && arena.name(id).is_some() {
            arena.set_attr(id, "rel", "nofollow")?;
        }
    }
    for id in found(alloc, arena, "script")? {
        if arena.holds(id) {
            arena.detach(id)?;
        }
    }
    Ok(())
}

/// Gives each `em` another text, removes its class, and inserts a text before it.
pub fn reword(alloc: Global, arena: &mut Arena) -> anyhow::Result<()> {
    for id in found(alloc, arena, "em")? {
        if arena.holds(id) {
            arena.set_text(id, "two")?;
        }
        if arena.holds(id) {
            arena.remove_attr(id, "class");
        }
        let text = String::from_str(alloc, "one & ")?;
        arena.try_insert_before(id, NodeOrText::AppendText(text))?;
    }
    Ok(())
}

/// Counts the ancestors and siblings of a node, and shows what it holds.
pub fn around(alloc: Global, arena: &Arena, id: NodeId) -> anyhow::Result<String> {
    if !arena.holds(id) {
        return Ok(String::new(alloc));
    }
    let ancestors = arena.ancestors(id)?.len();
    let (before, after) = (
        arena.siblings_before(id).len(),
        arena.siblings_after(id).len(),
    );
    let inner = escape_text(alloc, arena.inner_html(id, true)?.as_str())?;
    let line = format!(in alloc; "{ancestors} above, {before} before, {after} after: {inner}")?;
    Ok(line)
}
