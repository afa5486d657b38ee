//! Attributes and elements of a block by their names.
ghost use Rattle.std.specs.Prelude.{◌≡◌, ◌≢◌, ◌<◌, ◌⊎◌, MatchOption, false, if◌then◌else◌, true};
ghost use Rattle.html_tree_builder.specs.AttributeText.{is_same_text};
ghost use Rattle.h5_tree_block.specs.Block as b;
ghost use Rattle.h5_tree_block.specs.Read.{local_of};
ghost use Rattle.h5_c.specs.ByName as n;

use super::read::put;
use super::status::BAD_BLOCK;
use h5_tree_block::{ELEMENT, NOTHING, Row, View};

// Returns true if a name has this local name.
fn is_local(view: &View<'_>, name: u32, local: &[u8]) -> bool
    ensures { result ≡ is_same_text (local_of view.now.block.now name) local.now }
{
    match view.name_text(name) {
        Some(span) => view.str_at(span).as_bytes() == local,
        None => local.is_empty(),
    }
}

// Returns true if a row is an attribute without a namespace, with this local name.
fn is_attribute(view: &View<'_>, row: Row, local: &[u8]) -> bool
    ensures { result ≡ n.is_attribute view.now.block.now local.now row }
{
    view.namespace(row.name) == 0 && is_local(view, row.name, local)
}

// The row with an index, if it is such an attribute.
fn row_if_named(view: &View<'_>, node: u32, index: u32, local: &[u8]) -> Option<Row>
    ensures { result ≡ n.row_if_named view.now.block.now local.now node index }
{
    match view.row(node, index) {
        Some(row) if is_attribute(view, row, local) => Some(row),
        _ => None,
    }
}

// The first such attribute of an element.
fn attribute_named(view: &View<'_>, node: u32, local: &[u8]) -> Option<Row>
    ensures { result ≡ n.attribute_named view.now.block.now local.now node }
{
    if view.kind(node) != ELEMENT {
        return None;
    }
    for index in 0..view.row_count(node) {
        if let Some(row) = row_if_named(view, node, index, local) {
            return Some(row);
        }
    }
    None
}

// Returns true for an element with this local name.
fn is_element_named(view: &View<'_>, node: u32, local: &[u8]) -> bool
    ensures { result ≡ n.is_element_named view.now.block.now local.now node }
{
    view.kind(node) == ELEMENT && is_local(view, view.name(node), local)
}

// The first such element after a node.
fn next_named(view: &View<'_>, node: u32, local: &[u8]) -> u32
    ensures { result ≡ n.next_named view.now.block.now local.now node }
{
    if node >= view.node_count() {
        return NOTHING;
    }
    for next in node + 1..view.node_count() {
        if is_element_named(view, next, local) {
            return next;
        }
    }
    NOTHING
}

/// The place of the value of an element's attribute, by its local name. It has no namespace.
#[unsafe(no_mangle)]
pub extern "C" fn hengaruto_attribute(
    block: &[u8],
    node: u32,
    name: &[u8],
    at: &mut usize,
    count: &mut usize,
) -> u32
    ensures is { b.is_block block.now ≡ true → MatchOption (n.attribute_named block.now name.now node) (result ≡ 2)
        (λ row. (result ≡ 0) × (at.new ≡ row.value.at) × (count.new ≡ row.value.count)) }
    ensures none { b.is_block block.now ≡ false → result ≡ 3 }
    ensures kept { result ≢ 0 → (at.new ≡ at.old) × (count.new ≡ count.old) }
{
    let Some(view) = View::of(block) else {
        return BAD_BLOCK;
    };
    put(
        attribute_named(&view, node, name).map(|row| row.value),
        at,
        count,
    )
}

/// The next element after a node, in tree order, with this local name.
#[unsafe(no_mangle)]
pub extern "C" fn hengaruto_next_named(block: &[u8], node: u32, name: &[u8]) -> u32
    ensures { result ≡ (if b.is_block block.now then n.next_named block.now name.now node else b.nothing) }
{
    match View::of(block) {
        Some(view) => next_named(&view, node, name),
        None => NOTHING,
    }
}
