//! Reads of a block. If the bytes aren't a block, or there is no such node, each returns a status, 0 or `NOTHING`.
ghost use Rattle.std.specs.Prelude.{◌≡◌, ◌≢◌, ◌<◌, ◌≤◌, ◌==◌, ◌⊎◌, ◌&&◌, MatchOption, false, if◌then◌else◌, not, true};
ghost use Rattle.h5_c.specs.Status.{HandsOut};
ghost use Rattle.h5_tree_block.specs.Block as b;
ghost use Rattle.h5_tree_block.specs.Html as h;
ghost use Rattle.h5_tree_block.specs.Sound.{is_sound};

use super::status::{BAD_BLOCK, NO_NODE, OK, give};
use h5_tree_block::{NOTHING, Span, View, html_of};
use std::alloc::Global;

// The version of the library: 10,000 for each major version, 100 for each minor one, and the patch.
const VERSION: u32 = 300;

/// The version of the library.
#[unsafe(no_mangle)]
pub extern "C" fn hengaruto_version() -> u32
    ensures { result ≡ 300 }
{
    VERSION
}

/// The HTML of a node: with the node itself, or of its descendants only.
#[unsafe(no_mangle)]
pub extern "C" fn hengaruto_html(
    alloc: Global,
    block: &[u8],
    node: u32,
    outer: u32,
    html: &mut *mut u8,
    length: &mut usize,
) -> u32
    ensures no_tree { b.is_block block.now ≡ false → result ≡ 3 }
    ensures no_node { b.is_block block.now ≡ true → b.nodes_in block.now ≤ node → result ≡ 2 }
    ensures written { b.is_block block.now ≡ true → node < b.nodes_in block.now
        → HandsOut (h.html_of block.now node (not (outer == 0))) result length.new }
    ensures kept { result ≢ 0 → length.new ≡ length.old }
{
    let Some(view) = View::of(block) else {
        return BAD_BLOCK;
    };
    if node >= view.node_count() {
        return NO_NODE;
    }
    give(html_of(alloc, &view, node, outer != 0), html, length)
}

/// Returns `OK` if the nodes of a block are a tree, and each text, attribute and name lies within the block. Reads all of it.
#[unsafe(no_mangle)]
pub extern "C" fn hengaruto_check(block: &[u8]) -> u32
    ensures { result ≡ (if b.is_block block.now && is_sound block.now then 0 else 3) }
{
    match View::of(block) {
        Some(view) if view.is_sound() => OK,
        _ => BAD_BLOCK,
    }
}

/// The quirks mode.
#[unsafe(no_mangle)]
pub extern "C" fn hengaruto_quirks(block: &[u8]) -> u32
    ensures { result ≡ (if b.is_block block.now then b.quirks_in block.now else 0) }
{
    match View::of(block) {
        Some(view) => view.quirks(),
        None => 0,
    }
}

/// The number of nodes.
#[unsafe(no_mangle)]
pub extern "C" fn hengaruto_node_count(block: &[u8]) -> u32
    ensures { result ≡ (if b.is_block block.now then b.nodes_in block.now else 0) }
{
    match View::of(block) {
        Some(view) => view.node_count(),
        None => 0,
    }
}

/// The kind of a node.
#[unsafe(no_mangle)]
pub extern "C" fn hengaruto_kind(block: &[u8], node: u32) -> u32
    ensures { result ≡ (if b.is_block block.now then b.kind_in block.now node else 0) }
{
    match View::of(block) {
        Some(view) => view.kind(node),
        None => 0,
    }
}

/// The parent of a node, which has a smaller number.
#[unsafe(no_mangle)]
pub extern "C" fn hengaruto_parent(block: &[u8], node: u32) -> u32
    ensures read { result ≡ (if b.is_block block.now then b.parent_in block.now node else b.nothing) }
    ensures before { (result < node) ⊎ (result ≡ 4294967295) }
{
    match View::of(block) {
        Some(view) => view.parent(node),
        None => NOTHING,
    }
}

/// The first child of a node, which has a greater number.
#[unsafe(no_mangle)]
pub extern "C" fn hengaruto_first_child(block: &[u8], node: u32) -> u32
    ensures read { result ≡ (if b.is_block block.now then b.first_child_in block.now node else b.nothing) }
    ensures behind { (node < result) ⊎ (result ≡ 4294967295) }
{
    match View::of(block) {
        Some(view) => view.first_child(node),
        None => NOTHING,
    }
}

/// The next sibling of a node, which has a greater number.
#[unsafe(no_mangle)]
pub extern "C" fn hengaruto_next_sibling(block: &[u8], node: u32) -> u32
    ensures read { result ≡ (if b.is_block block.now then b.next_in block.now node else b.nothing) }
    ensures behind { (node < result) ⊎ (result ≡ 4294967295) }
{
    match View::of(block) {
        Some(view) => view.next(node),
        None => NOTHING,
    }
}

/// The first node after the descendants of a node: a greater number.
#[unsafe(no_mangle)]
pub extern "C" fn hengaruto_subtree_end(block: &[u8], node: u32) -> u32
    ensures read { result ≡ (if b.is_block block.now then b.end_in block.now node else b.nothing) }
    ensures behind { (node < result) ⊎ (result ≡ 4294967295) }
{
    match View::of(block) {
        Some(view) => view.end(node),
        None => NOTHING,
    }
}

/// The fragment that holds the contents of a template.
#[unsafe(no_mangle)]
pub extern "C" fn hengaruto_template_contents(block: &[u8], node: u32) -> u32
    ensures { result ≡ (if b.is_block block.now then b.contents_in block.now node else b.nothing) }
{
    match View::of(block) {
        Some(view) => view.contents(node),
        None => NOTHING,
    }
}

/// The number of the name of an element.
#[unsafe(no_mangle)]
pub extern "C" fn hengaruto_name(block: &[u8], node: u32) -> u32
    ensures { result ≡ (if b.is_block block.now then b.name_in block.now node else b.nothing) }
{
    match View::of(block) {
        Some(view) => view.name(node),
        None => NOTHING,
    }
}

/// The number of the namespace of a name.
#[unsafe(no_mangle)]
pub extern "C" fn hengaruto_namespace(block: &[u8], name: u32) -> u32
    ensures { result ≡ (if b.is_block block.now then b.namespace_in block.now name else 0) }
{
    match View::of(block) {
        Some(view) => view.namespace(name),
        None => 0,
    }
}

/// The number of the prefix of a name.
#[unsafe(no_mangle)]
pub extern "C" fn hengaruto_prefix(block: &[u8], name: u32) -> u32
    ensures { result ≡ (if b.is_block block.now then b.prefix_in block.now name else 0) }
{
    match View::of(block) {
        Some(view) => view.prefix(name),
        None => 0,
    }
}

/// Stores the offset and the length of bytes, if there are any.
pub(crate) fn put(span: Option<Span>, at: &mut usize, count: &mut usize) -> u32
    ensures is { MatchOption span (result ≡ 2) (λ span. (result ≡ 0) × (at.new ≡ span.at) × (count.new ≡ span.count)) }
    ensures kept { result ≢ 0 → (at.new ≡ at.old) × (count.new ≡ count.old) }
{
    match span {
        Some(span) => {
            *at = span.at;
            *count = span.count;
            OK
        }
        None => NO_NODE,
    }
}

/// The place of the text of a name.
#[unsafe(no_mangle)]
pub extern "C" fn hengaruto_name_text(
    block: &[u8],
    name: u32,
    at: &mut usize,
    count: &mut usize,
) -> u32
    ensures is { b.is_block block.now ≡ true → MatchOption (b.name_text_in block.now name) (result ≡ 2)
        (λ span. (result ≡ 0) × (at.new ≡ span.at) × (count.new ≡ span.count)) }
    ensures none { b.is_block block.now ≡ false → result ≡ 3 }
    ensures kept { result ≢ 0 → (at.new ≡ at.old) × (count.new ≡ count.old) }
{
    match View::of(block) {
        Some(view) => put(view.name_text(name), at, count),
        None => BAD_BLOCK,
    }
}

/// The place of the text of a node and its descendants.
#[unsafe(no_mangle)]
pub extern "C" fn hengaruto_text(block: &[u8], node: u32, at: &mut usize, count: &mut usize) -> u32
    ensures is { b.is_block block.now ≡ true → MatchOption (b.text_in block.now node) (result ≡ 2)
        (λ span. (result ≡ 0) × (at.new ≡ span.at) × (count.new ≡ span.count)) }
    ensures none { b.is_block block.now ≡ false → result ≡ 3 }
    ensures kept { result ≢ 0 → (at.new ≡ at.old) × (count.new ≡ count.old) }
{
    match View::of(block) {
        Some(view) => put(view.text(node), at, count),
        None => BAD_BLOCK,
    }
}

/// The number of rows of a node.
#[unsafe(no_mangle)]
pub extern "C" fn hengaruto_attribute_count(block: &[u8], node: u32) -> u32
    ensures { result ≡ (if b.is_block block.now then b.row_count_in block.now node else 0) }
{
    match View::of(block) {
        Some(view) => view.row_count(node),
        None => 0,
    }
}

/// A row of a node: the number of its name, and the place of its value.
#[unsafe(no_mangle)]
pub extern "C" fn hengaruto_attribute_at(
    block: &[u8],
    node: u32,
    index: u32,
    name: &mut u32,
    at: &mut usize,
    count: &mut usize,
) -> u32
    ensures is { b.is_block block.now ≡ true → MatchOption (b.row_in block.now node index) (result ≡ 2)
        (λ row. (result ≡ 0) × (name.new ≡ row.name) × (at.new ≡ row.value.at) × (count.new ≡ row.value.count)) }
    ensures none { b.is_block block.now ≡ false → result ≡ 3 }
    ensures kept { result ≢ 0 → (name.new ≡ name.old) × (at.new ≡ at.old) × (count.new ≡ count.old) }
{
    let Some(view) = View::of(block) else {
        return BAD_BLOCK;
    };
    match view.row(node, index) {
        Some(row) => {
            *name = row.name;
            put(Some(row.value), at, count)
        }
        None => NO_NODE,
    }
}
