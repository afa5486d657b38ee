//! A tree as a block, and reads of it.
use super::arena::small_tree;
use h5_arena::Arena;
use h5_tree_block::{
    COMMENT, DOCUMENT, ELEMENT, NOTHING, TEXT, Unpacked, View, arena_of, columns_of_document,
    html_of,
};
use std::alloc::Global;
use std::process::Abort;
use std::test::Fail;

fn pack(arena: &mut Arena, alloc: Global, rt: &impl Abort) -> Result<Vec<u8>, Fail> {
    small_tree(arena, alloc, "x", "some text", rt)?;
    let columns = columns_of_document(alloc, arena, true)?;
    let block = columns.pack(alloc);
    drop(columns);
    Ok(block?)
}

// The block of a document with a `p` that has an id, a text and a comment.
fn new_block(alloc: Global, rt: &impl Abort) -> Result<Vec<u8>, Fail> {
    let mut arena = Arena::new(alloc)?;
    let block = pack(&mut arena, alloc, rt);
    drop(arena);
    block
}

fn check_nodes(rt: &impl Abort, view: &View<'_>) {
    assert!(rt; view.is_sound());
    assert_eq!(rt; view.node_count(), 4);
    assert_eq!(rt; view.quirks(), 0);
    assert!(rt; view.is_scripting());
    assert_eq!(rt; view.kind(0), DOCUMENT);
    assert_eq!(rt; view.kind(1), ELEMENT);
    assert_eq!(rt; view.kind(2), TEXT);
    assert_eq!(rt; view.kind(3), COMMENT);
    assert_eq!(rt; view.kind(4), 0);
    assert_eq!(rt; view.parent(2), 1);
    assert_eq!(rt; view.first_child(1), 2);
    assert_eq!(rt; view.next(2), 3);
    assert_eq!(rt; view.next(3), NOTHING);
    assert_eq!(rt; view.end(1), 4);
    assert_eq!(rt; view.contents(1), NOTHING);
}

fn check_texts(rt: &impl Abort, view: &View<'_>) -> Result<(), Fail> {
    let name = view.name_text(view.name(1)).ok_or("no name")?;
    assert_eq!(rt; view.str_at(name), "p");
    assert_eq!(rt; view.namespace(view.name(1)), 1);
    assert_eq!(rt; view.prefix(view.name(1)), 0);
    let text = view.text(1).ok_or("no text")?;
    assert_eq!(rt; view.str_at(text), "some text");
    assert_eq!(rt; view.row_count(1), 1);
    let row = view.row(1, 0).ok_or("no row")?;
    assert_eq!(rt; view.str_at(row.value), "x");
    Ok(())
}

fn check_html(rt: &impl Abort, alloc: Global, view: &View<'_>) -> Result<(), Fail> {
    let html = html_of(alloc, view, 1, true)?;
    let expected = "<p id=\"x\">some text<!--a note--></p>";
    assert_eq!(rt; html.as_slice(), expected.as_bytes());
    Ok(())
}

fn check_unpacked(rt: &impl Abort, alloc: Global, unpacked: &Unpacked) -> Result<(), Fail> {
    let p = unpacked.id(1).ok_or("no node")?;
    assert!(rt; unpacked.arena.holds(p));
    let inner = unpacked.arena.inner_html(p, true)?;
    assert_eq!(rt; inner.as_str(), "some text<!--a note-->");
    let numbers = unpacked.numbers(alloc, &[p])?.ok_or("no numbers")?;
    assert_eq!(rt; numbers.as_slice(), [1u32].as_slice());
    Ok(())
}

// The block becomes a tree again.
fn unpack(rt: &impl Abort, alloc: Global, view: &View<'_>) -> Result<(), Fail> {
    let unpacked = arena_of(alloc, view)?.ok_or("no tree")?;
    let checked = check_unpacked(rt, alloc, &unpacked);
    drop(unpacked);
    checked
}

#[test]
fn a_tree_is_read_out_of_its_block(rt: HostRuntime) -> Result<(), Fail> {
    let block = new_block(rt.alloc(), &rt)?;
    let view = View::of(block.as_slice()).ok_or("no block")?;
    check_nodes(&rt, &view);
    check_texts(&rt, &view)?;
    check_html(&rt, rt.alloc(), &view)?;
    unpack(&rt, rt.alloc(), &view)
}
