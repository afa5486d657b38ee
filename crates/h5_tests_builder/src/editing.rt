//! Edits at one node of a page.
use h5_arena::{Arena, NodeId};
use h5_driver::ParseOpts;
use h5_driver::standard::parse_document;
use h5_edit::{Edit, EditFault, edit_node};
use h5_selectors::Selector;
use std::alloc::Global;
use std::process::Abort;
use std::test::Fail;

const PAGE: &str = "<!DOCTYPE html><p>a<b class=k>c</b>d</p><div>1<i>2</i>3</div>";

// The row's edit, at `b`; what is inserted is the content of `div`. Then the content of the body.
const ROWS: [(Wanted, &str); 10] = [
    (Wanted::Remove, "<p>ad</p><div>1<i>2</i>3</div>"),
    (Wanted::Unwrap, "<p>acd</p><div>1<i>2</i>3</div>"),
    (
        Wanted::Set,
        "<p>a<b class=\"k\" id=\"x\">c</b>d</p><div>1<i>2</i>3</div>",
    ),
    (Wanted::Unset, "<p>a<b>c</b>d</p><div>1<i>2</i>3</div>"),
    (
        Wanted::Text,
        "<p>a<b class=\"k\">t</b>d</p><div>1<i>2</i>3</div>",
    ),
    (
        Wanted::Before,
        "<p>a1<i>2</i>3<b class=\"k\">c</b>d</p><div>13</div>",
    ),
    (
        Wanted::After,
        "<p>a<b class=\"k\">c</b>1<i>2</i>3d</p><div>13</div>",
    ),
    (
        Wanted::Prepend,
        "<p>a<b class=\"k\">1<i>2</i>3c</b>d</p><div>13</div>",
    ),
    (
        Wanted::Append,
        "<p>a<b class=\"k\">c1<i>2</i>3</b>d</p><div>13</div>",
    ),
    (Wanted::Replace, "<p>a1<i>2</i>3d</p><div>13</div>"),
];

// An edit of a row.
#[derive(Clone, Copy)]
enum Wanted {
    Remove,
    Unwrap,
    Set,
    Unset,
    Text,
    Before,
    After,
    Prepend,
    Append,
    Replace,
}

// Does the edit of a row, with the content of another node.
fn edit_as(
    alloc: Global,
    arena: &mut Arena,
    id: NodeId,
    wanted: Wanted,
    from: NodeId,
) -> Result<(), EditFault> {
    if !arena.holds(id) || !arena.holds(from) {
        return Err(EditFault::NotAChild);
    }
    let (name, value) = ("id", "x");
    match wanted {
        Wanted::Remove => edit_node(alloc, arena, id, &Edit::Remove),
        Wanted::Unwrap => edit_node(alloc, arena, id, &Edit::Unwrap),
        Wanted::Set => edit_node(alloc, arena, id, &Edit::SetAttribute { name, value }),
        Wanted::Unset => edit_node(alloc, arena, id, &Edit::RemoveAttribute { name: "class" }),
        Wanted::Text => edit_node(alloc, arena, id, &Edit::SetText { text: "t" }),
        Wanted::Before => edit_node(alloc, arena, id, &Edit::InsertBefore { from }),
        Wanted::After => edit_node(alloc, arena, id, &Edit::InsertAfter { from }),
        Wanted::Prepend => edit_node(alloc, arena, id, &Edit::Prepend { from }),
        Wanted::Append => edit_node(alloc, arena, id, &Edit::Append { from }),
        Wanted::Replace => edit_node(alloc, arena, id, &Edit::Replace { from }),
    }
}

// The first element that a selector matches.
fn first(alloc: Global, arena: &Arena, selector: &str) -> Result<NodeId, Fail> {
    match Selector::parse(alloc, selector)?.select_first(arena, arena.document())? {
        Some(id) => Ok(id),
        None => Err("the element is there".into()),
    }
}

// Does an edit at one element of a page, with the content of another.
fn edited(
    alloc: Global,
    arena: &mut Arena,
    (at, wanted, with): (&str, Wanted, &str),
) -> Result<Result<(), EditFault>, Fail> {
    let id = first(alloc, arena, at)?;
    let from = first(alloc, arena, with)?;
    Ok(edit_as(alloc, arena, id, wanted, from))
}

fn page(alloc: Global) -> Result<Arena, Fail> {
    Ok(parse_document(alloc, Arena::new(alloc)?, ParseOpts::default()).one(PAGE)?)
}

fn check_rows(rt: &impl Abort, alloc: Global) -> Result<(), Fail> {
    for &(wanted, html) in &ROWS {
        let mut arena = page(alloc)?;
        edited(alloc, &mut arena, ("b", wanted, "div"))??;
        let body = first(alloc, &arena, "body")?;
        assert!(rt; arena.holds(body));
        let left = arena.inner_html(body, true)?;
        assert_eq!(rt; left.as_str(), html);
    }
    Ok(())
}

#[test]
fn a_node_is_edited(rt: HostRuntime) -> Result<(), Fail> {
    let alloc = rt.alloc();
    check_rows(&rt, alloc)?;
    let mut arena = page(alloc)?;
    let inside = edited(alloc, &mut arena, ("i", Wanted::Append, "div"))?;
    assert!(rt; matches!(inside, Err(EditFault::WouldBeCycle)));
    let document = arena.document();
    let alone = edit_node(alloc, &mut arena, document, &Edit::Remove);
    assert!(rt; matches!(alone, Err(EditFault::NotAChild)));
    let text = edit_node(alloc, &mut arena, document, &Edit::SetText { text: "t" });
    assert!(rt; matches!(text, Err(EditFault::NotAnElement)));
    Ok(())
}
