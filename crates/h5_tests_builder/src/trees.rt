//! Trees of an arena as HTML.
use super::arena::{new_element, new_template, small_tree, text_child};
use h5_arena::{Arena, NodeId};
use h5_interface::{NodeOrText, TreeSink};
use h5_serialize::{SerializeFault, SerializeOpts, TraversalScope, serialize};
use std::alloc::{AllocError, Global};
use std::process::Abort;
use std::test::Fail;

fn put_doctype(arena: &mut Arena, alloc: Global) -> Result<(), AllocError> {
    let name = String::from_str(alloc, "html")?;
    arena.append_doctype_to_document(name, String::new(alloc), String::new(alloc))
}

/// The nodes of a document.
#[derive(Clone, Copy)]
pub struct Parts {
    template: NodeId,
    element: NodeId,
}

/// Builds a document: a doctype, a template, a text and an element.
pub fn build_document(arena: &mut Arena, alloc: Global, rt: &impl Abort) -> Result<Parts, Fail> {
    put_doctype(arena, alloc)?;
    let element = small_tree(arena, alloc, "\"x\"", "1 < 2", rt)?;
    let template = new_template(arena, alloc, "inside", rt)?;
    arena.try_insert_before(element, NodeOrText::AppendNode(template))?;
    arena.try_insert_before(element, text_child(alloc, "&")?)?;
    Ok(Parts { template, element })
}

/// Its HTML.
pub const DOCUMENT: &str =
    "<!DOCTYPE html><template>inside</template>&amp;<p id=\"&quot;x&quot;\">1 &lt; 2<!--a note--></p>";

// The part of a node that is written.
#[derive(Clone, Copy)]
enum Part {
    Whole,
    Children,
}

use Part::{Children, Whole};

fn check(
    arena: &Arena,
    alloc: Global,
    (id, part, expected): (NodeId, Part, &str),
    rt: &impl Abort,
) -> Result<(), SerializeFault> {
    assert!(rt; arena.holds(id));
    let opts = SerializeOpts {
        scripting_enabled: true,
        traversal_scope: match part {
            Whole => TraversalScope::IncludeNode,
            Children => TraversalScope::ChildrenOnly(None),
        },
        create_missing_parent: false,
    };
    let written = serialize(alloc, Vec::new(alloc), &arena.at(id), opts)?;
    assert_eq!(rt; written.as_slice(), expected.as_bytes());
    Ok(())
}

fn check_document(arena: &mut Arena, alloc: Global, rt: &impl Abort) -> Result<(), Fail> {
    let Parts { template, element } = build_document(arena, alloc, rt)?;
    let document = arena.document();
    let outer = "<p id=\"&quot;x&quot;\">1 &lt; 2<!--a note--></p>";
    for &row in &[
        (document, Whole, DOCUMENT),
        (document, Children, DOCUMENT),
        (element, Whole, outer),
        (element, Children, "1 &lt; 2<!--a note-->"),
        (template, Whole, "<template>inside</template>"),
        (template, Children, "inside"),
    ] {
        check(arena, alloc, row, rt)?;
    }
    Ok(())
}

#[test]
fn trees_are_written(rt: HostRuntime) -> Result<(), Fail> {
    let mut arena = Arena::new(rt.alloc())?;
    let checked = check_document(&mut arena, rt.alloc(), &rt);
    drop(arena);
    checked
}

// A hundred thousand elements, each in the next. Returns the outermost.
fn build_nest(arena: &mut Arena, alloc: Global) -> Result<NodeId, Fail> {
    let mut outer = new_element(arena, alloc, "b")?;
    for _ in 1..100_000 {
        let inner = outer;
        outer = new_element(arena, alloc, "b")?;
        arena.try_append(outer, NodeOrText::AppendNode(inner))?;
    }
    Ok(outer)
}

// The length of its HTML in bytes.
fn length_of_nest(arena: &mut Arena, alloc: Global, rt: &impl Abort) -> Result<usize, Fail> {
    let outer = build_nest(arena, alloc)?;
    assert!(rt; arena.holds(outer));
    let html = arena.inner_html(outer, true)?;
    Ok(html.len())
}

/// Writes nested elements, a hundred thousand deep.
pub fn write_deep_tree(alloc: Global, rt: &impl Abort) -> Result<(), Fail> {
    let mut arena = Arena::new(alloc)?;
    let length = length_of_nest(&mut arena, alloc, rt);
    drop(arena);
    assert_eq!(rt; length?, 99_999 * 7);
    Ok(())
}
