//! Tree builders over sinks that report every shadow root as attached, and count the options that they copy.
use super::feeding::take_lines;
use h5_arena::{Arena, NodeId};
use h5_interface::TreeSink;
use h5_tables::TreeBuilderOpts;
use h5_tests_sinks::{Attaching, html_of};
use h5_tree_builder::TreeBuilder;
use std::alloc::{AllocError, Global};
use std::process::Abort;
use std::test::Fail;

type Builder<const DETACHES: bool> = TreeBuilder<NodeId, Attaching<DETACHES>>;

// Lines of tokens, the HTML of their document, the number of copied options, and whether a template is left without a parent.
type Row = (&'static str, &'static str, usize, bool);

// A template that requests a shadow root in a `div`, with a text in it and one after it: the page has only the text after it.
const SHADOW_ROOT: Row = (
    "S div\nS template\nA shadowrootmode open\nT x\nE template\nT y",
    "<html><head></head><body><div>y</div></body></html>",
    0,
    true,
);

// An option is copied when it is closed.
const OPTIONS: [Row; 4] = [
    (
        "S option\nE option",
        "<html><head></head><body><option></option></body></html>",
        1,
        false,
    ),
    (
        "S option\nS option",
        "<html><head></head><body><option></option><option></option></body></html>",
        0,
        false,
    ),
    (
        "S option\nS option\nE option",
        "<html><head></head><body><option></option><option></option></body></html>",
        1,
        false,
    ),
    ("E option", "", 0, false),
];

// Returns true if a template of an arena has no parent.
fn has_loose_template(arena: &Arena) -> bool {
    for place in 0..arena.len() {
        let Some(node) = arena.id(place) else {
            return false;
        };
        if arena.contents(node).is_some() && arena.parent(node).is_none() {
            return true;
        }
    }
    false
}

fn new_builder<const DETACHES: bool>(alloc: Global) -> Result<Builder<DETACHES>, AllocError> {
    let sink = Attaching::new(alloc)?;
    Ok(TreeBuilder::new(alloc, sink, TreeBuilderOpts::default()))
}

fn check<const DETACHES: bool>(
    rt: &impl Abort,
    alloc: Global,
    (lines, page, copies, has_loose): Row,
) -> Result<(), Fail> {
    let mut builder: Builder<DETACHES> = new_builder(alloc)?;
    let taken = take_lines(&mut builder, alloc, lines);
    let sink = builder.into_sink();
    assert_eq!(rt; sink.copies, copies, "{lines}");
    let arena = sink.finish();
    assert_eq!(rt; has_loose_template(&arena), has_loose, "{lines}");
    let html = html_of(alloc, &arena);
    drop(arena);
    taken?;
    let html = html?;
    assert_eq!(rt; html.as_slice(), page.as_bytes(), "{lines}");
    Ok(())
}

#[test]
fn a_sink_may_say_that_it_attached_a_shadow_root(rt: HostRuntime) -> Result<(), Fail> {
    check::<false>(&rt, rt.alloc(), SHADOW_ROOT)?;
    check::<true>(&rt, rt.alloc(), SHADOW_ROOT)
}

#[test]
fn an_option_is_copied_when_it_is_closed(rt: HostRuntime) -> Result<(), Fail> {
    for &row in &OPTIONS {
        check::<false>(&rt, rt.alloc(), row)?;
    }
    Ok(())
}
