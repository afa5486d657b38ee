//! Calls of the serializer, and their text.
use super::arena::{attribute_of, name_of};
use super::trees::write_deep_tree;
use h5_names::{Attribute, QualName, namespaces};
use h5_serialize::{HtmlSerializer, SerializeFault, SerializeOpts, Serializer, TraversalScope};
use h5_tests_sinks::Broken;
use std::alloc::{AllocError, Global};
use std::process::Abort;
use std::test::Fail;

/// One call, with borrowed texts. Elements are HTML elements without attributes, and "drawn" ones SVG elements, whose attributes each have
/// a namespace, a name and a value.
#[derive(Clone, Copy)]
pub enum Step<'a> {
    Open(&'a str),
    Close(&'a str),
    OpenDrawn(&'a str, &'a [(&'a str, &'a str, &'a str)]),
    CloseDrawn(&'a str),
    Text(&'a str),
    Comment(&'a str),
    Doctype(&'a str),
    Instruction(&'a str, &'a str),
}

use Step::{Close, CloseDrawn, Comment, Doctype, Instruction, Open, OpenDrawn, Text};

/// The options of a serializer.
#[derive(Clone, Copy)]
pub enum Options {
    Default,
    WithoutScripting,
    MakingParents,
    /// Directly inside an element, by its namespace and its name.
    Inside(&'static str, &'static str),
}

use Options::{Default, Inside, MakingParents, WithoutScripting};

impl Options {
    /// The options as the serializer takes them.
    pub fn opts(self, alloc: Global) -> Result<SerializeOpts, AllocError> {
        let scope = match self {
            Inside(ns, local) => TraversalScope::ChildrenOnly(Some(name_of(alloc, ns, local)?)),
            WithoutScripting => TraversalScope::IncludeNode,
            Default | MakingParents => TraversalScope::ChildrenOnly(None),
        };
        Ok(SerializeOpts {
            scripting_enabled: !matches!(self, WithoutScripting),
            traversal_scope: scope,
            create_missing_parent: matches!(self, MakingParents),
        })
    }
}

/// The options, the calls, the indices of those that fail because they have no parent, and the text of all of them.
pub type Walk = (
    Options,
    &'static [Step<'static>],
    &'static [usize],
    &'static str,
);

#[rattlefmt::skip]
pub const WALKS: [Walk; 19] = [
    (Default, &[Open("div"), Text("a\u{a0}&<>\"\u{a2}")], &[], "<div>a&nbsp;&amp;&lt;&gt;\"\u{a2}"),
    // Void elements have no end tag, and elements in them are omitted.
    (Default, &[Open("img"), Open("b"), Text("x"), Comment("c"), Close("b"), Close("img")], &[], "<img>x<!--c-->"),
    (Default, &[Open("br"), Text("x"), Open("b"), Close("b"), Close("br"), Open("p")], &[], "<br>x<p>"),
    (Default, &[OpenDrawn("br", &[]), CloseDrawn("br")], &[], "<br></br>"),
    // Raw texts, directly inside their elements.
    (Default, &[Open("noscript"), Text("<"), Close("noscript")], &[], "<noscript><</noscript>"),
    (WithoutScripting, &[Open("noscript"), Text("<"), Close("noscript")], &[], "<noscript>&lt;</noscript>"),
    (Default, &[Open("style"), Open("b"), Text("<"), Close("b"), Text("<")], &[], "<style><b>&lt;</b><"),
    (Default, &[Open("style"), Text("<"), Close("style"), Text("\u{a0}&")], &[], "<style><</style>&nbsp;&amp;"),
    (Default, &[OpenDrawn("style", &[]), Text("<")], &[], "<style>&lt;"),
    (Default, &[Doctype("html"), Comment("a<b"), Instruction("xml", "a=\"b\"")], &[], "<!DOCTYPE html><!--a<b--><?xml a=\"b\">"),
    (Default, &[Doctype("html"), Open("p"), Text("a<b"), Close("p")], &[], "<!DOCTYPE html><p>a&lt;b</p>"),
    (Default, &[Open("i"), Comment("c"), Instruction("i", "j"), Close("i")], &[], "<i><!--c--><?i j></i>"),
    // The output is inside an element: its name decides if texts are raw, but it is never void.
    (Inside(namespaces::SVG, "style"), &[Text("<")], &[], "<"),
    (Inside(namespaces::HTML, "p"), &[Text("<")], &[], "&lt;"),
    (Inside(namespaces::HTML, "br"), &[Open("b"), Close("b")], &[], "<b></b>"),
    // A call without a parent.
    (Default, &[Close("p"), Close("p"), Text("a"), Open("b"), Comment("c")], &[1, 2, 3], "</p><!--c-->"),
    (MakingParents, &[Close("p"), Text("a<"), Close("q"), Close("r")], &[], "</p>a&lt;</q></r>"),
    (MakingParents, &[Close("p"), Close("p")], &[], "</p></p>"),
    (Default, &[OpenDrawn("a", &[
        (namespaces::XLINK, "href", "\""), (namespaces::XML, "lang", "e"), (namespaces::XMLNS, "xmlns", "u"),
        (namespaces::XMLNS, "xlink", "v"), ("q", "z", "w"), ("", "class", "\u{a0}<&>'"),
    ])], &[], "<a xlink:href=\"&quot;\" xml:lang=\"e\" xmlns=\"u\" xmlns:xlink=\"v\" unknown_namespace:z=\"w\" class=\"&nbsp;&lt;&amp;&gt;'\">"),
];

fn attributes_of(
    alloc: Global,
    attrs: &[(&str, &str, &str)],
) -> Result<Vec<Attribute>, AllocError> {
    let mut list = Vec::new(alloc);
    for (ns, local, value) in attrs {
        list.push(attribute_of(alloc, ns, local, value)?)?;
    }
    Ok(list)
}

/// Makes a call.
pub fn make<S: Serializer>(
    serializer: &mut S,
    alloc: Global,
    step: Step<'_>,
) -> Result<(), SerializeFault> {
    match step {
        Open(local) => {
            let attrs: Vec<Attribute> = Vec::new(alloc);
            serializer.start_elem(name_of(alloc, namespaces::HTML, local)?, attrs.iter())
        }
        Close(local) => serializer.end_elem(name_of(alloc, namespaces::HTML, local)?),
        OpenDrawn(local, attrs) => {
            let attrs = attributes_of(alloc, attrs)?;
            serializer.start_elem(name_of(alloc, namespaces::SVG, local)?, attrs.iter())
        }
        CloseDrawn(local) => serializer.end_elem(name_of(alloc, namespaces::SVG, local)?),
        Text(text) => serializer.write_text(text),
        Comment(text) => serializer.write_comment(text),
        Doctype(name) => serializer.write_doctype(name),
        Instruction(target, content) => serializer.write_processing_instruction(target, content),
    }
}

/// A serializer to a writer whose write after the given number of others fails.
pub fn breaking(
    alloc: Global,
    opts: SerializeOpts,
    before: usize,
) -> Result<HtmlSerializer<Broken>, SerializeFault> {
    HtmlSerializer::new(alloc, Broken::new(Vec::new(alloc), before), opts)
}

// A serializer to a writer that doesn't fail.
fn whole(alloc: Global) -> Result<HtmlSerializer<Broken>, SerializeFault> {
    breaking(alloc, SerializeOpts::default(), usize::MAX)
}

// Makes calls with borrowed names, and with attributes as pairs.
fn make_lent<S: Serializer>(
    serializer: &mut S,
    alloc: Global,
    element: &QualName,
    pairs: &[(&QualName, &str)],
) -> Result<(), SerializeFault> {
    serializer.start_elem(element.clone()?, pairs.iter().copied())?;
    serializer.end_elem_ref(element)?;
    let none: Vec<Attribute> = Vec::new(alloc);
    serializer.start_elem_ref(element, none.iter())?;
    serializer.end_elem_ref(element)
}

fn write_lent(
    serializer: &mut HtmlSerializer<Broken>,
    alloc: Global,
) -> Result<(), SerializeFault> {
    let element = name_of(alloc, namespaces::HTML, "p")?;
    let id = name_of(alloc, namespaces::NONE, "id")?;
    let title = name_of(alloc, namespaces::NONE, "title")?;
    make_lent(serializer, alloc, &element, &[(&id, "1"), (&title, "a\"b")])
}

#[test]
fn names_and_attributes_may_be_lent(rt: HostRuntime) -> Result<(), Fail> {
    let mut serializer = whole(rt.alloc())?;
    let written = write_lent(&mut serializer, rt.alloc());
    let html = "<p id=\"1\" title=\"a&quot;b\"></p><p></p>";
    assert_eq!(rt; serializer.writer.bytes(), html.as_bytes());
    drop(serializer);
    written?;
    Ok(())
}

#[test]
fn options_have_defaults(rt: HostRuntime) {
    let default = SerializeOpts::default();
    assert!(rt; default.scripting_enabled && !default.create_missing_parent);
    assert!(rt; default.traversal_scope == TraversalScope::ChildrenOnly(None));
}

// The place where a character is written a million times.
#[derive(Clone, Copy)]
enum Place {
    InText,
    InValue,
}

use Place::{InText, InValue};

// The number of bytes written for a text in this place.
fn length_of(
    serializer: &mut HtmlSerializer<Broken>,
    alloc: Global,
    place: Place,
    text: &str,
) -> Result<usize, SerializeFault> {
    match place {
        InText => make(serializer, alloc, Text(text))?,
        InValue => make(serializer, alloc, OpenDrawn("p", &[("", "a", text)]))?,
    }
    Ok(serializer.writer.bytes().len())
}

fn write_long(
    rt: &impl Abort,
    alloc: Global,
    place: Place,
    (character, expected): (&str, usize),
) -> Result<(), Fail> {
    let text = character.repeat(alloc, 1_000_000)?;
    let mut serializer = whole(alloc)?;
    let length = length_of(&mut serializer, alloc, place, text.as_str());
    drop(serializer);
    assert_eq!(rt; length?, expected, "{character}");
    Ok(())
}

fn write_all_long(
    rt: &impl Abort,
    alloc: Global,
    place: Place,
    rows: &[(&str, usize)],
) -> Result<(), Fail> {
    for &row in rows {
        write_long(rt, alloc, place, row)?;
    }
    Ok(())
}

#[test]
fn long_texts_take_no_quadratic_time(rt: HostRuntime) -> Result<(), Fail> {
    let rows = [
        ("\"", 1_000_000),
        ("\u{a0}", 6_000_000),
        ("<", 4_000_000),
        ("\u{a2}", 2_000_000),
        ("a", 1_000_000),
    ];
    write_all_long(&rt, rt.alloc(), InText, &rows)
}

// The values are split between two tests, so that each ends in time without optimization.
#[test]
fn long_values_take_no_quadratic_time(rt: HostRuntime) -> Result<(), Fail> {
    let rows = [("\"", 6_000_008), ("\u{a0}", 6_000_008)];
    write_all_long(&rt, rt.alloc(), InValue, &rows)
}

#[test]
fn other_long_values_take_no_quadratic_time(rt: HostRuntime) -> Result<(), Fail> {
    let rows = [("<", 4_000_008), ("\u{a2}", 2_000_008), ("a", 1_000_008)];
    write_all_long(&rt, rt.alloc(), InValue, &rows)
}

// Makes one call a hundred thousand times.
fn make_often(
    serializer: &mut HtmlSerializer<Broken>,
    alloc: Global,
    step: Step<'_>,
) -> Result<(), SerializeFault> {
    for _ in 0..100_000 {
        make(serializer, alloc, step)?;
    }
    Ok(())
}

// Nested elements, a hundred thousand deep.
fn write_deep(rt: &impl Abort, alloc: Global) -> Result<(), Fail> {
    let mut serializer = whole(alloc)?;
    let opened = make_often(&mut serializer, alloc, Open("div"));
    let closed = make_often(&mut serializer, alloc, Close("div"));
    assert_eq!(rt; serializer.writer.bytes().len(), 1_100_000);
    drop(serializer);
    opened?;
    closed?;
    Ok(())
}

#[test]
fn deep_trees_are_written(rt: HostRuntime) -> Result<(), Fail> {
    write_deep(&rt, rt.alloc())?;
    write_deep_tree(rt.alloc(), &rt)
}
