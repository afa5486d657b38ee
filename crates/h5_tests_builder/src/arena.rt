//! Calls of the arena that no text causes: each that allocates succeeds once.
use h5_arena::{Arena, NodeId};
use h5_interface::example::build_small_tree;
use h5_interface::{NodeOrText, TreeSink, create_element, create_element_with_flags};
use h5_names::{Attribute, LocalName, Namespace, QualName, namespaces};
use std::alloc::{AllocError, Global};
use std::process::Abort;
use std::test::Fail;

fn name_in(alloc: Global, ns: Namespace, local: &str) -> Result<QualName, AllocError> {
    let local = LocalName::new(alloc, local)?;
    Ok(QualName::new(None, ns, local))
}

/// A name in the namespace with this URL.
pub fn name_of(alloc: Global, ns: &str, local: &str) -> Result<QualName, AllocError> {
    let ns = Namespace::new(alloc, ns)?;
    name_in(alloc, ns, local)
}

/// An attribute with this name.
pub fn attribute_of(
    alloc: Global,
    ns: &str,
    local: &str,
    value: &str,
) -> Result<Attribute, AllocError> {
    let name = name_of(alloc, ns, local)?;
    let value = String::from_str(alloc, value)?;
    Ok(Attribute { name, value })
}

// A list of one attribute without a namespace.
fn one_attribute(alloc: Global, local: &str, value: &str) -> Result<Vec<Attribute>, AllocError> {
    let mut attrs = Vec::new(alloc);
    attrs.push(attribute_of(alloc, namespaces::NONE, local, value)?)?;
    Ok(attrs)
}

/// A text as a child.
pub fn text_child(alloc: Global, text: &str) -> Result<NodeOrText<NodeId>, AllocError> {
    Ok(NodeOrText::AppendText(String::from_str(alloc, text)?))
}

/// A new HTML element without attributes.
pub fn new_element(arena: &mut Arena, alloc: Global, local: &str) -> Result<NodeId, AllocError> {
    let name = name_of(alloc, namespaces::HTML, local)?;
    create_element(arena, name, Vec::new(alloc))
}

// The small tree with this text.
fn build_with_text(
    arena: &mut Arena,
    name: QualName,
    attrs: Vec<Attribute>,
    text: String,
    alloc: Global,
    rt: &impl Abort,
) -> Result<NodeId, AllocError> {
    assert!(rt; text.len() > 0);
    let note = String::from_str(alloc, "a note")?;
    build_small_tree(arena, name, attrs, text, note)
}

/// A `p` in the document, with an `id`, a text and a comment.
pub fn small_tree(
    arena: &mut Arena,
    alloc: Global,
    id: &str,
    text: &str,
    rt: &impl Abort,
) -> Result<NodeId, AllocError> {
    let attrs = one_attribute(alloc, "id", id)?;
    let name = name_of(alloc, namespaces::HTML, "p")?;
    let text = String::from_str(alloc, text)?;
    build_with_text(arena, name, attrs, text, alloc, rt)
}

/// A new template with a text in its contents.
pub fn new_template(
    arena: &mut Arena,
    alloc: Global,
    text: &str,
    rt: &impl Abort,
) -> Result<NodeId, Fail> {
    let template = new_element(arena, alloc, "template")?;
    assert!(rt; arena.holds(template));
    let contents = arena.contents(template).ok_or("a template has contents")?;
    arena.try_append(contents, text_child(alloc, text)?)?;
    Ok(template)
}

// Inserts a text before a node that has a parent.
fn put_text_before(
    arena: &mut Arena,
    sibling: NodeId,
    text: String,
    rt: &impl Abort,
) -> Result<(), AllocError> {
    assert!(rt; arena.holds(sibling));
    assert!(rt; text.len() > 0);
    match arena.parent(sibling) {
        Some(_) => arena.append_before_sibling(&sibling, NodeOrText::AppendText(text)),
        None => Ok(()),
    }
}

// Adds the missing attributes to an element.
fn add_attributes(
    arena: &mut Arena,
    id: NodeId,
    attrs: Vec<Attribute>,
    rt: &impl Abort,
) -> Result<(), AllocError> {
    assert!(rt; arena.holds(id));
    match arena.name(id) {
        Some(_) => arena.add_attrs_if_missing(&id, attrs),
        None => Ok(()),
    }
}

// Reports an option as closed.
fn copy_option(arena: &mut Arena, id: NodeId, rt: &impl Abort) -> Result<(), AllocError> {
    assert!(rt; arena.holds(id));
    match arena.name(id) {
        Some(_) => arena.maybe_clone_an_option_into_selectedcontent(&id),
        None => Ok(()),
    }
}

// Makes an element its own form.
fn own(arena: &mut Arena, id: NodeId, rt: &impl Abort) {
    assert!(rt; arena.holds(id));
    match arena.name(id) {
        Some(_) => arena.associate_with_form(&id, &id, (&id, None)),
        None => {}
    }
}

// Requests a shadow root for the document.
fn attach_shadow(arena: &mut Arena, template: NodeId, rt: &impl Abort) -> Result<bool, AllocError> {
    let document = arena.document();
    assert!(rt; arena.holds(document) && arena.holds(template));
    arena.attach_declarative_shadow(&document, &template, &[])
}

// Makes the calls of the sink that no text causes. Returns the `p` of the document.
fn call_sink(arena: &mut Arena, alloc: Global, rt: &impl Abort) -> Result<NodeId, Fail> {
    let root = small_tree(arena, alloc, "x", "some text", rt)?;
    let target = String::from_str(alloc, "xml")?;
    let instruction = arena.create_pi(target, String::from_str(alloc, "y")?)?;
    arena.try_append(root, NodeOrText::AppendNode(instruction))?;
    put_text_before(arena, root, String::from_str(alloc, "a")?, rt)?;
    add_attributes(arena, root, one_attribute(alloc, "class", "z")?, rt)?;
    copy_option(arena, root, rt)?;
    own(arena, root, rt);
    assert!(rt; !attach_shadow(arena, root, rt)?);
    Ok(root)
}

// A copy of a node, which has no parent.
fn copy(arena: &mut Arena, id: NodeId, rt: &impl Abort) -> Result<NodeId, Fail> {
    assert!(rt; arena.holds(id));
    let copy = arena.copy(id)?;
    let html = arena.outer_html(copy, true)?;
    assert_eq!(rt;
        html.as_str(),
        "<p id=\"x\" class=\"z\">some text<!--a note--><?xml y><template>held</template></p>"
    );
    assert_eq!(rt; arena.parent(copy), None);
    Ok(copy)
}

// Gives an element another `id` and another text.
fn reword(arena: &mut Arena, id: NodeId, rt: &impl Abort) -> Result<(), AllocError> {
    assert!(rt; arena.holds(id));
    match arena.name(id) {
        Some(_) => {
            arena.set_attr(id, "id", "w")?;
            arena.set_text(id, "new")
        }
        None => Ok(()),
    }
}

// Makes the calls that edit a tree and allocate: a copy of the `p` replaces it.
fn edit(arena: &mut Arena, root: NodeId, alloc: Global, rt: &impl Abort) -> Result<(), Fail> {
    let template = new_template(arena, alloc, "held", rt)?;
    arena.try_append(root, NodeOrText::AppendNode(template))?;
    assert!(rt; arena.holds(root));
    assert_eq!(rt; arena.form(root), Some(root));
    let other = copy(arena, root, rt)?;
    arena.try_insert_before(root, NodeOrText::AppendNode(other))?;
    reword(arena, other, rt)?;
    assert!(rt; arena.holds(root));
    arena.detach(root)?;
    Ok(())
}

fn check_edited(arena: &Arena, rt: &impl Abort) -> Result<(), AllocError> {
    let html = arena.inner_html(arena.document(), true)?;
    assert_eq!(rt; html.as_str(), "a<p id=\"w\" class=\"z\">new</p>");
    let text = arena.text(arena.document())?;
    assert_eq!(rt; text.as_str(), "anew");
    Ok(())
}

fn make_calls(arena: &mut Arena, alloc: Global, rt: &impl Abort) -> Result<(), Fail> {
    let root = call_sink(arena, alloc, rt)?;
    edit(arena, root, alloc, rt)?;
    check_edited(arena, rt)?;
    Ok(())
}

#[test]
fn calls_succeed(rt: HostRuntime) -> Result<(), Fail> {
    let mut arena = Arena::new(rt.alloc())?;
    let made = make_calls(&mut arena, rt.alloc(), &rt);
    drop(arena);
    made
}

// A MathML element by its local name, with an attribute, and whether it is an HTML integration point.
type Annotation = (&'static str, &'static str, &'static str, bool);

const ANNOTATIONS: [Annotation; 5] = [
    ("annotation-xml", "encoding", "Text/HTML", true),
    ("annotation-xml", "encoding", "application/xhtml+xml", true),
    ("annotation-xml", "encoding", "text/plain", false),
    ("annotation-xml", "code", "text/html", false),
    ("annotation", "encoding", "text/html", false),
];

fn is_integration_point(arena: &Arena, id: NodeId, rt: &impl Abort) -> bool {
    assert!(rt; arena.holds(id));
    match arena.name(id) {
        Some(_) => arena.is_mathml_annotation_xml_integration_point(&id),
        None => false,
    }
}

fn check_annotation(
    arena: &mut Arena,
    alloc: Global,
    (local, attr, value, holds_html): Annotation,
    rt: &impl Abort,
) -> Result<(), AllocError> {
    let attrs = one_attribute(alloc, attr, value)?;
    let name = name_of(alloc, namespaces::MATHML, local)?;
    let id = create_element_with_flags(arena, name, attrs, true)?;
    let may_hold = is_integration_point(arena, id, rt);
    assert_eq!(rt; may_hold, holds_html, "{local} {attr} {value}");
    Ok(())
}

fn check_annotations(arena: &mut Arena, alloc: Global, rt: &impl Abort) -> Result<(), AllocError> {
    for &annotation in &ANNOTATIONS {
        check_annotation(arena, alloc, annotation, rt)?;
    }
    Ok(())
}

#[test]
fn an_annotation_may_hold_html(rt: HostRuntime) -> Result<(), Fail> {
    let mut arena = Arena::new(rt.alloc())?;
    let checked = check_annotations(&mut arena, rt.alloc(), &rt);
    drop(arena);
    checked?;
    Ok(())
}
