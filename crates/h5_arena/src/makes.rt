//! Makes nodes. If a call fails, all nodes are unchanged.
ghost use Rattle.std.specs.Prelude.{◌≡◌, ◌<◌, ◌++◌, ◌∷◌, [], None, IfOk, OnOk, OnErr, vec_len};
ghost use Rattle.std.specs.Arc.{arc_value};
ghost use Rattle.h5_names.specs.declared.qualified.QualName.{QualName};
ghost use Rattle.h5_names.specs.AttributeText.{attribute_texts};
ghost use Rattle.h5_interface.specs.Changes.{append_node};
ghost use Rattle.h5_interface.specs.Forest.{ElementNode, IsForest};
ghost use Rattle.h5_interface.specs.Seen.{element, make, make_contents, make_element, plain};
ghost use Rattle.h5_arena.specs.ArenaModel.{arena_choices, forest_in, kind_view, node_view, node_views};

use super::below::Below;
use super::link::Link;
use super::links;
use super::nodes::{Kind, NodeData, NodeId};
use super::shared::SharedKinds;
use h5_interface::ElementFlags;
use h5_names::{Attribute, QualName};
use std::alloc::{AllocError, Global};
use std::sync::Arc;

// A node that isn't an element, with nothing below it and without a parent.
pub(crate) fn bare_node(alloc: Global, kind: Kind) -> Result<NodeData, AllocError>
    ensures { IfOk result (λ node. node_view node ≡ plain (kind_view kind)) }
{
    Ok(NodeData {
        kind: Arc::new(alloc, kind)?,
        attrs: Vec::new(alloc),
        children: Below::none(alloc),
        contents: Link::none(),
        parent: Link::none(),
        flags: ElementFlags {
            template: false,
            mathml_annotation_xml_integration_point: false,
            had_duplicate_attributes: false,
        },
        started: false,
        form: Link::none(),
    })
}

// An element with nothing below it and without a parent.
fn bare_element(
    alloc: Global,
    kind: Arc<Kind>,
    attrs: Vec<Attribute>,
    flags: ElementFlags,
) -> NodeData
    ensures { (name : QualName) → kind_view (arc_value kind) ≡ ElementNode name → node_view result ≡ element name (attribute_texts attrs.items) flags }
{
    NodeData {
        kind,
        attrs,
        children: Below::none(alloc),
        contents: Link::none(),
        parent: Link::none(),
        flags,
        started: false,
        form: Link::none(),
    }
}

// Adds a node that isn't an element.
pub(crate) fn push_plain(
    nodes: &mut Vec<NodeData>,
    alloc: Global,
    kind: Kind,
) -> Result<(), AllocError>
    ensures ok { OnOk result (forest_in nodes.new.items ≡ make arena_choices (plain (kind_view kind)) (forest_in nodes.old.items)) }
    ensures err { OnErr result (node_views nodes.new.items ≡ node_views nodes.old.items) }
    ensures pushed { OnOk result (node_views nodes.new.items ≡ node_views nodes.old.items ++ plain (kind_view kind) ∷ []) }
{
    let node = bare_node(alloc, kind)?;
    nodes.push(node)?;
    Ok(())
}

// Adds a template, and its contents directly after it.
fn push_template(
    nodes: &mut Vec<NodeData>,
    alloc: Global,
    template: NodeData,
) -> Result<(), AllocError>
    requires { (node_view template).contents ≡ None }
    ensures ok { OnOk result (forest_in nodes.new.items ≡
        make_contents arena_choices (vec_len nodes.old) (make arena_choices (node_view template) (forest_in nodes.old.items))) }
    ensures err { OnErr result (node_views nodes.new.items ≡ node_views nodes.old.items) }
{
    let index = nodes.len();
    let mut contents = bare_node(alloc, Kind::Fragment)?;
    contents.parent = Link::to(NodeId { index });
    let mut template = template;
    template.contents = Link::to(NodeId { index: index + 1 });
    nodes.push(template)?;
    match nodes.push(contents) {
        Ok(()) => Ok(()),
        Err(refused) => {
            let _ = nodes.pop();
            Err(AllocError::from(refused))
        }
    }
}

// Adds an element, and its contents if it is a template.
pub(crate) fn push_element(
    nodes: &mut Vec<NodeData>,
    shared: &mut SharedKinds,
    alloc: Global,
    name: QualName,
    attrs: Vec<Attribute>,
    flags: ElementFlags,
) -> Result<(), AllocError>
    ensures ok { OnOk result
        (forest_in nodes.new.items ≡ make_element arena_choices name (attribute_texts attrs.items) flags (forest_in nodes.old.items)) }
    ensures err { OnErr result (node_views nodes.new.items ≡ node_views nodes.old.items) }
{
    let is_template = flags.template;
    let kind = shared.element(alloc, name)?;
    let node = bare_element(alloc, kind, attrs, flags);
    if is_template {
        push_template(nodes, alloc, node)?;
        return Ok(());
    }
    nodes.push(node)?;
    Ok(())
}

// Adds a node that isn't an element as the last child of an existing node.
pub(crate) fn push_child(
    nodes: &mut Vec<NodeData>,
    alloc: Global,
    parent: NodeId,
    kind: Kind,
) -> Result<(), AllocError>
    requires parent { parent.index < vec_len nodes.old }
    requires forest { IsForest (forest_in nodes.old.items) }
    ensures ok { OnOk result (forest_in nodes.new.items ≡
        append_node parent.index (vec_len nodes.old) (make arena_choices (plain (kind_view kind)) (forest_in nodes.old.items))) }
    ensures err { OnErr result (node_views nodes.new.items ≡ node_views nodes.old.items) }
{
    let id = NodeId { index: nodes.len() };
    push_plain(nodes, alloc, kind)?;
    if let Err(e) = links::append_node(nodes, parent, id) {
        let _unhung = nodes.pop();
        return Err(e);
    }
    Ok(())
}
