//! Sets and removes attributes. If a call fails, all nodes are unchanged.
ghost use Rattle.std.specs.Prelude.{◌≡◌, ◌<◌, ◌∷◌, [], IfOk, OnErr, OnOk, is_some, position, string_bytes, vec_len};
ghost use Rattle.std.specs.List.{list_any};
ghost use Rattle.h5_names.specs.AttributeText.{attribute_text, attribute_texts};
ghost use Rattle.h5_interface.specs.Forest.{attrs_of};
ghost use Rattle.h5_arena.specs.ArenaModel.{forest_in, node_views, value_of};
ghost use Rattle.h5_arena.specs.Edits.{edit_attrs, is_named, with_value, without_named};

use super::nodes::{NodeData, NodeId};
use h5_names::{Attribute, LocalName, Namespace, QualName};
use std::alloc::{AllocError, Global};

// Returns true if an attribute has this local name and no namespace.
fn is_named(attribute: &Attribute, name: &str) -> bool
    ensures { result ≡ is_named name.now (attribute_text attribute.now) }
{
    attribute.name.ns == Namespace::none() && attribute.name.local.as_str() == name
}

// An attribute with this local name, no namespace and this value.
fn new_attribute(alloc: Global, name: &str, value: String) -> Result<Attribute, AllocError>
    ensures { IfOk result (λ a. attribute_text a ∷ [] ≡ with_value name.now (string_bytes value) []) }
{
    let local = LocalName::new(alloc, name)?;
    Ok(Attribute {
        name: QualName::new(None, Namespace::none(), local),
        value,
    })
}

// The index of the first attribute with this name.
fn place_of_named(attrs: &[Attribute], name: &str) -> Option<usize>
    ensures { result ≡ position (λ a. is_named name.now (attribute_text a)) attrs.now }
{
    attrs.iter().position(|attribute| is_named(attribute, name))
}

// Returns true if there is an attribute with this name.
fn has_named(attrs: &[Attribute], name: &str) -> bool
    ensures { result ≡ list_any (λ a. is_named name.now (attribute_text a)) attrs.now }
{
    attrs.iter().any(|attribute| is_named(attribute, name))
}

// Sets the value of the first attribute with this name. If there is none, adds one at the end.
fn set_value(
    alloc: Global,
    attrs: &mut Vec<Attribute>,
    name: &str,
    value: &str,
) -> Result<(), AllocError>
    ensures ok { OnOk result (attribute_texts attrs.new.items ≡ with_value name.now value.now (attribute_texts attrs.old.items)) }
    ensures err { OnErr result (attrs.new.items ≡ attrs.old.items) }
{
    let value = String::from_str(alloc, value)?;
    match place_of_named(attrs.as_slice(), name) {
        Some(at) => {
            let attribute = &mut attrs[at];
            attribute.value = value;
            Ok(())
        }
        None => {
            attrs.push(new_attribute(alloc, name, value)?)?;
            Ok(())
        }
    }
}

// Removes the attributes with this name, and returns true if there was one.
fn remove_named(attrs: &mut Vec<Attribute>, name: &str) -> bool
    ensures changed { attribute_texts attrs.new.items ≡ without_named name.now (attribute_texts attrs.old.items) }
    ensures had { result ≡ list_any (is_named name.now) (attribute_texts attrs.old.items) }
{
    let had = has_named(attrs.as_slice(), name);
    attrs.retain(|attribute| !is_named(attribute, name));
    had
}

// Sets the value of a node's first attribute with this name. If there is none, adds one at the end.
pub(crate) fn set_attr(
    nodes: &mut Vec<NodeData>,
    id: NodeId,
    name: &str,
    value: &str,
) -> Result<(), AllocError>
    requires { id.index < vec_len nodes.old }
    ensures ok { OnOk result (forest_in nodes.new.items ≡ edit_attrs id.index (with_value name.now value.now) (forest_in nodes.old.items)) }
    ensures err { OnErr result (node_views nodes.new.items ≡ node_views nodes.old.items) }
{
    let alloc = *nodes.allocator();
    let node = &mut nodes[id.index];
    set_value(alloc, &mut node.attrs, name, value)?;
    Ok(())
}

// Removes the attributes with this name from a node, and returns true if there was one.
pub(crate) fn remove_attr(nodes: &mut Vec<NodeData>, id: NodeId, name: &str) -> bool
    requires { id.index < vec_len nodes.old }
    ensures changed { forest_in nodes.new.items ≡ edit_attrs id.index (without_named name.now) (forest_in nodes.old.items) }
    ensures had { result ≡ is_some (value_of name.now (attrs_of (forest_in nodes.old.items) id.index)) }
{
    let node = &mut nodes[id.index];
    remove_named(&mut node.attrs, name)
}
