//! The tree of a page as JSON.
ghost use Rattle.std.specs.Iterator.{IsFinite};

use super::item::{begin_object, write_json};
use html_tree_builder::QualName;
use html_tree_builder::arena::NodeRef;
use html_tree_builder::serialize::{
    AttrRef, Serialize, SerializeFault, Serializer, TraversalScope,
};
use std::alloc::{AllocError, Global};
use std::fmt::Write;

// A serializer that writes one JSON object per node, each on its own line.
#[derive(Drop)]
struct NodeLines<'a> {
    out: String,
    // The path that each object begins with.
    path: Option<&'a str>,
    level: usize,
    alloc: Global,
}

// The name of an element, after `svg` or `math` if it is in one of these namespaces.
fn element_name(alloc: Global, name: &QualName) -> Result<String, AllocError> {
    let mut text = String::new(alloc);
    if name.ns.is_svg() {
        text.push_str("svg ")?;
    } else if name.ns.is_mathml() {
        text.push_str("math ")?;
    }
    text.push_str(name.local.as_str())?;
    Ok(text)
}

// The name of an attribute, after its prefix.
fn attribute_name(alloc: Global, name: &QualName) -> Result<String, AllocError> {
    let mut text = String::new(alloc);
    if let Some(prefix) = &name.prefix {
        text.push_str(prefix.as_str())?;
        text.push(':')?;
    }
    text.push_str(name.local.as_str())?;
    Ok(text)
}

// Writes attributes, as one object.
fn write_attributes<T: AttrRef, I: Iterator<Item = T> + Drop>(
    alloc: Global,
    out: &mut String,
    attrs: I,
) -> Result<(), AllocError>
    requires can { I.can_next attrs }
    requires ends { IsFinite (I.remaining attrs) }
{
    let mut is_first = true;
    for attr in attrs {
        if !is_first {
            out.push(',')?;
        }
        let name = attribute_name(alloc, attr.name())?;
        write_json(alloc, out, name.as_str())?;
        out.push(':')?;
        write_json(alloc, out, attr.value())?;
        is_first = false;
    }
    Ok(())
}

impl<'a> NodeLines<'a> {
    // Begins an object: the level of the node and its kind.
    fn begin(&mut self, what: &str, text: &str) -> Result<(), AllocError> {
        let level = self.level;
        begin_object(self.alloc, &mut self.out, self.path)?;
        write!(self.out, "\"level\":{level},\"{what}\":")?;
        write_json(self.alloc, &mut self.out, text)
    }

    // A node without children.
    fn add(&mut self, what: &str, text: &str) -> Result<(), AllocError> {
        self.begin(what, text)?;
        self.out.push_str("}\n")
    }
}

impl<'a> Serializer for NodeLines<'a> {
    ghost use Rattle.std.specs.Prelude.{[], None, Ok};

    ghost Meaning = { Unit {0} };

    ghost meaning = { λ _. tt };

    ghost contents = { λ _. None };

    ghost answer = { λ _ _. Ok tt };

    ghost after = { λ _ _. tt };

    ghost writes = { λ _ _. [] };

    ghost breaks = { λ before text call fault after written. Unit {0} };

    fn start_elem<T: AttrRef, I: Iterator<Item = T> + Drop>(
        &mut self,
        name: QualName,
        attrs: I,
    ) -> Result<(), SerializeFault> {
        let name = element_name(self.alloc, &name)?;
        self.begin("element", name.as_str())?;
        self.out.push_str(",\"attributes\":{")?;
        write_attributes(self.alloc, &mut self.out, attrs)?;
        self.out.push_str("}}\n")?;
        self.level = self.level.saturating_add(1);
        Ok(())
    }

    fn end_elem(&mut self, _name: QualName) -> Result<(), SerializeFault> {
        self.level = self.level.saturating_sub(1);
        Ok(())
    }

    fn write_text(&mut self, text: &str) -> Result<(), SerializeFault> {
        self.add("text", text)?;
        Ok(())
    }

    fn write_comment(&mut self, text: &str) -> Result<(), SerializeFault> {
        self.add("comment", text)?;
        Ok(())
    }

    fn write_doctype(&mut self, name: &str) -> Result<(), SerializeFault> {
        self.add("doctype", name)?;
        Ok(())
    }

    fn write_processing_instruction(
        &mut self,
        target: &str,
        _content: &str,
    ) -> Result<(), SerializeFault> {
        self.add("instruction", target)?;
        Ok(())
    }
}

/// The descendants of a node in tree order, one JSON object per line: its `level`, and its name as `element` with its `attributes`, or its
/// `text`, `comment` or `doctype`, after this path if there is one. The contents of a template come below it. Fails with `AllocError` if an
/// allocation fails.
pub fn node_lines(
    alloc: Global,
    top: &NodeRef<'_>,
    path: Option<&str>,
) -> Result<String, AllocError> {
    let mut lines = NodeLines {
        out: String::new(alloc),
        path,
        level: 0,
        alloc,
    };
    top.serialize(&mut lines, TraversalScope::ChildrenOnly(None))
        .map_err(|_fault| AllocError)?;
    Ok(lines.out)
}
