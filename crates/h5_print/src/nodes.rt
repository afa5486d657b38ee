//! The lines of one node, without its subtree.
ghost use Rattle.std.specs.Prelude.{◌≡◌, ◌++◌, ◌∷◌, [], codes, OnOk};
ghost use Rattle.std.specs.String.{string_bytes};
ghost use Rattle.h5_names.specs.AttributeText.{attribute_text, attribute_texts};
ghost use Rattle.h5_arena.specs.ArenaModel.{kind_view};
ghost use Rattle.h5_interface.specs.Forest.{CommentNode, DoctypeNode, ElementNode, InstructionNode};
ghost use Rattle.h5_print.specs.Escapes.{escape};
ghost use Rattle.h5_print.specs.Nodes.{attribute_line, attribute_lines, identifiers, indent, kind_line, line, quoted};

use super::escapes::write_escapes;
use super::names::{attribute_prefix, element_prefix};
use h5_arena::Kind;
use h5_names::{Attribute, QualName};
use std::alloc::AllocError;

// The indent of a line.
fn print_indent(out: &mut String, level: usize) -> Result<(), AllocError>
    ensures { OnOk result (string_bytes out.new ≡ string_bytes out.old ++ indent level) }
{
    for _level in 0..level {
        out.push_str("  ")?;
    }
    Ok(())
}

fn print_quoted(out: &mut String, text: &str) -> Result<(), AllocError>
    ensures { OnOk result (string_bytes out.new ≡ string_bytes out.old ++ quoted text.now) }
{
    out.push_str("\"")?;
    write_escapes(out, text)?;
    out.push_str("\"")
}

fn print_identifiers(out: &mut String, public_id: &str, system_id: &str) -> Result<(), AllocError>
    ensures { OnOk result (string_bytes out.new
        ≡ string_bytes out.old ++ identifiers public_id.now system_id.now) }
{
    if public_id.is_empty() && system_id.is_empty() {
        return Ok(());
    }
    out.push_str(" ")?;
    print_quoted(out, public_id)?;
    out.push_str(" ")?;
    print_quoted(out, system_id)
}

fn print_doctype(
    out: &mut String,
    level: usize,
    name: &str,
    public_id: &str,
    system_id: &str,
) -> Result<(), AllocError>
    ensures { OnOk result (string_bytes out.new
        ≡ string_bytes out.old ++ kind_line level (DoctypeNode name.now public_id.now system_id.now)) }
{
    print_indent(out, level)?;
    out.push_str("<!DOCTYPE ")?;
    out.push_str(name)?;
    print_identifiers(out, public_id, system_id)?;
    out.push_str(">\n")
}

fn print_start(out: &mut String, level: usize, name: &QualName) -> Result<(), AllocError>
    ensures { OnOk result (string_bytes out.new
        ≡ string_bytes out.old ++ kind_line level (ElementNode name.now)) }
{
    print_indent(out, level)?;
    out.push_str("<")?;
    out.push_str(element_prefix(&name.ns))?;
    out.push_str(name.local.as_str())?;
    out.push_str(">\n")
}

fn print_attribute(out: &mut String, level: usize, attribute: &Attribute) -> Result<(), AllocError>
    ensures { OnOk result (string_bytes out.new
        ≡ string_bytes out.old ++ attribute_line level (attribute_text attribute.now)) }
{
    print_indent(out, level)?;
    out.push_str(attribute_prefix(&attribute.name.ns))?;
    out.push_str(attribute.name.local.as_str())?;
    out.push_str("=")?;
    print_quoted(out, attribute.value.as_str())?;
    out.push_str("\n")
}

/// The lines of attributes, in order.
pub fn print_attributes(
    out: &mut String,
    level: usize,
    attrs: &[Attribute],
) -> Result<(), AllocError>
    ensures { OnOk result (string_bytes out.new
        ≡ string_bytes out.old ++ attribute_lines level (attribute_texts attrs.now)) }
{
    for attribute in attrs {
        print_attribute(out, level, attribute)?;
    }
    Ok(())
}

fn print_comment(out: &mut String, level: usize, text: &str) -> Result<(), AllocError>
    ensures { OnOk result (string_bytes out.new
        ≡ string_bytes out.old ++ kind_line level (CommentNode text.now)) }
{
    print_indent(out, level)?;
    out.push_str("<!-- ")?;
    write_escapes(out, text)?;
    out.push_str(" -->\n")
}

fn print_instruction(
    out: &mut String,
    level: usize,
    target: &str,
    text: &str,
) -> Result<(), AllocError>
    ensures { OnOk result (string_bytes out.new
        ≡ string_bytes out.old ++ kind_line level (InstructionNode target.now text.now)) }
{
    print_indent(out, level)?;
    out.push_str("<?")?;
    out.push_str(target)?;
    out.push_str(" ")?;
    write_escapes(out, text)?;
    out.push_str(">\n")
}

/// The line of a text.
pub fn print_text(out: &mut String, level: usize, text: &str) -> Result<(), AllocError>
    ensures { OnOk result (string_bytes out.new ≡ string_bytes out.old ++ line level (quoted text.now)) }
{
    print_indent(out, level)?;
    print_quoted(out, text)?;
    out.push_str("\n")
}

/// The line above the contents of a template.
pub fn print_content(out: &mut String, level: usize) -> Result<(), AllocError>
    ensures { OnOk result (string_bytes out.new ≡ string_bytes out.old ++ line level (codes "content")) }
{
    print_indent(out, level)?;
    out.push_str("content\n")
}

/// The first line of a node. Documents and fragments have none.
pub fn print_kind(out: &mut String, level: usize, kind: &Kind) -> Result<(), AllocError>
    ensures { OnOk result (string_bytes out.new
        ≡ string_bytes out.old ++ kind_line level (kind_view kind.now)) }
{
    match kind {
        Kind::Document => Ok(()),
        Kind::Doctype {
            name,
            public_id,
            system_id,
        } => print_doctype(
            out,
            level,
            name.as_str(),
            public_id.as_str(),
            system_id.as_str(),
        ),
        Kind::Element(name) => print_start(out, level, name),
        Kind::Comment(text) => print_comment(out, level, text.as_str()),
        Kind::Instruction { target, text } => {
            print_instruction(out, level, target.as_str(), text.as_str())
        }
        Kind::Fragment => Ok(()),
    }
}
