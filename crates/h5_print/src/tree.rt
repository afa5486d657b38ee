//! Trees as text.
ghost use Rattle.std.specs.Prelude.{◌≡◌, ◌≤◌, ◌+◌, ◌++◌, ◌∷◌, [], IfOk, OnOk, string_len, vec_len};
ghost use Rattle.std.specs.String.{string_bytes};
ghost use Rattle.h5_arena.specs.ArenaModel.{IsHeld};
ghost use Rattle.h5_print.specs.Frames.{AreHeld, GoesOn, Opens};
ghost use Rattle.h5_print.specs.Writing.{PassesOn, WritesTree};
ghost use Rattle.h5_print.specs.Printed.{IsTreeText};

use super::nodes::{print_attributes, print_content, print_kind, print_text};
use h5_arena::{Arena, Child, NodeId};
use h5_interface::TreeSink;
use std::alloc::{AllocError, Global};
use std::io::{self, Write};

// The number of bytes that are buffered before they are written.
const PART: usize = 65_536;

// A node whose first lines are printed, and the number of its children that are.
#[derive(Clone, Copy)]
pub struct Frame {
    node: NodeId,
    printed: usize,
}

// Prints the first lines of a node at a level, and opens the node.
fn print_node(
    arena: &Arena,
    node: NodeId,
    level: usize,
    out: &mut String,
    stack: &mut Vec<Frame>,
) -> Result<(), AllocError>
    requires held { IsHeld arena.now node }
    requires level { vec_len stack.old ≡ level + 1 }
    ensures { OnOk result (Opens arena.now node level stack.old.items
        (string_bytes out.old) stack.new.items (string_bytes out.new)) }
{
    let inner = stack.len();
    print_kind(out, level, arena.kind(node))?;
    print_attributes(out, inner, arena.attrs(node))?;
    stack.push(Frame { node, printed: 0 })?;
    match arena.contents(node) {
        Some(contents) => {
            print_content(out, inner)?;
            stack.push(Frame {
                node: contents,
                printed: 0,
            })?;
            Ok(())
        }
        None => Ok(()),
    }
}

// Prints the next child of an open node, or closes the node if none is left.
fn print_next(
    arena: &Arena,
    frame: Frame,
    out: &mut String,
    stack: &mut Vec<Frame>,
) -> Result<(), AllocError>
    requires held { IsHeld arena.now frame.node }
    requires stack { AreHeld arena.now stack.old.items }
    ensures held { OnOk result (AreHeld arena.now stack.new.items) }
    ensures goes_on { OnOk result
        (GoesOn arena.now (stack.old.items ++ frame ∷ []) (string_bytes out.old) stack.new.items (string_bytes out.new)) }
{
    let level = stack.len();
    let children = arena.children(frame.node);
    if frame.printed >= children.len() {
        return Ok(());
    }
    stack.push(Frame {
        node: frame.node,
        printed: frame.printed + 1,
    })?;
    match &children[frame.printed] {
        Child::Text(text) => print_text(out, level, text.as_str()),
        Child::Node(node) => print_node(arena, *node, level, out, stack),
    }
}

/// Returns the text of the tree below an arena's document: one line for each node, indented by two spaces for each level.
///
/// `<!DOCTYPE name>`, with both identifiers quoted before the `>` if either isn't empty; `<name>`, with `svg ` or `math ` before the name
/// in those namespaces; `<!-- text -->`; `"text"`; `<?target text>`. Below an element are its attributes, as `name="value"` with `xlink `,
/// `xml ` or `xmlns ` before the name in those namespaces, then the contents of a template below a line `content`, then its children.
/// Texts, values, identifiers and comments are escaped. Fails with `AllocError` if an allocation fails.
///
/// The open nodes are in a list, so that no depth of a tree is too great for the stack.
pub fn print_tree(alloc: Global, arena: &Arena) -> Result<String, AllocError>
    ensures { IfOk result (λ text. IsTreeText arena.now (string_bytes text)) }
{
    let mut out = String::new(alloc);
    let mut stack = Vec::new(alloc);
    stack.push(Frame {
        node: arena.get_document(),
        printed: 0,
    })?;
    'frames: for _ in 0..u64::MAX {
        let Some(frame) = stack.pop() else {
            return Ok(out);
        };
        print_next(arena, frame, &mut out, &mut stack)?;
    }
    // No memory has this many lines.
    Err(AllocError)
}

// Writes a buffered text and empties it, if it has more than `most` bytes.
fn write_part<W: Write>(part: &mut String, writer: &mut W, most: usize) -> io::Result<()>
    ensures passes { OnOk result (PassesOn (string_bytes part.old) (string_bytes part.new) (W.contents writer.old) (W.contents writer.new)) }
    ensures rest { OnOk result (string_len part.new ≤ most) }
{
    if part.len() <= most {
        return Ok(());
    }
    writer.write_all(part.as_bytes())?;
    part.clear();
    Ok(())
}

/// Writes the text of `print_tree` in parts, so that only a part of it is in memory: each line is indented by the depth of its node, so the
/// text of nested elements is quadratic in their depth.
///
/// Fails with the error of the writer, or with the kind `OutOfMemory` if an allocation fails. Nothing is promised then about what was
/// written.
pub fn write_tree<W: Write>(alloc: Global, arena: &Arena, writer: &mut W) -> io::Result<()>
    ensures { OnOk result (WritesTree arena.now (W.contents writer.old) (W.contents writer.new)) }
{
    let mut part = String::new(alloc);
    let mut stack = Vec::new(alloc);
    stack.push(Frame {
        node: arena.get_document(),
        printed: 0,
    })?;
    'frames: for _ in 0..u64::MAX {
        let Some(frame) = stack.pop() else {
            return write_part(&mut part, writer, 0);
        };
        print_next(arena, frame, &mut part, &mut stack)?;
        write_part(&mut part, writer, PART)?;
    }
    // No memory has this many lines.
    Err(AllocError.into())
}
