//! What is laid out at the beginning and at the end of an element.
ghost use Rattle.std.specs.Prelude.{◌≡◌, false, OnOk};
ghost use Rattle.h5_page.specs.Layout.{broken, with_text};
ghost use Rattle.h5_page.specs.Text as t;

use super::attributes::Said;
use super::display::Display;
use super::layout::Layout;
use super::open::Open;
use std::alloc::{AllocError, Global};

// Writes the alternative text of an image, or the label of a group.
fn write_value(layout: &mut Layout, said: &Said, indent: usize) -> Result<(), AllocError>
    ensures { OnOk result (layout.new ≡ with_text false indent (t.value_of said.now) layout.old) }
{
    if let Some(value) = &said.value {
        layout.write_text(false, indent, value.as_str())?;
    }
    Ok(())
}

// Begins an item, with its mark.
fn begin_item(
    alloc: Global,
    layout: &mut Layout,
    said: &Said,
    outer: Open,
) -> Result<(), AllocError>
    ensures { OnOk result (layout.new ≡ t.begun Display.Item said.now outer layout.old) }
{
    let mark = outer.mark(alloc, said)?;
    layout.break_line(false);
    layout.mark(outer.indent, mark.as_str())
}

// Writes a horizontal rule.
fn write_rule(layout: &mut Layout, indent: usize) -> Result<(), AllocError>
    ensures { OnOk result (layout.new ≡ t.ruled indent layout.old) }
{
    layout.break_line(false);
    layout.write(indent, "---")?;
    layout.break_line(false);
    Ok(())
}

/// Begins an element inside another. Fails with `AllocError` if an allocation fails.
pub fn begin(
    alloc: Global,
    layout: &mut Layout,
    display: Display,
    said: &Said,
    outer: Open,
) -> Result<(), AllocError>
    ensures { OnOk result (layout.new ≡ t.begun display said.now outer layout.old) }
{
    match display {
        Display::Inline | Display::Nothing | Display::Link => Ok(()),
        Display::Block | Display::Description | Display::Field | Display::Dialog => {
            layout.break_line(false);
            Ok(())
        }
        Display::Paragraph | Display::Quote | Display::Preformatted => {
            layout.break_line(true);
            Ok(())
        }
        Display::Bulleted | Display::Numbered => {
            layout.break_line(!outer.is_in_list);
            Ok(())
        }
        Display::Item => begin_item(alloc, layout, said, outer),
        Display::Cell => layout.begin_cell(outer.indent, !outer.has_cell),
        Display::LineEnd => layout.force_line(),
        Display::Rule => write_rule(layout, outer.indent),
        Display::Picture => write_value(layout, said, outer.indent),
        Display::Group => {
            layout.break_line(false);
            write_value(layout, said, outer.indent)
        }
    }
}

/// Ends an element, in a list or outside any list.
pub fn finish(layout: &mut Layout, display: Display, is_in_list: bool)
    ensures { layout.new ≡ t.finished display is_in_list layout.old }
{
    match display {
        Display::Block | Display::Description | Display::Field | Display::Group | Display::Dialog =>
            layout.break_line(false),
        Display::Paragraph | Display::Quote | Display::Preformatted => layout.break_line(true),
        Display::Bulleted | Display::Numbered => layout.break_line(!is_in_list),
        Display::Item | Display::Cell => layout.end_item(),
        Display::Inline
        | Display::Nothing
        | Display::LineEnd
        | Display::Rule
        | Display::Picture
        | Display::Link => {}
    }
}
