//! The lines of a text as items.
ghost use Rattle.std.specs.Prelude.{◌≡◌, [], IfOk, vec_len};
ghost use Rattle.std.specs.Option.{option_map};
ghost use Rattle.h5_print.specs.Lines.{line_text};
ghost use Rattle.h5_print.specs.Parts.{part_text};
ghost use Rattle.h5_print.specs.Items as i;

use super::fault::LineFault;
use super::line::{Line, Part, parse_line};
use super::parts::token_with;
use h5_token::Token;
use std::alloc::{AllocError, Global};

/// A call of a token sink.
#[derive(Debug, Drop, PartialEq, Eq)]
pub enum Item {
    /// A token, and the number of its first line, from 1.
    Token(Token, u64),
    /// The call of `end`.
    End,
}

// The item with this part, or `None` if the item can't have it.
fn item_with(item: Item, part: Part) -> Result<Option<Item>, AllocError>
    ensures { IfOk result (λ made. option_map i.item_text made ≡ i.item_with (part_text part)
        (i.item_text item)) }
{
    match item {
        Item::Token(token, line) => match token_with(token, part)? {
            Some(token) => Ok(Some(Item::Token(token, line))),
            None => Ok(None),
        },
        Item::End => Ok(None),
    }
}

// Adds a part to the last item. Fails with `Bad` if there is no item, or if it can't have the part.
fn take_part(items: &mut Vec<Item>, number: u64, part: Part) -> Result<(), LineFault>
    ensures { i.Takes (i.with_last (i.item_with (part_text part)) (i.item_texts items.old.items))
        number (i.item_texts items.new.items) result }
{
    let Some(last) = items.pop() else {
        return Err(LineFault::Bad(number));
    };
    match item_with(last, part)? {
        Some(item) => {
            items.push(item)?;
            Ok(())
        }
        None => Err(LineFault::Bad(number)),
    }
}

// Adds the line with this number. Fails with `Bad` if it is invalid here.
fn take_line(items: &mut Vec<Item>, number: u64, line: Line) -> Result<(), LineFault>
    ensures { i.Takes (i.items_with (i.item_texts items.old.items) number (line_text line)) number
        (i.item_texts items.new.items) result }
{
    match line {
        Line::Blank => Ok(()),
        Line::Token(token) => {
            items.push(Item::Token(token, number))?;
            Ok(())
        }
        Line::Part(part) => take_part(items, number, part),
        Line::End => {
            items.push(Item::End)?;
            Ok(())
        }
    }
}

// Reads the line with this number.
fn read_line(alloc: Global, items: &mut Vec<Item>, number: u64, text: &str) -> Result<(), LineFault>
    ensures { i.Takes (i.items_read (i.item_texts items.old.items) number text.now) number
        (i.item_texts items.new.items) result }
{
    match parse_line(alloc, text)? {
        Some(line) => take_line(items, number, line),
        None => Err(LineFault::Bad(number)),
    }
}

/// Parses the lines of a text as items. LF ends a line; empty lines only count.
///
/// Fails with `Bad`, with the number of the first bad line: one that is invalid itself, or a part that the token above can't have, or
/// without a token above. Fails with `Memory` if an allocation fails.
pub fn parse(alloc: Global, text: &str) -> Result<Vec<Item>, LineFault>
    ensures { i.Reads (i.items_of text.now) result }
{
    let mut items = Vec::new(alloc);
    let mut number = 0;
    for line in text.split('\n') {
        number += 1;
        read_line(alloc, &mut items, number, line)?;
    }
    Ok(items)
}
