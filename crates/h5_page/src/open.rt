//! The open elements.
ghost use Rattle.std.specs.Prelude.{◌≡◌, ◌∷◌, [], IfOk, OnOk, string_bytes};
ghost use Rattle.h5_page.specs.Text as t;

use super::attributes::Said;
use super::display::Display;
use super::number::{ItemNumber, number_in};
use std::alloc::{AllocError, Global};
use std::marker::Model;

/// An open element: how it is shown, and how its content is.
#[derive(Clone, Copy, Debug)]
pub struct Open {
    pub display: Display,
    pub is_shown: bool,
    pub keeps_blanks: bool,
    pub is_in_list: bool,
    /// The indent of its content.
    pub indent: usize,
    /// True if a cell has begun in it.
    pub has_cell: bool,
    /// The number of the next item, and whether numbers are reversed.
    pub number: ItemNumber,
    pub falls: bool,
}

// Returns the next larger indent; there is a limit.
fn more_indent(indent: usize) -> usize
    ensures { result ≡ t.more_indent indent }
{
    if indent < 40 { indent + 2 } else { indent }
}

// Returns true if an element with these attributes is shown.
fn shows(display: Display, said: &Said) -> bool
    ensures { result ≡ t.shows display said.now }
{
    match display {
        Display::Nothing => false,
        Display::Dialog => !said.is_hidden && said.value.is_some(),
        _ => !said.is_hidden,
    }
}

// Returns the number that the attributes give, or else another one.
fn said_number(said: &Said, other: ItemNumber) -> ItemNumber
    ensures { result ≡ t.said_number said.now other }
{
    match &said.value {
        Some(value) => number_in(value.as_str()).unwrap_or(other),
        None => other,
    }
}

impl Open {
    /// Returns the element around the page.
    pub fn page() -> Open
        ensures { result ≡ t.page }
    {
        Open {
            display: Display::Block,
            is_shown: true,
            keeps_blanks: false,
            is_in_list: false,
            indent: 0,
            has_cell: false,
            number: ItemNumber::one(),
            falls: false,
        }
    }

    /// Returns an element that begins in this one. `count` is the number of its items, if it is a numbered list.
    pub fn inner(self, display: Display, said: &Said, count: usize) -> Open
        ensures { result ≡ t.inner display said.now count self }
    {
        Open {
            display,
            is_shown: self.is_shown && shows(display, said),
            keeps_blanks: self.keeps_blanks || display.keeps_blanks(),
            is_in_list: self.is_in_list || display.is_list(),
            indent: if display.is_indented() {
                more_indent(self.indent)
            } else {
                self.indent
            },
            has_cell: false,
            number: said_number(said, ItemNumber::first(count, said.is_reversed)),
            falls: said.is_reversed,
        }
    }

    /// Returns this element after the beginning of one that is shown in it.
    pub fn behind(self, display: Display, said: &Said) -> Open
        ensures { result ≡ t.behind display said.now self }
    {
        match display {
            Display::Cell => Open {
                has_cell: true,
                ..self
            },
            Display::Item => Open {
                number: said_number(said, self.number).next(self.falls),
                ..self
            },
            _ => self,
        }
    }

    /// Returns the mark of an item that begins in it. Fails with `AllocError` if an allocation fails.
    pub fn mark(self, alloc: Global, said: &Said) -> Result<String, AllocError>
        ensures { IfOk result (λ mark. string_bytes mark ≡ t.mark_in said.now self) }
    {
        match self.display {
            Display::Numbered => said_number(said, self.number).mark(alloc),
            _ => String::from_str(alloc, "-"),
        }
    }
}

/// The open elements.
#[derive(Drop)]
pub struct OpenElements {
    current: Open,
    // The innermost one is last.
    outer: Vec<Open>,
}

impl Model for OpenElements {
    ghost use Rattle.std.specs.Prelude.{reverse};
    ghost use Rattle.h5_page.specs.Text.{Opened};

    ghost Value = { Opened };

    ghost view = { λ elements. record { current = elements.current; outer = reverse elements.outer.items } };
}

impl OpenElements {
    /// Returns only the page.
    pub fn new(alloc: Global) -> OpenElements
        ensures { result ≡ t.none_open }
    {
        OpenElements {
            current: Open::page(),
            outer: Vec::new(alloc),
        }
    }

    /// Returns the innermost one.
    pub fn current(&self) -> Open
        ensures { result ≡ self.now.current }
    {
        self.current
    }

    /// Begins an element in the innermost one, which becomes `outer`.
    pub fn enter(&mut self, outer: Open, inner: Open) -> Result<(), AllocError>
        ensures { OnOk result (self.new ≡ record { current = inner; outer = outer ∷ self.old.outer }) }
    {
        self.outer.push(outer)?;
        self.current = inner;
        Ok(())
    }

    /// Ends the innermost one, and returns it, or `None` if none is open.
    pub fn leave(&mut self) -> Option<Open>
        ensures ended { result ≡ t.ended_one self.old }
        ensures left { self.new ≡ t.left self.old }
    {
        let outer = self.outer.pop()?;
        let ended = self.current;
        self.current = outer;
        Some(ended)
    }
}
