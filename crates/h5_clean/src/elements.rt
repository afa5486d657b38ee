//! The open elements of the tree.
ghost use Rattle.std.specs.Prelude.{◌≡◌, ◌∷◌, [], OnOk, OnErr};
ghost use Rattle.h5_clean.specs.Calls.{first_of, without_first};

use super::place::Place;
use std::alloc::{AllocError, Global};
use std::marker::Model;

/// An open element of the tree: if its tags are written, and the place of its content.
#[derive(Clone, Copy, Debug)]
pub struct OpenElement {
    pub is_written: bool,
    pub place: Place,
}

/// The open elements.
#[derive(Debug, Drop)]
pub struct OpenElements {
    // The innermost one last.
    list: Vec<OpenElement>,
}

impl Model for OpenElements {
    ghost use Rattle.std.specs.Prelude.{List, reverse};
    ghost use Rattle.h5_clean.specs.declared.elements.OpenElement.{OpenElement};

    // Innermost first.
    ghost Value = { List OpenElement };

    ghost view = { λ elements. reverse elements.list.items };
}

impl OpenElements {
    /// Returns an empty list.
    pub fn new(alloc: Global) -> OpenElements
        ensures { result ≡ [] }
    {
        OpenElements {
            list: Vec::new(alloc),
        }
    }

    /// Returns the innermost element.
    pub fn last(&self) -> Option<OpenElement>
        ensures { result ≡ first_of self.now }
    {
        self.list.last().copied()
    }

    /// Adds an element as the innermost. Fails with `AllocError` if an allocation fails; then nothing changes.
    pub fn push(&mut self, element: OpenElement) -> Result<(), AllocError>
        ensures ok { OnOk result (self.new ≡ element ∷ self.old) }
        ensures err { OnErr result (self.new ≡ self.old) }
    {
        self.list.push(element)?;
        Ok(())
    }

    /// Removes the innermost element.
    pub fn pop(&mut self)
        ensures { self.new ≡ without_first self.old }
    {
        let _ = self.list.pop();
    }
}
