//! Buffered text of a table (HTML standard, section 13.2.6.4.10, "In table text").
ghost use Rattle.std.specs.Prelude.{◌≡◌, ◌==◌, ◌++◌, [], OnErr, OnOk, length, string_bytes};
ghost use Rattle.h5_builder_spec.specs.Blanks.{all_blank};

use super::blanks::is_blank_text;
use std::alloc::{AllocError, Global};
use std::marker::Model;
use std::mem;

/// Buffered text, as one text, and if all of it is ASCII whitespace. Contracts see its bytes.
#[derive(Drop)]
pub struct PendingText {
    text: String,
    is_blank: bool,
}

impl Model for PendingText {
    ghost use Rattle.std.specs.Prelude.{◌≡◌, List, ℕ, string_bytes};
    ghost use Rattle.h5_builder_spec.specs.Blanks.{all_blank};

    ghost Value = { List ℕ };

    ghost view = { λ pending. string_bytes pending.text };

    ghost invariant = { λ pending. pending.is_blank ≡ all_blank (string_bytes pending.text) };
}

impl PendingText {
    /// Returns an empty text. It doesn't allocate.
    pub fn new(alloc: Global) -> PendingText
        ensures { result ≡ [] }
    {
        PendingText {
            text: String::new(alloc),
            is_blank: true,
        }
    }

    /// Returns true if nothing is buffered.
    pub fn is_empty(&self) -> bool
        ensures { result ≡ (length self.now == 0) }
    {
        self.text.is_empty()
    }

    /// Returns true if all of it is ASCII whitespace. It doesn't read the text.
    pub fn is_blank(&self) -> bool
        ensures { result ≡ all_blank self.now }
    {
        self.is_blank
    }

    /// Appends a text; the first one is moved, without an allocation. Fails with `AllocError` if an allocation fails;
    /// then nothing changes.
    pub fn append(&mut self, text: String) -> Result<(), AllocError>
        ensures ok { OnOk result (self.new ≡ self.old ++ string_bytes text) }
        ensures err { OnErr result (self.new ≡ self.old) }
    {
        let is_blank = is_blank_text(text.as_str());
        if self.text.is_empty() {
            self.text = text;
            self.is_blank = is_blank;
            return Ok(());
        }
        self.text.push_str(text.as_str())?;
        self.is_blank &= is_blank;
        Ok(())
    }

    /// Removes and returns the buffered text. It doesn't allocate.
    pub fn take(&mut self, alloc: Global) -> PendingText
        ensures taken { result ≡ self.old }
        ensures left { self.new ≡ [] }
    {
        mem::replace(self, PendingText::new(alloc))
    }

    /// Returns the text, which is moved.
    pub fn into_string(self) -> String
        ensures { string_bytes result ≡ self }
    {
        self.text
    }
}
