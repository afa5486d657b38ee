//! A name that is being built.

ghost use Rattle.std.specs.Prelude.{◌≡◌, ◌<◌, true, [], ◌∷◌, ◌++◌, None, OnOk, IfOk, map, string_bytes};
ghost use Rattle.std.specs.Char.{to_ascii_lowercase};
ghost use Rattle.h5_markup.specs.Attributes.{is_named_in};
ghost use Rattle.h5_names.specs.AttributeText.{attribute_texts};
ghost use Rattle.h5_tokenizer_states.specs.Parts.{name_so_far};
ghost use Rattle.h5_tokenizer_states.specs.Runs.{are_in};

use super::runs::Run;
use super::signs::{push_byte, push_lowered};
use h5_markup::SharedNames;
use h5_names::{Attribute, LocalName};
use std::alloc::{AllocError, Global};
use std::marker::Model;

/// A name so far, with letters in lower case. A name that comes as one run is made at once: that allocates nothing if HTML
/// knows it.
#[derive(Drop)]
pub struct OpenName {
    // The name, if it came as one run.
    made: Option<LocalName>,
    // The bytes of the name, if it didn't.
    text: String,
}

impl Model for OpenName {
    ghost use Rattle.std.specs.Prelude.{ℕ, List, string_bytes};
    ghost use Rattle.h5_tokenizer_states.specs.Parts.{name_so_far};

    ghost Value = { List ℕ };

    ghost view = { λ n. name_so_far n.made (string_bytes n.text) };
}

// Copies a name that was made to the text, so that it can continue.
fn write_down(made: &mut Option<LocalName>, text: &mut String) -> Result<(), AllocError>
    ensures made { OnOk result (made.new ≡ None) }
    ensures text { OnOk result (string_bytes text.new ≡ name_so_far made.old (string_bytes text.old)) }
{
    if let Some(name) = made.take() {
        text.clear();
        text.push_str(name.as_str())?;
    }
    Ok(())
}

impl OpenName {
    /// Returns an empty name. Allocates nothing.
    pub fn new(alloc: Global) -> OpenName
        ensures { result ≡ [] }
    {
        OpenName {
            made: None,
            text: String::new(alloc),
        }
    }

    /// Begins a new name.
    pub fn clear(&mut self)
        ensures { self.new ≡ [] }
    {
        self.made = None;
        self.text.clear();
    }

    // Returns the name so far.
    fn as_str(&self) -> &str
        ensures { result.now ≡ self.now }
    {
        match &self.made {
            Some(name) => name.as_str(),
            None => self.text.as_str(),
        }
    }

    /// Returns true if one of these attributes has this name.
    pub fn is_in(&self, attributes: &[Attribute]) -> bool
        ensures { result ≡ is_named_in self.now (attribute_texts attributes.now) }
    {
        let name = self.as_str();
        for attribute in attributes {
            if attribute.name.local.as_str() == name {
                return true;
            }
        }
        false
    }

    // Returns true only if the name is empty.
    fn is_empty(&self) -> bool
        ensures { result ≡ true → self.now ≡ [] }
    {
        self.made.is_none() && self.text.is_empty()
    }

    /// Appends to the name, with letters in lower case.
    pub fn push(&mut self, more: &str) -> Result<(), AllocError>
        ensures { OnOk result (self.new ≡ self.old ++ map to_ascii_lowercase more.now) }
    {
        write_down(&mut self.made, &mut self.text)?;
        push_lowered(&mut self.text, more)
    }

    /// Appends an ASCII byte, a letter in lower case.
    pub fn push_byte(&mut self, b: u8) -> Result<(), AllocError>
        requires { b < 128 }
        ensures { OnOk result (self.new ≡ self.old ++ to_ascii_lowercase b ∷ []) }
    {
        write_down(&mut self.made, &mut self.text)?;
        push_byte(&mut self.text, b.to_ascii_lowercase())
    }

    /// Appends a run of bytes none of which ends a name, with letters in lower case.
    pub fn push_run(&mut self, names: &mut SharedNames, run: &str) -> Result<(), AllocError>
        requires { are_in Run.Name run.now ≡ true }
        ensures { OnOk result (self.new ≡ self.old ++ map to_ascii_lowercase run.now) }
    {
        if !self.is_empty() {
            return self.push(run);
        }
        let alloc = *self.text.allocator();
        self.made = Some(names.name(alloc, run)?);
        Ok(())
    }

    /// Returns the complete name.
    pub fn take(&mut self) -> Result<LocalName, AllocError>
        ensures { IfOk result (λ name. name ≡ self.old) }
    {
        match self.made.take() {
            Some(name) => Ok(name),
            None => LocalName::new(*self.text.allocator(), self.text.as_str()),
        }
    }
}
