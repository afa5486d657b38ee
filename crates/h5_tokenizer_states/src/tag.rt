//! A tag that is being built.

ghost use Rattle.std.specs.Prelude.{◌≡◌, ◌<◌, true, [], ◌∷◌, ◌++◌, OnOk, IfOk, map, encode_utf8};
ghost use Rattle.std.specs.Char.{to_ascii_lowercase};
ghost use Rattle.h5_tokenizer_states.specs.Runs.{are_in};

use super::open_name::OpenName;
use super::runs::Run;
use super::signs::push_byte;
use h5_markup::{Keeping, SharedNames};
use h5_token::{Tag, TagKind};
use std::alloc::{AllocError, Global};
use std::marker::Model;
use std::mem;

/// A tag so far: its complete attributes, and its current one.
#[derive(Drop)]
pub struct OpenTag {
    kind: TagKind,
    name: OpenName,
    self_closing: bool,
    kept: Keeping,
    // True if there is a current attribute.
    in_attribute: bool,
    attribute: OpenName,
    value: String,
}

impl Model for OpenTag {
    ghost use Rattle.std.specs.Prelude.{string_bytes};
    ghost use Rattle.h5_names.specs.AttributeText.{attribute_texts};
    ghost use Rattle.h5_tokenizer_spec.specs.Construction.{Tag};
    ghost use Rattle.h5_tokenizer_states.specs.Parts.{current_of};

    ghost Value = { Tag };

    ghost view = { λ t. record {
      kind = t.kind;
      name = t.name;
      self_closing = t.self_closing;
      attrs = attribute_texts t.kept.attributes.items;
      duplicates = t.kept.duplicates;
      current = current_of t.in_attribute t.attribute (string_bytes t.value);
    } };
}

impl OpenTag {
    ghost use Rattle.h5_token.specs.TokenText.{TagIs, tag_text};
    ghost use Rattle.h5_token.specs.declared.tag.TagKind.TheVariants.{StartTag};
    ghost use Rattle.std.specs.Prelude.{nat_lt, length};
    ghost use Rattle.h5_tokenizer_spec.specs.Turn.{is_end};
    ghost use Rattle.h5_tokenizer_spec.specs.Construction.{is_repeated, new_tag, named_further, attribute_named_further, value_further, completed, with_attribute, self_closed, token_of};

    /// Returns true if it is an end tag.
    pub fn is_end(&self) -> bool
        ensures { result ≡ is_end self.now.kind }
    {
        match self.kind {
            TagKind::StartTag => false,
            TagKind::EndTag => true,
        }
    }

    /// Returns the self-closing flag.
    pub fn closes_itself(&self) -> bool
        ensures { result ≡ self.now.self_closing }
    {
        self.self_closing
    }

    /// Returns true if it has attributes once its current one is complete.
    pub fn has_attributes(&self) -> bool
        ensures { result ≡ nat_lt 0 (length (completed self.now).attrs) }
    {
        if self.in_attribute {
            return true;
        }
        !self.kept.attributes.as_slice().is_empty()
    }

    /// Returns true if it already has an attribute with the name of its current one.
    pub fn is_repeated(&self) -> bool
        ensures { result ≡ is_repeated self.now }
    {
        self.in_attribute && self.attribute.is_in(&self.kept.attributes)
    }

    /// Returns a start tag without a name. Allocates nothing.
    pub fn new(alloc: Global) -> OpenTag
        ensures { result ≡ new_tag StartTag [] }
    {
        OpenTag {
            kind: TagKind::StartTag,
            name: OpenName::new(alloc),
            self_closing: false,
            kept: Keeping::new(alloc, 1),
            in_attribute: false,
            attribute: OpenName::new(alloc),
            value: String::new(alloc),
        }
    }

    /// Begins a new tag, without a name.
    pub fn begin(&mut self, kind: TagKind)
        ensures { self.new ≡ new_tag kind [] }
    {
        let alloc = *self.value.allocator();
        self.kind = kind;
        self.name.clear();
        self.self_closing = false;
        self.kept = Keeping::new(alloc, 1);
        self.in_attribute = false;
    }

    /// Appends to the name, with letters in lower case.
    pub fn push_name(&mut self, more: &str) -> Result<(), AllocError>
        ensures { OnOk result (self.new ≡ named_further (map to_ascii_lowercase more.now) self.old) }
    {
        self.name.push(more)
    }

    /// Appends a run to the name, with letters in lower case.
    pub fn push_name_run(&mut self, names: &mut SharedNames, run: &str) -> Result<(), AllocError>
        requires { are_in Run.Name run.now ≡ true }
        ensures { OnOk result (self.new ≡ named_further (map to_ascii_lowercase run.now) self.old) }
    {
        self.name.push_run(names, run)
    }

    /// Appends an ASCII byte to the name, a letter in lower case.
    pub fn push_name_byte(&mut self, b: u8) -> Result<(), AllocError>
        requires { b < 128 }
        ensures { OnOk result (self.new ≡ named_further (to_ascii_lowercase b ∷ []) self.old) }
    {
        self.name.push_byte(b)
    }

    /// Completes the current attribute. It is dropped if the tag already has one with its name.
    pub fn complete(&mut self) -> Result<(), AllocError>
        ensures { OnOk result (self.new ≡ completed self.old) }
    {
        if !self.in_attribute {
            return Ok(());
        }
        let alloc = *self.value.allocator();
        let name = self.attribute.take()?;
        let value = mem::replace(&mut self.value, String::new(alloc));
        self.in_attribute = false;
        self.kept.keep_finished(name, value)
    }

    /// Begins a new attribute, without a name.
    pub fn begin_attribute(&mut self) -> Result<(), AllocError>
        ensures { OnOk result (self.new ≡ with_attribute [] self.old) }
    {
        self.complete()?;
        self.in_attribute = true;
        self.attribute.clear();
        self.value.clear();
        Ok(())
    }

    /// Appends to the current attribute's name, with letters in lower case.
    pub fn push_attribute(&mut self, more: &str) -> Result<(), AllocError>
        ensures { OnOk result (self.new ≡ attribute_named_further (map to_ascii_lowercase more.now) self.old) }
    {
        self.attribute.push(more)
    }

    /// Appends a run to the current attribute's name, with letters in lower case.
    pub fn push_attribute_run(
        &mut self,
        names: &mut SharedNames,
        run: &str,
    ) -> Result<(), AllocError>
        requires { are_in Run.Name run.now ≡ true }
        ensures { OnOk result (self.new ≡ attribute_named_further (map to_ascii_lowercase run.now) self.old) }
    {
        self.attribute.push_run(names, run)
    }

    /// Begins a new attribute, with this name and this value.
    pub fn push_quoted(
        &mut self,
        names: &mut SharedNames,
        name: &str,
        value: &str,
    ) -> Result<(), AllocError>
        requires { are_in Run.Name name.now ≡ true }
        ensures { OnOk result (self.new ≡ value_further value.now (attribute_named_further (map to_ascii_lowercase name.now) (with_attribute [] self.old))) }
    {
        self.begin_attribute()?;
        self.push_attribute_run(names, name)?;
        self.push_value(value)
    }

    /// Appends an ASCII byte to the current attribute's name, a letter in lower case.
    pub fn push_attribute_byte(&mut self, b: u8) -> Result<(), AllocError>
        requires { b < 128 }
        ensures { OnOk result (self.new ≡ attribute_named_further (to_ascii_lowercase b ∷ []) self.old) }
    {
        self.attribute.push_byte(b)
    }

    /// Appends to the current attribute's value.
    pub fn push_value(&mut self, more: &str) -> Result<(), AllocError>
        ensures { OnOk result (self.new ≡ value_further more.now self.old) }
    {
        self.value.push_str(more)
    }

    /// Appends an ASCII byte to the current attribute's value.
    pub fn push_value_byte(&mut self, b: u8) -> Result<(), AllocError>
        requires { b < 128 }
        ensures { OnOk result (self.new ≡ value_further (b ∷ []) self.old) }
    {
        push_byte(&mut self.value, b)
    }

    /// Appends a character to the current attribute's value.
    pub fn push_value_char(&mut self, more: char) -> Result<(), AllocError>
        ensures { OnOk result (self.new ≡ value_further (encode_utf8 more) self.old) }
    {
        self.value.push(more)
    }

    /// Sets the self-closing flag.
    pub fn close_itself(&mut self)
        ensures { self.new ≡ self_closed self.old }
    {
        self.self_closing = true;
    }

    /// Returns the complete tag. What is left is a tag without attributes.
    pub fn take(&mut self) -> Result<Tag, AllocError>
        ensures { IfOk result (λ tag. TagIs (tag_text tag) ≡ token_of self.old) }
    {
        let alloc = *self.value.allocator();
        let name = self.name.take()?;
        let mut kept = mem::replace(&mut self.kept, Keeping::new(alloc, 1));
        // A tag keeps no room for more attributes.
        kept.attributes.shrink_to_fit();
        Ok(Tag {
            kind: self.kind,
            self_closing: self.self_closing,
            had_duplicate_attributes: kept.duplicates,
            name,
            attrs: kept.attributes,
        })
    }
}
