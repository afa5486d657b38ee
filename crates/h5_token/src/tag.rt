//! Start tags and end tags.
ghost use Rattle.std.specs.Prelude.{◌≡◌, ◌↔◌, IfOk, IsTrue};
ghost use Rattle.h5_names.specs.AttributeText.{attribute_texts};

use super::alike::have_same_attributes;
use h5_names::{Attribute, LocalName};
use std::alloc::AllocError;

#[derive(Clone, Copy, Debug, PartialEq, Eq)]
pub enum TagKind {
    StartTag,
    EndTag,
}

/// A start tag or an end tag (HTML standard, section 13.2.5, "Tokenization").
#[derive(Debug, Drop, PartialEq, Eq)]
pub struct Tag {
    // The small fields come first and together, so that a tag takes 64 bytes; it is moved from the tokenizer to the rule.
    pub kind: TagKind,
    pub self_closing: bool,
    /// True if the tokenizer dropped an attribute because its name was a duplicate.
    pub had_duplicate_attributes: bool,
    pub name: LocalName,
    pub attrs: Vec<Attribute>,
}

impl Tag {
    ghost use Rattle.std.specs.Option.{option_copied};
    ghost use Rattle.h5_token.specs.TokenText.{tag_text, IsAlike, first_value};

    /// Returns true if kind and name are equal, and the attributes are equal in any order. The flags are ignored (HTML standard, section
    /// 13.2.4.3, "The list of active formatting elements").
    pub fn equiv_modulo_attr_order(&self, other: &Tag) -> bool
        ensures { IsTrue result ↔ IsAlike (tag_text self.now) (tag_text other.now) }
    {
        self.kind == other.kind
            && self.name == other.name
            && have_same_attributes(*self.attrs.allocator(), &self.attrs, &other.attrs)
    }

    /// The value of the first attribute with this local name, in any namespace.
    pub fn get_attribute(&self, name: &LocalName) -> Option<&str>
        ensures { option_copied result ≡ first_value name.now (tag_text self.now).attrs }
    {
        for attribute in &self.attrs {
            if attribute.name.local == *name {
                return Some(attribute.value.as_str());
            }
        }
        None
    }

    /// Returns an equal tag. Fails with `AllocError` if an allocation fails.
    pub fn clone(&self) -> Result<Tag, AllocError>
        ensures { IfOk result (λ tag. tag_text tag ≡ tag_text self.now) }
    {
        Ok(Tag {
            kind: self.kind,
            name: self.name.clone()?,
            self_closing: self.self_closing,
            attrs: clone_attributes(&self.attrs)?,
            had_duplicate_attributes: self.had_duplicate_attributes,
        })
    }
}

fn clone_attributes(attrs: &Vec<Attribute>) -> Result<Vec<Attribute>, AllocError>
    ensures { IfOk result (λ copy. attribute_texts copy.items ≡ attribute_texts attrs.now.items) }
{
    let mut copy = Vec::with_capacity(*attrs.allocator(), attrs.len())?;
    for attribute in attrs {
        copy.push(attribute.clone()?)?;
    }
    Ok(copy)
}
