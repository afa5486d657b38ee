//! Collects the attributes of a tag while it is read.
ghost use Rattle.std.specs.Prelude.{◌≡◌, ◌≤◌, ◌++◌, ◌∷◌, [], true, false, IfOk, OnOk, vec_len, string_bytes, ◌||◌};
ghost use Rattle.h5_names.specs.AttributeText.{attribute_text, attribute_texts};
ghost use Rattle.h5_markup.specs.Attributes as a;
ghost use Rattle.h5_markup.specs.Later.{AreNamesBehind};
ghost use Rattle.h5_markup.specs.Text as t;
ghost use Rattle.h5_markup.specs.declared.keeping.TheConstants.{FEW};

use super::text::text_of;
use h5_names::{Attribute, LocalName, Namespace, QualName};
use std::alloc::{AllocError, Global};
use std::collections::BTreeSet;

// The number of attributes that are searched one after another. Most tags have fewer.
const FEW: usize = 32;

fn make_attribute(alloc: Global, name: LocalName, value: &str) -> Result<Attribute, AllocError>
    ensures { IfOk result (λ attribute. attribute_text attribute ≡ a.attribute_named name (t.text_of true value.now)) }
{
    Ok(Attribute {
        name: QualName::new(None, Namespace::none(), name),
        value: text_of(alloc, true, value)?,
    })
}

#[inline(always)]
fn is_named_in(name: &LocalName, attributes: &[Attribute]) -> bool
    ensures { result ≡ a.is_named_in name.now (attribute_texts attributes.now) }
{
    for attribute in attributes {
        if attribute.name.local == *name {
            return true;
        }
    }
    false
}

/// The attributes so far, each name once, and whether there was a duplicate. A name is found in few steps, even among many attributes (HTML
/// standard, section 13.2.5.33, "Attribute name state").
#[derive(Drop)]
pub struct Keeping {
    pub attributes: Vec<Attribute>,
    pub duplicates: bool,
    // The number of attributes to reserve memory for with the first one.
    room: usize,
    // The names of the attributes after the first few, in order, so that each of many takes little more time than each of few.
    later: BTreeSet<LocalName>,
    ghost later_names: { AreNamesBehind FEW (attribute_texts attributes.items) later },
}

// Reserves memory for this number of attributes with the first one, so that most tags allocate once.
fn make_room(attributes: &mut Vec<Attribute>, room: usize) -> Result<(), AllocError>
    ensures items { attributes.new.items ≡ attributes.old.items }
    ensures len { vec_len attributes.new ≡ vec_len attributes.old }
{
    if attributes.is_empty() {
        attributes.reserve_exact(room)?;
    }
    Ok(())
}

impl Keeping {
    ghost use Rattle.std.specs.Prelude.{List};
    ghost use Rattle.h5_names.specs.AttributeText.{AttributeText};

    /// No attributes yet, without an allocation. The first one reserves memory for `room` attributes.
    pub fn new(alloc: Global, room: usize) -> Keeping
        ensures attributes { result.attributes.items ≡ [] }
        ensures duplicates { result.duplicates ≡ false }
    {
        Keeping {
            attributes: Vec::new(alloc),
            duplicates: false,
            room,
            later: BTreeSet::new(alloc),
        }
    }

    // Returns true if an attribute has this name.
    fn is_named(&self, name: &LocalName) -> bool
        ensures { result ≡ a.is_named_in name.now (attribute_texts self.now.attributes.items) }
    {
        if self.attributes.len() <= FEW {
            return is_named_in(name, &self.attributes);
        }
        is_named_in(name, &self.attributes[..FEW]) || self.later.contains(name)
    }

    // Returns true if an attribute has this name, and records the duplicate.
    fn is_repeated(&mut self, name: &LocalName) -> bool
        ensures named { result ≡ a.is_named_in name.now (attribute_texts self.old.attributes.items) }
        ensures attributes { self.new.attributes ≡ self.old.attributes }
        ensures duplicates { self.new.duplicates ≡ (result || self.old.duplicates) }
    {
        let is_repeated = self.is_named(name);
        self.duplicates = is_repeated || self.duplicates;
        is_repeated
    }

    // Adds an attribute after the first few.
    #[cold]
    #[inline(never)]
    fn push_later(&mut self, attribute: Attribute) -> Result<(), AllocError>
        requires { FEW ≤ vec_len self.old.attributes }
        ensures attributes { OnOk result (attribute_texts self.new.attributes.items
            ≡ attribute_texts self.old.attributes.items ++ attribute_text attribute ∷ []) }
        ensures duplicates { self.new.duplicates ≡ self.old.duplicates }
    {
        let name = attribute.name.local.clone()?;
        // The memory for the attribute is reserved first, so that the attribute and its name are added together or not at all.
        self.attributes.reserve(1)?;
        self.later.insert(name)?;
        self.attributes.push(attribute)?;
        Ok(())
    }

    // Adds an attribute.
    fn push(&mut self, attribute: Attribute) -> Result<(), AllocError>
        ensures attributes { OnOk result (attribute_texts self.new.attributes.items
            ≡ attribute_texts self.old.attributes.items ++ attribute_text attribute ∷ []) }
        ensures duplicates { self.new.duplicates ≡ self.old.duplicates }
    {
        if self.attributes.len() >= FEW {
            return self.push_later(attribute);
        }
        make_room(&mut self.attributes, self.room)?;
        self.attributes.push(attribute)?;
        Ok(())
    }

    /// Adds an attribute, unless there is one with its name. Fails with `AllocError` if an allocation fails; then no attribute is added.
    pub fn keep(&mut self, alloc: Global, name: LocalName, value: &str) -> Result<(), AllocError>
        ensures attributes { IfOk result (λ _. (others : List AttributeText) →
            a.distinct (attribute_texts self.new.attributes.items) others
            ≡ a.distinct (attribute_texts self.old.attributes.items) (a.attribute_named name (t.text_of true value.now) ∷ others)) }
        ensures duplicates { IfOk result (λ _. (others : List AttributeText) →
            (self.new.duplicates || a.repeats (attribute_texts self.new.attributes.items) others)
            ≡ (self.old.duplicates || a.repeats (attribute_texts self.old.attributes.items) (a.attribute_named name (t.text_of true value.now) ∷ others))) }
    {
        if self.is_repeated(&name) {
            return Ok(());
        }
        let attribute = make_attribute(alloc, name, value)?;
        self.push(attribute)
    }

    /// Adds an attribute with a finished value, unless there is one with its name. Fails with `AllocError` if an allocation fails; then no
    /// attribute is added.
    pub fn keep_finished(&mut self, name: LocalName, value: String) -> Result<(), AllocError>
        ensures attributes { OnOk result (attribute_texts self.new.attributes.items
            ≡ a.kept_with name (string_bytes value) (attribute_texts self.old.attributes.items)) }
        ensures duplicates { OnOk result (self.new.duplicates
            ≡ (a.is_named_in name (attribute_texts self.old.attributes.items) || self.old.duplicates)) }
    {
        if self.is_repeated(&name) {
            return Ok(());
        }
        self.push(Attribute {
            name: QualName::new(None, Namespace::none(), name),
            value,
        })
    }
}
