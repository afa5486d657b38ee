//! Lists of names.
ghost use Rattle.std.specs.Prelude.{◌≡◌, ◌∷◌, ◌++◌, [], OnOk, OnErr, IfOk, is_some, map, nat_eq, not, string_bytes};
ghost use Rattle.std.specs.List.{list_any, starts_with};
ghost use Rattle.h5_names.specs.AttributeText.{is_same_text};
ghost use Rattle.h5_tables.specs.TagSets.{is_one_of};
ghost use Rattle.h5_clean.specs.AllowLists.{class_rule, is_listed_for};
ghost use Rattle.h5_clean.specs.DefaultPolicy.{keeping};

use std::alloc::{AllocError, Global};
use std::marker::Model;

// The name is one of these.
fn is_among(names: &[String], name: &str) -> bool
    ensures { result ≡ list_any (λ other. is_same_text (string_bytes other) name.now) names.now }
{
    names.iter().any(|other| other.as_str() == name)
}

// The text begins with one of these.
fn begins_with_one(prefixes: &[String], text: &[u8]) -> bool
    ensures { result ≡ list_any (λ prefix. starts_with nat_eq text.now (string_bytes prefix)) prefixes.now }
{
    prefixes
        .iter()
        .any(|prefix| text.starts_with(prefix.as_bytes()))
}

/// Returns true if a text begins with one of these prefixes.
pub fn begins_with(prefixes: &[String], text: &[u8]) -> bool
    ensures { result ≡ list_any (starts_with nat_eq text.now) (map string_bytes prefixes.now) }
{
    begins_with_one(prefixes, text)
}

/// Names, in the order in which they were added.
#[derive(Debug, Drop)]
pub struct NameList {
    names: Vec<String>,
}

impl Model for NameList {
    ghost use Rattle.std.specs.Prelude.{List, ℕ, map, string_bytes};

    ghost Value = { List (List ℕ) };

    ghost view = { λ list. map string_bytes list.names.items };
}

impl NameList {
    /// Returns an empty list.
    pub fn new(alloc: Global) -> NameList
        ensures { result ≡ [] }
    {
        NameList {
            names: Vec::new(alloc),
        }
    }

    /// Adds a name at the end. Fails with `AllocError` if an allocation fails; then nothing changes.
    pub fn push(&mut self, alloc: Global, name: &str) -> Result<(), AllocError>
        ensures ok { OnOk result (self.new ≡ self.old ++ name.now ∷ []) }
        ensures err { OnErr result (self.new ≡ self.old) }
    {
        let text = String::from_str(alloc, name)?;
        self.names.push(text)?;
        Ok(())
    }

    /// Returns true if the list has a name.
    pub fn has(&self, name: &str) -> bool
        ensures { result ≡ is_one_of self.now name.now }
    {
        is_among(self.names.as_slice(), name)
    }

    /// Returns true if a text begins with a name of the list.
    pub fn begins(&self, text: &str) -> bool
        ensures { result ≡ list_any (starts_with nat_eq text.now) self.now }
    {
        begins_with(self.names.as_slice(), text.as_bytes())
    }

    /// Returns true if the list has no name.
    pub fn is_empty(&self) -> bool
        ensures { is_some (class_rule self.now) ≡ not result }
    {
        self.names.is_empty()
    }

    /// Returns all names.
    pub fn as_slice(&self) -> &[String]
        ensures { map string_bytes result.now ≡ self.now }
    {
        self.names.as_slice()
    }
}

/// Attributes that the elements of a name keep.
#[derive(Debug, Drop)]
pub struct AttributeList {
    element: String,
    attributes: NameList,
}

impl Model for AttributeList {
    ghost use Rattle.std.specs.Prelude.{string_bytes};
    ghost use Rattle.h5_clean.specs.DefaultPolicy.{Keeping};

    ghost Value = { Keeping };

    ghost view = { λ list. record { element = string_bytes list.element; attributes = list.attributes } };
}

impl AttributeList {
    /// Returns a list of one attribute of an element. Fails with `AllocError` if an allocation fails.
    pub fn of_one(alloc: Global, element: &str, name: &str) -> Result<AttributeList, AllocError>
        ensures { IfOk result (λ list. list ≡ keeping element.now (name.now ∷ [])) }
    {
        let mut list = AttributeList {
            element: String::from_str(alloc, element)?,
            attributes: NameList::new(alloc),
        };
        list.attributes.push(alloc, name)?;
        Ok(list)
    }

    /// Returns true if this element keeps this attribute by the list.
    pub fn keeps(&self, element: &str, attribute: &str) -> bool
        ensures { result ≡ is_listed_for element.now attribute.now self.now }
    {
        self.element.as_str() == element && self.attributes.has(attribute)
    }
}

/// Returns true if an element keeps an attribute by one of the lists.
pub fn any_keeps(lists: &[AttributeList], element: &str, attribute: &str) -> bool
    ensures { result ≡ list_any (is_listed_for element.now attribute.now) lists.now }
{
    lists.iter().any(|list| list.keeps(element, attribute))
}
