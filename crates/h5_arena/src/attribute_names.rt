//! Ordered sets of attribute names, for nodes with many attributes.
ghost use Rattle.std.specs.Prelude.{◌≡◌, ◌==◌, ◌||◌, ◌++◌, ℕ, IfOk, IfSome, List, None, OnOk, OnErr, false};
ghost use Rattle.std.specs.BTreeSet.{contains};
ghost use Rattle.h5_names.specs.declared.qualified.QualName.{QualName};
ghost use Rattle.h5_names.specs.AttributeText.{AttributeText, attribute_texts};
ghost use Rattle.h5_interface.specs.Changes.{has_attribute, with_missing};
ghost use Rattle.h5_arena.specs.AttributeNames.{AreNames, AreNamesAt, name_cmp, names_at};

use super::attributes::add_missing;
use h5_names::{Attribute, QualName};
use std::alloc::{AllocError, Global};
use std::collections::{BTreeMap, BTreeSet};

// With fewer attributes than this, they are searched one by one.
const MANY: usize = 12;

/// The names of the attributes of some nodes: of those that had many when they were given more.
#[derive(Drop)]
pub(crate) struct AttributeNames {
    by_node: BTreeMap<usize, BTreeSet<QualName>>,
}

// Adds the names of these attributes to a set.
fn add_names(names: &mut BTreeSet<QualName>, attrs: &[Attribute]) -> Result<(), AllocError>
    ensures { OnOk result ((q : QualName) → contains name_cmp names.new q ≡ (contains name_cmp names.old q || has_attribute q (attribute_texts attrs.now))) }
{
    for attribute in attrs {
        names.insert(attribute.name.clone()?)?;
    }
    Ok(())
}

// The names of these attributes.
fn names_of(alloc: Global, attrs: &[Attribute]) -> Result<BTreeSet<QualName>, AllocError>
    ensures { IfOk result (λ names. AreNames names (attribute_texts attrs.now)) }
{
    let mut names = BTreeSet::new(alloc);
    add_names(&mut names, attrs)?;
    Ok(names)
}

impl AttributeNames {
    /// Sets for no node. Doesn't allocate.
    pub(crate) fn new(alloc: Global) -> AttributeNames
        ensures { (n : ℕ) → names_at result n ≡ None }
    {
        AttributeNames {
            by_node: BTreeMap::new(alloc),
        }
    }

    /// Drops the set of a node.
    pub(crate) fn forget(&mut self, node: usize)
        ensures none { names_at self.new node ≡ None }
        ensures others { (n : ℕ) → (n == node) ≡ false → names_at self.new n ≡ names_at self.old n }
    {
        let _ = self.by_node.remove(&node);
    }

    // Takes the set of a node out, or makes it if the node has many attributes.
    fn take(
        &mut self,
        alloc: Global,
        node: usize,
        attrs: &[Attribute],
    ) -> Result<Option<BTreeSet<QualName>>, AllocError>
        requires { AreNamesAt self.old node (attribute_texts attrs.now) }
        ensures taken { IfOk result (λ taken. IfSome taken (λ names. AreNames names (attribute_texts attrs.now))) }
        ensures none { names_at self.new node ≡ None }
        ensures others { (n : ℕ) → (n == node) ≡ false → names_at self.new n ≡ names_at self.old n }
    {
        match self.by_node.remove(&node) {
            Some(names) => Ok(Some(names)),
            None => {
                if attrs.len() < MANY {
                    return Ok(None);
                }
                Ok(Some(names_of(alloc, attrs)?))
            }
        }
    }

    // Stores these names and those of more attributes as the set of a node.
    fn keep(
        &mut self,
        node: usize,
        names: BTreeSet<QualName>,
        more: &[Attribute],
    ) -> Result<(), AllocError>
        requires { names_at self.old node ≡ None }
        ensures ok { OnOk result ((attrs : List AttributeText) → AreNames names attrs → AreNamesAt self.new node (attrs ++ attribute_texts more.now)) }
        ensures err { OnErr result (names_at self.new node ≡ None) }
        ensures others { (n : ℕ) → (n == node) ≡ false → names_at self.new n ≡ names_at self.old n }
    {
        let mut names = names;
        add_names(&mut names, more)?;
        self.by_node.insert(node, names)?;
        Ok(())
    }

    /// Adds the attributes to a node whose names it doesn't have. If it fails, the attributes are unchanged.
    pub(crate) fn add_missing(
        &mut self,
        alloc: Global,
        node: usize,
        attrs: &mut Vec<Attribute>,
        more: Vec<Attribute>,
    ) -> Result<(), AllocError>
        requires { AreNamesAt self.old node (attribute_texts attrs.old.items) }
        ensures ok { OnOk result
            (attribute_texts attrs.new.items ≡ with_missing (attribute_texts more.items) (attribute_texts attrs.old.items)) }
        ensures err { OnErr result (attribute_texts attrs.new.items ≡ attribute_texts attrs.old.items) }
        ensures names { AreNamesAt self.new node (attribute_texts attrs.new.items) }
        ensures others { (n : ℕ) → (n == node) ≡ false → names_at self.new n ≡ names_at self.old n }
    {
        if more.is_empty() {
            return Ok(());
        }
        let had = attrs.len();
        let taken = self.take(alloc, node, attrs.as_slice())?;
        add_missing(attrs, taken.as_ref(), more)?;
        match taken {
            None => Ok(()),
            Some(names) => {
                if let Err(refused) = self.keep(node, names, &attrs[had..]) {
                    attrs.truncate(had);
                    return Err(refused);
                }
                Ok(())
            }
        }
    }
}
