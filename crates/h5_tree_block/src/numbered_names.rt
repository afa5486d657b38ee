//! Names, each with a number.
ghost use Rattle.std.specs.Prelude.{◌≡◌, ◌<◌, ◌∷◌, ◌++◌, [], true, IfOk, OnErr, OnOk, length};
ghost use Rattle.std.specs.List.{position};
ghost use Rattle.h5_names.specs.AttributeText.{is_same_name};
ghost use Rattle.h5_tree_block.specs.Columns.{number_of};

use super::numbers::short;
use h5_names::QualName;
use std::alloc::{AllocError, Global};
use std::collections::BTreeMap;
use std::marker::Model;

/// The names so far, in the order in which they occurred. The number of a name is its index.
#[derive(Drop)]
pub(crate) struct NumberedNames {
    names: Vec<QualName>,
    numbers: BTreeMap<QualName, u32>,
}

impl Model for NumberedNames {
    ghost use Rattle.std.specs.Prelude.{List};
    ghost use Rattle.h5_names.specs.declared.qualified.QualName.{QualName};
    ghost use Rattle.h5_tree_block.specs.Numbered.{AreNumbered};

    ghost Value = { List QualName };

    ghost view = { λ numbered. numbered.names.items };

    ghost invariant = { λ numbered. AreNumbered numbered.names.items numbered.numbers };
}

impl NumberedNames {
    /// No names yet.
    pub(crate) fn new(alloc: Global) -> NumberedNames
        ensures { result ≡ [] }
    {
        NumberedNames {
            names: Vec::new(alloc),
            numbers: BTreeMap::new(alloc),
        }
    }

    /// Returns true if this is the number of a name. Doesn't search.
    pub(crate) fn is(&self, number: u32, name: &QualName) -> bool
        ensures number { result ≡ true → number_of self.now name.now ≡ number }
        ensures known { result ≡ true → number < length self.now }
    {
        match self.names.as_slice().get(number as usize) {
            Some(one) => *one == *name,
            None => false,
        }
    }

    /// The number of a name, or `None` if it is new.
    pub(crate) fn find(&self, name: &QualName) -> Option<u32>
        ensures { result ≡ position (λ one. is_same_name one name.now) self.now }
    {
        self.numbers.get(name).copied()
    }

    /// Adds a name, which must be new, and returns its number. Changes nothing if an allocation fails.
    pub(crate) fn add(&mut self, name: &QualName) -> Result<u32, AllocError>
        requires { number_of self.old name.now ≡ length self.old }
        ensures number { IfOk result (λ number. number ≡ length self.old) }
        ensures names { OnOk result (self.new ≡ self.old ++ name.now ∷ []) }
        ensures err { OnErr result (self.new ≡ self.old) }
    {
        let number = short(self.names.len())?;
        let key = name.clone()?;
        self.names.push(name.clone()?)?;
        match self.numbers.insert(key, number) {
            Ok(_) => Ok(number),
            Err(_) => {
                let _ = self.names.pop();
                Err(AllocError)
            }
        }
    }
}
