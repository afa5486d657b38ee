//! The names of a tree, each with a number.
ghost use Rattle.std.specs.Prelude.{◌≡◌, [], IfOk, OnOk, length};
ghost use Rattle.h5_tree_block.specs.Columns.{names_held, no_texts, number_of, with_name};

use super::columns::Ended;
use super::numbered_names::NumberedNames;
use super::numbers::{NOTHING, name_word, namespace_number, short};
use h5_names::{KnownName, QualName};
use std::alloc::{AllocError, Global};

// A slot for each known name in each of eight namespaces.
const KNOWN: usize = 8192;

/// The names so far, in the order in which they occurred.
#[derive(Drop)]
pub(crate) struct Names {
    // For each name its namespace, with its prefix in the upper bits, and the end of its text.
    pub(crate) list: Vec<Ended>,
    pub(crate) text: Vec<u8>,
    numbered: NumberedNames,
    // The last number of a known name without a prefix, by its slot: it avoids a search if it is still right.
    known: Vec<u32>,
}

// The slot of a name. `None` for a name with a prefix, and for one that HTML doesn't know.
fn slot(name: &QualName) -> Option<usize> {
    let known = name.local.known();
    if name.prefix.is_some() || known == KnownName::Other {
        return None;
    }
    let space = namespace_number(&name.ns) as usize;
    Some((known as usize).saturating_mul(8).saturating_add(space))
}

impl Names {
    /// No names yet.
    pub(crate) fn new(alloc: Global) -> Result<Names, AllocError>
        ensures { IfOk result (λ names. names_held names ≡ record { met = []; texts = no_texts }) }
    {
        Ok(Names {
            list: Vec::new(alloc),
            text: Vec::new(alloc),
            numbered: NumberedNames::new(alloc),
            known: Vec::from_elem(alloc, NOTHING, KNOWN)?,
        })
    }

    // Adds a new name.
    fn add(&mut self, name: &QualName) -> Result<u32, AllocError>
        requires { number_of (names_held self.old).met name.now ≡ length (names_held self.old).met }
        ensures number { IfOk result (λ number. number ≡ length (names_held self.old).met) }
        ensures names { OnOk result (names_held self.new ≡ with_name name.now (names_held self.old)) }
    {
        let number = self.numbered.add(name)?;
        self.text.extend_from_slice(name.local.as_str().as_bytes())?;
        let end = short(self.text.len())?;
        let word = name_word(name);
        self.list.push(Ended { word, end })?;
        Ok(number)
    }

    // The number of a name, by a search.
    fn search(&mut self, name: &QualName) -> Result<u32, AllocError>
        ensures number { IfOk result (λ number. number ≡ number_of (names_held self.old).met name.now) }
        ensures names { OnOk result (names_held self.new ≡ with_name name.now (names_held self.old)) }
    {
        match self.numbered.find(name) {
            Some(number) => Ok(number),
            None => self.add(name),
        }
    }

    // The number of a name that has a slot.
    fn number_at(&mut self, slot: usize, name: &QualName) -> Result<u32, AllocError>
        ensures number { IfOk result (λ number. number ≡ number_of (names_held self.old).met name.now) }
        ensures names { OnOk result (names_held self.new ≡ with_name name.now (names_held self.old)) }
    {
        let last = self.known.as_slice().get(slot).copied();
        if let Some(number) = last {
            if self.numbered.is(number, name) {
                return Ok(number);
            }
        }
        let number = self.search(name)?;
        if let Some(place) = self.known.as_mut_slice().get_mut(slot) {
            *place = number;
        }
        Ok(number)
    }

    /// The number of a name. A new name gets the next number.
    pub(crate) fn number(&mut self, name: &QualName) -> Result<u32, AllocError>
        ensures number { IfOk result (λ number. number ≡ number_of (names_held self.old).met name.now) }
        ensures names { OnOk result (names_held self.new ≡ with_name name.now (names_held self.old)) }
    {
        match slot(name) {
            Some(slot) => self.number_at(slot, name),
            None => self.search(name),
        }
    }
}
