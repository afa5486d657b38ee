//! Numbers for texts.
ghost use Rattle.std.specs.Prelude.{◌≡◌, ◌≢◌, ◌<◌, ◌≤◌, ◌+◌, ◌^◌, ℕ, List, IfOk, IfSome, Ok, OnErr, OnOk};
ghost use Rattle.std.specs.BTreeMap.{btree_map_len};
ghost use Rattle.h5_builder_state.specs.Numberings.{IsNumbering};

use std::alloc::{AllocError, Global};
use std::collections::BTreeMap;

/// Gives each text a number when it first occurs: consecutive numbers from a base on.
#[derive(Drop)]
pub struct Numbering {
    numbers: BTreeMap<String, u32>,
    base: u32,
    alloc: Global,
    ghost sound: { IsNumbering numbers base },
    ghost few: { base + btree_map_len numbers < 2 ^ 32 },
}

impl Numbering {
    ghost use Rattle.h5_builder_state.specs.Numbering.{KeepsApart, base_of, next_of, number_of};

    /// Returns a numbering without texts.
    pub fn new(alloc: Global, base: u32) -> Numbering
        ensures base { base_of result ≡ base }
        ensures next { next_of result ≡ base }
        ensures none { (text : List ℕ) → number_of result text ≡ None }
    {
        Numbering {
            numbers: BTreeMap::new(alloc),
            base,
            alloc,
        }
    }

    /// Returns the number of a text, if it has one.
    pub fn find(&self, text: &str) -> Option<u32>
        ensures number { result ≡ number_of self.now text.now }
        ensures above { IfSome result (λ number. base_of self.now ≤ number) }
        ensures below { IfSome result (λ number. number < next_of self.now) }
        ensures apart { KeepsApart self.now }
    {
        self.numbers.get(text).copied()
    }

    /// Returns the number that the next text gets.
    pub fn next(&self) -> u32
        ensures { result ≡ next_of self.now }
    {
        self.base + self.numbers.len() as u32
    }

    // A text without a number gets the next one.
    fn add(&mut self, text: &str) -> Result<u32, AllocError>
        requires { number_of self.old text.now ≡ None }
        ensures ok { IfOk result (λ number. number_of self.new text.now ≡ Some number) }
        ensures next { IfOk result (λ number. number ≡ next_of self.old) }
        ensures grows { OnOk result (next_of self.new ≡ next_of self.old + 1) }
        ensures stay { (one : List ℕ) (number : ℕ) → number_of self.old one ≡ Some number → number_of self.new one ≡ Some number }
        ensures others { (one : List ℕ) → one ≢ text.now → number_of self.new one ≡ number_of self.old one }
        ensures err { OnErr result ((one : List ℕ) → number_of self.new one ≡ number_of self.old one) }
        ensures still { OnErr result (next_of self.new ≡ next_of self.old) }
        ensures base { base_of self.new ≡ base_of self.old }
    {
        let count = self.numbers.len();
        if count >= (u32::MAX - self.base) as usize {
            return Err(AllocError);
        }
        let number = self.base + count as u32;
        let key = String::from_str(self.alloc, text)?;
        self.numbers.insert(key, number)?;
        Ok(number)
    }

    /// Returns the number of a text, which gets the next one if it has none. All other texts keep theirs. Fails with
    /// `AllocError` if an allocation fails, or if no number of 32 bits is left.
    pub fn number(&mut self, text: &str) -> Result<u32, AllocError>
        ensures ok { IfOk result (λ number. number_of self.new text.now ≡ Some number) }
        ensures next { number_of self.old text.now ≡ None → IfOk result (λ number. number ≡ next_of self.old) }
        ensures grows { number_of self.old text.now ≡ None → OnOk result (next_of self.new ≡ next_of self.old + 1) }
        ensures known { (number : ℕ) → number_of self.old text.now ≡ Some number → (result ≡ Ok number) × (next_of self.new ≡ next_of self.old) }
        ensures stay { (one : List ℕ) (number : ℕ) → number_of self.old one ≡ Some number → number_of self.new one ≡ Some number }
        ensures others { (one : List ℕ) → one ≢ text.now → number_of self.new one ≡ number_of self.old one }
        ensures err { OnErr result ((one : List ℕ) → number_of self.new one ≡ number_of self.old one) }
        ensures still { OnErr result (next_of self.new ≡ next_of self.old) }
        ensures base { base_of self.new ≡ base_of self.old }
        ensures apart { KeepsApart self.new }
    {
        match self.find(text) {
            Some(number) => Ok(number),
            None => self.add(text),
        }
    }
}
