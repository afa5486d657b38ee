//! Numbers of names, by which open elements are found.
ghost use Rattle.std.specs.Prelude.{◌≡◌, ◌<◌, ◌≤◌, ◌+◌, ◌^◌, ℕ, IfOk, IfSome, List, Some};
ghost use Rattle.std.specs.Str.{str_to_ascii_lowercase};
ghost use Rattle.std.specs.String.{string_bytes};
ghost use Rattle.h5_names.specs.declared.qualified.QualName.{QualName as NameText};
ghost use Rattle.h5_builder_state.specs.Numbering.{base_of, next_of, number_of};

use crate::Numbering;
use h5_names::{KnownName, LocalName, QualName};
use std::alloc::{AllocError, Global};

// The first number of a text. An element has twice the number of its text, or one more; lower numbers are those of the
// known names.
const FIRST_TEXT: u32 = 128;

// Numbers of texts are below this one, so that those of elements fit 32 bits.
const END_OF_TEXTS: u32 = 0x8000_0000;

/// Gives the HTML elements of each local name a number: of a known name that name's number; any other name gets one
/// when an element of it is opened first. Elements of MathML and SVG share one for each local name, in any case of
/// ASCII letters.
#[derive(Drop)]
pub struct NameNumbers {
    texts: Numbering,
    alloc: Global,
    ghost first: { base_of texts ≡ 128 },
    ghost few: { next_of texts ≤ 2 ^ 31 },
}

// A local name in ASCII lower case.
fn in_lower_case(alloc: Global, local: &LocalName) -> Result<String, AllocError>
    ensures { IfOk result (λ lower. string_bytes lower ≡ str_to_ascii_lowercase local.now) }
{
    let mut lower = String::from_str(alloc, local.as_str())?;
    lower.make_ascii_lowercase();
    Ok(lower)
}

impl NameNumbers {
    ghost use Rattle.h5_builder_state.specs.Numbers.{foreign_number, html_number, is_html_number, name_number};

    /// Returns a value in which only known names have numbers.
    pub fn new(alloc: Global) -> NameNumbers {
        NameNumbers {
            texts: Numbering::new(alloc, FIRST_TEXT),
            alloc,
        }
    }

    /// Returns true if an element with this number is one of HTML: known names have the least numbers, other names of
    /// HTML even ones.
    pub fn is_html(number: u32) -> bool
        ensures { result ≡ is_html_number number }
    {
        number < 2 * FIRST_TEXT || number % 2 == 0
    }

    // The number of a text, if it has one.
    fn text(&self, text: &str) -> Option<u32>
        ensures number { result ≡ number_of self.now.texts text.now }
        ensures few { IfSome result (λ number. number < 2 ^ 31) }
    {
        self.texts.find(text)
    }

    // The number of a text, which gets a new one if it has none.
    fn number_text(&mut self, text: &str) -> Result<u32, AllocError>
        ensures ok { IfOk result (λ number. number_of self.new.texts text.now ≡ Some number) }
        ensures few { IfOk result (λ number. number < 2 ^ 31) }
        ensures stay { (one : List ℕ) (number : ℕ) → number_of self.old.texts one ≡ Some number → number_of self.new.texts one ≡ Some number }
    {
        if self.texts.next() >= END_OF_TEXTS {
            return Err(AllocError);
        }
        self.texts.number(text)
    }

    /// Returns the number of the HTML elements of a local name, if it has one.
    #[tactic(auto, unfolding(crate::specs::Numbers::html_number))]
    pub fn html(&self, local: &LocalName) -> Option<u32>
        ensures { result ≡ html_number self.now local.now }
    {
        let known = local.known();
        if known == KnownName::Other {
            let number = self.text(local.as_str())?;
            Some(2 * number)
        } else {
            Some(known as u32)
        }
    }

    /// Returns the number of the elements of MathML and SVG of a local name, in any case of ASCII letters, if it has
    /// one. Fails with `AllocError` if an allocation fails.
    #[tactic(auto, unfolding(crate::specs::Numbers::foreign_number))]
    pub fn foreign(&self, local: &LocalName) -> Result<Option<u32>, AllocError>
        ensures { IfOk result (λ number. number ≡ foreign_number self.now local.now) }
    {
        let lower = in_lower_case(self.alloc, local)?;
        match self.text(lower.as_str()) {
            Some(number) => Ok(Some(2 * number + 1)),
            None => Ok(None),
        }
    }

    /// Returns the number of a name, if it has one. Fails with `AllocError` if an allocation fails.
    #[tactic(auto, unfolding(crate::specs::Numbers::name_number, h5_tables::specs::TagSets::html_namespace))]
    pub fn find(&self, name: &QualName) -> Result<Option<u32>, AllocError>
        ensures { IfOk result (λ number. number ≡ name_number self.now name.now) }
    {
        if name.ns.is_html() {
            Ok(self.html(&name.local))
        } else {
            self.foreign(&name.local)
        }
    }

    // The number of the HTML elements of a local name, which gets a new one if it has none.
    #[tactic(auto, unfolding(crate::specs::Numbers::html_number))]
    fn number_html(&mut self, local: &LocalName) -> Result<u32, AllocError>
        ensures ok { IfOk result (λ number. html_number self.new local.now ≡ Some number) }
        ensures stay { (name : NameText) (number : ℕ) → name_number self.old name ≡ Some number → name_number self.new name ≡ Some number }
    {
        let known = local.known();
        if known == KnownName::Other {
            let number = self.number_text(local.as_str())?;
            Ok(2 * number)
        } else {
            Ok(known as u32)
        }
    }

    // The number of the elements of MathML and SVG of a local name, which gets a new one if it has none.
    #[tactic(auto, unfolding(crate::specs::Numbers::foreign_number))]
    fn number_foreign(&mut self, local: &LocalName) -> Result<u32, AllocError>
        ensures ok { IfOk result (λ number. foreign_number self.new local.now ≡ Some number) }
        ensures stay { (name : NameText) (number : ℕ) → name_number self.old name ≡ Some number → name_number self.new name ≡ Some number }
    {
        let lower = in_lower_case(self.alloc, local)?;
        let number = self.number_text(lower.as_str())?;
        Ok(2 * number + 1)
    }

    /// Returns the number of a name, which gets a new one if it has none. All others keep theirs. Fails with
    /// `AllocError` if an allocation fails.
    #[tactic(auto, unfolding(crate::specs::Numbers::name_number, h5_tables::specs::TagSets::html_namespace))]
    pub fn number(&mut self, name: &QualName) -> Result<u32, AllocError>
        ensures ok { IfOk result (λ number. name_number self.new name.now ≡ Some number) }
        ensures stay { (name : NameText) (number : ℕ) → name_number self.old name ≡ Some number → name_number self.new name ≡ Some number }
    {
        if name.ns.is_html() {
            self.number_html(&name.local)
        } else {
            self.number_foreign(&name.local)
        }
    }
}
