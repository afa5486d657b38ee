//! The numbers of keys. Entries whose tags are alike have the same key, so an entry with another key isn't alike.
ghost use Rattle.std.specs.Prelude.{◌≡◌, ◌<◌, IfOk, length};
ghost use Rattle.h5_builder_state.specs.Numbering.{base_of};

use crate::Numbering;
use h5_tables::FormatEntry;
use h5_token::{Tag, tag_key};
use std::alloc::{AllocError, Global};

// The number of an entry without a key.
pub(super) const NO_KEY: u32 = 0;

// The first number of a key.
const FIRST_KEY: u32 = 1;

// The number that is searched if no entry has the key; no entry has it.
const NO_ENTRY: u32 = 0xffff_ffff;

/// Entries get keys only if at least this many are after the last marker: fewer are compared one by one. So no memory
/// is used for keys on a page with few formatting elements open at a time.
pub(super) const FEW: usize = 10;

/// Gives each key a number.
#[derive(Drop)]
pub struct KeyNumbers {
    texts: Numbering,
    ghost first: { base_of texts ≡ 1 },
}

impl KeyNumbers {
    ghost use Rattle.h5_token.specs.TokenText.{tag_text};
    ghost use Rattle.h5_builder_state.specs.Keys.{HasKeyNumber, IsKeyed, IsNumberOfAlike, StayKeyed};

    /// Returns a value without any key.
    pub(super) fn new(alloc: Global) -> KeyNumbers {
        KeyNumbers {
            texts: Numbering::new(alloc, FIRST_KEY),
        }
    }

    /// Returns the number of a tag's key, or a number that no entry has if the key has none.
    pub(super) fn find(&self, tag: &Tag) -> Result<u32, AllocError>
        ensures { IfOk result (λ number. IsNumberOfAlike self.now (tag_text tag.now) number) }
    {
        let key = tag_key(tag)?;
        match self.texts.find(key.as_str()) {
            Some(number) => Ok(number),
            None => Ok(NO_ENTRY),
        }
    }

    // The number of a tag's key, which gets a new one if it has none.
    fn number_tag(&mut self, tag: &Tag) -> Result<u32, AllocError>
        ensures ok { IfOk result (λ number. HasKeyNumber self.new (tag_text tag.now) number) }
        ensures stay { StayKeyed self.old self.new }
    {
        let key = tag_key(tag)?;
        self.texts.number(key.as_str())
    }

    /// Returns the number of an entry that is pushed, if there are enough entries after the last marker; otherwise
    /// `NO_KEY`.
    pub(super) fn number<Handle>(
        &mut self,
        entry: &FormatEntry<Handle>,
        count: usize,
    ) -> Result<u32, AllocError>
        ensures ok { IfOk result (λ number. IsKeyed self.new number entry.now) }
        ensures stay { StayKeyed self.old self.new }
    {
        if count < FEW {
            return Ok(NO_KEY);
        }
        match entry {
            FormatEntry::Element(_, tag) => self.number_tag(tag),
            FormatEntry::Marker => Ok(NO_KEY),
        }
    }
}
