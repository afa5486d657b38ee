//! Names of tags and attributes. Names with the same spelling share their text.
ghost use Rattle.std.specs.Prelude.{◌≡◌, ◌<◌, ◌≤◌, IfOk, OnOk, vec_len};
ghost use Rattle.h5_markup.specs.Text as t;

use super::text::text_of;
use h5_names::{KnownName, LocalName};
use std::alloc::{AllocError, Global};
use std::marker::Model;

// The number of slots for names that HTML doesn't know.
const SLOTS: usize = 64;

// A name that equals its spelling.
#[derive(Drop)]
struct AsWritten {
    name: LocalName,
}

impl Model for AsWritten {
    ghost use Rattle.std.specs.Prelude.{◌≡◌, List, ℕ};
    ghost use Rattle.h5_markup.specs.Text.{name_of};

    ghost Value = { List ℕ };

    ghost view = { λ kept. kept.name };

    ghost invariant = { λ kept. name_of kept.name ≡ kept.name };
}

/// Recent names that HTML doesn't know, one in each slot. Most of them occur again, and then share their text.
#[derive(Drop)]
pub struct SharedNames {
    slots: Vec<Option<AsWritten>>,
}

// The slot of a name.
fn slot_of(name: &[u8]) -> usize
    ensures { result < SLOTS }
{
    let len = name.len();
    if len == 0 {
        return 0;
    }
    let first = name[0] as usize;
    let middle = name[len / 2] as usize;
    let last = name[len - 1] as usize;
    (len % SLOTS * 7 + first * 3 + middle * 5 + last) % SLOTS
}

// A name that HTML doesn't know in this spelling: NULs become U+FFFD, newlines LF, and ASCII letters lower case.
fn make_name(alloc: Global, text: &str) -> Result<LocalName, AllocError>
    ensures { IfOk result (λ name. name ≡ t.name_of text.now) }
{
    let mut lower = text_of(alloc, false, text)?;
    lower.make_ascii_lowercase();
    LocalName::from_string(lower)
}

// Makes all slots, before the first name.
fn make_slots(slots: &mut Vec<Option<AsWritten>>) -> Result<(), AllocError>
    ensures { OnOk result (SLOTS ≤ vec_len slots.new) }
{
    while slots.len() < SLOTS {
        slots.push(None)?;
    }
    Ok(())
}

impl SharedNames {
    /// No names yet, without an allocation.
    pub fn new(alloc: Global) -> SharedNames {
        SharedNames {
            slots: Vec::new(alloc),
        }
    }

    /// Returns the name of a tag or an attribute: NULs become U+FFFD, newlines LF, and ASCII letters lower case. Fails with `AllocError` if
    /// an allocation fails (HTML standard, section 13.2.5.8, "Tag name state").
    #[inline(always)]
    pub fn name(&mut self, alloc: Global, text: &str) -> Result<LocalName, AllocError>
        ensures { IfOk result (λ name. name ≡ t.name_of text.now) }
    {
        // Most names are known, and need no allocation.
        match KnownName::from_text(text) {
            KnownName::Other => self.unknown(alloc, text),
            known => Ok(LocalName::from_known(known.to_ascii_lowercase())),
        }
    }

    // A name that HTML doesn't know in this spelling. It is taken from its slot if the name there has this spelling.
    #[inline(never)]
    fn unknown(&mut self, alloc: Global, text: &str) -> Result<LocalName, AllocError>
        ensures { IfOk result (λ name. name ≡ t.name_of text.now) }
    {
        let slot = slot_of(text.as_bytes());
        if let Some(Some(kept)) = self.slots.get(slot) {
            if kept.name.as_str() == text {
                return kept.name.clone();
            }
        }
        let name = make_name(alloc, text)?;
        if name.as_str() == text {
            self.keep(slot, name.clone()?)?;
        }
        Ok(name)
    }

    // Stores a name that equals its spelling.
    fn keep(&mut self, slot: usize, name: LocalName) -> Result<(), AllocError>
        requires slot { slot < SLOTS }
        requires name { t.name_of name ≡ name }
    {
        make_slots(&mut self.slots)?;
        self.slots[slot] = Some(AsWritten { name });
        Ok(())
    }
}
