//! The references whose names begin with what was seen. The table is in order, so they are adjacent, and for one more byte two
//! binary searches find which of them remain.
ghost use Rattle.std.specs.Prelude.{◌≡◌, ◌<◌, ◌≤◌, ◌==◌, ℕ, List, [], ◌∷◌, ◌++◌, length};
ghost use Rattle.h5_tokenizer_states.specs.Numbered.{how_many, name_of};
ghost use Rattle.h5_tokenizer_states.specs.Candidates.{AreCandidates, IsCut, IsRising, key_at};

use super::table::{COUNT, name};

/// The references whose names begin with what was seen, as a range of numbers.
#[derive(Clone, Copy)]
pub struct Candidates {
    pub from: usize,
    pub to: usize,
    ghost ordered: { from ≤ to },
    ghost within_table: { to ≤ how_many },
}

// Returns how a name goes on after `depth` bytes: 0 if it ends there, else one more than the byte.
fn key(number: usize, depth: usize) -> u16
    requires { number < how_many }
    ensures { result ≡ key_at (name_of number) depth }
{
    let name = name(number);
    if depth < name.len() {
        name[depth] as u16 + 1
    } else {
        0
    }
}

impl Candidates {
    /// Returns all references: every name begins with the empty text.
    pub fn all() -> Candidates
        ensures { AreCandidates [] result.from result.to }
    {
        Candidates { from: 0, to: COUNT }
    }

    pub fn is_empty(self) -> bool
        ensures { result ≡ (self.from == self.to) }
    {
        self.from == self.to
    }

    // Returns the first of them that goes on with this key or a larger one, or the end of the range.
    fn first_from(self, depth: usize, least: u16) -> usize
        ensures low { self.from ≤ result }
        ensures high { result ≤ self.to }
        ensures cut { IsRising depth self.from self.to → IsCut depth self.from result self.to least }
    {
        let mut low = self.from;
        let mut high = self.to;
        while low < high {
            let middle = low + (high - low) / 2;
            if key(middle, depth) < least {
                low = middle + 1;
            } else {
                high = middle;
            }
        }
        low
    }

    /// Returns those that go on with this byte after the `depth` bytes that were seen.
    pub fn narrowed(self, depth: usize, byte: u8) -> Candidates
        ensures { (seen : List ℕ) → length seen ≡ depth → AreCandidates seen self.from self.to
            → AreCandidates (seen ++ byte ∷ []) result.from result.to }
    {
        let wanted = byte as u16 + 1;
        let from = self.first_from(depth, wanted);
        let to = Candidates { from, to: self.to }.first_from(depth, wanted + 1);
        Candidates { from, to }
    }
}

/// Returns the references whose names begin with this.
pub fn candidates_of(seen: &[u8]) -> Candidates
    ensures { AreCandidates seen.now result.from result.to }
{
    let mut candidates = Candidates::all();
    for (depth, &byte) in seen.iter().enumerate() {
        candidates = candidates.narrowed(depth, byte);
    }
    candidates
}
