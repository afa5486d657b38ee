//! Parses `an+b` (CSS Syntax Level 3, section 6, "The An+B microsyntax").
ghost use Rattle.std.specs.Prelude.{◌≡◌, bytes_eq, codes, false};
ghost use Rattle.h5_selectors.specs.Indices.{indices, indices_at, is_minus, named_by, named_indices_at, numbered_at, offset_at, signless_at, unit_at, unsigned_at, whole_number};
ghost use Rattle.h5_selectors.specs.Reads.{Reads};
ghost use Rattle.h5_selectors.specs.Tokens.{reading};

use super::fault::{Refusal, SelectorProblem};
use super::formula::AnPlusB;
use super::scan::Scan;
use std::alloc::Global;

// The index that is this number; no index if the number is negative.
fn one_index(offset: u32, is_under: bool) -> AnPlusB
    ensures { result ≡ indices 0 false offset is_under }
{
    AnPlusB {
        step: 0,
        falls: false,
        offset,
        is_under,
    }
}

// Every second index, from an offset on.
fn every_second(offset: u32) -> AnPlusB
    ensures { result ≡ indices 2 false offset false }
{
    AnPlusB {
        step: 2,
        falls: false,
        offset,
        is_under: false,
    }
}

// The number with these digits.
#[tactic(auto, unfolding(crate::specs::Indices::whole_number))]
fn whole_number(digits: &[char]) -> Option<u32>
    ensures { result ≡ whole_number digits.now }
{
    let mut scan = Scan { rest: digits };
    let number = scan.digits();
    if scan.rest.is_empty() {
        return number;
    }
    None
}

fn is_odd(name: &[char]) -> bool
    ensures { result ≡ bytes_eq name.now (codes "odd") }
{
    matches!(name, ['o', 'd', 'd'])
}

fn is_even(name: &[char]) -> bool
    ensures { result ≡ bytes_eq name.now (codes "even") }
{
    matches!(name, ['e', 'v', 'e', 'n'])
}

fn is_minus(text: &[char]) -> bool
    ensures { result ≡ is_minus text.now }
{
    matches!(text, ['-', '0'..='9', ..])
}

impl<'a> Scan<'a> {
    // The offset after its sign.
    #[tactic(auto, unfolding(crate::specs::Indices::signless_at))]
    fn offset_behind(&mut self, step: u32, falls: bool, is_under: bool) -> Result<AnPlusB, Refusal>
        ensures { Reads (λ indices. indices) result self.new.rest.now (signless_at step falls is_under self.old.rest.now) }
    {
        match self.digits() {
            Some(offset) if !self.is_at_name() => Ok(AnPlusB {
                step,
                falls,
                offset,
                is_under,
            }),
            _ => Err(self.refusal(SelectorProblem::AnPlusB)),
        }
    }

    // The part after `an`: nothing, or a sign and a number.
    #[tactic(auto, unfolding(crate::specs::Indices::offset_at))]
    fn offset(&mut self, step: u32, falls: bool) -> Result<AnPlusB, Refusal>
        ensures { Reads (λ indices. indices) result self.new.rest.now (offset_at step falls self.old.rest.now) }
    {
        let here = *self;
        self.skip_blanks();
        if self.take('+') {
            self.skip_blanks();
            return self.offset_behind(step, falls, false);
        }
        if self.take('-') {
            self.skip_blanks();
            return self.offset_behind(step, falls, true);
        }
        *self = here;
        Ok(AnPlusB {
            step,
            falls,
            offset: 0,
            is_under: false,
        })
    }

    // The part after a number or a sign, which begins with this name in lower case: `n`, `n-`, or `n-` and digits.
    #[tactic(auto, unfolding(crate::specs::Indices::unit_at))]
    fn behind_step(&mut self, unit: &[char], step: u32, falls: bool) -> Result<AnPlusB, Refusal>
        ensures { Reads (λ indices. indices) result self.new.rest.now (unit_at step falls unit.now self.old.rest.now) }
    {
        match unit {
            ['n'] => self.offset(step, falls),
            ['n', '-'] => {
                self.skip_blanks();
                self.offset_behind(step, falls, true)
            }
            ['n', '-', digits @ ..] => match whole_number(digits) {
                Some(offset) => Ok(AnPlusB {
                    step,
                    falls,
                    offset,
                    is_under: true,
                }),
                None => Err(self.refusal(SelectorProblem::AnPlusB)),
            },
            _ => Err(self.refusal(SelectorProblem::AnPlusB)),
        }
    }

    // The indices of a name in lower case, after a sign or without one.
    #[tactic(auto, unfolding(crate::specs::Indices::named_by))]
    fn by_name(&mut self, name: &[char], is_signed: bool) -> Result<AnPlusB, Refusal>
        ensures { Reads (λ indices. indices) result self.new.rest.now (named_by is_signed (reading name.now self.old.rest.now)) }
    {
        if is_signed {
            return self.behind_step(name, 1, false);
        }
        if is_odd(name) {
            return Ok(every_second(1));
        }
        if is_even(name) {
            return Ok(every_second(0));
        }
        match name {
            ['-', unit @ ..] => self.behind_step(unit, 1, true),
            _ => self.behind_step(name, 1, false),
        }
    }

    // The indices of a name without a number.
    #[tactic(auto, unfolding(crate::specs::Indices::named_indices_at))]
    fn named_indices(&mut self, alloc: Global, is_signed: bool) -> Result<AnPlusB, Refusal>
        ensures { Reads (λ indices. indices) result self.new.rest.now (named_indices_at is_signed self.old.rest.now) }
    {
        if !self.is_at_name() {
            return Err(self.refusal(SelectorProblem::AnPlusB));
        }
        let name = self.lower_name(alloc)?;
        self.by_name(name.as_slice(), is_signed)
    }

    // The indices of a number, and of a name after it, if there is one.
    fn numbered(&mut self, alloc: Global, number: u32, falls: bool) -> Result<AnPlusB, Refusal>
        ensures { Reads (λ indices. indices) result self.new.rest.now (numbered_at falls number self.old.rest.now) }
    {
        if !self.is_at_name() {
            return Ok(one_index(number, falls));
        }
        let unit = self.lower_name(alloc)?;
        self.behind_step(unit.as_slice(), number, falls)
    }

    // The indices after a sign, or without one.
    #[tactic(auto, unfolding(crate::specs::Indices::unsigned_at))]
    fn unsigned(&mut self, alloc: Global, is_signed: bool, falls: bool) -> Result<AnPlusB, Refusal>
        ensures { Reads (λ indices. indices) result self.new.rest.now (unsigned_at is_signed falls self.old.rest.now) }
    {
        match self.digits() {
            Some(number) => self.numbered(alloc, number, falls),
            None => self.named_indices(alloc, is_signed),
        }
    }

    /// Indices: `an+b`, `odd` or `even`.
    #[tactic(auto, unfolding(crate::specs::Indices::indices_at))]
    pub(crate) fn indices(&mut self, alloc: Global) -> Result<AnPlusB, Refusal>
        ensures { Reads (λ indices. indices) result self.new.rest.now (indices_at self.old.rest.now) }
    {
        self.skip_blanks();
        if self.take('+') {
            return self.unsigned(alloc, true, false);
        }
        if is_minus(self.rest) {
            self.skip();
            return self.unsigned(alloc, true, true);
        }
        self.unsigned(alloc, false, false)
    }
}
