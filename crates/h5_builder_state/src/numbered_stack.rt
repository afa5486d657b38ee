//! A stack of values, each with a number.
ghost use Rattle.std.specs.Prelude.{◌≡◌, ◌==◌, ◌<◌, ◌≤◌, ◌+◌, ◌-◌, ◌^◌, ◌↔◌, ◌∷◌, ◌++◌, [], IfOk, IsSome, OnErr, OnOk, length, reverse, slice_get, slice_index, slice_index_or, slice_set, take};
ghost use Rattle.std.specs.List.{insert, remove};
ghost use Rattle.std.specs.Option.{option_copied, option_to_list};
ghost use Rattle.h5_builder_state.specs.Numbered.{Numbered, newest_of, newest_under, numbers, one_of, values};

use super::item::Item;
use super::moves::move_up;
use super::places::{put_back, reach, renumber, take_back};
use std::alloc::{AllocError, Global};
use std::marker::Model;

/// The maximal number of values, so that places fit 32 bits.
pub const MAX_LEN: usize = 0xffff_ffff;

/// A stack of values, each with a number. It has the place of the newest value of each number, without a walk.
///
/// Contracts see it as the list of its values with their numbers, the oldest first. Places are counted from the oldest.
/// A table has an entry for each number up to the largest, so numbers should be small.
#[derive(Drop)]
pub struct NumberedStack<T> {
    items: Vec<Item<T>>,
    // By number, one more than the place of the newest value of that number, or 0 if there is none. A number past the
    // end has none.
    table: Vec<u32>,
}

impl<T> Model for NumberedStack<T> {
    ghost use Rattle.std.specs.Prelude.{List};
    ghost use Rattle.h5_builder_state.specs.Items.{ArePlaced, stack_of};
    ghost use Rattle.h5_builder_state.specs.Numbered.{Numbered};

    ghost Value = { List (Numbered T) };

    ghost view = { λ stack. stack_of stack.items.items };

    ghost invariant = { λ stack. ArePlaced stack.items.items stack.table.items };
}

impl<T> NumberedStack<T> {
    /// Returns an empty stack.
    pub fn new(alloc: Global) -> NumberedStack<T>
        ensures { result ≡ [] }
    {
        NumberedStack {
            items: Vec::new(alloc),
            table: Vec::new(alloc),
        }
    }

    /// Returns the number of values.
    pub fn len(&self) -> usize
        ensures count { result ≡ length self.now }
        ensures few { result < 2 ^ 32 }
    {
        self.items.len()
    }

    /// Returns true if there are no values.
    pub fn is_empty(&self) -> bool
        ensures { result ≡ (length self.now == 0) }
    {
        self.len() == 0
    }

    /// Returns the place of the next value. Fails with `AllocError` if there are `MAX_LEN` values.
    pub fn next_place(&self) -> Result<u32, AllocError>
        ensures place { IfOk result (λ place. place ≡ length self.now) }
        ensures few { IfOk result (λ place. place + 1 < 2 ^ 32) }
    {
        let place = self.items.len();
        if place >= MAX_LEN {
            return Err(AllocError);
        }
        Ok(place as u32)
    }

    /// Returns the value at a place, which must be less than `len`.
    pub fn get(&self, place: usize) -> &T
        requires { place < length self.now }
        ensures { result.now ≡ slice_index_or (values self.now) place result.now }
    {
        &self.items[place].value
    }

    /// Returns the oldest value.
    pub fn first(&self) -> Option<&T>
        ensures { option_copied result ≡ slice_get (values self.now) 0 }
    {
        if self.is_empty() {
            return None;
        }
        Some(self.get(0))
    }

    /// Returns the newest value.
    pub fn last(&self) -> Option<&T>
        ensures { option_copied result ≡ slice_get (values self.now) (length (values self.now) - 1) }
    {
        if self.is_empty() {
            return None;
        }
        Some(self.get(self.len() - 1))
    }

    /// Returns the number of the value at a place, which must be less than `len`.
    pub fn number_at(&self, place: usize) -> u32
        requires { place < length self.now }
        ensures { result ≡ slice_index (numbers self.now) place }
    {
        self.items[place].number
    }

    /// Returns one more than the place of the newest value of a number, or 0 if there is none. It takes one step.
    pub fn newest(&self, number: u32) -> usize
        ensures newest { result ≡ newest_of number (reverse (numbers self.now)) }
        ensures within { result ≤ length self.now }
    {
        let number = number as usize;
        if number < self.table.len() {
            self.table[number] as usize
        } else {
            0
        }
    }

    /// Returns one more than the place of the next older value with the same number as the value at a place, or 0 if
    /// there is none. It takes one step.
    pub fn older(&self, place: usize) -> usize
        requires { place < length self.now }
        ensures older { result ≡ newest_under (slice_index (numbers self.now) place) self.now place }
        ensures within { result ≤ place }
    {
        self.items[place].older as usize
    }

    /// Replaces the value at a place, and keeps its number.
    pub fn set(&mut self, place: usize, value: T)
    where
        T: Drop,
        requires { place < length self.old }
        ensures { self.new ≡ slice_set self.old place (one_of (slice_index (numbers self.old) place) value) }
    {
        self.items[place].value = value;
    }

    /// Replaces the value at a place, and its number. It takes a step for each value up to the next newer one of the
    /// old number, and of the new one. Fails with `AllocError` if an allocation fails; only a number that is larger
    /// than all before needs one.
    pub fn replace(&mut self, place: usize, number: u32, value: T) -> Result<(), AllocError>
    where
        T: Drop,
        requires { place < length self.old }
        ensures ok { OnOk result (self.new ≡ slice_set self.old place (one_of number value)) }
        ensures err { OnErr result (self.new ≡ self.old) }
    {
        reach(&mut self.table, number)?;
        renumber(&mut self.items, &mut self.table, place, number);
        self.items[place].value = value;
        Ok(())
    }

    /// Adds a value as the newest. Fails with `AllocError` if an allocation fails, or if there are `MAX_LEN` values;
    /// then the stack is unchanged.
    pub fn push(&mut self, number: u32, value: T) -> Result<(), AllocError>
    where
        T: Drop,
        ensures ok { OnOk result (self.new ≡ self.old ++ one_of number value ∷ []) }
        ensures err { OnErr result (self.new ≡ self.old) }
    {
        let place = self.next_place()? as usize;
        reach(&mut self.table, number)?;
        self.items.push(Item {
            value,
            number,
            older: 0,
        })?;
        put_back(&mut self.items, &mut self.table, place);
        Ok(())
    }

    /// Removes the newest value, and returns it.
    pub fn pop(&mut self) -> Option<T>
        ensures some { IsSome result ↔ (0 < length self.old) }
        ensures value { values self.old ≡ values self.new ++ option_to_list result }
        ensures rest { self.new ≡ take (length self.old - 1) self.old }
        ensures numbers { IsSome result → numbers self.old ≡ numbers self.new ++ slice_index (numbers self.old) (length self.new) ∷ [] }
    {
        match self.items.pop() {
            Some(item) => {
                self.table[item.number as usize] = item.older;
                Some(item.value)
            }
            None => None,
        }
    }

    /// Keeps the `count` oldest values. It takes one step for each value that is removed.
    pub fn truncate(&mut self, count: usize)
    where
        T: Drop,
        ensures { self.new ≡ take count self.old }
    {
        if count < self.items.len() {
            take_back(&self.items, &mut self.table, count);
            self.items.truncate(count);
        }
    }

    /// Removes the value at a place, which must be less than `len`, and returns it. Those above move down by one. It
    /// takes a step or two for each of them, and doesn't allocate.
    pub fn remove(&mut self, place: usize) -> T
        requires { place < length self.old }
        ensures value { result ≡ slice_index_or (values self.old) place result }
        ensures rest { self.new ≡ remove self.old place }
    {
        take_back(&self.items, &mut self.table, place);
        let item = self.items.remove(place);
        put_back(&mut self.items, &mut self.table, place);
        item.value
    }

    /// Moves the value at a place, with its number, to another one, which must not be lower; those between move down by
    /// one. It takes a step or two for each value from there on, and doesn't allocate.
    pub fn move_up(&mut self, from: usize, to: usize)
    where
        T: Drop,
        requires order { from ≤ to }
        requires inside { to < length self.old }
        ensures { (one : Numbered T) → one ≡ slice_index_or self.old from one → self.new ≡ insert (remove self.old from) to one }
    {
        take_back(&self.items, &mut self.table, from);
        move_up(&mut self.items, from, to);
        put_back(&mut self.items, &mut self.table, from);
    }
}
