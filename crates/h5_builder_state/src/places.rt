//! The places of the values of a stack: each item's link, and the table of the newest value by number.
//!
//! Items above a place are removed from the table, the newest first, and put back, the oldest first, after a change
//! between.
ghost use Rattle.std.specs.Prelude.{◌≡◌, ◌<◌, ◌≤◌, ◌+◌, ◌^◌, ℕ, MatchOption, OnOk, length, slice_index, slice_set};
ghost use Rattle.h5_builder_state.specs.Numbered.{Numbered};
ghost use Rattle.h5_builder_state.specs.Items.{AreLinked, ArePlaced, AreReached, links_of, numbers_of, stack_of};
ghost use Rattle.h5_builder_state.specs.Replacing.{IsNextNewer, links_with, older_by, table_with};

use super::item::Item;
use std::alloc::AllocError;

// Makes the table have an entry for a number. Its other entries stay.
pub(super) fn reach(table: &mut Vec<u32>, number: u32) -> Result<(), AllocError>
    ensures same { (n : ℕ) → slice_index table.new.items n ≡ slice_index table.old.items n }
    ensures reached { OnOk result (number < length table.new.items) }
    ensures room { length table.old.items ≤ length table.new.items }
{
    let count = number as usize + 1;
    if table.len() < count {
        table.resize(count, 0)?;
    }
    Ok(())
}

// Removes the item at a place, the newest in the table, from it.
fn leave<T>(items: &Vec<Item<T>>, table: &mut Vec<u32>, place: usize)
    requires place { place < length items.now.items }
    requires linked { AreLinked items.now.items table.old.items (place + 1) }
    ensures linked { AreLinked items.now.items table.new.items place }
    ensures room { length table.new.items ≡ length table.old.items }
{
    let item = &items[place];
    table[item.number as usize] = item.older;
}

// Removes the items from a place on from the table.
pub(super) fn take_back<T>(items: &Vec<Item<T>>, table: &mut Vec<u32>, place: usize)
    requires place { place ≤ length items.now.items }
    requires linked { AreLinked items.now.items table.old.items (length items.now.items) }
    ensures linked { AreLinked items.now.items table.new.items place }
    ensures room { length table.new.items ≡ length table.old.items }
{
    let mut left = items.len();
    'down: while left > place {
        left -= 1;
        leave(items, table, left);
    }
}

// Puts the item at a place into the table, which has all older ones.
fn enter<T>(items: &mut Vec<Item<T>>, table: &mut Vec<u32>, place: usize)
    requires place { place < length items.old.items }
    requires small { length items.old.items < 2 ^ 32 }
    requires reached { AreReached items.old.items table.old.items }
    requires linked { AreLinked items.old.items table.old.items place }
    ensures same { stack_of items.new.items ≡ stack_of items.old.items }
    ensures linked { AreLinked items.new.items table.new.items (place + 1) }
    ensures room { length table.new.items ≡ length table.old.items }
{
    let item = &mut items[place];
    let number = item.number as usize;
    item.older = table[number];
    table[number] = place as u32 + 1;
}

// Puts the items from a place on into the table, which has all older ones.
pub(super) fn put_back<T>(items: &mut Vec<Item<T>>, table: &mut Vec<u32>, place: usize)
    requires place { place ≤ length items.old.items }
    requires small { length items.old.items < 2 ^ 32 }
    requires reached { AreReached items.old.items table.old.items }
    requires linked { AreLinked items.old.items table.old.items place }
    ensures same { stack_of items.new.items ≡ stack_of items.old.items }
    ensures placed { ArePlaced items.new.items table.new.items }
{
    let count = items.len();
    let mut next = place;
    'up: while next < count {
        enter(items, table, next);
        next += 1;
    }
}

// The place of the first item of a number above a place, if there is one.
pub(super) fn next_newer<T>(
    items: &Vec<Item<T>>,
    table: &Vec<u32>,
    number: u32,
    place: usize,
) -> Option<usize>
    requires place { place < length items.now.items }
    requires reached { number < length table.now.items }
    requires placed { ArePlaced items.now.items table.now.items }
    ensures { IsNextNewer number place (numbers_of items.now.items) result }
{
    if table[number as usize] as usize <= place + 1 {
        return None;
    }
    let count = items.len();
    let mut next = place + 1;
    'up: while next < count {
        if items[next].number == number {
            return Some(next);
        }
        next += 1;
    }
    None
}

// One more than the place of the newest value of a number below its next newer one: the link of that one, or the entry
// of the table if there is none.
pub(super) fn older_of<T>(
    items: &Vec<Item<T>>,
    table: &Vec<u32>,
    newer: Option<usize>,
    number: u32,
) -> u32
    requires reached { number < length table.now.items }
    requires newer { MatchOption newer (Unit {0}) (λ place. place < length items.now.items) }
    ensures { result ≡ older_by newer number (links_of items.now.items) table.now.items }
{
    match newer {
        Some(place) => items[place].older,
        None => table[number as usize],
    }
}

// Changes the place of the newest value of a number below its next newer one.
pub(super) fn set_older<T>(
    items: &mut Vec<Item<T>>,
    table: &mut Vec<u32>,
    newer: Option<usize>,
    number: u32,
    older: u32,
)
    requires reached { number < length table.old.items }
    requires newer { MatchOption newer (Unit {0}) (λ place. place < length items.old.items) }
    ensures same { stack_of items.new.items ≡ stack_of items.old.items }
    ensures links { links_of items.new.items ≡ links_with newer older (links_of items.old.items) }
    ensures table { table.new.items ≡ table_with newer number older table.old.items }
{
    match newer {
        Some(place) => items[place].older = older,
        None => table[number as usize] = older,
    }
}

// Gives the item at a place another number.
pub(super) fn renumber<T>(items: &mut Vec<Item<T>>, table: &mut Vec<u32>, place: usize, number: u32)
    requires place { place < length items.old.items }
    requires reached { number < length table.old.items }
    requires placed { ArePlaced items.old.items table.old.items }
    ensures others { (one : Numbered T) → slice_set (stack_of items.new.items) place one ≡ slice_set (stack_of items.old.items) place one }
    ensures numbers { numbers_of items.new.items ≡ slice_set (numbers_of items.old.items) place number }
    ensures placed { ArePlaced items.new.items table.new.items }
{
    let (former, older) = (items[place].number, items[place].older);
    if number != former {
        let above_former = next_newer(items, table, former, place);
        let above = next_newer(items, table, number, place);
        let below = older_of(items, table, above, number);
        set_older(items, table, above_former, former, older);
        set_older(items, table, above, number, place as u32 + 1);
        let item = &mut items[place];
        item.number = number;
        item.older = below;
    }
}
