//! An open element with its summary, by which tests of all open elements need no walk (HTML standard, section 13.2.4.2,
//! "The stack of open elements").
ghost use Rattle.std.specs.Prelude.{◌≡◌, ◌==◌, ◌&&◌, ◌<◌, ◌≤◌, ◌+◌, ◌^◌, ◌∷◌, if◌then◌else◌, List, [], false, length, true};
ghost use Rattle.h5_names.specs.declared.qualified.QualName.{QualName as NameText};
ghost use Rattle.h5_tables.specs.TagSets.{is_special};
ghost use Rattle.h5_builder_spec.specs.stack.Closing.{ends_item_search};
ghost use Rattle.h5_builder_state.specs.Summaries.{AreSetsOf, all_open, summary_of};

use super::name_numbers::NameNumbers;
use crate::NumberedStack;
use h5_names::{KnownName, QualName};
use h5_tables::{NameSet, NameSets, sets_of};
use std::alloc::Global;

/// What is known about the open elements from the root up to one of them. Places are counted from the root; a field
/// with a place has one more than it, or 0 if there is none.
#[derive(Clone, Copy, PartialEq, Eq)]
pub struct AllOpen {
    /// An element is open that may not be when the body ends.
    pub unclosed: bool,
    /// An HTML `body` is in scope.
    pub body_in_scope: bool,
    /// An HTML `p` is in button scope.
    pub p_in_button_scope: bool,
    /// The number of HTML `template`s.
    pub templates: u32,
    /// The newest special element.
    pub special: u32,
    /// The newest element that ends the search for a list item.
    pub item_end: u32,
    /// The newest element that ends a scope.
    pub scope_end: u32,
    /// The newest HTML element.
    pub html: u32,
    /// The oldest HTML `option`.
    pub oldest_option: u32,
}

impl AllOpen {
    /// Returns the value for no open elements.
    pub fn none() -> AllOpen
        ensures { result ≡ all_open [] }
    {
        AllOpen {
            unclosed: false,
            body_in_scope: false,
            p_in_button_scope: false,
            templates: 0,
            special: 0,
            item_end: 0,
            scope_end: 0,
            html: 0,
            oldest_option: 0,
        }
    }

    // The value with one more element, the newest, of this name at this place; the sets are those of the name.
    #[inline(always)]
    fn with_newest(self, name: &QualName, sets: NameSets, place: u32) -> AllOpen
        requires few { place + 1 < 2 ^ 32 }
        requires templates { self.templates ≤ place }
        requires sets { AreSetsOf name.now sets }
        ensures { (older : List NameText) → self ≡ all_open older → place ≡ length older → result ≡ all_open (name.now ∷ older) }
    {
        let (html, local) = (name.ns.is_html(), &name.local);
        let special = sets.has(NameSet::Special);
        let ends_scope = sets.has(NameSet::DefaultScope);
        let ends_button_scope = ends_scope | sets.has(NameSet::ButtonScope);
        let (is_body, is_p) = (
            html & local.is(KnownName::Body),
            html & local.is(KnownName::P),
        );
        AllOpen {
            unclosed: !sets.has(NameSet::BodyEndOk) | self.unclosed,
            body_in_scope: still_in_scope(is_body, ends_scope, self.body_in_scope),
            p_in_button_scope: still_in_scope(is_p, ends_button_scope, self.p_in_button_scope),
            templates: u32::from(html & local.is(KnownName::Template)) + self.templates,
            special: newest(special, place, self.special),
            item_end: newest(ends_item_search(name, special), place, self.item_end),
            scope_end: newest(ends_scope, place, self.scope_end),
            html: newest(html, place, self.html),
            oldest_option: oldest(
                html & local.is(KnownName::Option),
                place,
                self.oldest_option,
            ),
        }
    }
}

/// What is stored with an open element.
#[derive(Clone, Copy)]
pub struct Summary {
    /// The element is special.
    pub special: bool,
    /// Its end tag is implied.
    pub implied: bool,
    /// What is known about it and all older ones.
    pub all: AllOpen,
}

impl Summary {
    /// Returns the summary of an element of this name at this place. `older` must be what is known about all older
    /// ones.
    #[inline(always)]
    pub fn new(name: &QualName, older: AllOpen, place: u32) -> Summary
        requires few { place + 1 < 2 ^ 32 }
        requires templates { older.templates ≤ place }
        ensures { (names : List NameText) → older ≡ all_open names → place ≡ length names → result ≡ summary_of name.now names }
    {
        let sets = sets_of(name);
        Summary {
            special: sets.has(NameSet::Special),
            implied: sets.has(NameSet::CursoryImpliedEnd),
            all: older.with_newest(name, sets, place),
        }
    }
}

/// An open element.
#[derive(Drop)]
pub struct OpenElement<Handle> {
    pub handle: Handle,
    pub summary: Summary,
    /// No stamp that was assigned before it was pushed is higher.
    pub stamp: u32,
}

/// An element that is listed as a formatting element. If it is open, neither it nor a newer one has a lower stamp: so
/// it isn't searched below one that has.
#[derive(Drop)]
pub struct Listed<Handle> {
    pub handle: Handle,
    pub stamp: u32,
    /// Its place when it was listed, counted from the root: it is searched there first. It may have been closed or
    /// moved since.
    pub place: usize,
}

/// The stack of open elements, the root first, each with the number of its name; the stack has the place of the newest
/// element of each number.
#[derive(Drop)]
pub struct OpenElements<Handle> {
    pub elements: NumberedStack<OpenElement<Handle>>,
    pub numbers: NameNumbers,
    /// The last assigned stamp. None is higher.
    pub last: u32,
}

impl<Handle> OpenElements<Handle> {
    ghost use Rattle.h5_builder_state.specs.Summaries.{IsKept};

    /// Returns a stack without elements.
    pub fn new(alloc: Global) -> OpenElements<Handle>
        ensures none { result.elements ≡ [] }
        ensures kept { IsKept result [] }
    {
        OpenElements {
            elements: NumberedStack::new(alloc),
            numbers: NameNumbers::new(alloc),
            last: 0,
        }
    }

    // The stamp of the next element: a higher one, as long as there is one.
    pub(super) fn next_stamp(&self) -> u32
        ensures { self.now.last ≤ result }
    {
        self.last.saturating_add(1)
    }
}

// An element is in scope after another is pushed, which is such an element or ends the scope.
fn still_in_scope(is: bool, ends: bool, below: bool) -> bool
    ensures { result ≡ (if is then true else (if ends then false else below)) }
{
    is || !ends && below
}

// One more than the place of the newest one, with one more element, which may be such a one.
fn newest(is: bool, place: u32, below: u32) -> u32
    requires { place + 1 < 2 ^ 32 }
    ensures { result ≡ (if is then place + 1 else below) }
{
    if is { place + 1 } else { below }
}

// One more than the place of the oldest one, with one more element, which may be such a one.
fn oldest(is: bool, place: u32, below: u32) -> u32
    requires { place + 1 < 2 ^ 32 }
    ensures { result ≡ (if (below == 0) && is then place + 1 else below) }
{
    if below == 0 && is { place + 1 } else { below }
}

// An element of this name ends the search for a list item: it is special, and not `address`, `div` or `p`.
#[tactic(auto, unfolding(h5_builder_spec::specs::stack::Closing::passed_names, h5_tables::specs::TagSets::html_namespace))]
fn ends_item_search(name: &QualName, special: bool) -> bool
    requires { special ≡ is_special name.now }
    ensures { result ≡ ends_item_search name.now }
{
    special
        && !(name.ns.is_html()
            && (name.local.is(KnownName::Address)
                || name.local.is(KnownName::Div)
                || name.local.is(KnownName::P)))
}
