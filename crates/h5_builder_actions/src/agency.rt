//! The adoption agency, and the rules that call it (HTML standard, section 13.2.6.4.7, "adoption agency algorithm").
ghost use Rattle.std.specs.Prelude.{◌≡◌, ◌≢◌, ◌<◌, ℕ, Bool, List, IfOk, OnOk, Some, codes, false, length};
ghost use Rattle.h5_names.specs.AttributeText.{is_same_text};
ghost use Rattle.h5_interface.specs.Forest.{IsElement};
ghost use Rattle.h5_builder_spec.specs.formatting.Adoption.{FormattingElement, newest_named, older_than};
ghost use Rattle.h5_builder_spec.specs.formatting.FormattingList.{without_entry};
ghost use Rattle.h5_builder_spec.specs.formatting.AdoptionAgency.{adopt_by, adopt_within, unlist_and_remove};
ghost use Rattle.h5_builder_spec.specs.Rows.{AdoptionAgency, HandleMisnestedATags};
ghost use Rattle.h5_builder_spec.specs.inner.Kept.{HasHtmlRoot};
ghost use Rattle.h5_builder_spec.specs.World.{World, root};
ghost use Rattle.h5_builder_state.specs.Stamps.{IsAbove, stamps_of};
ghost use Rattle.h5_builder_state.specs.Steps.{Becomes, BecomesIfOk, IsSound, MakesIfOk, errors_of, world_of};
ghost use Rattle.h5_builder_actions.specs.FormattingPlaces.{IsListedOnlyAt, IsOpenOnlyListed};
ghost use Rattle.h5_builder_actions.specs.Rounds.{IsFound, SomeFound, SomeOpen, adopt_open, then_again};
ghost use Rattle.h5_builder_state.specs.OpenPlaces.{IsOpenAt};

use super::ends::{close_named, close_through, unlist};
use super::find::{find_block, find_formatting_element, scope_ends_above};
use super::questions::{is_current_unlisted, is_listed_at};
use super::round::adopt;
use super::walk::{element_at, listed_at};
use crate::remove_from_stack;
use h5_builder_state::{Listed, State, find_listed, pop};
use h5_interface::TreeSink;
use h5_names::{KnownName, LocalName};
use std::alloc::AllocError;

// A round without a furthest block: the elements up to and including the formatting element are popped, and its entry
// is removed.
fn close_at<S: TreeSink>(sink: &S, state: &mut State<S::Handle>, at: usize, place: usize)
    requires sound { IsSound S.TreeSink sink.now state.old }
    requires found { SomeOpen place at (world_of S.TreeSink sink.now state.old) }
    ensures { (name : List ℕ) → (f : FormattingElement) → IsFound name f at (world_of S.TreeSink sink.now state.old) → IsOpenAt f.node place (world_of S.TreeSink sink.now state.old)
        → Becomes S.TreeSink (λ w. record w { stack = older_than f.node w.stack; formatting = without_entry f.node w.formatting }) sink.now state.old sink.now state.new }
{
    close_through(sink, state, place);
    unlist(sink, state, at);
}

// A round for the formatting element that is open at `place` and listed at `at`. Returns true if another round may
// follow.
fn round_open<S: TreeSink>(
    sink: &mut S,
    state: &mut State<S::Handle>,
    at: usize,
    place: usize,
) -> Result<bool, AllocError>
    requires sound { IsSound S.TreeSink sink.old state.old }
    requires found { SomeOpen place at (world_of S.TreeSink sink.old state.old) }
    ensures done { IfOk result (λ more. (name : List ℕ) → (f : FormattingElement) → IsFound name f at (world_of S.TreeSink sink.old state.old) → IsOpenAt f.node place (world_of S.TreeSink sink.old state.old)
        → (again : World → World) → adopt_open again S.choices f (world_of S.TreeSink sink.old state.old) ≡ then_again more again (world_of S.TreeSink sink.new state.new)) }
    ensures quiet { errors_of S.TreeSink sink.new ≡ errors_of S.TreeSink sink.old }
    ensures sound { IsSound S.TreeSink sink.new state.new }
{
    if scope_ends_above(sink, state, place) {
        return Ok(false);
    }
    match find_block(sink, state, place) {
        Some(block) => {
            adopt(sink, state, at, place, block)?;
            Ok(true)
        }
        None => {
            close_at(sink, state, at, place);
            Ok(false)
        }
    }
}

// A round for the formatting element that is listed at `at`.
fn round_listed<S: TreeSink>(
    sink: &mut S,
    state: &mut State<S::Handle>,
    at: usize,
    element: &Listed<S::Handle>,
) -> Result<bool, AllocError>
    requires sound { IsSound S.TreeSink sink.old state.old }
    requires found { SomeFound (S.node element.now.handle) at (world_of S.TreeSink sink.old state.old) }
    requires above { IsAbove (S.node element.now.handle) element.now.stamp (stamps_of S.node state.old.open_elems) }
    ensures done { IfOk result (λ more. (name : List ℕ) → (f : FormattingElement) → IsFound name f at (world_of S.TreeSink sink.old state.old) → f.node ≡ S.node element.now.handle
        → (again : World → World) → adopt_by again S.choices name (Some f) (world_of S.TreeSink sink.old state.old) ≡ then_again more again (world_of S.TreeSink sink.new state.new)) }
    ensures quiet { errors_of S.TreeSink sink.new ≡ errors_of S.TreeSink sink.old }
    ensures sound { IsSound S.TreeSink sink.new state.new }
{
    match find_listed(sink, state, element) {
        Some(place) => round_open(sink, state, at, place),
        None => {
            unlist(sink, state, at);
            Ok(false)
        }
    }
}

// A round for a name; if no formatting element of the name is listed after the last marker, it is that of any other end
// tag.
fn round<S: TreeSink>(
    sink: &mut S,
    state: &mut State<S::Handle>,
    name: &LocalName,
) -> Result<bool, AllocError>
    requires sound { IsSound S.TreeSink sink.old state.old }
    requires ready { HasHtmlRoot (world_of S.TreeSink sink.old state.old) }
    ensures done { IfOk result (λ more. (again : World → World) → adopt_by again S.choices name.now (newest_named name.now (world_of S.TreeSink sink.old state.old).formatting) (world_of S.TreeSink sink.old state.old)
        ≡ then_again more again (world_of S.TreeSink sink.new state.new)) }
    ensures quiet { errors_of S.TreeSink sink.new ≡ errors_of S.TreeSink sink.old }
    ensures sound { IsSound S.TreeSink sink.new state.new }
{
    match find_formatting_element(sink, state, name) {
        Some(at) => {
            let listed = listed_at(sink, state, at);
            let element = Listed {
                handle: sink.clone_handle(&listed.handle),
                stamp: listed.stamp,
                place: listed.place,
            };
            round_listed(sink, state, at, &element)
        }
        None => {
            close_named(sink, state, name);
            Ok(false)
        }
    }
}

// At most eight rounds.
fn rounds<S: TreeSink>(
    sink: &mut S,
    state: &mut State<S::Handle>,
    name: &LocalName,
) -> Result<(), AllocError>
    requires sound { IsSound S.TreeSink sink.old state.old }
    requires ready { HasHtmlRoot (world_of S.TreeSink sink.old state.old) }
    requires name { is_same_text name.now (codes "html") ≡ false }
    ensures { BecomesIfOk S.TreeSink (adopt_within 8 S.choices name.now) sink.old state.old sink.new state.new result }
{
    let mut left: u32 = 8;
    'rounds: while left > 0 {
        left -= 1;
        if !round(sink, state, name)? {
            return Ok(());
        }
    }
    Ok(())
}

/// The adoption agency for an end tag of this name, which must not be `html`: if the current node has the name and
/// isn't listed, it is popped; otherwise there are at most eight rounds. Fails with `AllocError` if an allocation
/// fails; the changes made until then stay.
#[tactic(auto, unfolding(h5_builder_spec::specs::formatting::AdoptionAgency::adoption_agency))]
pub fn adoption_agency<S: TreeSink>(
    sink: &mut S,
    state: &mut State<S::Handle>,
    name: &LocalName,
) -> Result<(), AllocError>
    requires sound { IsSound S.TreeSink sink.old state.old }
    requires ready { HasHtmlRoot (world_of S.TreeSink sink.old state.old) }
    requires name { is_same_text name.now (codes "html") ≡ false }
    ensures { MakesIfOk S.TreeSink (AdoptionAgency name.now) sink.old state.old sink.new state.new result }
{
    if is_current_unlisted(sink, state, name) {
        pop(sink, state);
        Ok(())
    } else {
        rounds(sink, state, name)
    }
}

// Removes an element from list and stack, if it is still there. It must be listed at this place or nowhere, and may be
// open only if it is listed.
#[tactic(auto, using(h5_builder_spec::proofs::changes::SoundLaws::element_is_node))]
fn remove_listed<S: TreeSink>(
    sink: &mut S,
    state: &mut State<S::Handle>,
    at: usize,
    element: &S::Handle,
)
    requires sound { IsSound S.TreeSink sink.old state.old }
    requires element { IsElement (S.sees sink.old).forest (S.node element.now) }
    requires root { S.node element.now ≢ root (world_of S.TreeSink sink.old state.old) }
    requires listed { IsListedOnlyAt (S.node element.now) at (world_of S.TreeSink sink.old state.old) }
    requires open { IsOpenOnlyListed (S.node element.now) (world_of S.TreeSink sink.old state.old) }
    ensures { Becomes S.TreeSink (unlist_and_remove S.choices (S.node element.now)) sink.old state.old sink.new state.new }
{
    if is_listed_at(sink, state, at, element) {
        unlist(sink, state, at);
        remove_from_stack(sink, state, element);
    }
}

/// If an `a` is listed after the last marker: the adoption agency runs for `a`, and then that element is removed from
/// list and stack, if it is still there (HTML standard, section 13.2.6.4.7, a start tag "a"). Fails with `AllocError`
/// if an allocation fails; the changes made until then stay.
#[tactic(auto, unfolding(h5_builder_spec::specs::formatting::AdoptionAgency::handle_misnested_a_tags))]
pub fn handle_misnested_a_tags<S: TreeSink>(
    sink: &mut S,
    state: &mut State<S::Handle>,
) -> Result<(), AllocError>
    requires sound { IsSound S.TreeSink sink.old state.old }
    requires ready { HasHtmlRoot (world_of S.TreeSink sink.old state.old) }
    ensures { MakesIfOk S.TreeSink HandleMisnestedATags sink.old state.old sink.new state.new result }
{
    let name = LocalName::from_known(KnownName::A);
    match find_formatting_element(sink, state, &name) {
        Some(at) => {
            let element = sink.clone_handle(element_at(sink, state, at));
            adoption_agency(sink, state, &name)?;
            // The agency leaves the entry at its place, or removes it and closes the element.
            remove_listed(sink, state, at, &element);
            Ok(())
        }
        None => Ok(()),
    }
}
