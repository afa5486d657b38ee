//! Tests of the stack of open elements (HTML standard, section 13.2.4.2, "The stack of open elements"), and ways to
//! close elements.
ghost use Rattle.std.specs.Prelude.{◌≡◌, ◌<◌, ◌≤◌, ◌+◌, ◌^◌, ◌∷◌, [], ℕ, Bool, List, Some, true, false, length, codes, MatchOption, is_some};
ghost use Rattle.h5_names.specs.declared.qualified.QualName.{QualName as NameText};
ghost use Rattle.h5_interface.specs.Forest.{IsElement};
ghost use Rattle.h5_tables.specs.TagSets.{is_html_named, is_implied, is_special};
ghost use Rattle.h5_builder_spec.specs.Changes.{pop_while};
ghost use Rattle.h5_builder_spec.specs.reset.Roles.{is_html_element};
ghost use Rattle.h5_builder_spec.specs.stack.Order.{but_first};
ghost use Rattle.h5_builder_spec.specs.stack.Scope.{comes_before_special, cut_through, drop_while, first_passes, has_body_in_scope, has_p_in_button_scope, has_template, has_unclosed, is_implied_but, second_is};
ghost use Rattle.h5_builder_spec.specs.Rows.{GenerateImpliedEndExcept, PopUntilNamed};
ghost use Rattle.h5_builder_spec.specs.World.{name_in, names_of, root};
ghost use Rattle.h5_builder_state.specs.Stamps.{AreStamped};
ghost use Rattle.h5_builder_state.specs.Steps.{IsSound, Makes, TellsErrors, errors_of, world_of};
ghost use Rattle.h5_builder_state.specs.Numbers.{name_number};
ghost use Rattle.h5_builder_state.specs.Summaries.{IsKept, all_open, open_templates};
ghost use Rattle.h5_builder_state.specs.View.{names_under, stack_under, with_stack};

use super::errors::report_error;
use super::name_numbers::NameNumbers;
use super::name_test::{ImpliedBut, Local, NameTest};
use super::newest::newest_named;
use super::open_element::{AllOpen, OpenElement};
use super::state::State;
use super::steps::pop;
use h5_interface::TreeSink;
use h5_names::{KnownName, LocalName, QualName};
use h5_tables::{TreeError, is_html_known, is_html_local};

/// Returns the number of open elements.
#[tactic(auto, unfolding(crate::specs::View::world, crate::specs::View::names_under, crate::specs::View::stack_under, h5_builder_spec::specs::World::names_of))]
pub fn open_count<S: TreeSink>(sink: &S, state: &State<S::Handle>) -> usize
    ensures count { result ≡ length (world_of S.TreeSink sink.now state.now).stack }
    ensures few { result < 2 ^ 32 }
    ensures all { names_under S.sees S.node sink.now state.now result ≡ names_of (world_of S.TreeSink sink.now state.now) }
    ensures none { names_under S.sees S.node sink.now state.now 0 ≡ [] }
    ensures stack { stack_under S.node state.now result ≡ (world_of S.TreeSink sink.now state.now).stack }
    ensures bottom { stack_under S.node state.now 0 ≡ [] }
{
    state.open_elems.elements.len()
}

/// Returns the open element at a place, counted from the root; it must be less than the number of open elements.
#[tactic(auto, unfolding(crate::specs::View::world, crate::specs::View::names_under, crate::specs::View::stack_under))]
pub fn open_at<'a, S: TreeSink>(
    sink: &S,
    state: &'a State<S::Handle>,
    place: usize,
) -> &'a OpenElement<S::Handle>
    requires place { place < length (world_of S.TreeSink sink.now state.now).stack }
    requires sound { IsSound S.TreeSink sink.now state.now }
    ensures element { IsElement (S.sees sink.now).forest (S.node result.now.handle) }
    ensures names { names_under S.sees S.node sink.now state.now (place + 1) ≡ name_in (S.sees sink.now).forest (S.node result.now.handle) ∷ names_under S.sees S.node sink.now state.now place }
    ensures special { result.now.summary.special ≡ is_special (name_in (S.sees sink.now).forest (S.node result.now.handle)) }
    ensures implied { result.now.summary.implied ≡ is_implied (name_in (S.sees sink.now).forest (S.node result.now.handle)) }
    ensures stack { but_first (stack_under S.node state.now (place + 1)) ≡ stack_under S.node state.now place }
    ensures here { stack_under S.node state.now (place + 1) ≡ S.node result.now.handle ∷ stack_under S.node state.now place }
    ensures count { length (stack_under S.node state.now place) ≡ place }
{
    state.open_elems.elements.get(place)
}

/// Returns the name of the open element at a place, counted from the root; it must be less than the number of open
/// elements.
pub fn name_at<'a, S: TreeSink>(
    sink: &'a S,
    state: &'a State<S::Handle>,
    place: usize,
) -> &'a QualName
    requires place { place < length (world_of S.TreeSink sink.now state.now).stack }
    requires sound { IsSound S.TreeSink sink.now state.now }
    ensures names { names_under S.sees S.node sink.now state.now (place + 1) ≡ result.now ∷ names_under S.sees S.node sink.now state.now place }
    ensures stack { but_first (stack_under S.node state.now (place + 1)) ≡ stack_under S.node state.now place }
    ensures count { length (stack_under S.node state.now place) ≡ place }
{
    sink.elem_name(&open_at(sink, state, place).handle)
}

// The number of the name of the open element at a place.
#[tactic(auto, unfolding(crate::specs::View::world))]
fn number_at<S: TreeSink>(sink: &S, state: &State<S::Handle>, place: usize) -> u32
    requires place { place < length (world_of S.TreeSink sink.now state.now).stack }
    requires sound { IsSound S.TreeSink sink.now state.now }
    ensures { (name : NameText) → (older : List NameText) → names_under S.sees S.node sink.now state.now (place + 1) ≡ name ∷ older → name_number state.now.open_elems.numbers name ≡ Some result }
{
    state.open_elems.elements.number_at(place)
}

/// Returns true if the open element at a place is one of HTML, by the number of its name.
#[tactic(auto, unfolding(crate::specs::View::world))]
pub fn is_html_at<S: TreeSink>(sink: &S, state: &State<S::Handle>, place: usize) -> bool
    requires place { place < length (world_of S.TreeSink sink.now state.now).stack }
    requires sound { IsSound S.TreeSink sink.now state.now }
    ensures { (n : ℕ) → (older : List ℕ) → stack_under S.node state.now (place + 1) ≡ n ∷ older → result ≡ is_html_element (name_in (S.sees sink.now).forest n) }
{
    NameNumbers::is_html(number_at(sink, state, place))
}

/// Returns true if the open element at a place is an HTML element of this name. Gets its name from the sink only if
/// HTML doesn't know this name.
pub fn is_named<S: TreeSink>(
    sink: &S,
    state: &State<S::Handle>,
    place: usize,
    local: &LocalName,
) -> bool
    requires place { place < length (world_of S.TreeSink sink.now state.now).stack }
    requires sound { IsSound S.TreeSink sink.now state.now }
    ensures { result ≡ first_passes (is_html_named local.now) (names_under S.sees S.node sink.now state.now (place + 1)) }
{
    let known = local.known();
    if known == KnownName::Other {
        is_html_local(name_at(sink, state, place), local)
    } else {
        number_at(sink, state, place) == known as u32
    }
}

/// Returns the place of the newest open HTML element of this name, which is the number of older elements, or 0 if none
/// is open.
pub fn find_named<S: TreeSink>(sink: &S, state: &State<S::Handle>, local: &LocalName) -> usize
    requires { IsSound S.TreeSink sink.now state.now }
    ensures { result ≡ length (cut_through (is_html_named local.now) (names_of (world_of S.TreeSink sink.now state.now)) (world_of S.TreeSink sink.now state.now).stack) }
{
    newest_named(sink, state, local).saturating_sub(1)
}

/// Returns what is known about all open elements, from the summary of the newest.
#[tactic(auto, unfolding(crate::specs::View::world, h5_builder_spec::specs::World::names_of))]
pub fn all_open<S: TreeSink>(sink: &S, state: &State<S::Handle>) -> AllOpen
    requires { IsSound S.TreeSink sink.now state.now }
    ensures known { result ≡ all_open (names_of (world_of S.TreeSink sink.now state.now)) }
    ensures few { result.templates ≤ length (world_of S.TreeSink sink.now state.now).stack }
{
    match state.open_elems.elements.last() {
        Some(newest) => newest.summary.all,
        None => AllOpen::none(),
    }
}

/// Returns true if an HTML `body` is in scope.
pub fn has_body_in_scope<S: TreeSink>(sink: &S, state: &State<S::Handle>) -> bool
    requires { IsSound S.TreeSink sink.now state.now }
    ensures { result ≡ has_body_in_scope (names_of (world_of S.TreeSink sink.now state.now)) }
{
    all_open(sink, state).body_in_scope
}

/// Returns true if an HTML `p` is in button scope.
pub fn has_p_in_button_scope<S: TreeSink>(sink: &S, state: &State<S::Handle>) -> bool
    requires { IsSound S.TreeSink sink.now state.now }
    ensures { result ≡ has_p_in_button_scope (names_of (world_of S.TreeSink sink.now state.now)) }
{
    all_open(sink, state).p_in_button_scope
}

/// Returns the number of open HTML `template`s.
pub fn open_templates<S: TreeSink>(sink: &S, state: &State<S::Handle>) -> usize
    requires { IsSound S.TreeSink sink.now state.now }
    ensures { result ≡ open_templates (names_of (world_of S.TreeSink sink.now state.now)) }
{
    all_open(sink, state).templates as usize
}

/// Returns true if an HTML `template` is open.
pub fn has_open_template<S: TreeSink>(sink: &S, state: &State<S::Handle>) -> bool
    requires { IsSound S.TreeSink sink.now state.now }
    ensures { result ≡ has_template (names_of (world_of S.TreeSink sink.now state.now)) }
{
    open_templates(sink, state) > 0
}

// An element is open that may not be when the body ends.
fn has_unclosed<S: TreeSink>(sink: &S, state: &State<S::Handle>) -> bool
    requires { IsSound S.TreeSink sink.now state.now }
    ensures { result ≡ has_unclosed (names_of (world_of S.TreeSink sink.now state.now)) }
{
    all_open(sink, state).unclosed
}

/// Reports a parse error if an element is open that may not be when the body ends (HTML standard, section 13.2.6.4.7,
/// an end tag "body").
pub fn check_body_end<S: TreeSink>(sink: &mut S, state: &State<S::Handle>)
    requires { IsSound S.TreeSink sink.old state.now }
    ensures told { TellsErrors S.TreeSink sink.old sink.new state.now }
    ensures noted { has_unclosed (names_of (world_of S.TreeSink sink.old state.now)) ≡ true → 0 < errors_of S.TreeSink sink.new }
    ensures quiet { has_unclosed (names_of (world_of S.TreeSink sink.old state.now)) ≡ false → errors_of S.TreeSink sink.new ≡ errors_of S.TreeSink sink.old }
{
    if has_unclosed(sink, state) {
        report_error(sink, state, TreeError::OpenElementAtEndOfBody);
    }
}

/// Returns a handle of the root, or of the document if no element is open.
#[tactic(auto, unfolding(crate::specs::View::world))]
pub fn root_node<S: TreeSink>(sink: &S, state: &State<S::Handle>) -> S::Handle
    requires { IsSound S.TreeSink sink.now state.now }
    ensures { S.node result ≡ root (world_of S.TreeSink sink.now state.now) }
{
    match state.open_elems.elements.first() {
        Some(element) => sink.clone_handle(&element.handle),
        None => sink.get_document(),
    }
}

/// Returns true if the second open element, from the root on, is an HTML `body`.
#[tactic(auto, unfolding(crate::specs::View::world, h5_builder_spec::specs::World::names_of))]
pub fn has_body_second<S: TreeSink>(sink: &S, state: &State<S::Handle>) -> bool
    requires { IsSound S.TreeSink sink.now state.now }
    ensures { result ≡ second_is (codes "body") (names_of (world_of S.TreeSink sink.now state.now)) }
{
    if state.open_elems.elements.len() > 1 {
        is_html_known(
            sink.elem_name(&state.open_elems.elements.get(1).handle),
            KnownName::Body,
        )
    } else {
        false
    }
}

/// Returns true if the name of the current node passes.
#[inline(always)]
pub fn is_current<S: TreeSink, Is: NameTest>(sink: &S, state: &State<S::Handle>, is: &Is) -> bool
    requires { IsSound S.TreeSink sink.now state.now }
    ensures { result ≡ first_passes (Is.holds is.now) (names_of (world_of S.TreeSink sink.now state.now)) }
{
    let count = open_count(sink, state);
    if count == 0 {
        return false;
    }
    is.test_open(sink, state, count - 1)
}

/// Returns true if the current node is an HTML element of this name.
pub fn is_current_html<S: TreeSink>(sink: &S, state: &State<S::Handle>, local: &LocalName) -> bool
    requires { IsSound S.TreeSink sink.now state.now }
    ensures { result ≡ first_passes (is_html_named local.now) (names_of (world_of S.TreeSink sink.now state.now)) }
{
    is_current(sink, state, &Local(local))
}

/// Pops elements while the name of the current node passes. The elements that are older than the newest one of another
/// test stay, if no name passes both.
#[inline(always)]
pub fn pop_while<S: TreeSink, Is: NameTest>(sink: &mut S, state: &mut State<S::Handle>, is: &Is)
    requires { IsSound S.TreeSink sink.old state.old }
    ensures world { world_of S.TreeSink sink.new state.new ≡ pop_while S.choices (Is.holds is.now) (names_of (world_of S.TreeSink sink.old state.old)) (world_of S.TreeSink sink.old state.old) }
    ensures quiet { errors_of S.TreeSink sink.new ≡ errors_of S.TreeSink sink.old }
    ensures sound { IsSound S.TreeSink sink.new state.new }
    ensures older { (other : NameText → Bool) → ((name : NameText) → Is.holds is.now name ≡ true → other name ≡ false)
        → cut_through other (names_of (world_of S.TreeSink sink.new state.new)) (world_of S.TreeSink sink.new state.new).stack
        ≡ cut_through other (names_of (world_of S.TreeSink sink.old state.old)) (world_of S.TreeSink sink.old state.old).stack }
{
    'passing: while is_current(sink, state, is) {
        pop(sink, state);
    }
}

/// Pops elements whose end tags are implied, except HTML elements of this name (HTML standard, section 13.2.6.3,
/// "generate implied end tags"). The elements that are older than the newest one of this name stay.
pub fn generate_implied_end_except<S: TreeSink>(
    sink: &mut S,
    state: &mut State<S::Handle>,
    local: &LocalName,
)
    requires { IsSound S.TreeSink sink.old state.old }
    ensures made { Makes S.TreeSink (GenerateImpliedEndExcept local.now) sink.old state.old sink.new state.new }
    ensures older { cut_through (is_html_named local.now) (names_of (world_of S.TreeSink sink.new state.new)) (world_of S.TreeSink sink.new state.new).stack
        ≡ cut_through (is_html_named local.now) (names_of (world_of S.TreeSink sink.old state.old)) (world_of S.TreeSink sink.old state.old).stack }
    ensures names { names_of (world_of S.TreeSink sink.new state.new) ≡ drop_while (is_implied_but local.now) (names_of (world_of S.TreeSink sink.old state.old)) }
{
    pop_while(sink, state, &ImpliedBut(local));
}

/// Removes elements from the stack up to and including the newest HTML element of this name, which must be at this
/// place. The sink isn't notified.
pub fn pop_until_named<S: TreeSink>(
    sink: &S,
    state: &mut State<S::Handle>,
    local: &LocalName,
    place: usize,
)
    requires sound { IsSound S.TreeSink sink.now state.old }
    requires place { place ≡ length (cut_through (is_html_named local.now) (names_of (world_of S.TreeSink sink.now state.old)) (world_of S.TreeSink sink.now state.old).stack) }
    ensures { Makes S.TreeSink (PopUntilNamed local.now) sink.now state.old sink.now state.new }
{
    truncate(sink, state, place);
}

/// Keeps the `count` oldest open elements.
#[tactic(auto, unfolding(crate::specs::View::world, crate::specs::View::stack_under))]
pub fn truncate<S: TreeSink>(sink: &S, state: &mut State<S::Handle>, count: usize)
    requires { IsSound S.TreeSink sink.now state.old }
    ensures kept { IsKept state.new.open_elems (names_of (world_of S.TreeSink sink.now state.new)) }
    ensures stamped { AreStamped S.node state.new.open_elems state.new.active_formatting }
    ensures world { world_of S.TreeSink sink.now state.new ≡ with_stack (stack_under S.node state.old count) (world_of S.TreeSink sink.now state.old) }
{
    state.open_elems.elements.truncate(count);
}
