//! Closes elements (HTML standard, sections 13.2.6.3, "Closing elements that have implied end tags", and 13.2.6.4.7).
ghost use Rattle.std.specs.Prelude.{◌≡◌, Bool, MatchOption, codes, false, if◌then◌else◌, is_some, length, true};
ghost use Rattle.h5_names.specs.declared.qualified.QualName.{QualName as NameText};
ghost use Rattle.h5_tables.specs.TagSets.{is_default_scope, is_heading, is_html_named, is_implied};
ghost use Rattle.h5_builder_spec.specs.stack.Expected.{is_expected, is_expected_p, names_behind_p};
ghost use Rattle.h5_builder_spec.specs.stack.Scope.{cut_through, drop_while, first_passes, in_scope, is_implied_but};
ghost use Rattle.h5_builder_spec.specs.Rows.{ClosePElement, ClosePElementInButtonScope, GenerateImpliedEnd, GenerateImpliedEndInSelect, PopHeading, PopUntilHeading};
ghost use Rattle.h5_builder_spec.specs.World.{names_of};
ghost use Rattle.h5_builder_state.specs.Steps.{IsSound, Makes, world_of};

use h5_builder_state::{
    Local, NameTest, State, find_in_scope, find_named, generate_implied_end_except,
    has_p_in_button_scope, in_scope_named, is_current, is_current_html, pop, pop_until_named,
    pop_while, truncate,
};
use h5_interface::TreeSink;
use h5_names::{KnownName, LocalName};
use h5_tables::ElementSet;

/// Returns the place of the newest open HTML element of this name, which is the number of older elements, if it is in
/// scope.
pub fn find_in_default_scope<S: TreeSink>(
    sink: &S,
    state: &State<S::Handle>,
    local: &LocalName,
) -> Option<usize>
    requires { IsSound S.TreeSink sink.now state.now }
    ensures found { is_some result ≡ in_scope (is_html_named local.now) is_default_scope (names_of (world_of S.TreeSink sink.now state.now)) }
    ensures place { MatchOption result (Unit {0}) (λ place. place ≡ length (cut_through (is_html_named local.now) (names_of (world_of S.TreeSink sink.now state.now)) (world_of S.TreeSink sink.now state.now).stack)) }
{
    find_in_scope(sink, state, &Local(local), &ElementSet::DefaultScope)
}

/// Returns the place of the newest open heading, `h1` to `h6`, which is the number of older elements, if it is in
/// scope.
pub fn find_heading_in_scope<S: TreeSink>(sink: &S, state: &State<S::Handle>) -> Option<usize>
    requires { IsSound S.TreeSink sink.now state.now }
    ensures found { is_some result ≡ in_scope is_heading is_default_scope (names_of (world_of S.TreeSink sink.now state.now)) }
    ensures place { MatchOption result (Unit {0}) (λ place. place ≡ length (cut_through is_heading (names_of (world_of S.TreeSink sink.now state.now)) (world_of S.TreeSink sink.now state.now).stack)) }
{
    find_in_scope(sink, state, &ElementSet::Heading, &ElementSet::DefaultScope)
}

/// Returns true if the current node is a heading.
pub fn is_current_heading<S: TreeSink>(sink: &S, state: &State<S::Handle>) -> bool
    requires { IsSound S.TreeSink sink.now state.now }
    ensures { result ≡ first_passes is_heading (names_of (world_of S.TreeSink sink.now state.now)) }
{
    is_current(sink, state, &ElementSet::Heading)
}

/// Pops elements whose end tags are implied (HTML standard, section 13.2.6.3, "generate implied end tags"). The
/// elements that are older than the newest one of a kind without implied end tag stay.
pub fn generate_implied_end_tags<S: TreeSink>(sink: &mut S, state: &mut State<S::Handle>)
    requires { IsSound S.TreeSink sink.old state.old }
    ensures made { Makes S.TreeSink GenerateImpliedEnd sink.old state.old sink.new state.new }
    ensures older { (is : NameText → Bool) → ((name : NameText) → is_implied name ≡ true → is name ≡ false)
        → cut_through is (names_of (world_of S.TreeSink sink.new state.new)) (world_of S.TreeSink sink.new state.new).stack
        ≡ cut_through is (names_of (world_of S.TreeSink sink.old state.old)) (world_of S.TreeSink sink.old state.old).stack }
    ensures names { names_of (world_of S.TreeSink sink.new state.new) ≡ drop_while is_implied (names_of (world_of S.TreeSink sink.old state.old)) }
{
    pop_while(sink, state, &ElementSet::CursoryImpliedEnd);
}

/// Pops elements whose end tags are implied, if an HTML `select` is in scope.
#[tactic(auto, unfolding(h5_builder_spec::specs::stack::Closing::generate_implied_end_in_select))]
pub fn generate_implied_end_in_select<S: TreeSink>(sink: &mut S, state: &mut State<S::Handle>)
    requires { IsSound S.TreeSink sink.old state.old }
    ensures made { Makes S.TreeSink GenerateImpliedEndInSelect sink.old state.old sink.new state.new }
    ensures names { names_of (world_of S.TreeSink sink.new state.new) ≡ (if in_scope (is_html_named (codes "select")) is_default_scope (names_of (world_of S.TreeSink sink.old state.old))
        then drop_while is_implied (names_of (world_of S.TreeSink sink.old state.old)) else names_of (world_of S.TreeSink sink.old state.old)) }
{
    if in_scope_named(sink, state, KnownName::Select) {
        generate_implied_end_tags(sink, state);
    }
}

/// Closes the newest open HTML `p` (HTML standard, section 13.2.6.4.7, "close a p element"). Returns true if it was the
/// current node after implied end tags were generated; otherwise this is a parse error.
#[tactic(auto, unfolding(h5_builder_spec::specs::stack::Closing::close_p_element))]
pub fn close_p_element<S: TreeSink>(sink: &mut S, state: &mut State<S::Handle>) -> bool
    requires { IsSound S.TreeSink sink.old state.old }
    ensures made { Makes S.TreeSink ClosePElement sink.old state.old sink.new state.new }
    ensures expected { result ≡ is_expected (is_implied_but (codes "p")) (is_html_named (codes "p")) (names_of (world_of S.TreeSink sink.old state.old)) }
{
    let p = LocalName::from_known(KnownName::P);
    generate_implied_end_except(sink, state, &p);
    let expected = is_current_html(sink, state, &p);
    let place = find_named(sink, state, &p);
    pop_until_named(sink, state, &p, place);
    expected
}

/// Closes the newest open HTML `p`, if one is in button scope; otherwise nothing changes. Returns false if there is a
/// parse error.
#[tactic(auto, unfolding(h5_builder_spec::specs::stack::Closing::close_p_element_in_button_scope, h5_builder_spec::specs::stack::Expected::is_expected_p))]
pub fn close_p_element_in_button_scope<S: TreeSink>(
    sink: &mut S,
    state: &mut State<S::Handle>,
) -> bool
    requires { IsSound S.TreeSink sink.old state.old }
    ensures made { Makes S.TreeSink ClosePElementInButtonScope sink.old state.old sink.new state.new }
    ensures expected { result ≡ is_expected_p (names_of (world_of S.TreeSink sink.old state.old)) }
    ensures names { names_of (world_of S.TreeSink sink.new state.new) ≡ names_behind_p (names_of (world_of S.TreeSink sink.old state.old)) }
{
    if has_p_in_button_scope(sink, state) {
        close_p_element(sink, state)
    } else {
        true
    }
}

/// Pops the current node, if it is a heading.
#[tactic(auto, unfolding(h5_builder_spec::specs::stack::Closing::pop_heading))]
pub fn pop_heading<S: TreeSink>(sink: &mut S, state: &mut State<S::Handle>)
    requires { IsSound S.TreeSink sink.old state.old }
    ensures { Makes S.TreeSink PopHeading sink.old state.old sink.new state.new }
{
    if is_current_heading(sink, state) {
        pop(sink, state);
    }
}

/// Removes elements from the stack up to and including the newest heading, which must be at this place. The sink isn't
/// notified.
pub fn pop_until_heading<S: TreeSink>(sink: &S, state: &mut State<S::Handle>, place: usize)
    requires sound { IsSound S.TreeSink sink.now state.old }
    requires place { place ≡ length (cut_through is_heading (names_of (world_of S.TreeSink sink.now state.old)) (world_of S.TreeSink sink.now state.old).stack) }
    ensures { Makes S.TreeSink PopUntilHeading sink.now state.old sink.now state.new }
{
    truncate(sink, state, place);
}
