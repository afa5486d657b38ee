//! `select` and its content (HTML standard, section 13.2.6.4.7).
ghost use Rattle.std.specs.Prelude.{◌<◌, ◌||◌, ◌≡◌, MatchOption, OnOk, codes, false, option_map, true};
ghost use Rattle.h5_interface.specs.Forest.{IsElement};
ghost use Rattle.h5_builder_spec.specs.modes.InBody.{copies_option, has_option_in_scope, in_body_end_option, in_body_start_optgroup, in_body_start_option, in_body_start_select, named_in_scope};
ghost use Rattle.h5_builder_spec.specs.Rows.{apply_all};
ghost use Rattle.h5_builder_state.specs.Steps.{IsSound, TellsErrors, errors_of, world_of};
ghost use Rattle.h5_builder_state.specs.Turn.{TakesTag};
ghost use Rattle.h5_builder_spec.specs.World.{names_of};

use super::opens::{open_control, open_element};
use h5_builder_actions::{
    copy_closed_option, expect_to_close, find_in_default_scope, generate_implied_end_tags,
    oldest_option,
};
use h5_builder_state::{
    State, Turn, find_before_special, generate_implied_end_except, in_scope_named, is_current_html,
    is_select_context, pop, pop_until_named, report_error, report_tag,
};
use h5_interface::TreeSink;
use h5_names::{KnownName, LocalName};
use h5_tables::{ProcessResult, TreeError};
use h5_token::Tag;
use std::alloc::AllocError;

/// A start tag `select`: one in scope is closed, and no other is opened. The tag is ignored if the context is a
/// `select`.
#[tactic(auto, unfolding(h5_builder_spec::specs::modes::InBody::in_body_start_select))]
pub fn in_body_start_select<S: TreeSink>(
    sink: &mut S,
    state: &mut State<S::Handle>,
    tag: Tag,
) -> Turn
    requires { IsSound S.TreeSink sink.old state.old }
    ensures { TakesTag S.TreeSink in_body_start_select tag sink.old state.old sink.new state.new result }
{
    if is_select_context(sink, state) {
        report_tag(sink, state, TreeError::SelectInSelect, &tag);
        return Ok(ProcessResult::Done);
    }
    let select = LocalName::from_known(KnownName::Select);
    match find_in_default_scope(sink, state, &select) {
        Some(place) => {
            report_tag(sink, state, TreeError::SelectInSelect, &tag);
            pop_until_named(sink, state, &select, place);
            Ok(ProcessResult::Done)
        }
        None => {
            open_control(sink, state, tag)?;
            Ok(ProcessResult::Done)
        }
    }
}

/// Returns true if an HTML `option` or `optgroup` is in scope.
pub(crate) fn is_option_in_scope<S: TreeSink>(sink: &S, state: &State<S::Handle>) -> bool
    requires { IsSound S.TreeSink sink.now state.now }
    ensures { result ≡ has_option_in_scope (names_of (world_of S.TreeSink sink.now state.now)) }
{
    in_scope_named(sink, state, KnownName::Option)
        || in_scope_named(sink, state, KnownName::Optgroup)
}

// An `option` is a parse error if one is open.
fn check_option<S: TreeSink>(sink: &mut S, state: &State<S::Handle>)
    requires { IsSound S.TreeSink sink.old state.now }
    ensures told { TellsErrors S.TreeSink sink.old sink.new state.now }
    ensures noted { named_in_scope (codes "option") (world_of S.TreeSink sink.old state.now) ≡ true → 0 < errors_of S.TreeSink sink.new }
    ensures quiet { named_in_scope (codes "option") (world_of S.TreeSink sink.old state.now) ≡ false → errors_of S.TreeSink sink.new ≡ errors_of S.TreeSink sink.old }
{
    if in_scope_named(sink, state, KnownName::Option) {
        report_error(sink, state, TreeError::NestedOptions);
    }
}

// An `optgroup` is a parse error if an `option` or an `optgroup` is open.
fn check_optgroup<S: TreeSink>(sink: &mut S, state: &State<S::Handle>)
    requires { IsSound S.TreeSink sink.old state.now }
    ensures told { TellsErrors S.TreeSink sink.old sink.new state.now }
    ensures noted { has_option_in_scope (names_of (world_of S.TreeSink sink.old state.now)) ≡ true → 0 < errors_of S.TreeSink sink.new }
    ensures quiet { has_option_in_scope (names_of (world_of S.TreeSink sink.old state.now)) ≡ false → errors_of S.TreeSink sink.new ≡ errors_of S.TreeSink sink.old }
{
    if is_option_in_scope(sink, state) {
        report_error(sink, state, TreeError::NestedOptions);
    }
}

/// A start tag `option`: if a `select` is in scope, it closes elements with implied end tags except `optgroup`;
/// otherwise an `option` that is the current node.
#[tactic(auto, unfolding(h5_builder_spec::specs::modes::InBody::in_body_start_option))]
pub fn in_body_start_option<S: TreeSink>(
    sink: &mut S,
    state: &mut State<S::Handle>,
    tag: Tag,
) -> Turn
    requires { IsSound S.TreeSink sink.old state.old }
    ensures { TakesTag S.TreeSink in_body_start_option tag sink.old state.old sink.new state.new result }
{
    let option = LocalName::from_known(KnownName::Option);
    if in_scope_named(sink, state, KnownName::Select) {
        let optgroup = LocalName::from_known(KnownName::Optgroup);
        generate_implied_end_except(sink, state, &optgroup);
        check_option(sink, state);
        open_element(sink, state, tag)?;
        Ok(ProcessResult::Done)
    } else if is_current_html(sink, state, &option) {
        pop(sink, state);
        open_element(sink, state, tag)?;
        Ok(ProcessResult::Done)
    } else {
        open_element(sink, state, tag)?;
        Ok(ProcessResult::Done)
    }
}

/// A start tag `optgroup`: if a `select` is in scope, it closes elements with implied end tags; otherwise an `option`
/// that is the current node.
#[tactic(auto, unfolding(h5_builder_spec::specs::modes::InBody::in_body_start_optgroup))]
pub fn in_body_start_optgroup<S: TreeSink>(
    sink: &mut S,
    state: &mut State<S::Handle>,
    tag: Tag,
) -> Turn
    requires { IsSound S.TreeSink sink.old state.old }
    ensures { TakesTag S.TreeSink in_body_start_optgroup tag sink.old state.old sink.new state.new result }
{
    let option = LocalName::from_known(KnownName::Option);
    if in_scope_named(sink, state, KnownName::Select) {
        generate_implied_end_tags(sink, state);
        check_optgroup(sink, state);
        open_element(sink, state, tag)?;
        Ok(ProcessResult::Done)
    } else if is_current_html(sink, state, &option) {
        pop(sink, state);
        open_element(sink, state, tag)?;
        Ok(ProcessResult::Done)
    } else {
        open_element(sink, state, tag)?;
        Ok(ProcessResult::Done)
    }
}

// Copies an option, if there is one and it isn't open any more, into `selectedcontent` elements.
fn copy_option<S: TreeSink>(
    sink: &mut S,
    state: &State<S::Handle>,
    option: &Option<S::Handle>,
) -> Result<(), AllocError>
    requires sound { IsSound S.TreeSink sink.old state.now }
    requires element { MatchOption option.now (Unit {0}) (λ handle. IsElement (S.sees sink.old).forest (S.node handle)) }
    ensures done { OnOk result
        (world_of S.TreeSink sink.new state.now ≡ apply_all S.choices (copies_option (option_map S.node option.now)) (world_of S.TreeSink sink.old state.now)) }
    ensures quiet { errors_of S.TreeSink sink.new ≡ errors_of S.TreeSink sink.old }
    ensures sound { IsSound S.TreeSink sink.new state.now }
{
    match option {
        Some(option) => copy_closed_option(sink, state, option),
        None => Ok(()),
    }
}

/// An end tag `option`: it closes the newest `option`, if no special element is newer. If the one that is nearest to
/// the root was closed, it is copied.
#[tactic(auto, unfolding(h5_builder_spec::specs::modes::InBody::in_body_end_option))]
pub fn in_body_end_option<S: TreeSink>(sink: &mut S, state: &mut State<S::Handle>, tag: Tag) -> Turn
    requires { IsSound S.TreeSink sink.old state.old }
    ensures { TakesTag S.TreeSink in_body_end_option tag sink.old state.old sink.new state.new result }
{
    let local = &tag.name;
    match find_before_special(sink, state, local) {
        Some(place) => {
            let option = oldest_option(sink, state);
            generate_implied_end_except(sink, state, local);
            let expected = is_current_html(sink, state, local);
            expect_to_close(sink, state, expected);
            pop_until_named(sink, state, local, place);
            copy_option(sink, state, &option)?;
            Ok(ProcessResult::Done)
        }
        None => {
            report_error(sink, state, TreeError::SpecialElementBeforeTheOneToClose);
            Ok(ProcessResult::Done)
        }
    }
}
