//! Blocks, paragraphs and headings in the body (HTML standard, section 13.2.6.4.7).
ghost use Rattle.std.specs.Prelude.{◌<◌, ◌≡◌, false, true};
ghost use Rattle.h5_tables.specs.TagSets.{block_end_names, heading_names, is_heading, is_one_of};
ghost use Rattle.h5_builder_spec.specs.stack.Scope.{first_passes};
ghost use Rattle.h5_builder_spec.specs.modes.InBody.{in_body_end_block, in_body_end_heading, in_body_end_p, in_body_start_block, in_body_start_heading, in_body_start_preformatted};
ghost use Rattle.h5_builder_spec.specs.World.{names_of};
ghost use Rattle.h5_builder_state.specs.Steps.{IsSound, TellsErrors, errors_of, world_of};
ghost use Rattle.h5_builder_state.specs.Turn.{TakesTag};

use h5_builder_actions::{
    close_p_element, close_p_element_in_button_scope, expect_to_close, find_heading_in_scope,
    find_in_default_scope, generate_implied_end_tags, insert_phantom, insert_tag,
    is_current_heading, pop_heading, pop_until_heading,
};
use h5_builder_state::{
    State, Turn, has_p_in_button_scope, is_current_html, pop_until_named, report_error,
    set_frameset_not_ok, set_ignore_lf, unexpected_tag,
};
use h5_interface::TreeSink;
use h5_names::KnownName;
use h5_tables::{ProcessResult, TreeError};
use h5_token::Tag;

// A start tag `address`, `article`, .., `ul`: a block, before which a `p` in button scope is closed.
pub(crate) fn in_body_start_block<S: TreeSink>(
    sink: &mut S,
    state: &mut State<S::Handle>,
    tag: Tag,
) -> Turn
    requires { IsSound S.TreeSink sink.old state.old }
    ensures { TakesTag S.TreeSink in_body_start_block tag sink.old state.old sink.new state.new result }
{
    let expected = close_p_element_in_button_scope(sink, state);
    expect_to_close(sink, state, expected);
    insert_tag(sink, state, tag)?;
    Ok(ProcessResult::Done)
}

// A start tag `pre` or `listing`: a block, in which a newline at the start is dropped.
pub(crate) fn in_body_start_preformatted<S: TreeSink>(
    sink: &mut S,
    state: &mut State<S::Handle>,
    tag: Tag,
) -> Turn
    requires { IsSound S.TreeSink sink.old state.old }
    ensures { TakesTag S.TreeSink in_body_start_preformatted tag sink.old state.old sink.new state.new result }
{
    let expected = close_p_element_in_button_scope(sink, state);
    expect_to_close(sink, state, expected);
    insert_tag(sink, state, tag)?;
    set_ignore_lf(sink, state);
    set_frameset_not_ok(sink, state);
    Ok(ProcessResult::Done)
}

// A heading in a heading is a parse error.
fn check_heading<S: TreeSink>(sink: &mut S, state: &State<S::Handle>)
    requires { IsSound S.TreeSink sink.old state.now }
    ensures told { TellsErrors S.TreeSink sink.old sink.new state.now }
    ensures noted { first_passes is_heading (names_of (world_of S.TreeSink sink.old state.now)) ≡ true → 0 < errors_of S.TreeSink sink.new }
    ensures quiet { first_passes is_heading (names_of (world_of S.TreeSink sink.old state.now)) ≡ false → errors_of S.TreeSink sink.new ≡ errors_of S.TreeSink sink.old }
{
    if is_current_heading(sink, state) {
        report_error(sink, state, TreeError::NestedHeadings);
    }
}

// A start tag `h1` to `h6`: as a block, and the current node is closed if it is a heading.
pub(crate) fn in_body_start_heading<S: TreeSink>(
    sink: &mut S,
    state: &mut State<S::Handle>,
    tag: Tag,
) -> Turn
    requires { IsSound S.TreeSink sink.old state.old }
    ensures { TakesTag S.TreeSink in_body_start_heading tag sink.old state.old sink.new state.new result }
{
    let expected = close_p_element_in_button_scope(sink, state);
    expect_to_close(sink, state, expected);
    check_heading(sink, state);
    pop_heading(sink, state);
    insert_tag(sink, state, tag)?;
    Ok(ProcessResult::Done)
}

// An end tag `address`, `article`, .., `ul`: it closes the block of its name, if one is in scope.
#[tactic(auto, unfolding(h5_builder_spec::specs::modes::InBody::in_body_end_block))]
pub(crate) fn in_body_end_block<S: TreeSink>(
    sink: &mut S,
    state: &mut State<S::Handle>,
    tag: Tag,
) -> Turn
    requires sound { IsSound S.TreeSink sink.old state.old }
    requires name { is_one_of block_end_names tag.name ≡ true }
    ensures { TakesTag S.TreeSink in_body_end_block tag sink.old state.old sink.new state.new result }
{
    let local = &tag.name;
    match find_in_default_scope(sink, state, local) {
        Some(place) => {
            generate_implied_end_tags(sink, state);
            let expected = is_current_html(sink, state, local);
            expect_to_close(sink, state, expected);
            pop_until_named(sink, state, local, place);
            Ok(ProcessResult::Done)
        }
        None => {
            unexpected_tag(sink, state, &tag);
            Ok(ProcessResult::Done)
        }
    }
}

// An end tag `p`: it closes the `p` in button scope, or one that is inserted for it.
#[tactic(auto, unfolding(h5_builder_spec::specs::modes::InBody::in_body_end_p))]
pub(crate) fn in_body_end_p<S: TreeSink>(
    sink: &mut S,
    state: &mut State<S::Handle>,
    tag: Tag,
) -> Turn
    requires { IsSound S.TreeSink sink.old state.old }
    ensures { TakesTag S.TreeSink in_body_end_p tag sink.old state.old sink.new state.new result }
{
    let _ = tag;
    if has_p_in_button_scope(sink, state) {
        let expected = close_p_element(sink, state);
        expect_to_close(sink, state, expected);
        Ok(ProcessResult::Done)
    } else {
        report_error(sink, state, TreeError::NoParagraphToClose);
        insert_phantom(sink, state, KnownName::P)?;
        close_p_element(sink, state);
        Ok(ProcessResult::Done)
    }
}

// An end tag `h1` to `h6`: it closes the heading in scope, even one of another name.
#[tactic(auto, unfolding(h5_builder_spec::specs::modes::InBody::in_body_end_heading))]
pub(crate) fn in_body_end_heading<S: TreeSink>(
    sink: &mut S,
    state: &mut State<S::Handle>,
    tag: Tag,
) -> Turn
    requires sound { IsSound S.TreeSink sink.old state.old }
    requires name { is_one_of heading_names tag.name ≡ true }
    ensures { TakesTag S.TreeSink in_body_end_heading tag sink.old state.old sink.new state.new result }
{
    match find_heading_in_scope(sink, state) {
        Some(place) => {
            generate_implied_end_tags(sink, state);
            let expected = is_current_html(sink, state, &tag.name);
            expect_to_close(sink, state, expected);
            pop_until_heading(sink, state, place);
            Ok(ProcessResult::Done)
        }
        None => {
            report_error(sink, state, TreeError::NoHeadingToClose);
            Ok(ProcessResult::Done)
        }
    }
}
