//! The mode "in cell" (HTML standard, section 13.2.6.4.15).
ghost use Rattle.std.specs.Prelude.{◌≡◌, true};
ghost use Rattle.h5_tables.specs.TurnText.{HasText, turn_text};
ghost use Rattle.h5_tables.specs.TagSets.{cell_names, is_one_of};
ghost use Rattle.h5_builder_spec.specs.ByName.{by_known, of_tag};
ghost use Rattle.h5_builder_spec.specs.modes.InBody.{in_body};
ghost use Rattle.h5_builder_spec.specs.modes.InCell.{close_the_cell, in_cell, in_cell_end, in_cell_end_cell, in_cell_end_structure, in_cell_start, in_cell_start_structure, in_cell_tag};
ghost use Rattle.h5_builder_spec.specs.inner.Kept.{HasHtmlRoot};
ghost use Rattle.h5_builder_state.specs.Steps.{IsSound, world_of};
ghost use Rattle.h5_builder_state.specs.Turn.{TakesTag, TakesToken};

use super::parts::has_in_table_scope;
use h5_builder_actions::{
    clear_active_formatting_to_marker, expect_to_close, find_cell, find_in_table_scope,
    generate_implied_end_tags, is_current_cell, pop_until_cell,
};
use h5_builder_state::{
    Local, State, Turn, is_current_html, pop_until_named, set_again, set_mode, unexpected_tag,
};
use h5_interface::TreeSink;
use h5_modes_body::{in_body_tag, step_in_body};
use h5_modes_head::ignored_tag;
use h5_names::KnownName;
use h5_tables::{ElementSet, InsertionMode, ProcessResult, Token};
use h5_token::{Tag, TagKind};

// An end tag `td` or `th`.
#[tactic(auto, unfolding(h5_builder_spec::specs::modes::InCell::in_cell_end_cell))]
fn in_cell_end_cell<S: TreeSink>(sink: &mut S, state: &mut State<S::Handle>, tag: Tag) -> Turn
    requires sound { IsSound S.TreeSink sink.old state.old }
    requires name { is_one_of cell_names tag.name ≡ true }
    ensures { TakesTag S.TreeSink in_cell_end_cell tag sink.old state.old sink.new state.new result }
{
    let local = &tag.name;
    match find_in_table_scope(sink, state, &Local(local)) {
        Some(place) => {
            generate_implied_end_tags(sink, state);
            let expected = is_current_html(sink, state, local);
            expect_to_close(sink, state, expected);
            pop_until_named(sink, state, local, place);
            clear_active_formatting_to_marker(sink, state);
            set_mode(sink, state, InsertionMode::InRow);
            Ok(ProcessResult::Done)
        }
        None => {
            unexpected_tag(sink, state, &tag);
            Ok(ProcessResult::Done)
        }
    }
}

// "Close the cell": the newest cell is closed, and the tag is reprocessed in "in row".
fn close_the_cell<S: TreeSink>(sink: &mut S, state: &mut State<S::Handle>, tag: Tag) -> Turn
    requires { IsSound S.TreeSink sink.old state.old }
    ensures { TakesTag S.TreeSink (λ t. close_the_cell) tag sink.old state.old sink.new state.new result }
{
    generate_implied_end_tags(sink, state);
    let expected = is_current_cell(sink, state);
    expect_to_close(sink, state, expected);
    let place = find_cell(sink, state);
    pop_until_cell(sink, state, place);
    clear_active_formatting_to_marker(sink, state);
    set_again(sink, state, Token::Tag(tag));
    Ok(ProcessResult::Reprocess(InsertionMode::InRow))
}

// A start tag `caption`, `col`, .., `tr`: it closes the cell.
#[tactic(auto, unfolding(h5_builder_spec::specs::modes::InCell::in_cell_start_structure))]
fn in_cell_start_structure<S: TreeSink>(
    sink: &mut S,
    state: &mut State<S::Handle>,
    tag: Tag,
) -> Turn
    requires { IsSound S.TreeSink sink.old state.old }
    ensures { TakesTag S.TreeSink in_cell_start_structure tag sink.old state.old sink.new state.new result }
{
    if has_in_table_scope(sink, state, &ElementSet::TdTh) {
        close_the_cell(sink, state, tag)
    } else {
        unexpected_tag(sink, state, &tag);
        Ok(ProcessResult::Done)
    }
}

// An end tag `table`, `tbody`, `tfoot`, `thead` or `tr`: it closes the cell if an element of its name is in table
// scope.
#[tactic(auto, unfolding(h5_builder_spec::specs::modes::InCell::in_cell_end_structure))]
fn in_cell_end_structure<S: TreeSink>(sink: &mut S, state: &mut State<S::Handle>, tag: Tag) -> Turn
    requires { IsSound S.TreeSink sink.old state.old }
    ensures { TakesTag S.TreeSink in_cell_end_structure tag sink.old state.old sink.new state.new result }
{
    if has_in_table_scope(sink, state, &Local(&tag.name)) {
        close_the_cell(sink, state, tag)
    } else {
        unexpected_tag(sink, state, &tag);
        Ok(ProcessResult::Done)
    }
}

// End tags, by their names.
#[tactic(auto, unfolding(h5_builder_spec::specs::modes::InCell::in_cell_end, h5_tables::specs::TagSets::cell_names, h5_builder_spec::specs::modes::InCell::in_cell_closing_ends, h5_builder_spec::specs::modes::InCell::in_cell_ignored_ends, h5_names::specs::KnownNames::name_text))]
fn in_cell_end_tag<S: TreeSink>(sink: &mut S, state: &mut State<S::Handle>, tag: Tag) -> Turn
    requires sound { IsSound S.TreeSink sink.old state.old }
    requires ready { HasHtmlRoot (world_of S.TreeSink sink.old state.old) }
    ensures { TakesTag S.TreeSink (by_known in_cell_end (of_tag in_body)) tag sink.old state.old sink.new state.new result }
{
    match tag.name.known() {
        KnownName::Td | KnownName::Th => in_cell_end_cell(sink, state, tag),
        KnownName::Table | KnownName::Tbody | KnownName::Tfoot | KnownName::Thead | KnownName::Tr =>
            in_cell_end_structure(sink, state, tag),
        KnownName::Body
        | KnownName::Caption
        | KnownName::Col
        | KnownName::Colgroup
        | KnownName::Html => ignored_tag(sink, state, tag),
        _ => in_body_tag(sink, state, tag),
    }
}

// Start tags, by their names.
#[tactic(auto, unfolding(h5_builder_spec::specs::modes::InCell::in_cell_start, h5_builder_spec::specs::modes::Shared::table_structure_names, h5_names::specs::KnownNames::name_text))]
fn in_cell_start_tag<S: TreeSink>(sink: &mut S, state: &mut State<S::Handle>, tag: Tag) -> Turn
    requires sound { IsSound S.TreeSink sink.old state.old }
    requires ready { HasHtmlRoot (world_of S.TreeSink sink.old state.old) }
    ensures { TakesTag S.TreeSink (by_known in_cell_start (of_tag in_body)) tag sink.old state.old sink.new state.new result }
{
    match tag.name.known() {
        KnownName::Caption
        | KnownName::Col
        | KnownName::Colgroup
        | KnownName::Tbody
        | KnownName::Td
        | KnownName::Tfoot
        | KnownName::Th
        | KnownName::Thead
        | KnownName::Tr => in_cell_start_structure(sink, state, tag),
        _ => in_body_tag(sink, state, tag),
    }
}

/// A turn of a tag in "in cell".
#[tactic(auto, using(h5_builder_spec::proofs::rows::KnownRuleLaws::in_cell_start_known, h5_builder_spec::proofs::rows::KnownRuleLaws::in_cell_end_known), unfolding(h5_builder_spec::specs::modes::InCell::in_cell_tag))]
pub fn in_cell_tag<S: TreeSink>(sink: &mut S, state: &mut State<S::Handle>, tag: Tag) -> Turn
    requires sound { IsSound S.TreeSink sink.old state.old }
    requires ready { HasHtmlRoot (world_of S.TreeSink sink.old state.old) }
    ensures { TakesTag S.TreeSink in_cell_tag tag sink.old state.old sink.new state.new result }
{
    match tag.kind {
        TagKind::StartTag => in_cell_start_tag(sink, state, tag),
        TagKind::EndTag => in_cell_end_tag(sink, state, tag),
    }
}

/// A turn in "in cell".
pub fn step_in_cell<S: TreeSink>(sink: &mut S, state: &mut State<S::Handle>, token: Token) -> Turn
    requires sound { IsSound S.TreeSink sink.old state.old }
    requires ready { HasHtmlRoot (world_of S.TreeSink sink.old state.old) }
    requires text { HasText (turn_text token) }
    ensures { TakesToken S.TreeSink in_cell token sink.old state.old sink.new state.new result }
{
    match token {
        Token::Tag(tag) => in_cell_tag(sink, state, tag),
        token => step_in_body(sink, state, token),
    }
}
