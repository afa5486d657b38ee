//! The mode "in row" (HTML standard, section 13.2.6.4.14).
ghost use Rattle.h5_tables.specs.TurnText.{HasText, turn_text};
ghost use Rattle.h5_builder_spec.specs.ByName.{by_known, of_tag};
ghost use Rattle.h5_builder_spec.specs.modes.InTable.{in_table};
ghost use Rattle.h5_builder_spec.specs.modes.InRow.{in_row, in_row_close, in_row_end, in_row_end_row, in_row_end_section, in_row_start, in_row_start_cell, in_row_tag};
ghost use Rattle.h5_builder_spec.specs.inner.Kept.{HasHtmlRoot};
ghost use Rattle.h5_builder_state.specs.Steps.{IsSound, world_of};
ghost use Rattle.h5_builder_state.specs.Turn.{TakesTag, TakesToken};

use super::in_table::{in_table_tag, step_in_table};
use super::parts::{clear_to_table_row_context, has_in_table_scope};
use h5_builder_actions::{insert_marker, insert_tag};
use h5_builder_state::{Known, Local, State, Turn, pop, set_again, set_mode, unexpected_tag};
use h5_interface::TreeSink;
use h5_modes_head::ignored_tag;
use h5_names::KnownName;
use h5_tables::{InsertionMode, ProcessResult, Token};
use h5_token::{Tag, TagKind};

// A start tag `td` or `th`.
fn in_row_start_cell<S: TreeSink>(sink: &mut S, state: &mut State<S::Handle>, tag: Tag) -> Turn
    requires { IsSound S.TreeSink sink.old state.old }
    ensures { TakesTag S.TreeSink in_row_start_cell tag sink.old state.old sink.new state.new result }
{
    clear_to_table_row_context(sink, state);
    insert_tag(sink, state, tag)?;
    set_mode(sink, state, InsertionMode::InCell);
    insert_marker(sink, state)?;
    Ok(ProcessResult::Done)
}

// An end tag `tr`.
#[tactic(auto, unfolding(h5_builder_spec::specs::modes::InRow::close_the_row))]
fn in_row_end_row<S: TreeSink>(sink: &mut S, state: &mut State<S::Handle>, tag: Tag) -> Turn
    requires sound { IsSound S.TreeSink sink.old state.old }
    requires ready { HasHtmlRoot (world_of S.TreeSink sink.old state.old) }
    ensures { TakesTag S.TreeSink in_row_end_row tag sink.old state.old sink.new state.new result }
{
    if has_in_table_scope(sink, state, &Known(KnownName::Tr)) {
        clear_to_table_row_context(sink, state);
        pop(sink, state);
        set_mode(sink, state, InsertionMode::InTableBody);
        Ok(ProcessResult::Done)
    } else {
        unexpected_tag(sink, state, &tag);
        Ok(ProcessResult::Done)
    }
}

// A tag that closes the row, and is reprocessed in "in table body".
#[tactic(auto, unfolding(h5_builder_spec::specs::modes::InRow::close_the_row))]
fn in_row_close<S: TreeSink>(sink: &mut S, state: &mut State<S::Handle>, tag: Tag) -> Turn
    requires sound { IsSound S.TreeSink sink.old state.old }
    requires ready { HasHtmlRoot (world_of S.TreeSink sink.old state.old) }
    ensures { TakesTag S.TreeSink in_row_close tag sink.old state.old sink.new state.new result }
{
    if has_in_table_scope(sink, state, &Known(KnownName::Tr)) {
        clear_to_table_row_context(sink, state);
        pop(sink, state);
        set_again(sink, state, Token::Tag(tag));
        Ok(ProcessResult::Reprocess(InsertionMode::InTableBody))
    } else {
        unexpected_tag(sink, state, &tag);
        Ok(ProcessResult::Done)
    }
}

// An end tag `tbody`, `tfoot` or `thead`: it closes the row if an element of its name is in table scope.
#[tactic(auto, unfolding(h5_builder_spec::specs::modes::InRow::in_row_end_section))]
fn in_row_end_section<S: TreeSink>(sink: &mut S, state: &mut State<S::Handle>, tag: Tag) -> Turn
    requires sound { IsSound S.TreeSink sink.old state.old }
    requires ready { HasHtmlRoot (world_of S.TreeSink sink.old state.old) }
    ensures { TakesTag S.TreeSink in_row_end_section tag sink.old state.old sink.new state.new result }
{
    if has_in_table_scope(sink, state, &Local(&tag.name)) {
        in_row_close(sink, state, tag)
    } else {
        unexpected_tag(sink, state, &tag);
        Ok(ProcessResult::Done)
    }
}

// Start tags, by their names.
#[tactic(auto, unfolding(h5_builder_spec::specs::modes::InRow::in_row_start, h5_tables::specs::TagSets::cell_names, h5_builder_spec::specs::modes::InRow::row_closing_names, h5_names::specs::KnownNames::name_text))]
fn in_row_start_tag<S: TreeSink>(sink: &mut S, state: &mut State<S::Handle>, tag: Tag) -> Turn
    requires sound { IsSound S.TreeSink sink.old state.old }
    requires ready { HasHtmlRoot (world_of S.TreeSink sink.old state.old) }
    ensures { TakesTag S.TreeSink (by_known in_row_start (of_tag in_table)) tag sink.old state.old sink.new state.new result }
{
    match tag.name.known() {
        KnownName::Td | KnownName::Th => in_row_start_cell(sink, state, tag),
        KnownName::Caption
        | KnownName::Col
        | KnownName::Colgroup
        | KnownName::Tbody
        | KnownName::Tfoot
        | KnownName::Thead
        | KnownName::Tr => in_row_close(sink, state, tag),
        _ => in_table_tag(sink, state, tag),
    }
}

// End tags, by their names.
#[tactic(auto, unfolding(h5_builder_spec::specs::modes::InRow::in_row_end, h5_builder_spec::specs::modes::Tables::table_section_names, h5_builder_spec::specs::modes::InRow::in_row_ignored_ends, h5_names::specs::KnownNames::name_text))]
fn in_row_end_tag<S: TreeSink>(sink: &mut S, state: &mut State<S::Handle>, tag: Tag) -> Turn
    requires sound { IsSound S.TreeSink sink.old state.old }
    requires ready { HasHtmlRoot (world_of S.TreeSink sink.old state.old) }
    ensures { TakesTag S.TreeSink (by_known in_row_end (of_tag in_table)) tag sink.old state.old sink.new state.new result }
{
    match tag.name.known() {
        KnownName::Tr => in_row_end_row(sink, state, tag),
        KnownName::Table => in_row_close(sink, state, tag),
        KnownName::Tbody | KnownName::Tfoot | KnownName::Thead => in_row_end_section(
            sink, state, tag,
        ),
        KnownName::Body
        | KnownName::Caption
        | KnownName::Col
        | KnownName::Colgroup
        | KnownName::Html
        | KnownName::Td
        | KnownName::Th => ignored_tag(sink, state, tag),
        _ => in_table_tag(sink, state, tag),
    }
}

/// A turn of a tag in "in row".
#[tactic(auto, using(h5_builder_spec::proofs::rows::KnownRuleLaws::in_row_start_known, h5_builder_spec::proofs::rows::KnownRuleLaws::in_row_end_known), unfolding(h5_builder_spec::specs::modes::InRow::in_row_tag))]
pub fn in_row_tag<S: TreeSink>(sink: &mut S, state: &mut State<S::Handle>, tag: Tag) -> Turn
    requires sound { IsSound S.TreeSink sink.old state.old }
    requires ready { HasHtmlRoot (world_of S.TreeSink sink.old state.old) }
    ensures { TakesTag S.TreeSink in_row_tag tag sink.old state.old sink.new state.new result }
{
    match tag.kind {
        TagKind::StartTag => in_row_start_tag(sink, state, tag),
        TagKind::EndTag => in_row_end_tag(sink, state, tag),
    }
}

/// A turn in "in row".
pub fn step_in_row<S: TreeSink>(sink: &mut S, state: &mut State<S::Handle>, token: Token) -> Turn
    requires sound { IsSound S.TreeSink sink.old state.old }
    requires ready { HasHtmlRoot (world_of S.TreeSink sink.old state.old) }
    requires text { HasText (turn_text token) }
    ensures { TakesToken S.TreeSink in_row token sink.old state.old sink.new state.new result }
{
    match token {
        Token::Tag(tag) => in_row_tag(sink, state, tag),
        token => step_in_table(sink, state, token),
    }
}
