//! The mode "in table body" (HTML standard, section 13.2.6.4.13).
ghost use Rattle.h5_tables.specs.TurnText.{HasText, turn_text};
ghost use Rattle.h5_builder_spec.specs.ByName.{by_known, of_tag};
ghost use Rattle.h5_builder_spec.specs.modes.InTable.{in_table};
ghost use Rattle.h5_builder_spec.specs.modes.InTableBody.{in_table_body, in_table_body_close, in_table_body_end, in_table_body_end_section, in_table_body_start, in_table_body_start_cell, in_table_body_start_row, in_table_body_tag};
ghost use Rattle.h5_builder_spec.specs.inner.Kept.{HasHtmlRoot};
ghost use Rattle.h5_builder_state.specs.Steps.{IsSound, world_of};
ghost use Rattle.h5_builder_state.specs.Turn.{TakesTag, TakesToken};

use super::in_table::{in_table_tag, step_in_table};
use super::parts::{clear_to_table_body_context, has_in_table_scope};
use h5_builder_actions::{insert_phantom, insert_tag};
use h5_builder_state::{
    Local, NameTest, NewestTest, State, Turn, newest_among, pop, report_tag, set_again, set_mode,
    unexpected_tag,
};
use h5_interface::TreeSink;
use h5_modes_head::ignored_tag;
use h5_names::{KnownName, QualName};
use h5_tables::{InsertionMode, ProcessResult, Token, TreeError, is_html_known};
use h5_token::{Tag, TagKind};

// A start tag `tr`.
fn in_table_body_start_row<S: TreeSink>(
    sink: &mut S,
    state: &mut State<S::Handle>,
    tag: Tag,
) -> Turn
    requires { IsSound S.TreeSink sink.old state.old }
    ensures { TakesTag S.TreeSink in_table_body_start_row tag sink.old state.old sink.new state.new result }
{
    clear_to_table_body_context(sink, state);
    insert_tag(sink, state, tag)?;
    set_mode(sink, state, InsertionMode::InRow);
    Ok(ProcessResult::Done)
}

// A start tag `td` or `th`: a row is inserted for it.
fn in_table_body_start_cell<S: TreeSink>(
    sink: &mut S,
    state: &mut State<S::Handle>,
    tag: Tag,
) -> Turn
    requires { IsSound S.TreeSink sink.old state.old }
    ensures { TakesTag S.TreeSink in_table_body_start_cell tag sink.old state.old sink.new state.new result }
{
    report_tag(sink, state, TreeError::CellInTableBody, &tag);
    clear_to_table_body_context(sink, state);
    insert_phantom(sink, state, KnownName::Tr)?;
    set_again(sink, state, Token::Tag(tag));
    Ok(ProcessResult::Reprocess(InsertionMode::InRow))
}

// An end tag `tbody`, `tfoot` or `thead`.
#[tactic(auto, unfolding(h5_builder_spec::specs::modes::InTableBody::in_table_body_end_section))]
fn in_table_body_end_section<S: TreeSink>(
    sink: &mut S,
    state: &mut State<S::Handle>,
    tag: Tag,
) -> Turn
    requires sound { IsSound S.TreeSink sink.old state.old }
    requires ready { HasHtmlRoot (world_of S.TreeSink sink.old state.old) }
    ensures { TakesTag S.TreeSink in_table_body_end_section tag sink.old state.old sink.new state.new result }
{
    if has_in_table_scope(sink, state, &Local(&tag.name)) {
        clear_to_table_body_context(sink, state);
        pop(sink, state);
        set_mode(sink, state, InsertionMode::InTable);
        Ok(ProcessResult::Done)
    } else {
        unexpected_tag(sink, state, &tag);
        Ok(ProcessResult::Done)
    }
}

/// A row group passes.
#[derive(Clone, Copy)]
struct TableSection;

impl NameTest for TableSection {
    ghost use Rattle.h5_builder_spec.specs.modes.InTableBody.{is_table_section};

    ghost holds = { λ t name. is_table_section name };

    fn test(&self, name: &QualName) -> bool {
        is_html_known(name, KnownName::Tbody)
            || is_html_known(name, KnownName::Tfoot)
            || is_html_known(name, KnownName::Thead)
    }
}

impl NewestTest for TableSection {
    fn newest<S: TreeSink>(&self, sink: &S, state: &State<S::Handle>) -> usize {
        newest_among(
            sink,
            state,
            &[KnownName::Tbody, KnownName::Tfoot, KnownName::Thead],
        )
    }
}

// A tag that closes the row group, and is reprocessed in "in table".
#[tactic(auto, unfolding(h5_builder_spec::specs::modes::InTableBody::in_table_body_close))]
fn in_table_body_close<S: TreeSink>(sink: &mut S, state: &mut State<S::Handle>, tag: Tag) -> Turn
    requires sound { IsSound S.TreeSink sink.old state.old }
    requires ready { HasHtmlRoot (world_of S.TreeSink sink.old state.old) }
    ensures { TakesTag S.TreeSink in_table_body_close tag sink.old state.old sink.new state.new result }
{
    if has_in_table_scope(sink, state, &TableSection) {
        clear_to_table_body_context(sink, state);
        pop(sink, state);
        set_again(sink, state, Token::Tag(tag));
        Ok(ProcessResult::Reprocess(InsertionMode::InTable))
    } else {
        unexpected_tag(sink, state, &tag);
        Ok(ProcessResult::Done)
    }
}

// Start tags, by their names.
#[tactic(auto, unfolding(h5_builder_spec::specs::modes::InTableBody::in_table_body_start, h5_tables::specs::TagSets::cell_names, h5_builder_spec::specs::modes::InTableBody::section_closing_names, h5_names::specs::KnownNames::name_text))]
fn in_table_body_start_tag<S: TreeSink>(
    sink: &mut S,
    state: &mut State<S::Handle>,
    tag: Tag,
) -> Turn
    requires sound { IsSound S.TreeSink sink.old state.old }
    requires ready { HasHtmlRoot (world_of S.TreeSink sink.old state.old) }
    ensures { TakesTag S.TreeSink (by_known in_table_body_start (of_tag in_table)) tag sink.old state.old sink.new state.new result }
{
    match tag.name.known() {
        KnownName::Tr => in_table_body_start_row(sink, state, tag),
        KnownName::Td | KnownName::Th => in_table_body_start_cell(sink, state, tag),
        KnownName::Caption
        | KnownName::Col
        | KnownName::Colgroup
        | KnownName::Tbody
        | KnownName::Tfoot
        | KnownName::Thead => in_table_body_close(sink, state, tag),
        _ => in_table_tag(sink, state, tag),
    }
}

// End tags, by their names.
#[tactic(auto, unfolding(h5_builder_spec::specs::modes::InTableBody::in_table_body_end, h5_builder_spec::specs::modes::Tables::table_section_names, h5_builder_spec::specs::modes::InTableBody::in_table_body_ignored_ends, h5_names::specs::KnownNames::name_text))]
fn in_table_body_end_tag<S: TreeSink>(sink: &mut S, state: &mut State<S::Handle>, tag: Tag) -> Turn
    requires sound { IsSound S.TreeSink sink.old state.old }
    requires ready { HasHtmlRoot (world_of S.TreeSink sink.old state.old) }
    ensures { TakesTag S.TreeSink (by_known in_table_body_end (of_tag in_table)) tag sink.old state.old sink.new state.new result }
{
    match tag.name.known() {
        KnownName::Tbody | KnownName::Tfoot | KnownName::Thead => in_table_body_end_section(
            sink, state, tag,
        ),
        KnownName::Table => in_table_body_close(sink, state, tag),
        KnownName::Body
        | KnownName::Caption
        | KnownName::Col
        | KnownName::Colgroup
        | KnownName::Html
        | KnownName::Td
        | KnownName::Th
        | KnownName::Tr => ignored_tag(sink, state, tag),
        _ => in_table_tag(sink, state, tag),
    }
}

/// A turn of a tag in "in table body".
#[tactic(auto, using(h5_builder_spec::proofs::rows::KnownRuleLaws::in_table_body_start_known, h5_builder_spec::proofs::rows::KnownRuleLaws::in_table_body_end_known), unfolding(h5_builder_spec::specs::modes::InTableBody::in_table_body_tag))]
pub fn in_table_body_tag<S: TreeSink>(sink: &mut S, state: &mut State<S::Handle>, tag: Tag) -> Turn
    requires sound { IsSound S.TreeSink sink.old state.old }
    requires ready { HasHtmlRoot (world_of S.TreeSink sink.old state.old) }
    ensures { TakesTag S.TreeSink in_table_body_tag tag sink.old state.old sink.new state.new result }
{
    match tag.kind {
        TagKind::StartTag => in_table_body_start_tag(sink, state, tag),
        TagKind::EndTag => in_table_body_end_tag(sink, state, tag),
    }
}

/// A turn in "in table body".
pub fn step_in_table_body<S: TreeSink>(
    sink: &mut S,
    state: &mut State<S::Handle>,
    token: Token,
) -> Turn
    requires sound { IsSound S.TreeSink sink.old state.old }
    requires ready { HasHtmlRoot (world_of S.TreeSink sink.old state.old) }
    requires text { HasText (turn_text token) }
    ensures { TakesToken S.TreeSink in_table_body token sink.old state.old sink.new state.new result }
{
    match token {
        Token::Tag(tag) => in_table_body_tag(sink, state, tag),
        token => step_in_table(sink, state, token),
    }
}
