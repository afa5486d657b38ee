//! The mode "in table" (HTML standard, section 13.2.6.4.9).
ghost use Rattle.h5_tables.specs.TurnText.{HasText, turn_text};
ghost use Rattle.h5_builder_spec.specs.ByName.{by_known, of_tag};
ghost use Rattle.h5_builder_spec.specs.modes.InTable.{in_table, in_table_else, in_table_end, in_table_end_table, in_table_start, in_table_start_caption, in_table_start_col, in_table_start_colgroup, in_table_start_form, in_table_start_input, in_table_start_row_part, in_table_start_section, in_table_start_table, in_table_tag, in_table_text_or_null};
ghost use Rattle.std.specs.Prelude.{◌≡◌, [], codes, false};
ghost use Rattle.h5_tables.specs.declared.modes.InsertionMode.TheVariants.{InTableText};
ghost use Rattle.h5_builder_spec.specs.Rows.{InsertElement, SaveMode};
ghost use Rattle.h5_builder_spec.specs.inner.Kept.{HasHtmlRoot};
ghost use Rattle.h5_builder_state.specs.Steps.{IsSound, Makes, MakesIfOk, world_of};
ghost use Rattle.h5_builder_state.specs.Turn.{TakesTag, TakesToken};

use super::foster::foster_parent_in_body;
use super::parts::clear_to_table_context;
use h5_builder_actions::{
    append_comment, find_in_table_scope, insert_and_pop_form, insert_and_pop_tag, insert_marker,
    insert_phantom, insert_tag, is_current_table_outer, reset_insertion_mode,
};
use h5_builder_state::{
    Local, State, Turn, has_form, has_open_template, pop_until_named, report_tag, save_mode,
    set_again, set_mode, unexpected_tag,
};
use h5_interface::TreeSink;
use h5_modes_body::{is_type_hidden, step_in_body};
use h5_modes_head::{ignored_tag, in_head_end_template, in_head_start_tag};
use h5_names::{KnownName, LocalName};
use h5_tables::{InsertionMode, ProcessResult, Token, TreeError};
use h5_token::{Tag, TagKind};
use std::alloc::AllocError;

/// Begins a text of the table: saves the mode, and returns the one in which the text is handled.
pub fn begin_table_text<S: TreeSink>(sink: &S, state: &mut State<S::Handle>) -> InsertionMode
    requires { IsSound S.TreeSink sink.now state.old }
    ensures mode { result ≡ InTableText }
    ensures kept { Makes S.TreeSink SaveMode sink.now state.old sink.now state.new }
{
    save_mode(sink, state);
    InsertionMode::InTableText
}

// A text, or a null: if the current node is a part of the table, it is buffered until the next token.
#[tactic(auto, unfolding(h5_builder_spec::specs::modes::InTable::in_table_text_or_null))]
fn process_chars_in_table<S: TreeSink>(
    sink: &mut S,
    state: &mut State<S::Handle>,
    token: Token,
) -> Turn
    requires sound { IsSound S.TreeSink sink.old state.old }
    requires ready { HasHtmlRoot (world_of S.TreeSink sink.old state.old) }
    requires text { HasText (turn_text token) }
    ensures { TakesToken S.TreeSink in_table_text_or_null token sink.old state.old sink.new state.new result }
{
    if is_current_table_outer(sink, state) {
        let text_mode = begin_table_text(sink, state);
        set_again(sink, state, token);
        Ok(ProcessResult::Reprocess(text_mode))
    } else {
        foster_parent_in_body(sink, state, token)
    }
}

// A start tag `caption`.
fn in_table_start_caption<S: TreeSink>(sink: &mut S, state: &mut State<S::Handle>, tag: Tag) -> Turn
    requires { IsSound S.TreeSink sink.old state.old }
    ensures { TakesTag S.TreeSink in_table_start_caption tag sink.old state.old sink.new state.new result }
{
    clear_to_table_context(sink, state);
    insert_marker(sink, state)?;
    insert_tag(sink, state, tag)?;
    set_mode(sink, state, InsertionMode::InCaption);
    Ok(ProcessResult::Done)
}

// A start tag `colgroup`.
fn in_table_start_colgroup<S: TreeSink>(
    sink: &mut S,
    state: &mut State<S::Handle>,
    tag: Tag,
) -> Turn
    requires { IsSound S.TreeSink sink.old state.old }
    ensures { TakesTag S.TreeSink in_table_start_colgroup tag sink.old state.old sink.new state.new result }
{
    clear_to_table_context(sink, state);
    insert_tag(sink, state, tag)?;
    set_mode(sink, state, InsertionMode::InColumnGroup);
    Ok(ProcessResult::Done)
}

// Inserts a column group that has no tag.
fn insert_column_group<S: TreeSink>(
    sink: &mut S,
    state: &mut State<S::Handle>,
) -> Result<(), AllocError>
    requires { IsSound S.TreeSink sink.old state.old }
    ensures { MakesIfOk S.TreeSink (InsertElement (codes "colgroup") [] false) sink.old state.old sink.new state.new result }
{
    insert_phantom(sink, state, KnownName::Colgroup)
}

// A start tag `col`: a column group is inserted for it.
fn in_table_start_col<S: TreeSink>(sink: &mut S, state: &mut State<S::Handle>, tag: Tag) -> Turn
    requires { IsSound S.TreeSink sink.old state.old }
    ensures { TakesTag S.TreeSink in_table_start_col tag sink.old state.old sink.new state.new result }
{
    clear_to_table_context(sink, state);
    insert_column_group(sink, state)?;
    set_again(sink, state, Token::Tag(tag));
    Ok(ProcessResult::Reprocess(InsertionMode::InColumnGroup))
}

// A start tag `tbody`, `tfoot` or `thead`.
fn in_table_start_section<S: TreeSink>(sink: &mut S, state: &mut State<S::Handle>, tag: Tag) -> Turn
    requires { IsSound S.TreeSink sink.old state.old }
    ensures { TakesTag S.TreeSink in_table_start_section tag sink.old state.old sink.new state.new result }
{
    clear_to_table_context(sink, state);
    insert_tag(sink, state, tag)?;
    set_mode(sink, state, InsertionMode::InTableBody);
    Ok(ProcessResult::Done)
}

// A start tag `td`, `th` or `tr`: a row group is inserted for it.
fn in_table_start_row_part<S: TreeSink>(
    sink: &mut S,
    state: &mut State<S::Handle>,
    tag: Tag,
) -> Turn
    requires { IsSound S.TreeSink sink.old state.old }
    ensures { TakesTag S.TreeSink in_table_start_row_part tag sink.old state.old sink.new state.new result }
{
    clear_to_table_context(sink, state);
    insert_phantom(sink, state, KnownName::Tbody)?;
    set_again(sink, state, Token::Tag(tag));
    Ok(ProcessResult::Reprocess(InsertionMode::InTableBody))
}

// A start tag `table`: the table is closed, and the mode is reset.
#[tactic(auto, unfolding(h5_builder_spec::specs::modes::InTable::in_table_start_table))]
fn in_table_start_table<S: TreeSink>(sink: &mut S, state: &mut State<S::Handle>, tag: Tag) -> Turn
    requires { IsSound S.TreeSink sink.old state.old }
    ensures { TakesTag S.TreeSink in_table_start_table tag sink.old state.old sink.new state.new result }
{
    report_tag(sink, state, TreeError::TableInTable, &tag);
    let table = LocalName::from_known(KnownName::Table);
    match find_in_table_scope(sink, state, &Local(&table)) {
        Some(place) => {
            pop_until_named(sink, state, &table, place);
            let mode = reset_insertion_mode(sink, state);
            set_again(sink, state, Token::Tag(tag));
            Ok(ProcessResult::Reprocess(mode))
        }
        None => Ok(ProcessResult::Done),
    }
}

// A start tag `input`: a hidden one stays in the table.
#[tactic(auto, unfolding(h5_builder_spec::specs::modes::InTable::in_table_start_input))]
fn in_table_start_input<S: TreeSink>(sink: &mut S, state: &mut State<S::Handle>, tag: Tag) -> Turn
    requires sound { IsSound S.TreeSink sink.old state.old }
    requires ready { HasHtmlRoot (world_of S.TreeSink sink.old state.old) }
    ensures { TakesTag S.TreeSink in_table_start_input tag sink.old state.old sink.new state.new result }
{
    if is_type_hidden(tag.attrs.as_slice()) {
        report_tag(sink, state, TreeError::HiddenInputInTable, &tag);
        insert_and_pop_tag(sink, state, tag)?;
        Ok(ProcessResult::DoneAckSelfClosing)
    } else {
        foster_parent_in_body(sink, state, Token::Tag(tag))
    }
}

// A start tag `form`: the form element, which isn't pushed.
#[tactic(auto, unfolding(h5_builder_spec::specs::modes::InTable::in_table_start_form))]
fn in_table_start_form<S: TreeSink>(sink: &mut S, state: &mut State<S::Handle>, tag: Tag) -> Turn
    requires { IsSound S.TreeSink sink.old state.old }
    ensures { TakesTag S.TreeSink in_table_start_form tag sink.old state.old sink.new state.new result }
{
    report_tag(sink, state, TreeError::FormInTable, &tag);
    if has_open_template(sink, state) || has_form(sink, state) {
        Ok(ProcessResult::Done)
    } else {
        insert_and_pop_form(sink, state, tag.attrs, tag.had_duplicate_attributes)?;
        Ok(ProcessResult::Done)
    }
}

// An end tag `table`.
#[tactic(auto, unfolding(h5_builder_spec::specs::modes::InTable::in_table_end_table))]
fn in_table_end_table<S: TreeSink>(sink: &mut S, state: &mut State<S::Handle>, tag: Tag) -> Turn
    requires { IsSound S.TreeSink sink.old state.old }
    ensures { TakesTag S.TreeSink in_table_end_table tag sink.old state.old sink.new state.new result }
{
    let table = LocalName::from_known(KnownName::Table);
    match find_in_table_scope(sink, state, &Local(&table)) {
        Some(place) => {
            pop_until_named(sink, state, &table, place);
            let mode = reset_insertion_mode(sink, state);
            set_mode(sink, state, mode);
            Ok(ProcessResult::Done)
        }
        None => {
            unexpected_tag(sink, state, &tag);
            Ok(ProcessResult::Done)
        }
    }
}

// Start tags, by their names.
#[tactic(auto, unfolding(h5_builder_spec::specs::modes::InTable::in_table_start, h5_builder_spec::specs::modes::Tables::table_section_names, h5_builder_spec::specs::modes::InTable::row_part_names, h5_builder_spec::specs::modes::InTable::table_text_names, h5_names::specs::KnownNames::name_text))]
fn in_table_start_tag<S: TreeSink>(sink: &mut S, state: &mut State<S::Handle>, tag: Tag) -> Turn
    requires sound { IsSound S.TreeSink sink.old state.old }
    requires ready { HasHtmlRoot (world_of S.TreeSink sink.old state.old) }
    ensures { TakesTag S.TreeSink (by_known in_table_start (of_tag in_table_else)) tag sink.old state.old sink.new state.new result }
{
    match tag.name.known() {
        KnownName::Caption => in_table_start_caption(sink, state, tag),
        KnownName::Colgroup => in_table_start_colgroup(sink, state, tag),
        KnownName::Col => in_table_start_col(sink, state, tag),
        KnownName::Tbody | KnownName::Tfoot | KnownName::Thead => in_table_start_section(
            sink, state, tag,
        ),
        KnownName::Td | KnownName::Th | KnownName::Tr => in_table_start_row_part(sink, state, tag),
        KnownName::Table => in_table_start_table(sink, state, tag),
        KnownName::Style | KnownName::Script | KnownName::Template => in_head_start_tag(
            sink, state, tag,
        ),
        KnownName::Input => in_table_start_input(sink, state, tag),
        KnownName::Form => in_table_start_form(sink, state, tag),
        _ => foster_parent_in_body(sink, state, Token::Tag(tag)),
    }
}

// End tags, by their names.
#[tactic(auto, unfolding(h5_builder_spec::specs::modes::InTable::in_table_end, h5_builder_spec::specs::modes::InTable::in_table_ignored_ends, h5_names::specs::KnownNames::name_text))]
fn in_table_end_tag<S: TreeSink>(sink: &mut S, state: &mut State<S::Handle>, tag: Tag) -> Turn
    requires sound { IsSound S.TreeSink sink.old state.old }
    requires ready { HasHtmlRoot (world_of S.TreeSink sink.old state.old) }
    ensures { TakesTag S.TreeSink (by_known in_table_end (of_tag in_table_else)) tag sink.old state.old sink.new state.new result }
{
    match tag.name.known() {
        KnownName::Table => in_table_end_table(sink, state, tag),
        KnownName::Body
        | KnownName::Caption
        | KnownName::Col
        | KnownName::Colgroup
        | KnownName::Html
        | KnownName::Tbody
        | KnownName::Td
        | KnownName::Tfoot
        | KnownName::Th
        | KnownName::Thead
        | KnownName::Tr => ignored_tag(sink, state, tag),
        KnownName::Template => in_head_end_template(sink, state, tag),
        _ => foster_parent_in_body(sink, state, Token::Tag(tag)),
    }
}

/// A turn of a tag in "in table".
#[tactic(auto, using(h5_builder_spec::proofs::rows::KnownRuleLaws::in_table_start_known, h5_builder_spec::proofs::rows::KnownRuleLaws::in_table_end_known), unfolding(h5_builder_spec::specs::modes::InTable::in_table_tag))]
pub fn in_table_tag<S: TreeSink>(sink: &mut S, state: &mut State<S::Handle>, tag: Tag) -> Turn
    requires sound { IsSound S.TreeSink sink.old state.old }
    requires ready { HasHtmlRoot (world_of S.TreeSink sink.old state.old) }
    ensures { TakesTag S.TreeSink in_table_tag tag sink.old state.old sink.new state.new result }
{
    match tag.kind {
        TagKind::StartTag => in_table_start_tag(sink, state, tag),
        TagKind::EndTag => in_table_end_tag(sink, state, tag),
    }
}

/// A turn in "in table".
pub fn step_in_table<S: TreeSink>(sink: &mut S, state: &mut State<S::Handle>, token: Token) -> Turn
    requires sound { IsSound S.TreeSink sink.old state.old }
    requires ready { HasHtmlRoot (world_of S.TreeSink sink.old state.old) }
    requires text { HasText (turn_text token) }
    ensures { TakesToken S.TreeSink in_table token sink.old state.old sink.new state.new result }
{
    match token {
        Token::Tag(tag) => in_table_tag(sink, state, tag),
        Token::Comment(text) => {
            append_comment(sink, state, text)?;
            Ok(ProcessResult::Done)
        }
        Token::Characters(status, text) => {
            process_chars_in_table(sink, state, Token::Characters(status, text))
        }
        Token::NullCharacter => process_chars_in_table(sink, state, Token::NullCharacter),
        Token::Eof => step_in_body(sink, state, Token::Eof),
    }
}
