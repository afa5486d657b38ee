//! The mode "in column group" (HTML standard, section 13.2.6.4.12).
ghost use Rattle.h5_tables.specs.TurnText.{HasText, turn_text};
ghost use Rattle.h5_builder_spec.specs.ByName.{by_known, of_tag};
ghost use Rattle.h5_builder_spec.specs.modes.InColumnGroup.{in_column_group, in_column_group_else, in_column_group_end, in_column_group_end_colgroup, in_column_group_start, in_column_group_start_col, in_column_group_tag};
ghost use Rattle.h5_builder_spec.specs.inner.Kept.{HasHtmlRoot};
ghost use Rattle.h5_builder_state.specs.Steps.{IsSound, world_of};
ghost use Rattle.h5_builder_state.specs.Turn.{TakesTag, TakesToken};

use h5_builder_actions::{append_comment, append_text, insert_and_pop_tag};
use h5_builder_state::{
    State, Turn, is_current_html, pop, set_again, set_mode, unexpected, unexpected_tag,
};
use h5_interface::TreeSink;
use h5_modes_body::step_in_body;
use h5_modes_head::{ignored_tag, in_body_start_html, in_head_end_template, in_head_start_tag};
use h5_names::{KnownName, LocalName};
use h5_tables::{InsertionMode, ProcessResult, SplitStatus, Token};
use h5_token::{Tag, TagKind};

// A start tag `col`.
fn in_column_group_start_col<S: TreeSink>(
    sink: &mut S,
    state: &mut State<S::Handle>,
    tag: Tag,
) -> Turn
    requires { IsSound S.TreeSink sink.old state.old }
    ensures { TakesTag S.TreeSink in_column_group_start_col tag sink.old state.old sink.new state.new result }
{
    insert_and_pop_tag(sink, state, tag)?;
    Ok(ProcessResult::DoneAckSelfClosing)
}

// An end tag `colgroup`.
#[tactic(auto, unfolding(h5_builder_spec::specs::modes::InColumnGroup::close_the_column_group))]
fn in_column_group_end_colgroup<S: TreeSink>(
    sink: &mut S,
    state: &mut State<S::Handle>,
    tag: Tag,
) -> Turn
    requires { IsSound S.TreeSink sink.old state.old }
    ensures { TakesTag S.TreeSink in_column_group_end_colgroup tag sink.old state.old sink.new state.new result }
{
    if is_current_html(sink, state, &LocalName::from_known(KnownName::Colgroup)) {
        pop(sink, state);
        set_mode(sink, state, InsertionMode::InTable);
        Ok(ProcessResult::Done)
    } else {
        unexpected_tag(sink, state, &tag);
        Ok(ProcessResult::Done)
    }
}

// Anything else: the column group is closed, and the token is reprocessed in "in table".
#[tactic(auto, unfolding(h5_builder_spec::specs::modes::InColumnGroup::close_the_column_group))]
fn in_column_group_else<S: TreeSink>(
    sink: &mut S,
    state: &mut State<S::Handle>,
    token: Token,
) -> Turn
    requires { IsSound S.TreeSink sink.old state.old }
    ensures { TakesToken S.TreeSink in_column_group_else token sink.old state.old sink.new state.new result }
{
    if is_current_html(sink, state, &LocalName::from_known(KnownName::Colgroup)) {
        pop(sink, state);
        set_again(sink, state, token);
        Ok(ProcessResult::Reprocess(InsertionMode::InTable))
    } else {
        unexpected(sink, state, &token);
        Ok(ProcessResult::Done)
    }
}

// Start tags, by their names.
#[tactic(auto, unfolding(h5_builder_spec::specs::modes::InColumnGroup::in_column_group_start, h5_names::specs::KnownNames::name_text))]
fn in_column_group_start_tag<S: TreeSink>(
    sink: &mut S,
    state: &mut State<S::Handle>,
    tag: Tag,
) -> Turn
    requires sound { IsSound S.TreeSink sink.old state.old }
    requires ready { HasHtmlRoot (world_of S.TreeSink sink.old state.old) }
    ensures { TakesTag S.TreeSink (by_known in_column_group_start (of_tag in_column_group_else)) tag sink.old state.old sink.new state.new result }
{
    match tag.name.known() {
        KnownName::Html => in_body_start_html(sink, state, tag),
        KnownName::Col => in_column_group_start_col(sink, state, tag),
        KnownName::Template => in_head_start_tag(sink, state, tag),
        _ => in_column_group_else(sink, state, Token::Tag(tag)),
    }
}

// End tags, by their names.
#[tactic(auto, unfolding(h5_builder_spec::specs::modes::InColumnGroup::in_column_group_end, h5_names::specs::KnownNames::name_text))]
fn in_column_group_end_tag<S: TreeSink>(
    sink: &mut S,
    state: &mut State<S::Handle>,
    tag: Tag,
) -> Turn
    requires { IsSound S.TreeSink sink.old state.old }
    ensures { TakesTag S.TreeSink (by_known in_column_group_end (of_tag in_column_group_else)) tag sink.old state.old sink.new state.new result }
{
    match tag.name.known() {
        KnownName::Colgroup => in_column_group_end_colgroup(sink, state, tag),
        KnownName::Col => ignored_tag(sink, state, tag),
        KnownName::Template => in_head_end_template(sink, state, tag),
        _ => in_column_group_else(sink, state, Token::Tag(tag)),
    }
}

#[tactic(auto, using(h5_builder_spec::proofs::rows::KnownRuleLaws::in_column_group_start_known, h5_builder_spec::proofs::rows::KnownRuleLaws::in_column_group_end_known), unfolding(h5_builder_spec::specs::modes::InColumnGroup::in_column_group_tag))]
fn in_column_group_tag<S: TreeSink>(sink: &mut S, state: &mut State<S::Handle>, tag: Tag) -> Turn
    requires sound { IsSound S.TreeSink sink.old state.old }
    requires ready { HasHtmlRoot (world_of S.TreeSink sink.old state.old) }
    ensures { TakesTag S.TreeSink in_column_group_tag tag sink.old state.old sink.new state.new result }
{
    match tag.kind {
        TagKind::StartTag => in_column_group_start_tag(sink, state, tag),
        TagKind::EndTag => in_column_group_end_tag(sink, state, tag),
    }
}

/// A turn in "in column group".
pub fn step_in_column_group<S: TreeSink>(
    sink: &mut S,
    state: &mut State<S::Handle>,
    token: Token,
) -> Turn
    requires sound { IsSound S.TreeSink sink.old state.old }
    requires ready { HasHtmlRoot (world_of S.TreeSink sink.old state.old) }
    requires text { HasText (turn_text token) }
    ensures { TakesToken S.TreeSink in_column_group token sink.old state.old sink.new state.new result }
{
    match token {
        Token::Tag(tag) => in_column_group_tag(sink, state, tag),
        Token::Comment(text) => {
            append_comment(sink, state, text)?;
            Ok(ProcessResult::Done)
        }
        Token::Characters(SplitStatus::Whitespace, text) => {
            append_text(sink, state, text)?;
            Ok(ProcessResult::Done)
        }
        Token::Eof => step_in_body(sink, state, Token::Eof),
        token => in_column_group_else(sink, state, token),
    }
}
