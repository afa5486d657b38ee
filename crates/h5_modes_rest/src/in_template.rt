//! The mode "in template" (HTML standard, section 13.2.6.4.16).
ghost use Rattle.h5_builder_spec.specs.ByName.{by_known, ignored_tag};
ghost use Rattle.h5_tables.specs.TurnText.{HasText, turn_text};
ghost use Rattle.h5_builder_spec.specs.modes.InTemplate.{in_template, in_template_as, in_template_end, in_template_start, in_template_tag};
ghost use Rattle.h5_builder_spec.specs.inner.Kept.{HasHtmlRoot};
ghost use Rattle.h5_builder_state.specs.Steps.{IsSound, world_of};
ghost use Rattle.h5_builder_state.specs.Turn.{TakesTag, TakesToken};

use h5_builder_actions::switch_template_mode;
use h5_builder_state::{State, Turn, set_again, unexpected};
use h5_interface::TreeSink;
use h5_modes_body::step_in_body;
use h5_modes_head::{ignored_tag, in_head_end_template, in_head_start_tag, template_eof};
use h5_names::KnownName;
use h5_tables::{InsertionMode, ProcessResult, Token};
use h5_token::{Tag, TagKind};

// Replaces the template insertion mode by another, in which the token is reprocessed.
fn in_template_as<S: TreeSink>(
    sink: &mut S,
    state: &mut State<S::Handle>,
    mode: InsertionMode,
    tag: Tag,
) -> Turn
    requires { IsSound S.TreeSink sink.old state.old }
    ensures { TakesTag S.TreeSink (in_template_as mode) tag sink.old state.old sink.new state.new result }
{
    switch_template_mode(sink, state, mode)?;
    set_again(sink, state, Token::Tag(tag));
    Ok(ProcessResult::Reprocess(mode))
}

// Start tags, by their names.
#[tactic(auto, unfolding(h5_builder_spec::specs::modes::InTemplate::in_template_start, h5_builder_spec::specs::modes::Shared::head_start_names, h5_builder_spec::specs::modes::InTemplate::in_template_part_names, h5_tables::specs::TagSets::cell_names, h5_names::specs::KnownNames::name_text))]
fn in_template_start_tag<S: TreeSink>(sink: &mut S, state: &mut State<S::Handle>, tag: Tag) -> Turn
    requires sound { IsSound S.TreeSink sink.old state.old }
    requires ready { HasHtmlRoot (world_of S.TreeSink sink.old state.old) }
    ensures { TakesTag S.TreeSink (by_known in_template_start (in_template_as InsertionMode.InBody)) tag sink.old state.old sink.new state.new result }
{
    match tag.name.known() {
        KnownName::Base
        | KnownName::Basefont
        | KnownName::Bgsound
        | KnownName::Link
        | KnownName::Meta
        | KnownName::Noframes
        | KnownName::Script
        | KnownName::Style
        | KnownName::Template
        | KnownName::Title => in_head_start_tag(sink, state, tag),
        KnownName::Caption
        | KnownName::Colgroup
        | KnownName::Tbody
        | KnownName::Tfoot
        | KnownName::Thead => in_template_as(sink, state, InsertionMode::InTable, tag),
        KnownName::Col => in_template_as(sink, state, InsertionMode::InColumnGroup, tag),
        KnownName::Tr => in_template_as(sink, state, InsertionMode::InTableBody, tag),
        KnownName::Td | KnownName::Th => in_template_as(sink, state, InsertionMode::InRow, tag),
        _ => in_template_as(sink, state, InsertionMode::InBody, tag),
    }
}

// End tags, by their names.
#[tactic(auto, unfolding(h5_builder_spec::specs::modes::InTemplate::in_template_end, h5_names::specs::KnownNames::name_text))]
fn in_template_end_tag<S: TreeSink>(sink: &mut S, state: &mut State<S::Handle>, tag: Tag) -> Turn
    requires { IsSound S.TreeSink sink.old state.old }
    ensures { TakesTag S.TreeSink (by_known in_template_end ignored_tag) tag sink.old state.old sink.new state.new result }
{
    match tag.name.known() {
        KnownName::Template => in_head_end_template(sink, state, tag),
        _ => ignored_tag(sink, state, tag),
    }
}

#[tactic(auto, using(h5_builder_spec::proofs::rows::KnownRuleLaws::in_template_start_known, h5_builder_spec::proofs::rows::KnownRuleLaws::in_template_end_known), unfolding(h5_builder_spec::specs::modes::InTemplate::in_template_tag))]
fn in_template_tag<S: TreeSink>(sink: &mut S, state: &mut State<S::Handle>, tag: Tag) -> Turn
    requires sound { IsSound S.TreeSink sink.old state.old }
    requires ready { HasHtmlRoot (world_of S.TreeSink sink.old state.old) }
    ensures { TakesTag S.TreeSink in_template_tag tag sink.old state.old sink.new state.new result }
{
    match tag.kind {
        TagKind::StartTag => in_template_start_tag(sink, state, tag),
        TagKind::EndTag => in_template_end_tag(sink, state, tag),
    }
}

/// A turn in "in template".
pub fn step_in_template<S: TreeSink>(
    sink: &mut S,
    state: &mut State<S::Handle>,
    token: Token,
) -> Turn
    requires sound { IsSound S.TreeSink sink.old state.old }
    requires ready { HasHtmlRoot (world_of S.TreeSink sink.old state.old) }
    requires text { HasText (turn_text token) }
    ensures { TakesToken S.TreeSink in_template token sink.old state.old sink.new state.new result }
{
    match token {
        Token::Tag(tag) => in_template_tag(sink, state, tag),
        Token::NullCharacter => {
            unexpected(sink, state, &Token::NullCharacter);
            Ok(ProcessResult::Done)
        }
        Token::Eof => template_eof(sink, state, Token::Eof),
        other => step_in_body(sink, state, other),
    }
}
