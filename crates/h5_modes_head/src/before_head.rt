//! The mode "before head" (HTML standard, section 13.2.6.4.3).
ghost use Rattle.h5_builder_spec.specs.ByName.{by_known, ignored_tag, of_tag};
ghost use Rattle.h5_tables.specs.TurnText.{HasText, turn_text};
ghost use Rattle.h5_builder_spec.specs.modes.BeforeHead.{before_head, before_head_else, before_head_end, before_head_start, before_head_start_head, before_head_tag};
ghost use Rattle.h5_builder_state.specs.Steps.{IsOpen, IsSound};
ghost use Rattle.h5_builder_state.specs.Turn.{TakesTag, TakesToken};

use super::html_start_tag::in_body_start_html;
use super::ignored::ignored_tag;
use h5_builder_actions::{append_comment, insert_head};
use h5_builder_state::{State, Turn, set_again, set_mode};
use h5_interface::TreeSink;
use h5_names::KnownName;
use h5_tables::{InsertionMode, ProcessResult, SplitStatus, Token};
use h5_token::{Tag, TagKind};

// A start tag `head`.
fn before_head_start_head<S: TreeSink>(sink: &mut S, state: &mut State<S::Handle>, tag: Tag) -> Turn
    requires { IsSound S.TreeSink sink.old state.old }
    ensures { TakesTag S.TreeSink before_head_start_head tag sink.old state.old sink.new state.new result }
{
    insert_head(sink, state, tag.attrs, tag.had_duplicate_attributes)?;
    set_mode(sink, state, InsertionMode::InHead);
    Ok(ProcessResult::Done)
}

// Anything else: a head without attributes is inserted.
fn before_head_else<S: TreeSink>(sink: &mut S, state: &mut State<S::Handle>, token: Token) -> Turn
    requires { IsSound S.TreeSink sink.old state.old }
    ensures { TakesToken S.TreeSink before_head_else token sink.old state.old sink.new state.new result }
{
    let attrs = Vec::new(state.alloc);
    insert_head(sink, state, attrs, false)?;
    set_again(sink, state, token);
    Ok(ProcessResult::Reprocess(InsertionMode::InHead))
}

// Start tags, by their names.
#[tactic(auto, unfolding(h5_builder_spec::specs::modes::BeforeHead::before_head_start, h5_names::specs::KnownNames::name_text))]
fn before_head_start_tag<S: TreeSink>(sink: &mut S, state: &mut State<S::Handle>, tag: Tag) -> Turn
    requires { IsOpen S.TreeSink sink.old state.old }
    ensures { TakesTag S.TreeSink (by_known before_head_start (of_tag before_head_else)) tag sink.old state.old sink.new state.new result }
{
    match tag.name.known() {
        KnownName::Html => in_body_start_html(sink, state, tag),
        KnownName::Head => before_head_start_head(sink, state, tag),
        _ => before_head_else(sink, state, Token::Tag(tag)),
    }
}

// End tags, by their names.
#[tactic(auto, unfolding(h5_builder_spec::specs::modes::BeforeHead::before_head_end, h5_builder_spec::specs::ByName::outer_names, h5_names::specs::KnownNames::name_text))]
fn before_head_end_tag<S: TreeSink>(sink: &mut S, state: &mut State<S::Handle>, tag: Tag) -> Turn
    requires { IsOpen S.TreeSink sink.old state.old }
    ensures { TakesTag S.TreeSink (by_known before_head_end ignored_tag) tag sink.old state.old sink.new state.new result }
{
    match tag.name.known() {
        KnownName::Head | KnownName::Body | KnownName::Html | KnownName::Br => before_head_else(
            sink,
            state,
            Token::Tag(tag),
        ),
        _ => ignored_tag(sink, state, tag),
    }
}

#[tactic(auto, using(h5_builder_spec::proofs::rows::KnownRuleLaws::before_head_start_known, h5_builder_spec::proofs::rows::KnownRuleLaws::before_head_end_known), unfolding(h5_builder_spec::specs::modes::BeforeHead::before_head_tag))]
fn before_head_tag<S: TreeSink>(sink: &mut S, state: &mut State<S::Handle>, tag: Tag) -> Turn
    requires { IsOpen S.TreeSink sink.old state.old }
    ensures { TakesTag S.TreeSink before_head_tag tag sink.old state.old sink.new state.new result }
{
    match tag.kind {
        TagKind::StartTag => before_head_start_tag(sink, state, tag),
        TagKind::EndTag => before_head_end_tag(sink, state, tag),
    }
}

/// A turn in "before head".
pub fn step_before_head<S: TreeSink>(
    sink: &mut S,
    state: &mut State<S::Handle>,
    token: Token,
) -> Turn
    requires open { IsOpen S.TreeSink sink.old state.old }
    requires text { HasText (turn_text token) }
    ensures { TakesToken S.TreeSink before_head token sink.old state.old sink.new state.new result }
{
    match token {
        Token::Tag(tag) => before_head_tag(sink, state, tag),
        Token::Comment(text) => {
            append_comment(sink, state, text)?;
            Ok(ProcessResult::Done)
        }
        Token::Characters(SplitStatus::Whitespace, _) => Ok(ProcessResult::Done),
        other => before_head_else(sink, state, other),
    }
}
