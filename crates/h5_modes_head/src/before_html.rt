//! The mode "before html" (HTML standard, section 13.2.6.4.2).
ghost use Rattle.h5_builder_spec.specs.ByName.{by_known, ignored_tag, of_tag};
ghost use Rattle.h5_tables.specs.TurnText.{HasText, turn_text};
ghost use Rattle.h5_builder_spec.specs.modes.BeforeHtml.{before_html, before_html_else, before_html_end, before_html_start, before_html_start_html, before_html_tag};
ghost use Rattle.h5_builder_state.specs.Steps.{IsSound};
ghost use Rattle.h5_builder_state.specs.Turn.{TakesTag, TakesToken};

use super::ignored::ignored_tag;
use h5_builder_actions::{append_comment_to_doc, create_root};
use h5_builder_state::{State, Turn, set_again, set_mode};
use h5_interface::TreeSink;
use h5_names::KnownName;
use h5_tables::{InsertionMode, ProcessResult, SplitStatus, Token};
use h5_token::{Tag, TagKind};

// Anything else: a root without attributes is created.
fn before_html_else<S: TreeSink>(sink: &mut S, state: &mut State<S::Handle>, token: Token) -> Turn
    requires { IsSound S.TreeSink sink.old state.old }
    ensures { TakesToken S.TreeSink before_html_else token sink.old state.old sink.new state.new result }
{
    let attrs = Vec::new(state.alloc);
    create_root(sink, state, attrs)?;
    set_again(sink, state, token);
    Ok(ProcessResult::Reprocess(InsertionMode::BeforeHead))
}

// A start tag `html`.
fn before_html_start_html<S: TreeSink>(sink: &mut S, state: &mut State<S::Handle>, tag: Tag) -> Turn
    requires { IsSound S.TreeSink sink.old state.old }
    ensures { TakesTag S.TreeSink before_html_start_html tag sink.old state.old sink.new state.new result }
{
    create_root(sink, state, tag.attrs)?;
    set_mode(sink, state, InsertionMode::BeforeHead);
    Ok(ProcessResult::Done)
}

// Start tags, by their names.
#[tactic(auto, unfolding(h5_builder_spec::specs::modes::BeforeHtml::before_html_start, h5_names::specs::KnownNames::name_text))]
fn before_html_start_tag<S: TreeSink>(sink: &mut S, state: &mut State<S::Handle>, tag: Tag) -> Turn
    requires { IsSound S.TreeSink sink.old state.old }
    ensures { TakesTag S.TreeSink (by_known before_html_start (of_tag before_html_else)) tag sink.old state.old sink.new state.new result }
{
    match tag.name.known() {
        KnownName::Html => before_html_start_html(sink, state, tag),
        _ => before_html_else(sink, state, Token::Tag(tag)),
    }
}

// End tags, by their names.
#[tactic(auto, unfolding(h5_builder_spec::specs::modes::BeforeHtml::before_html_end, h5_builder_spec::specs::ByName::outer_names, h5_names::specs::KnownNames::name_text))]
fn before_html_end_tag<S: TreeSink>(sink: &mut S, state: &mut State<S::Handle>, tag: Tag) -> Turn
    requires { IsSound S.TreeSink sink.old state.old }
    ensures { TakesTag S.TreeSink (by_known before_html_end ignored_tag) tag sink.old state.old sink.new state.new result }
{
    match tag.name.known() {
        KnownName::Head | KnownName::Body | KnownName::Html | KnownName::Br => before_html_else(
            sink,
            state,
            Token::Tag(tag),
        ),
        _ => ignored_tag(sink, state, tag),
    }
}

#[tactic(auto, using(h5_builder_spec::proofs::rows::KnownRuleLaws::before_html_start_known, h5_builder_spec::proofs::rows::KnownRuleLaws::before_html_end_known), unfolding(h5_builder_spec::specs::modes::BeforeHtml::before_html_tag))]
fn before_html_tag<S: TreeSink>(sink: &mut S, state: &mut State<S::Handle>, tag: Tag) -> Turn
    requires { IsSound S.TreeSink sink.old state.old }
    ensures { TakesTag S.TreeSink before_html_tag tag sink.old state.old sink.new state.new result }
{
    match tag.kind {
        TagKind::StartTag => before_html_start_tag(sink, state, tag),
        TagKind::EndTag => before_html_end_tag(sink, state, tag),
    }
}

/// A turn in "before html".
pub fn step_before_html<S: TreeSink>(
    sink: &mut S,
    state: &mut State<S::Handle>,
    token: Token,
) -> Turn
    requires sound { IsSound S.TreeSink sink.old state.old }
    requires text { HasText (turn_text token) }
    ensures { TakesToken S.TreeSink before_html token sink.old state.old sink.new state.new result }
{
    match token {
        Token::Tag(tag) => before_html_tag(sink, state, tag),
        Token::Comment(text) => {
            append_comment_to_doc(sink, state, text)?;
            Ok(ProcessResult::Done)
        }
        Token::Characters(SplitStatus::Whitespace, _) => Ok(ProcessResult::Done),
        other => before_html_else(sink, state, other),
    }
}
