//! The mode "in head noscript" (HTML standard, section 13.2.6.4.5).
ghost use Rattle.h5_builder_spec.specs.ByName.{by_known, ignored_tag, of_tag};
ghost use Rattle.h5_tables.specs.TurnText.{HasText, turn_text};
ghost use Rattle.h5_builder_spec.specs.modes.InHeadNoscript.{in_head_noscript, in_head_noscript_else, in_head_noscript_end, in_head_noscript_end_noscript, in_head_noscript_start, in_head_noscript_tag};
ghost use Rattle.h5_builder_state.specs.Steps.{IsOpen};
ghost use Rattle.h5_builder_state.specs.Turn.{TakesTag, TakesToken};

use super::html_start_tag::in_body_start_html;
use super::ignored::ignored_tag;
use super::in_head::step_in_head;
use super::in_head_start_tags::in_head_start_tag;
use h5_builder_state::{State, Turn, pop, set_again, set_mode, unexpected};
use h5_interface::TreeSink;
use h5_names::KnownName;
use h5_tables::{InsertionMode, ProcessResult, SplitStatus, Token};
use h5_token::{Tag, TagKind};

// An end tag `noscript`.
fn in_head_noscript_end_noscript<S: TreeSink>(
    sink: &mut S,
    state: &mut State<S::Handle>,
    tag: Tag,
) -> Turn
    requires { IsOpen S.TreeSink sink.old state.old }
    ensures { TakesTag S.TreeSink in_head_noscript_end_noscript tag sink.old state.old sink.new state.new result }
{
    let _ = tag;
    pop(sink, state);
    set_mode(sink, state, InsertionMode::InHead);
    Ok(ProcessResult::Done)
}

// Anything else: the `noscript` is closed.
fn in_head_noscript_else<S: TreeSink>(
    sink: &mut S,
    state: &mut State<S::Handle>,
    token: Token,
) -> Turn
    requires { IsOpen S.TreeSink sink.old state.old }
    ensures { TakesToken S.TreeSink in_head_noscript_else token sink.old state.old sink.new state.new result }
{
    unexpected(sink, state, &token);
    pop(sink, state);
    set_again(sink, state, token);
    Ok(ProcessResult::Reprocess(InsertionMode::InHead))
}

// Start tags, by their names.
#[tactic(auto, unfolding(h5_builder_spec::specs::modes::InHeadNoscript::in_head_noscript_start, h5_builder_spec::specs::modes::InHeadNoscript::noscript_content_names, h5_builder_spec::specs::modes::InHeadNoscript::in_head_noscript_ignored, h5_names::specs::KnownNames::name_text))]
fn in_head_noscript_start_tag<S: TreeSink>(
    sink: &mut S,
    state: &mut State<S::Handle>,
    tag: Tag,
) -> Turn
    requires { IsOpen S.TreeSink sink.old state.old }
    ensures { TakesTag S.TreeSink (by_known in_head_noscript_start (of_tag in_head_noscript_else)) tag sink.old state.old sink.new state.new result }
{
    match tag.name.known() {
        KnownName::Html => in_body_start_html(sink, state, tag),
        KnownName::Basefont
        | KnownName::Bgsound
        | KnownName::Link
        | KnownName::Meta
        | KnownName::Noframes
        | KnownName::Style => in_head_start_tag(sink, state, tag),
        KnownName::Head | KnownName::Noscript => ignored_tag(sink, state, tag),
        _ => in_head_noscript_else(sink, state, Token::Tag(tag)),
    }
}

// End tags, by their names.
#[tactic(auto, unfolding(h5_builder_spec::specs::modes::InHeadNoscript::in_head_noscript_end, h5_names::specs::KnownNames::name_text))]
fn in_head_noscript_end_tag<S: TreeSink>(
    sink: &mut S,
    state: &mut State<S::Handle>,
    tag: Tag,
) -> Turn
    requires { IsOpen S.TreeSink sink.old state.old }
    ensures { TakesTag S.TreeSink (by_known in_head_noscript_end ignored_tag) tag sink.old state.old sink.new state.new result }
{
    match tag.name.known() {
        KnownName::Noscript => in_head_noscript_end_noscript(sink, state, tag),
        KnownName::Br => in_head_noscript_else(sink, state, Token::Tag(tag)),
        _ => ignored_tag(sink, state, tag),
    }
}

#[tactic(auto, using(h5_builder_spec::proofs::rows::KnownRuleLaws::in_head_noscript_start_known, h5_builder_spec::proofs::rows::KnownRuleLaws::in_head_noscript_end_known), unfolding(h5_builder_spec::specs::modes::InHeadNoscript::in_head_noscript_tag))]
fn in_head_noscript_tag<S: TreeSink>(sink: &mut S, state: &mut State<S::Handle>, tag: Tag) -> Turn
    requires { IsOpen S.TreeSink sink.old state.old }
    ensures { TakesTag S.TreeSink in_head_noscript_tag tag sink.old state.old sink.new state.new result }
{
    match tag.kind {
        TagKind::StartTag => in_head_noscript_start_tag(sink, state, tag),
        TagKind::EndTag => in_head_noscript_end_tag(sink, state, tag),
    }
}

/// A turn in "in head noscript".
pub fn step_in_head_noscript<S: TreeSink>(
    sink: &mut S,
    state: &mut State<S::Handle>,
    token: Token,
) -> Turn
    requires open { IsOpen S.TreeSink sink.old state.old }
    requires text { HasText (turn_text token) }
    ensures { TakesToken S.TreeSink in_head_noscript token sink.old state.old sink.new state.new result }
{
    match token {
        Token::Tag(tag) => in_head_noscript_tag(sink, state, tag),
        Token::Comment(text) => step_in_head(sink, state, Token::Comment(text)),
        Token::Characters(SplitStatus::Whitespace, text) => {
            step_in_head(
                sink,
                state,
                Token::Characters(SplitStatus::Whitespace, text),
            )
        }
        other => in_head_noscript_else(sink, state, other),
    }
}
