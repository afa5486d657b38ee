//! The mode "after head" (HTML standard, section 13.2.6.4.6).
ghost use Rattle.h5_builder_spec.specs.ByName.{by_known, ignored_tag, of_tag};
ghost use Rattle.std.specs.Prelude.{◌≡◌, ◌≢◌, MatchOption, option_map, true};
ghost use Rattle.h5_tables.specs.TurnText.{HasText, turn_text};
ghost use Rattle.h5_interface.specs.Forest.{IsElement};
ghost use Rattle.h5_tables.specs.TagSets.{is_one_of};
ghost use Rattle.h5_builder_spec.specs.modes.AfterHead.{after_head, after_head_else, after_head_end, after_head_start, after_head_start_body, after_head_start_frameset, after_head_tag, removes_known, with_head};
ghost use Rattle.h5_builder_spec.specs.modes.InHead.{in_head_start_tag};
ghost use Rattle.h5_builder_spec.specs.Rows.{apply_all};
ghost use Rattle.h5_builder_spec.specs.modes.Shared.{head_start_names};
ghost use Rattle.h5_builder_spec.specs.World.{root};
ghost use Rattle.h5_modes_head.specs.Fits.{FitsAfterHead};
ghost use Rattle.h5_builder_state.specs.Steps.{IsOpen, IsSound, errors_of, world_of};
ghost use Rattle.h5_builder_state.specs.Turn.{TakesTag, TakesToken};

use super::html_start_tag::in_body_start_html;
use super::ignored::ignored_tag;
use super::in_head_start_tags::in_head_start_tag;
use super::template::in_head_end_template;
use h5_builder_actions::{
    append_comment, append_text, insert_phantom, insert_tag, known_head, push_head,
    remove_from_stack,
};
use h5_builder_state::{
    State, Turn, set_again, set_answer, set_frameset_not_ok, set_mode, take_answer, unexpected_tag,
};
use h5_interface::TreeSink;
use h5_names::KnownName;
use h5_tables::{InsertionMode, ProcessResult, SplitStatus, Token};
use h5_token::{Tag, TagKind};

// A start tag `body`.
fn after_head_start_body<S: TreeSink>(sink: &mut S, state: &mut State<S::Handle>, tag: Tag) -> Turn
    requires { IsSound S.TreeSink sink.old state.old }
    ensures { TakesTag S.TreeSink after_head_start_body tag sink.old state.old sink.new state.new result }
{
    insert_tag(sink, state, tag)?;
    set_frameset_not_ok(sink, state);
    set_mode(sink, state, InsertionMode::InBody);
    Ok(ProcessResult::Done)
}

// A start tag `frameset`.
fn after_head_start_frameset<S: TreeSink>(
    sink: &mut S,
    state: &mut State<S::Handle>,
    tag: Tag,
) -> Turn
    requires { IsSound S.TreeSink sink.old state.old }
    ensures { TakesTag S.TreeSink after_head_start_frameset tag sink.old state.old sink.new state.new result }
{
    insert_tag(sink, state, tag)?;
    set_mode(sink, state, InsertionMode::InFrameset);
    Ok(ProcessResult::Done)
}

// Removes the head element from the stack, wherever it is, if there is one.
fn leave_head<S: TreeSink>(sink: &mut S, state: &mut State<S::Handle>, head: &Option<S::Handle>)
    requires sound { IsSound S.TreeSink sink.old state.old }
    requires element { MatchOption head.now (Unit {0}) (λ element. IsElement (S.sees sink.old).forest (S.node element)) }
    requires root { MatchOption head.now (Unit {0}) (λ element. S.node element ≢ root (world_of S.TreeSink sink.old state.old)) }
    ensures world { world_of S.TreeSink sink.new state.new ≡ apply_all S.choices (removes_known (option_map S.node head.now)) (world_of S.TreeSink sink.old state.old) }
    ensures quiet { errors_of S.TreeSink sink.new ≡ errors_of S.TreeSink sink.old }
    ensures sound { IsSound S.TreeSink sink.new state.new }
{
    if let Some(element) = head {
        remove_from_stack(sink, state, element);
    }
}

// A start tag that is handled by the rules of "in head": the head element is the current node for it, and is then
// removed from the stack, wherever it is.
#[tactic(auto, unfolding(h5_builder_spec::specs::modes::AfterHead::with_head))]
fn with_head<S: TreeSink>(sink: &mut S, state: &mut State<S::Handle>, tag: Tag) -> Turn
    requires sound { IsSound S.TreeSink sink.old state.old }
    requires fits { FitsAfterHead (world_of S.TreeSink sink.old state.old) }
    requires name { is_one_of head_start_names tag.name ≡ true }
    ensures { TakesTag S.TreeSink (with_head in_head_start_tag) tag sink.old state.old sink.new state.new result }
{
    unexpected_tag(sink, state, &tag);
    let head = known_head(sink, state);
    push_head(sink, state)?;
    let result = in_head_start_tag(sink, state, tag)?;
    let answer = take_answer(sink, state);
    leave_head(sink, state, &head);
    set_answer(sink, state, answer);
    Ok(result)
}

// Anything else: a body without attributes is inserted.
fn after_head_else<S: TreeSink>(sink: &mut S, state: &mut State<S::Handle>, token: Token) -> Turn
    requires { IsSound S.TreeSink sink.old state.old }
    ensures { TakesToken S.TreeSink after_head_else token sink.old state.old sink.new state.new result }
{
    insert_phantom(sink, state, KnownName::Body)?;
    set_again(sink, state, token);
    Ok(ProcessResult::Reprocess(InsertionMode::InBody))
}

// Start tags, by their names.
#[tactic(auto, unfolding(h5_builder_spec::specs::modes::AfterHead::after_head_start, h5_builder_spec::specs::modes::Shared::head_start_names, h5_names::specs::KnownNames::name_text))]
fn after_head_start_tag<S: TreeSink>(sink: &mut S, state: &mut State<S::Handle>, tag: Tag) -> Turn
    requires open { IsOpen S.TreeSink sink.old state.old }
    requires fits { FitsAfterHead (world_of S.TreeSink sink.old state.old) }
    ensures { TakesTag S.TreeSink (by_known after_head_start (of_tag after_head_else)) tag sink.old state.old sink.new state.new result }
{
    match tag.name.known() {
        KnownName::Html => in_body_start_html(sink, state, tag),
        KnownName::Body => after_head_start_body(sink, state, tag),
        KnownName::Frameset => after_head_start_frameset(sink, state, tag),
        KnownName::Base
        | KnownName::Basefont
        | KnownName::Bgsound
        | KnownName::Link
        | KnownName::Meta
        | KnownName::Noframes
        | KnownName::Script
        | KnownName::Style
        | KnownName::Template
        | KnownName::Title => with_head(sink, state, tag),
        KnownName::Head => ignored_tag(sink, state, tag),
        _ => after_head_else(sink, state, Token::Tag(tag)),
    }
}

// End tags, by their names.
#[tactic(auto, unfolding(h5_builder_spec::specs::modes::AfterHead::after_head_end, h5_builder_spec::specs::ByName::outer_names, h5_names::specs::KnownNames::name_text))]
fn after_head_end_tag<S: TreeSink>(sink: &mut S, state: &mut State<S::Handle>, tag: Tag) -> Turn
    requires { IsOpen S.TreeSink sink.old state.old }
    ensures { TakesTag S.TreeSink (by_known after_head_end ignored_tag) tag sink.old state.old sink.new state.new result }
{
    match tag.name.known() {
        KnownName::Head => ignored_tag(sink, state, tag),
        KnownName::Template => in_head_end_template(sink, state, tag),
        KnownName::Body | KnownName::Html | KnownName::Br => after_head_else(
            sink,
            state,
            Token::Tag(tag),
        ),
        _ => ignored_tag(sink, state, tag),
    }
}

#[tactic(auto, using(h5_builder_spec::proofs::rows::KnownRuleLaws::after_head_start_known, h5_builder_spec::proofs::rows::KnownRuleLaws::after_head_end_known), unfolding(h5_builder_spec::specs::modes::AfterHead::after_head_tag))]
fn after_head_tag<S: TreeSink>(sink: &mut S, state: &mut State<S::Handle>, tag: Tag) -> Turn
    requires open { IsOpen S.TreeSink sink.old state.old }
    requires fits { FitsAfterHead (world_of S.TreeSink sink.old state.old) }
    ensures { TakesTag S.TreeSink after_head_tag tag sink.old state.old sink.new state.new result }
{
    match tag.kind {
        TagKind::StartTag => after_head_start_tag(sink, state, tag),
        TagKind::EndTag => after_head_end_tag(sink, state, tag),
    }
}

/// A turn in "after head": only the root is open, and the head element is known.
pub fn step_after_head<S: TreeSink>(
    sink: &mut S,
    state: &mut State<S::Handle>,
    token: Token,
) -> Turn
    requires open { IsOpen S.TreeSink sink.old state.old }
    requires fits { FitsAfterHead (world_of S.TreeSink sink.old state.old) }
    requires text { HasText (turn_text token) }
    ensures { TakesToken S.TreeSink after_head token sink.old state.old sink.new state.new result }
{
    match token {
        Token::Tag(tag) => after_head_tag(sink, state, tag),
        Token::Comment(text) => {
            append_comment(sink, state, text)?;
            Ok(ProcessResult::Done)
        }
        Token::Characters(SplitStatus::Whitespace, text) => {
            append_text(sink, state, text)?;
            Ok(ProcessResult::Done)
        }
        other => after_head_else(sink, state, other),
    }
}
