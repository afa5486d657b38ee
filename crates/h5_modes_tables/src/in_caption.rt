//! The mode "in caption" (HTML standard, section 13.2.6.4.11).
ghost use Rattle.std.specs.Prelude.{◌<◌, ◌∷◌, ◌≡◌, [], codes, false, length, true};
ghost use Rattle.h5_tables.specs.TurnText.{HasText, turn_text};
ghost use Rattle.h5_tables.specs.TagSets.{is_html_named, is_implied};
ghost use Rattle.h5_builder_spec.specs.stack.Scope.{cut_through};
ghost use Rattle.h5_builder_spec.specs.ByName.{by_known, of_tag};
ghost use Rattle.h5_builder_spec.specs.modes.InBody.{in_body};
ghost use Rattle.h5_builder_spec.specs.modes.InCaption.{in_caption, in_caption_close, in_caption_end, in_caption_end_caption, in_caption_start, in_caption_tag};
ghost use Rattle.h5_builder_spec.specs.Rows.{ClearActiveFormattingToMarker, GenerateImpliedEnd, PopUntilNamed, apply_all};
ghost use Rattle.h5_builder_spec.specs.inner.Kept.{HasHtmlRoot};
ghost use Rattle.h5_builder_spec.specs.World.{names_of};
ghost use Rattle.h5_builder_state.specs.Steps.{IsSound, errors_of, world_of};
ghost use Rattle.h5_builder_state.specs.Turn.{TakesTag, TakesToken};
ghost use Rattle.h5_builder_spec.specs.stack.Expected.{is_expected};

use h5_builder_actions::{
    clear_active_formatting_to_marker, expect_to_close, find_in_table_scope,
    generate_implied_end_tags,
};
use h5_builder_state::{
    Known, State, Turn, is_current_html, pop_until_named, set_again, set_mode, unexpected_tag,
};
use h5_interface::TreeSink;
use h5_modes_body::{in_body_tag, step_in_body};
use h5_modes_head::ignored_tag;
use h5_names::{KnownName, LocalName};
use h5_tables::{InsertionMode, ProcessResult, Token};
use h5_token::{Tag, TagKind};

// Closes the caption, which is at this place.
fn close_the_caption<S: TreeSink>(sink: &mut S, state: &mut State<S::Handle>, place: usize)
    requires sound { IsSound S.TreeSink sink.old state.old }
    requires place { place ≡ length (cut_through (is_html_named (codes "caption")) (names_of (world_of S.TreeSink sink.old state.old)) (world_of S.TreeSink sink.old state.old).stack) }
    ensures world { world_of S.TreeSink sink.new state.new ≡ apply_all S.choices (GenerateImpliedEnd ∷ PopUntilNamed (codes "caption") ∷ ClearActiveFormattingToMarker ∷ []) (world_of S.TreeSink sink.old state.old) }
    ensures noted { is_expected is_implied (is_html_named (codes "caption")) (names_of (world_of S.TreeSink sink.old state.old)) ≡ false → 0 < errors_of S.TreeSink sink.new }
    ensures quiet { is_expected is_implied (is_html_named (codes "caption")) (names_of (world_of S.TreeSink sink.old state.old)) ≡ true → errors_of S.TreeSink sink.new ≡ errors_of S.TreeSink sink.old }
    ensures sound { IsSound S.TreeSink sink.new state.new }
{
    let caption = LocalName::from_known(KnownName::Caption);
    generate_implied_end_tags(sink, state);
    let expected = is_current_html(sink, state, &caption);
    expect_to_close(sink, state, expected);
    pop_until_named(sink, state, &caption, place);
    clear_active_formatting_to_marker(sink, state);
}

// An end tag `caption`.
#[tactic(auto, unfolding(h5_builder_spec::specs::modes::InCaption::close_the_caption))]
fn in_caption_end_caption<S: TreeSink>(sink: &mut S, state: &mut State<S::Handle>, tag: Tag) -> Turn
    requires { IsSound S.TreeSink sink.old state.old }
    ensures { TakesTag S.TreeSink in_caption_end_caption tag sink.old state.old sink.new state.new result }
{
    match find_in_table_scope(sink, state, &Known(KnownName::Caption)) {
        Some(place) => {
            close_the_caption(sink, state, place);
            set_mode(sink, state, InsertionMode::InTable);
            Ok(ProcessResult::Done)
        }
        None => {
            unexpected_tag(sink, state, &tag);
            Ok(ProcessResult::Done)
        }
    }
}

// A tag that closes the caption, and is reprocessed in "in table".
#[tactic(auto, unfolding(h5_builder_spec::specs::modes::InCaption::close_the_caption))]
fn in_caption_close<S: TreeSink>(sink: &mut S, state: &mut State<S::Handle>, tag: Tag) -> Turn
    requires { IsSound S.TreeSink sink.old state.old }
    ensures { TakesTag S.TreeSink in_caption_close tag sink.old state.old sink.new state.new result }
{
    match find_in_table_scope(sink, state, &Known(KnownName::Caption)) {
        Some(place) => {
            close_the_caption(sink, state, place);
            set_again(sink, state, Token::Tag(tag));
            Ok(ProcessResult::Reprocess(InsertionMode::InTable))
        }
        None => {
            unexpected_tag(sink, state, &tag);
            Ok(ProcessResult::Done)
        }
    }
}

// End tags, by their names.
#[tactic(auto, unfolding(h5_builder_spec::specs::modes::InCaption::in_caption_end, h5_builder_spec::specs::modes::InCaption::in_caption_ignored_ends, h5_names::specs::KnownNames::name_text))]
fn in_caption_end_tag<S: TreeSink>(sink: &mut S, state: &mut State<S::Handle>, tag: Tag) -> Turn
    requires sound { IsSound S.TreeSink sink.old state.old }
    requires ready { HasHtmlRoot (world_of S.TreeSink sink.old state.old) }
    ensures { TakesTag S.TreeSink (by_known in_caption_end (of_tag in_body)) tag sink.old state.old sink.new state.new result }
{
    match tag.name.known() {
        KnownName::Caption => in_caption_end_caption(sink, state, tag),
        KnownName::Table => in_caption_close(sink, state, tag),
        KnownName::Body
        | KnownName::Col
        | KnownName::Colgroup
        | KnownName::Html
        | KnownName::Tbody
        | KnownName::Td
        | KnownName::Tfoot
        | KnownName::Th
        | KnownName::Thead
        | KnownName::Tr => ignored_tag(sink, state, tag),
        _ => in_body_tag(sink, state, tag),
    }
}

// Start tags, by their names.
#[tactic(auto, unfolding(h5_builder_spec::specs::modes::InCaption::in_caption_start, h5_builder_spec::specs::modes::Shared::table_structure_names, h5_names::specs::KnownNames::name_text))]
fn in_caption_start_tag<S: TreeSink>(sink: &mut S, state: &mut State<S::Handle>, tag: Tag) -> Turn
    requires sound { IsSound S.TreeSink sink.old state.old }
    requires ready { HasHtmlRoot (world_of S.TreeSink sink.old state.old) }
    ensures { TakesTag S.TreeSink (by_known in_caption_start (of_tag in_body)) tag sink.old state.old sink.new state.new result }
{
    match tag.name.known() {
        KnownName::Caption
        | KnownName::Col
        | KnownName::Colgroup
        | KnownName::Tbody
        | KnownName::Td
        | KnownName::Tfoot
        | KnownName::Th
        | KnownName::Thead
        | KnownName::Tr => in_caption_close(sink, state, tag),
        _ => in_body_tag(sink, state, tag),
    }
}

#[tactic(auto, using(h5_builder_spec::proofs::rows::KnownRuleLaws::in_caption_start_known, h5_builder_spec::proofs::rows::KnownRuleLaws::in_caption_end_known), unfolding(h5_builder_spec::specs::modes::InCaption::in_caption_tag))]
fn in_caption_tag<S: TreeSink>(sink: &mut S, state: &mut State<S::Handle>, tag: Tag) -> Turn
    requires sound { IsSound S.TreeSink sink.old state.old }
    requires ready { HasHtmlRoot (world_of S.TreeSink sink.old state.old) }
    ensures { TakesTag S.TreeSink in_caption_tag tag sink.old state.old sink.new state.new result }
{
    match tag.kind {
        TagKind::StartTag => in_caption_start_tag(sink, state, tag),
        TagKind::EndTag => in_caption_end_tag(sink, state, tag),
    }
}

/// A turn in "in caption".
pub fn step_in_caption<S: TreeSink>(
    sink: &mut S,
    state: &mut State<S::Handle>,
    token: Token,
) -> Turn
    requires sound { IsSound S.TreeSink sink.old state.old }
    requires ready { HasHtmlRoot (world_of S.TreeSink sink.old state.old) }
    requires text { HasText (turn_text token) }
    ensures { TakesToken S.TreeSink in_caption token sink.old state.old sink.new state.new result }
{
    match token {
        Token::Tag(tag) => in_caption_tag(sink, state, tag),
        token => step_in_body(sink, state, token),
    }
}
