//! Elements that separate formatting elements by a marker (HTML standard, section 13.2.6.4.7, tags "applet", "marquee"
//! and "object").
ghost use Rattle.std.specs.Prelude.{◌<◌, ◌∷◌, ◌≡◌, [], false, length, true};
ghost use Rattle.h5_tables.specs.TagSets.{is_html_named, is_implied, is_one_of};
ghost use Rattle.h5_builder_spec.specs.stack.Scope.{cut_through};
ghost use Rattle.h5_builder_spec.specs.modes.InBody.{in_body_end_marked, in_body_marked, in_body_start_marked};
ghost use Rattle.h5_builder_spec.specs.Rows.{ClearActiveFormattingToMarker, GenerateImpliedEnd, PopUntilNamed, apply_all};
ghost use Rattle.h5_builder_spec.specs.World.{names_of};
ghost use Rattle.h5_builder_state.specs.Steps.{IsSound, errors_of, world_of};
ghost use Rattle.h5_builder_state.specs.Turn.{TakesTag};
ghost use Rattle.h5_builder_spec.specs.stack.Expected.{is_expected};

use h5_builder_actions::{
    clear_active_formatting_to_marker, expect_to_close, find_in_default_scope,
    generate_implied_end_tags, insert_marker, insert_tag, reconstruct_active_formatting_elements,
};
use h5_builder_state::{
    State, Turn, is_current_html, pop_until_named, set_frameset_not_ok, unexpected_tag,
};
use h5_interface::TreeSink;
use h5_names::LocalName;
use h5_tables::ProcessResult;
use h5_token::Tag;

// A start tag `applet`, `marquee` or `object`: an element, and a marker.
pub(crate) fn in_body_start_marked<S: TreeSink>(
    sink: &mut S,
    state: &mut State<S::Handle>,
    tag: Tag,
) -> Turn
    requires { IsSound S.TreeSink sink.old state.old }
    ensures { TakesTag S.TreeSink in_body_start_marked tag sink.old state.old sink.new state.new result }
{
    reconstruct_active_formatting_elements(sink, state)?;
    insert_tag(sink, state, tag)?;
    insert_marker(sink, state)?;
    set_frameset_not_ok(sink, state);
    Ok(ProcessResult::Done)
}

// Closes the element of this name, which is at this place, and clears the list up to its marker.
fn close_marked<S: TreeSink>(
    sink: &mut S,
    state: &mut State<S::Handle>,
    local: &LocalName,
    place: usize,
)
    requires sound { IsSound S.TreeSink sink.old state.old }
    requires name { is_one_of in_body_marked local.now ≡ true }
    requires place { place ≡ length (cut_through (is_html_named local.now) (names_of (world_of S.TreeSink sink.old state.old)) (world_of S.TreeSink sink.old state.old).stack) }
    ensures world { world_of S.TreeSink sink.new state.new ≡ apply_all S.choices (GenerateImpliedEnd ∷ PopUntilNamed local.now ∷ ClearActiveFormattingToMarker ∷ []) (world_of S.TreeSink sink.old state.old) }
    ensures noted { is_expected is_implied (is_html_named local.now) (names_of (world_of S.TreeSink sink.old state.old)) ≡ false → 0 < errors_of S.TreeSink sink.new }
    ensures quiet { is_expected is_implied (is_html_named local.now) (names_of (world_of S.TreeSink sink.old state.old)) ≡ true → errors_of S.TreeSink sink.new ≡ errors_of S.TreeSink sink.old }
    ensures sound { IsSound S.TreeSink sink.new state.new }
{
    generate_implied_end_tags(sink, state);
    let expected = is_current_html(sink, state, local);
    expect_to_close(sink, state, expected);
    pop_until_named(sink, state, local, place);
    clear_active_formatting_to_marker(sink, state);
}

// An end tag `applet`, `marquee` or `object`: it closes the element of its name in scope.
#[tactic(auto, unfolding(h5_builder_spec::specs::modes::InBody::in_body_end_marked))]
pub(crate) fn in_body_end_marked<S: TreeSink>(
    sink: &mut S,
    state: &mut State<S::Handle>,
    tag: Tag,
) -> Turn
    requires sound { IsSound S.TreeSink sink.old state.old }
    requires name { is_one_of in_body_marked tag.name ≡ true }
    ensures { TakesTag S.TreeSink in_body_end_marked tag sink.old state.old sink.new state.new result }
{
    match find_in_default_scope(sink, state, &tag.name) {
        Some(place) => {
            close_marked(sink, state, &tag.name, place);
            Ok(ProcessResult::Done)
        }
        None => {
            unexpected_tag(sink, state, &tag);
            Ok(ProcessResult::Done)
        }
    }
}
