//! List items in the body (HTML standard, section 13.2.6.4.7).
ghost use Rattle.std.specs.Prelude.{◌<◌, ◌∷◌, ◌≡◌, [], false, length, true};
ghost use Rattle.h5_tables.specs.TagSets.{is_html_named};
ghost use Rattle.h5_builder_spec.specs.stack.Scope.{cut_through, is_implied_but};
ghost use Rattle.h5_builder_spec.specs.modes.InBody.{in_body_end_description, in_body_end_li, in_body_start_item};
ghost use Rattle.h5_builder_spec.specs.Rows.{GenerateImpliedEndExcept, PopUntilNamed, apply_all};
ghost use Rattle.h5_builder_spec.specs.World.{names_of};
ghost use Rattle.h5_builder_actions.specs.Items.{item_names};
ghost use Rattle.h5_builder_state.specs.Steps.{IsSound, errors_of, world_of};
ghost use Rattle.h5_builder_state.specs.Turn.{TakesTag};
ghost use Rattle.h5_builder_spec.specs.stack.Expected.{is_expected};

use h5_builder_actions::{
    ItemKind, close_list_item, close_p_element_in_button_scope, expect_to_close,
    find_in_default_scope, find_li_in_list_item_scope, insert_tag,
};
use h5_builder_state::{
    State, Turn, generate_implied_end_except, is_current_html, pop_until_named,
    set_frameset_not_ok, unexpected_tag,
};
use h5_interface::TreeSink;
use h5_names::{KnownName, LocalName};
use h5_tables::ProcessResult;
use h5_token::Tag;

// A start tag `li`, `dd` or `dt`: it closes the open item of its kind, and is then handled as a block.
pub(crate) fn in_body_start_item<S: TreeSink>(
    sink: &mut S,
    state: &mut State<S::Handle>,
    tag: Tag,
    kind: ItemKind,
) -> Turn
    requires { IsSound S.TreeSink sink.old state.old }
    ensures { TakesTag S.TreeSink (in_body_start_item (item_names kind)) tag sink.old state.old sink.new state.new result }
{
    set_frameset_not_ok(sink, state);
    let item_expected = close_list_item(sink, state, kind);
    expect_to_close(sink, state, item_expected);
    let p_expected = close_p_element_in_button_scope(sink, state);
    expect_to_close(sink, state, p_expected);
    insert_tag(sink, state, tag)?;
    Ok(ProcessResult::Done)
}

// Closes the element of this name, which is at this place.
fn close_item<S: TreeSink>(
    sink: &mut S,
    state: &mut State<S::Handle>,
    local: &LocalName,
    place: usize,
)
    requires sound { IsSound S.TreeSink sink.old state.old }
    requires place { place ≡ length (cut_through (is_html_named local.now) (names_of (world_of S.TreeSink sink.old state.old)) (world_of S.TreeSink sink.old state.old).stack) }
    ensures world { world_of S.TreeSink sink.new state.new ≡ apply_all S.choices (GenerateImpliedEndExcept local.now ∷ PopUntilNamed local.now ∷ []) (world_of S.TreeSink sink.old state.old) }
    ensures noted { is_expected (is_implied_but local.now) (is_html_named local.now) (names_of (world_of S.TreeSink sink.old state.old)) ≡ false → 0 < errors_of S.TreeSink sink.new }
    ensures quiet { is_expected (is_implied_but local.now) (is_html_named local.now) (names_of (world_of S.TreeSink sink.old state.old)) ≡ true → errors_of S.TreeSink sink.new ≡ errors_of S.TreeSink sink.old }
    ensures sound { IsSound S.TreeSink sink.new state.new }
{
    generate_implied_end_except(sink, state, local);
    let expected = is_current_html(sink, state, local);
    expect_to_close(sink, state, expected);
    pop_until_named(sink, state, local, place);
}

// An end tag `li`: it closes the `li` in list item scope.
#[tactic(auto, unfolding(h5_builder_spec::specs::modes::InBody::in_body_end_li))]
pub(crate) fn in_body_end_li<S: TreeSink>(
    sink: &mut S,
    state: &mut State<S::Handle>,
    tag: Tag,
) -> Turn
    requires { IsSound S.TreeSink sink.old state.old }
    ensures { TakesTag S.TreeSink in_body_end_li tag sink.old state.old sink.new state.new result }
{
    match find_li_in_list_item_scope(sink, state) {
        Some(place) => {
            close_item(sink, state, &LocalName::from_known(KnownName::Li), place);
            Ok(ProcessResult::Done)
        }
        None => {
            unexpected_tag(sink, state, &tag);
            Ok(ProcessResult::Done)
        }
    }
}

// An end tag `dd` or `dt`: it closes the element of its name in scope.
#[tactic(auto, unfolding(h5_builder_spec::specs::modes::InBody::in_body_end_description))]
pub(crate) fn in_body_end_description<S: TreeSink>(
    sink: &mut S,
    state: &mut State<S::Handle>,
    tag: Tag,
) -> Turn
    requires { IsSound S.TreeSink sink.old state.old }
    ensures { TakesTag S.TreeSink in_body_end_description tag sink.old state.old sink.new state.new result }
{
    match find_in_default_scope(sink, state, &tag.name) {
        Some(place) => {
            close_item(sink, state, &tag.name, place);
            Ok(ProcessResult::Done)
        }
        None => {
            unexpected_tag(sink, state, &tag);
            Ok(ProcessResult::Done)
        }
    }
}
