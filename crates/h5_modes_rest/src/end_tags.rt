//! End tags in foreign content.
ghost use Rattle.std.specs.Prelude.{◌<◌, ◌≡◌, false, true};
ghost use Rattle.h5_token.specs.TokenText.{tag_text};
ghost use Rattle.h5_tables.specs.TurnText.{TagTurn};
ghost use Rattle.h5_builder_spec.specs.modes.ForeignContent.{foreign_end, foreign_end_by, is_expected_end, search_end};
ghost use Rattle.h5_builder_spec.specs.World.{names_of};
ghost use Rattle.h5_modes_rest.specs.ForeignSteps.{CameTo};
ghost use Rattle.h5_builder_state.specs.Steps.{IsSound, TellsErrors, errors_of, world_of};

use super::names::is_breakout_end;
use super::start_tags::unexpected_in_foreign_content;
use super::step::ForeignStep;
use h5_builder_actions::{
    EndSearch, is_current_in_any_case, pop_until_named_in_any_case, search_end,
};
use h5_builder_state::{State, open_count, unexpected_tag};
use h5_interface::TreeSink;
use h5_names::LocalName;
use h5_tables::{ProcessResult, Token};
use h5_token::Tag;

// The current node has the name of the end tag, or is the root; otherwise there is a parse error.
fn is_expected_end<S: TreeSink>(sink: &S, state: &State<S::Handle>, local: &LocalName) -> bool
    requires { IsSound S.TreeSink sink.now state.now }
    ensures { result ≡ is_expected_end local.now (names_of (world_of S.TreeSink sink.now state.now)) }
{
    if open_count(sink, state) > 1 {
        is_current_in_any_case(sink, state, local)
    } else {
        true
    }
}

// Reports a parse error unless the current node has the name of the end tag, or is the root.
fn check_end_tag<S: TreeSink>(sink: &mut S, state: &State<S::Handle>, tag: &Tag)
    requires { IsSound S.TreeSink sink.old state.now }
    ensures told { TellsErrors S.TreeSink sink.old sink.new state.now }
    ensures noted { is_expected_end tag.now.name (names_of (world_of S.TreeSink sink.old state.now)) ≡ false → 0 < errors_of S.TreeSink sink.new }
    ensures quiet { is_expected_end tag.now.name (names_of (world_of S.TreeSink sink.old state.now)) ≡ true → errors_of S.TreeSink sink.new ≡ errors_of S.TreeSink sink.old }
{
    if !is_expected_end(sink, state, &tag.name) {
        unexpected_tag(sink, state, tag);
    }
}

// Any other end tag: the newest open element of its name is closed, unless an element of HTML or the root is newer.
fn foreign_end_other<S: TreeSink>(
    sink: &mut S,
    state: &mut State<S::Handle>,
    tag: Tag,
) -> ForeignStep
    requires { IsSound S.TreeSink sink.old state.old }
    ensures came { CameTo S.choices S.node (foreign_end_by (search_end tag.name (names_of (world_of S.TreeSink sink.old state.old))) (tag_text tag) (world_of S.TreeSink sink.old state.old)) (TagTurn (tag_text tag)) (world_of S.TreeSink sink.old state.old) (world_of S.TreeSink sink.new state.new) (errors_of S.TreeSink sink.old) (errors_of S.TreeSink sink.new) state.new result }
    ensures sound { IsSound S.TreeSink sink.new state.new }
{
    check_end_tag(sink, state, &tag);
    match search_end(sink, state, &tag.name) {
        EndSearch::ReachesRoot => ForeignStep::Ended(ProcessResult::Done),
        EndSearch::ReachesHtml => ForeignStep::ByMode(Token::Tag(tag)),
        EndSearch::Finds(place) => {
            pop_until_named_in_any_case(sink, state, &tag.name, place);
            ForeignStep::Ended(ProcessResult::Done)
        }
    }
}

#[tactic(auto, unfolding(h5_builder_spec::specs::modes::ForeignContent::foreign_end))]
pub(crate) fn foreign_end<S: TreeSink>(
    sink: &mut S,
    state: &mut State<S::Handle>,
    tag: Tag,
) -> ForeignStep
    requires { IsSound S.TreeSink sink.old state.old }
    ensures came { CameTo S.choices S.node (foreign_end (tag_text tag) (world_of S.TreeSink sink.old state.old)) (TagTurn (tag_text tag)) (world_of S.TreeSink sink.old state.old) (world_of S.TreeSink sink.new state.new) (errors_of S.TreeSink sink.old) (errors_of S.TreeSink sink.new) state.new result }
    ensures sound { IsSound S.TreeSink sink.new state.new }
{
    if is_breakout_end(&tag.name) {
        unexpected_in_foreign_content(sink, state, tag)
    } else {
        foreign_end_other(sink, state, tag)
    }
}
