//! Closes elements of SVG and MathML (HTML standard, section 13.2.6.5, "The rules for parsing tokens in foreign
//! content").
ghost use Rattle.std.specs.Prelude.{◌≡◌, length};
ghost use Rattle.h5_builder_spec.specs.stack.Scope.{cut_through, first_passes};
ghost use Rattle.h5_builder_spec.specs.insertion.Foreign.{is_named_in_any_case};
ghost use Rattle.h5_builder_spec.specs.modes.ForeignContent.{search_end};
ghost use Rattle.h5_builder_spec.specs.Rows.{LeaveForeignContent, PopUntilNamedInAnyCase};
ghost use Rattle.h5_builder_spec.specs.World.{names_of};
ghost use Rattle.h5_builder_actions.specs.EndSearches.{IsFoundBy, IsFoundIn, end_by, search_of};
ghost use Rattle.h5_builder_state.specs.Steps.{IsSound, Makes, world_of};

use crate::is_current_left;
use h5_builder_state::{
    NameTest, State, is_current, name_at, newest_foreign, newest_html, open_count, pop, truncate,
};
use h5_interface::TreeSink;
use h5_names::{LocalName, QualName};

// An element of this local name passes, in any case of ASCII letters.
#[derive(Clone, Copy)]
struct InAnyCase<'a>(&'a LocalName);

impl NameTest for InAnyCase<'_> {
    ghost holds = { λ t name. is_named_in_any_case t.0.now name };

    fn test(&self, name: &QualName) -> bool {
        name.local.as_str().eq_ignore_ascii_case(self.0.as_str())
    }
}

/// Leaves foreign content: pops elements up to one of HTML, a MathML text integration point, or an HTML integration
/// point. An element of SVG is such a point by its name, an `annotation-xml` if the sink says so.
pub fn leave_foreign_content<S: TreeSink>(sink: &mut S, state: &mut State<S::Handle>)
    requires { IsSound S.TreeSink sink.old state.old }
    ensures { Makes S.TreeSink LeaveForeignContent sink.old state.old sink.new state.new }
{
    'left: while is_current_left(sink, state) {
        pop(sink, state);
    }
}

/// Returns true if the current node has this local name, in any case of ASCII letters.
pub fn is_current_in_any_case<S: TreeSink>(
    sink: &S,
    state: &State<S::Handle>,
    local: &LocalName,
) -> bool
    requires { IsSound S.TreeSink sink.now state.now }
    ensures { result ≡ first_passes (is_named_in_any_case local.now) (names_of (world_of S.TreeSink sink.now state.now)) }
{
    is_current(sink, state, &InAnyCase(local))
}

/// The result of the search for the element that an end tag closes, from the current node on.
#[derive(Clone, Copy, Debug)]
pub enum EndSearch {
    /// The search reaches the root.
    ReachesRoot,
    /// The search reaches an element of HTML.
    ReachesHtml,
    /// An element of the tag's name is at this place, which is the number of older elements.
    Finds(usize),
}

// The result by the places of the newest element of the name and of the newest HTML element, each one more than a
// place.
fn end_by(here: usize, html: usize) -> EndSearch
    ensures search { search_of result ≡ end_by here html }
    ensures place { IsFoundBy here html result }
{
    if here <= 1 && html <= 1 {
        EndSearch::ReachesRoot
    } else if here <= html {
        EndSearch::ReachesHtml
    } else {
        EndSearch::Finds(here - 1)
    }
}

// By a walk over the open elements, from the current node on.
fn walk_to_end<S: TreeSink>(sink: &S, state: &State<S::Handle>, local: &LocalName) -> EndSearch
    requires { IsSound S.TreeSink sink.now state.now }
    ensures search { search_of result ≡ search_end local.now (names_of (world_of S.TreeSink sink.now state.now)) }
    ensures place { IsFoundIn (world_of S.TreeSink sink.now state.now) local.now result }
{
    let mut place = open_count(sink, state);
    'down: while place > 1 {
        place -= 1;
        let name = name_at(sink, state, place);
        if name.ns.is_html() {
            return EndSearch::ReachesHtml;
        }
        if InAnyCase(local).test(name) {
            return EndSearch::Finds(place);
        }
    }
    EndSearch::ReachesRoot
}

/// Searches for the element that an end tag of this name closes: the newest of its name, in any case of ASCII letters,
/// unless one of HTML, or the root, is newer.
pub fn search_end<S: TreeSink>(sink: &S, state: &State<S::Handle>, local: &LocalName) -> EndSearch
    requires { IsSound S.TreeSink sink.now state.now }
    ensures search { search_of result ≡ search_end local.now (names_of (world_of S.TreeSink sink.now state.now)) }
    ensures place { IsFoundIn (world_of S.TreeSink sink.now state.now) local.now result }
{
    match newest_foreign(sink, state, local) {
        Ok(here) => end_by(here, newest_html(sink, state)),
        // There is no memory for the name in lower case.
        Err(_) => walk_to_end(sink, state, local),
    }
}

/// Removes elements from the stack up to and including the newest of this local name, in any case of ASCII letters,
/// which must be at this place. The sink isn't notified.
pub fn pop_until_named_in_any_case<S: TreeSink>(
    sink: &S,
    state: &mut State<S::Handle>,
    local: &LocalName,
    place: usize,
)
    requires sound { IsSound S.TreeSink sink.now state.old }
    requires place { place ≡ length (cut_through (is_named_in_any_case local.now) (names_of (world_of S.TreeSink sink.now state.old)) (world_of S.TreeSink sink.now state.old).stack) }
    ensures { Makes S.TreeSink (PopUntilNamedInAnyCase local.now) sink.now state.old sink.now state.new }
{
    truncate(sink, state, place);
}
