//! The newest open element of a kind, by the summaries of the open elements. Each function returns one more than its
//! place, or 0 if there is none.
ghost use Rattle.std.specs.Prelude.{◌≡◌, IfOk, map};
ghost use Rattle.h5_names.specs.KnownNames.{name_text};
ghost use Rattle.h5_tables.specs.TagSets.{is_default_scope, is_html_named};
ghost use Rattle.h5_builder_spec.specs.stack.Closing.{is_html_among};
ghost use Rattle.h5_builder_spec.specs.World.{names_of};
ghost use Rattle.h5_builder_spec.specs.reset.Roles.{is_html_element};
ghost use Rattle.h5_builder_state.specs.Newest.{is_foreign_named, newer_of, newest_where};
ghost use Rattle.h5_builder_state.specs.Steps.{IsSound, world_of};

use super::open_elems::all_open;
use super::state::State;
use h5_interface::TreeSink;
use h5_names::{KnownName, LocalName};
use std::alloc::AllocError;

/// The newest HTML element of a local name, by the number of the name.
#[tactic(auto, unfolding(crate::specs::View::world))]
pub fn newest_named<S: TreeSink>(sink: &S, state: &State<S::Handle>, local: &LocalName) -> usize
    requires { IsSound S.TreeSink sink.now state.now }
    ensures { result ≡ newest_where (is_html_named local.now) (names_of (world_of S.TreeSink sink.now state.now)) }
{
    match state.open_elems.numbers.html(local) {
        Some(number) => state.open_elems.elements.newest(number),
        None => 0,
    }
}

/// The newest element of MathML or SVG of a local name, in any case of ASCII letters, by the number of the name. Fails
/// with `AllocError` if an allocation fails.
#[tactic(auto, unfolding(crate::specs::View::world))]
pub fn newest_foreign<S: TreeSink>(
    sink: &S,
    state: &State<S::Handle>,
    local: &LocalName,
) -> Result<usize, AllocError>
    requires { IsSound S.TreeSink sink.now state.now }
    ensures { IfOk result (λ newest. newest ≡ newest_where (is_foreign_named local.now) (names_of (world_of S.TreeSink sink.now state.now))) }
{
    match state.open_elems.numbers.foreign(local)? {
        Some(number) => Ok(state.open_elems.elements.newest(number)),
        None => Ok(0),
    }
}

/// The newer of two.
pub fn newer(one: usize, other: usize) -> usize
    ensures { result ≡ newer_of one other }
{
    if one < other { other } else { one }
}

/// The newest HTML element of these known names.
pub fn newest_among<S: TreeSink>(sink: &S, state: &State<S::Handle>, names: &[KnownName]) -> usize
    requires { IsSound S.TreeSink sink.now state.now }
    ensures { result ≡ newest_where (is_html_among (map name_text names.now)) (names_of (world_of S.TreeSink sink.now state.now)) }
{
    let mut newest = 0;
    for known in names {
        let named = newest_named(sink, state, &LocalName::from_known(*known));
        newest = newer(newest, named);
    }
    newest
}

/// The newest HTML element.
pub fn newest_html<S: TreeSink>(sink: &S, state: &State<S::Handle>) -> usize
    requires { IsSound S.TreeSink sink.now state.now }
    ensures { result ≡ newest_where is_html_element (names_of (world_of S.TreeSink sink.now state.now)) }
{
    all_open(sink, state).html as usize
}

/// The newest element that ends a scope.
pub fn newest_scope_end<S: TreeSink>(sink: &S, state: &State<S::Handle>) -> usize
    requires { IsSound S.TreeSink sink.now state.now }
    ensures { result ≡ newest_where is_default_scope (names_of (world_of S.TreeSink sink.now state.now)) }
{
    all_open(sink, state).scope_end as usize
}
