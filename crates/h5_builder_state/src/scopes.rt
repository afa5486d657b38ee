//! Tests for "have a particular element in scope" (HTML standard, section 13.2.4.2): they compare the newest such
//! element with the newest one that ends the search.
ghost use Rattle.std.specs.Prelude.{◌≡◌, ◌<◌, ◌≤◌, ◌&&◌, ◌-◌, ℕ, MatchOption, Some, is_some, length};
ghost use Rattle.h5_names.specs.KnownNames.{name_text};
ghost use Rattle.h5_tables.specs.TagSets.{is_default_scope, is_html_named};
ghost use Rattle.h5_builder_spec.specs.stack.Scope.{comes_before_special, cut_through, in_scope};
ghost use Rattle.h5_builder_spec.specs.World.{names_of};
ghost use Rattle.h5_builder_state.specs.Newest.{place_before};
ghost use Rattle.h5_builder_state.specs.Steps.{IsSound, world_of};

use super::name_test::{Known, NewestTest};
use super::newest::newest_named;
use super::open_elems::all_open;
use super::state::State;
use h5_interface::TreeSink;
use h5_names::{KnownName, LocalName};
use h5_tables::ElementSet;

// The place of the newest such element, if the newest one that ends the search isn't newer. Both arguments are one more
// than a place, or 0.
fn place_before(here: usize, end: usize) -> Option<usize>
    ensures { result ≡ place_before here end }
{
    if here > 0 && here >= end {
        Some(here - 1)
    } else {
        None
    }
}

/// Returns the place, counted from the root, of the newest open element whose name passes, if none that ends the scope
/// is newer.
#[inline(always)]
pub fn find_in_scope<S: TreeSink, Is: NewestTest, Ends: NewestTest>(
    sink: &S,
    state: &State<S::Handle>,
    is: &Is,
    ends: &Ends,
) -> Option<usize>
    requires { IsSound S.TreeSink sink.now state.now }
    ensures found { is_some result ≡ in_scope (Is.holds is.now) (Ends.holds ends.now) (names_of (world_of S.TreeSink sink.now state.now)) }
    ensures place { MatchOption result (Unit {0}) (λ place. place ≡ length (cut_through (Is.holds is.now) (names_of (world_of S.TreeSink sink.now state.now)) (world_of S.TreeSink sink.now state.now).stack)) }
{
    place_before(is.newest(sink, state), ends.newest(sink, state))
}

/// Returns true if an HTML element of this name is in scope.
pub fn in_scope_named<S: TreeSink>(sink: &S, state: &State<S::Handle>, name: KnownName) -> bool
    requires { IsSound S.TreeSink sink.now state.now }
    ensures { result ≡ in_scope (is_html_named (name_text name)) is_default_scope (names_of (world_of S.TreeSink sink.now state.now)) }
{
    find_in_scope(sink, state, &Known(name), &ElementSet::DefaultScope).is_some()
}

/// Returns the place of the newest open HTML element of this name, which is the number of older elements, if no special
/// element is newer.
pub fn find_before_special<S: TreeSink>(
    sink: &S,
    state: &State<S::Handle>,
    local: &LocalName,
) -> Option<usize>
    requires { IsSound S.TreeSink sink.now state.now }
    ensures found { is_some result ≡ comes_before_special local.now (names_of (world_of S.TreeSink sink.now state.now)) }
    ensures place { MatchOption result (Unit {0}) (λ place. place ≡ length (cut_through (is_html_named local.now) (names_of (world_of S.TreeSink sink.now state.now)) (world_of S.TreeSink sink.now state.now).stack)) }
{
    let here = newest_named(sink, state, local);
    place_before(here, all_open(sink, state).special as usize)
}
