//! Tests of the open elements for the modes of tables, and ways to close them (HTML standard, sections 13.2.6.4.9 to
//! 13.2.6.4.15).
ghost use Rattle.std.specs.Prelude.{◌≡◌, MatchOption, is_some, length};
ghost use Rattle.h5_tables.specs.TagSets.{is_cell, is_table_outer, is_table_scope};
ghost use Rattle.h5_builder_spec.specs.stack.Scope.{cut_above, cut_through, first_passes, in_scope};
ghost use Rattle.h5_builder_spec.specs.Rows.{PopUntilCell, PopUntilCurrent};
ghost use Rattle.h5_builder_spec.specs.World.{names_of};
ghost use Rattle.h5_builder_state.specs.Steps.{IsSound, Makes, world_of};

use h5_builder_state::{NewestTest, State, find_in_scope, is_current, truncate};
use h5_interface::TreeSink;
use h5_tables::ElementSet;

/// Returns the place of the newest open element whose name passes, which is the number of older elements, if it is in
/// table scope.
pub fn find_in_table_scope<S: TreeSink, Is: NewestTest>(
    sink: &S,
    state: &State<S::Handle>,
    is: &Is,
) -> Option<usize>
    requires { IsSound S.TreeSink sink.now state.now }
    ensures found { is_some result ≡ in_scope (Is.holds is.now) is_table_scope (names_of (world_of S.TreeSink sink.now state.now)) }
    ensures place { MatchOption result (Unit {0}) (λ place. place ≡ length (cut_through (Is.holds is.now) (names_of (world_of S.TreeSink sink.now state.now)) (world_of S.TreeSink sink.now state.now).stack)) }
{
    find_in_scope(sink, state, is, &ElementSet::TableScope)
}

/// Returns true if the current node is a part of a table, so that text in it is buffered.
pub fn is_current_table_outer<S: TreeSink>(sink: &S, state: &State<S::Handle>) -> bool
    requires { IsSound S.TreeSink sink.now state.now }
    ensures { result ≡ first_passes is_table_outer (names_of (world_of S.TreeSink sink.now state.now)) }
{
    is_current(sink, state, &ElementSet::TableOuter)
}

// The number of elements that stay open if all that are newer than the newest one whose name passes are removed.
#[inline(always)]
fn count_down_to<S: TreeSink, Is: NewestTest>(sink: &S, state: &State<S::Handle>, is: &Is) -> usize
    requires { IsSound S.TreeSink sink.now state.now }
    ensures { result ≡ length (cut_above (Is.holds is.now) (names_of (world_of S.TreeSink sink.now state.now)) (world_of S.TreeSink sink.now state.now).stack) }
{
    is.newest(sink, state)
}

/// Clears the stack back to a context: removes elements until the name of the current node passes, or none is open. The
/// sink isn't notified.
#[inline(always)]
pub fn pop_until_current<S: TreeSink, Is: NewestTest>(
    sink: &S,
    state: &mut State<S::Handle>,
    is: &Is,
)
    requires { IsSound S.TreeSink sink.now state.old }
    ensures { Makes S.TreeSink (PopUntilCurrent (Is.holds is.now)) sink.now state.old sink.now state.new }
{
    let count = count_down_to(sink, state, is);
    truncate(sink, state, count);
}

/// Removes elements from the stack up to and including the newest cell, which must be at this place. The sink isn't
/// notified.
pub fn pop_until_cell<S: TreeSink>(sink: &S, state: &mut State<S::Handle>, place: usize)
    requires sound { IsSound S.TreeSink sink.now state.old }
    requires place { place ≡ length (cut_through is_cell (names_of (world_of S.TreeSink sink.now state.old)) (world_of S.TreeSink sink.now state.old).stack) }
    ensures { Makes S.TreeSink PopUntilCell sink.now state.old sink.now state.new }
{
    truncate(sink, state, place);
}

/// Returns true if the current node is a cell.
pub fn is_current_cell<S: TreeSink>(sink: &S, state: &State<S::Handle>) -> bool
    requires { IsSound S.TreeSink sink.now state.now }
    ensures { result ≡ first_passes is_cell (names_of (world_of S.TreeSink sink.now state.now)) }
{
    is_current(sink, state, &ElementSet::TdTh)
}

/// Returns the place of the newest open cell, which is the number of older elements, or 0 if none is open.
pub fn find_cell<S: TreeSink>(sink: &S, state: &State<S::Handle>) -> usize
    requires { IsSound S.TreeSink sink.now state.now }
    ensures { result ≡ length (cut_through is_cell (names_of (world_of S.TreeSink sink.now state.now)) (world_of S.TreeSink sink.now state.now).stack) }
{
    ElementSet::TdTh.newest(sink, state).saturating_sub(1)
}
