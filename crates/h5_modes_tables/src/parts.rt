//! Steps that the modes of tables share: a part of a table is inserted into the newest element that may hold it.
ghost use Rattle.std.specs.Prelude.{◌≡◌};
ghost use Rattle.h5_builder_spec.specs.modes.Tables.{in_table_scope};
ghost use Rattle.h5_builder_spec.specs.Rows.{PopUntilCurrent};
ghost use Rattle.h5_builder_state.specs.Steps.{IsSound, Makes, world_of};
ghost use Rattle.h5_tables.specs.TagSets.{is_table_body_context, is_table_row_context, is_table_scope};

use h5_builder_actions::{find_in_table_scope, pop_until_current};
use h5_builder_state::{NewestTest, State};
use h5_interface::TreeSink;
use h5_tables::ElementSet;

/// Returns true if an element whose name passes is in table scope.
pub(crate) fn has_in_table_scope<S: TreeSink, Is: NewestTest>(
    sink: &S,
    state: &State<S::Handle>,
    is: &Is,
) -> bool
    requires { IsSound S.TreeSink sink.now state.now }
    ensures { result ≡ in_table_scope (Is.holds is.now) (world_of S.TreeSink sink.now state.now) }
{
    find_in_table_scope(sink, state, is).is_some()
}

/// Clears the stack of open elements back to a table context.
pub(crate) fn clear_to_table_context<S: TreeSink>(sink: &S, state: &mut State<S::Handle>)
    requires { IsSound S.TreeSink sink.now state.old }
    ensures { Makes S.TreeSink (PopUntilCurrent is_table_scope) sink.now state.old sink.now state.new }
{
    pop_until_current(sink, state, &ElementSet::TableScope);
}

/// Clears the stack of open elements back to a table body context.
pub(crate) fn clear_to_table_body_context<S: TreeSink>(sink: &S, state: &mut State<S::Handle>)
    requires { IsSound S.TreeSink sink.now state.old }
    ensures { Makes S.TreeSink (PopUntilCurrent is_table_body_context) sink.now state.old sink.now state.new }
{
    pop_until_current(sink, state, &ElementSet::TableBodyContext);
}

/// Clears the stack of open elements back to a table row context.
pub(crate) fn clear_to_table_row_context<S: TreeSink>(sink: &S, state: &mut State<S::Handle>)
    requires { IsSound S.TreeSink sink.now state.old }
    ensures { Makes S.TreeSink (PopUntilCurrent is_table_row_context) sink.now state.old sink.now state.new }
{
    pop_until_current(sink, state, &ElementSet::TableRowContext);
}
