//! Closes elements before a template ends (HTML standard, section 13.2.6.3, "generate all implied end tags
//! thoroughly").
ghost use Rattle.std.specs.Prelude.{◌≡◌};
ghost use Rattle.h5_builder_spec.specs.Rows.{GenerateImpliedEndThoroughly};
ghost use Rattle.h5_builder_state.specs.Steps.{IsSound, Makes, world_of};
ghost use Rattle.h5_builder_spec.specs.stack.Scope.{drop_while};
ghost use Rattle.h5_tables.specs.TagSets.{is_thorough_implied};
ghost use Rattle.h5_builder_spec.specs.World.{names_of};

use h5_builder_state::{State, pop_while};
use h5_interface::TreeSink;
use h5_tables::ElementSet;

/// Pops elements whose end tags are implied, including those of parts of tables.
pub fn generate_implied_end_thoroughly<S: TreeSink>(sink: &mut S, state: &mut State<S::Handle>)
    requires { IsSound S.TreeSink sink.old state.old }
    ensures made { Makes S.TreeSink GenerateImpliedEndThoroughly sink.old state.old sink.new state.new }
    ensures names { names_of (world_of S.TreeSink sink.new state.new) ≡ drop_while is_thorough_implied (names_of (world_of S.TreeSink sink.old state.old)) }
{
    pop_while(sink, state, &ElementSet::ThoroughImpliedEnd);
}
