//! The namespace of the adjusted current node (HTML standard, section 13.2.4.2, "The stack of open
//! elements").
ghost use Rattle.std.specs.Prelude.{◌≡◌};
ghost use Rattle.h5_builder_state.specs.Steps.{IsSound, world_of};
ghost use Rattle.h5_tree_builder.specs.Builder.{is_foreign_in};

use h5_builder_actions::adjusted_current_node;
use h5_builder_state::State;
use h5_interface::TreeSink;

// Returns true if an element is open, and the adjusted current node isn't in the HTML namespace.
#[tactic(auto, unfolding(h5_builder_state::specs::View::world, h5_tables::specs::TagSets::html_namespace))]
pub fn is_current_foreign<S: TreeSink>(sink: &S, state: &State<S::Handle>) -> bool
    requires { IsSound S.TreeSink sink.now state.now }
    ensures { result ≡ is_foreign_in (world_of S.TreeSink sink.now state.now) }
{
    match adjusted_current_node(sink, state) {
        Some(node) => !sink.elem_name(node).ns.is_html(),
        None => false,
    }
}
