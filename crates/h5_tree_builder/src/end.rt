//! The end (HTML standard, section 13.2.7, "The end": all the nodes are popped off the stack of open elements).
ghost use Rattle.std.specs.Prelude.{◌≡◌, ◌==◌, [], length, not};
ghost use Rattle.h5_builder_state.specs.Steps.{IsSound, errors_of, world_of};
ghost use Rattle.h5_tree_builder.specs.Builder.{all_popped};

use h5_builder_state::{State, pop};
use h5_interface::TreeSink;

#[tactic(auto, using(crate::proofs::EndLaws::seen_length))]
fn is_any_open<S: TreeSink>(sink: &S, state: &State<S::Handle>) -> bool
    ensures { result ≡ not (length (world_of S.TreeSink sink.now state.now).stack == 0) }
{
    !state.open_elems.elements.is_empty()
}

// Pops all open elements, from the current node on.
pub fn pop_all<S: TreeSink>(sink: &mut S, state: &mut State<S::Handle>)
    requires sound { IsSound S.TreeSink sink.old state.old }
    ensures done { world_of S.TreeSink sink.new state.new ≡ all_popped S.choices (world_of S.TreeSink sink.old state.old) }
    ensures none { (world_of S.TreeSink sink.new state.new).stack ≡ [] }
    ensures still { (world_of S.TreeSink sink.old state.old).stack ≡ [] → (sink.new ≡ sink.old) × (state.new ≡ state.old) }
    ensures quiet { errors_of S.TreeSink sink.new ≡ errors_of S.TreeSink sink.old }
    ensures sound { IsSound S.TreeSink sink.new state.new }
{
    'elements: while is_any_open(sink, state) {
        pop(sink, state);
    }
}
