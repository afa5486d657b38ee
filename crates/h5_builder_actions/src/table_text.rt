//! The buffered text of a table (HTML standard, section 13.2.6.4.10, "In table text").
ghost use Rattle.std.specs.Prelude.{◌≡◌, string_bytes};
ghost use Rattle.h5_builder_spec.specs.Rows.{AppendPendingText, TakePendingText};
ghost use Rattle.h5_builder_state.specs.Steps.{IsSound, Makes, MakesIfOk, world_of};

use h5_builder_state::{PendingText, State};
use h5_interface::TreeSink;
use std::alloc::AllocError;

/// Appends a text to the buffered text. Fails with `AllocError` if an allocation fails.
#[tactic(auto, unfolding(h5_builder_state::specs::View::world, h5_builder_spec::specs::Changes::append_pending_text, h5_builder_spec::specs::World::names_of))]
pub fn append_pending_text<S: TreeSink>(
    sink: &S,
    state: &mut State<S::Handle>,
    text: String,
) -> Result<(), AllocError>
    requires { IsSound S.TreeSink sink.now state.old }
    ensures { MakesIfOk S.TreeSink (AppendPendingText (string_bytes text)) sink.now state.old sink.now state.new result }
{
    state.pending_table_text.append(text)
}

/// Removes and returns all buffered text.
#[tactic(auto, unfolding(h5_builder_state::specs::View::world, h5_builder_spec::specs::World::names_of))]
pub fn take_pending_text<S: TreeSink>(sink: &S, state: &mut State<S::Handle>) -> PendingText
    requires { IsSound S.TreeSink sink.now state.old }
    ensures made { Makes S.TreeSink TakePendingText sink.now state.old sink.now state.new }
    ensures text { result ≡ (world_of S.TreeSink sink.now state.old).pending }
{
    state.pending_table_text.take(state.alloc)
}
