//! Removes elements from the stack and from the list.
ghost use Rattle.std.specs.Prelude.{◌<◌, ℕ, length};
ghost use Rattle.h5_builder_spec.specs.stack.Closing.{close_named};
ghost use Rattle.h5_builder_spec.specs.formatting.Adoption.{older_than};
ghost use Rattle.h5_builder_spec.specs.formatting.FormattingList.{without_entry};
ghost use Rattle.h5_builder_state.specs.Steps.{Becomes, IsSound, world_of};
ghost use Rattle.h5_builder_state.specs.OpenPlaces.{IsOpenAt};
ghost use Rattle.h5_builder_actions.specs.FormattingPlaces.{IsEntryAt};

use super::relisting::drop_entry;
use h5_builder_state::{
    State, find_before_special, generate_implied_end_except, pop_until_named, truncate,
};
use h5_interface::TreeSink;
use h5_names::LocalName;

/// Closes the newest open element of a name, if no special element is newer (HTML standard, section 13.2.6.4.7, "any
/// other end tag").
#[tactic(auto, unfolding(h5_builder_spec::specs::stack::Closing::close_named))]
pub fn close_named<S: TreeSink>(sink: &mut S, state: &mut State<S::Handle>, name: &LocalName)
    requires { IsSound S.TreeSink sink.old state.old }
    ensures { Becomes S.TreeSink (close_named S.choices name.now) sink.old state.old sink.new state.new }
{
    if let Some(place) = find_before_special(sink, state, name) {
        generate_implied_end_except(sink, state, name);
        pop_until_named(sink, state, name, place);
    }
}

/// Removes the entry at a place from the list.
pub fn unlist<S: TreeSink>(sink: &S, state: &mut State<S::Handle>, at: usize)
    requires sound { IsSound S.TreeSink sink.now state.old }
    requires at { at < length (world_of S.TreeSink sink.now state.old).formatting }
    ensures { (n : ℕ) → IsEntryAt n at (world_of S.TreeSink sink.now state.old)
        → Becomes S.TreeSink (λ w. record w { formatting = without_entry n w.formatting }) sink.now state.old sink.now state.new }
{
    drop_entry(sink, state, at);
}

/// Removes the elements from the one at a place on from the stack. The sink isn't notified.
pub fn close_through<S: TreeSink>(sink: &S, state: &mut State<S::Handle>, place: usize)
    requires { IsSound S.TreeSink sink.now state.old }
    ensures { (n : ℕ) → IsOpenAt n place (world_of S.TreeSink sink.now state.old)
        → Becomes S.TreeSink (λ w. record w { stack = older_than n w.stack }) sink.now state.old sink.now state.new }
{
    truncate(sink, state, place);
}
