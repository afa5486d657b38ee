//! Buttons in the body (HTML standard, section 13.2.6.4.7).
ghost use Rattle.std.specs.Prelude.{◌≡◌};
ghost use Rattle.h5_builder_spec.specs.modes.InBody.{in_body_start_button};
ghost use Rattle.h5_builder_state.specs.Steps.{IsSound};
ghost use Rattle.h5_builder_state.specs.Turn.{TakesTag};

use super::opens::open_control;
use h5_builder_actions::{find_in_default_scope, generate_implied_end_tags};
use h5_builder_state::{State, Turn, pop_until_named, report_error};
use h5_interface::TreeSink;
use h5_names::{KnownName, LocalName};
use h5_tables::{ProcessResult, TreeError};
use h5_token::Tag;

/// A start tag `button`: a `button` in scope is closed.
#[tactic(auto, unfolding(h5_builder_spec::specs::modes::InBody::in_body_start_button))]
pub fn in_body_start_button<S: TreeSink>(
    sink: &mut S,
    state: &mut State<S::Handle>,
    tag: Tag,
) -> Turn
    requires { IsSound S.TreeSink sink.old state.old }
    ensures { TakesTag S.TreeSink in_body_start_button tag sink.old state.old sink.new state.new result }
{
    let button = LocalName::from_known(KnownName::Button);
    match find_in_default_scope(sink, state, &button) {
        Some(place) => {
            report_error(sink, state, TreeError::NestedButtons);
            generate_implied_end_tags(sink, state);
            pop_until_named(sink, state, &button, place);
            open_control(sink, state, tag)?;
            Ok(ProcessResult::Done)
        }
        None => {
            open_control(sink, state, tag)?;
            Ok(ProcessResult::Done)
        }
    }
}
