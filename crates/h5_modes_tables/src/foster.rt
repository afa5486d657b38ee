//! Foster parenting (HTML standard, section 13.2.6.1).
ghost use Rattle.h5_tables.specs.TurnText.{HasText, turn_text};
ghost use Rattle.h5_builder_spec.specs.modes.InBody.{in_body};
ghost use Rattle.h5_builder_spec.specs.inner.Kept.{HasHtmlRoot};
ghost use Rattle.h5_builder_spec.specs.modes.Tables.{foster};
ghost use Rattle.h5_builder_state.specs.Steps.{IsSound, world_of};
ghost use Rattle.h5_builder_state.specs.Turn.{TakesToken};

use h5_builder_state::{State, Turn, report_token, set_foster};
use h5_interface::TreeSink;
use h5_modes_body::step_in_body;
use h5_tables::{Token, TreeError};

/// Handles a token that doesn't belong in a table by the rules of "in body" with foster parenting on: nodes that would
/// go into the table go before it.
pub(crate) fn foster_parent_in_body<S: TreeSink>(
    sink: &mut S,
    state: &mut State<S::Handle>,
    token: Token,
) -> Turn
    requires sound { IsSound S.TreeSink sink.old state.old }
    requires ready { HasHtmlRoot (world_of S.TreeSink sink.old state.old) }
    requires text { HasText (turn_text token) }
    ensures { TakesToken S.TreeSink (foster in_body) token sink.old state.old sink.new state.new result }
{
    report_token(sink, state, TreeError::in_table(&token), &token);
    set_foster(sink, state, true);
    let turn = step_in_body(sink, state, token);
    set_foster(sink, state, false);
    turn
}
