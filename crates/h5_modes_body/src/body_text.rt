//! A text in the body (HTML standard, section 13.2.6.4.7).
ghost use Rattle.std.specs.Prelude.{◌≢◌, [], string_bytes};
ghost use Rattle.h5_tables.specs.TurnText.{TextTurn};
ghost use Rattle.h5_builder_spec.specs.modes.Shared.{in_body_text};
ghost use Rattle.h5_builder_state.specs.Steps.{IsSound};
ghost use Rattle.h5_builder_state.specs.Turn.{FollowsRule};

use h5_builder_actions::{append_text, reconstruct_active_formatting_elements};
use h5_builder_state::{State, Turn, set_frameset_ok_by_text};
use h5_interface::TreeSink;
use h5_tables::{ProcessResult, SplitStatus};

/// A text: active formatting elements are reconstructed, the text is inserted, and the frameset-ok flag is set to "not
/// ok" if the text isn't all whitespace.
pub fn in_body_text<S: TreeSink>(
    sink: &mut S,
    state: &mut State<S::Handle>,
    status: SplitStatus,
    text: String,
) -> Turn
    requires sound { IsSound S.TreeSink sink.old state.old }
    requires text { string_bytes text ≢ [] }
    ensures { FollowsRule S.TreeSink (in_body_text (string_bytes text)) (TextTurn status (string_bytes text)) sink.old state.old sink.new state.new result }
{
    let _ = status;
    reconstruct_active_formatting_elements(sink, state)?;
    set_frameset_ok_by_text(sink, state, text.as_str());
    append_text(sink, state, text)?;
    Ok(ProcessResult::Done)
}
