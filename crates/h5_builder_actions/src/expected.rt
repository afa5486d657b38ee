//! The parse error for an element that was closed and wasn't the current node.
ghost use Rattle.std.specs.Prelude.{◌≡◌, ◌<◌, false, true};
ghost use Rattle.h5_builder_state.specs.Steps.{TellsErrors, errors_of};

use h5_builder_state::{State, report_error};
use h5_interface::TreeSink;
use h5_tables::TreeError;

/// Reports a parse error unless `expected`: an element that was closed was the current node.
pub fn expect_to_close<S: TreeSink>(sink: &mut S, state: &State<S::Handle>, expected: bool)
    ensures told { TellsErrors S.TreeSink sink.old sink.new state.now }
    ensures noted { expected ≡ false → 0 < errors_of S.TreeSink sink.new }
    ensures quiet { expected ≡ true → errors_of S.TreeSink sink.new ≡ errors_of S.TreeSink sink.old }
{
    if !expected {
        report_error(sink, state, TreeError::UnexpectedOpenElement);
    }
}
