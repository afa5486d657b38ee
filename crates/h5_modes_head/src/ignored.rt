//! A tag that is ignored.
ghost use Rattle.h5_builder_spec.specs.ByName.{ignored_tag};
ghost use Rattle.h5_builder_state.specs.Steps.{IsSound};
ghost use Rattle.h5_builder_state.specs.Turn.{TakesTag};

use h5_builder_state::{State, Turn, unexpected_tag};
use h5_interface::TreeSink;
use h5_tables::ProcessResult;
use h5_token::Tag;

/// Ignores a tag, with a parse error.
pub fn ignored_tag<S: TreeSink>(sink: &mut S, state: &mut State<S::Handle>, tag: Tag) -> Turn
    requires { IsSound S.TreeSink sink.old state.old }
    ensures { TakesTag S.TreeSink ignored_tag tag sink.old state.old sink.new state.new result }
{
    unexpected_tag(sink, state, &tag);
    Ok(ProcessResult::Done)
}
