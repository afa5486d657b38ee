//! A start tag `html`, in any mode after "before html" (HTML standard, section 13.2.6.4.7).
ghost use Rattle.h5_builder_spec.specs.modes.Shared.{in_body_start_html};
ghost use Rattle.h5_builder_state.specs.Steps.{IsOpen};
ghost use Rattle.h5_builder_state.specs.Turn.{TakesTag};

use h5_builder_actions::add_attrs_to_html;
use h5_builder_state::{State, Turn, has_open_template, report_tag};
use h5_interface::TreeSink;
use h5_tables::{ProcessResult, TreeError};
use h5_token::Tag;

/// A start tag `html`: the root gets the attributes that it doesn't have, unless a template is open.
#[cold]
#[tactic(auto, unfolding(h5_builder_spec::specs::modes::Shared::in_body_start_html))]
pub fn in_body_start_html<S: TreeSink>(sink: &mut S, state: &mut State<S::Handle>, tag: Tag) -> Turn
    requires { IsOpen S.TreeSink sink.old state.old }
    ensures { TakesTag S.TreeSink in_body_start_html tag sink.old state.old sink.new state.new result }
{
    report_tag(sink, state, TreeError::SecondHtml, &tag);
    if has_open_template(sink, state) {
        Ok(ProcessResult::Done)
    } else {
        add_attrs_to_html(sink, state, tag.attrs)?;
        Ok(ProcessResult::Done)
    }
}
