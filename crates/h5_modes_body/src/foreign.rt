//! Elements of MathML and SVG in the body (HTML standard, section 13.2.6.4.7, start tags "math" and "svg").
ghost use Rattle.h5_tables.specs.TagSets.{mathml_namespace, svg_namespace};
ghost use Rattle.h5_builder_spec.specs.modes.InBody.{in_body_start_foreign};
ghost use Rattle.h5_builder_state.specs.Steps.{IsSound};
ghost use Rattle.h5_builder_state.specs.Turn.{TakesTag};

use h5_builder_actions::{insert_foreign_for, reconstruct_active_formatting_elements};
use h5_builder_state::{State, Turn};
use h5_interface::TreeSink;
use h5_names::{Namespace, namespaces};
use h5_token::Tag;

// An element in a namespace, after active formatting elements are reconstructed.
fn in_body_start_foreign<S: TreeSink>(
    sink: &mut S,
    state: &mut State<S::Handle>,
    namespace: Namespace,
    tag: Tag,
) -> Turn
    requires { IsSound S.TreeSink sink.old state.old }
    ensures { TakesTag S.TreeSink (in_body_start_foreign namespace) tag sink.old state.old sink.new state.new result }
{
    reconstruct_active_formatting_elements(sink, state)?;
    insert_foreign_for(sink, state, namespace, tag)
}

// A start tag `math`.
#[tactic(auto, unfolding(h5_tables::specs::TagSets::mathml_namespace))]
pub(crate) fn in_body_start_math<S: TreeSink>(
    sink: &mut S,
    state: &mut State<S::Handle>,
    tag: Tag,
) -> Turn
    requires { IsSound S.TreeSink sink.old state.old }
    ensures { TakesTag S.TreeSink (in_body_start_foreign mathml_namespace) tag sink.old state.old sink.new state.new result }
{
    let namespace = Namespace::new(state.alloc, namespaces::MATHML)?;
    in_body_start_foreign(sink, state, namespace, tag)
}

// A start tag `svg`.
#[tactic(auto, unfolding(h5_tables::specs::TagSets::svg_namespace))]
pub(crate) fn in_body_start_svg<S: TreeSink>(
    sink: &mut S,
    state: &mut State<S::Handle>,
    tag: Tag,
) -> Turn
    requires { IsSound S.TreeSink sink.old state.old }
    ensures { TakesTag S.TreeSink (in_body_start_foreign svg_namespace) tag sink.old state.old sink.new state.new result }
{
    let namespace = Namespace::new(state.alloc, namespaces::SVG)?;
    in_body_start_foreign(sink, state, namespace, tag)
}
