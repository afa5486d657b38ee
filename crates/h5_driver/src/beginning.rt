//! The tree builders that parsers begin with.
ghost use Rattle.std.specs.Prelude.{◌≡◌, MatchOption, IfErr, IfOk, option_map};
ghost use Rattle.h5_names.specs.AttributeText.{attribute_texts};
ghost use Rattle.h5_interface.specs.Forest.{IsElement};
ghost use Rattle.h5_tree_builder.specs.Builder.{first_building};
ghost use Rattle.h5_tree_builder.specs.Fragment.{first_fragment};
ghost use Rattle.h5_tree_builder.specs.Held.{building};
ghost use Rattle.h5_driver.specs.Fragments.{first_in_new, opts_in_context};
ghost use Rattle.h5_driver.specs.inner.Working.{Begins};

use super::options::ParseOpts;
use h5_interface::{TreeSink, create_element};
use h5_names::{Attribute, QualName};
use h5_tables::TreeBuilderOpts;
use h5_token::BuildFault;
use h5_tokenizer_input::TokenizerOpts;
use h5_tree_builder::TreeBuilder;
use std::alloc::Global;

/// Returns a new builder of a document.
pub fn document_builder<Sink: TreeSink + Drop>(
    alloc: Global,
    sink: Sink,
    opts: TreeBuilderOpts,
) -> TreeBuilder<Sink::Handle, Sink>
    ensures first { building Sink.sees Sink.node result ≡ first_building (Sink.sees sink) opts }
    ensures sink { result.sink ≡ sink }
    ensures begins { Begins (building Sink.sees Sink.node result).view }
{
    TreeBuilder::new(alloc, sink, opts)
}

/// Returns a new builder of a fragment in this context, and the tokenizer's options with the state that the context sets (HTML
/// standard, section 13.4, "Parsing HTML fragments"). The context and the form, if there is one, must be elements of the sink.
pub fn fragment_builder<Sink: TreeSink + Drop>(
    alloc: Global,
    sink: Sink,
    opts: ParseOpts,
    context_element: Sink::Handle,
    context_element_allows_scripting: bool,
    form_element: Option<Sink::Handle>,
) -> Result<(TreeBuilder<Sink::Handle, Sink>, TokenizerOpts), BuildFault>
    requires context { IsElement (Sink.sees sink).forest (Sink.node context_element) }
    requires form { MatchOption form_element (Unit {0}) (λ form. IsElement (Sink.sees sink).forest (Sink.node form)) }
    ensures first { IfOk result (λ made. building Sink.sees Sink.node made.0 ≡ first_fragment Sink.choices (Sink.sees sink) (Sink.node context_element) (option_map (λ form. Sink.node form) form_element) opts.tree_builder) }
    ensures opts { IfOk result (λ made. made.1 ≡ opts_in_context context_element_allows_scripting (building Sink.sees Sink.node made.0).view.world opts.tokenizer) }
    ensures begins { IfOk result (λ made. Begins (building Sink.sees Sink.node made.0).view) }
    ensures memory { IfErr result (λ fault. fault ≡ BuildFault.Memory) }
{
    let ParseOpts {
        tokenizer,
        tree_builder,
    } = opts;
    let builder = TreeBuilder::new_for_fragment(
        alloc,
        sink,
        context_element,
        form_element,
        tree_builder,
    )?;
    let state = builder.tokenizer_state_for_context_elem(context_element_allows_scripting);
    Ok((builder, tokenizer.beginning_in(state)))
}

/// Returns a new builder of a fragment as `fragment_builder` does, in a context that is created in the sink with this name and
/// these attributes, without a parent. There is no form element.
#[tactic(auto, unfolding(crate::specs::Fragments::first_in_new))]
pub fn builder_in_new<Sink: TreeSink + Drop>(
    alloc: Global,
    sink: Sink,
    opts: ParseOpts,
    context_name: QualName,
    context_attrs: Vec<Attribute>,
    context_element_allows_scripting: bool,
) -> Result<(TreeBuilder<Sink::Handle, Sink>, TokenizerOpts), BuildFault>
    ensures first { IfOk result (λ made. building Sink.sees Sink.node made.0 ≡ first_in_new Sink.choices (Sink.sees sink) context_name (attribute_texts context_attrs.items) opts.tree_builder) }
    ensures opts { IfOk result (λ made. made.1 ≡ opts_in_context context_element_allows_scripting (building Sink.sees Sink.node made.0).view.world opts.tokenizer) }
    ensures begins { IfOk result (λ made. Begins (building Sink.sees Sink.node made.0).view) }
    ensures memory { IfErr result (λ fault. fault ≡ BuildFault.Memory) }
{
    let mut sink = sink;
    let context = create_element(&mut sink, context_name, context_attrs)?;
    fragment_builder(
        alloc,
        sink,
        opts,
        context,
        context_element_allows_scripting,
        None,
    )
}
