//! Tree builders and parsers over an arena, one call of which can fail.
use super::settings::{Context, Maker, Settings};
use h5_arena::{Arena, NodeId};
use h5_driver::{ParseOpts, Parser, parse_document, parse_fragment, parse_fragment_for_element};
use h5_interface::{TreeSink, create_element};
use h5_names::{LocalName, Namespace, QualName, namespaces};
use h5_tables::TreeBuilderOpts;
use h5_tests_sinks::Starved;
use h5_token::BuildFault;
use h5_token::states::State;
use h5_tree_builder::TreeBuilder;
use std::alloc::{AllocError, Global};

/// An arena, one call of which can fail, and which counts the calls of `pop`.
pub type Sink = Starved<Arena>;

pub type Builder = TreeBuilder<NodeId, Sink>;

pub type TextParser = Parser<Sink>;

// An empty sink. Of its calls that may allocate, the one after `before` others fails.
fn new_sink(alloc: Global, before: usize) -> Result<Sink, AllocError> {
    Ok(Starved::new(Arena::new(alloc)?, before))
}

// The name of a context: an HTML name or, after `svg ` or `math `, one of SVG or MathML.
fn context_name(alloc: Global, name: &str) -> Result<QualName, AllocError> {
    let (ns, local) = match name.split_once(' ') {
        Some(("svg", local)) => (namespaces::SVG, local),
        Some(("math", local)) => (namespaces::MATHML, local),
        _ => (namespaces::HTML, name),
    };
    let ns = Namespace::new(alloc, ns)?;
    Ok(QualName::new(None, ns, LocalName::new(alloc, local)?))
}

// A fragment tree builder with a new element of this name as context.
fn builder_in<S: TreeSink + Drop>(
    alloc: Global,
    sink: S,
    name: QualName,
    opts: TreeBuilderOpts,
) -> Result<TreeBuilder<S::Handle, S>, BuildFault> {
    let _document = sink.get_document();
    let mut sink = sink;
    let element = create_element(&mut sink, name, Vec::new(alloc))?;
    TreeBuilder::new_for_fragment(alloc, sink, element, None, opts)
}

// A fragment parser with a new element of this name as context, which the caller makes.
fn parser_in<S: TreeSink + Drop>(
    alloc: Global,
    sink: S,
    name: QualName,
    opts: ParseOpts,
    scripting: bool,
) -> Result<Parser<S>, BuildFault> {
    let _document = sink.get_document();
    let mut sink = sink;
    let element = create_element(&mut sink, name, Vec::new(alloc))?;
    parse_fragment_for_element(alloc, sink, opts, element, scripting, None)
}

/// A tree builder with these settings, over a new sink. Of the sink's calls that may allocate, the one after `before` others fails.
pub fn new_builder(
    alloc: Global,
    settings: &Settings,
    before: usize,
) -> Result<Builder, BuildFault> {
    let opts = settings.tree_builder;
    match &settings.context {
        Some(context) => {
            let name = context_name(alloc, context.name.as_str())?;
            builder_in(alloc, new_sink(alloc, before)?, name, opts)
        }
        None => Ok(TreeBuilder::new(alloc, new_sink(alloc, before)?, opts)),
    }
}

// A fragment parser with this context.
fn new_fragment_parser(
    alloc: Global,
    context: &Context,
    settings: &Settings,
    before: usize,
) -> Result<TextParser, BuildFault> {
    let opts = settings.parse_opts();
    let scripting = settings.scripting();
    let name = context_name(alloc, context.name.as_str())?;
    let sink = new_sink(alloc, before)?;
    match context.maker {
        Maker::Parser => parse_fragment(alloc, sink, opts, name, Vec::new(alloc), scripting),
        Maker::Caller => parser_in(alloc, sink, name, opts, scripting),
    }
}

/// A parser with these settings, over a new sink. Of the sink's calls that may allocate, the one after `before` others fails.
pub fn new_parser(
    alloc: Global,
    settings: &Settings,
    before: usize,
) -> Result<TextParser, BuildFault> {
    match &settings.context {
        Some(context) => new_fragment_parser(alloc, context, settings, before),
        None => {
            let opts = settings.parse_opts();
            Ok(parse_document(alloc, new_sink(alloc, before)?, opts))
        }
    }
}

/// The initial tokenizer state of a fragment, by the context of its tree builder. `None` for a document.
pub fn state_in(builder: &Builder, settings: &Settings) -> Option<State> {
    if builder.is_fragment() {
        Some(builder.tokenizer_state_for_context_elem(settings.scripting()))
    } else {
        None
    }
}
