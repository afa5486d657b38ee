//! Pages: trees, lines of tokens, and parse errors.
use super::context::context_name;
use super::decoding::HowRead;
use super::errors::PageErrors;
use super::fault::InputFault;
use super::joined_texts::JoinedTexts;
use super::options::InputOpts;
use super::source::{Fed, read_all};
use super::tokens::Written;
use super::tree_errors::FirstErrors;
use html_tree_builder::interface::{TreeSink, create_element};
use html_tree_builder::standard::{Errors, ReportingTokenizer, Tokenizer};
use html_tree_builder::token::BuildFault;
use html_tree_builder::token::states::State;
use html_tree_builder::tree_builder::{TreeBuilder, TreeBuilderOpts};
use html_tree_builder::{
    Arena, BufferQueue, ParseOpts, Parser, QualName, TokenizerOpts, parse_document, parse_fragment,
};
use std::alloc::Global;
use std::io::Read;

// The options of a parser with or without scripting.
fn parse_opts(scripting_enabled: bool) -> ParseOpts {
    let mut opts = ParseOpts::default();
    opts.tree_builder.scripting_enabled = scripting_enabled;
    opts
}

// A parser of a document, or of a fragment in this context.
fn parser_in(
    alloc: Global,
    context: Option<&str>,
    scripting_enabled: bool,
) -> Result<Parser<Arena>, InputFault> {
    let arena = Arena::without_errors(alloc)?;
    let opts = parse_opts(scripting_enabled);
    match context {
        None => Ok(parse_document(alloc, arena, opts)),
        Some(context) => {
            let name = context_name(alloc, context)?;
            let attrs = Vec::new(alloc);
            let parser = parse_fragment(alloc, arena, opts, name, attrs, scripting_enabled)?;
            Ok(parser)
        }
    }
}

/// The tree of a page, or of a fragment in this context, and how it was read. Fails with `Read` if the input can't be read, and with
/// `Memory` if an allocation fails.
pub fn tree_of<R: Read>(
    alloc: Global,
    context: Option<&str>,
    opts: InputOpts,
    input: &mut R,
) -> Result<(Arena, HowRead), InputFault> {
    let mut parser = parser_in(alloc, context, opts.scripting_enabled)?;
    let how = read_all(alloc, opts.encodings, &mut parser, input)?;
    Ok((parser.finish()?, how))
}

// A builder of a fragment in a new element of this name, and the state in which the tokenizer begins.
fn builder_in<Sink: TreeSink + Drop>(
    alloc: Global,
    sink: Sink,
    name: QualName,
    opts: TreeBuilderOpts,
) -> Result<(TreeBuilder<Sink::Handle, Sink>, State), BuildFault> {
    let mut sink = sink;
    let context = create_element(&mut sink, name, Vec::new(alloc))?;
    let builder = TreeBuilder::new_for_fragment(alloc, sink, context, None, opts)?;
    let state = builder.tokenizer_state_for_context_elem(opts.scripting_enabled);
    Ok((builder, state))
}

// A builder of a document, or of a fragment in this context, and the options of its tokenizer.
fn builder_for<Sink: TreeSink + Drop>(
    alloc: Global,
    sink: Sink,
    context: Option<&str>,
    opts: ParseOpts,
) -> Result<(TreeBuilder<Sink::Handle, Sink>, TokenizerOpts), InputFault> {
    match context {
        None => {
            let builder = TreeBuilder::new(alloc, sink, opts.tree_builder);
            Ok((builder, opts.tokenizer))
        }
        Some(context) => {
            let name = context_name(alloc, context)?;
            let (builder, state) = builder_in(alloc, sink, name, opts.tree_builder)?;
            Ok((builder, opts.tokenizer.beginning_in(state)))
        }
    }
}

/// The tokens of a page, or of a fragment in this context, as lines that `h5 tokens` reads, and how the page was read. Fails with `Read`
/// if the input can't be read, and with `Memory` if an allocation fails.
pub fn tokens_of<R: Read>(
    alloc: Global,
    context: Option<&str>,
    opts: InputOpts,
    input: &mut R,
) -> Result<(Vec<u8>, HowRead), InputFault> {
    let arena = Arena::without_errors(alloc)?;
    let parse_opts = parse_opts(opts.scripting_enabled);
    let (builder, begins) = builder_for(alloc, arena, context, parse_opts)?;
    let mut fed = Fed {
        tokenizer: Tokenizer::new(alloc, Written::new(alloc, builder), begins),
        queue: BufferQueue::new(alloc),
    };
    let how = read_all(alloc, opts.encodings, &mut fed, input)?;
    fed.tokenizer.end()?;
    let Fed {
        tokenizer,
        queue: _queue,
    } = fed;
    Ok((tokenizer.sink.text.into_bytes(), how))
}

/// The parse errors of a page, or of a fragment in this context, and how the page was read. At most `limit` errors of tokenization are
/// kept, and as many of tree construction. Fails with `Read` if the input can't be read, and with `Memory` if an allocation fails.
pub fn errors_of<R: Read>(
    alloc: Global,
    context: Option<&str>,
    opts: InputOpts,
    limit: usize,
    input: &mut R,
) -> Result<(PageErrors, HowRead), InputFault> {
    let sink = FirstErrors::new(alloc, Arena::without_errors(alloc)?, limit);
    let mut parse_opts = parse_opts(opts.scripting_enabled);
    // An exact message begins with the name of its error.
    parse_opts.tree_builder.exact_errors = true;
    let (builder, begins) = builder_for(alloc, sink, context, parse_opts)?;
    let errors = Errors::new(alloc, limit);
    let mut fed = Fed {
        tokenizer: ReportingTokenizer::new(alloc, JoinedTexts::new(alloc, builder), errors, begins),
        queue: BufferQueue::new(alloc),
    };
    let how = read_all(alloc, opts.encodings, &mut fed, input)?;
    fed.tokenizer.end()?;
    let Fed {
        tokenizer,
        queue: _queue,
    } = fed;
    let told = tokenizer.errors;
    let joined = tokenizer.sink;
    let sink = joined.sink.into_sink();
    match sink.into_errors() {
        Some((built, count)) => {
            let errors = PageErrors::new(told, built, count);
            if errors.is_cut(limit) {
                return Err(InputFault::Memory);
            }
            Ok((errors, how))
        }
        None => Err(InputFault::Memory),
    }
}
