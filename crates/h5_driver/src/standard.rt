//! The parser over the standard tokenizer.
ghost use Rattle.std.specs.Prelude.{◌≡◌, [], MatchOption, false, IfErr, IfOk, option_map};
ghost use Rattle.std.specs.Str.{IsUtf8};
ghost use Rattle.h5_names.specs.AttributeText.{attribute_texts};
ghost use Rattle.h5_interface.specs.Forest.{IsElement};
ghost use Rattle.h5_tree_builder.specs.Builder.{first_building};
ghost use Rattle.h5_tree_builder.specs.Fragment.{first_fragment};
ghost use Rattle.h5_tree_builder.specs.Held.{building};
ghost use Rattle.h5_driver.specs.Fragments.{first_in_new, opts_in_context};
ghost use Rattle.h5_driver.specs.StandardReader.{first};

use super::beginning::{builder_in_new, document_builder, fragment_builder};
use super::options::ParseOpts;
use super::parser::parser_over;
use super::reader::Reader;
use super::{bytes, parser};
use h5_interface::TreeSink;
use h5_names::{Attribute, QualName};
use h5_standard_tokenizer::{BufferQueue, Tokenizer, TokenizerOpts, TokenizerResult};
use h5_token::BuildFault;
use h5_tree_builder::TreeBuilder;
use std::alloc::Global;

/// The standard tokenizer over the tree builder over a sink.
pub type StandardReader<Sink> = Tokenizer<TreeBuilder<<Sink as TreeSink>::Handle, Sink>>;

/// A parser over the standard tokenizer.
pub type Parser<Sink> = parser::Parser<StandardReader<Sink>>;

/// A parser of bytes over the standard tokenizer.
pub type Utf8Parser<Sink> = bytes::Utf8Parser<StandardReader<Sink>>;

// For proofs: the waiting text is whole characters.
fn is_whole(queue: &BufferQueue)
    ensures { IsUtf8 queue.now }
{
    let _waiting = queue.as_str().as_bytes();
}

impl<Handle: Drop, Sink: TreeSink<Handle = Handle> + Drop> Reader
    for Tokenizer<TreeBuilder<Handle, Sink>> {
    ghost use Rattle.h5_tree_builder.specs.Held as held;
    ghost use Rattle.h5_standard_tokenizer.specs.ReaderText.{ReaderText};
    ghost use Rattle.h5_driver.specs.StandardReader as reader;
    ghost use Rattle.h5_driver.specs.StandardReaderLaws.{are_readings, texts_stay_here};

    type Sink = Sink;

    ghost Text = { ReaderText };

    ghost text = { λ t. t.reader };

    ghost building = { λ t. held.building Sink.sees Sink.node t.sink };

    ghost first = { reader.first };

    ghost stage = { λ r. r.stage };

    ghost IsRaw = { reader.IsRaw };

    ghost IsInData = { reader.IsInData };

    ghost IsUndecided = { reader.IsUndecided };

    ghost Readings = { reader.Readings Sink.choices };

    ghost Reads = { reader.Reads Sink.choices };

    ghost left = { reader.left };

    ghost lawful = { are_readings Sink.choices };

    ghost texts_stay = { texts_stay_here Sink.choices };

    fn feed(&mut self, input: &mut BufferQueue) -> Result<TokenizerResult<Handle>, BuildFault> {
        is_whole(input);
        Tokenizer::feed(self, input)
    }

    fn end(&mut self) -> Result<(), BuildFault> {
        Tokenizer::end(self)
    }

    #[tactic(auto, unfolding(h5_builder_state::specs::View::world))]
    fn into_sink(self) -> Sink {
        self.sink.into_sink()
    }

    fn report_error(&mut self, message: &str) {
        self.sink.report_error(message);
    }
}

/// Returns a new parser of a document into a sink. Allocates nothing, and leaves the sink as it is.
pub fn parse_document<Sink: TreeSink + Drop>(
    alloc: Global,
    sink: Sink,
    opts: ParseOpts,
) -> Parser<Sink>
    ensures builder { building Sink.sees Sink.node result.tokenizer.sink ≡ first_building (Sink.sees sink) opts.tree_builder }
    ensures sink { result.tokenizer.sink.sink ≡ sink }
    ensures reader { result.tokenizer.reader ≡ first opts.tokenizer }
    ensures waiting { result.waiting ≡ [] }
    ensures failed { result.failed ≡ false }
{
    let builder = document_builder(alloc, sink, opts.tree_builder);
    parser_over(alloc, Tokenizer::new(alloc, builder, opts.tokenizer))
}

/// Returns a new parser of a fragment in this context. The context, and the form element if there is one, must be elements of
/// the sink. The context's name sets the tokenizer's initial state, whatever initial state the options have.
///
/// If an allocation fails, fails with `Memory` and drops the sink.
pub fn parse_fragment_for_element<Sink: TreeSink + Drop>(
    alloc: Global,
    sink: Sink,
    opts: ParseOpts,
    context_element: Sink::Handle,
    context_element_allows_scripting: bool,
    form_element: Option<Sink::Handle>,
) -> Result<Parser<Sink>, BuildFault>
    requires context { IsElement (Sink.sees sink).forest (Sink.node context_element) }
    requires form { MatchOption form_element (Unit {0}) (λ form. IsElement (Sink.sees sink).forest (Sink.node form)) }
    ensures builder { IfOk result (λ parser. building Sink.sees Sink.node parser.tokenizer.sink ≡ first_fragment Sink.choices (Sink.sees sink) (Sink.node context_element) (option_map (λ form. Sink.node form) form_element) opts.tree_builder) }
    ensures reader { IfOk result (λ parser. parser.tokenizer.reader ≡ first (opts_in_context context_element_allows_scripting (building Sink.sees Sink.node parser.tokenizer.sink).view.world opts.tokenizer)) }
    ensures waiting { IfOk result (λ parser. parser.waiting ≡ []) }
    ensures failed { IfOk result (λ parser. parser.failed ≡ false) }
    ensures memory { IfErr result (λ fault. fault ≡ BuildFault.Memory) }
{
    let (builder, opts) = fragment_builder(
        alloc,
        sink,
        opts,
        context_element,
        context_element_allows_scripting,
        form_element,
    )?;
    Ok(parser_over(alloc, Tokenizer::new(alloc, builder, opts)))
}

/// Returns a new parser of a fragment in a context that is created in the sink with this name and these attributes, without a
/// parent. There is no form element. The context's name sets the tokenizer's initial state, whatever initial state the options
/// have.
///
/// If an allocation fails, fails with `Memory` and drops the sink.
pub fn parse_fragment<Sink: TreeSink + Drop>(
    alloc: Global,
    sink: Sink,
    opts: ParseOpts,
    context_name: QualName,
    context_attrs: Vec<Attribute>,
    context_element_allows_scripting: bool,
) -> Result<Parser<Sink>, BuildFault>
    ensures builder { IfOk result (λ parser. building Sink.sees Sink.node parser.tokenizer.sink ≡ first_in_new Sink.choices (Sink.sees sink) context_name (attribute_texts context_attrs.items) opts.tree_builder) }
    ensures reader { IfOk result (λ parser. parser.tokenizer.reader ≡ first (opts_in_context context_element_allows_scripting (building Sink.sees Sink.node parser.tokenizer.sink).view.world opts.tokenizer)) }
    ensures waiting { IfOk result (λ parser. parser.waiting ≡ []) }
    ensures failed { IfOk result (λ parser. parser.failed ≡ false) }
    ensures memory { IfErr result (λ fault. fault ≡ BuildFault.Memory) }
{
    let (builder, opts) = builder_in_new(
        alloc,
        sink,
        opts,
        context_name,
        context_attrs,
        context_element_allows_scripting,
    )?;
    Ok(parser_over(alloc, Tokenizer::new(alloc, builder, opts)))
}
