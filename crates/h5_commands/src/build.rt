//! The output of each command.
ghost use Rattle.std.specs.Prelude.{◌≡◌, ◌++◌, [], true, Err, IfErr, IfOk, OnOk, string_bytes};
ghost use Rattle.h5_arena.specs.ArenaModel.{arena_choices, new_arena, place, seen_of};
ghost use Rattle.h5_driver.specs.Fragments.{first_in_new, opts_in_context};
ghost use Rattle.h5_driver.specs.Options.{default_options};
ghost use Rattle.h5_driver.specs.PlainReader.{first};
ghost use Rattle.h5_print.specs.Items.{item_texts};
ghost use Rattle.h5_builder_spec.specs.Run.{after_all, replies as replies_to};
ghost use Rattle.h5_print.specs.Replies.{reply_line};
ghost use Rattle.h5_tree_builder.specs.Builder.{ended_view};
ghost use Rattle.h5_tree_builder.specs.Held.{building};
ghost use Rattle.h5_tree_builder.specs.Replies.{reply_text, reply_texts, token_texts};
ghost use Rattle.h5_commands.specs.Printed.{FragmentPrints, HtmlPrints, IsParsed, IsParsedIn, IsTreeOutput, ItemsPrint, TreePrints, after_items, html_name, html_of, replies_to_items, reply_lines};

use super::fault::Fault;
use h5_arena::laws::no_call_lacks_a_parent;
use h5_arena::{Arena, NodeId};
use h5_driver::{ParseOpts, Parser, parse_document, parse_fragment};
use h5_names::{LocalName, Namespace, QualName};
use h5_print::{Item, print_answer, print_quirks, print_refusal, print_tree};
use h5_serialize::{SerializeFault, SerializeOpts, serialize};
use h5_tables::TreeBuilderOpts;
use h5_token::{BuildFault, Token};
use h5_tree_builder::{Reply, TreeBuilder};
use std::alloc::Global;
use std::mem;

type Builder = TreeBuilder<NodeId, Arena>;

// The error of a list of tokens is a failed allocation.
fn fault_of_build(_fault: BuildFault) -> Fault
    ensures { result ≡ Fault.Memory }
{
    Fault::Memory
}

// Passes tokens to the tree builder, and stores its replies.
fn take_tokens(
    builder: &mut Builder,
    tokens: Vec<(Token, u64)>,
    replies: &mut Vec<Reply<NodeId>>,
) -> Result<(), Fault>
    ensures view { OnOk result ((building seen_of place builder.new).view
        ≡ after_all arena_choices (token_texts tokens.items) (building seen_of place builder.old).view) }
    ensures told { OnOk result (reply_texts place replies.new.items
        ≡ reply_texts place replies.old.items ++ replies_to arena_choices (token_texts tokens.items) (building seen_of place builder.old).view) }
    ensures memory { IfErr result (λ fault. fault ≡ Fault.Memory) }
{
    let mut more = builder.process_all(tokens).map_err(fault_of_build)?;
    replies.append(&mut more)?;
    Ok(())
}

// Passes the items in turn, and then the end.
fn take_items(
    alloc: Global,
    builder: &mut Builder,
    items: Vec<Item>,
) -> Result<Vec<Reply<NodeId>>, Fault>
    ensures view { OnOk result ((building seen_of place builder.new).view
        ≡ ended_view arena_choices (after_items (item_texts items.items) (building seen_of place builder.old).view)) }
    ensures told { IfOk result (λ rs. reply_texts place rs.items
        ≡ replies_to_items (item_texts items.items) (building seen_of place builder.old).view) }
    ensures memory { IfErr result (λ fault. fault ≡ Fault.Memory) }
{
    let mut replies = Vec::new(alloc);
    let mut tokens = Vec::new(alloc);
    'items: for item in items {
        match item {
            Item::Token(token, line) => tokens.push((token, line))?,
            Item::End => {
                let before = mem::replace(&mut tokens, Vec::new(alloc));
                take_tokens(builder, before, &mut replies)?;
                builder.end();
            }
        }
    }
    take_tokens(builder, tokens, &mut replies)?;
    builder.end();
    Ok(replies)
}

// Appends the line of the reply to the token with this number, if it has one.
fn print_reply(out: &mut String, number: u64, reply: &Reply<NodeId>) -> Result<(), Fault>
    ensures line { OnOk result (string_bytes out.new
        ≡ string_bytes out.old ++ reply_line number (reply_text place reply.now)) }
    ensures memory { IfErr result (λ fault. fault ≡ Fault.Memory) }
{
    match reply {
        Reply::Answer(answer) => {
            print_answer(out, number, answer)?;
            Ok(())
        }
        Reply::Refused(fault) => {
            print_refusal(out, number, *fault)?;
            Ok(())
        }
    }
}

// Appends the lines of the replies other than "continue", each with the number of its token, from 1.
fn print_replies(out: &mut String, replies: &[Reply<NodeId>]) -> Result<(), Fault>
    ensures lines { OnOk result (string_bytes out.new
        ≡ string_bytes out.old ++ reply_lines 1 (reply_texts place replies.now)) }
    ensures memory { IfErr result (λ fault. fault ≡ Fault.Memory) }
{
    let mut left = replies;
    'replies: while let Some((reply, rest)) = left.split_first() {
        let number = (replies.len() - rest.len()) as u64;
        print_reply(out, number, reply)?;
        left = rest;
    }
    Ok(())
}

// The text of a tree, and its quirks mode.
fn print_arena(alloc: Global, arena: &Arena) -> Result<String, Fault>
    ensures tree { IfOk result (λ text. IsTreeOutput arena.now (string_bytes text)) }
    ensures memory { IfErr result (λ fault. fault ≡ Fault.Memory) }
{
    let mut out = print_tree(alloc, arena)?;
    print_quirks(&mut out, arena.quirks())?;
    Ok(out)
}

/// Returns the output of these items: the tree, the quirks mode, and the replies other than "continue". Fails with `Memory` if an
/// allocation fails.
pub fn build(alloc: Global, items: Vec<Item>) -> Result<Vec<u8>, Fault>
    ensures prints { IfOk result (λ output. ItemsPrint (item_texts items.items) output.items) }
    ensures memory { IfErr result (λ fault. fault ≡ Fault.Memory) }
{
    let arena = Arena::without_errors(alloc)?;
    let mut builder = TreeBuilder::new(alloc, arena, TreeBuilderOpts::default());
    let replies = take_items(alloc, &mut builder, items)?;
    let mut out = print_arena(alloc, &builder.sink)?;
    print_replies(&mut out, replies.as_slice())?;
    Ok(out.into_bytes())
}

// The tree of a text.
fn parse(alloc: Global, text: &str) -> Result<Arena, Fault>
    ensures parsed { IfOk result (λ arena. IsParsed text.now arena) }
    ensures memory { IfErr result (λ fault. fault ≡ Fault.Memory) }
{
    let parser = parse_document(alloc, Arena::without_errors(alloc)?, ParseOpts::default());
    parser.one(text).map_err(fault_of_build)
}

// A fragment parser with an HTML element of this name as context, without attributes, and with scripting.
fn parser_in(alloc: Global, context: &str) -> Result<Parser<Arena>, Fault>
    ensures builder { IfOk result (λ parser. building seen_of place parser.tokenizer.sink ≡ first_in_new arena_choices (seen_of new_arena) (html_name context.now) [] default_options.tree_builder) }
    ensures reader { IfOk result (λ parser. parser.tokenizer.reader ≡ first (opts_in_context true (building seen_of place parser.tokenizer.sink).view.world default_options.tokenizer)) }
    ensures waiting { IfOk result (λ parser. parser.waiting ≡ []) }
    ensures memory { IfErr result (λ fault. fault ≡ Fault.Memory) }
{
    let name = QualName::new(None, Namespace::html(), LocalName::new(alloc, context)?);
    let arena = Arena::without_errors(alloc)?;
    let opts = ParseOpts::default();
    let parser = parse_fragment(alloc, arena, opts, name, Vec::new(alloc), true).map_err(
        fault_of_build,
    )?;
    Ok(parser)
}

// The tree of a text as a fragment, with an HTML element of this name as context, and with scripting.
fn parse_in(alloc: Global, context: &str, text: &str) -> Result<Arena, Fault>
    ensures parsed { IfOk result (λ arena. IsParsedIn context.now text.now arena) }
    ensures memory { IfErr result (λ fault. fault ≡ Fault.Memory) }
{
    let parser = parser_in(alloc, context)?;
    let tree = parser.one(text).map_err(fault_of_build)?;
    Ok(tree)
}

/// Returns the output of a text: the tree, and the quirks mode. Fails with `Memory` if an allocation fails.
pub fn tree_output(alloc: Global, text: String) -> Result<Vec<u8>, Fault>
    ensures prints { IfOk result (λ output. TreePrints (string_bytes text) output.items) }
    ensures memory { IfErr result (λ fault. fault ≡ Fault.Memory) }
{
    let arena = parse(alloc, text.as_str())?;
    let out = print_arena(alloc, &arena)?;
    Ok(out.into_bytes())
}

/// Returns the output of a text as a fragment, with an HTML element of this name as context, without attributes, and with scripting: the
/// tree, and the quirks mode. Fails with `Memory` if an allocation fails.
pub fn fragment_output(alloc: Global, context: &str, text: String) -> Result<Vec<u8>, Fault>
    ensures prints { IfOk result (λ output. FragmentPrints context.now (string_bytes text) output.items) }
    ensures memory { IfErr result (λ fault. fault ≡ Fault.Memory) }
{
    let arena = parse_in(alloc, context, text.as_str())?;
    let out = print_arena(alloc, &arena)?;
    Ok(out.into_bytes())
}

// The HTML of a tree, in the memory of these bytes, which are dropped. Fails only if an allocation fails, since the writer is also memory.
fn write_html(alloc: Global, arena: &Arena, room: Vec<u8>) -> Result<Vec<u8>, Fault>
    ensures html { IfOk result (λ output. output.items ≡ html_of arena.now) }
    ensures memory { IfErr result (λ fault. fault ≡ Fault.Memory) }
{
    let mut writer = room;
    writer.clear();
    let node = arena.at(arena.document());
    let opts = SerializeOpts::default();
    match serialize(alloc, writer, &node, opts) {
        Ok(written) => Ok(written),
        Err(SerializeFault::Memory) => Err(Fault::Memory),
        Err(SerializeFault::Write) => Err(Fault::Memory),
        Err(SerializeFault::NoParent) => {
            no_call_lacks_a_parent();
            unreachable!()
        }
        Err(SerializeFault::Failed) => unreachable!(),
    }
}

/// Returns the HTML of a text's tree, with the default options. Fails with `Memory` if an allocation fails. The output is written to the
/// memory of the text. The memory of the tree isn't freed node by node: it is freed with the process.
pub fn html_output(alloc: Global, text: String) -> Result<Vec<u8>, Fault>
    ensures prints { IfOk result (λ output. HtmlPrints (string_bytes text) output.items) }
    ensures memory { IfErr result (λ fault. fault ≡ Fault.Memory) }
{
    let arena = parse(alloc, text.as_str())?;
    let output = write_html(alloc, &arena, text.into_bytes())?;
    mem::forget(arena);
    Ok(output)
}
