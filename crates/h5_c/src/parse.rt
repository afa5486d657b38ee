//! Parsing: bytes become a block.
ghost use Rattle.std.specs.Prelude.{◌≡◌, ◌≢◌, ◌≤◌, ℕ, [], IfOk, List, None, Some, false, option_map, true};
ghost use Rattle.std.specs.Str.{IsUtf8};
ghost use Rattle.html_tree_builder.specs.ArenaModel.{arena_choices, new_arena, place, seen_of};
ghost use Rattle.html_tree_builder.specs.Fragments.{first_in_new, opts_in_context};
ghost use Rattle.html_tree_builder.specs.Held.{building};
ghost use Rattle.html_tree_builder.specs.StandardReader.{first};
ghost use Rattle.h5_c.specs.Pages.{IsBlockOfFragment, IsBlockOfPage, IsFragmentTree, IsTree, context_name, context_url, is_scripting, is_srcdoc, options_of};
ghost use Rattle.h5_c.specs.Status.{HandsOutSuch};

use super::status::{BAD_ARGUMENT, give};
use h5_tree_block::{columns_of_document, columns_of_fragment};
use html_tree_builder::token::BuildFault;
use html_tree_builder::{
    Arena, LocalName, Namespace, ParseOpts, Parser, QualName, namespaces, parse_document,
    parse_fragment,
};
use std::alloc::{AllocError, Global};

// The first bit: scripting is on, so the content of `noscript` is one text.
pub(crate) fn is_scripting(options: u32) -> bool
    ensures { result ≡ is_scripting options }
{
    options % 2 == 1
}

// The second bit: the page is the `srcdoc` of an `iframe`.
fn is_srcdoc(options: u32) -> bool
    ensures { result ≡ is_srcdoc options }
{
    options / 2 % 2 == 1
}

pub(crate) fn opts_of(options: u32) -> ParseOpts
    ensures { result ≡ options_of options }
{
    let mut opts = ParseOpts::default();
    opts.tree_builder.scripting_enabled = is_scripting(options);
    opts.tree_builder.iframe_srcdoc = is_srcdoc(options);
    opts
}

// A parser that hasn't failed has no other error.
pub(crate) fn refused(_fault: BuildFault) -> AllocError
    requires { _fault ≡ BuildFault.Memory }
{
    AllocError
}

/// The tree of a page.
pub(crate) fn tree_of(alloc: Global, page: &[u8], options: u32) -> Result<Arena, AllocError>
    ensures { IfOk result (λ arena. IsTree options page.now arena) }
{
    let parser = parse_document(alloc, Arena::without_errors(alloc)?, opts_of(options));
    match parser.from_utf8().one(page) {
        Ok(arena) => Ok(arena),
        Err(fault) => Err(refused(fault)),
    }
}

fn block_of(alloc: Global, page: &[u8], options: u32) -> Result<Vec<u8>, AllocError>
    ensures { IfOk result (λ block. IsBlockOfPage options page.now block.items) }
{
    let arena = tree_of(alloc, page, options)?;
    let columns = columns_of_document(alloc, &arena, is_scripting(options))?;
    drop(arena);
    let block = columns.pack(alloc)?;
    Ok(block)
}

// The namespace with a number.
fn context_url(ns: u32) -> Option<&'static str>
    ensures { option_map (λ url. url.now) result ≡ context_url ns }
{
    match ns {
        1 => Some(namespaces::HTML),
        2 => Some(namespaces::MATHML),
        3 => Some(namespaces::SVG),
        _ => None,
    }
}

fn context_of(alloc: Global, local: &str, url: &str) -> Result<QualName, AllocError>
    ensures { IfOk result (λ name. name ≡ context_name local.now url.now) }
{
    let ns = Namespace::new(alloc, url)?;
    Ok(QualName::new(None, ns, LocalName::new(alloc, local)?))
}

// A parser of a fragment in this context.
fn parser_in(alloc: Global, context: QualName, options: u32) -> Result<Parser<Arena>, AllocError>
    ensures builder { IfOk result (λ parser. building seen_of place parser.tokenizer.sink ≡ first_in_new arena_choices (seen_of new_arena) context [] (options_of options).tree_builder) }
    ensures reader { IfOk result (λ parser. parser.tokenizer.reader ≡ first (opts_in_context (is_scripting options) (building seen_of place parser.tokenizer.sink).view.world (options_of options).tokenizer)) }
    ensures waiting { IfOk result (λ parser. parser.waiting ≡ []) }
    ensures failed { IfOk result (λ parser. parser.failed ≡ false) }
{
    let arena = Arena::without_errors(alloc)?;
    let opts = opts_of(options);
    let attrs = Vec::new(alloc);
    let scripting = is_scripting(options);
    match parse_fragment(alloc, arena, opts, context, attrs, scripting) {
        Ok(parser) => Ok(parser),
        Err(fault) => Err(refused(fault)),
    }
}

fn fragment_of(
    alloc: Global,
    page: &[u8],
    context: QualName,
    options: u32,
) -> Result<Arena, AllocError>
    ensures { IfOk result (λ arena. IsFragmentTree options page.now context arena) }
{
    let parser = parser_in(alloc, context, options)?;
    match parser.from_utf8().one(page) {
        Ok(arena) => Ok(arena),
        Err(fault) => Err(refused(fault)),
    }
}

fn fragment_block_of(
    alloc: Global,
    page: &[u8],
    local: &str,
    url: &str,
    options: u32,
) -> Result<Vec<u8>, AllocError>
    ensures { IfOk result (λ block. IsBlockOfFragment options page.now (context_name local.now url.now) block.items) }
{
    let context = context_of(alloc, local, url)?;
    let arena = fragment_of(alloc, page, context, options)?;
    let columns = columns_of_fragment(alloc, &arena, is_scripting(options))?;
    drop(arena);
    let block = columns.pack(alloc)?;
    Ok(block)
}

/// The tree of a page, as a block.
#[unsafe(no_mangle)]
pub extern "C" fn hengaruto_parse(
    alloc: Global,
    page: &[u8],
    options: u32,
    block: &mut *mut u8,
    length: &mut usize,
) -> u32
    ensures parsed { HandsOutSuch (IsBlockOfPage options page.now) result length.new }
    ensures kept { result ≢ 0 → length.new ≡ length.old }
{
    give(block_of(alloc, page, options), block, length)
}

/// The tree of a fragment, parsed in an element with this name and namespace, as a block.
#[unsafe(no_mangle)]
pub extern "C" fn hengaruto_parse_fragment(
    alloc: Global,
    page: &[u8],
    context: &[u8],
    context_namespace: u32,
    options: u32,
    block: &mut *mut u8,
    length: &mut usize,
) -> u32
    ensures no_text { ¬ (IsUtf8 context.now) → result ≡ 4 }
    ensures no_namespace { context_url context_namespace ≡ None → result ≡ 4 }
    ensures parsed { IsUtf8 context.now → (url : List ℕ) → context_url context_namespace ≡ Some url
        → HandsOutSuch (IsBlockOfFragment options page.now (context_name context.now url)) result length.new }
    ensures kept { result ≢ 0 → length.new ≡ length.old }
{
    let (Ok(local), Some(url)) = (std::str::from_utf8(context), context_url(context_namespace))
    else {
        return BAD_ARGUMENT;
    };
    give(
        fragment_block_of(alloc, page, local, url, options),
        block,
        length,
    )
}
