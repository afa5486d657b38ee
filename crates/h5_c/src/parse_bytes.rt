//! Parsing bytes in the encoding of their page: they become a block.
ghost use Rattle.std.specs.Prelude.{◌≡◌, ◌≢◌, IfOk, false, string_bytes, true};
ghost use Rattle.h5_encodings.specs.Decoding.{start, text_from};
ghost use Rattle.h5_encodings.specs.Labels.{encoding_labelled};
ghost use Rattle.h5_c.specs.Encodings.{is_unknown, page_opts, page_text};
ghost use Rattle.h5_c.specs.Pages.{IsBlockOfText, IsTreeOfText};
ghost use Rattle.h5_c.specs.Status.{HandsOutSuch};

use super::encoding::decoded;
use super::parse::{is_scripting, opts_of, refused, tree_of};
use super::status::{BAD_ARGUMENT, give};
use h5_tree_block::columns_of_document;
use html_tree_builder::encodings::{Encoding, EncodingOpts, sniff};
use html_tree_builder::{Arena, parse_document};
use std::alloc::{AllocError, Global};

// Returns true if there is a label, and no encoding has it.
fn is_unknown(label: &[u8]) -> bool
    ensures { result ≡ is_unknown label.now }
{
    Encoding::for_label(label).is_none() && !label.is_empty()
}

// How the encoding of a page is found, if the transport declares this label. A page that declares none is UTF-8.
fn page_opts(label: &[u8]) -> EncodingOpts
    ensures { result ≡ page_opts (encoding_labelled label.now) }
{
    EncodingOpts {
        transport: Encoding::for_label(label),
        default: Encoding::Utf8,
    }
}

fn tree_of_text(alloc: Global, text: String, options: u32) -> Result<Arena, AllocError>
    ensures { IfOk result (λ arena. IsTreeOfText options (string_bytes text) arena) }
{
    let parser = parse_document(alloc, Arena::without_errors(alloc)?, opts_of(options));
    match parser.one_owned(text) {
        Ok(arena) => Ok(arena),
        Err(fault) => Err(refused(fault)),
    }
}

// The tree of a page in this encoding. One in UTF-8 isn't copied.
fn tree_in(
    alloc: Global,
    encoding: Encoding,
    page: &[u8],
    options: u32,
) -> Result<Arena, AllocError>
    ensures { IfOk result (λ arena. IsTreeOfText options (text_from (start encoding) page.now) arena) }
{
    match encoding {
        Encoding::Utf8 => tree_of(alloc, page, options),
        _ => tree_of_text(alloc, decoded(alloc, encoding, page)?, options),
    }
}

fn tree_of_bytes(
    alloc: Global,
    page: &[u8],
    label: &[u8],
    options: u32,
) -> Result<Arena, AllocError>
    ensures { IfOk result (λ arena. IsTreeOfText options (page_text label.now page.now) arena) }
{
    let (encoding, _source) = sniff(alloc, page_opts(label), page)?;
    tree_in(alloc, encoding, page, options)
}

fn block_of_bytes(
    alloc: Global,
    page: &[u8],
    label: &[u8],
    options: u32,
) -> Result<Vec<u8>, AllocError>
    ensures { IfOk result (λ block. IsBlockOfText options (page_text label.now page.now) block.items) }
{
    let arena = tree_of_bytes(alloc, page, label, options)?;
    let columns = columns_of_document(alloc, &arena, is_scripting(options))?;
    drop(arena);
    let block = columns.pack(alloc)?;
    Ok(block)
}

/// The tree of a page in the encoding that a byte order mark, this label or the page declares, or else in UTF-8, as a block.
#[unsafe(no_mangle)]
pub extern "C" fn hengaruto_parse_bytes(
    alloc: Global,
    page: &[u8],
    label: &[u8],
    options: u32,
    block: &mut *mut u8,
    length: &mut usize,
) -> u32
    ensures no_encoding { is_unknown label.now ≡ true → result ≡ 4 }
    ensures parsed { is_unknown label.now ≡ false → HandsOutSuch (IsBlockOfText options (page_text label.now page.now)) result length.new }
    ensures kept { result ≢ 0 → length.new ≡ length.old }
{
    if is_unknown(label) {
        return BAD_ARGUMENT;
    }
    give(block_of_bytes(alloc, page, label, options), block, length)
}
