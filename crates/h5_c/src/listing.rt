//! Listings of a page in UTF-8: its parse errors, its metadata and its headings. No contract says what is listed: that is tested.
ghost use Rattle.std.specs.Prelude.{◌≡◌, ◌≢◌, ◌⊎◌};

use super::parse::tree_of;
use super::status::give;
use h5_input::{InputFault, InputOpts, PageError, errors_of};
use h5_listing::{Item, about, headings};
use html_tree_builder::encodings::{Encoding, EncodingOpts};
use std::alloc::{AllocError, Global};
use std::fmt::Write;

// The page is parsed without scripting. It is UTF-8, whatever it declares.
fn input_opts() -> InputOpts {
    InputOpts {
        encodings: EncodingOpts {
            transport: Some(Encoding::Utf8),
            ..EncodingOpts::default()
        },
        scripting_enabled: false,
    }
}

// A slice is read without an error, so only an allocation can fail.
fn refused(_fault: InputFault) -> AllocError {
    AllocError
}

// Writes an error: its line, column and offset, its name and its message, each followed by a NUL. One of tree construction has no column and
// no offset, and one of tokenization no message.
fn put_error(out: &mut String, error: PageError<'_>) -> Result<(), AllocError> {
    match error {
        PageError::Text(told) => {
            let (line, column, offset) = (told.at.line, told.at.column, told.at.offset);
            let name = told.error.name();
            write!(out, "{line}\0{column}\0{offset}\0{name}\0\0")
        }
        PageError::Tree {
            line,
            name,
            message,
        } => write!(out, "{line}\0\0\0{name}\0{message}\0"),
    }
}

// The errors of a page. None is left out.
fn error_bytes(alloc: Global, page: &[u8]) -> Result<Vec<u8>, AllocError> {
    let mut input = page;
    let (errors, _how) = errors_of(alloc, None, input_opts(), usize::MAX, &mut input).map_err(
        refused,
    )?;
    let mut out = String::new(alloc);
    for error in errors.first(alloc, usize::MAX)? {
        put_error(&mut out, error)?;
    }
    Ok(out.into_bytes())
}

// The values of items, each followed by a NUL.
fn item_bytes(alloc: Global, items: &[Item]) -> Result<Vec<u8>, AllocError> {
    let mut out = String::new(alloc);
    for item in items {
        item.print_plain(&mut out)?;
    }
    Ok(out.into_bytes())
}

fn meta_bytes(alloc: Global, page: &[u8]) -> Result<Vec<u8>, AllocError> {
    let arena = tree_of(alloc, page, 0)?;
    let items = about(alloc, &arena.at(arena.document()))?;
    item_bytes(alloc, items.as_slice())
}

fn outline_bytes(alloc: Global, page: &[u8]) -> Result<Vec<u8>, AllocError> {
    let arena = tree_of(alloc, page, 0)?;
    let items = headings(alloc, &arena.at(arena.document()))?;
    item_bytes(alloc, items.as_slice())
}

/// The parse errors of a page.
#[unsafe(no_mangle)]
pub extern "C" fn hengaruto_errors(
    alloc: Global,
    page: &[u8],
    errors: &mut *mut u8,
    length: &mut usize,
) -> u32
    ensures status { (result ≡ 0) ⊎ (result ≡ 1) }
    ensures kept { result ≢ 0 → length.new ≡ length.old }
{
    give(error_bytes(alloc, page), errors, length)
}

/// The metadata of a page.
#[unsafe(no_mangle)]
pub extern "C" fn hengaruto_page_meta(
    alloc: Global,
    page: &[u8],
    meta: &mut *mut u8,
    length: &mut usize,
) -> u32
    ensures status { (result ≡ 0) ⊎ (result ≡ 1) }
    ensures kept { result ≢ 0 → length.new ≡ length.old }
{
    give(meta_bytes(alloc, page), meta, length)
}

/// The headings of a page.
#[unsafe(no_mangle)]
pub extern "C" fn hengaruto_page_outline(
    alloc: Global,
    page: &[u8],
    outline: &mut *mut u8,
    length: &mut usize,
) -> u32
    ensures status { (result ≡ 0) ⊎ (result ≡ 1) }
    ensures kept { result ≢ 0 → length.new ≡ length.old }
{
    give(outline_bytes(alloc, page), outline, length)
}
