//! Pages in encodings other than UTF-8: their encoding and their text.
ghost use Rattle.std.specs.Prelude.{◌≡◌, ◌≢◌, None, Some, IfOk, string_bytes, take};
ghost use Rattle.h5_encodings.specs.Decoding.{start, text_from};
ghost use Rattle.h5_encodings.specs.Labels.{encoding_labelled};
ghost use Rattle.h5_encodings.specs.Sniffing.{encoding_of};
ghost use Rattle.h5_encodings.specs.declared.encoding.Encoding.{Encoding};
ghost use Rattle.h5_c.specs.Encodings.{name_said, opts_by};
ghost use Rattle.h5_c.specs.Status.{HandsOut};

use super::status::{BAD_ARGUMENT, give};
use html_tree_builder::encodings::{Decoder, Encoding, EncodingOpts, Source, sniff};
use std::alloc::{AllocError, Global};

// A copy of bytes.
fn copied(alloc: Global, bytes: &[u8]) -> Result<Vec<u8>, AllocError>
    ensures { IfOk result (λ copy. copy.items ≡ bytes.now) }
{
    let mut copy = Vec::new(alloc);
    copy.extend_from_slice(bytes)?;
    Ok(copy)
}

// How the encoding of a page is found, if the transport declares this label.
fn opts_by(label: &[u8]) -> EncodingOpts
    ensures { result ≡ opts_by (encoding_labelled label.now) }
{
    EncodingOpts {
        transport: Encoding::for_label(label),
        ..EncodingOpts::default()
    }
}

// The name of a declared encoding.
fn name_said(encoding: Encoding, source: Source) -> &'static str
    ensures { result.now ≡ name_said (encoding, source) }
{
    match source {
        Source::Mark | Source::Transport | Source::Meta => encoding.name(),
        Source::Default => "",
    }
}

fn name_for(alloc: Global, page: &[u8], label: &[u8]) -> Result<Vec<u8>, AllocError>
    ensures { IfOk result (λ name. name.items ≡ name_said (encoding_of (opts_by (encoding_labelled label.now)) (take 1024 page.now))) }
{
    let (encoding, source) = sniff(alloc, opts_by(label), page)?;
    copied(alloc, name_said(encoding, source).as_bytes())
}

/// The text of bytes in this encoding.
pub(crate) fn decoded(alloc: Global, encoding: Encoding, bytes: &[u8]) -> Result<String, AllocError>
    ensures { IfOk result (λ text. string_bytes text ≡ text_from (start encoding) bytes.now) }
{
    let mut decoder = Decoder::new(alloc, encoding);
    let mut text = decoder.decode(bytes)?;
    text.push_str(decoder.finish())?;
    Ok(text)
}

fn text_in(alloc: Global, encoding: Encoding, bytes: &[u8]) -> Result<Vec<u8>, AllocError>
    ensures { IfOk result (λ text. text.items ≡ text_from (start encoding) bytes.now) }
{
    let text = decoded(alloc, encoding, bytes)?;
    Ok(text.into_bytes())
}

/// The name of the encoding of a page, if it is declared: by a byte order mark, by this label, or by the page.
#[unsafe(no_mangle)]
pub extern "C" fn hengaruto_encoding(
    alloc: Global,
    page: &[u8],
    label: &[u8],
    name: &mut *mut u8,
    length: &mut usize,
) -> u32
    ensures name { HandsOut (name_said (encoding_of (opts_by (encoding_labelled label.now)) (take 1024 page.now))) result length.new }
    ensures kept { result ≢ 0 → length.new ≡ length.old }
{
    give(name_for(alloc, page, label), name, length)
}

/// The text of bytes in the encoding with this label.
#[unsafe(no_mangle)]
pub extern "C" fn hengaruto_decode(
    alloc: Global,
    bytes: &[u8],
    label: &[u8],
    text: &mut *mut u8,
    length: &mut usize,
) -> u32
    ensures no_encoding { encoding_labelled label.now ≡ None → result ≡ 4 }
    ensures decoded { (encoding : Encoding) → encoding_labelled label.now ≡ Some encoding → HandsOut (text_from (start encoding) bytes.now) result length.new }
    ensures kept { result ≢ 0 → length.new ≡ length.old }
{
    match Encoding::for_label(label) {
        Some(encoding) => give(text_in(alloc, encoding, bytes), text, length),
        None => BAD_ARGUMENT,
    }
}
