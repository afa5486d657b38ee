//! Pages.
use html_tree_builder::encodings::{Decoder, EncodingOpts, sniff};
use html_tree_builder::serialize::serialize;
use html_tree_builder::{Arena, ParseOpts, SerializeOpts, Utf8Parser, parse_document};
use std::alloc::Global;
use std::io::Read;

// Writes a document as HTML.
fn write_page(alloc: Global, arena: &Arena) -> anyhow::Result<Vec<u8>> {
    let document = arena.at(arena.document());
    let html = serialize(alloc, Vec::new(alloc), &document, SerializeOpts::default())?;
    Ok(html)
}

/// Parses a page, and writes it as HTML.
pub fn page(alloc: Global, text: &str) -> anyhow::Result<Vec<u8>> {
    let parser = parse_document(alloc, Arena::new(alloc)?, ParseOpts::default());
    let arena = parser.one(text)?;
    write_page(alloc, &arena)
}

// Decodes the bytes of a page, in the encoding that it is in.
fn text_of(alloc: Global, bytes: &[u8]) -> anyhow::Result<String> {
    let (encoding, _source) = sniff(alloc, EncodingOpts::default(), bytes)?;
    let mut decoder = Decoder::new(alloc, encoding);
    let mut text = decoder.decode(bytes)?;
    text.push_str(decoder.finish())?;
    Ok(text)
}

/// Parses a page from bytes in any encoding, and writes it as HTML.
pub fn page_in_its_encoding(alloc: Global, bytes: &[u8]) -> anyhow::Result<Vec<u8>> {
    let text = text_of(alloc, bytes)?;
    page(alloc, text.as_str())
}

// Returns the next bytes of an input, and none at its end.
fn read_chunk<'a, R: Read>(input: &mut R, chunk: &'a mut [u8]) -> anyhow::Result<&'a [u8]> {
    let count = input.read(chunk)?;
    Ok(&chunk[..count])
}

// Feeds the next bytes of an input. Returns true if there were any.
fn feed_chunk<R: Read>(
    parser: &mut Utf8Parser<Arena>,
    input: &mut R,
    chunk: &mut [u8],
) -> anyhow::Result<bool> {
    let bytes = read_chunk(input, chunk)?;
    parser.process(bytes)?;
    Ok(!bytes.is_empty())
}

// Feeds all bytes of an input.
fn feed_all<R: Read>(
    alloc: Global,
    parser: &mut Utf8Parser<Arena>,
    input: &mut R,
) -> anyhow::Result<()> {
    let mut chunk = vec![in alloc; 0u8; 65_536]?;
    for _ in 0..u64::MAX {
        if !feed_chunk(parser, input, chunk.as_mut_slice())? {
            break;
        }
    }
    Ok(())
}

/// Parses a page from an input, which is read in chunks.
pub fn page_in_chunks<R: Read>(alloc: Global, input: &mut R) -> anyhow::Result<Arena> {
    let mut parser = parse_document(alloc, Arena::new(alloc)?, ParseOpts::default()).from_utf8();
    feed_all(alloc, &mut parser, input)?;
    Ok(parser.finish()?)
}
