//! A page of bytes, in the encoding that it declares.
use h5_arena::Arena;
use h5_bytes::BytesParser;
use h5_driver::ParseOpts;
use h5_driver::standard::{StandardReader, parse_document};
use h5_encodings::{Encoding, EncodingOpts, SingleByte, Source};
use h5_tests_sinks::html_of;
use h5_token::BuildFault;
use std::alloc::{AllocError, Global};
use std::process::Abort;
use std::test::Fail;

type PageParser = BytesParser<StandardReader<Arena>>;

const PAGE: &[u8] = b"<!DOCTYPE html><meta charset=koi8-r><p>\xF7";

// These bytes complete the 1,024 that decide the encoding.
const SPACES: [u8; 1024] = [b' '; 1024];

const TREE: &str =
    "<!DOCTYPE html><html><head><meta charset=\"koi8-r\"></head><body><p>\u{412}</p></body></html>";

fn new_parser(alloc: Global) -> Result<PageParser, AllocError> {
    let parser = parse_document(alloc, Arena::new(alloc)?, ParseOpts::default());
    Ok(BytesParser::new(alloc, parser, EncodingOpts::default()))
}

// The encoding is decided by the 1,024th byte.
fn decide(rt: &impl Abort, parser: &mut PageParser) -> Result<(), BuildFault> {
    parser.process(PAGE)?;
    assert!(rt; parser.encoding().is_none());
    parser.process(&SPACES)?;
    let koi8_r = Encoding::SingleByte(SingleByte::Koi8R);
    assert!(rt; parser.encoding() == Some((koi8_r, Source::Meta)));
    assert!(rt; !parser.has_errors());
    assert_eq!(rt; parser.replacement_count(), 0);
    Ok(())
}

fn check_decided(rt: &impl Abort, alloc: Global) -> Result<(), BuildFault> {
    let mut parser = new_parser(alloc)?;
    let decided = decide(rt, &mut parser);
    let arena = parser.finish()?;
    assert!(rt; arena.len() > 1);
    drop(arena);
    decided
}

#[test]
fn a_page_is_read_in_the_encoding_that_it_declares(rt: HostRuntime) -> Result<(), Fail> {
    check_decided(&rt, rt.alloc())?;
    let arena = new_parser(rt.alloc())?.one(PAGE)?;
    let html = html_of(rt.alloc(), &arena);
    drop(arena);
    let html = html?;
    assert_eq!(rt; html.as_slice(), TREE.as_bytes());
    Ok(())
}
