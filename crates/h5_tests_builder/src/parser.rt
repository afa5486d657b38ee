//! Parsers over an arena, for texts and bytes given in several ways.
use super::arena::name_of;
use h5_arena::Arena;
use h5_driver::bytes::Utf8Parser;
use h5_driver::parser::Parser;
use h5_driver::standard::{self, parse_fragment, parse_fragment_for_element};
use h5_driver::{ParseOpts, Reader, parse_document};
use h5_interface::{TreeSink, create_element};
use h5_names::{QualName, namespaces};
use h5_tests_sinks::html_of;
use h5_token::BuildFault;
use std::alloc::{AllocError, Global};
use std::process::Abort;
use std::test::Fail;

type Output<R> = <<R as Reader>::Sink as TreeSink>::Output;

type ArenaParser = standard::Parser<Arena>;

// The input is a document or a fragment.
#[derive(Clone, Copy)]
enum Context {
    Document,
    /// A fragment in an element of this name, which the parser makes.
    Fragment(&'static str),
    /// A fragment in an element of this name, which the caller makes.
    Element(&'static str),
}

// The way in which a text or bytes are given.
#[derive(Clone, Copy)]
enum Input {
    /// A text, whole.
    Text(&'static str),
    /// Texts, one after the other.
    Chunks(&'static [&'static str]),
    /// Texts that the parser owns.
    Owned(&'static [&'static str]),
    /// A list of texts.
    List(&'static [&'static str]),
    /// Bytes, whole.
    Bytes(&'static [u8]),
    /// Bytes, one chunk after the other.
    ByteChunks(&'static [&'static [u8]]),
}

use Context::{Document, Element, Fragment};
use Input::{ByteChunks, Bytes, Chunks, List, Owned, Text};

#[rattlefmt::skip]
const ROWS: [(Context, Input, &str); 8] = [
    (
        Document,
        Text("\u{feff}<!DOCTYPE html><P class=a b='&copy'>x &notit; y<!--z--><script>a<!--<script></script>"),
        "<!DOCTYPE html><html><head></head><body><p class=\"a\" b=\"\u{a9}\">x \u{ac}it; y<!--z--><script>a<!--<script></script></script></p></body></html>",
    ),
    (Document, Chunks(&["<!DOCTYPE html><p>x &no", "t y</P"]), "<!DOCTYPE html><html><head></head><body><p>x \u{ac} y</p></body></html>"),
    (Document, Owned(&["<!DOCTYPE html><p>", "x"]), "<!DOCTYPE html><html><head></head><body><p>x</p></body></html>"),
    (Document, List(&["<!DOCTYPE ht", "ml><p>x&a", "mp;<", "/p>"]), "<!DOCTYPE html><html><head></head><body><p>x&amp;</p></body></html>"),
    // A byte order mark and a character are split between chunks.
    (Document, ByteChunks(&[b"\xEF\xBB", b"\xBF<!DOCTYPE html><p>\xC3", b"\xA9"]), "<!DOCTYPE html><html><head></head><body><p>\u{e9}</p></body></html>"),
    (Document, Bytes(b"<!DOCTYPE html><p>\xE2\x82x\xFF"), "<!DOCTYPE html><html><head></head><body><p>\u{fffd}x\u{fffd}</p></body></html>"),
    (Fragment("tr"), Text("<td>&lt"), "<html><td>&lt;</td></html>"),
    (Element("title"), Text("<b>&amp"), "<html>&lt;b&gt;&amp;</html>"),
];

fn give_chunks<R: Reader + Drop>(
    parser: &mut Parser<R>,
    chunks: &[&str],
) -> Result<(), BuildFault> {
    for chunk in chunks {
        parser.process(chunk)?;
    }
    Ok(())
}

fn take_chunks<R: Reader + Drop>(
    parser: Parser<R>,
    chunks: &[&str],
) -> Result<Output<R>, BuildFault> {
    let mut parser = parser;
    give_chunks(&mut parser, chunks)?;
    parser.finish()
}

fn give_owned<R: Reader + Drop>(
    parser: &mut Parser<R>,
    alloc: Global,
    chunks: &[&str],
) -> Result<(), BuildFault> {
    for chunk in chunks {
        parser.process_owned(String::from_str(alloc, chunk)?)?;
    }
    Ok(())
}

// The last chunk is passed with the end.
fn take_owned<R: Reader + Drop>(
    parser: Parser<R>,
    alloc: Global,
    chunks: &[&str],
) -> Result<Output<R>, BuildFault> {
    let mut parser = parser;
    let Some((last, first)) = chunks.split_last() else {
        return parser.finish();
    };
    give_owned(&mut parser, alloc, first)?;
    parser.one_owned(String::from_str(alloc, last)?)
}

fn owned(alloc: Global, chunks: &[&str]) -> Result<Vec<String>, AllocError> {
    let mut list = Vec::new(alloc);
    for &chunk in chunks {
        list.push(String::from_str(alloc, chunk)?)?;
    }
    Ok(list)
}

fn take_list<R: Reader + Drop>(
    parser: Parser<R>,
    alloc: Global,
    chunks: &[&str],
) -> Result<Output<R>, BuildFault> {
    let list = owned(alloc, chunks)?;
    parser.process_pieces(list.as_slice())
}

fn give_bytes<R: Reader + Drop>(
    parser: &mut Utf8Parser<R>,
    chunks: &[&[u8]],
) -> Result<(), BuildFault> {
    for chunk in chunks {
        parser.process(chunk)?;
    }
    Ok(())
}

fn take_bytes<R: Reader + Drop>(
    parser: Parser<R>,
    chunks: &[&[u8]],
) -> Result<Output<R>, BuildFault> {
    let mut parser = parser.from_utf8();
    give_bytes(&mut parser, chunks)?;
    parser.finish()
}

// The output of a parser's sink after this input.
fn take<R: Reader + Drop>(
    parser: Parser<R>,
    alloc: Global,
    input: Input,
) -> Result<Output<R>, BuildFault> {
    match input {
        Text(text) => parser.one(text),
        Chunks(chunks) => take_chunks(parser, chunks),
        Owned(chunks) => take_owned(parser, alloc, chunks),
        List(chunks) => take_list(parser, alloc, chunks),
        Bytes(bytes) => parser.from_utf8().one(bytes),
        ByteChunks(chunks) => take_bytes(parser, chunks),
    }
}

// A fragment parser with a new element of this name as context.
fn parser_in_element<S: TreeSink + Drop>(
    alloc: Global,
    sink: S,
    name: QualName,
) -> Result<standard::Parser<S>, BuildFault> {
    let _document = sink.get_document();
    let mut sink = sink;
    let element = create_element(&mut sink, name, Vec::new(alloc))?;
    parse_fragment_for_element(alloc, sink, ParseOpts::default(), element, true, None)
}

// A parser over a new arena.
fn parser_in(alloc: Global, context: Context) -> Result<ArenaParser, BuildFault> {
    let opts = ParseOpts::default();
    match context {
        Document => Ok(standard::parse_document(alloc, Arena::new(alloc)?, opts)),
        Fragment(local) => {
            let name = name_of(alloc, namespaces::HTML, local)?;
            parse_fragment(alloc, Arena::new(alloc)?, opts, name, Vec::new(alloc), true)
        }
        Element(local) => {
            let name = name_of(alloc, namespaces::HTML, local)?;
            parser_in_element(alloc, Arena::new(alloc)?, name)
        }
    }
}

fn check(
    rt: &impl Abort,
    alloc: Global,
    (context, input, wanted): (Context, Input, &str),
) -> Result<(), Fail> {
    let arena = take(parser_in(alloc, context)?, alloc, input)?;
    let html = html_of(alloc, &arena);
    drop(arena);
    let html = html?;
    assert_eq!(rt; html.as_slice(), wanted.as_bytes());
    Ok(())
}

#[test]
fn parsers_take_texts_and_bytes(rt: HostRuntime) -> Result<(), Fail> {
    for &row in &ROWS {
        check(&rt, rt.alloc(), row)?;
    }
    Ok(())
}

// The output of a parser's sink after an error from outside and a page.
fn take_error<R: Reader + Drop>(parser: Parser<R>) -> Result<Output<R>, BuildFault> {
    let mut parser = parser;
    parser.error("from outside");
    parser.one("<!DOCTYPE html><p>x")
}

fn check_error(rt: &impl Abort, arena: &Arena) {
    let is_kept = match arena.errors() {
        [error] => error.as_str() == "from outside",
        _ => false,
    };
    assert!(rt; is_kept);
}

#[test]
fn an_error_from_outside_is_reported(rt: HostRuntime) -> Result<(), Fail> {
    let arena = take_error(parser_in(rt.alloc(), Document)?)?;
    check_error(&rt, &arena);
    drop(arena);
    let sink = Arena::new(rt.alloc())?;
    let arena = take_error(parse_document(rt.alloc(), sink, ParseOpts::default()))?;
    check_error(&rt, &arena);
    Ok(())
}
