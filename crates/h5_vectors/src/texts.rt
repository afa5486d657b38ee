//! Parses texts and bytes, however they are split.
use super::parsers::{Sink, TextParser};
use anyhow::Result;
use h5_arena::Arena;
use h5_driver::Utf8Parser;
use h5_token::BuildFault;

// Passes the characters of a text to a parser, one by one.
fn give_characters(parser: &mut TextParser, text: &str) -> Result<(), BuildFault> {
    let mut buffer = [0; 4];
    for character in text.chars() {
        parser.process(character.encode_utf8(&mut buffer))?;
    }
    Ok(())
}

/// The tree of a text that is given in single characters, followed by the end.
pub fn parse_characters(parser: TextParser, text: &str) -> Result<Arena, BuildFault> {
    let mut parser = parser;
    give_characters(&mut parser, text)?;
    parser.finish()
}

// Passes two texts to a parser.
fn give_two(parser: &mut TextParser, first: &str, second: &str) -> Result<(), BuildFault> {
    parser.process(first)?;
    parser.process(second)
}

/// The tree of a text in two chunks, the first of which has this number of bytes, or a few more so that no character is split.
pub fn parse_two(parser: TextParser, text: &str, bytes: usize) -> Result<Arena, BuildFault> {
    let (first, second) = text.split_at(text.ceil_char_boundary(bytes));
    let mut parser = parser;
    give_two(&mut parser, first, second)?;
    parser.finish()
}

// Passes owned texts to a parser.
fn give_owned(parser: &mut TextParser, pieces: &[String]) -> Result<(), BuildFault> {
    for piece in pieces {
        parser.process_owned(piece.clone()?)?;
    }
    Ok(())
}

// The tree of a text that ends with this owned text.
fn parse_last(parser: TextParser, last: &String) -> Result<Arena, BuildFault> {
    parser.one_owned(last.clone()?)
}

// The tree of a text in owned chunks, the last of which is passed with the end.
fn parse_to_last(parser: TextParser, first: &[String], last: &String) -> Result<Arena, BuildFault> {
    let mut parser = parser;
    give_owned(&mut parser, first)?;
    parse_last(parser, last)
}

/// The tree of a text in owned chunks.
pub fn parse_owned(parser: TextParser, pieces: &[String]) -> Result<Arena, BuildFault> {
    match pieces.split_last() {
        Some((last, first)) => parse_to_last(parser, first, last),
        None => parser.finish(),
    }
}

// Passes bytes to a parser, one by one.
fn give_bytes(parser: &mut Utf8Parser<Sink>, bytes: &[u8]) -> Result<(), BuildFault> {
    for byte in bytes {
        parser.process(&[*byte])?;
    }
    Ok(())
}

/// The tree of bytes that are given one by one, followed by the end.
pub fn parse_bytes(parser: TextParser, bytes: &[u8]) -> Result<Arena, BuildFault> {
    let mut parser = parser.from_utf8();
    give_bytes(&mut parser, bytes)?;
    parser.finish()
}

// Passes bytes to a parser in chunks.
fn give_chunks(parser: &mut Utf8Parser<Sink>, chunks: &[Vec<u8>]) -> Result<(), BuildFault> {
    for chunk in chunks {
        parser.process(chunk.as_slice())?;
    }
    Ok(())
}

/// The tree of bytes in chunks, followed by the end.
pub fn parse_chunks(parser: TextParser, chunks: &[Vec<u8>]) -> Result<Arena, BuildFault> {
    let mut parser = parser.from_utf8();
    give_chunks(&mut parser, chunks)?;
    parser.finish()
}
