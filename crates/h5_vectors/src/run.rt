//! Runs of a case.
use super::case::{Case, Input};
use super::lists::run_lists;
use super::made::Made;
use super::parsers::{TextParser, new_parser, state_in};
use super::settings::Settings;
use super::texts::{parse_bytes, parse_characters, parse_chunks, parse_owned, parse_two};
use super::tokens::run_tokens;
use anyhow::Result;
use h5_arena::Arena;
use h5_token::BuildFault;
use std::alloc::Global;
use std::fmt;

/// The way in which an input is given: how it is split.
#[derive(Clone, Copy)]
pub enum Cut {
    /// Whole; tokens are given one by one.
    Whole,
    /// An input in chunks: in these.
    Pieces,
    /// A text in chunks: in these, each an owned text.
    OwnPieces,
    /// Texts in single characters.
    Characters,
    /// A text in single bytes.
    Bytes,
    /// A text in two chunks, the first of which has this number of bytes, or a few more so that no character is split.
    After(usize),
    /// Tokens as a list.
    List,
}

impl fmt::Display for Cut {
    fn fmt<W: fmt::Write>(&self, f: &mut fmt::Formatter<W>) -> fmt::Result {
        match self {
            Cut::Whole => write!(f, "whole"),
            Cut::Pieces => write!(f, "in its pieces"),
            Cut::OwnPieces => write!(f, "in its pieces, each a text of its own"),
            Cut::Characters => write!(f, "in single characters"),
            Cut::Bytes => write!(f, "in single bytes"),
            Cut::After(bytes) => write!(f, "in two pieces, cut behind {bytes} bytes"),
            Cut::List => write!(f, "as a list"),
        }
    }
}

/// The splits of an input, except those in two.
pub fn cuts_of(input: &Input) -> &'static [Cut] {
    match input {
        Input::Text(_) => &[Cut::Whole, Cut::Characters, Cut::Bytes],
        Input::Pieces(_) => &[
            Cut::Whole,
            Cut::Pieces,
            Cut::OwnPieces,
            Cut::Characters,
            Cut::Bytes,
        ],
        Input::Chunks(_) => &[Cut::Whole, Cut::Pieces, Cut::Bytes],
        Input::Tokens(_) => &[Cut::Whole, Cut::Characters, Cut::List],
        Input::ListsOfThree(_) => &[Cut::Whole],
    }
}

/// The number of indices at which a text is also split in two.
pub fn places_of(input: &Input) -> usize {
    match input {
        Input::Text(text) => text.len(),
        _ => 0,
    }
}

// The tree of a text with this split, or in these chunks.
fn parse_text(
    parser: TextParser,
    text: &str,
    pieces: &[String],
    cut: Cut,
) -> Result<Arena, BuildFault> {
    match cut {
        Cut::Whole | Cut::List => parser.one(text),
        Cut::Pieces => parser.process_pieces(pieces),
        Cut::OwnPieces => parse_owned(parser, pieces),
        Cut::Characters => parse_characters(parser, text),
        Cut::Bytes => parse_bytes(parser, text.as_bytes()),
        Cut::After(bytes) => parse_two(parser, text, bytes),
    }
}

// The results of a text with this split, or in these chunks.
fn run_text(
    alloc: Global,
    settings: &Settings,
    text: &str,
    pieces: &[String],
    cut: Cut,
) -> Result<Made> {
    let parser = new_parser(alloc, settings, usize::MAX)?;
    let state = state_in(&parser.tokenizer.sink, settings);
    let arena = parse_text(parser, text, pieces, cut)?;
    Ok(Made::by_text(alloc, arena, state))
}

// The results of a text in chunks.
fn run_pieces(alloc: Global, settings: &Settings, pieces: &[String], cut: Cut) -> Result<Made> {
    let text: String = pieces.concat(alloc)?;
    run_text(alloc, settings, text.as_str(), pieces, cut)
}

// The tree of bytes with this split, or in these chunks.
fn parse_in(
    parser: TextParser,
    bytes: &[u8],
    chunks: &[Vec<u8>],
    cut: Cut,
) -> Result<Arena, BuildFault> {
    match cut {
        Cut::Pieces => parse_chunks(parser, chunks),
        Cut::Bytes => parse_bytes(parser, bytes),
        _ => parser.from_utf8().one(bytes),
    }
}

// The results of bytes with this split, or in these chunks.
fn run_bytes(
    alloc: Global,
    settings: &Settings,
    bytes: &[u8],
    chunks: &[Vec<u8>],
    cut: Cut,
) -> Result<Made> {
    let parser = new_parser(alloc, settings, usize::MAX)?;
    let state = state_in(&parser.tokenizer.sink, settings);
    let arena = parse_in(parser, bytes, chunks, cut)?;
    Ok(Made::by_text(alloc, arena, state))
}

// The results of bytes in chunks.
fn run_chunks(alloc: Global, settings: &Settings, chunks: &[Vec<u8>], cut: Cut) -> Result<Made> {
    let bytes: Vec<u8> = chunks.concat(alloc)?;
    run_bytes(alloc, settings, bytes.as_slice(), chunks, cut)
}

/// Runs a case with this split, and returns its results.
pub fn run(alloc: Global, case: &Case, cut: Cut) -> Result<Made> {
    let settings = &case.settings;
    match &case.input {
        Input::Text(text) => run_text(alloc, settings, text.as_str(), &[], cut),
        Input::Pieces(pieces) => run_pieces(alloc, settings, pieces.as_slice(), cut),
        Input::Chunks(chunks) => run_chunks(alloc, settings, chunks.as_slice(), cut),
        Input::Tokens(lines) => run_tokens(alloc, settings, lines.as_str(), cut),
        Input::ListsOfThree(lines) => run_lists(alloc, settings, lines.as_str()),
    }
}
