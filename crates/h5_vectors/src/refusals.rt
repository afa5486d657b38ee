//! Runs of a case in which a call of the sink fails with `AllocError`.
use super::case::{Case, Input};
use super::made::Made;
use super::parsers::{Builder, Sink, TextParser, new_builder, new_parser, state_in};
use super::run::Cut;
use super::settings::Settings;
use anyhow::{Result, bail};
use h5_arena::Arena;
use h5_interface::TreeSink;
use h5_print::{Item, parse};
use h5_tests_sinks::is_forest;
use h5_token::states::State;
use h5_token::{BuildFault, Token};
use std::alloc::Global;

/// The outcome of a run.
#[derive(Drop)]
pub enum Ending {
    /// A call failed, and each call returned what it should.
    Refused,
    /// No call failed; the results.
    Whole(Made),
    /// A call returned something else than it should.
    Wrong,
}

/// The splits with which calls of the sink are to fail.
pub fn refused_cuts_of(input: &Input) -> &'static [Cut] {
    match input {
        Input::Text(_) | Input::Pieces(_) => &[Cut::Characters],
        Input::Tokens(_) => &[Cut::Whole, Cut::List],
        Input::Chunks(_) | Input::ListsOfThree(_) => &[],
    }
}

// Returns true if a call returned what it should: `Memory` if a call of the sink failed in it, and `Failed` from then on, although the sink
// would succeed. The nodes of the sink must be a forest.
fn is_right(was_refused: bool, sink: &Sink, answer: Result<(), BuildFault>) -> bool {
    let expected = match (was_refused, sink.was_refused()) {
        (true, _) => Err(BuildFault::Failed),
        (false, true) => Err(BuildFault::Memory),
        (false, false) => Ok(()),
    };
    answer == expected && is_forest(sink.below())
}

// A result without its value.
fn bare<T: Drop>(answer: Result<T, BuildFault>) -> Result<(), BuildFault> {
    match answer {
        Ok(_value) => Ok(()),
        Err(fault) => Err(fault),
    }
}

// The outcome if the tree builder or the parser could not be made.
fn unmade(fault: BuildFault) -> Ending {
    match fault {
        BuildFault::Memory => Ending::Refused,
        _ => Ending::Wrong,
    }
}

// Processes a token. Returns true if the call returned what it should.
fn take_token(builder: &mut Builder, token: Token, line: u64) -> bool {
    let was_refused = builder.sink.was_refused();
    let answer = bare(builder.process_token(token, line));
    is_right(was_refused, &builder.sink, answer)
}

// Processes tokens one by one.
fn take_each(builder: &mut Builder, tokens: Vec<(Token, u64)>) -> bool {
    let mut are_right = true;
    for (token, line) in tokens {
        are_right &= take_token(builder, token, line);
    }
    are_right
}

// Processes tokens as a list.
fn take_list(builder: &mut Builder, tokens: Vec<(Token, u64)>) -> bool {
    let was_refused = builder.sink.was_refused();
    let answer = bare(builder.process_all(tokens));
    is_right(was_refused, &builder.sink, answer)
}

// Returns true if a second end changes nothing in the sink.
fn ends_once(builder: &mut Builder) -> bool {
    builder.end();
    let pops = builder.sink.pops();
    builder.end();
    builder.sink.pops() == pops
}

// Processes tokens with this split, then an empty list, and then the end.
fn take_all(alloc: Global, builder: &mut Builder, tokens: Vec<(Token, u64)>, cut: Cut) -> bool {
    let are_right = match cut {
        Cut::List => take_list(builder, tokens),
        _ => take_each(builder, tokens),
    };
    are_right && take_list(builder, Vec::new(alloc)) && ends_once(builder)
}

fn token_of(item: Item) -> Result<(Token, u64)> {
    match item {
        Item::Token(token, line) => Ok((token, line)),
        Item::End => bail!("an end stands among tokens of which each call is refused"),
    }
}

// Appends the tokens of lines.
fn put_tokens(alloc: Global, tokens: &mut Vec<(Token, u64)>, lines: &str) -> Result<()> {
    for item in parse(alloc, lines)? {
        tokens.push(token_of(item)?)?;
    }
    Ok(())
}

fn tokens_of(alloc: Global, lines: &str) -> Result<Vec<(Token, u64)>> {
    let mut tokens = Vec::new(alloc);
    put_tokens(alloc, &mut tokens, lines)?;
    Ok(tokens)
}

// The results of a tree builder that processed everything.
fn made_by(alloc: Global, builder: Builder, settings: &Settings) -> Made {
    let state = state_in(&builder, settings);
    let arena = builder.into_sink().finish();
    Made::by_text(alloc, arena, state)
}

// The outcome of a run that has no results: wrong, or with a call that failed.
fn cut_short(are_right: bool) -> Ending {
    if are_right {
        Ending::Refused
    } else {
        Ending::Wrong
    }
}

// The outcome of a tree builder that processed everything.
fn ended(alloc: Global, builder: Builder, are_right: bool, settings: &Settings) -> Ending {
    if are_right && !builder.sink.was_refused() {
        Ending::Whole(made_by(alloc, builder, settings))
    } else {
        cut_short(are_right)
    }
}

// The outcome of tokens that a tree builder processes with this split.
fn run_builder(
    alloc: Global,
    builder: Builder,
    settings: &Settings,
    tokens: Vec<(Token, u64)>,
    cut: Cut,
) -> Ending {
    let mut builder = builder;
    let are_right = take_all(alloc, &mut builder, tokens, cut);
    ended(alloc, builder, are_right, settings)
}

// The outcome of tokens with this split.
fn run_tokens(
    alloc: Global,
    settings: &Settings,
    lines: &str,
    cut: Cut,
    before: usize,
) -> Result<Ending> {
    let tokens = tokens_of(alloc, lines)?;
    match new_builder(alloc, settings, before) {
        Ok(builder) => Ok(run_builder(alloc, builder, settings, tokens, cut)),
        Err(fault) => Ok(unmade(fault)),
    }
}

// Processes a text in single characters. Returns true if each call returned what it should.
fn process_characters(parser: &mut TextParser, text: &str) -> bool {
    let mut are_right = true;
    let mut buffer = [0; 4];
    for character in text.chars() {
        let was_refused = parser.tokenizer.sink.sink.was_refused();
        let answer = parser.process(character.encode_utf8(&mut buffer));
        are_right &= is_right(was_refused, &parser.tokenizer.sink.sink, answer);
    }
    are_right
}

// The outcome of a parser that returned a tree at the end.
fn whole(alloc: Global, arena: Arena, was_refused: bool, state: Option<State>) -> Ending {
    if was_refused {
        Ending::Wrong
    } else {
        Ending::Whole(Made::by_text(alloc, arena, state))
    }
}

// The outcome of a parser that returned this error at the end.
fn stopped(fault: BuildFault, was_refused: bool) -> Ending {
    match (fault, was_refused) {
        (BuildFault::Failed, true) | (BuildFault::Memory, false) => Ending::Refused,
        _ => Ending::Wrong,
    }
}

// The outcome of a parser that processed everything.
fn finished(alloc: Global, parser: TextParser, state: Option<State>) -> Ending {
    let was_refused = parser.tokenizer.sink.sink.was_refused();
    match parser.finish() {
        Ok(arena) => whole(alloc, arena, was_refused, state),
        Err(fault) => stopped(fault, was_refused),
    }
}

// The outcome of a text that a parser processes in single characters.
fn run_parser(alloc: Global, parser: TextParser, settings: &Settings, text: &str) -> Ending {
    let mut parser = parser;
    let state = state_in(&parser.tokenizer.sink, settings);
    if process_characters(&mut parser, text) {
        finished(alloc, parser, state)
    } else {
        Ending::Wrong
    }
}

// The outcome of a text in single characters.
fn run_text(alloc: Global, settings: &Settings, text: &str, before: usize) -> Ending {
    match new_parser(alloc, settings, before) {
        Ok(parser) => run_parser(alloc, parser, settings, text),
        Err(fault) => unmade(fault),
    }
}

// The outcome of a text in chunks.
fn run_pieces(
    alloc: Global,
    settings: &Settings,
    pieces: &[String],
    before: usize,
) -> Result<Ending> {
    let text: String = pieces.concat(alloc)?;
    Ok(run_text(alloc, settings, text.as_str(), before))
}

/// The outcome of a case with this split, in which the sink's call that may allocate after `before` others fails.
pub fn run_refused(alloc: Global, case: &Case, cut: Cut, before: usize) -> Result<Ending> {
    let settings = &case.settings;
    match &case.input {
        Input::Text(text) => Ok(run_text(alloc, settings, text.as_str(), before)),
        Input::Pieces(pieces) => run_pieces(alloc, settings, pieces.as_slice(), before),
        Input::Tokens(lines) => run_tokens(alloc, settings, lines.as_str(), cut, before),
        Input::Chunks(_) | Input::ListsOfThree(_) => {
            bail!("the calls of texts and of tokens are refused")
        }
    }
}
