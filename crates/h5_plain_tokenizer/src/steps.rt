//! One step of the tokenizer: passes the next token to the sink, or skips a part that emits no token.
ghost use Rattle.std.specs.Prelude.{◌≡◌, ℕ, false, [], length, ◌<◌};
ghost use Rattle.std.specs.String.{string_bytes};
ghost use Rattle.h5_markup.specs.Matching as m;
ghost use Rattle.h5_token.specs.TokenText.{Characters, TagIs, tag_text, token_text};
ghost use Rattle.h5_plain_tokenizer.specs.Front as f;
ghost use Rattle.h5_plain_tokenizer.specs.Read.{chosen_mode};
ghost use Rattle.h5_plain_tokenizer.specs.Steps.{place_of, HandsOn, Makes, Pending, TakesBits, turn_of};
ghost use Rattle.h5_token.specs.Reply.{reply};

use super::bare::find_bare;
use super::front::{Construct, Mode, Opening, find_opening};
use super::plain::{begin_long, begin_text, cut_plain, take_plain, take_texts};
use super::state::{Search, State, Turn};
use super::tokens::make_token;
use h5_markup::{Inside, Match, Sought, make_bare, seek_end};
use h5_token::{BuildFault, Tag, TagKind, Token, TokenSink, TokenSinkResult};
use h5_tokenizer_input::{LastName, Stop, ask, newlines_passed, stop_of};
use std::alloc::Global;

fn chosen_mode<H>(answer: &TokenSinkResult<H>) -> Mode
    ensures { (node : H → ℕ) → result ≡ chosen_mode (reply node answer.now) }
{
    match answer {
        TokenSinkResult::Plaintext => Mode::Plaintext,
        TokenSinkResult::RawData(kind) => Mode::RawData(*kind),
        _ => Mode::Data,
    }
}

// Passes a tag to the sink, and changes the state as the tag and the reply say.
#[inline(never)]
fn hand_on_tag<S: TokenSink>(
    sink: &mut S,
    state: &mut State,
    tag: Tag,
) -> Result<Option<Stop<S::Handle>>, BuildFault>
    ensures { HandsOn S.reply_to S.after S.node (place_of state.old) (S.meaning sink.old) (TagIs (tag_text tag))
        (place_of state.new) (S.meaning sink.new) result }
{
    match tag.kind {
        TagKind::StartTag => {
            state.last = LastName::read(tag.name.clone()?);
            let answer = ask(sink, Token::TagToken(tag), state.line)?;
            state.mode = chosen_mode(&answer);
            Ok(stop_of(answer))
        }
        TagKind::EndTag => {
            let answer = ask(sink, Token::TagToken(tag), state.line)?;
            state.mode = Mode::Data;
            Ok(stop_of(answer))
        }
    }
}

// Passes a token to the sink, and changes the state as the token and the reply say.
fn hand_on<S: TokenSink>(
    sink: &mut S,
    state: &mut State,
    token: Token,
) -> Result<Option<Stop<S::Handle>>, BuildFault>
    ensures { HandsOn S.reply_to S.after S.node (place_of state.old) (S.meaning sink.old) (token_text token)
        (place_of state.new) (S.meaning sink.new) result }
{
    match token {
        Token::TagToken(tag) => hand_on_tag(sink, state, tag),
        token => {
            let answer = ask(sink, token, state.line)?;
            Ok(stop_of(answer))
        }
    }
}

// Passes a text to the sink, which doesn't change the state.
fn hand_on_text<S: TokenSink>(
    sink: &mut S,
    state: &State,
    text: String,
) -> Result<Option<Stop<S::Handle>>, BuildFault>
    ensures { HandsOn S.reply_to S.after S.node (place_of state.now) (S.meaning sink.old) (Characters (string_bytes text))
        (place_of state.now) (S.meaning sink.new) result }
{
    let answer = ask(sink, Token::CharacterTokens(text), state.line)?;
    Ok(stop_of(answer))
}

fn turn<'a, H: Drop>(stopped: Option<Stop<H>>, rest: &'a str, lines: u64) -> Turn<'a, H>
    ensures { result ≡ turn_of stopped rest.entry lines }
{
    match stopped {
        Some(stop) => Turn::Stops(stop, rest, lines),
        None => Turn::Goes(rest, lines),
    }
}

ghost use Rattle.std.specs.Prelude.{◌≤◌, ◌⊎◌, Bool, List, Option, Some, None, take};
ghost use Rattle.h5_markup.specs.Ending.{walk};
ghost use Rattle.h5_tokenizer_input.specs.Lines.{newlines_passed};
ghost use Rattle.h5_plain_tokenizer.specs.Tokens.{start_of};
ghost use Rattle.h5_plain_tokenizer.specs.Steps.{fresh};

// The step of a whole token at the start.
#[inline(always)]
fn token_step<'a, S: TokenSink>(
    sink: &mut S,
    state: &mut State,
    rest: &'a str,
    after: &'a str,
    token: Token,
) -> Result<Turn<'a, S::Handle>, BuildFault>
    requires started { state.old.at_start ≡ false }
    requires front { f.front state.old.mode state.old.last (S.is_foreign (S.meaning sink.old)) rest.now
        ≡ m.Found (f.Whole (token_text token)) after.now }
    ensures { Makes S.reply_to S.after S.is_foreign S.node (place_of state.old) (S.meaning sink.old) rest.now
        (place_of state.new) (S.meaning sink.new) result }
{
    let stopped = hand_on(sink, state, token)?;
    Ok(turn(stopped, after, newlines_passed(rest, after)))
}

// The step of a tag with only a name at the start.
#[inline(always)]
fn tag_step<'a, S: TokenSink>(
    sink: &mut S,
    state: &mut State,
    rest: &'a str,
    after: &'a str,
    tag: Tag,
) -> Result<Turn<'a, S::Handle>, BuildFault>
    requires started { state.old.at_start ≡ false }
    requires front { f.front state.old.mode state.old.last (S.is_foreign (S.meaning sink.old)) rest.now
        ≡ m.Found (f.Whole (TagIs (tag_text tag))) after.now }
    requires line { newlines_passed rest.now after.now ≡ 0 }
    ensures { Makes S.reply_to S.after S.is_foreign S.node (place_of state.old) (S.meaning sink.old) rest.now
        (place_of state.new) (S.meaning sink.new) result }
{
    let _rest = rest;
    let stopped = hand_on_tag(sink, state, tag)?;
    Ok(turn(stopped, after, 0))
}

// The step of a text that has begun, after the given number of newlines.
#[inline(always)]
fn text_step<'a, S: TokenSink>(
    sink: &mut S,
    state: &mut State,
    rest: &'a str,
    after: &'a str,
    lines: u64,
    mut text: String,
) -> Result<Turn<'a, S::Handle>, BuildFault>
    requires started { state.old.at_start ≡ false }
    requires begun { TakesBits state.old.mode state.old.last (S.is_foreign (S.meaning sink.old)) rest.now after.now [] (string_bytes text) }
    requires lines { lines ≡ newlines_passed rest.now after.now }
    ensures { Makes S.reply_to S.after S.is_foreign S.node (place_of state.old) (S.meaning sink.old) rest.now
        (place_of state.new) (S.meaning sink.new) result }
{
    let _rest = rest;
    let end = take_texts(state.mode, state.last.as_str(), after, &mut text)?;
    let stopped = hand_on_text(sink, state, text)?;
    Ok(turn(stopped, end, lines + newlines_passed(after, end)))
}

// The step of a construct that has begun: searches for its end.
fn construct_step<'a, S: TokenSink>(
    sink: &mut S,
    state: &mut State,
    alloc: Global,
    rest: &'a str,
    inner: &'a str,
    construct: Construct,
    search: Search,
) -> Result<Turn<'a, S::Handle>, BuildFault>
    requires started { state.old.at_start ≡ false }
    requires foreign { search.foreign ≡ S.is_foreign (S.meaning sink.old) }
    requires begins { f.opening state.old.mode state.old.last search.foreign rest.now
        ≡ m.Found (f.Begins construct) inner.now }
    requires within { search.at ≤ length inner.now }
    requires walked { walk (start_of construct) (take search.at inner.now) ≡ Some search.place }
    ensures { Makes S.reply_to S.after S.is_foreign S.node (place_of state.old) (S.meaning sink.old) rest.now
        (place_of state.new) (S.meaning sink.new) result }
{
    let _rest = rest;
    match seek_end(inner, search.at, search.place) {
        Sought::Open(place) => Ok(Turn::Waits(Some(Search {
            foreign: search.foreign,
            at: inner.len(),
            place,
        }))),
        Sought::End(text, after, place) => {
            let token = make_token(alloc, &mut state.names, construct, text, place)?;
            token_step(sink, state, rest, after, token)
        }
    }
}

fn start_of(construct: Construct) -> Inside
    ensures { result ≡ start_of construct }
{
    match construct {
        Construct::Comment => Inside::Comment,
        Construct::Doctype => Inside::Doctype,
        Construct::StartTag => Inside::TagName,
        Construct::EndTag => Inside::TagName,
        Construct::RawEndTag => Inside::TagName,
    }
}

// Returns the search to continue: the last one, if it was for the same construct.
fn resumed(search: Option<Search>, foreign: bool, construct: Construct) -> Search
    ensures { (result ≡ fresh foreign construct) ⊎ ((search ≡ Some result) × (result.foreign ≡ foreign)) }
{
    if let Some(search) = search {
        if search.foreign == foreign {
            return search;
        }
    }
    Search {
        foreign,
        at: 0,
        place: start_of(construct),
    }
}

// A step, whatever the input begins with.
fn any_step<'a, S: TokenSink>(
    sink: &mut S,
    state: &mut State,
    alloc: Global,
    rest: &'a str,
    search: Option<Search>,
) -> Result<Turn<'a, S::Handle>, BuildFault>
    requires started { state.old.at_start ≡ false }
    requires pending { Pending search state.old.mode state.old.last rest.now }
    ensures { Makes S.reply_to S.after S.is_foreign S.node (place_of state.old) (S.meaning sink.old) rest.now
        (place_of state.new) (S.meaning sink.new) result }
{
    let foreign = sink.adjusted_current_node_present_but_not_in_html_namespace();
    match find_opening(state.mode, state.last.as_str(), foreign, rest) {
        Match::Open => Ok(Turn::Waits(None)),
        Match::No => {
            let mut text = String::new(alloc);
            let after = take_plain(rest, &mut text)?;
            text_step(sink, state, rest, after, newlines_passed(rest, after), text)
        }
        Match::Found(opening, after) => match opening {
            Opening::Begins(construct) => {
                let search = resumed(search, foreign, construct);
                construct_step(sink, state, alloc, rest, after, construct, search)
            }
            Opening::Gives(bit) => {
                let text = begin_long(alloc, bit, after)?;
                text_step(sink, state, rest, after, newlines_passed(rest, after), text)
            }
            Opening::Null => token_step(sink, state, rest, after, Token::NullCharacterToken),
            Opening::Turns(mode) => {
                state.mode = mode;
                Ok(Turn::Goes(after, newlines_passed(rest, after)))
            }
        },
    }
}

/// Takes one step, unless further input decides what the input begins with. Doesn't change the line.
pub fn step<'a, S: TokenSink>(
    sink: &mut S,
    state: &mut State,
    alloc: Global,
    rest: &'a str,
    search: Option<Search>,
) -> Result<Turn<'a, S::Handle>, BuildFault>
    requires started { state.old.at_start ≡ false }
    requires pending { Pending search state.old.mode state.old.last rest.now }
    ensures { Makes S.reply_to S.after S.is_foreign S.node (place_of state.old) (S.meaning sink.old) rest.now
        (place_of state.new) (S.meaning sink.new) result }
{
    if rest.is_empty() {
        return Ok(Turn::Waits(None));
    }
    if let Some((kind, name, after)) = find_bare(state.mode, search, rest) {
        let tag = make_bare(alloc, &mut state.names, kind, name)?;
        return tag_step(sink, state, rest, after, tag);
    }
    if let Some(plain) = cut_plain(rest) {
        let text = begin_text(alloc, plain.front, plain.after)?;
        return text_step(sink, state, rest, plain.after, plain.lines, text);
    }
    any_step(sink, state, alloc, rest, search)
}
