//! Parse errors (HTML standard, section 13.2.2, "Parse errors"). No contract depends on the text of a message.
ghost use Rattle.std.specs.Prelude.{◌<◌};
ghost use Rattle.h5_builder_state.specs.Steps.{TellsErrors, errors_of};

use super::state::State;
use h5_interface::TreeSink;
use h5_tables::{Token, TreeError};
use h5_token::{Tag, TagKind};
use std::alloc::AllocError;

/// Reports a parse error with the given message. Changes nothing else.
#[tactic(auto, unfolding(crate::specs::View::world))]
pub fn tell_message<S: TreeSink>(sink: &mut S, state: &State<S::Handle>, message: &str)
    ensures told { TellsErrors S.TreeSink sink.old sink.new state.now }
    ensures noted { 0 < errors_of S.TreeSink sink.new }
{
    sink.parse_error(message);
}

// The beginning of an exact message: the name of the error. `None` if exact messages aren't enabled, or if an allocation fails.
fn begin_exact<H>(state: &State<H>, error: TreeError) -> Option<String> {
    if !state.opts.exact_errors {
        return None;
    }
    let name = error.name();
    format!(in state.alloc; "{name}: ").ok()
}

fn exact_error<H>(state: &State<H>, error: TreeError) -> Option<String> {
    let mut out = begin_exact(state, error)?;
    out.push_str(error.message()).ok()?;
    Some(out)
}

// The message that takes no memory.
fn short_message<H>(state: &State<H>, error: TreeError) -> &'static str {
    if state.opts.exact_errors {
        error.name()
    } else {
        error.message()
    }
}

// Reports a parse error by its exact message, if there is one.
fn tell_error<S: TreeSink>(
    sink: &mut S,
    state: &State<S::Handle>,
    error: TreeError,
    exact: Option<String>,
)
    ensures told { TellsErrors S.TreeSink sink.old sink.new state.now }
    ensures noted { 0 < errors_of S.TreeSink sink.new }
{
    match exact {
        Some(message) => tell_message(sink, state, message.as_str()),
        None => tell_message(sink, state, short_message(state, error)),
    }
}

/// Reports a parse error; with `exact_errors`, the message begins with the name of the error, and is that alone if an allocation fails. Changes
/// nothing else.
pub fn report_error<S: TreeSink>(sink: &mut S, state: &State<S::Handle>, error: TreeError)
    ensures told { TellsErrors S.TreeSink sink.old sink.new state.now }
    ensures noted { 0 < errors_of S.TreeSink sink.new }
{
    let exact = exact_error(state, error);
    tell_error(sink, state, error, exact);
}

fn write_tag(out: &mut String, tag: &Tag) -> Result<(), AllocError> {
    let name = tag.name.as_str();
    match tag.kind {
        TagKind::StartTag => write!(out, "<{name}>"),
        TagKind::EndTag => write!(out, "</{name}>"),
    }
}

fn write_token(out: &mut String, token: &Token) -> Result<(), AllocError> {
    match token {
        Token::Tag(tag) => write_tag(out, tag),
        Token::Comment(_) => out.push_str("comment"),
        Token::Characters(_, _) => out.push_str("text"),
        Token::NullCharacter => out.push_str("U+0000"),
        Token::Eof => out.push_str("end of input"),
    }
}

// Completes an exact message.
fn end_exact<H>(state: &State<H>, message: String) -> Option<String> {
    let mode = state.mode;
    let mut out = message;
    write!(out, " in insertion mode {mode:?}").ok()?;
    Some(out)
}

fn exact_tag<H>(state: &State<H>, error: TreeError, tag: &Tag) -> Option<String> {
    let mut out = begin_exact(state, error)?;
    write_tag(&mut out, tag).ok()?;
    end_exact(state, out)
}

fn exact_token<H>(state: &State<H>, error: TreeError, token: &Token) -> Option<String> {
    let mut out = begin_exact(state, error)?;
    write_token(&mut out, token).ok()?;
    end_exact(state, out)
}

/// Reports this error of a tag; with `exact_errors`, the message is the name of the error, the tag and the insertion mode, or the name alone if
/// an allocation fails. Changes nothing else.
pub fn report_tag<S: TreeSink>(sink: &mut S, state: &State<S::Handle>, error: TreeError, tag: &Tag)
    ensures told { TellsErrors S.TreeSink sink.old sink.new state.now }
    ensures noted { 0 < errors_of S.TreeSink sink.new }
{
    let exact = exact_tag(state, error, tag);
    tell_error(sink, state, error, exact);
}

/// Reports this error of a token, as `report_tag` does of a tag. Changes nothing else.
pub fn report_token<S: TreeSink>(
    sink: &mut S,
    state: &State<S::Handle>,
    error: TreeError,
    token: &Token,
)
    ensures told { TellsErrors S.TreeSink sink.old sink.new state.now }
    ensures noted { 0 < errors_of S.TreeSink sink.new }
{
    let exact = exact_token(state, error, token);
    tell_error(sink, state, error, exact);
}

/// Reports a tag that the insertion mode doesn't expect. Changes nothing else.
pub fn unexpected_tag<S: TreeSink>(sink: &mut S, state: &State<S::Handle>, tag: &Tag)
    ensures told { TellsErrors S.TreeSink sink.old sink.new state.now }
    ensures noted { 0 < errors_of S.TreeSink sink.new }
{
    report_tag(
        sink,
        state,
        TreeError::unexpected_tag(tag.kind, state.mode),
        tag,
    );
}

/// Reports a token that the insertion mode doesn't expect. Changes nothing else.
pub fn unexpected<S: TreeSink>(sink: &mut S, state: &State<S::Handle>, token: &Token)
    ensures told { TellsErrors S.TreeSink sink.old sink.new state.now }
    ensures noted { 0 < errors_of S.TreeSink sink.new }
{
    report_token(sink, state, TreeError::unexpected(token, state.mode), token);
}
