//! What the input begins with, in each state.
ghost use Rattle.std.specs.Prelude.{◌≡◌, Bool};
ghost use Rattle.h5_markup.specs.Matching.{and_then, or_else, Found};
ghost use Rattle.h5_markup.specs.MatchOf.{match_of};
ghost use Rattle.h5_plain_tokenizer.specs.Front as f;
ghost use Rattle.h5_plain_tokenizer.specs.Openings.{opening_of};
ghost use Rattle.h5_markup.specs.Text as t;

use h5_markup::{Match, cleaned, escape, literal, name_is, newline, peek_letter, reference, word};
use h5_token::states::RawKind;

/// The states of the plain tokenizer between two tokens.
#[derive(Clone, Copy, Debug, PartialEq, Eq)]
pub enum Mode {
    Data,
    RawData(RawKind),
    Plaintext,
    /// In a CDATA section.
    Cdata,
}

/// The constructs that a `>` ends.
#[derive(Clone, Copy, Debug, PartialEq, Eq)]
pub enum Construct {
    Comment,
    Doctype,
    StartTag,
    EndTag,
    /// The end tag of a raw element.
    RawEndTag,
}

/// The beginning of something other than plain text.
#[derive(Drop)]
pub enum Opening {
    Begins(Construct),
    /// Something that this text replaces.
    Gives(&'static str),
    Null,
    Turns(Mode),
}

fn says<'a>(opening: Opening, found: Match<'a, ()>) -> Match<'a, Opening>
    ensures { match_of opening_of result
        ≡ f.says (opening_of opening) (match_of {B = Unit {0}} (λ _. tt) found.entry) }
{
    match found {
        Match::Open => Match::Open,
        Match::No => Match::No,
        Match::Found(_, rest) => Match::Found(opening, rest),
    }
}

fn stands_for<'a>(found: Match<'a, &'static str>) -> Match<'a, Opening>
    ensures { match_of opening_of result ≡ f.stands_for (match_of (λ text. text.now) found.entry) }
{
    match found {
        Match::Open => Match::Open,
        Match::No => Match::No,
        Match::Found(text, rest) => Match::Found(Opening::Gives(text), rest),
    }
}

fn comment<'a>(text: &'a str) -> Match<'a, Opening>
    ensures { match_of opening_of result ≡ f.comment text.now }
{
    says(Opening::Begins(Construct::Comment), literal(text, "<!--"))
}

fn doctype<'a>(text: &'a str) -> Match<'a, Opening>
    ensures { match_of opening_of result ≡ f.doctype text.now }
{
    says(Opening::Begins(Construct::Doctype), word(text, "<!DOCTYPE"))
}

fn cdata<'a>(foreign: bool, text: &'a str) -> Match<'a, Opening>
    ensures { match_of opening_of result ≡ f.cdata foreign text.now }
{
    if foreign {
        says(Opening::Turns(Mode::Cdata), literal(text, "<![CDATA["))
    } else {
        Match::No
    }
}

fn end_tag<'a>(text: &'a str) -> Match<'a, Opening>
    ensures { match_of opening_of result ≡ f.end_tag text.now }
{
    match literal(text, "</") {
        Match::Open => Match::Open,
        Match::No => Match::No,
        Match::Found(_, rest) => says(Opening::Begins(Construct::EndTag), peek_letter(rest)),
    }
}

fn start_tag<'a>(text: &'a str) -> Match<'a, Opening>
    ensures { match_of opening_of result ≡ f.start_tag text.now }
{
    match literal(text, "<") {
        Match::Open => Match::Open,
        Match::No => Match::No,
        Match::Found(_, rest) => says(Opening::Begins(Construct::StartTag), peek_letter(rest)),
    }
}

fn declaration<'a>(foreign: bool, text: &'a str) -> Match<'a, Opening>
    ensures { match_of opening_of result ≡ or_else (f.comment text.now) (or_else (f.doctype text.now) (f.cdata foreign text.now)) }
{
    match comment(text) {
        Match::No => match doctype(text) {
            Match::No => cdata(foreign, text),
            found => found,
        },
        found => found,
    }
}

// Finds what begins with `<`.
fn markup<'a>(foreign: bool, text: &'a str) -> Match<'a, Opening>
    ensures { match_of opening_of result
        ≡ or_else (f.comment text.now) (or_else (f.doctype text.now) (or_else (f.cdata foreign text.now)
        (or_else (f.end_tag text.now) (f.start_tag text.now)))) }
{
    match text.as_bytes() {
        [] => Match::Open,
        [b'<'] => Match::Open,
        [b'<', b'/', ..] => end_tag(text),
        [b'<', b'!', ..] => declaration(foreign, text),
        _ => start_tag(text),
    }
}

fn in_data<'a>(foreign: bool, text: &'a str) -> Match<'a, Opening>
    ensures { match_of opening_of result ≡ f.in_data foreign text.now }
{
    match text.as_bytes() {
        [] => Match::Open,
        [b'<', ..] => markup(foreign, text),
        [b'&', ..] => stands_for(reference(text)),
        [b'\r', ..] => stands_for(newline(text)),
        [0, ..] => says(Opening::Null, literal(text, "\0")),
        _ => Match::No,
    }
}

fn raw_end_tag<'a>(last: &str, text: &'a str) -> Match<'a, Opening>
    ensures { match_of opening_of result ≡ f.raw_end_tag last.now text.now }
{
    if last.is_empty() {
        return Match::No;
    }
    match literal(text, "</") {
        Match::Open => Match::Open,
        Match::No => Match::No,
        Match::Found(_, rest) => says(Opening::Begins(Construct::RawEndTag), name_is(rest, last)),
    }
}

fn reads_references(kind: RawKind) -> bool
    ensures { result ≡ f.reads_references kind }
{
    match kind {
        RawKind::Rcdata => true,
        RawKind::Rawtext => false,
        RawKind::ScriptData => false,
    }
}

fn in_raw<'a>(kind: RawKind, last: &str, text: &'a str) -> Match<'a, Opening>
    ensures { match_of opening_of result ≡ f.in_raw kind last.now text.now }
{
    match text.as_bytes() {
        [b'<', ..] => raw_end_tag(last, text),
        _ => stands_for(escape(reads_references(kind), text)),
    }
}

fn in_cdata<'a>(text: &'a str) -> Match<'a, Opening>
    ensures { match_of opening_of result ≡ f.in_cdata text.now }
{
    match text.as_bytes() {
        [b']', ..] => says(Opening::Turns(Mode::Data), literal(text, "]]>")),
        _ => stands_for(cleaned(text)),
    }
}

/// Finds the beginning of something other than a byte of plain text, at the start of the text.
#[inline(always)]
pub fn find_opening<'a>(mode: Mode, last: &str, foreign: bool, text: &'a str) -> Match<'a, Opening>
    ensures { match_of opening_of result ≡ f.opening mode last.now foreign text.now }
{
    match mode {
        Mode::Data => in_data(foreign, text),
        Mode::RawData(kind) => in_raw(kind, last, text),
        Mode::Plaintext => stands_for(cleaned(text)),
        Mode::Cdata => in_cdata(text),
    }
}
