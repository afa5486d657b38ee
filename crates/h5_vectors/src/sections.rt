//! The sections of a case.
use super::case::Part;
use super::settings::Maker;
use anyhow::{Result, bail};
use std::alloc::Global;

/// The form of an input.
#[derive(Clone, Copy)]
pub enum Form {
    Text,
    Pieces,
    Chunks,
    Tokens,
    ListsOfThree,
}

/// A section that has only a heading.
#[derive(Clone, Copy)]
pub enum Switch {
    ScriptOff,
    RefuseEach,
}

/// A section whose lines aren't stored unchanged.
#[derive(Clone, Copy)]
pub enum Lines {
    /// The words that are replaced in the sections below.
    Repeat,
    Options,
    /// The expected content of the body of a page that has nothing else.
    Body,
}

/// The heading of a section.
#[derive(Clone, Copy)]
pub enum Heading {
    Input(Form),
    Context(Maker),
    Switch(Switch),
    Lines(Lines),
    /// The expected text of a part.
    Part(Part),
}

/// A section: its heading, the number of the heading's line, and the lines below.
#[derive(Drop)]
pub struct Section {
    pub heading: Heading,
    pub line: u64,
    pub text: String,
}

// The part of this name.
fn part_named(word: &str) -> Option<Part> {
    match word {
        "document" => Some(Part::Document),
        "html" => Some(Part::Html),
        "quirks" => Some(Part::Quirks),
        "state" => Some(Part::State),
        "errors" => Some(Part::Errors),
        "messages" => Some(Part::Messages),
        "nodes" => Some(Part::Nodes),
        "loose" => Some(Part::Loose),
        "started" => Some(Part::Started),
        "replies" => Some(Part::Replies),
        "turns" => Some(Part::Turns),
        "pops" => Some(Part::Pops),
        "any-replies" => Some(Part::AnyReplies),
        _ => None,
    }
}

// The heading of this word, which follows a `#`.
fn heading_named(word: &str) -> Option<Heading> {
    match word {
        "repeat" => Some(Heading::Lines(Lines::Repeat)),
        "data" => Some(Heading::Input(Form::Text)),
        "pieces" => Some(Heading::Input(Form::Pieces)),
        "bytes" => Some(Heading::Input(Form::Chunks)),
        "tokens" => Some(Heading::Input(Form::Tokens)),
        "lists-of-three" => Some(Heading::Input(Form::ListsOfThree)),
        "document-fragment" => Some(Heading::Context(Maker::Parser)),
        "context-element" => Some(Heading::Context(Maker::Caller)),
        "script-off" => Some(Heading::Switch(Switch::ScriptOff)),
        "refuse-each" => Some(Heading::Switch(Switch::RefuseEach)),
        "options" => Some(Heading::Lines(Lines::Options)),
        "body" => Some(Heading::Lines(Lines::Body)),
        _ => Some(Heading::Part(part_named(word)?)),
    }
}

/// The number of lines of a text, counting an empty last one.
pub fn count_lines(text: &str) -> u64 {
    text.split('\n').count() as u64
}

// The section of these lines; `line` is the number of the first one, without its `#`.
fn section_of(alloc: Global, line: u64, lines: &str) -> Result<Section> {
    let (word, below) = lines.split_once('\n').unwrap_or((lines, ""));
    let Some(heading) = heading_named(word) else {
        bail!("line {line}: no section of a case is called #{word}");
    };
    Ok(Section {
        heading,
        line,
        text: String::from_str(alloc, below)?,
    })
}

// Appends the sections of lines; `first` is the number of the first line.
fn put_sections(alloc: Global, sections: &mut Vec<Section>, first: u64, lines: &str) -> Result<()> {
    let mut line = first;
    for lines in lines.split("\n#") {
        sections.push(section_of(alloc, line, lines)?)?;
        line = line.saturating_add(count_lines(lines));
    }
    Ok(())
}

/// Parses the sections of lines, each from a line that begins with `#` to the next one; `first` is the number of the first line, without
/// its `#`. An error names the line that doesn't begin a section.
pub fn sections_of(alloc: Global, first: u64, lines: &str) -> Result<Vec<Section>> {
    let mut sections = Vec::new(alloc);
    put_sections(alloc, &mut sections, first, lines)?;
    Ok(sections)
}
