//! The results of a run.
use super::case::Part;
use super::trees::{count_started, document_of, loose_of, messages_of};
use anyhow::Result;
use h5_arena::Arena;
use h5_interface::QuirksMode;
use h5_tests_sinks::html_of;
use h5_token::states::State;
use std::alloc::{AllocError, Global};

/// The results of a run.
pub struct Made {
    arena: Arena,
    /// The initial tokenizer state of a fragment.
    state: Option<State>,
    /// Lines of replies.
    replies: String,
    /// Lines of turns.
    turns: String,
    /// The number of elements that the sink was informed of at the end.
    pops: usize,
}

impl Drop for Made {
    fn drop(self) {
        let Made {
            arena: _arena,
            state: _state,
            replies: _replies,
            turns: _turns,
            pops: _pops,
        } = self;
    }
}

// A tokenizer state as a text, or the empty text.
fn text_of_state(alloc: Global, state: Option<State>) -> Result<String, AllocError> {
    match state {
        Some(state) => format!(in alloc; "{state:?}"),
        None => Ok(String::new(alloc)),
    }
}

fn text_of_mode(alloc: Global, mode: QuirksMode) -> Result<String, AllocError> {
    format!(in alloc; "{mode:?}")
}

fn html_text(alloc: Global, arena: &Arena) -> Result<String> {
    let html = html_of(alloc, arena)?;
    Ok(String::from_utf8(html)?)
}

// Lines without the last newline.
fn without_end(alloc: Global, lines: &str) -> Result<String, AllocError> {
    String::from_str(alloc, lines.strip_suffix("\n").unwrap_or(lines))
}

// The messages of parse errors on lines, without the last newline.
fn messages_without_end(alloc: Global, arena: &Arena) -> Result<String, AllocError> {
    let lines = messages_of(alloc, arena)?;
    without_end(alloc, lines.as_str())
}

// The elements without a parent on lines, without the last newline.
fn loose_without_end(alloc: Global, arena: &Arena) -> Result<String, AllocError> {
    let lines = loose_of(alloc, arena)?;
    without_end(alloc, lines.as_str())
}

impl Made {
    /// The results of a text: a tree and, for a fragment, the initial tokenizer state.
    pub fn by_text(alloc: Global, arena: Arena, state: Option<State>) -> Made {
        Made {
            arena,
            state,
            replies: String::new(alloc),
            turns: String::new(alloc),
            pops: 0,
        }
    }

    /// The results of tokens: a tree, the lines of replies and of turns, and the number of elements that the sink was informed of at the
    /// end.
    pub fn by_tokens(
        arena: Arena,
        state: Option<State>,
        replies: String,
        turns: String,
        pops: usize,
    ) -> Made {
        Made {
            arena,
            state,
            replies,
            turns,
            pops,
        }
    }

    // The indent of the printed lines that are compared: all lines of a document, and those below the root of a fragment.
    fn indent(&self) -> &'static str {
        match self.state {
            Some(_) => "  ",
            None => "",
        }
    }

    // The value of a part that is a number.
    fn number(&self, part: Part) -> usize {
        match part {
            Part::Errors => self.arena.errors().len(),
            Part::Nodes => self.arena.len(),
            Part::Started => count_started(&self.arena),
            _ => self.pops,
        }
    }

    // A part of the run, as its section gives it.
    fn part_of_run(&self, alloc: Global, part: Part) -> Result<String, AllocError> {
        match part {
            Part::State => text_of_state(alloc, self.state),
            Part::Messages => messages_without_end(alloc, &self.arena),
            Part::Loose => loose_without_end(alloc, &self.arena),
            Part::Replies | Part::AnyReplies => without_end(alloc, self.replies.as_str()),
            Part::Turns => without_end(alloc, self.turns.as_str()),
            _ => self.number(part).to_string(alloc),
        }
    }

    /// A part, as its section gives it.
    pub fn part(&self, alloc: Global, part: Part) -> Result<String> {
        match part {
            Part::Document => Ok(document_of(alloc, &self.arena, self.indent())?),
            Part::Html => html_text(alloc, &self.arena),
            Part::Quirks => Ok(text_of_mode(alloc, self.arena.quirks())?),
            _ => Ok(self.part_of_run(alloc, part)?),
        }
    }
}
