//! A case: an input, and the expected results.
use super::settings::Settings;
use std::fmt;

/// The input of a case.
#[derive(Drop)]
pub enum Input {
    Text(String),
    /// A text in chunks.
    Pieces(Vec<String>),
    /// Bytes in chunks.
    Chunks(Vec<Vec<u8>>),
    /// Lines of tokens.
    Tokens(String),
    /// Lines of one token each; every list of three of them is run.
    ListsOfThree(String),
}

/// A part of the result.
#[derive(Clone, Copy, Debug, PartialEq, Eq)]
pub enum Part {
    Document,
    Html,
    Quirks,
    State,
    Errors,
    Messages,
    Nodes,
    Loose,
    Started,
    Replies,
    Turns,
    Pops,
    /// The replies that occur for any list of three.
    AnyReplies,
}

impl Part {
    /// Returns true if the part belongs to the tree, so that it doesn't depend on how the tree was made.
    pub fn is_of_tree(self) -> bool {
        matches!(self, Part::Document | Part::Html | Part::Quirks)
    }

    /// Returns true if the part exists only for tokens.
    pub fn is_of_tokens(self) -> bool {
        matches!(self, Part::Replies | Part::Turns | Part::Pops)
    }

    /// Returns true if the part doesn't depend on how texts are split.
    pub fn is_of_any_cut(self) -> bool {
        !matches!(self, Part::Errors | Part::Messages | Part::Turns)
    }
}

impl fmt::Display for Part {
    fn fmt<W: fmt::Write>(&self, f: &mut fmt::Formatter<W>) -> fmt::Result {
        match self {
            Part::Document => write!(f, "document"),
            Part::Html => write!(f, "html"),
            Part::Quirks => write!(f, "quirks"),
            Part::State => write!(f, "state"),
            Part::Errors => write!(f, "errors"),
            Part::Messages => write!(f, "messages"),
            Part::Nodes => write!(f, "nodes"),
            Part::Loose => write!(f, "loose"),
            Part::Started => write!(f, "started"),
            Part::Replies => write!(f, "replies"),
            Part::Turns => write!(f, "turns"),
            Part::Pops => write!(f, "pops"),
            Part::AnyReplies => write!(f, "any-replies"),
        }
    }
}

/// The expected text of a part.
#[derive(Drop)]
pub struct Expected {
    pub part: Part,
    pub text: String,
}

/// A case, with the number of its first line and its subject.
pub struct Case {
    pub line: u64,
    pub about: String,
    pub input: Input,
    pub settings: Settings,
    pub expected: Vec<Expected>,
}

impl Drop for Case {
    fn drop(self) {
        let Case {
            line: _line,
            about: _about,
            input: _input,
            settings: _settings,
            expected: _expected,
        } = self;
    }
}
