//! The state of the tokenizer, and the results of steps.
ghost use Rattle.std.specs.Prelude.{◌≡◌};

use super::front::Mode;
use h5_markup::{Inside, SharedNames};
use h5_tokenizer_input::{LastName, Stop};

/// The state of the tokenizer between two tokens.
#[derive(Drop)]
pub struct State {
    /// True if a byte order mark may still come.
    pub at_start: bool,
    pub mode: Mode,
    /// The last start tag's name, or the empty text.
    pub last: LastName,
    /// The line in which the next token begins. It stops at the maximum of `u64`.
    pub line: u64,
    /// The names that HTML doesn't know.
    pub names: SharedNames,
}

/// How far the end of the construct at the start was searched for.
#[derive(Clone, Copy)]
pub struct Search {
    /// The sink's reply about CDATA sections when the construct's opening was found.
    pub foreign: bool,
    /// How many bytes after the opening were searched.
    pub at: usize,
    /// Where in the construct the next byte is.
    pub place: Inside,
}

/// The result of a step.
#[derive(Drop)]
pub enum Turn<'a, H> {
    /// Further input decides what the input begins with.
    Waits(Option<Search>),
    /// Tokenization goes on with this input, after the given number of newlines.
    Goes(&'a str, u64),
    /// Tokenization stops before this input, after the given number of newlines.
    Stops(Stop<H>, &'a str, u64),
}

/// The result of steps.
#[derive(Drop)]
pub enum Halt<'a, H> {
    /// Further input decides what the input begins with.
    Waits(&'a str, Option<Search>),
    Stops(Stop<H>, &'a str),
}
