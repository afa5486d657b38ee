//! The commands of the program `h5`, over any input and output.
//!
//! `words` finds the command of the arguments: lines of tokens to a tree, a text to a tree, as a document or as a fragment, or a text to
//! HTML. `command` runs it, `build` computes the output, `output` writes, and `fault` has the errors, with their messages and exit
//! statuses. `laws` says that an input has at most one output.
//!
//! Contracts can't say whether a read, an allocation or a write fails; they say what is shown then.
//!
//! This crate depends on h5_tree_builder, h5_driver (the parser) and h5_print, and on what these need; the program `h5` uses it. Begin with
//! `specs/Words.antt`, `specs/Printed.antt` (the output of an input) and `specs/Outcome.antt` (the outcome of a run); then read
//! `src/command.rt`.
#![tactic(auto)]

mod build;
mod command;
mod fault;
pub mod laws;
mod output;
mod words;

pub use command::{refuse_words, run};
pub use fault::Fault;
