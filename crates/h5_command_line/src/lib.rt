//! The command line of the program `hengaruto`. It is a separate crate so that a change of the program doesn't prove it again.
//!
//! `words` has its subcommands with their options.
#![tactic(auto)]

mod words;

pub use words::{Prints, command, prints_of};
