//! Tests of the crates below the tree builder, of the commands of `h5`, and of listings.
//!
//! The values of definitions for known arguments are lemmas in `proofs`, one file for each theme: the prover computes them, and nothing
//! runs. The modules have the tests that must run. `order` has the order of names, `clones` each `clone` that may allocate, and `token` the
//! message of an error and a token sink over another one. `running` runs the program in memory, `commands` has its rows, and `deep` its
//! deep documents. `listing` has numbers in lists. Begin with `proofs/Names.antt`.
#![tactic(auto)]

#[cfg(test)]
mod clones;
#[cfg(test)]
mod commands;
#[cfg(test)]
mod deep;
#[cfg(test)]
mod listing;
#[cfg(test)]
mod order;
#[cfg(test)]
mod running;
#[cfg(test)]
mod token;
