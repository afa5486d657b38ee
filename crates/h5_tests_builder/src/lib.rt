//! Tests of the crates that use the arena: each kind is one function over a table of rows.
//!
//! `arena` has the calls of the arena that no text causes, `trees` trees as HTML, `serialize` the calls of the serializer, `failing` a
//! writer whose writes fail in turn, and `flat` trees as blocks of bytes. `examples` runs the examples of `h5_examples`. `recording` runs a
//! tokenizer of any kind; `plain` and `standard` have texts and their tokens, `errors` texts and their parse errors, and `reading` results
//! of a tokenizer's calls. `parser` has parsers of texts and bytes, `decoding` bytes in any encoding, and `encoded_pages` a page of them.
//! `feeding` passes lines of tokens to a tree builder, `attaching` runs tree builders over sinks that attach shadow roots, `calls` has the
//! calls of a tree builder that no text causes, `selecting` selectors, and `editing` edits at a node. Begin with `src/arena.rt`.
#![tactic(auto)]

#[cfg(test)]
mod arena;
#[cfg(test)]
mod attaching;
#[cfg(test)]
mod calls;
#[cfg(test)]
mod decoding;
#[cfg(test)]
mod editing;
#[cfg(test)]
mod encoded_pages;
#[cfg(test)]
mod errors;
#[cfg(test)]
mod examples;
#[cfg(test)]
mod failing;
#[cfg(test)]
mod feeding;
#[cfg(test)]
mod flat;
#[cfg(test)]
mod parser;
#[cfg(test)]
mod plain;
#[cfg(test)]
mod reading;
#[cfg(test)]
mod recording;
#[cfg(test)]
mod selecting;
#[cfg(test)]
mod serialize;
#[cfg(test)]
mod standard;
#[cfg(test)]
mod trees;
