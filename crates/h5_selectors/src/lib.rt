//! CSS selectors over the nodes of a tree (Selectors Level 4, without namespaces, pseudo-elements and user actions). A tree is anything
//! with the trait `Tree` of h5_tree: an arena, or a sound block.
//!
//! A selector is parsed to a `Formula`, a condition on one element: `formula` has the conditions, `an_plus_b` indices. `scan` reads names,
//! strings and numbers; `attributes`, `indices`, `combinators` and `parser` parse selectors; `conditions` makes conditions of others, and `controls` those of
//! form controls. Their definitions are in `specs/Tokens.antt`, `Attributes.antt`, `Indices.antt`, `Asking.antt`, `Controls.antt`,
//! `PseudoClasses.antt`, `Grammar.antt` and `Counting.antt`: each function at the start of a text. It is proved that a parsed selector has
//! the condition of its text, and that parsing fails only if the text isn't a list of selectors or a selector has too many parts, or if an
//! allocation fails.
//!
//! `ways` has the relations between elements, `values` the tests of attribute values, and `languages` those of languages. `holds` tests a
//! condition on one element. `rows` has a node and the elements below it, `alike` counts siblings with equal names, and `tables` tests a
//! condition on all rows, with one pass for each part. `selector` has the public calls, `fault` the errors.
//!
//! This crate depends on h5_names, h5_interface, h5_arena (its definitions) and h5_tree. Begin with `specs/Grammar.antt`; then read
//! `specs/Holds.antt` and `specs/Selected.antt`.
#![tactic(auto)]

mod alike;
mod an_plus_b;
mod attributes;
mod combinators;
mod conditions;
mod controls;
mod fault;
mod formula;
mod holds;
mod indices;
mod languages;
mod parser;
mod rows;
mod scan;
mod selector;
mod tables;
mod values;
mod ways;

pub use fault::{SelectorError, SelectorProblem};
pub use formula::{AnPlusB, AttrTest, Formula, Operator, Side, Way, Written};
pub use parser::parse;
pub use selector::Selector;
