//! The examples of `docs/CALLING.md`: a module for each heading there that has code, or for a few of them.
//!
//! `.ci/snippets` compares that page with these files, and `h5_tests_builder` runs each example. Begin with `src/page.rt`.
#![tactic(auto)]

pub mod cleaning;
pub mod errors;
pub mod fragment;
pub mod page;
pub mod serializer;
pub mod tokens;
pub mod tree;
