//! A sanitizer: it removes from untrusted HTML what a policy doesn't allow, so that a parser of fragments builds
//! exactly the allowed tree from the result (`laws`).
//!
//! A policy allows elements and attributes by name. Only 85 names of elements have a kind (`kind`), and no other is
//! ever allowed. An allowed element is left if it fits at its place: if the rule of its start tag would close nothing
//! (`place`). An element that isn't left is replaced by its content, or dropped with it. No attribute is left that
//! `is_refused`.
//!
//! `clean` has the functions, `policy` the trait, `default_policy` a policy for texts, and `allow_list` one that is a
//! table, over `name_list`; `lists` has the names that the definitions name; `urls` has the schemes of URLs. `cleaner` is a serializer that passes what is allowed on to
//! the one that writes HTML; `attributes` and `texts` have what is left of these, and `elements` the open elements.
//!
//! The crate depends on `h5_driver` for parsing, on `h5_arena` and `h5_serialize`, and on the plain fragments of
//! `h5_builder_laws` and `h5_round_trip`. Begin with `specs/Cleaned.antt`, then read `specs/Pass.antt` (what is left of a
//! tree) and `specs/Places.antt`.
#![tactic(auto)]

mod allow_list;
mod attributes;
mod cleaner;
mod cleaning;
mod default_policy;
mod elements;
mod kind;
pub mod laws;
mod lists;
mod name_list;
mod place;
mod policy;
mod texts;
mod urls;

pub use allow_list::AllowList;
pub use attributes::{is_prefix, is_refused, may_act};
pub use cleaner::{Cleaner, Front};
pub use cleaning::{clean, clean_into, clean_tree};
pub use default_policy::DefaultPolicy;
pub use elements::OpenElement;
pub use kind::{Kind, kind_of};
pub use place::{Around, Place, Spot};
pub use policy::Policy;
