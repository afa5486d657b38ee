//! Names of elements and attributes, and attributes themselves.
//!
//! Contracts see a local name, a namespace or a prefix as its text, a list of bytes. How a name is stored is private to this crate: a known
//! name is stored as a number, and is made and cloned without memory.
//!
//! `local_name`, `name_prefix` and `namespace_url` have the parts of names; `qualified` has whole names and attributes. `known_name` has
//! the names that HTML knows, `known_slots` finds one by its text, and `known_cases` converts between lower and mixed case. `namespaces`
//! has the namespaces that HTML knows. `laws` relates equality, order and hash to the texts.
//!
//! This crate depends on no other, and nearly all others depend on it. Begin with `specs/AttributeText.antt` and `src/qualified.rt`.
#![tactic(auto)]

mod known_cases;
mod known_name;
mod known_slots;
pub mod laws;
mod local_name;
mod name_prefix;
mod namespace_url;
pub mod namespaces;
mod qualified;

pub use known_name::KnownName;
pub use local_name::LocalName;
pub use name_prefix::Prefix;
pub use namespace_url::Namespace;
pub use qualified::{Attribute, ExpandedName, QualName};
