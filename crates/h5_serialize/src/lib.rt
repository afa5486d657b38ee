//! Serializing: from the calls of a tree's walk to its text (HTML standard, section 13.3, "Serializing HTML fragments").
//!
//! A value that is [`Serialize`] makes six kinds of calls on a [`Serializer`]. [`HtmlSerializer`] writes HTML, and [`serialize`] runs it
//! over a node. Contracts see calls as data, and the text of a list of calls is a definition. [`Visit`] is a short form of a serializer;
//! [`escape_text`] and [`escape_attribute`] escape a single text.
//!
//! `serializer`, `visit` and `attributes` have the traits, `html` the HTML serializer with its `openers` and `options`, `write` the
//! function `serialize`. `tags`, `known_tags`, `escape` and `escaped` write tags and texts, `names` tests for void elements and for
//! elements with unescaped text, `fault` has the errors, and `laws` the laws of escapes and walks.
//!
//! This crate depends on h5_names and h5_tables. Begin with `specs/Call.antt`, `specs/Writing.antt` (the text of a call),
//! `specs/Standing.antt` (the state of the HTML serializer) and `specs/Walk.antt` (lists of calls).
#![tactic(auto)]

mod attributes;
mod escape;
mod escaped;
mod fault;
mod html;
mod known_tags;
pub mod laws;
mod names;
mod openers;
mod options;
mod serializer;
mod tags;
mod visit;
mod write;

pub use attributes::AttrRef;
pub use escaped::{escape_attribute, escape_text};
pub use fault::SerializeFault;
pub use html::HtmlSerializer;
pub use options::{SerializeOpts, TraversalScope};
pub use serializer::{Serialize, Serializer};
pub use visit::{Visit, VisitSerializer};
pub use write::serialize;
