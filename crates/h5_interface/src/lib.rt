//! The interface between a tree builder and a tree: the forest that contracts see, and the calls that change it.
//!
//! `sink` has the trait of a tree, `TreeSink`: each call, its change of the forest, and the condition under which it may be called. `marks`
//! has the flags of a new element, and the quirks mode of a document. `elements` makes elements with the flags that follow from their names
//! and attributes (HTML standard, section 13.2.6.1). `example` builds a small tree over any sink: a caller can know the whole tree from the
//! interface alone.
//!
//! Each call changes the forest exactly as its definition says, or fails and leaves it unchanged. Under the conditions of the call, the
//! result is a forest again. A sink chooses its fresh nodes, marks, shadow roots, integration points and copies of options, as functions of
//! the forest alone (`specs/SinkChoices.antt`).
//!
//! This crate depends on h5_names only. The rules of tree construction use it, and `h5_arena` is a sink. Begin with `specs/Forest.antt`
//! (nodes), `specs/Changes.antt` (changes of a forest) and `specs/Seen.antt` (the effect of each call); then read `src/sink.rt`.
#![tactic(auto)]

mod elements;
pub mod example;
mod marks;
mod sink;

pub use elements::{create_element, create_element_with_flags};
pub use marks::{ElementFlags, QuirksMode};
pub use sink::{NodeOrText, TreeSink};
