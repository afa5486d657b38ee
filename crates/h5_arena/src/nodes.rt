//! The nodes of an arena.
use super::below::Below;
use super::link::Link;
use h5_interface::ElementFlags;
use h5_names::{Attribute, QualName};
use std::sync::Arc;

/// A node of an arena, by its index in the vector.
#[derive(Clone, Copy, Debug, PartialEq, Eq)]
pub struct NodeId {
    pub(crate) index: usize,
}

/// The kind of a node (DOM standard, section 4, "Nodes").
#[derive(Debug, Drop)]
pub enum Kind {
    Document,
    Doctype {
        name: String,
        public_id: String,
        system_id: String,
    },
    Element(QualName),
    Comment(String),
    /// A processing instruction.
    Instruction {
        target: String,
        text: String,
    },
    /// The contents of a template.
    Fragment,
}

/// A child of a node. No text is empty, and no two texts are neighbours.
#[derive(Debug, Drop)]
pub enum Child {
    Node(NodeId),
    Text(String),
}

/// A node. Elements with equal names share their kind.
#[derive(Drop)]
pub(crate) struct NodeData {
    pub(crate) kind: Arc<Kind>,
    pub(crate) attrs: Vec<Attribute>,
    pub(crate) children: Below,
    pub(crate) contents: Link,
    // The parent of a child, or the template of its contents.
    pub(crate) parent: Link,
    pub(crate) flags: ElementFlags,
    pub(crate) started: bool,
    pub(crate) form: Link,
}
