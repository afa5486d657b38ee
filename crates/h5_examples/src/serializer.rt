//! A serializer that counts.
use html_tree_builder::serialize::{
    AttrRef, Serialize, SerializeFault, TraversalScope, Visit, VisitSerializer,
};
use html_tree_builder::{Arena, QualName};
use std::alloc::AllocError;

/// Counts elements.
#[derive(Drop)]
struct Counter {
    elements: u64,
}

impl Visit for Counter {
    fn start<T: AttrRef, I: Iterator<Item = T> + Drop>(
        &mut self,
        _name: &QualName,
        _attrs: I,
    ) -> Result<(), AllocError> {
        self.elements = self.elements.saturating_add(1);
        Ok(())
    }
}

/// Counts the elements of a document.
pub fn count_elements(arena: &Arena) -> Result<u64, SerializeFault> {
    let mut counting = VisitSerializer {
        visitor: Counter { elements: 0 },
    };
    let document = arena.at(arena.document());
    document.serialize(&mut counting, TraversalScope::ChildrenOnly(None))?;
    Ok(counting.visitor.elements)
}
