//! Serializers that have failed.
use h5_names::{Attribute, LocalName, Namespace, QualName};
use h5_serialize::{SerializeFault, Serializer};
use std::alloc::{AllocError, Global};

fn is_failed(answer: Result<(), SerializeFault>) -> bool {
    matches!(answer, Err(SerializeFault::Failed))
}

// Returns true if the calls of a start tag and of an end tag fail with `Failed`.
fn fail_at_tags<S: Serializer>(alloc: Global, serializer: &mut S) -> Result<bool, AllocError> {
    let name = QualName::new(None, Namespace::html(), LocalName::new(alloc, "p")?);
    let attrs: Vec<Attribute> = Vec::new(alloc);
    let start = serializer.start_elem(name.clone()?, attrs.iter());
    let end = serializer.end_elem(name);
    Ok(is_failed(start) && is_failed(end))
}

// Returns true if the other four calls fail with `Failed`.
fn fail_at_texts<S: Serializer>(serializer: &mut S) -> bool {
    let text = serializer.write_text("t");
    let comment = serializer.write_comment("c");
    let doctype = serializer.write_doctype("d");
    let instruction = serializer.write_processing_instruction("i", "j");
    is_failed(text) && is_failed(comment) && is_failed(doctype) && is_failed(instruction)
}

/// Returns true if each of the six calls of a serializer fails with `Failed`. Their names need no memory.
pub fn all_calls_fail<S: Serializer>(
    alloc: Global,
    serializer: &mut S,
) -> Result<bool, AllocError> {
    let fail_at_tags = fail_at_tags(alloc, serializer)?;
    Ok(fail_at_texts(serializer) && fail_at_tags)
}
