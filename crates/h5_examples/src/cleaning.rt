//! A cleaned fragment.
use html_tree_builder::clean::{DefaultPolicy, clean};
use std::alloc::{AllocError, Global};

/// Cleans a fragment by the policy for texts.
pub fn cleaned(alloc: Global, html: &str) -> Result<String, AllocError> {
    clean(alloc, html, &DefaultPolicy)
}
