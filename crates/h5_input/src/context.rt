//! The element around a fragment.
use html_tree_builder::{LocalName, Namespace, QualName, namespaces};
use std::alloc::{AllocError, Global};

// The namespace of a context, and its name there: after `svg ` or `math ` a name of SVG or MathML, otherwise one of HTML.
fn context_parts(text: &str) -> (&'static str, &str) {
    match text.split_once(' ') {
        Some(("svg", local)) => (namespaces::SVG, local),
        Some(("math", local)) => (namespaces::MATHML, local),
        _ => (namespaces::HTML, text),
    }
}

/// Returns true if a text names a context: a name without spaces, which may follow `svg ` or `math `.
pub fn is_context(text: &str) -> bool {
    let (_url, local) = context_parts(text);
    !local.is_empty() && !local.contains(' ')
}

/// The name of a context. One of HTML is put into lower case, as a tag's name is. Fails if an allocation fails.
pub(crate) fn context_name(alloc: Global, text: &str) -> Result<QualName, AllocError> {
    let (url, local) = context_parts(text);
    let local = if url == namespaces::HTML {
        LocalName::from_string(local.to_ascii_lowercase(alloc)?)?
    } else {
        LocalName::new(alloc, local)?
    };
    Ok(QualName::new(None, Namespace::new(alloc, url)?, local))
}
