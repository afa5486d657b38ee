//! Deep documents, from text to text.
use super::running::check_output;
use std::alloc::{AllocError, Global};
use std::process::Abort;
use std::test::Fail;

// A document with the given number of elements, each in the one before. It is written as its HTML is.
fn nested(alloc: Global, count: usize) -> Result<String, AllocError> {
    let starts = "<div>".repeat(alloc, count)?;
    let ends = "</div>".repeat(alloc, count)?;
    format!(in alloc; "<html><head></head><body>{starts}{ends}</body></html>")
}

fn is_written_back(rt: &impl Abort, alloc: Global, count: usize) -> Result<(), AllocError> {
    let page = nested(alloc, count)?;
    check_output(rt, alloc, &["html"], page.as_bytes(), 0, page.as_str(), "")
}

#[test]
fn deep_documents_are_written_back(rt: HostRuntime) -> Result<(), Fail> {
    for &count in &[10_000, 100_000] {
        is_written_back(&rt, rt.alloc(), count)?;
    }
    Ok(())
}
