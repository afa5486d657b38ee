//! Prints the parse errors of a page.
use super::fault::Fault;
use h5_input::{PageError, PageErrors};
use h5_listing::{Form, Item, print_items};
use h5_print::write_escapes;
use std::alloc::{AllocError, Global};
use std::io::Write;

/// The number of errors of a page, and how many of them were printed.
#[derive(Clone, Copy)]
pub struct ErrorCount {
    pub all: u64,
    pub shown: u64,
}

impl ErrorCount {
    /// No errors.
    pub fn none() -> ErrorCount {
        ErrorCount { all: 0, shown: 0 }
    }
}

// Writes an error as a line that begins with the name of the file.
fn write_line(out: &mut String, error: PageError<'_>, file: &str) -> Result<(), AllocError> {
    match error {
        PageError::Text(told) => {
            let (line, column, name) = (told.at.line, told.at.column, told.error.name());
            write!(out, "{file}:{line}:{column}: {name}\n")
        }
        PageError::Tree {
            line,
            name,
            message,
        } => {
            write!(out, "{file}:{line}: {name}")?;
            if !message.is_empty() {
                out.push_str(": ")?;
                write_escapes(out, message)?;
            }
            out.push('\n')
        }
    }
}

// The fields of an error in JSON.
fn item_of(alloc: Global, error: PageError<'_>) -> Result<Item, AllocError> {
    let mut item = Item::new(alloc);
    match error {
        PageError::Text(told) => {
            item.add_number("line", told.at.line)?;
            item.add_number("column", told.at.column)?;
            item.add_number("offset", told.at.offset)?;
            item.add("name", told.error.name())?;
        }
        PageError::Tree {
            line,
            name,
            message,
        } => {
            item.add_number("line", line)?;
            item.add("name", name)?;
            item.add("message", message)?;
        }
    }
    Ok(item)
}

// The errors as lines.
fn lines_of(alloc: Global, errors: &[PageError<'_>], file: &str) -> Result<String, AllocError> {
    let mut text = String::new(alloc);
    for error in errors {
        write_line(&mut text, *error, file)?;
    }
    Ok(text)
}

// The errors as objects that begin with the name of the file, or as an array.
fn objects_of(
    alloc: Global,
    errors: &[PageError<'_>],
    file: &str,
    form: Form,
) -> Result<String, AllocError> {
    let mut items = Vec::new(alloc);
    for error in errors {
        items.push(item_of(alloc, *error)?)?;
    }
    let mut text = String::new(alloc);
    print_items(items.as_slice(), &mut text, form, Some(file))?;
    Ok(text)
}

/// Writes the first errors of a page, up to the limit, and returns how many there are. Lines and objects begin with the name of the file; objects
/// of an array don't.
pub fn put_errors<W: Write>(
    alloc: Global,
    errors: &PageErrors,
    file: &str,
    limit: usize,
    form: Form,
    out: &mut W,
) -> Result<ErrorCount, Fault> {
    let first = errors.first(alloc, limit)?;
    let text = match form {
        Form::Lines => lines_of(alloc, first.as_slice(), file)?,
        Form::Json | Form::Array => objects_of(alloc, first.as_slice(), file, form)?,
    };
    out.write_all(text.as_bytes()).map_err(Fault::Write)?;
    Ok(ErrorCount {
        all: errors.count(),
        shown: first.len() as u64,
    })
}

/// Reports how many errors a page has, if any. An error of standard error is ignored.
pub fn tell_count(rt: &HostRuntime, name: &str, count: ErrorCount) {
    let ErrorCount { all, shown } = count;
    let noun = if all == 1 { "error" } else { "errors" };
    let _told = if shown < all {
        writeln!(
            rt.stderr(),
            "hengaruto: {name}: {all} parse {noun}, {shown} shown"
        )
    } else if all > 0 {
        writeln!(rt.stderr(), "hengaruto: {name}: {all} parse {noun}")
    } else {
        Ok(())
    };
}
