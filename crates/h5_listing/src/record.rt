//! Records: pages in JSON lines, and their output lines.
use super::item::write_json;
use super::member::written_value;
use serde_json::{Error, Value};
use std::alloc::{AllocError, Global};
use std::fmt::Write;

/// The page of a record.
#[derive(Clone, Copy)]
pub enum Page<'a> {
    /// Its HTML.
    Html(&'a str),
    /// The name of its file.
    Path(&'a str),
}

/// Why a record has no page.
#[derive(Clone, Copy)]
pub enum NoPage {
    /// It has neither `html` nor `path`.
    Missing,
    /// Its `html` isn't a string.
    HtmlIsNoString,
    /// It has no `html`, and its `path` isn't a string.
    PathIsNoString,
}

/// A record of a page.
pub struct Record<'a> {
    value: Value,
    // The value of its `id`, as it is written.
    id: Option<&'a str>,
}

impl<'a> Drop for Record<'a> {
    fn drop(self) {
        let Record {
            value: _value,
            id: _id,
        } = self;
    }
}

impl<'a> Record<'a> {
    /// The record in a line. Fails with an `Error` if the line isn't JSON, which says where, or if an allocation fails.
    pub fn parse(alloc: Global, line: &'a str) -> Result<Record<'a>, Error> {
        let value = Value::from_str(alloc, line)?;
        let id = if value.is_object() {
            written_value(alloc, line, "id")?
        } else {
            None
        };
        Ok(Record { value, id })
    }

    /// The page: the value of `html`, or else the file with the name in `path`. Fails with `Missing` if the record has neither, and with
    /// `HtmlIsNoString` or `PathIsNoString` if the value isn't a string.
    pub fn page(&self) -> Result<Page<'_>, NoPage> {
        match (self.value.get("html"), self.value.get("path")) {
            (Some(html), _) => match html.as_str() {
                Some(html) => Ok(Page::Html(html)),
                None => Err(NoPage::HtmlIsNoString),
            },
            (None, Some(path)) => match path.as_str() {
                Some(path) => Ok(Page::Path(path)),
                None => Err(NoPage::PathIsNoString),
            },
            (None, None) => Err(NoPage::Missing),
        }
    }
}

/// The start of an output line: an object with the `id` of the record, as it was written, or the number of its line if it has none. Fails
/// with `AllocError` if an allocation fails.
pub fn begin_answer(
    alloc: Global,
    record: Option<&Record<'_>>,
    line: u64,
) -> Result<String, AllocError> {
    let mut out = String::new(alloc);
    match record.and_then(|record| record.id) {
        Some(id) => write!(out, "{{\"id\":{id}")?,
        None => write!(out, "{{\"line\":{line}")?,
    }
    Ok(out)
}

/// Ends an output line with a key and its value, which is JSON or a text. Fails with `AllocError` if an allocation fails.
pub fn end_answer(
    alloc: Global,
    answer: &mut String,
    name: &str,
    said: &str,
    is_json: bool,
) -> Result<(), AllocError> {
    answer.push(',')?;
    write_json(alloc, answer, name)?;
    answer.push(':')?;
    if is_json {
        answer.push_str(said)?;
    } else {
        write_json(alloc, answer, said)?;
    }
    answer.push_str("}\n")
}
