//! The items of a listing.
use h5_print::write_escapes;
use serde_json::Value;
use std::alloc::{AllocError, Global};
use std::fmt::Write;

/// How items are printed.
#[derive(Clone, Copy)]
pub enum Form {
    /// One line per item: its values with escapes, separated by tabs.
    Lines,
    /// One JSON object per line.
    Json,
    /// One JSON array of objects.
    Array,
}

// A text, or a number.
#[derive(Drop)]
enum Content {
    Text(String),
    Number(u64),
}

impl Content {
    // Prints it for a line, with escapes.
    fn print(&self, out: &mut String) -> Result<(), AllocError> {
        match self {
            Content::Text(text) => write_escapes(out, text.as_str()),
            Content::Number(number) => write!(out, "{number}"),
        }
    }

    // Prints it unchanged.
    fn print_plain(&self, out: &mut String) -> Result<(), AllocError> {
        match self {
            Content::Text(text) => out.push_str(text.as_str()),
            Content::Number(number) => write!(out, "{number}"),
        }
    }

    // Prints it as JSON.
    fn print_json(&self, alloc: Global, out: &mut String) -> Result<(), AllocError> {
        match self {
            Content::Text(text) => write_json(alloc, out, text.as_str()),
            Content::Number(number) => write!(out, "{number}"),
        }
    }
}

/// A value and its name.
#[derive(Drop)]
struct Field {
    name: &'static str,
    value: Content,
}

/// An item of a listing: values with names.
pub struct Item {
    fields: Vec<Field>,
    alloc: Global,
}

impl Drop for Item {
    fn drop(self) {
        let Item {
            fields: _fields,
            alloc: _alloc,
        } = self;
    }
}

impl Item {
    /// An item without values.
    pub fn new(alloc: Global) -> Item {
        Item {
            fields: Vec::new(alloc),
            alloc,
        }
    }

    /// Adds a value with its name in JSON. Fails with `AllocError` if an allocation fails.
    pub fn add(&mut self, name: &'static str, value: &str) -> Result<(), AllocError> {
        let value = Content::Text(String::from_str(self.alloc, value)?);
        self.fields.push(Field { name, value })?;
        Ok(())
    }

    /// Adds a number with its name in JSON. Fails with `AllocError` if an allocation fails.
    pub fn add_number(&mut self, name: &'static str, number: u64) -> Result<(), AllocError> {
        let value = Content::Number(number);
        self.fields.push(Field { name, value })?;
        Ok(())
    }

    /// Prints the values unchanged, each followed by a NUL. Fails with `AllocError` if an allocation fails.
    pub fn print_plain(&self, out: &mut String) -> Result<(), AllocError> {
        for field in self.fields.as_slice() {
            field.value.print_plain(out)?;
            out.push('\0')?;
        }
        Ok(())
    }

    // The values, separated by tabs.
    fn print_values(&self, out: &mut String) -> Result<(), AllocError> {
        let mut is_first = true;
        for field in self.fields.as_slice() {
            if !is_first {
                out.push('\t')?;
            }
            field.value.print(out)?;
            is_first = false;
        }
        Ok(())
    }

    // The values with their names.
    fn print_json(&self, out: &mut String, path: Option<&str>) -> Result<(), AllocError> {
        begin_object(self.alloc, out, path)?;
        let mut is_first = true;
        for field in self.fields.as_slice() {
            if !is_first {
                out.push(',')?;
            }
            write_json(self.alloc, out, field.name)?;
            out.push(':')?;
            field.value.print_json(self.alloc, out)?;
            is_first = false;
        }
        out.push('}')
    }

    // Prints it, as a line or as an object with this path.
    fn print(&self, out: &mut String, form: Form, path: Option<&str>) -> Result<(), AllocError> {
        match form {
            Form::Lines => self.print_values(out),
            Form::Json | Form::Array => self.print_json(out, path),
        }
    }
}

// Prints items as one array.
fn print_array(items: &[Item], out: &mut String) -> Result<(), AllocError> {
    let mut is_first = true;
    out.push('[')?;
    for item in items {
        if !is_first {
            out.push(',')?;
        }
        item.print_json(out, None)?;
        is_first = false;
    }
    out.push(']')
}

/// Prints items, each followed by a newline, or as an array. An object that isn't in an array begins with this path, if there is one. Fails
/// with `AllocError` if an allocation fails.
pub fn print_items(
    items: &[Item],
    out: &mut String,
    form: Form,
    path: Option<&str>,
) -> Result<(), AllocError> {
    if let Form::Array = form {
        return print_array(items, out);
    }
    for item in items {
        item.print(out, form, path)?;
        out.push('\n')?;
    }
    Ok(())
}

/// Begins a JSON object whose first member is this path, if there is one; another member must follow. Fails with `AllocError` if an
/// allocation fails.
pub fn begin_object(alloc: Global, out: &mut String, path: Option<&str>) -> Result<(), AllocError> {
    out.push('{')?;
    if let Some(path) = path {
        out.push_str("\"path\":")?;
        write_json(alloc, out, path)?;
        out.push(',')?;
    }
    Ok(())
}

/// Writes a text as a JSON string. Fails with `AllocError` if an allocation fails.
pub fn write_json(alloc: Global, out: &mut String, text: &str) -> Result<(), AllocError> {
    let value = Value::String(String::from_str(alloc, text)?);
    let json = value.to_string(alloc)?;
    out.push_str(json.as_str())
}
