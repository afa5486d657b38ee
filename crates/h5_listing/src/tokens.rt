//! The tokens of a page as JSON.
use super::item::{begin_object, write_json};
use h5_print::read_escapes;
use std::alloc::{AllocError, Global};

// Writes a name and a text with escapes as a JSON member.
fn write_pair(alloc: Global, out: &mut String, name: &str, text: &str) -> Result<(), AllocError> {
    write_json(alloc, out, name)?;
    out.push(':')?;
    match read_escapes(alloc, text)? {
        Some(read) => write_json(alloc, out, read.as_str()),
        None => write_json(alloc, out, text),
    }
}

// The key for a line, by the letters that it begins with.
fn name_of(word: &str) -> &'static str {
    match word {
        "D" => "doctype",
        "Dp" => "public",
        "Ds" => "system",
        "Dq" => "quirks",
        "S" => "start",
        "E" => "end",
        "T" => "text",
        "C" => "comment",
        "N" => "null",
        "P" => "error",
        "Z" => "eof",
        "/" => "self-closing",
        _ => "other",
    }
}

// Writes the object of one line.
fn write_token(
    alloc: Global,
    out: &mut String,
    line: &str,
    path: Option<&str>,
) -> Result<(), AllocError> {
    let (word, rest) = line.split_once(' ').unwrap_or((line, ""));
    begin_object(alloc, out, path)?;
    if word == "A" {
        let (name, value) = rest.split_once(' ').unwrap_or((rest, ""));
        write_pair(alloc, out, "attribute", name)?;
        out.push(',')?;
        write_pair(alloc, out, "value", value)?;
    } else {
        write_pair(alloc, out, name_of(word), rest)?;
    }
    out.push_str("}\n")
}

/// The lines that `h5 tokens` reads, one JSON object per line: the token, and for an attribute also its `value`, after this path if there is
/// one. Fails with `AllocError` if an allocation fails.
pub fn token_lines(alloc: Global, lines: &str, path: Option<&str>) -> Result<String, AllocError> {
    let mut out = String::new(alloc);
    for line in lines.lines() {
        write_token(alloc, &mut out, line, path)?;
    }
    Ok(out)
}
