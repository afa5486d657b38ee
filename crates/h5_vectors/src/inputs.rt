//! Parses the inputs of cases.
use super::case::Input;
use super::sections::Form;
use anyhow::{Result, bail};
use h5_print::{LineFault, parse, read_escapes};
use std::alloc::{AllocError, Global};

// Checks that these are lines of tokens; `line` is the number of the line above them.
fn check_tokens(alloc: Global, line: u64, lines: &str) -> Result<()> {
    match parse(alloc, lines) {
        Ok(_) => Ok(()),
        Err(LineFault::Bad(number)) => {
            let bad = line.saturating_add(number);
            bail!("line {bad}: it is no line of tokens")
        }
        Err(LineFault::Memory) => bail!("out of memory"),
    }
}

// The chunk of a line.
fn piece_of(alloc: Global, line: u64, piece: &str) -> Result<String> {
    match read_escapes(alloc, piece)? {
        Some(text) => Ok(text),
        None => bail!("line {line}: a piece below has an escape that there isn't"),
    }
}

// Appends the chunks of lines.
fn put_pieces(alloc: Global, pieces: &mut Vec<String>, line: u64, lines: &str) -> Result<()> {
    for piece in lines.split('\n') {
        pieces.push(piece_of(alloc, line, piece)?)?;
    }
    Ok(())
}

// A text in chunks, one on each line.
fn pieces_of(alloc: Global, line: u64, lines: &str) -> Result<Input> {
    let mut pieces = Vec::new(alloc);
    put_pieces(alloc, &mut pieces, line, lines)?;
    Ok(Input::Pieces(pieces))
}

// The byte of two hexadecimal digits, and the text after them.
fn cut_byte(text: &str) -> Option<(u8, &str)> {
    let (digits, behind) = text.split_at_checked(2)?;
    match u8::from_str_radix(digits, 16) {
        Ok(byte) => Some((byte, behind)),
        Err(_) => None,
    }
}

// Appends the byte of a text's first two digits, and then the text after them. Returns true if there are such digits.
fn put_byte(bytes: &mut Vec<u8>, text: &str) -> Result<bool, AllocError> {
    let Some((byte, behind)) = cut_byte(text) else {
        return Ok(false);
    };
    bytes.push(byte)?;
    bytes.extend_from_slice(behind.as_bytes())?;
    Ok(true)
}

// Appends a part of a text. A part that isn't the first begins with the two digits of a byte; returns true if it does.
fn put_part(bytes: &mut Vec<u8>, place: usize, part: &str) -> Result<bool, AllocError> {
    if place > 0 {
        return put_byte(bytes, part);
    }
    bytes.extend_from_slice(part.as_bytes())?;
    Ok(true)
}

// Appends the bytes of a text, in which a byte may be written as `\x` and two digits. Returns true if these are valid.
fn put_text(bytes: &mut Vec<u8>, text: &str) -> Result<bool, AllocError> {
    for (place, part) in text.split("\\x").enumerate() {
        if !put_part(bytes, place, part)? {
            return Ok(false);
        }
    }
    Ok(true)
}

// Appends the bytes of a line.
fn put_chunk(bytes: &mut Vec<u8>, line: u64, chunk: &str) -> Result<()> {
    if !put_text(bytes, chunk)? {
        bail!("line {line}: a chunk below has an escape that there isn't");
    }
    Ok(())
}

fn chunk_of(alloc: Global, line: u64, chunk: &str) -> Result<Vec<u8>> {
    let mut bytes = Vec::new(alloc);
    put_chunk(&mut bytes, line, chunk)?;
    Ok(bytes)
}

// Appends the chunks of lines.
fn put_chunks(alloc: Global, chunks: &mut Vec<Vec<u8>>, line: u64, lines: &str) -> Result<()> {
    for chunk in lines.split('\n') {
        chunks.push(chunk_of(alloc, line, chunk)?)?;
    }
    Ok(())
}

// Bytes in chunks, one on each line.
fn chunks_of(alloc: Global, line: u64, lines: &str) -> Result<Input> {
    let mut chunks = Vec::new(alloc);
    put_chunks(alloc, &mut chunks, line, lines)?;
    Ok(Input::Chunks(chunks))
}

// Checks lines of this form that are stored unchanged.
fn check_form(alloc: Global, form: Form, line: u64, lines: &str) -> Result<()> {
    match form {
        Form::Tokens | Form::ListsOfThree => check_tokens(alloc, line, lines),
        _ => Ok(()),
    }
}

/// Parses a section as an input of this form; `line` is the number of its heading's line. An error names the line that isn't of that form.
pub fn input_of(alloc: Global, form: Form, line: u64, text: String) -> Result<Input> {
    check_form(alloc, form, line, text.as_str())?;
    match form {
        Form::Text => Ok(Input::Text(text)),
        Form::Pieces => pieces_of(alloc, line, text.as_str()),
        Form::Chunks => chunks_of(alloc, line, text.as_str()),
        Form::Tokens => Ok(Input::Tokens(text)),
        Form::ListsOfThree => Ok(Input::ListsOfThree(text)),
    }
}
