//! Words that are replaced by a repeated text.
use anyhow::{Result, bail};
use h5_print::read_escapes;
use std::alloc::{AllocError, Global};

/// A word, and the text that replaces it.
#[derive(Drop)]
pub struct Repeat {
    word: String,
    text: String,
}

// Appends a text, with each occurrence of a word replaced.
fn put_replaced(texts: &mut String, text: &str, word: &str, by: &str) -> Result<(), AllocError> {
    for (place, part) in text.split(word).enumerate() {
        if place > 0 {
            texts.push_str(by)?;
        }
        texts.push_str(part)?;
    }
    Ok(())
}

// A text with each occurrence of a word replaced.
fn replace(alloc: Global, text: &str, word: &str, by: &str) -> Result<String, AllocError> {
    let mut replaced = String::new(alloc);
    put_replaced(&mut replaced, text, word, by)?;
    Ok(replaced)
}

// Appends a text, with each `#` replaced by this number.
fn put_time(alloc: Global, times: &mut String, text: &str, number: u64) -> Result<(), AllocError> {
    let number = number.to_string(alloc)?;
    put_replaced(times, text, "#", number.as_str())
}

// Appends a text `count` times, each time with its number, from 1, in place of `#`.
fn put_repeated(
    alloc: Global,
    times: &mut String,
    text: &str,
    count: u64,
) -> Result<(), AllocError> {
    for number in 1..=count {
        put_time(alloc, times, text, number)?;
    }
    Ok(())
}

// A text `count` times, each time with its number, from 1, in place of `#`.
fn repeated(alloc: Global, text: &str, count: u64) -> Result<String, AllocError> {
    let mut times = String::new(alloc);
    put_repeated(alloc, &mut times, text, count)?;
    Ok(times)
}

// The words of a line: a word, a number, and a text.
fn words_of(line: &str) -> Option<(&str, u64, &str)> {
    let (word, behind) = line.split_once(' ')?;
    let (count, text) = behind.split_once(' ')?;
    match count.parse() {
        Ok(count) if !word.is_empty() => Some((word, count, text)),
        _ => None,
    }
}

fn new_repeat(alloc: Global, word: &str, count: u64, text: &str) -> Result<Repeat, AllocError> {
    let word = String::from_str(alloc, word)?;
    let text = repeated(alloc, text, count)?;
    Ok(Repeat { word, text })
}

// The repeat of a line, or `None` if the line is invalid.
fn repeat_of(alloc: Global, line: &str) -> Result<Option<Repeat>, AllocError> {
    let Some((word, count, text)) = words_of(line) else {
        return Ok(None);
    };
    match read_escapes(alloc, text)? {
        Some(text) => Ok(Some(new_repeat(alloc, word, count, text.as_str())?)),
        None => Ok(None),
    }
}

// Appends the repeats of lines.
fn put_repeats(alloc: Global, repeats: &mut Vec<Repeat>, line: u64, lines: &str) -> Result<()> {
    for text in lines.split('\n') {
        match repeat_of(alloc, text)? {
            Some(repeat) => repeats.push(repeat)?,
            None => bail!("line {line}: a line below is no word, number and text"),
        }
    }
    Ok(())
}

/// Parses repeats, one on each line; `line` is the number of the line above.
pub fn repeats_of(alloc: Global, line: u64, lines: &str) -> Result<Vec<Repeat>> {
    let mut repeats = Vec::new(alloc);
    put_repeats(alloc, &mut repeats, line, lines)?;
    Ok(repeats)
}

/// A text with its words replaced.
pub fn expand(alloc: Global, repeats: &[Repeat], text: String) -> Result<String, AllocError> {
    let mut expanded = text;
    for Repeat { word, text } in repeats {
        expanded = replace(alloc, expanded.as_str(), word.as_str(), text.as_str())?;
    }
    Ok(expanded)
}
