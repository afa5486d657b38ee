//! Texts, and their parse errors.
use super::recording::{Telling, feed, new_tokenizer};
use h5_standard_tokenizer::Errors;
use h5_tests_sinks::Answer;
use std::alloc::{AllocError, Global};
use std::fmt::Write;
use std::process::Abort;
use std::test::Fail;

// A text, a line for each error that is stored, with its line, its column, its offset and its name, and the number of further errors.
type Row = (&'static str, &'static str, u64);

const ROWS: [Row; 5] = [
    ("<p id=a>\u{e9}&amp;</p>", "", 0),
    (
        "<p id=a id=b>\u{e9}\r\n&#0;</p/>",
        "1:11 10 duplicate-attribute\n2:4 20 null-character-reference\n2:9 25 end-tag-with-trailing-solidus\n",
        0,
    ),
    (
        "a\u{1}\0<!--x",
        "1:2 1 control-character-in-input-stream\n1:3 2 unexpected-null-character\n1:9 8 eof-in-comment\n",
        0,
    ),
    (
        "\u{1f600}&noti\n</",
        "1:6 8 missing-semicolon-after-character-reference\n2:3 12 eof-before-tag-name\n",
        0,
    ),
    (
        "\0\0\0\0\0",
        "1:1 0 unexpected-null-character\n1:2 1 unexpected-null-character\n1:3 2 unexpected-null-character\n",
        2,
    ),
];

// A line for each error that is stored.
fn lines_of(alloc: Global, errors: &Errors) -> Result<String, AllocError> {
    let mut lines = String::new(alloc);
    for told in errors.kept() {
        let (line, column, offset) = (told.at.line, told.at.column, told.at.offset);
        let name = told.error.name();
        write!(lines, "{line}:{column} {offset} {name}\n")?;
    }
    Ok(lines)
}

// Checks the errors of a text that is fed at once, or character by character.
fn check(
    rt: &impl Abort,
    alloc: Global,
    (text, wanted, more): Row,
    whole: bool,
) -> Result<(), Fail> {
    let mut tokenizer: Telling = new_tokenizer(alloc, false, Answer::ReadsOn);
    let fed = feed(alloc, &mut tokenizer, text, whole);
    let lines = lines_of(alloc, &tokenizer.errors);
    assert_eq!(rt; tokenizer.errors.more(), more, "{text}, at once: {whole}");
    drop(tokenizer);
    fed?;
    let lines = lines?;
    assert_eq!(rt; lines.as_str(), wanted, "{text}, at once: {whole}");
    Ok(())
}

#[test]
fn errors_are_reported_with_their_positions(rt: HostRuntime) -> Result<(), Fail> {
    for &row in &ROWS {
        check(&rt, rt.alloc(), row, true)?;
        check(&rt, rt.alloc(), row, false)?;
    }
    Ok(())
}
