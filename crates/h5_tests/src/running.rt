//! Runs of the program in memory.
use h5_commands::run;
use std::alloc::{AllocError, Global};
use std::io::{Read, Write};
use std::process::Abort;

fn words_of(alloc: Global, words: &[&str]) -> Result<Vec<String>, AllocError> {
    let mut list = Vec::new(alloc);
    for word in words {
        list.push(String::from_str(alloc, word)?)?;
    }
    Ok(list)
}

/// Runs a command with these arguments, and checks its status and its text on standard error.
pub fn check_run<R: Read + Drop, W: Write>(
    rt: &impl Abort,
    alloc: Global,
    words: &[&str],
    input: R,
    out: &mut W,
    status: u8,
    message: &str,
) -> Result<(), AllocError> {
    let words = words_of(alloc, words)?;
    let mut errors: Vec<u8> = Vec::new(alloc);
    let found = run(alloc, words.as_slice(), input, out, &mut errors);
    assert_eq!(rt; found, status);
    assert_eq!(rt; errors.as_slice(), message.as_bytes());
    Ok(())
}

/// Runs a command with these arguments and bytes as input. Also checks its text on standard output.
pub fn check_output(
    rt: &impl Abort,
    alloc: Global,
    words: &[&str],
    input: &[u8],
    status: u8,
    output: &str,
    message: &str,
) -> Result<(), AllocError> {
    let mut out: Vec<u8> = Vec::new(alloc);
    check_run(rt, alloc, words, input, &mut out, status, message)?;
    assert_eq!(rt; out.as_slice(), output.as_bytes());
    Ok(())
}
