//! The outcomes of runs of the program.
use super::running::{check_output, check_run};
use h5_commands::refuse_words;
use std::io::{self, ErrorKind, Read, Write};
use std::test::Fail;

// A reader and writer that fails.
#[derive(Drop)]
struct Broken;

impl Read for Broken {
    fn read(&mut self, _buf: &mut [u8]) -> io::Result<usize> {
        Err(io::Error::from(io::ErrorKind::BrokenPipe))
    }
}

impl Write for Broken {
    fn write(&mut self, _buf: &[u8]) -> io::Result<usize> {
        Err(io::Error::from(io::ErrorKind::BrokenPipe))
    }

    fn flush(&mut self) -> io::Result<()> {
        Ok(())
    }
}

// A writer that accepts everything, and fails when it is flushed.
#[derive(Drop)]
struct Unflushed;

impl Write for Unflushed {
    fn write(&mut self, buf: &[u8]) -> io::Result<usize> {
        Ok(buf.len())
    }

    fn flush(&mut self) -> io::Result<()> {
        Err(io::Error::from(io::ErrorKind::BrokenPipe))
    }
}

const USAGE: &str = "h5: usage: h5 tokens | h5 tree [context] | h5 html\n";

// The arguments of a command, its input, its exit status, and its text on standard output and on standard error.
const RUNS: &[(&[&str], &[u8], u8, &str, &str)] = &[
    (
        &["tokens"],
        b"S title\nC x\nT t\nE title\nX\nT u\n",
        0,
        "<html>\n  <head>\n    <title>\n      \"t\"\nquirks: Quirks\n1 RawData(Rcdata)\n2 NotInText\n5 AfterEnd\n",
        "",
    ),
    (&["tokens"], b"", 0, "quirks: NoQuirks\n", ""),
    (
        &["tree"],
        b"<template><b id=x>y</template>",
        0,
        "<html>\n  <head>\n    <template>\n      content\n        <b>\n          id=\"x\"\n          \"y\"\n  <body>\nquirks: Quirks\n",
        "",
    ),
    (
        &["tree", "tr"],
        b"<td>1",
        0,
        "<html>\n  <td>\n    \"1\"\nquirks: NoQuirks\n",
        "",
    ),
    (
        &["html"],
        b"<!DOCTYPE html><p class=a>x &amp; y",
        0,
        "<!DOCTYPE html><html><head></head><body><p class=\"a\">x &amp; y</p></body></html>",
        "",
    ),
    (&["html"], b"<p\xff>", 1, "", "h5: input is not UTF-8\n"),
    (&["tokens"], b"Q x\n", 2, "", "h5: bad line 1\n"),
    (&["tokens"], b"\nS p q\n", 2, "", "h5: bad line 2\n"),
    (&[], b"", 2, "", USAGE),
    (&["token"], b"", 2, "", USAGE),
    (&["html", "p"], b"", 2, "", USAGE),
    (&["tokens", "p"], b"", 2, "", USAGE),
    (&["tree", "p", "q"], b"", 2, "", USAGE),
];

#[test]
fn runs_print_and_end_with_their_status(rt: HostRuntime) -> Result<(), Fail> {
    for &(words, input, status, output, message) in RUNS {
        check_output(&rt, rt.alloc(), words, input, status, output, message)?;
    }
    Ok(())
}

#[test]
fn errors_of_readers_and_writers_are_reported(rt: HostRuntime) -> Result<(), Fail> {
    let alloc = rt.alloc();
    let mut out: Vec<u8> = Vec::new(alloc);
    let (token, page): (&[u8], &[u8]) = (b"Z\n", b"<p>");
    check_run(
        &rt,
        alloc,
        &["tokens"],
        Broken,
        &mut out,
        1,
        "h5: cannot read\n",
    )?;
    check_run(
        &rt,
        alloc,
        &["tokens"],
        token,
        &mut Broken,
        1,
        "h5: cannot write\n",
    )?;
    check_run(
        &rt,
        alloc,
        &["html"],
        page,
        &mut Unflushed,
        1,
        "h5: cannot write\n",
    )?;
    Ok(())
}

#[test]
fn words_that_cannot_be_read_are_reported(rt: HostRuntime) -> Result<(), Fail> {
    for &(kind, status, message) in &[
        (ErrorKind::InvalidData, 2, USAGE),
        (ErrorKind::OutOfMemory, 1, "h5: out of memory\n"),
    ] {
        let mut errors: Vec<u8> = Vec::new(rt.alloc());
        assert_eq!(rt; refuse_words(&io::Error::from(kind), &mut errors), status);
        assert_eq!(rt; errors.as_slice(), message.as_bytes());
    }
    Ok(())
}
