//! Runs the program.
use super::answer::{Asked, put_answer};
use super::charset::declare_utf8;
use super::dress::dressed;
use super::edit::apply;
use super::errors::{ErrorCount, put_errors, tell_count};
use super::fault::Fault;
use super::output::{Output, TreeOutput};
use super::progress::Watched;
use super::records::show_records;
use super::request::{PageOpts, request_of};
use clap::ArgMatches;
use h5_input::{HowRead, errors_of, tokens_of, tree_of};
use h5_listing::{Form, token_lines};
use html_tree_builder::Arena;
use html_tree_builder::encodings::Encoding;
use std::alloc::Global;
use std::io::{ErrorKind, IsTerminal, Read, Write};
use std::process::ExitCode;
use std::{fs, mem};

// Writes tokens as lines or as JSON.
fn put_tokens<W: Write>(
    alloc: Global,
    page: &PageOpts<'_>,
    text: Vec<u8>,
    out: &mut W,
) -> Result<(), Fault> {
    match page.form {
        Form::Json => {
            let lines = String::from_utf8_lossy(alloc, text.as_slice())?;
            let objects = token_lines(alloc, lines.as_str(), page.path())?;
            out.write_all(objects.as_bytes()).map_err(Fault::Write)
        }
        Form::Lines | Form::Array => out.write_all(text.as_slice()).map_err(Fault::Write),
    }
}

/// How a page was read, and how many of its errors were printed.
#[derive(Clone, Copy)]
pub struct Answered {
    pub how: HowRead,
    pub errors: ErrorCount,
}

// The outcome for a page whose errors are not printed.
fn without_errors(how: HowRead) -> Answered {
    Answered {
        how,
        errors: ErrorCount::none(),
    }
}

// Writes the errors of a page.
fn put_errors_of<R: Read, W: Write>(
    rt: &HostRuntime,
    page: &PageOpts<'_>,
    limit: usize,
    input: &mut R,
    out: &mut W,
) -> Result<Answered, Fault> {
    let alloc = rt.alloc();
    let (errors, how) = errors_of(alloc, page.context, page.input, limit, input)?;
    let errors = put_errors(alloc, &errors, page.file, limit, page.form, out)?;
    Ok(Answered { how, errors })
}

// Edits a page that is to be edited. If it is to be written as HTML and is in another encoding than UTF-8, makes it declare UTF-8.
fn prepare(
    alloc: Global,
    arena: &mut Arena,
    page: &PageOpts<'_>,
    output: &TreeOutput<'_>,
    encoding: Encoding,
) -> Result<(), Fault> {
    match output {
        TreeOutput::Html => {}
        TreeOutput::Edited(changes) => {
            apply(
                alloc,
                arena,
                changes.as_slice(),
                page.input.scripting_enabled,
            )?;
        }
        _ => return Ok(()),
    }
    if encoding != Encoding::Utf8 {
        declare_utf8(arena)?;
    }
    Ok(())
}

// Writes this output of the tree of a page.
fn put_tree_of<R: Read, W: Write>(
    rt: &HostRuntime,
    page: &PageOpts<'_>,
    output: &TreeOutput<'_>,
    input: &mut R,
    out: &mut W,
) -> Result<HowRead, Fault> {
    let (mut arena, how) = tree_of(rt.alloc(), page.context, page.input, input)?;
    prepare(rt.alloc(), &mut arena, page, output, how.encoding)?;
    let written = put_answer(rt.alloc(), page, output, &arena, how.encoding, out);
    if page.is_last {
        mem::forget(arena);
    }
    written?;
    Ok(how)
}

/// Writes what is asked for of a page. Returns how the page was read, and how many errors were printed.
pub fn put_input<R: Read, W: Write>(
    rt: &HostRuntime,
    asked: &Asked<'_>,
    input: &mut R,
    out: &mut W,
) -> Result<Answered, Fault> {
    let mut input = Watched::new(rt, input);
    let page = &asked.page;
    match asked.output {
        Output::Errors { limit } => put_errors_of(rt, page, *limit, &mut input, out),
        Output::Tokens => {
            let (text, how) = tokens_of(rt.alloc(), page.context, page.input, &mut input)?;
            put_tokens(rt.alloc(), page, text, out)?;
            Ok(without_errors(how))
        }
        Output::Tree(output) => {
            let how = put_tree_of(rt, page, output, &mut input, out)?;
            Ok(without_errors(how))
        }
    }
}

// Reports how many invalid byte sequences were replaced, if any. An error of standard error is ignored.
fn tell_replaced(rt: &HostRuntime, name: &str, how: HowRead) {
    if how.replaced > 0 {
        let (count, encoding) = (how.replaced, how.encoding.name());
        let noun = if count == 1 { "sequence" } else { "sequences" };
        let _told = writeln!(
            rt.stderr(),
            "hengaruto: {name}: replaced {count} invalid {encoding} {noun} with U+FFFD"
        );
    }
}

// Shows an input, which is a page or has records of pages. Returns how many errors were printed.
fn show_input<R: Read + Drop>(
    rt: &HostRuntime,
    asked: &Asked<'_>,
    input: R,
) -> Result<ErrorCount, Fault> {
    if let Some(opts) = asked.page.records {
        show_records(rt, asked, opts, input)?;
        return Ok(ErrorCount::none());
    }
    let mut input = input;
    let mut out = rt.stdout();
    let is_terminal = out.is_terminal();
    if !is_terminal && asked.page.front().is_none() {
        let answered = put_input(rt, asked, &mut input, &mut out)?;
        tell_replaced(rt, asked.page.file, answered.how);
        return Ok(answered.errors);
    }
    let mut bytes = Vec::new(rt.alloc());
    let answered = put_input(rt, asked, &mut input, &mut bytes)?;
    tell_replaced(rt, asked.page.file, answered.how);
    let text = String::from_utf8_lossy(rt.alloc(), bytes.as_slice())?;
    let lines = dressed(rt.alloc(), text.as_str(), asked.page.front(), is_terminal)?;
    out.write_all(lines.as_bytes()).map_err(Fault::Write)?;
    Ok(answered.errors)
}

// Shows a file, or standard input if its name is `-`. Returns how many errors were printed.
fn show(rt: &HostRuntime, asked: &Asked<'_>) -> Result<ErrorCount, Fault> {
    if asked.page.file == "-" {
        return show_input(rt, asked, rt.stdin());
    }
    let file = fs::open(rt, asked.page.file).map_err(Fault::Read)?;
    show_input(rt, asked, file)
}

// Reports an error. An error of standard error is ignored.
fn tell(rt: &HostRuntime, name: &str, fault: &Fault) {
    let _told = match fault {
        Fault::Read(error) => writeln!(rt.stderr(), "hengaruto: {name}: {error}"),
        Fault::Write(error) => writeln!(rt.stderr(), "hengaruto: cannot write: {error}"),
        Fault::Memory => writeln!(rt.stderr(), "hengaruto: {name}: out of memory"),
    };
}

// Returns true if the reader of the output has closed it.
fn is_closed(fault: &Fault) -> bool {
    match fault {
        Fault::Write(error) => matches!(error.kind(), ErrorKind::BrokenPipe),
        _ => false,
    }
}

// Shows a file, and returns the exit status, or None if the reader of the output has closed it.
fn show_one(rt: &HostRuntime, asked: &Asked<'_>) -> Option<u8> {
    match show(rt, asked) {
        Ok(errors) => {
            tell_count(rt, asked.page.file, errors);
            Some(if errors.all > 0 { 1 } else { 0 })
        }
        Err(fault) if is_closed(&fault) => None,
        Err(fault) => {
            tell(rt, asked.page.file, &fault);
            Some(1)
        }
    }
}

// Shows each of these files, and returns the exit status. A file that can't be read is reported, and the next one follows.
fn show_each(rt: &HostRuntime, asked: &Asked<'_>, files: &[&str]) -> u8 {
    let mut status = 0;
    for (at, file) in files.iter().enumerate() {
        let page = PageOpts {
            is_last: asked.page.records.is_none() && at + 1 == files.len(),
            file: *file,
            ..asked.page
        };
        let Some(shown) = show_one(rt, &Asked { page, ..*asked }) else {
            return status;
        };
        if shown > status {
            status = shown;
        }
    }
    status
}

/// Runs what the command line says: shows each file, or standard input if there is none. Returns the exit status.
pub fn run(rt: &HostRuntime, matches: &ArgMatches<'_>) -> ExitCode {
    let (request, own) = match request_of(rt, matches) {
        Ok(found) => found,
        Err(refused) => return ExitCode::from(refused.status),
    };
    let asked = Asked {
        output: &request.output,
        page: request.page,
    };
    let status = match own.get_strs("file") {
        Some(files) if !files.is_empty() => show_each(rt, &asked, files),
        _ => show_each(rt, &asked, &["-"]),
    };
    ExitCode::from(status)
}
