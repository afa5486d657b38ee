//! Pages in records, and the output line of each.
use super::answer::Asked;
use super::fault::Fault;
use super::request::{PageOpts, RecordOpts};
use super::run::put_input;
use h5_command_line::Prints;
use h5_input::InputOpts;
use h5_listing::{NoPage, Page, Record, begin_answer, end_answer};
use html_tree_builder::encodings::{Encoding, EncodingOpts};
use std::fs;
use std::io::{self, BufRead, BufReader, ErrorKind, Read, Write};

// Why a record has no result.
#[derive(Drop)]
enum NoResult {
    // It has no page, or a file that isn't read.
    Record(&'static str),
    // Its page failed.
    Page(Fault),
}

impl From<Fault> for NoResult {
    fn from(fault: Fault) -> NoResult {
        NoResult::Page(fault)
    }
}

impl From<NoPage> for NoResult {
    fn from(fault: NoPage) -> NoResult {
        NoResult::Record(match fault {
            NoPage::Missing => "record has neither `html` nor `path`",
            NoPage::HtmlIsNoString => "`html` isn't a string",
            NoPage::PathIsNoString => "`path` isn't a string",
        })
    }
}

// The text of why a record has no result.
fn said_of(rt: &HostRuntime, cause: &NoResult) -> Result<String, Fault> {
    let mut said = String::new(rt.alloc());
    let told = match cause {
        NoResult::Record(text) => write!(said, "{text}"),
        NoResult::Page(Fault::Read(error)) => write!(said, "{error}"),
        NoResult::Page(Fault::Write(error)) => write!(said, "{error}"),
        NoResult::Page(Fault::Memory) => write!(said, "out of memory"),
    };
    told.map_err(|_refused| Fault::Memory)?;
    Ok(said)
}

// The output for the page of an input.
fn printed<R: Read>(rt: &HostRuntime, asked: &Asked<'_>, input: &mut R) -> Result<String, Fault> {
    let mut bytes = Vec::new(rt.alloc());
    let _answered = put_input(rt, asked, input, &mut bytes)?;
    let text = String::from_utf8_lossy(rt.alloc(), bytes.as_slice())?;
    Ok(text)
}

// The output for a page that is a text. It is UTF-8, whatever encoding the page declares.
fn of_text<'a>(asked: &Asked<'a>) -> Asked<'a> {
    let encodings = EncodingOpts {
        transport: Some(Encoding::Utf8),
        ..asked.page.input.encodings
    };
    let input = InputOpts {
        encodings,
        ..asked.page.input
    };
    Asked {
        page: PageOpts {
            input,
            ..asked.page
        },
        ..*asked
    }
}

// The output for the page in a file, if records may name files. Others than regular ones aren't opened, since that could block.
fn printed_in_file(
    rt: &HostRuntime,
    asked: &Asked<'_>,
    allows_paths: bool,
    name: &str,
) -> Result<String, NoResult> {
    if !allows_paths {
        return Err(NoResult::Record("`path` needs the option --allow-paths"));
    }
    let metadata = fs::metadata(rt, name).map_err(Fault::Read)?;
    if !metadata.is_file() {
        return Err(NoResult::Record("not a regular file"));
    }
    let mut file = fs::open(rt, name).map_err(Fault::Read)?;
    Ok(printed(rt, asked, &mut file)?)
}

// The output for the page of a record.
fn printed_of(
    rt: &HostRuntime,
    asked: &Asked<'_>,
    opts: RecordOpts<'_>,
    record: &Record<'_>,
) -> Result<String, NoResult> {
    match record.page()? {
        Page::Html(html) => Ok(printed(rt, &of_text(asked), &mut html.as_bytes())?),
        Page::Path(name) => printed_in_file(rt, asked, opts.allows_paths, name),
    }
}

// The output line of a record, with the result under this key.
fn answer_of(
    rt: &HostRuntime,
    asked: &Asked<'_>,
    opts: RecordOpts<'_>,
    record: &Record<'_>,
    line: u64,
) -> Result<String, Fault> {
    let alloc = rt.alloc();
    let mut answer = begin_answer(alloc, Some(record), line)?;
    match printed_of(rt, asked, opts, record) {
        Ok(text) => {
            let is_json = opts.prints == Prints::Items;
            end_answer(alloc, &mut answer, opts.key, text.as_str(), is_json)?;
        }
        Err(cause) => {
            let said = said_of(rt, &cause)?;
            end_answer(alloc, &mut answer, "error", said.as_str(), false)?;
        }
    }
    Ok(answer)
}

// The output line for an input line that isn't a record.
fn refusal(rt: &HostRuntime, line: u64, said: &str) -> Result<String, Fault> {
    let mut answer = begin_answer(rt.alloc(), None, line)?;
    end_answer(rt.alloc(), &mut answer, "error", said, false)?;
    Ok(answer)
}

// The output line for an input line; none for an empty one.
fn answer_to(
    rt: &HostRuntime,
    asked: &Asked<'_>,
    opts: RecordOpts<'_>,
    text: &str,
    line: u64,
) -> Result<String, Fault> {
    if text.trim_ascii().is_empty() {
        return Ok(String::new(rt.alloc()));
    }
    match Record::parse(rt.alloc(), text) {
        Ok(record) => answer_of(rt, asked, opts, &record, line),
        Err(error) => {
            let mut said = String::new(rt.alloc());
            write!(said, "{error}").map_err(|_refused| Fault::Memory)?;
            refusal(rt, line, said.as_str())
        }
    }
}

// The output line for an input line that was read, or that isn't UTF-8. Any other error of reading ends the run.
fn answer_read(
    rt: &HostRuntime,
    asked: &Asked<'_>,
    opts: RecordOpts<'_>,
    read: io::Result<String>,
    line: u64,
) -> Result<String, Fault> {
    match read {
        Ok(text) => answer_to(rt, asked, opts, text.as_str(), line),
        Err(error) => match error.kind() {
            ErrorKind::InvalidData => refusal(rt, line, "line is not UTF-8"),
            _ => Err(Fault::Read(error)),
        },
    }
}

/// Writes a line of JSON for each record of an input, with what the subcommand prints of its page.
pub fn show_records<R: Read + Drop>(
    rt: &HostRuntime,
    asked: &Asked<'_>,
    opts: RecordOpts<'_>,
    input: R,
) -> Result<(), Fault> {
    let alloc = rt.alloc();
    let mut line = 0u64;
    let reader = BufReader::new(alloc, input).map_err(Fault::Read)?;
    for read in reader.lines(alloc) {
        line = line.saturating_add(1);
        let answer = answer_read(rt, asked, opts, read, line)?;
        rt.stdout()
            .write_all(answer.as_bytes())
            .map_err(Fault::Write)?;
    }
    Ok(())
}
