//! What a command line asks for.
use super::output::{Output, Refused};
use clap::ArgMatches;
use h5_command_line::{Prints, prints_of};
use h5_input::{InputOpts, is_context};
use h5_listing::Form;
use html_tree_builder::encodings::{Encoding, EncodingOpts};
use std::io::Write;

/// How pages in records are answered.
#[derive(Clone, Copy)]
pub struct RecordOpts<'a> {
    /// The key of the result: the name of the subcommand.
    pub key: &'a str,
    /// What the subcommand prints of a page.
    pub prints: Prints,
    /// If true, a record may name the file of its page.
    pub allows_paths: bool,
}

/// How a page is read, and how its output is printed.
#[derive(Clone, Copy)]
pub struct PageOpts<'a> {
    /// How it is read.
    pub input: InputOpts,
    /// The element in which it is parsed, if it is a fragment.
    pub context: Option<&'a str>,
    /// Lines or JSON.
    pub form: Form,
    /// The name of its file, as the command line has it.
    pub file: &'a str,
    /// Each line begins with the name of the file, and each JSON object has it.
    pub has_name: bool,
    /// How they are answered, if the pages are in records.
    pub records: Option<RecordOpts<'a>>,
    /// The process ends after this page, so its tree need not be dropped.
    pub is_last: bool,
}

impl<'a> PageOpts<'a> {
    /// The name of the file that each JSON object has, if it has one.
    pub fn path(&self) -> Option<&'a str> {
        self.has_name.then_some(self.file)
    }

    /// The name of the file that each line of text begins with, if it has one.
    pub fn front(&self) -> Option<&'a str> {
        match self.form {
            Form::Lines => self.path(),
            Form::Json | Form::Array => None,
        }
    }
}

/// A subcommand on pages or on records.
#[derive(Drop)]
pub struct Request<'a> {
    pub output: Output<'a>,
    /// How the first page is read, and how its output is printed.
    pub page: PageOpts<'a>,
}

// The element that --fragment names. Refused if that isn't the name of an element.
fn fragment_by<'a>(rt: &HostRuntime, matches: &ArgMatches<'a>) -> Result<Option<&'a str>, Refused> {
    match matches.get_str("fragment") {
        Some(context) if !is_context(context) => {
            let _told = writeln!(
                rt.stderr(),
                "hengaruto: invalid value for --fragment: '{context}' is not an element name"
            );
            Err(Refused::usage())
        }
        given => Ok(given),
    }
}

// The encoding that --encoding names. Refused if no encoding has that label.
fn encoding_by(rt: &HostRuntime, matches: &ArgMatches<'_>) -> Result<Option<Encoding>, Refused> {
    let Some(label) = matches.get_str("encoding") else {
        return Ok(None);
    };
    match Encoding::for_label(label.as_bytes()) {
        Some(encoding) => Ok(Some(encoding)),
        None => {
            let _told = writeln!(rt.stderr(), "hengaruto: unknown encoding '{label}'");
            Err(Refused::usage())
        }
    }
}

// How the encoding of a page is found: the one that was given, or what the page declares, or else UTF-8, which all fragments are.
fn encodings_by(given: Option<Encoding>, is_fragment: bool) -> EncodingOpts {
    let transport = match given {
        None if is_fragment => Some(Encoding::Utf8),
        given => given,
    };
    EncodingOpts {
        transport,
        default: Encoding::Utf8,
    }
}

// The element in which pages are parsed as fragments. What is cleaned is parsed in a `div` if no other element was given.
fn context_for<'a>(output: &Output<'a>, given: Option<&'a str>) -> Option<&'a str> {
    match given {
        None if output.is_clean() => Some("div"),
        given => given,
    }
}

// Lines or JSON.
fn form_by(matches: &ArgMatches<'_>, records: Option<RecordOpts<'_>>) -> Form {
    if records.is_some() {
        Form::Array
    } else if matches.get_flag("json") {
        Form::Json
    } else {
        Form::Lines
    }
}

// Returns true if the names of files are added: lines of errors always have them, and results of records never.
fn adds_names(
    matches: &ArgMatches<'_>,
    output: &Output<'_>,
    records: Option<RecordOpts<'_>>,
) -> bool {
    matches.get_flag("with-name")
        && records.is_none()
        && !matches!(output, Output::Errors { limit: _ })
}

// A subcommand, by its name and its arguments.
fn request_by<'a>(
    rt: &HostRuntime,
    name: &str,
    matches: &ArgMatches<'a>,
    records: Option<RecordOpts<'a>>,
) -> Result<Request<'a>, Refused> {
    let fragment = fragment_by(rt, matches)?;
    let encoding = encoding_by(rt, matches)?;
    let scripting_enabled = matches.get_flag("scripting");
    let output = Output::named(rt, name, matches, scripting_enabled)?;
    let context = context_for(&output, fragment);
    let page = PageOpts {
        input: InputOpts {
            encodings: encodings_by(encoding, context.is_some()),
            scripting_enabled: scripting_enabled || output.is_clean(),
        },
        context,
        form: form_by(matches, records),
        file: "-",
        has_name: adds_names(matches, &output, records),
        records,
        is_last: false,
    };
    Ok(Request { output, page })
}

/// What a command line asks for, and the arguments of its subcommand. Refused if the value of an option is invalid, or without a subcommand,
/// which the command line has refused before.
pub fn request_of<'m, 'a>(
    rt: &HostRuntime,
    matches: &'m ArgMatches<'a>,
) -> Result<(Request<'a>, &'m ArgMatches<'a>), Refused> {
    let Some((name, own)) = matches.subcommand() else {
        return Err(Refused::usage());
    };
    if name != "records" {
        return Ok((request_by(rt, name, own, None)?, own));
    }
    let Some((key, own)) = own.subcommand() else {
        return Err(Refused::usage());
    };
    let Some(prints) = prints_of(key) else {
        return Err(Refused::usage());
    };
    let records = RecordOpts {
        key,
        prints,
        allows_paths: own.get_flag("allow-paths"),
    };
    Ok((request_by(rt, key, own, Some(records))?, own))
}
