//! What a subcommand prints, with the values of its options.
use super::edit::{Change, changes_by};
use super::policy_file::policy_in;
use super::select::{Selection, Shown, tell_selector};
use clap::ArgMatches;
use h5_page::TextOpts;
use html_tree_builder::clean::AllowList;
use html_tree_builder::select::Selector;
use std::io::Write;
use url::Url;

/// What to print of the tree of a page.
#[derive(Drop)]
pub enum TreeOutput<'a> {
    /// The tree, one line per node, and the quirks mode.
    Nodes,
    /// The tree as HTML.
    Html,
    /// The tree after these edits, as HTML.
    Edited(Vec<Change<'a>>),
    /// The text, in this layout.
    Text(TextOpts),
    /// The links, or also other references, resolved against this URL unless the page has a base.
    Links { is_all: bool, base: Option<Url> },
    /// What this policy allows of it, or else the default policy.
    Clean(Option<AllowList>),
    /// The selected elements.
    Select(Selection<'a>),
    /// The headings.
    Outline,
    /// The metadata.
    Meta,
}

/// What to print of a page.
#[derive(Drop)]
pub enum Output<'a> {
    /// The tokens.
    Tokens,
    /// The parse errors, at most this number of them.
    Errors { limit: usize },
    /// Something of its tree.
    Tree(TreeOutput<'a>),
}

/// The value of an option is invalid, and standard error says why.
#[derive(Clone, Copy)]
pub struct Refused {
    /// The exit status.
    pub status: u8,
}

impl Refused {
    /// The refusal of a command line.
    pub fn usage() -> Refused {
        Refused { status: 2 }
    }

    /// The refusal if an allocation fails, which is reported. An error of standard error is ignored.
    pub fn memory(rt: &HostRuntime) -> Refused {
        let _told = writeln!(rt.stderr(), "hengaruto: out of memory");
        Refused { status: 1 }
    }
}

// The value of an option, if it was given. Refused if it isn't a number; the message then says what was expected.
fn number_by(
    rt: &HostRuntime,
    matches: &ArgMatches<'_>,
    name: &str,
    expected: &str,
) -> Result<Option<usize>, Refused> {
    let Some(text) = matches.get_str(name) else {
        return Ok(None);
    };
    match text.parse::<usize>().ok() {
        Some(number) => Ok(Some(number)),
        None => {
            let _told = writeln!(
                rt.stderr(),
                "hengaruto: invalid value for --{name}: expected {expected}"
            );
            Err(Refused::usage())
        }
    }
}

// The text, in the layout that options ask for.
fn text_by<'a>(
    rt: &HostRuntime,
    matches: &ArgMatches<'a>,
    scripting_enabled: bool,
) -> Result<TreeOutput<'a>, Refused> {
    let width = number_by(rt, matches, "width", "a number of columns")?;
    Ok(TreeOutput::Text(TextOpts {
        width,
        has_numbers: matches.get_flag("links"),
        scripting_enabled,
    }))
}

// The links, resolved against the URL of an option.
fn links_by<'a>(rt: &HostRuntime, matches: &ArgMatches<'a>) -> Result<TreeOutput<'a>, Refused> {
    let is_all = matches.get_flag("all");
    let Some(text) = matches.get_str("base") else {
        return Ok(TreeOutput::Links { is_all, base: None });
    };
    match Url::parse(rt.alloc(), text) {
        Ok(url) => {
            let base = Some(url);
            Ok(TreeOutput::Links { is_all, base })
        }
        Err(error) => {
            let _told = writeln!(rt.stderr(), "hengaruto: invalid URL '{text}': {error}");
            Err(Refused::usage())
        }
    }
}

// What the policy of an option allows, or else the default policy.
fn clean_by<'a>(rt: &HostRuntime, matches: &ArgMatches<'a>) -> Result<TreeOutput<'a>, Refused> {
    let Some(name) = matches.get_str("policy") else {
        return Ok(TreeOutput::Clean(None));
    };
    match policy_in(rt, name) {
        Some(policy) => Ok(TreeOutput::Clean(Some(policy))),
        None => Err(Refused::usage()),
    }
}

// What to print of each selected element.
fn shown_by<'a>(matches: &ArgMatches<'a>) -> Shown<'a> {
    match matches.get_str("attr") {
        Some(name) => Shown::Attr(name),
        None if matches.get_flag("text") => Shown::Text,
        None => Shown::Html,
    }
}

// The elements that the selector of an argument matches. The command line requires the argument.
fn selection_by<'a>(
    rt: &HostRuntime,
    matches: &ArgMatches<'a>,
    scripting_enabled: bool,
) -> Result<TreeOutput<'a>, Refused> {
    let Some(text) = matches.get_str("selector") else {
        return Err(Refused::usage());
    };
    match Selector::parse(rt.alloc(), text) {
        Ok(selector) => Ok(TreeOutput::Select(Selection {
            selector,
            shown: shown_by(matches),
            scripting_enabled,
        })),
        Err(fault) => Err(Refused {
            status: tell_selector(rt, text, &fault),
        }),
    }
}

impl<'a> Output<'a> {
    /// What the subcommand of this name prints. Refused if the value of one of its options is invalid, or if there is no such subcommand, which
    /// the command line has refused before.
    pub fn named(
        rt: &HostRuntime,
        name: &str,
        matches: &ArgMatches<'a>,
        scripting_enabled: bool,
    ) -> Result<Output<'a>, Refused> {
        Ok(Output::Tree(match name {
            "tokens" => return Ok(Output::Tokens),
            "errors" => {
                let limit = number_by(rt, matches, "limit", "a number")?;
                let limit = limit.unwrap_or(usize::MAX);
                return Ok(Output::Errors { limit });
            }
            "tree" => TreeOutput::Nodes,
            "html" => TreeOutput::Html,
            "edit" => TreeOutput::Edited(changes_by(rt, matches)?),
            "text" => text_by(rt, matches, scripting_enabled)?,
            "links" => links_by(rt, matches)?,
            "clean" => clean_by(rt, matches)?,
            "select" => selection_by(rt, matches, scripting_enabled)?,
            "outline" => TreeOutput::Outline,
            "meta" => TreeOutput::Meta,
            _ => return Err(Refused::usage()),
        }))
    }

    /// Returns true if it is what a policy allows. Its promises are about pages that are parsed as fragments, with scripting.
    pub fn is_clean(&self) -> bool {
        matches!(self, Output::Tree(TreeOutput::Clean(_)))
    }
}
