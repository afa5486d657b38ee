//! Every list of three tokens from some lines.
use super::made::Made;
use super::parsers::{Builder, new_builder};
use super::settings::Settings;
use anyhow::{Result, bail};
use h5_arena::Arena;
use h5_print::{Item, parse, print_answer, print_refusal, print_tree};
use h5_tests_sinks::is_forest;
use h5_token::{BuildFault, Token};
use std::alloc::{AllocError, Global};

/// The settings of the runs, and the lines of replies, each once.
struct Lists<'a> {
    settings: &'a Settings,
    lines: &'a str,
    replies: String,
    alloc: Global,
}

impl<'a> Drop for Lists<'a> {
    fn drop(self) {
        let Lists {
            settings: _settings,
            lines: _lines,
            replies: _replies,
            alloc: _alloc,
        } = self;
    }
}

// Appends the line of an error, and another line if the printed tree changed; `before` is the tree before.
fn put_refusal(
    alloc: Global,
    lines: &mut String,
    arena: &Arena,
    number: u64,
    fault: BuildFault,
    before: &str,
) -> Result<()> {
    print_refusal(lines, number, fault)?;
    let after = print_tree(alloc, arena)?;
    if after.as_str() != before {
        lines.push_str("the tree has changed\n")?;
    }
    Ok(())
}

// Processes the token with this number, and appends the line of the reply, if it has one; `before` is the printed tree before.
fn put_answer(
    alloc: Global,
    lines: &mut String,
    builder: &mut Builder,
    number: u64,
    token: Token,
    before: &str,
) -> Result<()> {
    match builder.process_token(token, 1) {
        Ok(answer) => Ok(print_answer(lines, number, &answer)?),
        Err(BuildFault::Memory | BuildFault::Failed) => bail!("out of memory"),
        Err(fault) => put_refusal(alloc, lines, builder.sink.below(), number, fault, before),
    }
}

// As `put_answer`, but also appends lines for what is broken: if an error changed the printed tree, or if the nodes aren't a forest.
fn put_reply(
    alloc: Global,
    lines: &mut String,
    builder: &mut Builder,
    number: u64,
    token: Token,
) -> Result<()> {
    let before = print_tree(alloc, builder.sink.below())?;
    put_answer(alloc, lines, builder, number, token, before.as_str())?;
    if !is_forest(builder.sink.below()) {
        lines.push_str("no forest\n")?;
    }
    Ok(())
}

// Processes the token with this number. Returns the line of the reply, if it has one, and the lines for what is broken.
fn reply_to(alloc: Global, builder: &mut Builder, number: u64, token: Token) -> Result<String> {
    let mut lines = String::new(alloc);
    put_reply(alloc, &mut lines, builder, number, token)?;
    Ok(lines)
}

fn token_of(alloc: Global, line: &str) -> Result<Token> {
    match parse(alloc, line)?.pop() {
        Some(Item::Token(token, _line)) => Ok(token),
        _ => bail!("it is no token: {line}"),
    }
}

impl Lists<'_> {
    // Adds a reply, if it hasn't occurred yet.
    fn note_line(&mut self, reply: &str) -> Result<(), AllocError> {
        if self.replies.as_str().lines().any(|line| line == reply) {
            return Ok(());
        }
        self.replies.push_str(reply)?;
        self.replies.push('\n')
    }

    // Adds the replies that haven't occurred yet.
    fn note(&mut self, replies: &str) -> Result<(), AllocError> {
        for reply in replies.lines() {
            self.note_line(reply)?;
        }
        Ok(())
    }

    // Processes the token of a line.
    fn take_line(&mut self, builder: &mut Builder, number: u64, line: &str) -> Result<()> {
        let token = token_of(self.alloc, line)?;
        let replies = reply_to(self.alloc, builder, number, token)?;
        self.note(replies.as_str())?;
        Ok(())
    }

    // Processes the tokens of a list.
    fn take_lines(&mut self, builder: &mut Builder, list: &[&str]) -> Result<()> {
        let mut number: u64 = 0;
        for line in list {
            number = number.saturating_add(1);
            self.take_line(builder, number, line)?;
        }
        Ok(())
    }

    // Runs a list.
    fn take(&mut self, list: &[&str]) -> Result<()> {
        let mut builder = new_builder(self.alloc, self.settings, usize::MAX)?;
        self.take_lines(&mut builder, list)
    }

    // Runs each list that begins with these two lines.
    fn take_behind_two(&mut self, first: &str, second: &str) -> Result<()> {
        for third in self.lines.split('\n') {
            self.take(&[first, second, third])?;
        }
        Ok(())
    }

    // Runs each list that begins with this line.
    fn take_behind(&mut self, first: &str) -> Result<()> {
        for second in self.lines.split('\n') {
            self.take_behind_two(first, second)?;
        }
        Ok(())
    }

    // Runs every list.
    fn take_all(&mut self) -> Result<()> {
        for first in self.lines.split('\n') {
            self.take_behind(first)?;
        }
        Ok(())
    }

    fn into_replies(self) -> String {
        let Lists {
            settings: _settings,
            lines: _lines,
            replies,
            alloc: _alloc,
        } = self;
        replies
    }
}

// The replies that occur for any list of three lines, each once.
fn replies_to(alloc: Global, settings: &Settings, lines: &str) -> Result<String> {
    let mut lists = Lists {
        settings,
        lines,
        replies: String::new(alloc),
        alloc,
    };
    lists.take_all()?;
    Ok(lists.into_replies())
}

/// Runs every list of three lines, each with a new tree builder. Returns the replies that occurred, each once, and no tree.
pub fn run_lists(alloc: Global, settings: &Settings, lines: &str) -> Result<Made> {
    let replies = replies_to(alloc, settings, lines)?;
    let arena = Arena::new(alloc)?;
    Ok(Made::by_tokens(arena, None, replies, String::new(alloc), 0))
}
