//! A case while its sections are read.
use super::case::{Case, Expected, Input, Part};
use super::inputs::input_of;
use super::repeats::{Repeat, expand, repeats_of};
use super::sections::{Form, Heading, Lines, Section, Switch};
use super::settings::{Context, Maker, Settings};
use anyhow::{Result, bail, ensure};
use std::alloc::{AllocError, Global};

/// The contents of a case's sections so far.
pub struct Draft {
    line: u64,
    about: String,
    repeats: Vec<Repeat>,
    input: Option<Input>,
    settings: Settings,
    expected: Vec<Expected>,
    alloc: Global,
}

impl Drop for Draft {
    fn drop(self) {
        let Draft {
            line: _line,
            about: _about,
            repeats: _repeats,
            input: _input,
            settings: _settings,
            expected: _expected,
            alloc: _alloc,
        } = self;
    }
}

// The HTML of a page with this body.
fn page_of(alloc: Global, body: &str) -> Result<String, AllocError> {
    format!(in alloc; "<html><head></head><body>{body}</body></html>")
}

impl Draft {
    /// The draft of a case with this first line and this subject.
    pub fn new(alloc: Global, line: u64, about: &str) -> Result<Draft> {
        ensure!(
            !about.is_empty() && !about.contains('\n'),
            "line {line}: what the case is about is one line"
        );
        Ok(Draft {
            line,
            about: String::from_str(alloc, about)?,
            repeats: Vec::new(alloc),
            input: None,
            settings: Settings::new(),
            expected: Vec::new(alloc),
            alloc,
        })
    }

    fn set_repeats(&mut self, line: u64, lines: &str) -> Result<()> {
        ensure!(
            self.repeats.is_empty(),
            "line {line}: what is repeated was said before"
        );
        self.repeats = repeats_of(self.alloc, line, lines)?;
        Ok(())
    }

    fn set_input(&mut self, line: u64, input: Input) -> Result<()> {
        ensure!(self.input.is_none(), "line {line}: a second input");
        self.input = Some(input);
        Ok(())
    }

    fn set_context(&mut self, line: u64, name: String, maker: Maker) -> Result<()> {
        ensure!(
            self.settings.context.is_none(),
            "line {line}: a second context"
        );
        self.settings.context = Some(Context { name, maker });
        Ok(())
    }

    // Returns true if a part has an expected text.
    fn expects(&self, part: Part) -> bool {
        self.expected.iter().any(|expected| expected.part == part)
    }

    // Checks that a part has no expected text yet.
    fn check_new(&self, line: u64, part: Part) -> Result<()> {
        ensure!(!self.expects(part), "line {line}: a second {part}");
        Ok(())
    }

    fn expect(&mut self, line: u64, part: Part, text: String) -> Result<()> {
        self.check_new(line, part)?;
        self.expected.push(Expected { part, text })?;
        Ok(())
    }

    // Adds the expected content of the page's body.
    fn expect_body(&mut self, line: u64, body: &str) -> Result<()> {
        let page = page_of(self.alloc, body)?;
        self.expect(line, Part::Html, page)
    }

    // Adds an input of this form.
    fn take_input(&mut self, form: Form, line: u64, text: String) -> Result<()> {
        let input = input_of(self.alloc, form, line, text)?;
        self.set_input(line, input)
    }

    // Sets the switch of a section that has only a heading.
    fn set_switch(&mut self, switch: Switch) {
        match switch {
            Switch::ScriptOff => self.settings.tree_builder.scripting_enabled = false,
            Switch::RefuseEach => self.settings.refuses_each = true,
        }
    }

    // Adds a section whose lines aren't stored unchanged.
    fn take_lines(&mut self, lines: Lines, line: u64, text: &str) -> Result<()> {
        match lines {
            Lines::Repeat => self.set_repeats(line, text),
            Lines::Options => self.settings.set_options(line, text),
            Lines::Body => self.expect_body(line, text),
        }
    }

    // Adds a section in which words have been replaced by their texts.
    fn take_expanded(&mut self, heading: Heading, line: u64, text: String) -> Result<()> {
        match heading {
            Heading::Input(form) => self.take_input(form, line, text),
            Heading::Context(maker) => self.set_context(line, text, maker),
            Heading::Part(part) => self.expect(line, part, text),
            Heading::Lines(lines) => self.take_lines(lines, line, text.as_str()),
            Heading::Switch(switch) => {
                self.set_switch(switch);
                Ok(())
            }
        }
    }

    /// Adds the next section. An error says where it isn't allowed.
    pub fn take(&mut self, section: Section) -> Result<()> {
        let Section {
            heading,
            line,
            text,
        } = section;
        let text = expand(self.alloc, self.repeats.as_slice(), text)?;
        self.take_expanded(heading, line, text)
    }

    // Returns true if a tree is expected.
    fn expects_tree(&self) -> bool {
        self.expects(Part::Document) || self.expects(Part::Html)
    }

    // If no replies to tokens are given, all are expected to be "continue".
    fn expect_replies(&mut self) -> Result<()> {
        if self.expects(Part::Replies) {
            return Ok(());
        }
        let text = String::new(self.alloc);
        self.expect(self.line, Part::Replies, text)
    }

    // Checks that calls of the sink don't have to fail.
    fn check_unrefused(&self) -> Result<()> {
        let line = self.line;
        ensure!(
            !self.settings.refuses_each,
            "line {line}: calls are refused of a text or of tokens"
        );
        Ok(())
    }

    // Checks the expected parts of an input other than lists of tokens.
    fn check_tree(&self) -> Result<()> {
        let line = self.line;
        ensure!(self.expects_tree(), "line {line}: no tree is wanted");
        ensure!(
            !self.expects(Part::AnyReplies),
            "line {line}: any replies are those of lists"
        );
        Ok(())
    }

    // Checks the expected parts of a text.
    fn check_text(&self) -> Result<()> {
        let line = self.line;
        self.check_tree()?;
        let asks_tokens = self
            .expected
            .iter()
            .any(|expected| expected.part.is_of_tokens());
        ensure!(
            !asks_tokens,
            "line {line}: replies, turns and pops are those of tokens"
        );
        Ok(())
    }

    // Checks the expected parts of lists of three tokens.
    fn check_lists(&self) -> Result<()> {
        let line = self.line;
        self.check_unrefused()?;
        let asks_else = self
            .expected
            .iter()
            .any(|expected| expected.part != Part::AnyReplies);
        ensure!(
            self.expects(Part::AnyReplies) && !asks_else,
            "line {line}: of lists any replies are wanted, and nothing else"
        );
        Ok(())
    }

    // Completes and checks the expected parts.
    fn check(&mut self) -> Result<()> {
        match &self.input {
            Some(Input::Tokens(_)) => {
                self.check_tree()?;
                self.expect_replies()
            }
            Some(Input::ListsOfThree(_)) => self.check_lists(),
            Some(Input::Chunks(_)) => {
                self.check_unrefused()?;
                self.check_text()
            }
            Some(Input::Text(_) | Input::Pieces(_)) => self.check_text(),
            None => Ok(()),
        }
    }

    fn take_out_input(&mut self) -> Result<Input> {
        let line = self.line;
        match self.input.take() {
            Some(input) => Ok(input),
            None => bail!("line {line}: the case has no input"),
        }
    }

    // Completes and checks the expected parts, and takes the input out.
    fn checked_input(&mut self) -> Result<Input> {
        self.check()?;
        self.take_out_input()
    }

    fn with_input(self, input: Input) -> Case {
        let Draft {
            line,
            about,
            repeats: _repeats,
            input: _input,
            settings,
            expected,
            alloc: _alloc,
        } = self;
        Case {
            line,
            about,
            input,
            settings,
            expected,
        }
    }

    /// Returns the case. An error says what is missing.
    pub fn finish(self) -> Result<Case> {
        let mut draft = self;
        let input = draft.checked_input()?;
        Ok(draft.with_input(input))
    }
}
