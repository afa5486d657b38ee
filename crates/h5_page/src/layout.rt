//! The lines of a page, laid out text by text.
ghost use Rattle.std.specs.Prelude.{◌≡◌, ◌++◌, true, false, IfOk, OnOk, encode_utf8, string_bytes};
ghost use Rattle.h5_page.specs.Layout as l;

use super::wrap::{write_spaces, write_wrapped};
use std::alloc::{AllocError, Global};
use std::marker::Model;

/// The gap between what is written and the next text.
#[derive(Clone, Copy, Debug)]
pub enum Gap {
    /// Nothing is written yet.
    Start,
    /// No gap: a cell begins. Whitespace and line breaks before its text are dropped.
    Front,
    /// A space after the mark of an item. Whitespace and line breaks before its text are dropped.
    Mark,
    /// No gap: the next text directly follows another.
    Close,
    /// A space between two words.
    Blank,
    /// A newline.
    Line,
    /// A newline, and an empty line.
    Paragraph,
}

impl Gap {
    fn behind_blank(self) -> Gap
        ensures { result ≡ l.behind_blank self }
    {
        match self {
            Gap::Close => Gap::Blank,
            gap => gap,
        }
    }

    fn behind_break(self, is_wide: bool) -> Gap
        ensures { result ≡ l.behind_break is_wide self }
    {
        match self {
            Gap::Start | Gap::Front | Gap::Mark | Gap::Paragraph => self,
            Gap::Close | Gap::Blank | Gap::Line => {
                if is_wide { Gap::Paragraph } else { Gap::Line }
            }
        }
    }

    fn behind_end(self) -> Gap
        ensures { result ≡ l.behind_end self }
    {
        match self {
            Gap::Paragraph => self,
            _ => Gap::Line,
        }
    }
}

/// The complete lines, the current one, and the gap before the next text.
#[derive(Drop)]
pub struct Layout {
    lines: String,
    line: String,
    gap: Gap,
    width: Option<usize>,
    // True if the current line isn't wrapped, whatever its width; and how far the wrapped part of it is indented.
    is_whole: bool,
    hang: usize,
}

impl Model for Layout {
    ghost use Rattle.std.specs.Prelude.{string_bytes};
    ghost use Rattle.h5_page.specs.Layout.{Laid};

    ghost Value = { Laid };

    ghost view = { λ layout. record { lines = string_bytes layout.lines; line = string_bytes layout.line; gap = layout.gap; width = layout.width; is_whole = layout.is_whole; hang = layout.hang } };
}

// Returns true for ASCII whitespace.
fn is_blank(c: char) -> bool
    ensures { result ≡ l.is_blank c }
{
    c == '\t' || c == '\n' || c == '\x0c' || c == '\r' || c == ' '
}

impl Layout {
    /// Returns an empty layout. Lines are wrapped at this width in columns, if it is given.
    pub fn new(alloc: Global, width: Option<usize>) -> Layout
        ensures { result ≡ l.nothing_laid width }
    {
        Layout {
            lines: String::new(alloc),
            line: String::new(alloc),
            gap: Gap::Start,
            width,
            is_whole: false,
            hang: 0,
        }
    }

    // Appends the current line to the complete ones.
    fn write_line(&mut self) -> Result<(), AllocError>
        ensures { OnOk result (self.new ≡ record self.old { lines = self.old.lines ++ l.line_by self.old.width self.old }) }
    {
        match self.width {
            Some(width) if !self.is_whole => {
                write_wrapped(&mut self.lines, self.line.as_str(), width, self.hang)
            }
            _ => self.lines.push_str(self.line.as_str()),
        }
    }

    // Ends the line.
    fn end_line(&mut self) -> Result<(), AllocError>
        ensures { OnOk result (self.new ≡ l.next_line self.old) }
    {
        self.write_line()?;
        self.lines.push('\n')?;
        self.line.clear();
        self.is_whole = false;
        Ok(())
    }

    // Indents a new line.
    fn indent_line(&mut self, indent: usize) -> Result<(), AllocError>
        ensures { OnOk result (self.new ≡ l.indented indent self.old) }
    {
        write_spaces(&mut self.line, indent)?;
        self.hang = indent;
        Ok(())
    }

    // Writes the gap, so that a text can follow.
    fn open(&mut self, indent: usize) -> Result<(), AllocError>
        ensures { OnOk result (self.new ≡ l.opened indent self.old) }
    {
        match self.gap {
            Gap::Front | Gap::Close => {}
            Gap::Blank => self.line.push(' ')?,
            Gap::Mark => {
                self.line.push(' ')?;
                self.hang = indent;
            }
            Gap::Start => self.indent_line(indent)?,
            Gap::Line => {
                self.end_line()?;
                self.indent_line(indent)?;
            }
            Gap::Paragraph => {
                self.end_line()?;
                self.end_line()?;
                self.indent_line(indent)?;
            }
        }
        Ok(())
    }

    // Writes a character.
    fn ink(&mut self, indent: usize, c: char) -> Result<(), AllocError>
        ensures { OnOk result (self.new ≡ l.inked indent (encode_utf8 c) self.old) }
    {
        self.open(indent)?;
        self.line.push(c)?;
        self.gap = Gap::Close;
        Ok(())
    }

    /// Writes a text, without collapsing whitespace.
    pub fn write(&mut self, indent: usize, text: &str) -> Result<(), AllocError>
        ensures { OnOk result (self.new ≡ l.inked indent text.now self.old) }
    {
        self.open(indent)?;
        self.line.push_str(text)?;
        self.gap = Gap::Close;
        Ok(())
    }

    /// Writes the mark of an item.
    pub fn mark(&mut self, indent: usize, mark: &str) -> Result<(), AllocError>
        ensures { OnOk result (self.new ≡ l.marked indent mark.now self.old) }
    {
        self.open(indent)?;
        self.line.push_str(mark)?;
        self.gap = Gap::Mark;
        Ok(())
    }

    /// Begins a cell: the first of its row on a new line, any other after a tab.
    pub fn begin_cell(&mut self, indent: usize, is_first: bool) -> Result<(), AllocError>
        ensures { OnOk result (self.new ≡ l.celled indent is_first self.old) }
    {
        if is_first {
            self.open(indent)?;
        } else {
            self.line.push('\t')?;
            self.is_whole = true;
        }
        self.gap = Gap::Front;
        Ok(())
    }

    /// Begins or ends a block.
    pub fn break_line(&mut self, is_wide: bool)
        ensures { self.new ≡ l.broken is_wide self.old }
    {
        self.gap = self.gap.behind_break(is_wide);
    }

    /// Ends an item or a cell.
    pub fn end_item(&mut self)
        ensures { self.new ≡ l.ended self.old }
    {
        self.gap = self.gap.behind_end();
    }

    /// Ends a line, as `br` does.
    pub fn force_line(&mut self) -> Result<(), AllocError>
        ensures { OnOk result (self.new ≡ l.line_ended self.old) }
    {
        match self.gap {
            Gap::Start | Gap::Front => {}
            Gap::Mark | Gap::Close | Gap::Blank => self.gap = Gap::Line,
            Gap::Line => self.gap = Gap::Paragraph,
            Gap::Paragraph => self.end_line()?,
        }
        Ok(())
    }

    // Makes the current line one that isn't wrapped, whatever its width.
    fn keep_line(&mut self)
        ensures { self.new ≡ record self.old { is_whole = true } }
    {
        self.is_whole = true;
    }

    // Writes a character of a text that keeps whitespace.
    fn write_kept(&mut self, indent: usize, c: char) -> Result<(), AllocError>
        ensures { OnOk result (self.new ≡ l.with_text true indent (encode_utf8 c) self.old) }
    {
        if c == '\n' {
            return self.force_line();
        }
        self.ink(indent, c)?;
        self.keep_line();
        Ok(())
    }

    // Writes a character of a text that collapses whitespace.
    fn write_folded(&mut self, indent: usize, c: char) -> Result<(), AllocError>
        ensures { OnOk result (self.new ≡ l.with_text false indent (encode_utf8 c) self.old) }
    {
        if is_blank(c) {
            self.gap = self.gap.behind_blank();
            return Ok(());
        }
        self.ink(indent, c)?;
        Ok(())
    }

    // Writes a character of a text.
    fn write_char(&mut self, keeps_blanks: bool, indent: usize, c: char) -> Result<(), AllocError>
        ensures { OnOk result (self.new ≡ l.with_text keeps_blanks indent (encode_utf8 c) self.old) }
    {
        if keeps_blanks {
            self.write_kept(indent, c)
        } else {
            self.write_folded(indent, c)
        }
    }

    /// Writes a text that keeps or collapses whitespace.
    pub fn write_text(
        &mut self,
        keeps_blanks: bool,
        indent: usize,
        text: &str,
    ) -> Result<(), AllocError>
        ensures { OnOk result (self.new ≡ l.with_text keeps_blanks indent text.now self.old) }
    {
        for c in text.chars() {
            self.write_char(keeps_blanks, indent, c)?;
        }
        Ok(())
    }

    /// Returns all lines.
    pub fn into_text(self) -> Result<String, AllocError>
        ensures { IfOk result (λ text. string_bytes text ≡ l.whole self) }
    {
        let mut layout = self;
        if !layout.line.is_empty() {
            layout.end_line()?;
        }
        Ok(layout.lines)
    }
}
