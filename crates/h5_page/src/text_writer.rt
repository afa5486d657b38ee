//! Receives the calls of a page's walk, and collects its text.
ghost use Rattle.std.specs.Prelude.{◌≡◌, ◌++◌, ◌∷◌, [], IfOk, OnOk, map, reverse, string_bytes};
ghost use Rattle.h5_page.specs.Layout.{whole};
ghost use Rattle.h5_page.specs.Text as t;

use super::attributes::{Said, said_of};
use super::begin::{begin, finish};
use super::display::{Display, display_of};
use super::layout::Layout;
use super::open::OpenElements;
use html_tree_builder::names::QualName;
use html_tree_builder::serialize::{AttrRef, SerializeFault, Serializer};
use std::alloc::{AllocError, Global};
use std::fmt::Write;
use std::marker::Model;

/// How the text of a page is laid out.
#[derive(Clone, Copy, Debug)]
pub struct TextOpts {
    /// The width in columns at which lines are wrapped; `None` means that they aren't.
    pub width: Option<usize>,
    /// If true, links have numbers.
    pub has_numbers: bool,
    /// If true, a `noscript` isn't shown. Pass what the tree was parsed with: its content is text if scripting is enabled.
    pub scripting_enabled: bool,
}

impl TextOpts {
    /// Lines that aren't wrapped, no numbers, and scripting as by default in a parser: enabled.
    pub fn plain() -> TextOpts
        ensures { result ≡ t.plain_opts }
    {
        TextOpts {
            width: None,
            has_numbers: false,
            scripting_enabled: true,
        }
    }
}

/// The text of a page, and, if its links have numbers, the `href` of each, in order.
#[derive(Debug, Drop)]
pub struct PageText {
    pub text: String,
    pub hrefs: Vec<String>,
}

/// The text of the calls so far.
#[derive(Drop)]
pub struct TextWriter {
    scripting_enabled: bool,
    // The item counts of the lists that follow; the first list is last.
    counts: Vec<usize>,
    elements: OpenElements,
    layout: Layout,
    has_numbers: bool,
    hrefs: Vec<String>,
    alloc: Global,
}

impl Model for TextWriter {
    ghost use Rattle.std.specs.Prelude.{map, reverse, string_bytes};
    ghost use Rattle.h5_page.specs.Text.{Kept};

    ghost Value = { Kept };

    ghost view = { λ writer. record { scripting_enabled = writer.scripting_enabled; counts = reverse writer.counts.items; opened = writer.elements; laid = writer.layout; has_numbers = writer.has_numbers; hrefs = map string_bytes writer.hrefs.items } };
}

// Returns the number of a link, as it appears in the text.
fn link_mark(alloc: Global, number: usize) -> Result<String, AllocError>
    ensures { IfOk result (λ mark. string_bytes mark ≡ t.link_mark number) }
{
    let mut mark = String::new(alloc);
    write!(mark, "[{number}]")?;
    Ok(mark)
}

impl TextWriter {
    /// Returns an empty text. `counts` has the item counts of the numbered lists that follow, the last list first.
    pub fn new(alloc: Global, opts: TextOpts, counts: Vec<usize>) -> TextWriter
        ensures { result ≡ t.nothing_kept opts (reverse counts.items) }
    {
        TextWriter {
            scripting_enabled: opts.scripting_enabled,
            counts,
            elements: OpenElements::new(alloc),
            layout: Layout::new(alloc, opts.width),
            has_numbers: opts.has_numbers,
            hrefs: Vec::new(alloc),
            alloc,
        }
    }

    // Begins a link with this `href`.
    fn number_link(&mut self, href: &str, indent: usize) -> Result<(), AllocError>
        ensures { OnOk result (self.new ≡ t.numbered indent href.now self.old) }
    {
        let mark = link_mark(self.alloc, self.hrefs.len().saturating_add(1))?;
        let href = String::from_str(self.alloc, href)?;
        self.hrefs.push(href)?;
        self.layout.write(indent, mark.as_str())
    }

    // Writes the number of a link, if this is one, and links have numbers.
    fn begin_link(&mut self, display: Display, said: &Said, indent: usize) -> Result<(), AllocError>
        ensures { OnOk result (self.new ≡ t.with_link indent (t.link_of display said.now) self.old) }
    {
        match (display, &said.value) {
            (Display::Link, Some(href)) if self.has_numbers => {
                self.number_link(href.as_str(), indent)
            }
            _ => Ok(()),
        }
    }

    // Returns the item count of the element that begins, if it is a numbered list.
    fn next_count(&mut self, display: Display) -> usize
        ensures count { result ≡ t.count_of display self.old.counts }
        ensures left { self.new ≡ t.counted display self.old }
    {
        match display {
            Display::Numbered => self.counts.pop().unwrap_or(0),
            _ => 0,
        }
    }

    // Begins an element.
    fn start(&mut self, display: Display, said: &Said) -> Result<(), AllocError>
        ensures { OnOk result (self.new ≡ t.started display said.now self.old) }
    {
        let count = self.next_count(display);
        let outer = self.elements.current();
        let inner = outer.inner(display, said, count);
        if !inner.is_shown {
            return self.elements.enter(outer, inner);
        }
        begin(self.alloc, &mut self.layout, display, said, outer)?;
        self.begin_link(display, said, outer.indent)?;
        self.elements.enter(outer.behind(display, said), inner)
    }

    // Ends an element.
    fn stop(&mut self)
        ensures { self.new ≡ t.stopped self.old }
    {
        if let Some(ended) = self.elements.leave() {
            if ended.is_shown {
                finish(
                    &mut self.layout,
                    ended.display,
                    self.elements.current().is_in_list,
                );
            }
        }
    }

    // Writes a text.
    fn say(&mut self, text: &str) -> Result<(), AllocError>
        ensures { OnOk result (self.new ≡ t.said text.now self.old) }
    {
        let current = self.elements.current();
        if !current.is_shown {
            return Ok(());
        }
        self.layout
            .write_text(current.keeps_blanks, current.indent, text)
    }

    /// Returns the text, and the `href` of each numbered link. Fails with `AllocError` if an allocation fails.
    pub fn into_text(self) -> Result<PageText, AllocError>
        ensures text { IfOk result (λ page. string_bytes page.text ≡ whole self.laid) }
        ensures hrefs { IfOk result (λ page. map string_bytes page.hrefs.items ≡ self.hrefs) }
    {
        let text = self.layout.into_text()?;
        Ok(PageText {
            text,
            hrefs: self.hrefs,
        })
    }
}

impl Serializer for TextWriter {
    ghost use Rattle.std.specs.Prelude.{◌≡◌, [], None, Ok};
    ghost use Rattle.html_tree_builder.specs.SerializeFaults.{Memory};
    ghost use Rattle.h5_page.specs.Text.{Kept, after_call};

    ghost Meaning = { Kept };

    ghost meaning = { λ writer. writer };

    ghost contents = { λ writer. None };

    ghost answer = { λ writer call. Ok tt };

    ghost after = { after_call };

    ghost writes = { λ writer call. [] };

    ghost breaks = { λ before text call fault after written. fault ≡ Memory };

    fn start_elem<T: AttrRef, I: Iterator<Item = T> + Drop>(
        &mut self,
        name: QualName,
        attrs: I,
    ) -> Result<(), SerializeFault> {
        let display = display_of(self.scripting_enabled, &name);
        let said = said_of(self.alloc, &name.ns, display.asked(), attrs)?;
        self.start(display, &said)?;
        Ok(())
    }

    fn end_elem(&mut self, _name: QualName) -> Result<(), SerializeFault> {
        self.stop();
        Ok(())
    }

    fn write_text(&mut self, text: &str) -> Result<(), SerializeFault> {
        self.say(text)?;
        Ok(())
    }

    fn write_comment(&mut self, _text: &str) -> Result<(), SerializeFault> {
        Ok(())
    }

    fn write_doctype(&mut self, _name: &str) -> Result<(), SerializeFault> {
        Ok(())
    }

    fn write_processing_instruction(
        &mut self,
        _target: &str,
        _content: &str,
    ) -> Result<(), SerializeFault> {
        Ok(())
    }
}
