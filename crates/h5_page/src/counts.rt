//! The item counts of a page's lists.
ghost use Rattle.std.specs.Prelude.{◌≡◌, false, OnOk};
ghost use Rattle.h5_page.specs.Counts as c;

use super::attributes::is_hidden;
use super::display::{Display, display_of};
use super::number::one_more;
use html_tree_builder::names::QualName;
use html_tree_builder::serialize::{AttrRef, SerializeFault, Serializer};
use std::alloc::{AllocError, Global};
use std::marker::Model;

/// Counts the items of each numbered list, in the order in which the lists begin.
#[derive(Drop)]
pub struct ItemCounter {
    counts: Vec<usize>,
    // For each open element: which of the lists it is, if any. The innermost is last.
    elements: Vec<Option<usize>>,
    alloc: Global,
}

impl Model for ItemCounter {
    ghost use Rattle.std.specs.Prelude.{reverse};
    ghost use Rattle.h5_page.specs.Counts.{Counted};

    ghost Value = { Counted };

    ghost view = { λ counter. record { counts = counter.counts.items; elements = reverse counter.elements.items } };
}

impl ItemCounter {
    /// Returns a counter without lists.
    pub fn new(alloc: Global) -> ItemCounter
        ensures { result ≡ c.nothing_counted }
    {
        ItemCounter {
            counts: Vec::new(alloc),
            elements: Vec::new(alloc),
            alloc,
        }
    }

    /// Returns the counts, in the order of the lists.
    pub fn into_counts(self) -> Vec<usize>
        ensures { result.items ≡ self.counts }
    {
        self.counts
    }

    // Counts an item of a list.
    fn raise(&mut self, list: usize)
        ensures { self.new ≡ record self.old { counts = c.raised list self.old.counts } }
    {
        if list < self.counts.len() {
            self.counts[list] = one_more(self.counts[list]);
        }
    }

    // Begins an element, which is this list, if any.
    fn enter(&mut self, list: Option<usize>) -> Result<(), AllocError>
        ensures { OnOk result (self.new ≡ c.entered list self.old) }
    {
        self.elements.push(list)?;
        Ok(())
    }

    // Begins an item.
    fn begin_item(&mut self, is_hidden: bool) -> Result<(), AllocError>
        ensures { OnOk result (self.new ≡ c.started Display.Item is_hidden self.old) }
    {
        if let Some(Some(list)) = self.elements.last().copied()
            && !is_hidden
        {
            self.raise(list);
        }
        self.enter(None)
    }

    // Begins a numbered list.
    fn begin_list(&mut self) -> Result<(), AllocError>
        ensures { OnOk result (self.new ≡ c.started Display.Numbered false self.old) }
    {
        let list = self.counts.len();
        self.counts.push(0)?;
        self.enter(Some(list))
    }

    // Ends an element.
    fn stop(&mut self)
        ensures { self.new ≡ c.stopped self.old }
    {
        let _ = self.elements.pop();
    }
}

impl Serializer for ItemCounter {
    ghost use Rattle.std.specs.Prelude.{◌≡◌, [], None, Ok};
    ghost use Rattle.html_tree_builder.specs.SerializeFaults.{Memory};
    ghost use Rattle.h5_page.specs.Counts.{Counted, after_call};

    ghost Meaning = { Counted };

    ghost meaning = { λ counter. counter };

    ghost contents = { λ counter. None };

    ghost answer = { λ counter call. Ok tt };

    ghost after = { after_call };

    ghost writes = { λ counter call. [] };

    ghost breaks = { λ before text call fault after written. fault ≡ Memory };

    fn start_elem<T: AttrRef, I: Iterator<Item = T> + Drop>(
        &mut self,
        name: QualName,
        attrs: I,
    ) -> Result<(), SerializeFault> {
        match display_of(true, &name) {
            Display::Item => {
                let is_hidden = is_hidden(self.alloc, &name.ns, attrs)?;
                self.begin_item(is_hidden)?;
                Ok(())
            }
            Display::Numbered => {
                self.begin_list()?;
                Ok(())
            }
            _ => {
                self.enter(None)?;
                Ok(())
            }
        }
    }

    fn end_elem(&mut self, _name: QualName) -> Result<(), SerializeFault> {
        self.stop();
        Ok(())
    }

    fn write_text(&mut self, _text: &str) -> Result<(), SerializeFault> {
        Ok(())
    }

    fn write_comment(&mut self, _text: &str) -> Result<(), SerializeFault> {
        Ok(())
    }

    fn write_doctype(&mut self, _name: &str) -> Result<(), SerializeFault> {
        Ok(())
    }

    fn write_processing_instruction(
        &mut self,
        _target: &str,
        _content: &str,
    ) -> Result<(), SerializeFault> {
        Ok(())
    }
}
