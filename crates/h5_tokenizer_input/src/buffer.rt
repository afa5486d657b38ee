//! The queue of text that waits to be tokenized.
ghost use Rattle.std.specs.Prelude.{◌≡◌, ◌==◌, ◌≤◌, ◌-◌, ◌++◌, [], OnOk, OnErr, length, drop};
ghost use Rattle.std.specs.String.{string_bytes};
ghost use Rattle.std.specs.Str.{IsCharBoundary};

use std::alloc::{AllocError, Global};
use std::marker::Model;
use std::mem;

/// The text that waits to be tokenized. Contracts see it as its bytes.
#[derive(Drop)]
pub struct BufferQueue {
    text: String,
    // The text before this offset was read.
    start: usize,
}

impl Model for BufferQueue {
    ghost use Rattle.std.specs.Prelude.{List, ℕ, drop};
    ghost use Rattle.std.specs.String.{string_bytes};
    ghost use Rattle.std.specs.Str.{IsCharBoundary};

    ghost Value = { List ℕ };

    ghost view = { λ queue. drop queue.start (string_bytes queue.text) };

    ghost invariant = { λ queue. IsCharBoundary (string_bytes queue.text) queue.start };
}

impl BufferQueue {
    /// Returns an empty queue. Allocates nothing.
    pub fn new(alloc: Global) -> BufferQueue
        ensures { result ≡ [] }
    {
        BufferQueue {
            text: String::new(alloc),
            start: 0,
        }
    }

    /// Appends a text. If this fails, nothing changes.
    pub fn push_back(&mut self, text: String) -> Result<(), AllocError>
        ensures ok { OnOk result (self.new ≡ self.old ++ string_bytes text) }
        ensures err { OnErr result (self.new ≡ self.old) }
    {
        if self.is_empty() {
            self.text = text;
            self.start = 0;
            return Ok(());
        }
        self.text.push_str(text.as_str())?;
        Ok(())
    }

    /// Returns true if the queue is empty.
    pub fn is_empty(&self) -> bool
        ensures { result ≡ (length self.now == 0) }
    {
        self.start == self.text.len()
    }

    /// Returns the waiting text.
    pub fn as_str(&self) -> &str
        ensures { result.now ≡ self.now }
    {
        let (_, waiting) = self.text.as_str().split_at(self.start);
        waiting
    }

    /// Moves the text of another queue to the end of this one. If this fails, both queues are unchanged.
    pub fn append(&mut self, other: &mut BufferQueue) -> Result<(), AllocError>
        ensures ok { OnOk result ((self.new ≡ self.old ++ other.old) × (other.new ≡ [])) }
        ensures err { OnErr result ((self.new ≡ self.old) × (other.new ≡ other.old)) }
    {
        if self.is_empty() {
            mem::swap(self, other);
            other.clear();
            return Ok(());
        }
        self.text.push_str(other.as_str())?;
        other.clear();
        Ok(())
    }

    fn clear(&mut self)
        ensures { self.new ≡ [] }
    {
        self.text.clear();
        self.start = 0;
    }

    // Moves the waiting text to the start of its memory, if that succeeds.
    fn give_back(&mut self)
        ensures { self.new ≡ self.old }
    {
        let start = self.start;
        if self.text.replace_range(..start, "").is_ok() {
            self.start = 0;
        }
    }

    /// Removes all but the last `left` bytes; this may free the memory of the others. `left` must be at most the number of
    /// waiting bytes, and the bytes that stay must begin on a character boundary.
    pub fn keep(&mut self, left: usize)
        requires left { left ≤ length self.old }
        requires boundary { IsCharBoundary self.old (length self.old - left) }
        ensures { self.new ≡ drop (length self.old - left) self.old }
    {
        self.start = self.text.len() - left;
        if left == 0 {
            self.clear();
        } else if self.start > left {
            self.give_back();
        }
    }
}
