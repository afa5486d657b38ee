//! Writes output in parts.
use super::fault::Fault;
use html_tree_builder::serialize::SerializeFault;
use std::alloc::Global;
use std::io::{self, Write};

// A part of at least this many bytes is written.
const PART: usize = 65_536;

/// A writer that passes its input to another writer in parts, and keeps the error that stopped it.
pub struct Parts<'a, W: Write> {
    out: &'a mut W,
    part: Vec<u8>,
    error: Option<io::Error>,
}

impl<'a, W: Write> Drop for Parts<'a, W> {
    fn drop(self) {
        let Parts {
            out: _out,
            part: _part,
            error: _error,
        } = self;
    }
}

impl<'a, W: Write> Parts<'a, W> {
    pub fn new(alloc: Global, out: &'a mut W) -> Parts<'a, W> {
        Parts {
            out,
            part: Vec::new(alloc),
            error: None,
        }
    }

    // Writes the buffered part.
    fn hand_on(&mut self) -> io::Result<()> {
        match self.out.write_all(self.part.as_slice()) {
            Ok(()) => {
                self.part.clear();
                Ok(())
            }
            Err(error) => {
                let kind = error.kind();
                self.error = Some(error);
                Err(io::Error::from(kind))
            }
        }
    }

    /// Writes the last part.
    pub fn finish(&mut self) -> Result<(), Fault> {
        match self.hand_on() {
            Ok(()) => Ok(()),
            Err(error) => Err(Fault::Write(self.error.take().unwrap_or(error))),
        }
    }

    /// The error of a serializer that writes to it.
    pub fn fault(&mut self, fault: SerializeFault) -> Fault {
        match (fault, self.error.take()) {
            (SerializeFault::Write, Some(error)) => Fault::Write(error),
            _ => Fault::Memory,
        }
    }
}

impl<'a, W: Write> Write for Parts<'a, W> {
    ghost use Rattle.std.specs.Prelude.{None};

    ghost contents = { λ writer. None };

    fn write(&mut self, bytes: &[u8]) -> io::Result<usize> {
        self.part.extend_from_slice(bytes)?;
        if self.part.len() >= PART {
            self.hand_on()?;
        }
        Ok(bytes.len())
    }

    fn flush(&mut self) -> io::Result<()> {
        self.hand_on()
    }
}
