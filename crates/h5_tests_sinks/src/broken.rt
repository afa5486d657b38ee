//! A writer that fails.
ghost use Rattle.std.specs.Prelude.{◌≡◌, Some};

use std::io::{self, Write};

/// A writer to memory, one call of which fails: the call after the given number of others. Later calls succeed again.
#[derive(Drop)]
pub struct Broken {
    bytes: Vec<u8>,
    before: usize,
    failed: bool,
}

impl Broken {
    /// A writer that appends to these bytes. Its call of `write` after `before` others fails.
    pub fn new(bytes: Vec<u8>, before: usize) -> Broken
        ensures { result.bytes ≡ bytes }
    {
        Broken {
            bytes,
            before,
            failed: false,
        }
    }

    /// The written bytes.
    pub fn bytes(&self) -> &[u8]
        ensures { result.now ≡ self.now.bytes.items }
    {
        self.bytes.as_slice()
    }

    /// Returns true if a call has failed.
    pub fn has_failed(&self) -> bool
        ensures { result ≡ self.now.failed }
    {
        self.failed
    }
}

impl Write for Broken {
    ghost contents = { λ writer. Some writer.bytes.items };

    fn write(&mut self, buf: &[u8]) -> io::Result<usize> {
        if self.before == 0 && !self.failed {
            self.failed = true;
            return Err(io::Error::from(io::ErrorKind::BrokenPipe));
        }
        self.before = self.before.saturating_sub(1);
        self.bytes.write(buf)
    }

    fn flush(&mut self) -> io::Result<()> {
        Ok(())
    }
}
