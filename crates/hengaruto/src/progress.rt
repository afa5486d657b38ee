//! Shows on a terminal how much of a long input was read.
use std::io::{self, IsTerminal, Read, Write};

// The first report comes at this many bytes, and each later one this many bytes after the one before.
const FIRST: u64 = 100_000_000;

const STEP: u64 = 10_000_000;

// The number of bytes that were read, and the number that was reported.
#[derive(Drop)]
struct Progress {
    read: u64,
    next: u64,
    on_terminal: bool,
}

impl Progress {
    // Counts bytes that were read, and reports them. An error of standard error is ignored.
    fn add(&mut self, rt: &HostRuntime, count: usize) {
        self.read = self.read.saturating_add(count as u64);
        if self.on_terminal && self.read >= self.next {
            self.next = self.read.saturating_add(STEP);
            let megabytes = self.read / 1_000_000;
            let _written = write!(rt.stderr(), "\rhengaruto: {megabytes} MB read");
        }
    }

    // Removes the report from the terminal.
    fn clear(&mut self, rt: &HostRuntime) {
        if self.next > FIRST {
            self.next = FIRST;
            let _written = rt.stderr().write_all(b"\r                              \r");
        }
    }
}

/// An input that reports on standard error how much of it was read, if that is a terminal.
pub struct Watched<'a, R: Read> {
    rt: &'a HostRuntime,
    input: &'a mut R,
    progress: Progress,
}

impl<'a, R: Read> Drop for Watched<'a, R> {
    fn drop(self) {
        let Watched {
            rt: _rt,
            input: _input,
            progress: _progress,
        } = self;
    }
}

impl<'a, R: Read> Watched<'a, R> {
    /// An input before its first byte is read.
    pub fn new(rt: &'a HostRuntime, input: &'a mut R) -> Watched<'a, R> {
        let progress = Progress {
            read: 0,
            next: FIRST,
            on_terminal: rt.stderr().is_terminal(),
        };
        Watched {
            rt,
            input,
            progress,
        }
    }
}

impl<'a, R: Read> Read for Watched<'a, R> {
    ghost remaining = { λ watched. R.remaining watched.input.now };

    fn read(&mut self, bytes: &mut [u8]) -> io::Result<usize> {
        let count = self.input.read(bytes)?;
        if count > 0 {
            self.progress.add(self.rt, count);
        } else {
            self.progress.clear(self.rt);
        }
        Ok(count)
    }
}
