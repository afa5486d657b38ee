//! Bytes that are read in chunks, and their text.
use super::decoding::{HowRead, PageText};
use super::fault::InputFault;
use html_tree_builder::encodings::EncodingOpts;
use html_tree_builder::standard::{ErrorSink, Parser, ReportingTokenizer, Tokenizer};
use html_tree_builder::token::{BuildFault, TokenSink};
use html_tree_builder::{Arena, BufferQueue, TokenizerResult};
use std::alloc::Global;
use std::io::{self, ErrorKind, Read};

/// A parser or a tokenizer that takes a text in chunks.
pub trait TakeText {
    /// Takes the next chunk.
    fn take(&mut self, chunk: String) -> Result<(), BuildFault>;
}

impl TakeText for Parser<Arena> {
    fn take(&mut self, chunk: String) -> Result<(), BuildFault> {
        self.process_owned(chunk)
    }
}

/// A tokenizer that reads what waits in a queue.
pub trait Feed {
    /// Reads what waits. Returns false if a reply of the token sink stopped it before the end.
    fn feed_once(&mut self, queue: &mut BufferQueue) -> Result<bool, BuildFault>;
}

impl<Sink: TokenSink> Feed for Tokenizer<Sink> {
    fn feed_once(&mut self, queue: &mut BufferQueue) -> Result<bool, BuildFault> {
        let result = self.feed(queue)?;
        Ok(matches!(result, TokenizerResult::Done))
    }
}

impl<Sink: TokenSink, E: ErrorSink> Feed for ReportingTokenizer<Sink, E> {
    fn feed_once(&mut self, queue: &mut BufferQueue) -> Result<bool, BuildFault> {
        let result = self.feed(queue)?;
        Ok(matches!(result, TokenizerResult::Done))
    }
}

/// A tokenizer with its queue.
#[derive(Drop)]
pub struct Fed<T: Feed + Drop> {
    pub tokenizer: T,
    pub queue: BufferQueue,
}

impl<T: Feed + Drop> TakeText for Fed<T> {
    fn take(&mut self, chunk: String) -> Result<(), BuildFault> {
        self.queue.push_back(chunk)?;
        for _ in 0..u64::MAX {
            if self.tokenizer.feed_once(&mut self.queue)? {
                break;
            }
        }
        Ok(())
    }
}

// The next bytes of an input, in this memory; none at its end. A read that is interrupted is repeated.
fn next_bytes<'c, R: Read>(input: &mut R, chunk: &'c mut [u8]) -> Result<&'c [u8], InputFault> {
    for _ in 0..u64::MAX {
        match input.read(chunk) {
            Ok(count) => return Ok(&chunk[..count]),
            Err(error) => {
                if error.kind() != ErrorKind::Interrupted {
                    return Err(InputFault::Read(error));
                }
            }
        }
    }
    Err(InputFault::Read(io::Error::from(ErrorKind::Interrupted)))
}

// The number of bytes that decide the encoding of a page.
const SNIFFED: usize = 1024;

// The first bytes of an input: as many as decide its encoding or somewhat more, or all.
fn first_bytes<R: Read>(alloc: Global, input: &mut R) -> Result<Vec<u8>, InputFault> {
    let mut first = Vec::new(alloc);
    let mut chunk = vec![in alloc; 0u8; SNIFFED]?;
    for _ in 0..u64::MAX {
        let bytes = next_bytes(input, chunk.as_mut_slice())?;
        first.extend_from_slice(bytes)?;
        if bytes.is_empty() || first.len() >= SNIFFED {
            break;
        }
    }
    Ok(first)
}

// Passes on the text of all bytes after the first ones.
fn read_rest<T: TakeText, R: Read>(
    alloc: Global,
    sink: &mut T,
    page: &mut PageText,
    input: &mut R,
) -> Result<(), InputFault> {
    let mut chunk = vec![in alloc; 0u8; 65_536]?;
    for _ in 0..u64::MAX {
        let bytes = next_bytes(input, chunk.as_mut_slice())?;
        if bytes.is_empty() {
            break;
        }
        sink.take(page.decode(bytes)?)?;
    }
    Ok(())
}

/// Passes on the text of all bytes of an input, and returns how they were read. Fails with `Read` if the input can't be read, and
/// with `Memory` if an allocation fails.
pub fn read_all<T: TakeText, R: Read>(
    alloc: Global,
    opts: EncodingOpts,
    sink: &mut T,
    input: &mut R,
) -> Result<HowRead, InputFault> {
    let first = first_bytes(alloc, input)?;
    let mut page = PageText::new(alloc, opts, first.as_slice())?;
    sink.take(page.decode(first.as_slice())?)?;
    read_rest(alloc, sink, &mut page, input)?;
    let (rest, how) = page.finish();
    sink.take(String::from_str(alloc, rest)?)?;
    Ok(how)
}
