//! The bytes of a page as a text, and how many invalid sequences U+FFFD replaces.
use html_tree_builder::encodings::{Decoder, Encoding, EncodingOpts, sniff};
use memchr::memchr;
use std::alloc::{AllocError, Global};

/// How a page was read.
#[derive(Clone, Copy)]
pub struct HowRead {
    /// Its encoding.
    pub encoding: Encoding,
    /// How many invalid sequences of bytes U+FFFD replaces.
    pub replaced: u64,
}

/// The text of a page whose bytes come in chunks.
pub struct PageText {
    decoder: Decoder,
    // The two bytes before the next chunk, which may begin a U+FFFD that the page has.
    before: [u8; 2],
    // How many sequences of invalid UTF-8 were replaced. The decoder counts those of other encodings.
    replaced: u64,
}

impl Drop for PageText {
    fn drop(self) {
        let PageText {
            decoder: _decoder,
            before: _before,
            replaced: _replaced,
        } = self;
    }
}

// Returns true if a text has the byte with which U+FFFD begins in UTF-8. Most texts don't.
fn may_have_marks(text: &str) -> bool {
    memchr(0xEF, text.as_bytes()).is_some()
}

// How many U+FFFD a text has.
fn marks_in(text: &str) -> u64 {
    let mut count = 0u64;
    for character in text.chars() {
        if character == '\u{FFFD}' {
            count = count.saturating_add(1);
        }
    }
    count
}

// How many U+FFFD the page itself has in these bytes of UTF-8, which follow two others.
fn marks_written(before: [u8; 2], bytes: &[u8]) -> u64 {
    let mut count = 0u64;
    let mut first = before[0];
    let mut second = before[1];
    for &byte in bytes {
        if first == 0xEF && second == 0xBF && byte == 0xBD {
            count = count.saturating_add(1);
        }
        first = second;
        second = byte;
    }
    count
}

// The last two bytes.
fn last_two(before: [u8; 2], bytes: &[u8]) -> [u8; 2] {
    let count = bytes.len();
    if count >= 2 {
        [bytes[count - 2], bytes[count - 1]]
    } else if count == 1 {
        [before[1], bytes[0]]
    } else {
        before
    }
}

impl PageText {
    /// The text of a page with these first bytes, none of which is decoded yet. Fails if an allocation fails.
    pub fn new(alloc: Global, opts: EncodingOpts, first: &[u8]) -> Result<PageText, AllocError> {
        let (encoding, _source) = sniff(alloc, opts, first)?;
        Ok(PageText {
            decoder: Decoder::new(alloc, encoding),
            before: [0, 0],
            replaced: 0,
        })
    }

    /// The text of the next bytes, as far as they decide it. Fails if an allocation fails.
    pub fn decode(&mut self, bytes: &[u8]) -> Result<String, AllocError> {
        let text = self.decoder.decode(bytes)?;
        let is_utf8 = self.decoder.encoding() == Encoding::Utf8;
        if is_utf8 && may_have_marks(text.as_str()) && text.as_bytes() != bytes {
            let written = marks_written(self.before, bytes);
            let replaced = marks_in(text.as_str()).saturating_sub(written);
            self.replaced = self.replaced.saturating_add(replaced);
        }
        self.before = last_two(self.before, bytes);
        Ok(text)
    }

    /// The text of the bytes that are left at the end, and how the page was read.
    pub fn finish(self) -> (&'static str, HowRead) {
        let PageText {
            decoder,
            before: _before,
            replaced,
        } = self;
        let encoding = decoder.encoding();
        let replaced = replaced.saturating_add(decoder.replacement_count());
        let rest = decoder.finish();
        let how = HowRead {
            encoding,
            replaced: replaced.saturating_add(marks_in(rest)),
        };
        (rest, how)
    }
}
