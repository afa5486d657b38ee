//! A decoder of bytes that come in chunks.
ghost use Rattle.std.specs.Prelude.{◌≡◌, ◌+◌, [], false, nat_lt, true, string_bytes, IfOk, OnOk, OnErr};
ghost use Rattle.std.specs.Io.Iter.{u64_saturate};
ghost use Rattle.h5_encodings.specs.Decoding.{Decodes, is_utf8, reading_of, start, text_from};
ghost use Rattle.h5_encodings.specs.Steps.{errors_so_far};

use super::encoding::Encoding;
use super::reading::{push_steps, text_at_end};
use super::steps::Kept;
use h5_tokenizer_input::Utf8LossyDecoder;
use std::alloc::{AllocError, Global};
use std::marker::Model;

fn is_utf8(encoding: Encoding) -> bool
    ensures { result ≡ is_utf8 encoding }
{
    match encoding {
        Encoding::Utf8 => true,
        Encoding::Gbk
        | Encoding::Gb18030
        | Encoding::Big5
        | Encoding::EucJp
        | Encoding::Iso2022Jp
        | Encoding::ShiftJis
        | Encoding::EucKr
        | Encoding::Replacement
        | Encoding::Utf16be
        | Encoding::Utf16le
        | Encoding::XUserDefined
        | Encoding::SingleByte(_) => false,
    }
}

/// A decoder of bytes that come in chunks. U+FFFD replaces each error that the encoding's decoder returns (Encoding Standard,
/// section 6, "decode without BOM"). How the bytes are split into chunks doesn't matter. A byte order mark is decoded like any
/// other character.
pub struct Decoder {
    encoding: Encoding,
    utf8: Utf8LossyDecoder,
    kept: Kept,
    replaced: u64,
    alloc: Global,
}

impl Drop for Decoder {
    fn drop(self) {
        let Decoder {
            encoding: _encoding,
            utf8: _utf8,
            kept: _kept,
            replaced: _replaced,
            alloc: _alloc,
        } = self;
    }
}

impl Model for Decoder {
    ghost use Rattle.h5_encodings.specs.Decoding.{State};

    ghost Value = { State };

    ghost view = { λ decoder. record { encoding = decoder.encoding; unfinished = decoder.utf8; kept = decoder.kept; replaced = decoder.replaced } };
}

impl Decoder {
    /// Returns a new decoder. Allocates nothing.
    pub fn new(alloc: Global, encoding: Encoding) -> Decoder
        ensures { result ≡ start encoding }
    {
        Decoder {
            encoding,
            utf8: Utf8LossyDecoder::new(alloc),
            kept: Kept::Nothing,
            replaced: 0,
            alloc,
        }
    }

    /// Returns the encoding that it decodes.
    pub fn encoding(&self) -> Encoding
        ensures { result ≡ self.now.encoding }
    {
        self.encoding
    }

    /// Returns true if U+FFFD has replaced bytes, as far as their text is decided. UTF-8 isn't counted: always false for it.
    pub fn has_errors(&self) -> bool
        ensures { result ≡ nat_lt 0 self.now.replaced }
    {
        self.replaced > 0
    }

    /// Returns how many U+FFFD have replaced bytes, as far as their text is decided. The count stops at the maximum of `u64`.
    /// UTF-8 isn't counted: always 0 for it.
    pub fn replacement_count(&self) -> u64
        ensures { result ≡ self.now.replaced }
    {
        self.replaced
    }

    /// Decodes the next bytes, as far as their text is decided. If this fails, nothing changes.
    pub fn decode(&mut self, bytes: &[u8]) -> Result<String, AllocError>
        ensures decoded { IfOk result (λ text. Decodes self.old bytes.now (string_bytes text) self.new) }
        ensures errors { OnOk result (is_utf8 self.old.encoding ≡ false →
            self.new.replaced ≡ u64_saturate (self.old.replaced + errors_so_far (reading_of self.old.encoding) self.old.kept bytes.now)) }
        ensures utf8 { OnOk result (is_utf8 self.old.encoding ≡ true → self.new.replaced ≡ self.old.replaced) }
        ensures same { OnErr result (self.new ≡ self.old) }
    {
        if is_utf8(self.encoding) {
            return self.utf8.decode(bytes);
        }
        let mut text = String::with_capacity(self.alloc, bytes.len())?;
        let behind = push_steps(&mut text, self.encoding, self.kept, bytes)?;
        self.kept = behind.kept;
        self.replaced = self.replaced.saturating_add(behind.errors);
        Ok(text)
    }

    /// Returns the text of what is left at the end: U+FFFD for an unfinished character, in ISO-2022-JP followed by what the
    /// sign of an unfinished escape is by itself; else the empty text.
    pub fn finish(self) -> &'static str
        ensures { result.now ≡ text_from self [] }
    {
        let Decoder {
            encoding,
            utf8,
            kept,
            replaced: _replaced,
            alloc: _alloc,
        } = self;
        if is_utf8(encoding) {
            return utf8.finish();
        }
        text_at_end(encoding, kept)
    }
}
