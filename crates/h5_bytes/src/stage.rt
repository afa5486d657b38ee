//! The stages of a parser of bytes.
ghost use Rattle.std.specs.Prelude.{◌≡◌, ℕ, List, [], IfOk, Some, option_map, string_bytes};
ghost use Rattle.h5_encodings.specs.declared.sniffing.EncodingOpts.{EncodingOpts};
ghost use Rattle.h5_encodings.specs.Decoding.{Decodes, start};
ghost use Rattle.h5_bytes.specs.Texts.{CountsReplaced, Takes, decided_in, encoding_of_bytes, replaced_in, text_behind, text_of_bytes, waiting_in};

use h5_encodings::{Decoder, Encoding, EncodingOpts, Source, sniff};
use std::alloc::{AllocError, Global};

// This number of bytes determines the encoding.
const SNIFFED: usize = 1024;

/// The stage of a parser of bytes.
#[derive(Drop)]
pub enum Stage {
    /// Fewer than 1,024 bytes came. They wait.
    Sniffing(Vec<u8>),
    /// The encoding is determined, and comes from this source.
    Decoding(Decoder, Source),
}

// The bytes that determine the encoding, decoded in it.
#[derive(Drop)]
pub(super) struct Sniffed {
    pub(super) decoder: Decoder,
    pub(super) source: Source,
    pub(super) text: String,
}

// Determines the encoding from the first bytes, and decodes them.
pub(super) fn read_first(
    alloc: Global,
    opts: EncodingOpts,
    bytes: &[u8],
) -> Result<Sniffed, AllocError>
    ensures text { IfOk result (λ sniffed. Decodes (start (encoding_of_bytes opts bytes.now).0) bytes.now (string_bytes sniffed.text) sniffed.decoder) }
    ensures source { IfOk result (λ sniffed. sniffed.source ≡ (encoding_of_bytes opts bytes.now).1) }
    ensures counts { IfOk result (λ sniffed. CountsReplaced (start sniffed.decoder.encoding) bytes.now sniffed.decoder) }
{
    let (encoding, source) = sniff(alloc, opts, bytes)?;
    let mut decoder = Decoder::new(alloc, encoding);
    let text = decoder.decode(bytes)?;
    Ok(Sniffed {
        decoder,
        source,
        text,
    })
}

impl Stage {
    // Returns the stage before any bytes.
    pub(super) fn new(alloc: Global) -> Stage
        ensures waits { waiting_in result ≡ Some [] }
        ensures text { (opts : EncodingOpts) (bytes : List ℕ) → text_behind opts result bytes ≡ text_of_bytes opts bytes }
    {
        Stage::Sniffing(Vec::new(alloc))
    }

    // Returns the text of the next bytes as far as it is decided, or none while they wait.
    pub(super) fn decode(
        &mut self,
        alloc: Global,
        opts: EncodingOpts,
        bytes: &[u8],
    ) -> Result<Option<String>, AllocError>
        ensures { IfOk result (λ piece. Takes opts self.old bytes.now (option_map string_bytes piece) self.new) }
    {
        match self {
            Stage::Sniffing(first) => {
                first.extend_from_slice(bytes)?;
                if first.len() < SNIFFED {
                    return Ok(None);
                }
                let Sniffed {
                    decoder,
                    source,
                    text,
                } = read_first(alloc, opts, first.as_slice())?;
                *self = Stage::Decoding(decoder, source);
                Ok(Some(text))
            }
            Stage::Decoding(decoder, _source) => Ok(Some(decoder.decode(bytes)?)),
        }
    }

    // Returns the encoding, once it is determined.
    pub(super) fn encoding(&self) -> Option<(Encoding, Source)>
        ensures { result ≡ decided_in self.now }
    {
        match self {
            Stage::Sniffing(_first) => None,
            Stage::Decoding(decoder, source) => Some((decoder.encoding(), *source)),
        }
    }

    // Returns how many U+FFFD have replaced bytes.
    pub(super) fn replacement_count(&self) -> u64
        ensures { result ≡ replaced_in self.now }
    {
        match self {
            Stage::Sniffing(_first) => 0,
            Stage::Decoding(decoder, _source) => decoder.replacement_count(),
        }
    }
}
