//! A parser of bytes.
ghost use Rattle.std.specs.Prelude.{◌≡◌, ◌++◌, [], true, false, Ok, Err, IfOk, OnErr, OnOk};
ghost use Rattle.std.specs.Str.Lossy.{utf8_lossy};
ghost use Rattle.h5_driver.specs.Bytes.{AdvancesBytes, ProcessedBytes};
ghost use Rattle.h5_driver.specs.Parsing.{text_of, view_of};
ghost use Rattle.h5_driver.specs.PlainDocuments.{BringsBack};
ghost use Rattle.h5_driver.specs.Reading.{Parses};

use super::parser::Parser;
use super::reader::Reader;
use h5_interface::TreeSink;
use h5_token::BuildFault;
use h5_tokenizer_input::{Utf8LossyDecoder, part_size};
use std::alloc::Global;
use std::marker::Model;

/// A parser of a document in UTF-8, over a parser of text. `Parser::from_utf8` makes it.
///
/// It takes bytes in chunks. How they are split doesn't matter, even inside a character: it stores the bytes of an unfinished
/// character, which are at most three. U+FFFD replaces each error, as in `Utf8LossyDecoder`. A byte order mark is decoded like
/// any other character; the tokenizer's option `discard_bom` decides what becomes of it.
///
/// Contracts see it as its parser and the stored bytes. It has failed if its parser has.
#[derive(Drop)]
pub struct Utf8Parser<R: Reader + Drop> {
    parser: Parser<R>,
    decoder: Utf8LossyDecoder,
}

impl<R: Reader + Drop> Model for Utf8Parser<R> {
    ghost use Rattle.std.specs.Coded.{codes};
    ghost use Rattle.h5_driver.specs.Bytes.{ParsingBytes};
    ghost use Rattle.h5_driver.specs.Parsing.{IsParsing};

    ghost Value = { ParsingBytes R };

    ghost coded = { Prim.hlevel (codes, R.code) };

    ghost view = { λ p. record { parser = p.parser; unfinished = p.decoder } };

    ghost invariant = { λ p. IsParsing R.Reader p.parser };
}

// Returns a new parser of bytes over a parser of text.
pub(super) fn bytes_over<R: Reader + Drop>(alloc: Global, parser: Parser<R>) -> Utf8Parser<R>
    ensures parser { result.parser ≡ parser }
    ensures unfinished { result.unfinished ≡ [] }
{
    Utf8Parser {
        parser,
        decoder: Utf8LossyDecoder::new(alloc),
    }
}

impl<R: Reader + Drop> Utf8Parser<R> {
    /// Parses the next chunk of the bytes: its text, as far as that is decided, as `Parser::process` does.
    ///
    /// Fails with `Memory` if an allocation fails; the parser has then failed. Fails with `Failed`, and changes nothing, if the
    /// parser had failed before.
    pub fn process(&mut self, bytes: &[u8]) -> Result<(), BuildFault>
        ensures takes { OnOk result (ProcessedBytes R.Reader bytes.now self.old self.new) }
        ensures works { OnOk result (self.new.parser.failed ≡ false) }
        ensures failed { self.old.parser.failed ≡ true → (result ≡ Err BuildFault.Failed) × (self.new ≡ self.old) }
        ensures memory { self.old.parser.failed ≡ false → OnErr result (result ≡ Err BuildFault.Memory) }
        ensures fails { OnErr result (self.new.parser.failed ≡ true) }
    {
        if self.parser.has_failed() {
            return Err(BuildFault::Failed);
        }
        match self.decoder.decode(bytes) {
            Ok(text) => {
                let result = self.parser.process_owned(text);
                self.parser.stands();
                result
            }
            Err(_) => {
                self.parser.fail();
                Err(BuildFault::Memory)
            }
        }
    }

    /// Ends the text, and returns the output of the sink. U+FFFD replaces an unfinished character.
    ///
    /// The tree is what tree construction builds from the tokens of the text of all bytes. Fails with `Memory` if an allocation
    /// fails, and with `Failed` if the parser had failed before.
    pub fn finish(self) -> Result<<R::Sink as TreeSink>::Output, BuildFault>
        ensures parses { IfOk result (λ output. Parses R.Reads R.Sink.choices (text_of R.Reader self.parser) (view_of R.Reader self.parser) (self.parser.waiting ++ utf8_lossy self.unfinished) (R.Sink.told output)) }
        ensures failed { self.parser.failed ≡ true → result ≡ Err BuildFault.Failed }
        ensures memory { self.parser.failed ≡ false → OnErr result (result ≡ Err BuildFault.Memory) }
    {
        let Utf8Parser { parser, decoder } = self;
        parser.one(decoder.finish())
    }

    // Parses bytes in parts.
    fn process_parts(&mut self, bytes: &[u8]) -> Result<(), BuildFault>
        ensures takes { OnOk result (AdvancesBytes R.Reader bytes.now self.old self.new) }
        ensures works { OnOk result (self.new.parser.failed ≡ self.old.parser.failed) }
        ensures memory { self.old.parser.failed ≡ false → OnErr result (result ≡ Err BuildFault.Memory) }
    {
        let size = part_size(bytes.len());
        let mut left = bytes;
        'parts: while !left.is_empty() {
            let (part, rest) = left.split_at(size.min(left.len()));
            self.process(part)?;
            left = rest;
        }
        Ok(())
    }

    /// Parses all bytes: `process` for parts of them, then `finish`. From the text of a readable plain document it makes that
    /// document, as `Parser::process_pieces` does. Fails like `finish`.
    pub fn one(self, bytes: &[u8]) -> Result<<R::Sink as TreeSink>::Output, BuildFault>
        ensures parses { IfOk result (λ output. Parses R.Reads R.Sink.choices (text_of R.Reader self.parser) (view_of R.Reader self.parser) (self.parser.waiting ++ utf8_lossy (self.unfinished ++ bytes.now)) (R.Sink.told output)) }
        ensures plain { IfOk result (λ output. BringsBack R.first (text_of R.Reader self.parser) (view_of R.Reader self.parser) self.parser.waiting (utf8_lossy (self.unfinished ++ bytes.now)) (R.Sink.told output)) }
        ensures failed { self.parser.failed ≡ true → result ≡ Err BuildFault.Failed }
        ensures memory { self.parser.failed ≡ false → OnErr result (result ≡ Err BuildFault.Memory) }
    {
        if self.parser.has_failed() {
            return Err(BuildFault::Failed);
        }
        let mut parser = self;
        parser.process_parts(bytes)?;
        parser.finish()
    }
}
