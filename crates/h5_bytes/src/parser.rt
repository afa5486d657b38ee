//! A parser of bytes in any encoding.
ghost use Rattle.std.specs.Prelude.{◌≡◌, ℕ, List, ◌++◌, [], nat_lt, true, false, Ok, Err, IfOk, OnErr, OnOk, Some};
ghost use Rattle.h5_driver.specs.Parsing.{text_of, view_of};
ghost use Rattle.h5_driver.specs.PlainDocuments.{BringsBack};
ghost use Rattle.h5_driver.specs.Reading.{Parses};
ghost use Rattle.h5_bytes.specs.Parsing.{ProcessedBytes};
ghost use Rattle.h5_bytes.specs.Texts.{decided_in, replaced_in, text_behind, text_of_bytes, waiting_in};

use super::stage::{Sniffed, Stage, read_first};
use h5_driver::Reader;
use h5_driver::parser::Parser;
use h5_encodings::{Encoding, EncodingOpts, Source};
use h5_interface::TreeSink;
use h5_token::BuildFault;
use std::alloc::Global;
use std::marker::Model;

/// A parser of a document from bytes, over a parser of text. It decodes the page's encoding, which is determined by the first
/// 1,024 bytes, or by all if there are fewer, and by the options (HTML standard, section 13.2.3.2).
///
/// It takes bytes in chunks, and how they are split doesn't matter. While fewer than 1,024 bytes came, they wait, and the parser
/// of text gets nothing. U+FFFD replaces each error that the encoding's decoder returns. A byte order mark is decoded like any
/// other character; the tokenizer's option `discard_bom` decides what becomes of it.
///
/// Contracts see it as its parser, the options, its stage, and whether it has failed. It has failed after an error, and then
/// every call that returns a result fails with `Failed`.
#[derive(Drop)]
pub struct BytesParser<R: Reader + Drop> {
    parser: Parser<R>,
    opts: EncodingOpts,
    stage: Stage,
    failed: bool,
    alloc: Global,
}

impl<R: Reader + Drop> Model for BytesParser<R> {
    ghost use Rattle.std.specs.Coded.{codes};
    ghost use Rattle.h5_bytes.specs.Parsing.{ParsingPage};

    ghost Value = { ParsingPage R };

    ghost coded = { Prim.hlevel (codes, R.code) };

    ghost view = { λ p. record { parser = p.parser; opts = p.opts; stage = p.stage; failed = p.failed } };
}

// Returns the tree of a whole page.
fn whole<R: Reader + Drop>(
    alloc: Global,
    parser: Parser<R>,
    opts: EncodingOpts,
    bytes: &[u8],
) -> Result<<R::Sink as TreeSink>::Output, BuildFault>
    ensures parses { IfOk result (λ output. Parses R.Reads R.Sink.choices (text_of R.Reader parser) (view_of R.Reader parser) (parser.waiting ++ text_of_bytes opts bytes.now) (R.Sink.told output)) }
    ensures memory { parser.failed ≡ false → OnErr result (result ≡ Err BuildFault.Memory) }
{
    let Sniffed {
        decoder,
        source: _,
        text,
    } = read_first(alloc, opts, bytes)?;
    let mut parser = parser;
    parser.process_owned(text)?;
    parser.one(decoder.finish())
}

impl<R: Reader + Drop> BytesParser<R> {
    /// Returns a new parser of bytes, over a parser of text that continues from its state. Allocates nothing.
    pub fn new(alloc: Global, parser: Parser<R>, opts: EncodingOpts) -> BytesParser<R>
        ensures parser { result.parser ≡ parser }
        ensures opts { result.opts ≡ opts }
        ensures waits { waiting_in result.stage ≡ Some [] }
        ensures text { (bytes : List ℕ) → text_behind opts result.stage bytes ≡ text_of_bytes opts bytes }
        ensures failed { result.failed ≡ false }
    {
        BytesParser {
            parser,
            opts,
            stage: Stage::new(alloc),
            failed: false,
            alloc,
        }
    }

    /// Returns the page's encoding, and where it comes from, or `None` while fewer than 1,024 bytes came.
    pub fn encoding(&self) -> Option<(Encoding, Source)>
        ensures { result ≡ decided_in self.now.stage }
    {
        self.stage.encoding()
    }

    /// Returns true if U+FFFD has replaced bytes, as far as their text is decided. UTF-8 isn't counted: always false for it.
    pub fn has_errors(&self) -> bool
        ensures { result ≡ nat_lt 0 (replaced_in self.now.stage) }
    {
        self.stage.replacement_count() > 0
    }

    /// Returns how many U+FFFD have replaced bytes, as far as their text is decided. The count stops at the maximum of `u64`.
    /// UTF-8 isn't counted: always 0 for it.
    pub fn replacement_count(&self) -> u64
        ensures { result ≡ replaced_in self.now.stage }
    {
        self.stage.replacement_count()
    }

    // Parses the next chunk of the bytes, even if the parser has failed.
    fn take(&mut self, bytes: &[u8]) -> Result<(), BuildFault>
        ensures takes { OnOk result (ProcessedBytes R.Reader bytes.now self.old self.new) }
        ensures flag { self.new.failed ≡ self.old.failed }
        ensures memory { self.old.parser.failed ≡ false → OnErr result (result ≡ Err BuildFault.Memory) }
        ensures works { self.old.parser.failed ≡ false → OnOk result (self.new.parser.failed ≡ false) }
    {
        match self.stage.decode(self.alloc, self.opts, bytes)? {
            None => Ok(()),
            Some(text) => self.parser.process_owned(text),
        }
    }

    /// Parses the next chunk of the bytes: its text, as far as that is decided, as `Parser::process` does. While fewer than
    /// 1,024 bytes came, they wait.
    ///
    /// Fails with `Memory` if an allocation fails; the parser has then failed. Fails with `Failed`, and changes nothing, if the
    /// parser had failed before. If its parser of text had failed before, fails with `Failed` as soon as that gets text.
    pub fn process(&mut self, bytes: &[u8]) -> Result<(), BuildFault>
        ensures takes { OnOk result (ProcessedBytes R.Reader bytes.now self.old self.new) }
        ensures works { OnOk result (self.new.failed ≡ false) }
        ensures parser_works { self.old.parser.failed ≡ false → OnOk result (self.new.parser.failed ≡ false) }
        ensures failed { self.old.failed ≡ true → (result ≡ Err BuildFault.Failed) × (self.new ≡ self.old) }
        ensures memory { self.old.failed ≡ false → self.old.parser.failed ≡ false → OnErr result (result ≡ Err BuildFault.Memory) }
        ensures fails { OnErr result (self.new.failed ≡ true) }
    {
        if self.failed {
            return Err(BuildFault::Failed);
        }
        self.failed = true;
        self.take(bytes)?;
        self.failed = false;
        Ok(())
    }

    /// Ends the bytes, and returns the output of the sink. U+FFFD replaces an unfinished character.
    ///
    /// The tree is what tree construction builds from the tokens of the text of all bytes. Fails with `Memory` if an allocation
    /// fails, and with `Failed` if the parser had failed before.
    pub fn finish(self) -> Result<<R::Sink as TreeSink>::Output, BuildFault>
        ensures parses { IfOk result (λ output. Parses R.Reads R.Sink.choices (text_of R.Reader self.parser) (view_of R.Reader self.parser) (self.parser.waiting ++ text_behind self.opts self.stage []) (R.Sink.told output)) }
        ensures failed { self.failed ≡ true → result ≡ Err BuildFault.Failed }
        ensures memory { self.failed ≡ false → self.parser.failed ≡ false → OnErr result (result ≡ Err BuildFault.Memory) }
    {
        let BytesParser {
            parser,
            opts,
            stage,
            failed,
            alloc,
        } = self;
        if failed {
            return Err(BuildFault::Failed);
        }
        match stage {
            Stage::Sniffing(first) => whole(alloc, parser, opts, first.as_slice()),
            Stage::Decoding(decoder, _source) => parser.one(decoder.finish()),
        }
    }

    /// Parses all bytes: `process`, then `finish`. From the text of a readable plain document it makes that document, as
    /// `Parser::process_pieces` does. Fails like `finish`.
    pub fn one(self, bytes: &[u8]) -> Result<<R::Sink as TreeSink>::Output, BuildFault>
        ensures parses { IfOk result (λ output. Parses R.Reads R.Sink.choices (text_of R.Reader self.parser) (view_of R.Reader self.parser) (self.parser.waiting ++ text_behind self.opts self.stage bytes.now) (R.Sink.told output)) }
        ensures plain { IfOk result (λ output. BringsBack R.first (text_of R.Reader self.parser) (view_of R.Reader self.parser) self.parser.waiting (text_behind self.opts self.stage bytes.now) (R.Sink.told output)) }
        ensures failed { self.failed ≡ true → result ≡ Err BuildFault.Failed }
        ensures memory { self.failed ≡ false → self.parser.failed ≡ false → OnErr result (result ≡ Err BuildFault.Memory) }
    {
        if self.failed {
            return Err(BuildFault::Failed);
        }
        let mut parser = self;
        parser.process(bytes)?;
        parser.finish()
    }
}
