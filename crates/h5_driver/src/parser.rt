//! The parser.
ghost use Rattle.std.specs.Prelude.{◌≡◌, ◌++◌, ◌<◌, [], map, string_bytes, true, false, Ok, Err, IfOk, OnErr, OnOk};
ghost use Rattle.h5_tokenizer_input.specs.declared.stage.Stage.TheVariants.{Reading};
ghost use Rattle.h5_driver.specs.Parsing.{IsParsing, Processed, joined, text_of, view_of};
ghost use Rattle.h5_driver.specs.PlainDocuments.{BringsBack};
ghost use Rattle.h5_driver.specs.Reading.{Advances, IsReadToEnd, Parses};
ghost use Rattle.h5_driver.specs.inner.Working.{IsWorking};

use super::bytes::{Utf8Parser, bytes_over};
use super::reader::Reader;
use h5_interface::TreeSink;
use h5_token::BuildFault;
use h5_tokenizer_input::{BufferQueue, TokenizerResult, part_size};
use std::alloc::Global;
use std::marker::Model;

// Feeds the tokenizer until the queue is empty, whatever else it returns.
fn feed_all<R: Reader>(tokenizer: &mut R, queue: &mut BufferQueue) -> Result<(), BuildFault>
    requires reading { R.stage (R.text tokenizer.old) ≡ Reading }
    requires works { IsWorking R.IsRaw (R.text tokenizer.old) (R.building tokenizer.old).view }
    ensures advances { OnOk result (Advances R.Readings (R.text tokenizer.old) (R.building tokenizer.old).view queue.old (R.text tokenizer.new) (R.building tokenizer.new).view []) }
    ensures undecided { OnOk result (R.IsUndecided (R.text tokenizer.new) (R.building tokenizer.new).view) }
    ensures none_waits { OnOk result (queue.new ≡ []) }
    ensures reading { OnOk result (R.stage (R.text tokenizer.new) ≡ Reading) }
    ensures works { OnOk result (IsWorking R.IsRaw (R.text tokenizer.new) (R.building tokenizer.new).view) }
    ensures memory { OnErr result (result ≡ Err BuildFault.Memory) }
{
    'pieces: loop {
        match tokenizer.feed(queue)? {
            TokenizerResult::Done => return Ok(()),
            TokenizerResult::Script(_script) => {}
            TokenizerResult::EncodingIndicator(_encoding) => {}
        }
    }
}

/// A parser of a document: a tokenizer over the tree builder over a sink.
///
/// It takes text in chunks, and how a text is split doesn't matter. Contracts see it as its tokenizer, the waiting text, and
/// whether it has failed. It has failed after a failed allocation, and then every call that returns a result fails with
/// `Failed`.
#[derive(Drop)]
pub struct Parser<R: Reader + Drop> {
    /// The tokenizer, over the builder.
    pub tokenizer: R,
    /// The waiting text.
    pub input_buffer: BufferQueue,
    failed: bool,
    alloc: Global,
}

impl<R: Reader + Drop> Model for Parser<R> {
    ghost use Rattle.std.specs.Coded.{codes};
    ghost use Rattle.h5_driver.specs.Parsing.{IsParsing, Parsing};

    ghost Value = { Parsing R };

    ghost coded = { Prim.hlevel (codes, R.code) };

    ghost view = { λ p. record { tokenizer = p.tokenizer; waiting = p.input_buffer; failed = p.failed } };

    ghost invariant = { λ p. IsParsing R.Reader (record { tokenizer = p.tokenizer; waiting = p.input_buffer; failed = p.failed }) };
}

// Returns a parser over a tokenizer whose builder works.
pub(super) fn parser_over<R: Reader + Drop>(alloc: Global, tokenizer: R) -> Parser<R>
    requires reading { R.stage (R.text tokenizer) ≡ Reading }
    requires works { IsWorking R.IsRaw (R.text tokenizer) (R.building tokenizer).view }
    ensures reader { result.tokenizer ≡ tokenizer }
    ensures waiting { result.waiting ≡ [] }
    ensures failed { result.failed ≡ false }
{
    Parser {
        tokenizer,
        input_buffer: BufferQueue::new(alloc),
        failed: false,
        alloc,
    }
}

impl<R: Reader + Drop> Parser<R> {
    /// Parses the next chunk of the text, as far as it is decided, whatever else the tokenizer returns.
    ///
    /// Fails with `Memory` if an allocation fails; the parser has then failed. Fails with `Failed`, and changes nothing, if the
    /// parser had failed before.
    pub fn process(&mut self, text: &str) -> Result<(), BuildFault>
        ensures takes { OnOk result (Processed R.Reader text.now self.old self.new) }
        ensures works { OnOk result (self.new.failed ≡ false) }
        ensures failed { self.old.failed ≡ true → (result ≡ Err BuildFault.Failed) × (self.new ≡ self.old) }
        ensures memory { self.old.failed ≡ false → OnErr result (result ≡ Err BuildFault.Memory) }
        ensures fails { OnErr result (self.new.failed ≡ true) }
    {
        if self.failed {
            return Err(BuildFault::Failed);
        }
        self.failed = true;
        let piece = String::from_str(self.alloc, text)?;
        self.failed = false;
        self.process_owned(piece)
    }

    /// Parses the next chunk of the text as `process` does, but doesn't copy it if no text waits.
    ///
    /// Fails with `Memory` if an allocation fails; the parser has then failed. Fails with `Failed`, and changes nothing, if the
    /// parser had failed before.
    pub fn process_owned(&mut self, text: String) -> Result<(), BuildFault>
        ensures takes { OnOk result (Processed R.Reader (string_bytes text) self.old self.new) }
        ensures works { OnOk result (self.new.failed ≡ false) }
        ensures failed { self.old.failed ≡ true → (result ≡ Err BuildFault.Failed) × (self.new ≡ self.old) }
        ensures memory { self.old.failed ≡ false → OnErr result (result ≡ Err BuildFault.Memory) }
        ensures fails { OnErr result (self.new.failed ≡ true) }
    {
        if self.failed {
            return Err(BuildFault::Failed);
        }
        self.failed = true;
        self.input_buffer.push_back(text)?;
        feed_all(&mut self.tokenizer, &mut self.input_buffer)?;
        self.failed = false;
        Ok(())
    }

    /// Ends the text, and returns the output of the sink.
    ///
    /// The tree is what tree construction builds from the tokens of the whole text. Fails with `Memory` if an allocation fails,
    /// and with `Failed` if the parser had failed before.
    pub fn finish(self) -> Result<<R::Sink as TreeSink>::Output, BuildFault>
        ensures parses { IfOk result (λ output. Parses R.Reads R.Sink.choices (text_of R.Reader self) (view_of R.Reader self) self.waiting (R.Sink.told output)) }
        ensures failed { self.failed ≡ true → result ≡ Err BuildFault.Failed }
        ensures memory { self.failed ≡ false → OnErr result (result ≡ Err BuildFault.Memory) }
    {
        let Parser {
            tokenizer,
            input_buffer,
            failed,
            alloc: _,
        } = self;
        if failed {
            return Err(BuildFault::Failed);
        }
        let mut tokenizer = tokenizer;
        let mut queue = input_buffer;
        feed_all(&mut tokenizer, &mut queue)?;
        tokenizer.end()?;
        Ok(tokenizer.into_sink().finish())
    }

    // Parses chunks, one after another.
    fn process_each(&mut self, pieces: &[String]) -> Result<(), BuildFault>
        ensures takes { OnOk result (Advances R.Readings (text_of R.Reader self.old) (view_of R.Reader self.old) (self.old.waiting ++ joined (map string_bytes pieces.now))
            (text_of R.Reader self.new) (view_of R.Reader self.new) self.new.waiting) }
        ensures works { OnOk result (self.new.failed ≡ self.old.failed) }
        ensures memory { self.old.failed ≡ false → OnErr result (result ≡ Err BuildFault.Memory) }
        ensures failed { self.old.failed ≡ true → OnErr result (result ≡ Err BuildFault.Failed) }
    {
        let mut left = pieces;
        'pieces: while let Some((piece, rest)) = left.split_first() {
            self.process(piece.as_str())?;
            left = rest;
        }
        Ok(())
    }

    /// Parses a text given in chunks: `process` for each, then `finish`.
    ///
    /// The result depends only on the joined text: its forest and quirks mode are those of the run of any list of tokens that
    /// reads it. Fails with `Memory` if an allocation fails, and with `Failed` if the parser had failed before.
    ///
    /// From the text of a readable plain document a new parser of documents with default options, over a sink that holds only
    /// its document, makes that document, in no-quirks mode. A plain document is readable if its texts and values contain
    /// neither NUL nor CR, and the names of its attributes are read as they are written.
    pub fn process_pieces(
        self,
        pieces: &[String],
    ) -> Result<<R::Sink as TreeSink>::Output, BuildFault>
        ensures parses { IfOk result (λ output. Parses R.Reads R.Sink.choices (text_of R.Reader self) (view_of R.Reader self) (self.waiting ++ joined (map string_bytes pieces.now)) (R.Sink.told output)) }
        ensures plain { IfOk result (λ output. BringsBack R.first (text_of R.Reader self) (view_of R.Reader self) self.waiting (joined (map string_bytes pieces.now)) (R.Sink.told output)) }
        ensures failed { self.failed ≡ true → result ≡ Err BuildFault.Failed }
        ensures memory { self.failed ≡ false → OnErr result (result ≡ Err BuildFault.Memory) }
    {
        if self.failed {
            return Err(BuildFault::Failed);
        }
        let mut parser = self;
        parser.process_each(pieces)?;
        parser.finish()
    }

    // Parses a text in parts, each of which is copied.
    fn process_parts(&mut self, text: &str) -> Result<(), BuildFault>
        ensures takes { OnOk result (Advances R.Readings (text_of R.Reader self.old) (view_of R.Reader self.old) (self.old.waiting ++ text.now)
            (text_of R.Reader self.new) (view_of R.Reader self.new) self.new.waiting) }
        ensures works { OnOk result (self.new.failed ≡ self.old.failed) }
        ensures memory { self.old.failed ≡ false → OnErr result (result ≡ Err BuildFault.Memory) }
        ensures failed { self.old.failed ≡ true → OnErr result (result ≡ Err BuildFault.Failed) }
    {
        let size = part_size(text.len());
        let mut left = text;
        'parts: while !left.is_empty() {
            let (part, rest) = left.split_at(left.ceil_char_boundary(size));
            self.process(part)?;
            left = rest;
        }
        Ok(())
    }

    /// Parses a whole text: `process` for parts of it, then `finish`. The parts are copied, one at a time. From the text of a
    /// readable plain document it makes that document, as `process_pieces` does. Fails like `finish`.
    pub fn one(self, text: &str) -> Result<<R::Sink as TreeSink>::Output, BuildFault>
        ensures parses { IfOk result (λ output. Parses R.Reads R.Sink.choices (text_of R.Reader self) (view_of R.Reader self) (self.waiting ++ text.now) (R.Sink.told output)) }
        ensures plain { IfOk result (λ output. BringsBack R.first (text_of R.Reader self) (view_of R.Reader self) self.waiting text.now (R.Sink.told output)) }
        ensures failed { self.failed ≡ true → result ≡ Err BuildFault.Failed }
        ensures memory { self.failed ≡ false → OnErr result (result ≡ Err BuildFault.Memory) }
    {
        if self.failed {
            return Err(BuildFault::Failed);
        }
        let mut parser = self;
        parser.process_parts(text)?;
        parser.finish()
    }

    /// Parses a whole text: `process_owned`, then `finish`. The text isn't copied if no text waits. From the text of a readable
    /// plain document it makes that document, as `process_pieces` does. Fails like `finish`.
    pub fn one_owned(self, text: String) -> Result<<R::Sink as TreeSink>::Output, BuildFault>
        ensures parses { IfOk result (λ output. Parses R.Reads R.Sink.choices (text_of R.Reader self) (view_of R.Reader self) (self.waiting ++ string_bytes text) (R.Sink.told output)) }
        ensures plain { IfOk result (λ output. BringsBack R.first (text_of R.Reader self) (view_of R.Reader self) self.waiting (string_bytes text) (R.Sink.told output)) }
        ensures failed { self.failed ≡ true → result ≡ Err BuildFault.Failed }
        ensures memory { self.failed ≡ false → OnErr result (result ≡ Err BuildFault.Memory) }
    {
        if self.failed {
            return Err(BuildFault::Failed);
        }
        let mut parser = self;
        parser.process_owned(text)?;
        parser.finish()
    }

    /// Returns a parser of UTF-8 that continues from this parser's state. Allocates nothing.
    pub fn from_utf8(self) -> Utf8Parser<R>
        ensures parser { result.parser ≡ self }
        ensures unfinished { result.unfinished ≡ [] }
    {
        bytes_over(self.alloc, self)
    }

    // For proofs: the invariant of this parser.
    pub(super) fn stands(&self)
        ensures { IsParsing R.Reader self.now }
    {
        let _reader = &self.tokenizer;
    }

    // Returns true if the parser has failed.
    pub(super) fn has_failed(&self) -> bool
        ensures { result ≡ self.now.failed }
    {
        self.failed
    }

    // Marks the parser as failed.
    pub(super) fn fail(&mut self)
        ensures { self.new.failed ≡ true }
    {
        self.failed = true;
    }

    /// Reports an error that was found elsewhere to the sink. Changes nothing else.
    pub fn error(&mut self, message: &str)
        ensures noted { 0 < (R.building self.new.tokenizer).errors }
        ensures view { view_of R.Reader self.new ≡ view_of R.Reader self.old }
        ensures reader { text_of R.Reader self.new ≡ text_of R.Reader self.old }
        ensures waiting { self.new.waiting ≡ self.old.waiting }
        ensures failed { self.new.failed ≡ self.old.failed }
    {
        self.tokenizer.report_error(message);
    }
}
