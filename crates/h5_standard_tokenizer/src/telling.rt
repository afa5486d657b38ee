//! The tokenizer that reports parse errors, with its token sink and its sink of errors.

ghost use Rattle.std.specs.Prelude.{◌≡◌, Err, true};
ghost use Rattle.h5_tokenizer_spec.specs.End.{Closes};
ghost use Rattle.h5_tokenizer_spec.specs.ReferenceTable.{references};
ghost use Rattle.h5_tokenizer_spec.specs.Spots.{position};
ghost use Rattle.h5_tokenizer_spec.specs.Telling.{at_first, told_at_end};
ghost use Rattle.h5_tokenizer_spec.specs.Told.{Tells};
ghost use Rattle.h5_standard_tokenizer.specs.Mark.{behind_mark};
ghost use Rattle.h5_standard_tokenizer.specs.Options.{first_place};
ghost use Rattle.h5_standard_tokenizer.specs.Outcome.{ClosedAs, Feeds};
ghost use Rattle.h5_standard_tokenizer.specs.Telling.{FeedsTelling, spot_behind_mark};

use super::ending::close;
use super::reader::Reader;
use super::telling_reader::read_with_errors;
use super::tokenizer::Tokenizer;
use h5_token::{BuildFault, TokenSink};
use h5_tokenizer_input::{BufferQueue, Stage, TokenizerOpts, TokenizerResult};
use h5_tokenizer_spec::{ErrorSink, Spot};
use std::alloc::Global;

/// The standard tokenizer, which also reports each parse error of tokenization and of the input stream, with its position (HTML
/// standard, section 13.2.2, "Parse errors"). It takes one byte after another.
#[derive(Drop)]
pub struct ReportingTokenizer<Sink: TokenSink, E: ErrorSink> {
    pub sink: Sink,
    pub errors: E,
    reader: Reader,
    spot: Spot,
    alloc: Global,
}

impl<Sink: TokenSink, E: ErrorSink> ReportingTokenizer<Sink, E> {
    /// Returns a new tokenizer, in line 1 and column 1. Allocates nothing.
    pub fn new(
        alloc: Global,
        sink: Sink,
        errors: E,
        opts: TokenizerOpts,
    ) -> ReportingTokenizer<Sink, E>
        ensures sink { result.sink ≡ sink }
        ensures errors { result.errors ≡ errors }
        ensures reader { result.reader ≡ record { at_start = opts.discard_bom; place = first_place opts; stage = Stage.Reading } }
        ensures spot { result.spot ≡ record { column = 1; offset = 0; is_new = true } }
    {
        let made = Tokenizer::new(alloc, sink, opts);
        ReportingTokenizer {
            sink: made.sink,
            errors,
            reader: made.reader,
            spot: Spot::first(),
            alloc,
        }
    }

    /// Reads the queue as `Tokenizer::feed` does, and reports the parse errors: at each byte, those of the input stream for a
    /// character that begins there, and then those of the state's row, in order. If the state has seen bytes ahead, the row's
    /// errors come first, and those that the standard reports while it looks ahead have their position before these bytes.
    ///
    /// A position has the line as tokens have it, the column in code points from 1, and the offset in bytes of all that was
    /// fed, including a byte order mark. If the call fails, the errors that it reported remain reported: with `Memory`, those up
    /// to some place in the input, and no others; with another error of the sink, those up to the token that it rejected.
    pub fn feed(
        &mut self,
        input: &mut BufferQueue,
    ) -> Result<TokenizerResult<Sink::Handle>, BuildFault>
        // After an error, and after the end, nothing is passed or reported, and nothing changes.
        ensures failed { self.old.reader.stage ≡ Stage.Failed
            → (result ≡ Err BuildFault.Failed) × (self.new ≡ self.old) × (input.new ≡ input.old) }
        ensures after_end { self.old.reader.stage ≡ Stage.Ended
            → (result ≡ Err BuildFault.AfterEnd) × (self.new ≡ self.old) × (input.new ≡ input.old) }
        ensures read { self.old.reader.stage ≡ Stage.Reading
            → Feeds Sink.reply_to Sink.after Sink.is_foreign Sink.node self.old.reader (Sink.meaning self.old.sink) input.old
            self.new.reader (Sink.meaning self.new.sink) input.new result }
        ensures tells { self.old.reader.stage ≡ Stage.Reading
            → FeedsTelling Sink.reply_to Sink.after Sink.is_foreign E.Told
            (at_first self.old.reader.place (spot_behind_mark self.old.reader.at_start input.old self.old.spot) (Sink.meaning self.old.sink) (behind_mark self.old.reader.at_start input.old))
            self.old.errors Sink.node self.new.reader.place self.new.spot (Sink.meaning self.new.sink) input.new self.new.errors result }
    {
        match self.reader.stage() {
            Stage::Failed => Err(BuildFault::Failed),
            Stage::Ended => Err(BuildFault::AfterEnd),
            Stage::Reading => read_with_errors(
                &mut self.sink,
                &mut self.reader,
                &mut self.spot,
                &mut self.errors,
                self.alloc,
                input,
            ),
        }
    }

    /// Reports the errors of the end, at the position after all that was fed, or before what was seen ahead, and then does what
    /// `Tokenizer::end` does.
    pub fn end(&mut self) -> Result<(), BuildFault>
        ensures failed { self.old.reader.stage ≡ Stage.Failed → (result ≡ Err BuildFault.Failed) × (self.new ≡ self.old) }
        ensures after_end { self.old.reader.stage ≡ Stage.Ended → (result ≡ Err BuildFault.AfterEnd) × (self.new ≡ self.old) }
        ensures closed { self.old.reader.stage ≡ Stage.Reading
            → Closes Sink.reply_to Sink.after Sink.ended references self.old.reader.place (Sink.meaning self.old.sink) (Sink.meaning self.new.sink) result }
        ensures tells { self.old.reader.stage ≡ Stage.Reading
            → Tells E.Told self.old.errors self.new.errors (told_at_end references self.old.reader.place (position self.old.reader.place.line self.old.spot)) }
        ensures stage { self.old.reader.stage ≡ Stage.Reading → ClosedAs self.new.reader result }
    {
        match self.reader.stage() {
            Stage::Failed => Err(BuildFault::Failed),
            Stage::Ended => Err(BuildFault::AfterEnd),
            Stage::Reading => {
                self.reader.stage = Stage::Failed;
                let at = self.spot.position(self.reader.machine.line());
                self.reader.machine.tell_errors_at_end(at, &mut self.errors);
                close(&mut self.sink, &mut self.reader.machine, self.alloc)?;
                self.reader.stage = Stage::Ended;
                Ok(())
            }
        }
    }
}
