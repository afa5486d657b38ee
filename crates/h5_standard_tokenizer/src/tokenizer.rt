//! The tokenizer with its sink.

ghost use Rattle.std.specs.Prelude.{◌≡◌, Err};
ghost use Rattle.h5_tokenizer_spec.specs.End.{Closes};
ghost use Rattle.h5_tokenizer_spec.specs.ReferenceTable.{references};
ghost use Rattle.h5_standard_tokenizer.specs.Options.{first_place, text_of};
ghost use Rattle.h5_standard_tokenizer.specs.Outcome.{ClosedAs, Feeds};

use super::ending::close;
use super::reader::{Reader, read};
use h5_token::states::RawKind;
use h5_token::{BuildFault, TokenSink, states};
use h5_tokenizer_input::{BufferQueue, LastName, Stage, TokenizerOpts, TokenizerResult};
use h5_tokenizer_spec::TextKind;
use h5_tokenizer_states::Machine;
use std::alloc::Global;

/// The standard tokenizer. It reads all of HTML (HTML standard, section 13.2.5).
#[derive(Drop)]
pub struct Tokenizer<Sink: TokenSink> {
    pub sink: Sink,
    pub(crate) reader: Reader,
    alloc: Global,
}

fn text_of(state: Option<states::State>) -> TextKind
    ensures { result ≡ text_of state }
{
    match state {
        None => TextKind::Data,
        Some(states::State::Data) => TextKind::Data,
        Some(states::State::RawData(RawKind::Rcdata)) => TextKind::Rcdata,
        Some(states::State::RawData(RawKind::Rawtext)) => TextKind::Rawtext,
        Some(states::State::RawData(RawKind::ScriptData)) => TextKind::ScriptData,
        Some(states::State::Plaintext) => TextKind::Plaintext,
    }
}

impl<Sink: TokenSink> Tokenizer<Sink> {
    /// Returns a new tokenizer, in line 1. Allocates nothing.
    pub fn new(alloc: Global, sink: Sink, opts: TokenizerOpts) -> Tokenizer<Sink>
        ensures sink { result.sink ≡ sink }
        ensures reader { result.reader ≡ record { at_start = opts.discard_bom; place = first_place opts; stage = Stage.Reading } }
    {
        let TokenizerOpts {
            exact_errors: _,
            discard_bom,
            initial_state,
            last_start_tag_name,
        } = opts;
        let last = match last_start_tag_name {
            Some(name) => name,
            None => String::new(alloc),
        };
        Tokenizer {
            sink,
            reader: Reader {
                at_start: discard_bom,
                machine: Machine::new(alloc, text_of(initial_state), LastName::given(last)),
                stage: Stage::Reading,
            },
            alloc,
        }
    }

    /// Reads the queue, and passes everything that it emits to the sink, each token with the line in which it begins: 1 plus
    /// the newlines before its first character in all that was fed. CR LF, CR and LF are one newline each, and the count stops
    /// at the maximum of `u64`.
    ///
    /// If it returns `Done`, the queue is empty. `Script` or `EncodingIndicator` is the sink's reply to the last token; what
    /// follows that is in the queue. Fails with the sink's error, or with `Memory`, and after any error the tokenizer has
    /// failed. Fails with `Failed` if a call failed before, and with `AfterEnd` after `end`.
    pub fn feed(
        &mut self,
        input: &mut BufferQueue,
    ) -> Result<TokenizerResult<Sink::Handle>, BuildFault>
        // After an error, and after the end, nothing is passed and nothing changes.
        ensures failed { self.old.reader.stage ≡ Stage.Failed
            → (result ≡ Err BuildFault.Failed) × (self.new ≡ self.old) × (input.new ≡ input.old) }
        ensures after_end { self.old.reader.stage ≡ Stage.Ended
            → (result ≡ Err BuildFault.AfterEnd) × (self.new ≡ self.old) × (input.new ≡ input.old) }
        ensures read { self.old.reader.stage ≡ Stage.Reading
            → Feeds Sink.reply_to Sink.after Sink.is_foreign Sink.node self.old.reader (Sink.meaning self.old.sink) input.old
            self.new.reader (Sink.meaning self.new.sink) input.new result }
    {
        match self.reader.stage() {
            Stage::Failed => Err(BuildFault::Failed),
            Stage::Ended => Err(BuildFault::AfterEnd),
            Stage::Reading => read(&mut self.sink, &mut self.reader, self.alloc, input),
        }
    }

    /// Passes what the end of the input makes of what is being built to the sink, with the line in which that begins, then the
    /// end-of-file token, with the line after all that was fed, and calls the sink's `end`.
    ///
    /// An unfinished comment or doctype is emitted, and an unfinished tag is dropped. Fails like `feed`. After the end both
    /// calls fail with `AfterEnd`.
    pub fn end(&mut self) -> Result<(), BuildFault>
        ensures failed { self.old.reader.stage ≡ Stage.Failed → (result ≡ Err BuildFault.Failed) × (self.new ≡ self.old) }
        ensures after_end { self.old.reader.stage ≡ Stage.Ended → (result ≡ Err BuildFault.AfterEnd) × (self.new ≡ self.old) }
        ensures closed { self.old.reader.stage ≡ Stage.Reading
            → Closes Sink.reply_to Sink.after Sink.ended references self.old.reader.place (Sink.meaning self.old.sink) (Sink.meaning self.new.sink) result }
        ensures stage { self.old.reader.stage ≡ Stage.Reading → ClosedAs self.new.reader result }
    {
        match self.reader.stage() {
            Stage::Failed => Err(BuildFault::Failed),
            Stage::Ended => Err(BuildFault::AfterEnd),
            Stage::Reading => {
                self.reader.stage = Stage::Failed;
                close(&mut self.sink, &mut self.reader.machine, self.alloc)?;
                self.reader.stage = Stage::Ended;
                Ok(())
            }
        }
    }
}
