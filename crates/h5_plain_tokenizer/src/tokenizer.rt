//! The tokenizer with its sink.
ghost use Rattle.std.specs.Prelude.{◌≡◌, ◌++◌, [], Err, OnErr};
ghost use Rattle.h5_plain_tokenizer.specs.End.{Closes, ClosedAs};
ghost use Rattle.h5_plain_tokenizer.specs.Outcome.{Feeds};
ghost use Rattle.h5_plain_tokenizer.specs.Options.{first_place, mode_of};

use super::ending::close;
use super::front::Mode;
use super::reader::{Reader, read};
use super::state::State;
use h5_markup::SharedNames;
use h5_token::{BuildFault, TokenSink, states};
use h5_tokenizer_input::{BufferQueue, LastName, Stage, TokenizerOpts, TokenizerResult};
use std::alloc::Global;

/// The plain tokenizer. It reads newlines, the byte order mark, comments, doctypes, CDATA sections, tags with attributes, five
/// character references and the text of raw elements, and leaves out the rest of the standard's tokenizer (HTML standard,
/// section 13.2.5).
#[derive(Drop)]
pub struct Tokenizer<Sink: TokenSink> {
    pub sink: Sink,
    reader: Reader,
    alloc: Global,
}

fn mode_of(state: Option<states::State>) -> Mode
    ensures { result ≡ mode_of state }
{
    match state {
        None => Mode::Data,
        Some(states::State::Data) => Mode::Data,
        Some(states::State::RawData(kind)) => Mode::RawData(kind),
        Some(states::State::Plaintext) => Mode::Plaintext,
    }
}

impl<Sink: TokenSink> Tokenizer<Sink> {
    /// Returns a new tokenizer, in line 1. Allocates nothing.
    pub fn new(alloc: Global, sink: Sink, opts: TokenizerOpts) -> Tokenizer<Sink>
        ensures sink { result.sink ≡ sink }
        ensures reader { result.reader ≡ record { place = first_place opts; held = []; stage = Stage.Reading } }
    {
        let TokenizerOpts {
            exact_errors: _,
            discard_bom,
            initial_state,
            last_start_tag_name,
        } = opts;
        let last = match last_start_tag_name {
            Some(name) => name,
            None => String::new(alloc),
        };
        Tokenizer {
            sink,
            reader: Reader {
                state: State {
                    at_start: discard_bom,
                    mode: mode_of(initial_state),
                    last: LastName::given(last),
                    line: 1,
                    names: SharedNames::new(alloc),
                },
                held: BufferQueue::new(alloc),
                search: None,
                stage: Stage::Reading,
            },
            alloc,
        }
    }

    /// Reads the queue, and passes each decided token to the sink, with the line in which it begins: 1 plus the newlines before
    /// its first character in all that was fed. CR LF, CR and LF are one newline each, and the count stops at the maximum of
    /// `u64`.
    ///
    /// If it returns `Done`, the queue is empty, and all was passed except an undecided suffix: a CR at the end, or input on
    /// which no step is right for every input that may follow. `Script` or `EncodingIndicator` is the sink's reply to the last
    /// token; what follows that is in the queue. Fails with the sink's error, or with `Memory`, and after any error the
    /// tokenizer has failed. Fails with `Failed` if a call failed before, and with `AfterEnd` after `end`.
    pub fn feed(
        &mut self,
        input: &mut BufferQueue,
    ) -> Result<TokenizerResult<Sink::Handle>, BuildFault>
        // After an error, and after the end, nothing is passed and nothing changes.
        ensures failed { self.old.reader.stage ≡ Stage.Failed
            → (result ≡ Err BuildFault.Failed) × (self.new ≡ self.old) × (input.new ≡ input.old) }
        ensures after_end { self.old.reader.stage ≡ Stage.Ended
            → (result ≡ Err BuildFault.AfterEnd) × (self.new ≡ self.old) × (input.new ≡ input.old) }
        ensures read { self.old.reader.stage ≡ Stage.Reading
            → Feeds Sink.reply_to Sink.after Sink.is_foreign Sink.node self.old.reader.place (Sink.meaning self.old.sink)
            (self.old.reader.held ++ input.old) self.new.reader (Sink.meaning self.new.sink) input.new result }
    {
        match self.reader.stage() {
            Stage::Failed => Err(BuildFault::Failed),
            Stage::Ended => Err(BuildFault::AfterEnd),
            Stage::Reading => read(&mut self.sink, &mut self.reader, self.alloc, input),
        }
    }

    /// Passes what the end of the input makes of the undecided suffix to the sink, with the line in which that begins, then the
    /// end-of-file token, with the line after all that was fed, and calls the sink's `end`.
    ///
    /// An unfinished comment is emitted, an unfinished tag or doctype is dropped, and any other suffix is text. Fails like
    /// `feed`. After the end both calls fail with `AfterEnd`.
    pub fn end(&mut self) -> Result<(), BuildFault>
        ensures failed { self.old.reader.stage ≡ Stage.Failed → (result ≡ Err BuildFault.Failed) × (self.new ≡ self.old) }
        ensures after_end { self.old.reader.stage ≡ Stage.Ended → (result ≡ Err BuildFault.AfterEnd) × (self.new ≡ self.old) }
        ensures closed { self.old.reader.stage ≡ Stage.Reading
            → Closes Sink.reply_to Sink.after Sink.is_foreign Sink.ended self.old.reader.place (Sink.meaning self.old.sink)
            self.old.reader.held (Sink.meaning self.new.sink) result }
        ensures stage { self.old.reader.stage ≡ Stage.Reading → ClosedAs self.new.reader result }
    {
        match self.reader.stage() {
            Stage::Failed => Err(BuildFault::Failed),
            Stage::Ended => Err(BuildFault::AfterEnd),
            Stage::Reading => {
                self.reader.stage = Stage::Failed;
                close(
                    &mut self.sink,
                    &self.reader.state,
                    self.alloc,
                    self.reader.held.as_str(),
                )?;
                self.reader.stage = Stage::Ended;
                Ok(())
            }
        }
    }
}
