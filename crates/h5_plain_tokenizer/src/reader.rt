//! The tokenizer without its sink.
ghost use Rattle.std.specs.Prelude.{◌≡◌, ◌++◌, [], true, false, length};
ghost use Rattle.h5_tokenizer_input.specs.Stops.{result_of};
ghost use Rattle.h5_plain_tokenizer.specs.Outcome.{Feeds};

use super::run::run_from;
use super::state::{Halt, Search, State};
use h5_token::{BuildFault, TokenSink};
use h5_tokenizer_input::{BufferQueue, Stage, TokenizerResult, result_of};
use std::alloc::Global;
use std::marker::Model;
use std::mem;

/// The tokenizer's state and undecided input, and whether it has ended or failed.
pub struct Reader {
    pub state: State,
    pub held: BufferQueue,
    // How far the end of the construct at the start of `held` was searched for.
    pub search: Option<Search>,
    pub stage: Stage,
}

impl Drop for Reader {
    fn drop(self) {
        let Reader {
            state: _state,
            held: _held,
            search: _search,
            stage: _stage,
        } = self;
    }
}

impl Model for Reader {
    ghost use Rattle.std.specs.String.{string_bytes};
    ghost use Rattle.h5_plain_tokenizer.specs.ReaderText.{ReaderText};
    ghost use Rattle.h5_plain_tokenizer.specs.Steps.{place_of, Pending};

    ghost Value = { ReaderText };

    ghost view = { λ r. record { place = place_of r.state; held = r.held; stage = r.stage } };

    ghost invariant = { λ r. Pending r.search r.state.mode r.state.last r.held };
}

impl Reader {
    pub fn stage(&self) -> Stage
        ensures { result ≡ self.now.stage }
    {
        self.stage
    }
}

/// Reads what is held and what is in the queue.
pub fn read<S: TokenSink>(
    sink: &mut S,
    reader: &mut Reader,
    alloc: Global,
    input: &mut BufferQueue,
) -> Result<TokenizerResult<S::Handle>, BuildFault>
    ensures { Feeds S.reply_to S.after S.is_foreign S.node reader.old.place (S.meaning sink.old) (reader.old.held ++ input.old)
        reader.new (S.meaning sink.new) input.new result }
{
    // In case the call fails.
    reader.stage = Stage::Failed;
    let search = reader.search.take();
    let mut buffer = mem::replace(&mut reader.held, BufferQueue::new(alloc));
    buffer.append(input)?;
    let text = buffer.as_str();
    match run_from(sink, &mut reader.state, alloc, text, search)? {
        Halt::Waits(rest, search) => {
            let left = rest.as_bytes().len();
            buffer.keep(left);
            reader.held = buffer;
            reader.search = search;
            reader.stage = Stage::Reading;
            Ok(TokenizerResult::Done)
        }
        Halt::Stops(stop, rest) => {
            let left = rest.as_bytes().len();
            buffer.keep(left);
            *input = buffer;
            reader.stage = Stage::Reading;
            Ok(result_of(stop))
        }
    }
}
