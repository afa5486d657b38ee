//! The tokenizer without its sink.

ghost use Rattle.std.specs.Prelude.{◌≡◌, [], ◌∷◌, true, false, length};
ghost use Rattle.h5_standard_tokenizer.specs.Mark.{behind_mark, still_at_start};
ghost use Rattle.h5_standard_tokenizer.specs.Outcome.{Feeds};

use super::steps::{Halt, read_piece};
use h5_markup::{Match, literal};
use h5_token::{BuildFault, TokenSink};
use h5_tokenizer_input::{BufferQueue, Stage, TokenizerResult, result_of};
use h5_tokenizer_states::Machine;
use std::alloc::Global;
use std::marker::Model;
use std::mem;

/// The tokenizer's state, and whether it has ended or failed. It buffers no input.
pub struct Reader {
    // True if a byte order mark may still come.
    pub at_start: bool,
    pub machine: Machine,
    pub stage: Stage,
}

impl Drop for Reader {
    fn drop(self) {
        let Reader {
            at_start: _at_start,
            machine: _machine,
            stage: _stage,
        } = self;
    }
}

impl Model for Reader {
    ghost use Rattle.h5_tokenizer_states.specs.MachineText.{place_of};
    ghost use Rattle.h5_standard_tokenizer.specs.ReaderText.{ReaderText};

    ghost Value = { ReaderText };

    ghost view = { λ r. record { at_start = r.at_start; place = place_of r.machine; stage = r.stage } };
}

impl Reader {
    pub fn stage(&self) -> Stage
        ensures { result ≡ self.now.stage }
    {
        self.stage
    }
}

/// Skips the byte order mark, if one is allowed and there.
pub fn skip_mark<'a>(at_start: &mut bool, text: &'a str) -> &'a str
    ensures rest { result.now ≡ behind_mark at_start.old text.entry.now }
    ensures at_start { at_start.new ≡ still_at_start at_start.old text.entry.now }
{
    if !*at_start {
        return text;
    }
    match literal(text, "\u{feff}") {
        Match::Open => text,
        Match::No => {
            *at_start = false;
            text
        }
        Match::Found(_, rest) => {
            *at_start = false;
            rest
        }
    }
}

/// Reads the queue.
pub fn read<S: TokenSink>(
    sink: &mut S,
    reader: &mut Reader,
    alloc: Global,
    input: &mut BufferQueue,
) -> Result<TokenizerResult<S::Handle>, BuildFault>
    ensures { Feeds S.reply_to S.after S.is_foreign S.node reader.old (S.meaning sink.old) input.old reader.new (S.meaning sink.new) input.new result }
{
    // In case the call fails.
    reader.stage = Stage::Failed;
    let mut buffer = mem::replace(input, BufferQueue::new(alloc));
    let piece = skip_mark(&mut reader.at_start, buffer.as_str());
    match read_piece(sink, &mut reader.machine, alloc, piece)? {
        Halt::Done => {
            reader.stage = Stage::Reading;
            Ok(TokenizerResult::Done)
        }
        Halt::Stops(stop, rest) => {
            let left = rest.as_bytes().len();
            buffer.keep(left);
            *input = buffer;
            reader.stage = Stage::Reading;
            Ok(result_of(stop))
        }
    }
}
