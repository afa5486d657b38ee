//! The tokenizer that reports errors, without its sinks.

ghost use Rattle.std.specs.Prelude.{◌≡◌, length};
ghost use Rattle.h5_tokenizer_spec.specs.Telling.{at_first};
ghost use Rattle.h5_standard_tokenizer.specs.Mark.{behind_mark};
ghost use Rattle.h5_standard_tokenizer.specs.Outcome.{Feeds};
ghost use Rattle.h5_standard_tokenizer.specs.Telling.{FeedsTelling, spot_behind_mark};

use super::reader::{Reader, skip_mark};
use super::steps::Halt;
use super::telling_steps::read_telling;
use h5_token::{BuildFault, TokenSink};
use h5_tokenizer_input::{BufferQueue, Stage, TokenizerResult, result_of};
use h5_tokenizer_spec::{ErrorSink, Spot};
use std::alloc::Global;
use std::mem;

/// Reads the queue, and reports its errors.
pub fn read_with_errors<S: TokenSink, E: ErrorSink>(
    sink: &mut S,
    reader: &mut Reader,
    spot: &mut Spot,
    errors: &mut E,
    alloc: Global,
    input: &mut BufferQueue,
) -> Result<TokenizerResult<S::Handle>, BuildFault>
    ensures reads { Feeds S.reply_to S.after S.is_foreign S.node reader.old (S.meaning sink.old) input.old reader.new (S.meaning sink.new) input.new result }
    ensures tells { FeedsTelling S.reply_to S.after S.is_foreign E.Told
        (at_first reader.old.place (spot_behind_mark reader.old.at_start input.old spot.old) (S.meaning sink.old) (behind_mark reader.old.at_start input.old))
        errors.old S.node reader.new.place spot.new (S.meaning sink.new) input.new errors.new result }
{
    // In case the call fails.
    reader.stage = Stage::Failed;
    let mut buffer = mem::replace(input, BufferQueue::new(alloc));
    let text = buffer.as_str();
    let piece = skip_mark(&mut reader.at_start, text);
    let mark = text.len().saturating_sub(piece.len());
    spot.offset = spot.offset.saturating_add(mark as u64);
    match read_telling(sink, &mut reader.machine, spot, errors, alloc, piece)? {
        Halt::Done => {
            reader.stage = Stage::Reading;
            Ok(TokenizerResult::Done)
        }
        Halt::Stops(stop, rest) => {
            let left = rest.as_bytes().len();
            buffer.keep(left);
            *input = buffer;
            reader.stage = Stage::Reading;
            Ok(result_of(stop))
        }
    }
}
