//! Takes a list of tokens.
ghost use Rattle.std.specs.Prelude.{◌≡◌, true, false, IfOk, OnErr, Err, Result};
ghost use Rattle.h5_token.specs.TokenText.{token_text};
ghost use Rattle.h5_builder_spec.specs.inner.Kept.{Fits, HasLists};
ghost use Rattle.h5_builder_spec.specs.Sound.{Sound};
ghost use Rattle.h5_tree_builder.specs.Builder.{RanAll, RebuildsPlain, Replied};
ghost use Rattle.h5_tree_builder.specs.Held.{building};
ghost use Rattle.h5_tree_builder.specs.Replies.{reply_text, reply_texts, token_texts};

use super::builder::TreeBuilder;
use super::replies::Reply;
use h5_interface::TreeSink;
use h5_token::{BuildFault, Token};

impl<Handle: Drop, Sink: TreeSink<Handle = Handle> + Drop> TreeBuilder<Handle, Sink> {
    // The reply to a token; a refusal is also a reply.
    fn reply(&mut self, token: Token, line_number: u64) -> Result<Reply<Handle>, BuildFault>
        ensures done { IfOk result (λ r. Replied Sink.choices (token_text token) (building Sink.sees Sink.node self.old) (building Sink.sees Sink.node self.new) (reply_text Sink.node r)) }
        ensures memory { OnErr result (result ≡ Err BuildFault.Memory) }
        ensures failed { OnErr result (self.new.failed ≡ true) }
        ensures ended { self.new.ended ≡ self.old.ended }
        ensures sound { Sound (building Sink.sees Sink.node self.new).view.world }
        ensures lists { (building Sink.sees Sink.node self.new).view.failed ≡ false → HasLists (building Sink.sees Sink.node self.new).view.world }
        ensures fits { (building Sink.sees Sink.node self.new).view.failed ≡ false → (building Sink.sees Sink.node self.new).view.ended ≡ false → Fits (building Sink.sees Sink.node self.new).view.world }
    {
        match self.process_token(token, line_number) {
            Ok(answer) => Ok(Reply::Answer(answer)),
            Err(BuildFault::Memory) => Err(BuildFault::Memory),
            Err(fault) => Ok(Reply::Refused(fault)),
        }
    }

    /// Takes a list of tokens, each with the line in which it began, and returns one reply for each: an answer, or the
    /// refusal of a token after the end, or of one that doesn't come in a text. Fails with `Failed` if an allocation
    /// failed before; then nothing changes. Fails with `Memory` if an allocation fails; the builder has then failed.
    ///
    /// How a run of text is split into tokens doesn't matter: forest, quirks mode and the replies to all tokens that
    /// aren't texts are the same, and each text of the run has the run's reply.
    ///
    /// A new builder with the default options, with or without scripting, over a sink with its document alone, builds a
    /// plain document (`h5_builder_laws`) exactly from its tokens, in no-quirks mode. The reply to the start tag of the title is
    /// `RawData`, all others are `Continue`. No parse error is reported if no whitespace text is in a table.
    pub fn process_all(
        &mut self,
        tokens: Vec<(Token, u64)>,
    ) -> Result<Vec<Reply<Handle>>, BuildFault>
        ensures run { IfOk result (λ rs. RanAll Sink.choices (token_texts tokens.items) (building Sink.sees Sink.node self.old) (building Sink.sees Sink.node self.new) (reply_texts Sink.node rs.items)) }
        ensures rebuilds { IfOk result (λ rs. RebuildsPlain (token_texts tokens.items) (building Sink.sees Sink.node self.old) (building Sink.sees Sink.node self.new) (reply_texts Sink.node rs.items)) }
        ensures refused { (building Sink.sees Sink.node self.old).view.failed ≡ true → (result ≡ Err BuildFault.Failed) × (self.new ≡ self.old) }
        ensures failed { OnErr result ((building Sink.sees Sink.node self.new).view.failed ≡ true) }
        ensures memory { (building Sink.sees Sink.node self.old).view.failed ≡ false → OnErr result (result ≡ Err BuildFault.Memory) }
        ensures ended { self.new.ended ≡ self.old.ended }
        ensures sound { Sound (building Sink.sees Sink.node self.new).view.world }
        ensures lists { (building Sink.sees Sink.node self.new).view.failed ≡ false → HasLists (building Sink.sees Sink.node self.new).view.world }
        ensures fits { (building Sink.sees Sink.node self.new).view.failed ≡ false → (building Sink.sees Sink.node self.new).view.ended ≡ false → Fits (building Sink.sees Sink.node self.new).view.world }
    {
        if self.has_failed() {
            return Err(BuildFault::Failed);
        }
        let mut replies = match Vec::with_capacity(self.alloc(), tokens.len()) {
            Ok(replies) => replies,
            Err(_) => return Err(self.fail()),
        };
        'tokens: for (token, line_number) in tokens {
            let reply = self.reply(token, line_number)?;
            if replies.push(reply).is_err() {
                return Err(self.fail());
            }
        }
        Ok(replies)
    }
}
