//! What a parser requires of a tokenizer.
ghost use Rattle.std.specs.Prelude.{◌≡◌, ◌≢◌, ◌<◌, ℕ, List, [], Ok, Err, OnErr, OnOk};
ghost use Rattle.h5_token.specs.TokenText.{TokenText};
ghost use Rattle.h5_tokenizer_input.specs.declared.options.TokenizerOpts.{TokenizerOpts};
ghost use Rattle.h5_tokenizer_input.specs.declared.stage.Stage.{Stage};
ghost use Rattle.h5_tokenizer_input.specs.declared.stage.Stage.TheVariants.{Reading};
ghost use Rattle.h5_builder_spec.specs.Run.{View};
ghost use Rattle.h5_tree_builder.specs.Builder.{Building};
ghost use Rattle.h5_round_trip.specs.Inside.{TextsStayRead};
ghost use Rattle.h5_driver.specs.Reading.{Advances, IsReadToEnd};
ghost use Rattle.h5_driver.specs.inner.Readings.{AreReadings};
ghost use Rattle.h5_driver.specs.inner.Working.{IsWorking};

use h5_interface::TreeSink;
use h5_token::BuildFault;
use h5_tokenizer_input::{BufferQueue, TokenizerResult};

/// A tokenizer over a tree builder over a sink, as a parser needs it.
///
/// It passes tokens to the builder as its input comes. Its readings are those of the trait: each implementor defines which
/// tokens it reads from an input. How the input is split doesn't matter for the builder's final meaning.
pub trait Reader {
    type Sink: TreeSink + Drop;

    // The tokenizer without its builder.
    ghost Text: { Type 0 };

    ghost text: { Self → Text };

    // The builder.
    ghost building: { Self → Building };

    // The tokenizer before it has read anything.
    ghost first: { TokenizerOpts → Text };

    // Its stage: it reads, or it has ended or failed.
    ghost stage: { Text → Stage };

    // It emits only texts, and then the end tag of the current raw element.
    ghost IsRaw: { Text → Type 0 };

    // It is in the data state, right after a tag, say: it holds no input, and a byte order mark would be text.
    ghost IsInData: { Text → Type 0 };

    // The input that it holds isn't decided yet.
    ghost IsUndecided: { Text → View → Type 0 };

    // These tokens are read from an input, up to a tokenizer, a view and the remaining input.
    ghost Readings: { Text → View → List ℕ → List TokenText → Text → View → List ℕ → Type 0 };

    // An input is read to its end by these tokens, and this is the builder's meaning afterwards.
    ghost Reads: { Text → View → List ℕ → List TokenText → View → Type 0 };

    // A number that each call decreases if it stops before the end of its input.
    ghost left: { Text → List ℕ → ℕ };

    /// Reads the queue. If it returns `Done`, the queue is empty. The tokenizer must not have ended or failed, and `IsWorking`
    /// must hold.
    fn feed(
        &mut self,
        input: &mut BufferQueue,
    ) -> Result<TokenizerResult<<Self::Sink as TreeSink>::Handle>, BuildFault>
        requires reading { stage (text self.old) ≡ Reading }
        requires works { IsWorking IsRaw (text self.old) (building self.old).view }
        ensures reading { OnOk result (stage (text self.new) ≡ Reading) }
        ensures works { OnOk result (IsWorking IsRaw (text self.new) (building self.new).view) }
        ensures advances { OnOk result (Advances Readings (text self.old) (building self.old).view input.old (text self.new) (building self.new).view input.new) }
        ensures done { result ≡ Ok TokenizerResult.Done → (input.new ≡ []) × IsUndecided (text self.new) (building self.new).view }
        ensures less { OnOk result (result ≢ Ok TokenizerResult.Done → left (text self.new) input.new < left (text self.old) input.old) }
        ensures memory { OnErr result (result ≡ Err BuildFault.Memory) };

    /// Passes what the end makes of the undecided input to the builder, and then the end-of-file token. The tokenizer must not
    /// have ended or failed, and `IsWorking` and `IsUndecided` must hold.
    fn end(&mut self) -> Result<(), BuildFault>
        requires reading { stage (text self.old) ≡ Reading }
        requires works { IsWorking IsRaw (text self.old) (building self.old).view }
        requires undecided { IsUndecided (text self.old) (building self.old).view }
        ensures ends { OnOk result (IsReadToEnd Reads (text self.old) (building self.old).view [] (building self.new).view) }
        ensures memory { OnErr result (result ≡ Err BuildFault.Memory) };

    /// Returns the sink.
    fn into_sink(self) -> Self::Sink
        ensures forest { (Self.Sink.sees result).forest ≡ (building self).view.world.forest }
        ensures quirks { (Self.Sink.sees result).quirks ≡ (building self).view.world.seen_quirks };

    /// Reports an error that was found elsewhere to the sink. Changes nothing else.
    fn report_error(&mut self, message: &str)
        ensures noted { 0 < (building self.new).errors }
        ensures view { (building self.new).view ≡ (building self.old).view }
        ensures text { text self.new ≡ text self.old };

    ghost lawful: { AreReadings Self.Sink.choices first Readings Reads };

    // The text of nodes that fit into an element of a page stays in it.
    ghost texts_stay: { TextsStayRead IsInData Readings };
}
