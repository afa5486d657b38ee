//! A token sink that rejects tokens after the end, and one that counts tokens and passes them to another sink.
use h5_token::{BuildFault, Token, TokenSink, TokenSinkResult};

/// Accepts tokens up to the end, and rejects them after it.
#[derive(Drop)]
pub struct Closing {
    ended: bool,
}

impl Closing {
    /// A sink that has not ended.
    pub fn new() -> Closing {
        Closing { ended: false }
    }
}

impl TokenSink for Closing {
    ghost use Rattle.std.specs.Prelude.{Bool, true, false, if◌then◌else◌};
    ghost use Rattle.h5_token.specs.Reply.{Continues, Refuses};
    ghost use Rattle.h5_token.specs.declared.fault.BuildFault.TheVariants.{AfterEnd};

    type Handle = ();

    ghost Meaning = { Bool };

    ghost meaning = { λ sink. sink.ended };

    ghost node = { λ _. 0 };

    ghost reply_to = { λ ended token. if ended then Refuses AfterEnd else Continues };

    ghost after = { λ ended token line. ended };

    ghost ended = { λ _. true };

    ghost is_foreign = { λ _. false };

    fn process_token(
        &mut self,
        _token: Token,
        _line_number: u64,
    ) -> Result<TokenSinkResult<()>, BuildFault> {
        if self.ended {
            Err(BuildFault::AfterEnd)
        } else {
            Ok(TokenSinkResult::Continue)
        }
    }

    fn end(&mut self) {
        self.ended = true;
    }

    fn adjusted_current_node_present_but_not_in_html_namespace(&self) -> bool {
        false
    }
}

/// Counts tokens, and passes them to another sink.
#[derive(Drop)]
pub struct Counting<S: TokenSink> {
    inner: S,
    taken: u64,
}

impl<S: TokenSink> Counting<S> {
    /// Counts the tokens of this sink.
    pub fn new(inner: S) -> Counting<S> {
        Counting { inner, taken: 0 }
    }

    /// The number of tokens so far.
    pub fn taken(&self) -> u64 {
        self.taken
    }
}

impl<S: TokenSink> TokenSink for Counting<S> {
    type Handle = S::Handle;

    ghost Meaning = { S.Meaning };

    ghost meaning = { λ sink. S.meaning sink.inner };

    ghost node = { S.node };

    ghost reply_to = { S.reply_to };

    ghost after = { S.after };

    ghost ended = { S.ended };

    ghost is_foreign = { S.is_foreign };

    fn process_token(
        &mut self,
        token: Token,
        line_number: u64,
    ) -> Result<TokenSinkResult<S::Handle>, BuildFault> {
        self.taken = self.taken.saturating_add(1);
        self.inner.process_token(token, line_number)
    }

    fn end(&mut self) {
        self.inner.end();
    }

    fn adjusted_current_node_present_but_not_in_html_namespace(&self) -> bool {
        self.inner
            .adjusted_current_node_present_but_not_in_html_namespace()
    }
}
