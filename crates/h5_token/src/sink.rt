//! The trait of a token sink.
ghost use Rattle.std.specs.Prelude.{◌≡◌, ◌⊎◌, ℕ, Bool, Err};
ghost use Rattle.h5_token.specs.TokenText.{TokenText, token_text};
ghost use Rattle.h5_token.specs.Reply.{Reply, Answers};

use super::fault::BuildFault;
use super::states::RawKind;
use super::tokens::Token;

/// The reply of a token sink to the tokenizer.
#[derive(Debug, Drop)]
pub enum TokenSinkResult<Handle> {
    /// Continue.
    Continue,
    /// Run this script before the tokenizer continues.
    Script(Handle),
    /// Switch to the PLAINTEXT state.
    Plaintext,
    /// Switch to the RCDATA, RAWTEXT or script data state.
    RawData(RawKind),
    /// The document declares this encoding.
    EncodingIndicator(String),
}

/// A token sink, such as a tree builder.
///
/// The reply is a function of the sink's meaning before the call and of the token. The meaning after the call is a function of these and of
/// the line. If an allocation fails, nothing is promised about either.
pub trait TokenSink {
    type Handle: Drop;

    // Everything that the replies depend on.
    ghost Meaning: { Type 0 };

    ghost meaning: { Self → Meaning };

    // The node that a handle names.
    ghost node: { Self.Handle → ℕ };

    // The reply to a token, unless an allocation fails.
    ghost reply_to: { Meaning → TokenText → Reply };

    // The meaning after a token that was passed with this line, unless an allocation fails.
    ghost after: { Meaning → TokenText → ℕ → Meaning };

    // The meaning after the end.
    ghost ended: { Meaning → Meaning };

    // True if there is an adjusted current node, and it isn't in the HTML namespace.
    ghost is_foreign: { Meaning → Bool };

    /// Takes a token that began on this line. Fails with `BuildFault::Memory` if an allocation fails; any other error is the one that the
    /// meaning has for the token.
    fn process_token(
        &mut self,
        token: Token,
        line_number: u64,
    ) -> Result<TokenSinkResult<Self::Handle>, BuildFault>
        ensures answer { Answers node result (reply_to (meaning self.old) (token_text token)) }
        ensures after { (result ≡ Err BuildFault.Memory)
            ⊎ (meaning self.new ≡ after (meaning self.old) (token_text token) line_number) };

    /// Ends the tokens: no token follows.
    fn end(&mut self)
        ensures { meaning self.new ≡ ended (meaning self.old) };

    /// Returns true if there is an adjusted current node, and it isn't in the HTML namespace. If so, a tokenizer takes `<![CDATA[` for the
    /// start of a CDATA section (HTML standard, section 13.2.5.42, "Markup declaration open state").
    fn adjusted_current_node_present_but_not_in_html_namespace(&self) -> bool
        ensures { result ≡ is_foreign (meaning self.now) };
}
