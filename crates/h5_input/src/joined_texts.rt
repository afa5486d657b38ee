//! Joins adjacent texts, wherever chunks of the input end.
ghost use Rattle.std.specs.Prelude.{◌≡◌, ◌≢◌, ◌⊎◌, IfErr, OnOk, Err, false, string_bytes, []};
ghost use Rattle.html_tree_builder.specs.Reply.{Answers, Refuses};
ghost use Rattle.html_tree_builder.specs.Answers.{refuses};
ghost use Rattle.h5_input.specs.Joined.{after_text, holding, passed_below, reply_behind, reply_to_text};
ghost use Rattle.html_tree_builder.specs.TokenText.{token_text};

use html_tree_builder::token::{BuildFault, Token, TokenSink, TokenSinkResult};
use std::alloc::{AllocError, Global};
use std::mem;

/// Passes tokens on, but joins adjacent texts: a text is passed on before the next token of another kind. So what the sink below reports for a
/// text doesn't depend on how the input arrives.
///
/// A question about the adjusted current node is passed on at once, since a text doesn't change whether that node is in HTML.
#[derive(Drop)]
pub struct JoinedTexts<S: TokenSink> {
    pub sink: S,
    held: String,
    line: u64,
    alloc: Global,
}

impl<S: TokenSink> JoinedTexts<S> {
    ghost use Rattle.h5_input.specs.Joined.{Joined};

    /// Nothing is held yet.
    pub fn new(alloc: Global, sink: S) -> JoinedTexts<S> {
        JoinedTexts {
            sink,
            held: String::new(alloc),
            line: 0,
            alloc,
        }
    }

    // Holds a text, after what is held.
    fn hold(&mut self, text: &str, line: u64) -> Result<(), AllocError>
        ensures sink { self.new.sink ≡ self.old.sink }
        ensures held { OnOk result (holding text.now line
            (record { below = S.meaning self.old.sink; held = string_bytes self.old.held; line = self.old.line })
            ≡ record { below = S.meaning self.new.sink; held = string_bytes self.new.held; line = self.new.line }) }
    {
        if self.held.is_empty() {
            self.line = line;
        }
        self.held.push_str(text)
    }

    // Passes the held text on.
    fn pass_text(&mut self) -> Result<(), BuildFault>
        ensures none { string_bytes self.new.held ≡ [] }
        ensures line { self.new.line ≡ self.old.line }
        ensures ok { OnOk result (refuses (reply_to_text S.reply_to (string_bytes self.old.held) (S.meaning self.old.sink)) ≡ false) }
        ensures err { IfErr result (λ fault. fault ≢ BuildFault.Memory → reply_to_text S.reply_to (string_bytes self.old.held) (S.meaning self.old.sink) ≡ Refuses fault) }
        ensures after { (result ≡ Err BuildFault.Memory) ⊎
            (S.meaning self.new.sink ≡ after_text S.after (string_bytes self.old.held) self.old.line (S.meaning self.old.sink)) }
    {
        if self.held.is_empty() {
            return Ok(());
        }
        let text = mem::replace(&mut self.held, String::new(self.alloc));
        match self
            .sink
            .process_token(Token::CharacterTokens(text), self.line)
        {
            Ok(_answer) => Ok(()),
            Err(fault) => Err(fault),
        }
    }

    // Passes the held text and then a token on.
    fn pass_token(
        &mut self,
        token: Token,
        line: u64,
    ) -> Result<TokenSinkResult<S::Handle>, BuildFault>
        ensures answer { Answers S.node result (reply_behind S.reply_to S.after (reply_to_text S.reply_to (string_bytes self.old.held) (S.meaning self.old.sink))
            (record { below = S.meaning self.old.sink; held = string_bytes self.old.held; line = self.old.line }) (token_text token)) }
        ensures after { (result ≡ Err BuildFault.Memory) ⊎ (S.meaning self.new.sink ≡ passed_below S.reply_to S.after (refuses (reply_to_text S.reply_to (string_bytes self.old.held) (S.meaning self.old.sink)))
            (token_text token) line (after_text S.after (string_bytes self.old.held) self.old.line (S.meaning self.old.sink))) }
        ensures none { string_bytes self.new.held ≡ [] }
        ensures line { self.new.line ≡ self.old.line }
    {
        match self.pass_text() {
            Ok(()) => self.sink.process_token(token, line),
            Err(fault) => Err(fault),
        }
    }
}

impl<S: TokenSink> TokenSink for JoinedTexts<S> {
    ghost use Rattle.h5_input.specs.Joined.{Joined, after_joined, reply_joined};

    type Handle = S::Handle;

    ghost Meaning = { Joined S.Meaning };

    ghost meaning = { λ joined. record { below = S.meaning joined.sink; held = string_bytes joined.held; line = joined.line } };

    ghost node = { S.node };

    ghost reply_to = { reply_joined S.reply_to S.after };

    ghost after = { after_joined S.reply_to S.after };

    ghost ended = { λ joined. record joined { below = S.ended joined.below } };

    ghost is_foreign = { λ joined. S.is_foreign joined.below };

    fn process_token(
        &mut self,
        token: Token,
        line_number: u64,
    ) -> Result<TokenSinkResult<S::Handle>, BuildFault> {
        match &token {
            Token::CharacterTokens(text) => match self.hold(text.as_str(), line_number) {
                Ok(()) => Ok(TokenSinkResult::Continue),
                Err(_) => Err(BuildFault::Memory),
            },
            _ => self.pass_token(token, line_number),
        }
    }

    fn end(&mut self) {
        self.sink.end();
    }

    fn adjusted_current_node_present_but_not_in_html_namespace(&self) -> bool {
        self.sink
            .adjusted_current_node_present_but_not_in_html_namespace()
    }
}
