//! Calls of a token sink.
ghost use Rattle.h5_token.specs.TokenText.{token_text};
ghost use Rattle.h5_tokenizer_input.specs.Taking.{Asks, Takes, Finishes};

use h5_token::{BuildFault, Token, TokenSink, TokenSinkResult};

/// Passes a token to the sink, with its line.
#[inline(always)]
pub fn ask<S: TokenSink>(
    sink: &mut S,
    token: Token,
    line: u64,
) -> Result<TokenSinkResult<S::Handle>, BuildFault>
    ensures { Asks S.reply_to S.after S.node (S.meaning sink.old) (token_text token) line (S.meaning sink.new) result }
{
    sink.process_token(token, line)
}

/// Passes a token of the end to the sink, and drops the reply unless it is an error.
pub fn offer<S: TokenSink>(sink: &mut S, token: Token, line: u64) -> Result<(), BuildFault>
    ensures { Takes S.reply_to S.after S.ended (S.meaning sink.old) (token_text token) line (S.meaning sink.new) result }
{
    ask(sink, token, line)?;
    Ok(())
}

/// Passes the end-of-file token to the sink, with the last line, and then calls `end`.
pub fn finish<S: TokenSink>(sink: &mut S, line: u64) -> Result<(), BuildFault>
    ensures { Finishes S.reply_to S.after S.ended (S.meaning sink.old) line (S.meaning sink.new) result }
{
    offer(sink, Token::EOFToken, line)?;
    sink.end();
    Ok(())
}
