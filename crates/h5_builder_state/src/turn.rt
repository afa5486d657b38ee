//! The token that is reprocessed, and the reply: a turn puts them into the state, from which they are taken.
ghost use Rattle.std.specs.Prelude.{◌≡◌};
ghost use Rattle.h5_token.specs.Reply.{reply};
ghost use Rattle.h5_tables.specs.TurnText.{turn_text};
ghost use Rattle.h5_builder_state.specs.Steps.{IsSound};
ghost use Rattle.h5_builder_state.specs.Turn.{KeepsWorld};

use super::state::State;
use h5_interface::TreeSink;
use h5_tables::Token;
use h5_token::TokenSinkResult;
use std::mem;

/// Sets the token that is reprocessed.
#[tactic(auto, unfolding(crate::specs::View::world))]
#[inline(always)]
pub fn set_again<S: TreeSink>(sink: &S, state: &mut State<S::Handle>, token: Token)
    requires { IsSound S.TreeSink sink.now state.old }
    ensures kept { KeepsWorld S.TreeSink sink.now state.old state.new }
    ensures token { turn_text state.new.again ≡ turn_text token }
{
    state.again = token;
}

/// Takes the token that is reprocessed.
#[tactic(auto, unfolding(crate::specs::View::world))]
#[inline(always)]
pub fn take_again<S: TreeSink>(sink: &S, state: &mut State<S::Handle>) -> Token
    requires { IsSound S.TreeSink sink.now state.old }
    ensures kept { KeepsWorld S.TreeSink sink.now state.old state.new }
    ensures token { result ≡ state.old.again }
{
    mem::replace(&mut state.again, Token::Eof)
}

/// Sets the reply.
#[tactic(auto, unfolding(crate::specs::View::world))]
#[inline(always)]
pub fn set_answer<S: TreeSink>(
    sink: &S,
    state: &mut State<S::Handle>,
    answer: TokenSinkResult<S::Handle>,
)
    requires { IsSound S.TreeSink sink.now state.old }
    ensures kept { KeepsWorld S.TreeSink sink.now state.old state.new }
    ensures answer { reply S.node state.new.answer ≡ reply S.node answer }
{
    state.answer = answer;
}

/// Takes the reply.
#[tactic(auto, unfolding(crate::specs::View::world))]
#[inline(always)]
pub fn take_answer<S: TreeSink>(
    sink: &S,
    state: &mut State<S::Handle>,
) -> TokenSinkResult<S::Handle>
    requires { IsSound S.TreeSink sink.now state.old }
    ensures kept { KeepsWorld S.TreeSink sink.now state.old state.new }
    ensures answer { result ≡ state.old.answer }
{
    mem::replace(&mut state.answer, TokenSinkResult::Continue)
}
