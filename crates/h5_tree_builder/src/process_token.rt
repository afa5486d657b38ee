//! Takes a token, by its kind (HTML standard, section 13.2.6, "Tree construction").
ghost use Rattle.std.specs.Prelude.{◌≡◌, true, IsOk};
ghost use Rattle.h5_token.specs.TokenText.{token_text};
ghost use Rattle.h5_builder_spec.specs.Run.{is_counted, step, taken};
ghost use Rattle.h5_builder_state.specs.Steps.{errors_of, world_of};
ghost use Rattle.h5_tree_builder.specs.Chains.{IsReady, Settles, is_free};

use super::dispatch::process_to_completion;
use super::doctype::take_doctype;
use super::text::take_text;
use super::turns_taken::Taken;
use h5_builder_state::{State, tell_message};
use h5_interface::TreeSink;
use h5_tables::Token;
use h5_token::{Token as Input, TokenSinkResult};
use std::alloc::AllocError;

// Resets the newline flag, and returns its value.
#[tactic(auto, unfolding(h5_builder_state::specs::View::world, h5_builder_spec::specs::World::names_of))]
#[inline(always)]
fn take_lf<S: TreeSink>(sink: &S, state: &mut State<S::Handle>) -> bool
    ensures flag { result ≡ (world_of S.TreeSink sink.now state.old).ignore_lf }
    ensures done { world_of S.TreeSink sink.now state.new ≡ taken (world_of S.TreeSink sink.now state.old) }
    ensures ready { IsReady S.TreeSink sink.now state.old → IsReady S.TreeSink sink.now state.new }
{
    let ignore_lf = state.ignore_lf;
    state.ignore_lf = false;
    ignore_lf
}

// Reports the line of a token to the sink, unless it is the first.
#[tactic(auto, unfolding(h5_builder_state::specs::View::world, h5_builder_spec::specs::World::names_of))]
#[inline(always)]
pub fn note_line<S: TreeSink>(sink: &mut S, state: &State<S::Handle>, line_number: u64)
    ensures done { world_of S.TreeSink sink.new state.now ≡ world_of S.TreeSink sink.old state.now }
    ensures quiet { errors_of S.TreeSink sink.new ≡ errors_of S.TreeSink sink.old }
    ensures ready { IsReady S.TreeSink sink.old state.now → IsReady S.TreeSink sink.new state.now }
{
    if line_number != 1 {
        sink.set_current_line(line_number);
    }
}

/// Takes a token that isn't refused. Returns the number of its turns and the reply. Fails with `AllocError` if an
/// allocation fails; the state is then sound.
#[inline(always)]
pub fn take_token<S: TreeSink>(
    sink: &mut S,
    state: &mut State<S::Handle>,
    token: Input,
) -> Result<Taken<S::Handle>, AllocError>
    requires { IsReady S.TreeSink sink.old state.old }
    ensures settles { Settles S.TreeSink (step S.choices (token_text token)) (is_counted (token_text token) (world_of S.TreeSink sink.old state.old)) sink.old state.old sink.new state.new result }
    ensures free { is_free (token_text token) (world_of S.TreeSink sink.old state.old) ≡ true → IsOk result }
{
    let ignore_lf = take_lf(sink, state);
    match token {
        Input::DoctypeToken(doctype) => take_doctype(sink, state, doctype),
        Input::TagToken(tag) => process_to_completion(sink, state, Token::Tag(tag)),
        Input::CommentToken(text) => process_to_completion(sink, state, Token::Comment(text)),
        Input::CharacterTokens(text) => take_text(sink, state, ignore_lf, text),
        Input::NullCharacterToken => process_to_completion(sink, state, Token::NullCharacter),
        Input::EOFToken => process_to_completion(sink, state, Token::Eof),
        Input::ParseError(message) => {
            tell_message(sink, state, message.as_str());
            Ok(Taken {
                turns: 0,
                answer: TokenSinkResult::Continue,
            })
        }
    }
}
