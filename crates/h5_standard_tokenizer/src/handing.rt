//! Passing tokens to the sink, and the effect of its replies.

ghost use Rattle.std.specs.Prelude.{◌≡◌, ℕ, IfOk, string_bytes};
ghost use Rattle.h5_token.specs.Reply.{reply};
ghost use Rattle.h5_token.specs.TokenText.{Characters, TagIs, tag_text, token_text};
ghost use Rattle.h5_tokenizer_states.specs.OutcomeOf.{made_of};
ghost use Rattle.h5_tokenizer_states.specs.declared.machine_state.MachineState.TheVariants as MachineState;
ghost use Rattle.h5_tokenizer_states.specs.declared.machine_state.TextState.TheVariants as TextState;
ghost use Rattle.h5_tokenizer_states.specs.MachineText.{place_of};
ghost use Rattle.h5_tokenizer_spec.specs.Reading.{ReaderPlace, chosen_state, raw_text};
ghost use Rattle.h5_tokenizer_spec.specs.States.{Text};
ghost use Rattle.h5_standard_tokenizer.specs.Steps.{HandsOn};

use h5_token::states::RawKind;
use h5_token::{BuildFault, Tag, TagKind, Token, TokenSink, TokenSinkResult};
use h5_tokenizer_input::{Stop, ask, stop_of};
use h5_tokenizer_spec::TextKind;
use h5_tokenizer_states::{CurrentToken, Machine};
use std::alloc::AllocError;

fn raw_text(kind: RawKind) -> TextKind
    ensures { result ≡ raw_text kind }
{
    match kind {
        RawKind::Rcdata => TextKind::Rcdata,
        RawKind::Rawtext => TextKind::Rawtext,
        RawKind::ScriptData => TextKind::ScriptData,
    }
}

// Returns the kind of text that a reply to a start tag chooses.
pub fn chosen_text<H>(answer: &TokenSinkResult<H>) -> TextKind
    ensures { (node : H → ℕ) → Text result ≡ chosen_state (reply node answer.now) }
{
    match answer {
        TokenSinkResult::Plaintext => TextKind::Plaintext,
        TokenSinkResult::RawData(kind) => raw_text(*kind),
        _ => TextKind::Data,
    }
}

/// Passes a text to the sink, which doesn't change the state.
pub fn hand_on_text<S: TokenSink>(
    sink: &mut S,
    text: String,
    line: u64,
) -> Result<Option<Stop<S::Handle>>, BuildFault>
    ensures { (p : ReaderPlace) → HandsOn S.reply_to S.after S.node p (S.meaning sink.old) (Characters (string_bytes text)) line p (S.meaning sink.new) result }
{
    let answer = ask(sink, Token::CharacterTokens(text), line)?;
    Ok(stop_of(answer))
}

/// Passes a tag to the sink, and changes the state as the tag and the reply say.
#[inline(never)]
pub fn hand_on_tag<S: TokenSink>(
    sink: &mut S,
    machine: &mut Machine,
    tag: Tag,
    line: u64,
) -> Result<Option<Stop<S::Handle>>, BuildFault>
    ensures { HandsOn S.reply_to S.after S.node (place_of machine.old) (S.meaning sink.old) (TagIs (tag_text tag)) line
        (place_of machine.new) (S.meaning sink.new) result }
{
    match tag.kind {
        TagKind::StartTag => {
            machine.set_last(tag.name.clone()?);
            let answer = ask(sink, Token::TagToken(tag), line)?;
            machine.read_text(chosen_text(&answer));
            Ok(stop_of(answer))
        }
        TagKind::EndTag => {
            let answer = ask(sink, Token::TagToken(tag), line)?;
            Ok(stop_of(answer))
        }
    }
}

/// Takes the complete token out of the machine.
pub fn take_token(machine: &mut Machine, construct: CurrentToken) -> Result<Token, AllocError>
    ensures token { IfOk result (λ token. token_text token ≡ made_of construct machine.old.parts) }
    ensures others { machine.new ≡ record machine.old { parts = machine.new.parts } }
{
    match construct {
        CurrentToken::Null => Ok(Token::NullCharacterToken),
        CurrentToken::Tag => Ok(Token::TagToken(machine.take_tag()?)),
        CurrentToken::Comment => Ok(Token::CommentToken(machine.take_comment())),
        CurrentToken::Doctype => Ok(Token::DoctypeToken(machine.take_doctype())),
    }
}

/// Passes the complete token to the sink, with the line in which it began. The machine must be in the state of a text.
pub fn hand_on<S: TokenSink>(
    sink: &mut S,
    machine: &mut Machine,
    construct: CurrentToken,
    line: u64,
) -> Result<Option<Stop<S::Handle>>, BuildFault>
    requires { (kind : TextKind) × (machine.old.at ≡ MachineState.Text (TextState.Text kind)) }
    ensures { HandsOn S.reply_to S.after S.node (place_of machine.old) (S.meaning sink.old) (made_of construct machine.old.parts) line
        (place_of machine.new) (S.meaning sink.new) result }
{
    if construct == CurrentToken::Tag {
        let tag = machine.take_tag()?;
        return hand_on_tag(sink, machine, tag, line);
    }
    let token = take_token(machine, construct)?;
    let answer = ask(sink, token, line)?;
    Ok(stop_of(answer))
}
