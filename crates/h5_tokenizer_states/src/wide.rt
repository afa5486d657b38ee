//! States that take bytes other than ASCII as they are. In these, such bytes are taken as a run.

ghost use Rattle.std.specs.Prelude.{◌≡◌};
ghost use Rattle.h5_tokenizer_states.specs.Wide.{comment_takes_wide, doctype_takes_wide, tag_takes_wide, takes_wide, text_takes_wide};

use super::machine_state::{CommentState, DoctypeState, MachineState, TagState, TextState};

fn text_takes_wide(state: TextState) -> bool
    ensures { result ≡ text_takes_wide state }
{
    match state {
        TextState::Text(_) => true,
        TextState::ScriptDataEscaped(_) => true,
        TextState::ScriptDataEscapedDash(_) => true,
        TextState::ScriptDataEscapedDashDash(_) => true,
        _ => false,
    }
}

fn tag_takes_wide(state: TagState) -> bool
    ensures { result ≡ tag_takes_wide state }
{
    match state {
        TagState::TagName => true,
        TagState::AttributeName => true,
        TagState::AttributeValue(_) => true,
        _ => false,
    }
}

fn comment_takes_wide(state: CommentState) -> bool
    ensures { result ≡ comment_takes_wide state }
{
    match state {
        CommentState::BogusComment => true,
        CommentState::Comment => true,
        _ => false,
    }
}

fn doctype_takes_wide(state: DoctypeState) -> bool
    ensures { result ≡ doctype_takes_wide state }
{
    match state {
        DoctypeState::BeforeDoctypeName => true,
        DoctypeState::DoctypeName => true,
        DoctypeState::DoctypeIdentifier(_, _) => true,
        DoctypeState::BogusDoctype => true,
        _ => false,
    }
}

/// Returns true if a state takes such bytes.
pub fn takes_wide(at: MachineState) -> bool
    ensures { result ≡ takes_wide at }
{
    match at {
        MachineState::Text(state) => text_takes_wide(state),
        MachineState::Tag(state) => tag_takes_wide(state),
        MachineState::Comment(state) => comment_takes_wide(state),
        MachineState::Doctype(state) => doctype_takes_wide(state),
        MachineState::Reference(_, _) => false,
    }
}
