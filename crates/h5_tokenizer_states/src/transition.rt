//! The results of rows.

use super::machine_state::MachineState;
use h5_tokenizer_spec::TextKind;

/// The token to emit.
#[derive(Clone, Copy, Debug, PartialEq, Eq)]
pub enum CurrentToken {
    /// A NUL, which the tree builder gets unchanged.
    Null,
    Tag,
    Comment,
    Doctype,
}

/// What a row does with the current byte, apart from what it appends to a text or to what is being built.
#[derive(Clone, Copy, Debug, PartialEq, Eq)]
pub enum Transition {
    /// The byte is consumed, and this is the next state.
    Consumed(MachineState),
    /// The byte is reconsumed in this state.
    Reconsumed(MachineState),
    /// The byte is consumed, and a token is complete. This is the next state, unless the sink changes it.
    Emitted(CurrentToken, TextKind),
    /// The byte is consumed. If the adjusted current node isn't in the HTML namespace, the CDATA section state is next, else
    /// the bogus comment state.
    Asks,
}
