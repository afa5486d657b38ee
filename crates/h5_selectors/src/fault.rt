//! Errors of parsing a selector.
ghost use Rattle.std.specs.Prelude.{◌≡◌};

use std::alloc::{AllocError, AllocFailed};
use thiserror::Error;

/// The problem of a text.
#[derive(Clone, Copy, Debug, PartialEq, Eq, Error)]
pub enum SelectorProblem {
    /// A selector is missing.
    #[error("expected a selector")]
    Selector,
    /// A name is missing.
    #[error("expected a name")]
    Name,
    /// An operator or `]` is missing after the name of an attribute.
    #[error("expected an operator or ']'")]
    Operator,
    /// A string or a name is missing after an operator.
    #[error("expected a string or a name")]
    Value,
    /// `i`, `s` or `]` is missing after the value of an attribute.
    #[error("expected 'i', 's' or ']'")]
    Flag,
    /// A newline ends a string before its quote.
    #[error("unclosed string")]
    Unclosed,
    /// An unknown pseudo-class.
    #[error("unknown pseudo-class")]
    PseudoClass,
    /// A pseudo-element, which isn't an element of a tree.
    #[error("pseudo-elements are not supported")]
    PseudoElement,
    /// A namespace prefix; no prefix can be declared.
    #[error("namespaces are not supported")]
    Namespace,
    /// `an+b`, `odd` or `even` is missing.
    #[error("expected 'an+b', 'odd' or 'even'")]
    AnPlusB,
    /// `:has()` inside `:has()`.
    #[error("':has()' can't be nested")]
    NestedHas,
    /// Text after the selector that isn't part of it.
    #[error("unexpected text after the selector")]
    Rest,
    /// A selector has more than 1,000 parts.
    #[error("more than 1,000 parts")]
    TooLong,
    /// Pseudo-classes with arguments are nested more than 32 levels deep.
    #[error("nested more than 32 levels deep")]
    TooDeep,
}

/// The error of parsing a selector.
#[derive(Clone, Copy, Debug, PartialEq, Eq, Error)]
pub enum SelectorError {
    /// The text isn't a selector: what is wrong, and at which offset in characters, from 0.
    #[error("at offset {at}: {problem}")]
    Invalid { at: usize, problem: SelectorProblem },
    /// An allocation failed.
    #[error("out of memory")]
    Memory,
}

/// The reason that parsing stopped.
#[derive(Clone, Copy)]
pub(crate) enum Refusal {
    /// The problem, and the number of characters left.
    Invalid {
        left: usize,
        problem: SelectorProblem,
    },
    Memory,
}

impl From<AllocError> for Refusal {
    ghost use Rattle.h5_selectors.specs.declared.fault.Refusal.TheVariants.{Memory};

    ghost from_gives = { λ _ refusal. refusal ≡ Memory };

    fn from(_error: AllocError) -> Refusal {
        Refusal::Memory
    }
}

impl<T: Drop> From<AllocFailed<T>> for Refusal {
    ghost use Rattle.h5_selectors.specs.declared.fault.Refusal.TheVariants.{Memory};

    ghost from_gives = { λ _ refusal. refusal ≡ Memory };

    fn from(_error: AllocFailed<T>) -> Refusal {
        Refusal::Memory
    }
}

impl Refusal {
    ghost use Rattle.std.specs.Prelude.{List};
    ghost use Rattle.h5_selectors.specs.Asking.{Asked};
    ghost use Rattle.h5_selectors.specs.Fault.{IsWithin, Outcome, Tells};
    ghost use Rattle.h5_selectors.specs.Reads.{Fails};

    /// The error in a text with this number of characters.
    pub(crate) fn in_text(self, length: usize) -> SelectorError
        ensures place { IsWithin length result }
        ensures tells { (read : Outcome (List Asked)) → Fails self read → Tells length result read }
        ensures memory { result ≡ SelectorError.Memory → self ≡ Refusal.Memory }
    {
        match self {
            Refusal::Invalid { left, problem } => SelectorError::Invalid {
                at: length.saturating_sub(left),
                problem,
            },
            Refusal::Memory => SelectorError::Memory,
        }
    }
}
