//! Sinks of parse errors.

ghost use Rattle.std.specs.Prelude.{◌≡◌, List, [], ◌∷◌, ◌++◌};
ghost use Rattle.h5_tokenizer_spec.specs.declared.position.LocatedError.{LocatedError};
ghost use Rattle.h5_tokenizer_spec.specs.Told.{Tells};

use super::errors::ParseError;
use super::position::{LocatedError, Position};

/// A sink of parse errors. `Told` relates it to the list of errors that were reported to it, so it may store only a part of
/// them.
pub trait ErrorSink {
    // These errors were reported, in this order.
    ghost Told: { Self → List LocatedError → Type 0 };

    /// Takes an error at a position.
    fn error(&mut self, error: ParseError, at: Position)
        ensures { Tells Told self.old self.new (record { error = error; at = at } ∷ []) };
}
