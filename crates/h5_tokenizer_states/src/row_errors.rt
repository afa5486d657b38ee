//! The errors of a row.

ghost use Rattle.std.specs.Prelude.{◌≡◌, List, [], ◌∷◌, ◌++◌, ◌==◌, ◌&&◌, if◌then◌else◌};
ghost use Rattle.h5_tokenizer_spec.specs.Signs.{null};
ghost use Rattle.h5_tokenizer_spec.specs.SeenAhead.{error_position, told_of_row};
ghost use Rattle.h5_tokenizer_spec.specs.Told.{Tells, if_any};
ghost use Rattle.h5_tokenizer_states.specs.RowErrors.{all_of};

use h5_tokenizer_spec::{ErrorSink, ParseError, Position};

/// The errors of a row, in order. There are at most three: a '>' after `</a b/ c=` has three.
#[derive(Clone, Copy, Debug, PartialEq, Eq)]
pub struct RowErrors {
    pub first: Option<ParseError>,
    pub second: Option<ParseError>,
    pub third: Option<ParseError>,
}

/// Returns an error if this is true.
pub fn only_if(holds: bool, error: ParseError) -> Option<ParseError>
    ensures { if_any result ≡ (if holds then error ∷ [] else []) }
{
    if holds { Some(error) } else { None }
}

/// Returns an error if both are true.
pub fn only_both(first: bool, second: bool, error: ParseError) -> Option<ParseError>
    ensures { if_any result ≡ (if first && second then error ∷ [] else []) }
{
    if first && second { Some(error) } else { None }
}

/// No errors.
pub const NO_ERRORS: RowErrors = RowErrors {
    first: None,
    second: None,
    third: None,
};

/// Returns the error of a NUL that is replaced.
pub fn null_error(b: u8) -> Option<ParseError>
    ensures { if_any result ≡ (if b == null then ParseError.UnexpectedNullCharacter ∷ [] else []) }
{
    only_if(b == 0, ParseError::UnexpectedNullCharacter)
}

// Returns the position of an error, which is earlier by `ahead` characters if the standard reports it while it looks ahead.
fn error_position(ahead: u64, at: Position, error: ParseError) -> Position
    ensures { result ≡ error_position ahead at error }
{
    if error.is_told_ahead() {
        at.before(ahead)
    } else {
        at
    }
}

// Reports an error of a row, if there is one.
fn tell_one<E: ErrorSink>(error: Option<ParseError>, ahead: u64, at: Position, errors: &mut E)
    ensures { Tells E.Told errors.old errors.new (told_of_row ahead at (if_any error)) }
{
    match error {
        None => {}
        Some(error) => errors.error(error, error_position(ahead, at, error)),
    }
}

impl RowErrors {
    /// Returns at most one error.
    pub fn one(error: Option<ParseError>) -> RowErrors
        ensures { all_of result ≡ if_any error }
    {
        RowErrors {
            first: error,
            second: None,
            third: None,
        }
    }

    /// Reports the errors in order, at the position, or `ahead` characters earlier if the standard reports them while it looks
    /// ahead.
    pub fn tell<E: ErrorSink>(&self, ahead: u64, at: Position, errors: &mut E)
        ensures { Tells E.Told errors.old errors.new (told_of_row ahead at (all_of self.now)) }
    {
        tell_one(self.first, ahead, at, errors);
        tell_one(self.second, ahead, at, errors);
        tell_one(self.third, ahead, at, errors);
    }
}
