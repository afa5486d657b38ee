//! A list of parse errors.

ghost use Rattle.std.specs.Prelude.{◌≡◌, ◌<◌, length, true, false, [], ◌∷◌, ◌++◌};

use super::error_sink::ErrorSink;
use super::errors::ParseError;
use super::position::{LocatedError, Position};
use std::alloc::Global;

/// The first errors that were reported, up to a limit, and the number of later ones.
pub struct Errors {
    kept: Vec<LocatedError>,
    limit: usize,
    more: u64,
}

impl Drop for Errors {
    fn drop(self) {
        let Errors {
            kept: _kept,
            limit: _limit,
            more: _more,
        } = self;
    }
}

impl Errors {
    /// Returns an empty list for at most `limit` errors. Allocates nothing.
    pub fn new(alloc: Global, limit: usize) -> Errors
        ensures kept { result.kept.items ≡ [] }
        ensures more { result.more ≡ 0 }
        ensures limit { result.limit ≡ limit }
    {
        Errors {
            kept: Vec::new(alloc),
            limit,
            more: 0,
        }
    }

    /// Returns the first errors that were reported, in order, at most as many as the limit. There are fewer if fewer were
    /// reported or an allocation failed.
    pub fn kept(&self) -> &[LocatedError]
        ensures { result.now ≡ self.now.kept.items }
    {
        &self.kept
    }

    /// Returns the number of errors that were reported after these. It stops at the maximum of `u64`.
    pub fn more(&self) -> u64
        ensures { result ≡ self.now.more }
    {
        self.more
    }

    // Adds an error if all previous ones were added, and there is room and memory. Returns true if the error was added.
    fn keep(&mut self, told: LocatedError) -> bool
        ensures all { result ≡ true → self.old.more ≡ 0 }
        ensures kept { result ≡ true → self.new.kept.items ≡ self.old.kept.items ++ told ∷ [] }
        ensures not_kept { result ≡ false → self.new.kept.items ≡ self.old.kept.items }
        ensures room { result ≡ true → length self.old.kept.items < self.old.limit }
        ensures more { self.new.more ≡ self.old.more }
        ensures limit { self.new.limit ≡ self.old.limit }
    {
        self.more == 0 && self.kept.len() < self.limit && self.kept.push(told).is_ok()
    }
}

impl ErrorSink for Errors {
    ghost use Rattle.h5_tokenizer_spec.specs.ErrorList.{IsListOf};

    ghost Told = { λ errors told. IsListOf errors.kept.items errors.limit errors.more told };

    fn error(&mut self, error: ParseError, at: Position) {
        if !self.keep(LocatedError { error, at }) {
            self.more = self.more.saturating_add(1);
        }
    }
}

/// Ignores all errors.
impl ErrorSink for () {
    ghost use Rattle.h5_tokenizer_spec.specs.declared.position.LocatedError.{LocatedError};

    ghost Told = { λ nobody told. Unit {0} };

    #[inline(always)]
    fn error(&mut self, _error: ParseError, _at: Position) {}
}
