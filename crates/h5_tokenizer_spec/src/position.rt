//! Positions of parse errors.

ghost use Rattle.std.specs.Prelude.{◌≡◌, true};
ghost use Rattle.h5_tokenizer_spec.specs.Spots.{is_inside, position, position_before, spot_again, spot_behind, spot_behind_all, spot_past};

use super::errors::ParseError;

/// A position in the input, before a byte. Each number stops at the maximum of `u64`.
#[derive(Clone, Copy, Debug, PartialEq, Eq)]
pub struct Position {
    /// The line, from 1. CARRIAGE RETURN, LINE FEED and the pair are one newline each.
    pub line: u64,
    /// The column, from 1, in code points.
    pub column: u64,
    /// The number of bytes of the input before the position.
    pub offset: u64,
}

impl Position {
    /// Returns the position the given number of characters earlier, for ASCII characters of the same line.
    pub fn before(&self, characters: u64) -> Position
        ensures { result ≡ position_before characters self.now }
    {
        Position {
            line: self.line,
            column: self.column.saturating_sub(characters),
            offset: self.offset.saturating_sub(characters),
        }
    }
}

/// A parse error, with its position: that of the character that the standard's tokenizer has reached when it reports the error.
#[derive(Clone, Copy, Debug, PartialEq, Eq)]
pub struct LocatedError {
    pub error: ParseError,
    pub at: Position,
}

/// The column and the offset of the current byte, and whether it is new: no row has handled it yet.
#[derive(Clone, Copy, Debug, PartialEq, Eq)]
pub struct Spot {
    pub column: u64,
    pub offset: u64,
    pub is_new: bool,
}

// Returns true if a byte of UTF-8 is inside a character.
fn is_inside(b: u8) -> bool
    ensures { result ≡ is_inside b }
{
    0x80 <= b && b <= 0xbf
}

impl Spot {
    /// Returns the spot before the first byte.
    pub fn first() -> Spot
        ensures { result ≡ record { column = 1; offset = 0; is_new = true } }
    {
        Spot {
            column: 1,
            offset: 0,
            is_new: true,
        }
    }

    /// Returns the position, with the given line.
    pub fn position(&self, line: u64) -> Position
        ensures { result ≡ position line self.now }
    {
        Position {
            line,
            column: self.column,
            offset: self.offset,
        }
    }

    /// Moves after a consumed byte.
    pub fn pass(&mut self, b: u8)
        ensures { self.new ≡ spot_behind b self.old }
    {
        if b == b'\r' || b == b'\n' {
            self.column = 1;
        } else if !is_inside(b) {
            self.column = self.column.saturating_add(1);
        }
        self.offset = self.offset.saturating_add(1);
        self.is_new = true;
    }

    /// Moves after consumed bytes.
    pub fn pass_all(&mut self, bytes: &[u8])
        ensures { self.new ≡ spot_behind_all bytes.now self.old }
    {
        for b in bytes {
            self.pass(*b);
        }
    }

    /// Moves after a LINE FEED that is dropped.
    pub fn pass_dropped(&mut self)
        ensures { self.new ≡ spot_past self.old }
    {
        self.offset = self.offset.saturating_add(1);
        self.is_new = true;
    }

    /// Notes that a row has handled the current byte, which is still current.
    pub fn meet(&mut self)
        ensures { self.new ≡ spot_again self.old }
    {
        self.is_new = false;
    }
}
