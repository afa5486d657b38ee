//! The output of a byte, and what is stored for the bytes that follow.
ghost use Rattle.std.specs.Prelude.{◌≡◌};
ghost use Rattle.h5_encodings.specs.Steps.{after, broken_off, shows, text_shown};

/// How ISO-2022-JP decodes bytes until the next escape: the decoder's output state.
#[derive(Clone, Copy, Debug, PartialEq, Eq)]
pub enum JpMode {
    Ascii,
    Roman,
    Katakana,
    TwoBytes,
}

/// The part of a character or of an escape that is stored in ISO-2022-JP.
#[derive(Clone, Copy, Debug, PartialEq, Eq)]
pub enum JpPart {
    Nothing,
    /// The first byte of a two-byte character.
    Lead(u8),
    /// ESC.
    Escape,
    /// ESC and `$`.
    EscapeDollar,
    /// ESC and `(`.
    EscapeParenthesis,
}

/// The state of an ISO-2022-JP decoder.
#[derive(Clone, Copy, Debug, PartialEq, Eq)]
pub struct JpState {
    pub mode: JpMode,
    /// There was an escape, and neither a character nor an error since.
    pub output_flag: bool,
    pub part: JpPart,
}

/// What a decoder stores of bytes whose text isn't decided yet.
#[derive(Clone, Copy, Debug, PartialEq, Eq)]
pub enum Kept {
    Nothing,
    /// The first byte of a code unit, in UTF-16.
    Half(u8),
    /// A leading surrogate, in UTF-16.
    Leading(u16),
    /// A leading surrogate, and the first byte of the next code unit.
    LeadingHalf(u16, u8),
    /// The lead byte of a character of several bytes.
    Lead(u8),
    /// The byte after 0x8F, in EUC-JP.
    Jis0212(u8),
    /// The first two of four bytes, in gb18030.
    TwoOfFour(u8, u8),
    /// The first three of four bytes.
    ThreeOfFour(u8, u8, u8),
    /// The state of an ISO-2022-JP decoder.
    Jp(JpState),
    /// The single error of "replacement" was output.
    Told,
}

/// The output of a byte.
#[derive(Clone, Copy, Debug, PartialEq, Eq)]
pub enum Shown {
    Nothing,
    Character(char),
    Two(char, char),
    /// U+FFFD, which replaces bytes that aren't a character.
    Error,
    /// U+FFFD for an error, followed by a character.
    ErrorAnd(char),
    /// U+FFFD for two errors, which only an end outputs.
    TwoErrors,
}

/// A step: the output of stored bytes that aren't a character by themselves, then the output of the byte, and what is stored
/// after it.
#[derive(Clone, Copy, Debug, PartialEq, Eq)]
pub struct Step {
    pub before: Shown,
    pub shown: Shown,
    pub kept: Kept,
}

impl Step {
    /// Returns a step without output of stored bytes.
    pub fn of(shown: Shown, kept: Kept) -> Step
        ensures { result ≡ shows shown kept }
    {
        Step {
            before: Shown::Nothing,
            shown,
            kept,
        }
    }

    /// Returns the step with this output of stored bytes before it.
    pub fn after(self, before: Shown) -> Step
        ensures { result ≡ after before self }
    {
        Step { before, ..self }
    }
}

/// Returns the text of an end that is inside a character, or isn't.
pub fn broken_off(is_broken_off: bool) -> &'static str
    ensures { result.now ≡ text_shown (broken_off is_broken_off) }
{
    if is_broken_off { "\u{FFFD}" } else { "" }
}
