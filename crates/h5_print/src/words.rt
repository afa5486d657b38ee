//! The first words of lines.
ghost use Rattle.std.specs.Prelude.{◌≡◌};
ghost use Rattle.std.specs.Option.{option_map};
ghost use Rattle.h5_print.specs.Words.{cut, word_of};

/// The first word of a line.
#[derive(Clone, Copy, Debug, PartialEq, Eq)]
pub enum Word {
    Doctype,
    PublicId,
    SystemId,
    ForceQuirks,
    StartTag,
    EndTag,
    Attribute,
    SelfClosing,
    Text,
    Comment,
    Null,
    ParseError,
    EndOfFile,
    End,
}

/// The word with this text, if there is one.
pub fn word_of(text: &str) -> Option<Word>
    ensures { result ≡ word_of text.now }
{
    match text {
        "D" => Some(Word::Doctype),
        "Dp" => Some(Word::PublicId),
        "Ds" => Some(Word::SystemId),
        "Dq" => Some(Word::ForceQuirks),
        "S" => Some(Word::StartTag),
        "E" => Some(Word::EndTag),
        "A" => Some(Word::Attribute),
        "/" => Some(Word::SelfClosing),
        "T" => Some(Word::Text),
        "C" => Some(Word::Comment),
        "N" => Some(Word::Null),
        "P" => Some(Word::ParseError),
        "Z" => Some(Word::EndOfFile),
        "X" => Some(Word::End),
        _ => None,
    }
}

/// The text up to the first space, and the text after that space, if there is one.
pub fn cut_word<'a>(text: &'a str) -> (&'a str, Option<&'a str>)
    ensures word { result.0.now ≡ (cut text.now).word }
    ensures operand { option_map (λ operand. operand.now) result.1 ≡ (cut text.now).operand }
{
    match text.split_once(' ') {
        Some((word, operand)) => (word, Some(operand)),
        None => (text, None),
    }
}
