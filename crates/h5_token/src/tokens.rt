//! Tokens.
use super::doctype::Doctype;
use super::tag::Tag;

/// A token (HTML standard, section 13.2.5, "Tokenization").
///
/// A NUL is a separate token, and so is a parse error of the tokenizer. Characters come as a text, which may be split anywhere.
#[derive(Debug, Drop, PartialEq, Eq)]
pub enum Token {
    DoctypeToken(Doctype),
    TagToken(Tag),
    CommentToken(String),
    CharacterTokens(String),
    NullCharacterToken,
    EOFToken,
    ParseError(String),
}
