//! The parse errors of tokens that an insertion mode doesn't expect.
ghost use Rattle.std.specs.Prelude.{◌≡◌};
ghost use Rattle.h5_tables.specs.TurnText.{turn_text};
ghost use Rattle.h5_tables.specs.Unexpected.{in_table, tag_in_table, unexpected, unexpected_end_tag, unexpected_eof, unexpected_start_tag, unexpected_tag, unexpected_text};

use super::modes::InsertionMode;
use super::tree_errors::TreeError;
use super::turns::Token;
use h5_token::TagKind;

fn unexpected_start_tag(mode: InsertionMode) -> TreeError
    ensures { result ≡ unexpected_start_tag mode }
{
    match mode {
        InsertionMode::Initial => TreeError::StartTagBeforeDoctype,
        InsertionMode::InHead => TreeError::SecondHead,
        InsertionMode::InHeadNoscript => TreeError::TagInHeadNoscript,
        InsertionMode::AfterHead => TreeError::StartTagAfterHead,
        InsertionMode::AfterBody => TreeError::StartTagAfterBody,
        InsertionMode::InFrameset => TreeError::StartTagInFrameset,
        InsertionMode::AfterFrameset => TreeError::StartTagAfterFrameset,
        InsertionMode::AfterAfterBody | InsertionMode::AfterAfterFrameset =>
            TreeError::StartTagAfterHtml,
        _ => TreeError::UnexpectedStartTag,
    }
}

fn unexpected_end_tag(mode: InsertionMode) -> TreeError
    ensures { result ≡ unexpected_end_tag mode }
{
    match mode {
        InsertionMode::Initial => TreeError::EndTagBeforeDoctype,
        InsertionMode::BeforeHtml => TreeError::EndTagBeforeHtml,
        InsertionMode::BeforeHead => TreeError::EndTagBeforeHead,
        InsertionMode::InHeadNoscript => TreeError::TagInHeadNoscript,
        InsertionMode::InTableBody => TreeError::EndTagInTableBody,
        InsertionMode::InRow => TreeError::EndTagInTableRow,
        InsertionMode::AfterBody => TreeError::EndTagAfterBody,
        InsertionMode::InFrameset => TreeError::EndTagInFrameset,
        InsertionMode::AfterFrameset => TreeError::EndTagAfterFrameset,
        InsertionMode::AfterAfterBody | InsertionMode::AfterAfterFrameset =>
            TreeError::EndTagAfterHtml,
        _ => TreeError::UnexpectedEndTag,
    }
}

fn unexpected_text(mode: InsertionMode) -> TreeError
    ensures { result ≡ unexpected_text mode }
{
    match mode {
        InsertionMode::Initial => TreeError::TextBeforeDoctype,
        InsertionMode::InHeadNoscript => TreeError::TextInHeadNoscript,
        InsertionMode::AfterBody => TreeError::TextAfterBody,
        InsertionMode::InFrameset => TreeError::TextInFrameset,
        InsertionMode::AfterFrameset => TreeError::TextAfterFrameset,
        InsertionMode::AfterAfterBody | InsertionMode::AfterAfterFrameset =>
            TreeError::TextAfterHtml,
        _ => TreeError::UnexpectedText,
    }
}

fn unexpected_eof(mode: InsertionMode) -> TreeError
    ensures { result ≡ unexpected_eof mode }
{
    match mode {
        InsertionMode::Initial => TreeError::EofBeforeDoctype,
        InsertionMode::InHeadNoscript => TreeError::EofInHeadNoscript,
        _ => TreeError::UnexpectedEof,
    }
}

impl TreeError {
    /// The error of a tag that the rules of this mode don't expect.
    pub fn unexpected_tag(kind: TagKind, mode: InsertionMode) -> TreeError
        ensures { result ≡ unexpected_tag kind mode }
    {
        match kind {
            TagKind::StartTag => unexpected_start_tag(mode),
            TagKind::EndTag => unexpected_end_tag(mode),
        }
    }

    /// The error of a token that the rules of this mode don't expect.
    pub fn unexpected(token: &Token, mode: InsertionMode) -> TreeError
        ensures { result ≡ unexpected (turn_text token.now) mode }
    {
        match token {
            Token::Tag(tag) => TreeError::unexpected_tag(tag.kind, mode),
            Token::Comment(_) => TreeError::UnexpectedComment,
            Token::Characters(_, _) => unexpected_text(mode),
            Token::NullCharacter => TreeError::UnexpectedNull,
            Token::Eof => unexpected_eof(mode),
        }
    }

    /// The error of a token of what goes before a table (HTML standard, section 13.2.6.4.9, "The "in table" insertion mode").
    pub fn in_table(token: &Token) -> TreeError
        ensures { result ≡ in_table (turn_text token.now) }
    {
        match token {
            Token::Tag(tag) => match tag.kind {
                TagKind::StartTag => TreeError::StartTagInTable,
                TagKind::EndTag => TreeError::EndTagInTable,
            },
            Token::Comment(_) => TreeError::UnexpectedComment,
            Token::Characters(_, _) => TreeError::TextInTable,
            Token::NullCharacter => TreeError::UnexpectedNull,
            Token::Eof => TreeError::UnexpectedEof,
        }
    }
}
