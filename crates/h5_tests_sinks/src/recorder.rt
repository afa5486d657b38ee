//! A token sink that writes its tokens down.
ghost use Rattle.std.specs.Prelude.{◌≡◌};

use super::answer::{Answer, reply_to};
use h5_token::{BuildFault, Doctype, Tag, TagKind, Token, TokenSink, TokenSinkResult};
use std::alloc::{AllocError, Global};
use std::fmt::Write;

/// Writes its tokens down: texts as they are, so that neighbouring ones are joined, and the lines of all other tokens.
#[derive(Drop)]
pub struct Recorder {
    pub text: String,
    /// The lines of the tokens that aren't texts.
    pub lines: String,
    pub foreign: bool,
    pub answer: Answer,
}

fn part(text: &Option<String>) -> &str {
    match text {
        Some(text) => text.as_str(),
        None => "-",
    }
}

fn put_doctype(out: &mut String, doctype: &Doctype) -> Result<(), AllocError> {
    let name = part(&doctype.name);
    let public = part(&doctype.public_id);
    let system = part(&doctype.system_id);
    let quirks = doctype.force_quirks;
    write!(out, "D({name},{public},{system},{quirks})")
}

fn put_tag(out: &mut String, tag: &Tag) -> Result<(), AllocError> {
    out.push_str(match tag.kind {
        TagKind::StartTag => "<",
        TagKind::EndTag => "</",
    })?;
    out.push_str(tag.name.as_str())?;
    for attribute in &tag.attrs {
        let name = attribute.name.local.as_str();
        let value = attribute.value.as_str();
        write!(out, " {name}={value}")?;
    }
    if tag.self_closing {
        out.push_str(" /")?;
    }
    if tag.had_duplicate_attributes {
        out.push_str(" !")?;
    }
    out.push_str(">")
}

fn put_token(out: &mut String, token: &Token) -> Result<(), AllocError> {
    match token {
        Token::DoctypeToken(doctype) => put_doctype(out, doctype),
        Token::TagToken(tag) => put_tag(out, tag),
        Token::CommentToken(text) => {
            let text = text.as_str();
            write!(out, "C({text})")
        }
        Token::CharacterTokens(text) => out.push_str(text.as_str()),
        Token::NullCharacterToken => out.push_str("[0]"),
        Token::EOFToken => out.push_str("$"),
        Token::ParseError(_) => out.push_str("[error]"),
    }
}

impl Recorder {
    /// A recorder that has written nothing. Doesn't allocate.
    pub fn new(alloc: Global, foreign: bool, answer: Answer) -> Recorder
        ensures foreign { result.foreign ≡ foreign }
        ensures answer { result.answer ≡ answer }
    {
        Recorder {
            text: String::new(alloc),
            lines: String::new(alloc),
            foreign,
            answer,
        }
    }

    fn note(&mut self, token: &Token, line: u64) -> Result<(), AllocError>
        ensures foreign { self.new.foreign ≡ self.old.foreign }
        ensures answer { self.new.answer ≡ self.old.answer }
    {
        if !matches!(token, Token::CharacterTokens(_)) {
            write!(&mut self.lines, " {line}")?;
        }
        put_token(&mut self.text, token)
    }
}

impl TokenSink for Recorder {
    ghost use Rattle.h5_tests_sinks.specs.Answers.{Wishes, reply_to};

    type Handle = u8;

    ghost Meaning = { Wishes };

    ghost meaning = { λ sink. record { foreign = sink.foreign; answer = sink.answer } };

    ghost node = { λ handle. handle };

    ghost reply_to = { λ wishes token. reply_to wishes.answer token };

    ghost after = { λ wishes _ _. wishes };

    ghost ended = { λ wishes. wishes };

    ghost is_foreign = { λ wishes. wishes.foreign };

    fn process_token(
        &mut self,
        token: Token,
        line_number: u64,
    ) -> Result<TokenSinkResult<u8>, BuildFault> {
        self.note(&token, line_number)?;
        Ok(reply_to(self.answer, &token))
    }

    fn end(&mut self) {}

    fn adjusted_current_node_present_but_not_in_html_namespace(&self) -> bool {
        self.foreign
    }
}
