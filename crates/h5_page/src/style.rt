//! If a `style` attribute hides its element.
ghost use Rattle.std.specs.Prelude.{◌≡◌, IfOk, OnOk, if◌then◌else◌};
ghost use Rattle.h5_page.specs.Styles as s;

use super::declaration::{Declaration, Token, Winner, word_token};
use std::alloc::{AllocError, Global};
use std::marker::Model;

/// Where a byte of a style is.
#[derive(Clone, Copy, Debug)]
pub enum Place {
    /// In no comment, string or escape.
    Plain,
    /// After a `/`, which may begin a comment.
    Slash,
    /// In a comment.
    Comment,
    /// In a comment, after a `*`.
    Star,
    /// In a string, with this quotation mark.
    Quoted(u8),
    /// After a `\` in such a string.
    QuotedEscape(u8),
    /// After a `\` in no string.
    Escape,
}

// Returns the place after a byte of a comment.
fn in_comment(byte: u8) -> Place
    ensures { result ≡ s.in_comment byte }
{
    if byte == b'*' {
        Place::Star
    } else {
        Place::Comment
    }
}

// Returns the place after `*` and a byte of a comment.
fn after_star(byte: u8) -> Place
    ensures { result ≡ s.after_star byte }
{
    if byte == b'/' {
        Place::Plain
    } else {
        in_comment(byte)
    }
}

// Returns the place after a byte of a string.
fn in_string(quote: u8, byte: u8) -> Place
    ensures { result ≡ s.in_string quote byte }
{
    if byte == quote || byte == b'\n' || byte == b'\x0c' || byte == b'\r' {
        Place::Plain
    } else if byte == b'\\' {
        Place::QuotedEscape(quote)
    } else {
        Place::Quoted(quote)
    }
}

// Returns true for a byte of a word.
fn is_word_byte(byte: u8) -> bool
    ensures { result ≡ s.is_word_byte byte }
{
    byte.is_ascii_alphabetic() || byte == b'-'
}

// A style that is read byte by byte.
#[derive(Drop)]
struct StyleReader {
    place: Place,
    // The brackets that close what is open; the innermost is last.
    closers: Vec<u8>,
    word: String,
    declaration: Declaration,
    winner: Winner,
}

impl Model for StyleReader {
    ghost use Rattle.std.specs.Prelude.{reverse, string_bytes};
    ghost use Rattle.h5_page.specs.Styles.{Style};

    ghost Value = { Style };

    ghost view = { λ reader. record { place = reader.place; closers = reverse reader.closers.items; word = string_bytes reader.word; declaration = reader.declaration; winner = reader.winner } };
}

impl StyleReader {
    fn new(alloc: Global) -> StyleReader
        ensures { result ≡ s.nothing_read }
    {
        StyleReader {
            place: Place::Plain,
            closers: Vec::new(alloc),
            word: String::new(alloc),
            declaration: Declaration::Start,
            winner: Winner::nothing(),
        }
    }

    // Takes a token; in brackets it isn't counted.
    fn take(&mut self, token: Token)
        ensures { self.new ≡ s.taken token self.old }
    {
        if self.closers.is_empty() {
            self.declaration = self.declaration.next(token);
        }
    }

    // Ends a word.
    fn end_word(&mut self)
        ensures { self.new ≡ s.worded self.old }
    {
        if !self.word.is_empty() {
            let token = word_token(self.word.as_str());
            self.word.clear();
            self.take(token);
        }
    }

    // Ends a declaration, unless in brackets.
    fn end_declaration(&mut self)
        ensures { self.new ≡ s.declared self.old }
    {
        if self.closers.is_empty() {
            self.winner = self.winner.with_declaration(self.declaration);
            self.declaration = Declaration::Start;
        }
    }

    // Opens a bracket that this one closes.
    fn open(&mut self, closer: u8) -> Result<(), AllocError>
        ensures { OnOk result (self.new ≡ s.opened closer self.old) }
    {
        self.take(Token::Other);
        self.closers.push(closer)?;
        Ok(())
    }

    // Closes the innermost bracket, if it is this one that closes it.
    fn close(&mut self, byte: u8) -> bool
        ensures closes { result ≡ s.is_first byte self.old.closers }
        ensures closed { self.new ≡ (if result then record self.old { closers = s.without_first self.old.closers } else self.old) }
    {
        match self.closers.last() {
            Some(closer) if *closer == byte => {
                let _ = self.closers.pop();
                true
            }
            _ => false,
        }
    }

    // Reads a byte that isn't part of a word, nor a bracket.
    fn read_other(&mut self, byte: u8)
        ensures { self.new ≡ s.with_other byte self.old }
    {
        if byte == b';' {
            self.end_declaration();
        } else if byte == b':' {
            self.take(Token::Colon);
        } else if byte == b'!' {
            self.take(Token::Bang);
        } else if !byte.is_ascii_whitespace() {
            self.take(Token::Other);
        }
    }

    // Reads a byte that may be a bracket.
    fn read_bracket(&mut self, byte: u8) -> Result<(), AllocError>
        ensures { OnOk result (self.new ≡ s.with_bracket byte self.old) }
    {
        if byte == b'(' {
            return self.open(b')');
        }
        if byte == b'[' {
            return self.open(b']');
        }
        if byte == b'{' {
            return self.open(b'}');
        }
        if !self.close(byte) {
            self.read_other(byte);
        }
        Ok(())
    }

    // Reads a byte that isn't part of a word.
    fn read_sign(&mut self, byte: u8) -> Result<(), AllocError>
        ensures { OnOk result (self.new ≡ s.with_sign byte self.old) }
    {
        if byte == b'/' {
            self.place = Place::Slash;
        } else if byte == b'"' || byte == b'\'' {
            self.take(Token::Other);
            self.place = Place::Quoted(byte);
        } else if byte == b'\\' {
            self.take(Token::Other);
            self.place = Place::Escape;
        } else {
            return self.read_bracket(byte);
        }
        Ok(())
    }

    // Reads a byte in no comment, string or escape.
    fn read_plain(&mut self, byte: u8) -> Result<(), AllocError>
        ensures { OnOk result (self.new ≡ s.with_plain byte self.old) }
    {
        if is_word_byte(byte) {
            self.word.push(byte.to_ascii_lowercase() as char)?;
            return Ok(());
        }
        self.end_word();
        self.read_sign(byte)
    }

    // Reads a byte after `/`.
    fn read_after_slash(&mut self, byte: u8) -> Result<(), AllocError>
        ensures { OnOk result (self.new ≡ s.after_slash byte self.old) }
    {
        if byte == b'*' {
            self.place = Place::Comment;
            return Ok(());
        }
        self.take(Token::Other);
        self.place = Place::Plain;
        self.read_plain(byte)
    }

    // Reads a byte.
    fn read(&mut self, byte: u8) -> Result<(), AllocError>
        ensures { OnOk result (self.new ≡ s.with_byte byte self.old) }
    {
        match self.place {
            Place::Plain => return self.read_plain(byte),
            Place::Slash => return self.read_after_slash(byte),
            Place::Comment => self.place = in_comment(byte),
            Place::Star => self.place = after_star(byte),
            Place::Quoted(quote) => self.place = in_string(quote, byte),
            Place::QuotedEscape(quote) => self.place = Place::Quoted(quote),
            Place::Escape => self.place = Place::Plain,
        }
        Ok(())
    }

    // Ends the text, and returns true if `display` is `none`.
    fn finish(mut self) -> bool
        ensures { result ≡ s.is_none_after (s.ended self) }
    {
        if let Place::Slash = self.place {
            self.take(Token::Other);
        }
        self.end_word();
        self.winner.with_declaration(self.declaration).is_none
    }
}

/// Returns true if a style hides its element: if `display` is `none`. Fails with `AllocError` if an allocation fails.
pub fn hides(alloc: Global, style: &str) -> Result<bool, AllocError>
    ensures { IfOk result (λ is_hidden. is_hidden ≡ s.hides style.now) }
{
    let mut reader = StyleReader::new(alloc);
    for byte in style.as_bytes() {
        reader.read(*byte)?;
    }
    Ok(reader.finish())
}
