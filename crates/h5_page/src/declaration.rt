//! The declarations of `display` in a style.
ghost use Rattle.std.specs.Prelude.{◌≡◌, false};
ghost use Rattle.h5_page.specs.Styles as s;

/// A token of a style, as far as a declaration of `display` needs it (CSS Syntax Level 3, section 4, "Tokenization").
#[derive(Clone, Copy, Debug)]
pub enum Token {
    /// The word `display`.
    Display,
    /// The word `none`.
    None,
    /// The word `important`.
    Important,
    /// Any other word.
    Word,
    /// `:`
    Colon,
    /// `!`
    Bang,
    /// Anything else, such as a string or a bracket.
    Other,
}

/// The declaration so far. The values are true if the value of `display` is `none`.
#[derive(Clone, Copy, Debug)]
pub enum Declaration {
    /// Nothing.
    Start,
    /// `display`.
    Name,
    /// The colon after it.
    Colon,
    /// The value.
    Value(bool),
    /// `!` after the value.
    Mark(bool),
    /// `!important` after the value.
    Important(bool),
    /// No declaration of `display`.
    Other,
}

/// The declaration of `display` that counts so far: if it is `none`, and if it is important.
#[derive(Clone, Copy, Debug)]
pub struct Winner {
    pub is_none: bool,
    pub is_important: bool,
}

/// Returns the token of a word in lower case.
pub fn word_token(word: &str) -> Token
    ensures { result ≡ s.word_token word.now }
{
    match word {
        "display" => Token::Display,
        "none" => Token::None,
        "important" => Token::Important,
        _ => Token::Word,
    }
}

// Returns the declaration after the first token of a value.
fn valued(token: Token) -> Declaration
    ensures { result ≡ s.valued token }
{
    match token {
        Token::None => Declaration::Value(true),
        Token::Display | Token::Important | Token::Word => Declaration::Value(false),
        Token::Colon | Token::Bang | Token::Other => Declaration::Other,
    }
}

// Returns the declaration after a value and a token.
fn after_value(is_none: bool, token: Token) -> Declaration
    ensures { result ≡ s.after_value is_none token }
{
    match token {
        Token::Bang => Declaration::Mark(is_none),
        Token::None => Declaration::Value(false),
        _ => valued(token),
    }
}

impl Declaration {
    /// Returns the declaration with one more token.
    pub fn next(self, token: Token) -> Declaration
        ensures { result ≡ s.next self token }
    {
        match (self, token) {
            (Declaration::Start, Token::Display) => Declaration::Name,
            (Declaration::Name, Token::Colon) => Declaration::Colon,
            (Declaration::Colon, _) => valued(token),
            (Declaration::Value(is_none), _) => after_value(is_none, token),
            (Declaration::Mark(is_none), Token::Important) => Declaration::Important(is_none),
            _ => Declaration::Other,
        }
    }
}

impl Winner {
    /// Returns the one before all declarations: the element is shown.
    pub fn nothing() -> Winner
        ensures { result ≡ record { is_none = false; is_important = false } }
    {
        Winner {
            is_none: false,
            is_important: false,
        }
    }

    /// Returns the one that counts after a further declaration.
    pub fn with_declaration(self, declaration: Declaration) -> Winner
        ensures { result ≡ s.with_declaration declaration self }
    {
        match declaration {
            Declaration::Value(_) if self.is_important => self,
            Declaration::Value(is_none) => Winner {
                is_none,
                is_important: false,
            },
            Declaration::Important(is_none) => Winner {
                is_none,
                is_important: true,
            },
            _ => self,
        }
    }
}
