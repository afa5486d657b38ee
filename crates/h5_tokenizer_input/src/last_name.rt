//! The name of the last start tag.
ghost use Rattle.std.specs.Prelude.{◌≡◌, string_bytes};

use h5_names::LocalName;
use std::marker::Model;

// Where the name comes from.
#[derive(Drop)]
enum Origin {
    Given(String),
    Read(LocalName),
}

/// The name of the last start tag, or the empty text if there is none. It comes from the options or from a tag that was read.
#[derive(Drop)]
pub struct LastName {
    origin: Origin,
}

impl Model for LastName {
    ghost use Rattle.std.specs.Prelude.{List, ℕ};
    ghost use Rattle.h5_tokenizer_input.specs.LastName.{last_text};

    ghost Value = { List ℕ };

    ghost view = { λ last. last_text last.origin };
}

impl LastName {
    /// Makes a name of a given text. Allocates nothing.
    pub fn given(text: String) -> LastName
        ensures { result ≡ string_bytes text }
    {
        LastName {
            origin: Origin::Given(text),
        }
    }

    /// Makes the name of a tag that was read.
    pub fn read(name: LocalName) -> LastName
        ensures { result ≡ name }
    {
        LastName {
            origin: Origin::Read(name),
        }
    }

    /// Returns the text of the name.
    pub fn as_str(&self) -> &str
        ensures { result.now ≡ self.now }
    {
        match &self.origin {
            Origin::Given(text) => text.as_str(),
            Origin::Read(name) => name.as_str(),
        }
    }
}
