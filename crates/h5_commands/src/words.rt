//! The arguments of a command.
ghost use Rattle.std.specs.Prelude.{◌≡◌, option_map};
ghost use Rattle.h5_commands.specs.Words.{command_named, command_of, command_text};

/// A command.
#[derive(Clone, Copy, Debug, PartialEq, Eq)]
pub enum Command<'a> {
    /// Lines of tokens to their tree.
    Tokens,
    /// A text to its tree.
    Tree,
    /// A text to its tree as a fragment, with an HTML element of this name as context.
    Fragment(&'a str),
    /// A text to the HTML of its tree.
    Html,
}

fn command_named<'a>(word: &str) -> Option<Command<'a>>
    ensures { option_map command_text result ≡ command_named word.now }
{
    match word {
        "tokens" => Some(Command::Tokens),
        "tree" => Some(Command::Tree),
        "html" => Some(Command::Html),
        _ => None,
    }
}

/// The command of these arguments: its name, or `tree` and the name of a context element.
pub fn command_of<'a>(words: &'a [String]) -> Option<Command<'a>>
    ensures { option_map command_text result ≡ command_of words.now }
{
    match words {
        [word] => command_named(word.as_str()),
        [word, context] => match word.as_str() {
            "tree" => Some(Command::Fragment(context.as_str())),
            _ => None,
        },
        _ => None,
    }
}
