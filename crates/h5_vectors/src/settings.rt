//! The settings of a parser or a tree builder.
use anyhow::{Result, bail};
use h5_driver::ParseOpts;
use h5_interface::QuirksMode;
use h5_plain_tokenizer::TokenizerOpts;
use h5_tables::TreeBuilderOpts;

/// The one who makes the context element.
#[derive(Clone, Copy)]
pub enum Maker {
    /// The parser makes it, from its name.
    Parser,
    /// The caller makes it, and passes it to the parser.
    Caller,
}

/// The context of a fragment.
#[derive(Drop)]
pub struct Context {
    /// Its name, after `svg ` or `math ` for such an element.
    pub name: String,
    pub maker: Maker,
}

/// The context of a fragment, if there is one, and options.
pub struct Settings {
    pub context: Option<Context>,
    pub discard_bom: bool,
    pub tree_builder: TreeBuilderOpts,
    /// True if each call of the sink that may allocate also fails in turn.
    pub refuses_each: bool,
}

impl Drop for Settings {
    fn drop(self) {
        let Settings {
            context: _context,
            discard_bom: _discard_bom,
            tree_builder: _tree_builder,
            refuses_each: _refuses_each,
        } = self;
    }
}

impl Settings {
    /// A document, with the default options.
    pub fn new() -> Settings {
        Settings {
            context: None,
            discard_bom: true,
            tree_builder: TreeBuilderOpts::default(),
            refuses_each: false,
        }
    }

    // Sets the option with this name.
    fn set_option(&mut self, line: u64, word: &str) -> Result<()> {
        match word {
            "exact_errors" => self.tree_builder.exact_errors = true,
            "iframe_srcdoc" => self.tree_builder.iframe_srcdoc = true,
            "drop_doctype" => self.tree_builder.drop_doctype = true,
            "quirks" => self.tree_builder.quirks_mode = QuirksMode::Quirks,
            "limited_quirks" => self.tree_builder.quirks_mode = QuirksMode::LimitedQuirks,
            "keep_bom" => self.discard_bom = false,
            _ => bail!("line {line}: no option is called {word}"),
        }
        Ok(())
    }

    /// Sets the options with these names; `line` is the number of the line above.
    pub fn set_options(&mut self, line: u64, words: &str) -> Result<()> {
        for word in words.split_ascii_whitespace() {
            self.set_option(line, word)?;
        }
        Ok(())
    }

    /// Returns true if scripting is enabled, also for a context element.
    pub fn scripting(&self) -> bool {
        self.tree_builder.scripting_enabled
    }

    /// The options as a parser takes them.
    pub fn parse_opts(&self) -> ParseOpts {
        ParseOpts {
            tokenizer: TokenizerOpts {
                discard_bom: self.discard_bom,
                ..TokenizerOpts::default()
            },
            tree_builder: self.tree_builder,
        }
    }
}
