//! Options of a parser.
ghost use Rattle.std.specs.Prelude.{◌≡◌, IfOk};
ghost use Rattle.h5_tokenizer_input.specs.Options.{options_text};

use h5_plain_tokenizer::TokenizerOpts;
use h5_tables::TreeBuilderOpts;
use std::alloc::AllocError;

/// Options of a parser: those of its tokenizer, and those of its tree builder.
#[derive(Debug, Drop)]
pub struct ParseOpts {
    pub tokenizer: TokenizerOpts,
    pub tree_builder: TreeBuilderOpts,
}

impl ParseOpts {
    /// Returns a copy, with equal options.
    pub fn clone(&self) -> Result<ParseOpts, AllocError>
        ensures tokenizer { IfOk result (λ opts. options_text opts.tokenizer ≡ options_text self.now.tokenizer) }
        ensures tree_builder { IfOk result (λ opts. opts.tree_builder ≡ self.now.tree_builder) }
    {
        Ok(ParseOpts {
            tokenizer: self.tokenizer.clone()?,
            tree_builder: self.tree_builder,
        })
    }
}

impl Default for ParseOpts {
    ghost use Rattle.std.specs.Prelude.{◌≡◌};
    ghost use Rattle.h5_driver.specs.Options.{default_options};

    ghost is_default = { λ opts. opts ≡ default_options };

    fn default() -> ParseOpts {
        ParseOpts {
            tokenizer: TokenizerOpts::default(),
            tree_builder: TreeBuilderOpts::default(),
        }
    }
}
