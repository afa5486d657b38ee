//! Options of the tokenizers.
ghost use Rattle.std.specs.Prelude.{◌≡◌, IfOk};
ghost use Rattle.h5_tokenizer_input.specs.Options.{beginning_in, options_text};

use h5_token::states::State;
use std::alloc::AllocError;

/// Options of a tokenizer.
#[derive(Debug, Drop)]
pub struct TokenizerOpts {
    /// Has no effect. It exists for compatibility with html5ever.
    pub exact_errors: bool,
    /// If true, a byte order mark at the start is skipped.
    pub discard_bom: bool,
    /// The initial state, instead of the data state.
    pub initial_state: Option<State>,
    /// The name of the last start tag before the input. An empty text stands for no name. The plain tokenizer compares it in
    /// any case. The standard tokenizer compares it unchanged with names in lower case, so a name with capitals ends no text
    /// there.
    pub last_start_tag_name: Option<String>,
}

impl Default for TokenizerOpts {
    ghost use Rattle.std.specs.Prelude.{◌≡◌};
    ghost use Rattle.h5_tokenizer_input.specs.Options.{default_options};

    ghost is_default = { λ opts. opts ≡ default_options };

    fn default() -> TokenizerOpts {
        TokenizerOpts {
            exact_errors: false,
            discard_bom: true,
            initial_state: None,
            last_start_tag_name: None,
        }
    }
}

impl TokenizerOpts {
    /// Returns a copy, with equal options.
    pub fn clone(&self) -> Result<TokenizerOpts, AllocError>
        ensures { IfOk result (λ opts. options_text opts ≡ options_text self.now) }
    {
        let last_start_tag_name = match &self.last_start_tag_name {
            Some(name) => Some(name.clone()?),
            None => None,
        };
        Ok(TokenizerOpts {
            exact_errors: self.exact_errors,
            discard_bom: self.discard_bom,
            initial_state: self.initial_state,
            last_start_tag_name,
        })
    }

    /// Returns the options with this initial state.
    pub fn beginning_in(self, state: State) -> TokenizerOpts
        ensures { result ≡ beginning_in state self }
    {
        let TokenizerOpts {
            exact_errors,
            discard_bom,
            initial_state: _,
            last_start_tag_name,
        } = self;
        TokenizerOpts {
            exact_errors,
            discard_bom,
            initial_state: Some(state),
            last_start_tag_name,
        }
    }
}
