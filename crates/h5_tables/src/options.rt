//! Options of a tree builder.
ghost use Rattle.std.specs.Prelude.{◌≡◌};

use h5_interface::QuirksMode;

/// Options of a tree builder.
#[derive(Clone, Copy, Debug, PartialEq, Eq)]
pub struct TreeBuilderOpts {
    /// True if the messages of parse errors have details.
    pub exact_errors: bool,
    /// True if scripting is enabled, which decides about the content of `noscript`.
    pub scripting_enabled: bool,
    /// True if the document is that of an `iframe` with `srcdoc`, which needs no doctype.
    pub iframe_srcdoc: bool,
    /// True if the doctype is left out of the tree.
    pub drop_doctype: bool,
    /// The quirks mode at the start.
    pub quirks_mode: QuirksMode,
}

impl Default for TreeBuilderOpts {
    ghost use Rattle.h5_tables.specs.Options.{default_options};

    ghost is_default = { λ opts. opts ≡ default_options };

    fn default() -> TreeBuilderOpts {
        TreeBuilderOpts {
            exact_errors: false,
            scripting_enabled: true,
            iframe_srcdoc: false,
            drop_doctype: false,
            quirks_mode: QuirksMode::NoQuirks,
        }
    }
}
