//! How a page is read.
use html_tree_builder::encodings::EncodingOpts;

/// How the bytes of a page are decoded, and how its text is parsed.
#[derive(Clone, Copy)]
pub struct InputOpts {
    /// How its encoding is found.
    pub encodings: EncodingOpts,
    /// True if scripting is on: then the content of `noscript` is text (HTML standard, section 13.2.4.5, "Other parsing state flags").
    pub scripting_enabled: bool,
}
