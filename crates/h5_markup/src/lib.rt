//! The syntax of parts of HTML: names, attributes, doctypes, texts and their character references (HTML standard, section 13.1, "Writing
//! HTML documents", and those parts of section 13.2.5 that the plain tokenizer needs).
//!
//! `matches`, `needle` and `ending` look at the start of a text that may continue: is something there, and where does a tag, a comment or a
//! doctype end? `quoted` passes attributes in their common form, and `bare` finds and makes tags that have only a name. `cut` splits whole
//! texts. `text`, `attributes` and `doctypes` compute the meaning of a text, and of the inside of a tag or a doctype; `keeping` drops
//! duplicate attributes, `shared_names` makes names, and `plain` finds bytes that mean themselves.
//!
//! Each function returns what its definition in specs/ says.
//!
//! This crate depends on h5_names and h5_token. The tokenizers use it. Begin with `specs/Matching.antt` (found, not found, open) and
//! `specs/Cuts.antt`; then read `specs/Text.antt` and `src/text.rt`.
#![tactic(auto)]

mod attributes;
mod bare;
mod cut;
mod doctypes;
mod ending;
mod keeping;
mod matches;
mod needle;
mod plain;
mod quoted;
mod shared_names;
mod text;

pub use attributes::{Kept, read_attributes};
pub use bare::{find_bare, make_bare};
pub use cut::{Class, cut_at, skip};
pub use doctypes::make_doctype;
pub use ending::{Inside, Sought, seek_end};
pub use keeping::Keeping;
pub use matches::Match;
pub use needle::{literal, name_is, peek_letter, word};
pub use plain::{are_plain, is_plain, plain_len};
pub use shared_names::SharedNames;
pub use text::{cleaned, escape, newline, reference, text_of};
