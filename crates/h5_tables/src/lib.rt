//! Types, sets and tables of tree construction.
//!
//! Types: `modes` has the insertion modes (HTML standard, section 13.2.4.1), `turns` the tokens that take turns, and how a turn ends,
//! `entry` an entry of the list of active formatting elements (section 13.2.4.3), and `options` the options of a tree builder.
//!
//! Sets: each has exactly the elements of its list in `specs/TagSets.antt`. `name_sets` has sets of local names, each a bit of a known
//! name's flags. `sets` tests names and elements for each set; `element_sets` has sets as values.
//!
//! Tables: `svg_tags`, `attribute_names` and `attributes` adjust names in SVG and MathML (section 13.2.6.1), with `table` and `place`.
//! `identifiers` and `doctypes` judge a doctype (section 13.2.6.4.1). `meta_encoding` reads the `content` of a `meta` (section 13.2.3.2).
//! `tree_errors` has the parse errors of the rules, with their messages and names, and `unexpected` those of tokens that a mode doesn't expect.
//!
//! This crate depends on h5_names, h5_token, h5_interface and h5_markup. The serializer, the rules and the tree builder use it. Begin with
//! `specs/TagSets.antt`: each set as the standard has it. `specs/AdjustedNames.antt`, `specs/Doctypes.antt`, `specs/MetaEncoding.antt` and
//! `specs/TreeErrors.antt` and `specs/Unexpected.antt` have the tables; `specs/TurnText.antt` has a token that takes turns.
#![tactic(auto)]

mod attribute_names;
mod attributes;
mod doctypes;
mod element_sets;
mod entry;
mod identifiers;
mod meta_encoding;
mod modes;
mod name_sets;
mod options;
mod place;
mod sets;
mod svg_tags;
mod table;
mod tree_errors;
mod turns;
mod unexpected;

pub use attributes::{adjust_foreign_attributes, adjust_mathml_attributes, adjust_svg_attributes};
pub use doctypes::doctype_error_and_quirks;
pub use element_sets::ElementSet;
pub use entry::FormatEntry;
pub use meta_encoding::extract_a_character_encoding_from_a_meta_element;
pub use modes::{InsertionMode, SplitStatus};
pub use name_sets::{NameSet, NameSets};
pub use options::TreeBuilderOpts;
pub use sets::{
    body_end_ok, button_scope, cursory_implied_end, default_scope, formatting_tag,
    head_content_tag, heading_tag, is_html, is_html_known, is_html_local, list_item_scope,
    mathml_text_integration_point, sets_of, special_tag, svg_html_integration_point,
    table_body_context, table_outer, table_row_context, table_scope, td_th, thorough_implied_end,
};
pub use svg_tags::adjust_svg_tag_name;
pub use tree_errors::TreeError;
pub use turns::{ProcessResult, Token};
