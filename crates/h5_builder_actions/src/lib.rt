//! Operations on the state: creating and inserting nodes (HTML standard, section 13.2.6.1), closing elements
//! (13.2.6.3), the list of active formatting elements (13.2.4.3), the adoption agency (13.2.6.4.7), and tests for
//! foreign content (13.2.6). It depends on `h5_builder_state`. The contract of each operation is a change of the world, made
//! unless an allocation fails; the state stays sound in any case. Begin with `src/place.rt` and `src/insert.rt`, then
//! `src/implied_ends.rt`, `src/reset.rt`, `src/create.rt`, `src/reconstruct.rt` and `src/agency.rt`. Definitions are in
//! `h5_builder_spec`; `specs/` has some of them by places.
//!
//! Inserting: `place`, `put`, `insert`; `form_owner`; `template`; `foreign_element` (SVG and MathML); `attributes`,
//! `head` and `table_text`. `foreign_content` tests if a token is foreign.
//!
//! Closing: `implied_ends` and `thorough_ends`; `expected` (the parse error if another node was current); `list_items`,
//! `options`, `tables`; `removal` (from anywhere on the stack); `leaving_foreign`; `frameset`; `reset` (13.2.4.1);
//! `template_modes`.
//!
//! Formatting: `create`, `markers`, `reconstruct`. Of the agency (`agency`), `find` has what it searches, `clones`,
//! `hang` and `moved_block` its changes of the tree, `relisting` and `stack` those of list and stack, and `round` a
//! whole round. `ends` removes elements from both, `walk` walks over entries, `questions` tests what would be closed.
#![tactic(auto)]

mod agency;
mod attributes;
mod clones;
mod create;
mod ends;
mod expected;
mod find;
mod foreign_content;
mod foreign_element;
mod form_owner;
mod frameset;
mod hang;
mod head;
mod implied_ends;
mod insert;
mod leaving_foreign;
mod list_items;
mod markers;
mod moved_block;
mod options;
mod place;
mod put;
mod questions;
mod reconstruct;
mod relisting;
mod removal;
mod reset;
mod round;
mod stack;
mod table_text;
mod tables;
mod template;
mod template_modes;
mod thorough_ends;
mod walk;

pub use agency::{adoption_agency, handle_misnested_a_tags};
pub use attributes::{add_attrs_to_html, add_attrs_to_second};
pub use create::create_formatting_element;
pub use expected::expect_to_close;
pub use foreign_content::{
    adjusted_current_node, is_current_left, is_current_node_surely_html, is_foreign,
    is_foreign_text,
};
pub use foreign_element::{
    insert_and_pop_foreign_element, insert_foreign_element, insert_foreign_for,
};
pub use frameset::{is_below_frameset, is_root_alone, remove_body};
pub use head::{known_head, push_head};
pub use implied_ends::{
    close_p_element, close_p_element_in_button_scope, find_heading_in_scope, find_in_default_scope,
    generate_implied_end_in_select, generate_implied_end_tags, is_current_heading, pop_heading,
    pop_until_heading,
};
pub use insert::{
    append_comment, append_comment_to_doc, append_comment_to_html, append_text, create_root,
    html_qual_name, insert_and_pop_element, insert_and_pop_form, insert_and_pop_tag,
    insert_element, insert_form, insert_head, insert_phantom, insert_script, insert_tag,
};
pub use leaving_foreign::{
    EndSearch, is_current_in_any_case, leave_foreign_content, pop_until_named_in_any_case,
    search_end,
};
pub use list_items::{ItemKind, close_list_item, find_li_in_list_item_scope};
pub use markers::{clear_active_formatting_to_marker, insert_marker};
pub use options::{copy_closed_option, oldest_option};
pub use place::{InsertionPoint, appropriate_place_for_insertion};
pub use put::insert_at;
pub use questions::{closes_one, is_named_listed};
pub use reconstruct::reconstruct_active_formatting_elements;
pub use removal::remove_from_stack;
pub use reset::reset_insertion_mode;
pub use table_text::{append_pending_text, take_pending_text};
pub use tables::{
    find_cell, find_in_table_scope, is_current_cell, is_current_table_outer, pop_until_cell,
    pop_until_current,
};
pub use template::insert_template;
pub use template_modes::{
    has_template_mode, pop_template_mode, push_template_mode, switch_template_mode,
};
pub use thorough_ends::generate_implied_end_thoroughly;
