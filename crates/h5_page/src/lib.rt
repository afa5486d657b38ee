//! The text and the links of a page.
//!
//! `page_text` returns the text of a page as a browser shows it without a style sheet, and `page_links` its links, with their
//! texts; `page` makes the tree for both. `text_writer` receives the calls of a tree's walk: `display` has how an element is
//! shown, `attributes` what its attributes say about that, `style` if a `style` attribute hides it, by the declarations of
//! `declaration`, `open` the open elements, `begin` what is laid out at an element's beginning and end, `counts` the item counts
//! of lists, `number` the numbers of items, `layout` whitespace and lines, and `wrap` long lines. `links` receives the calls of a
//! walk, and collects links. `laws` has the laws that a page has one text and one list of links.
//!
//! This crate depends on the library `html_tree_builder`. Begin with `specs/Text.antt` (the text of a page),
//! `specs/Displays.antt`, `specs/Styles.antt`, `specs/Layout.antt` and `specs/Links.antt` (the links of a page), then
//! `src/page_text.rt`.
#![tactic(auto)]

mod attributes;
mod begin;
mod counts;
mod declaration;
mod display;
pub mod laws;
mod layout;
mod links;
mod number;
mod open;
mod page;
mod page_links;
mod page_text;
mod style;
mod text_writer;
mod wrap;

pub use links::Link;
pub use page_links::{links_of, links_of_page};
pub use page_text::{text_of, text_of_page, text_with};
pub use text_writer::{PageText, TextOpts};
