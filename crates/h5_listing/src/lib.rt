//! The listings of a page: its links, its headings and its metadata, with one line or one JSON object per item.
//!
//! `item` has an item and its forms, `words` has texts on one line, and `leads`, `outline` and `said` have the links, the headings and the
//! metadata. `entries` finds links and headings with their texts, in one walk of the tree. `nodes` and `tokens` write trees and tokens as
//! JSON. `record` reads pages in JSON lines, and writes their output lines; `member` finds a value in a line as it is written. The crate is
//! based on `html_tree_builder`; the program `hengaruto` uses it. No contract says what is listed: that is tested.
#![tactic(auto)]

mod entries;
mod item;
mod leads;
mod member;
mod nodes;
mod outline;
mod record;
mod said;
mod tokens;
mod words;

pub use item::{Form, Item, begin_object, print_items};
pub use leads::{all_links, base_of, links, references};
pub use nodes::node_lines;
pub use outline::headings;
pub use record::{NoPage, Page, Record, begin_answer, end_answer};
pub use said::about;
pub use tokens::token_lines;
pub use words::write_words;
