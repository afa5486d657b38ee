//! Tokens as lines of text, and trees and replies as text.
//!
//! A line is a word and, after a space, its operand. `D`, `S`, `E`, `T`, `C`, `N`, `P` and `Z` are the tokens, `Dp`, `Ds`, `Dq`, `A` and
//! `/` parts of the doctype or the tag above, and `X` is the call of `end`. Texts have the escapes `\n`, `\t`, `\f`, `\r`, `\0` and `\\`.
//! `items` parses the lines of a text, and `line` one line; `words` has the words, `parts` the parts, and `escapes` the escapes. `fault`
//! has the errors.
//!
//! `tree` prints the tree of an arena, and `nodes` the lines of one node, with the prefixes in `names`. `replies` prints quirks modes, and
//! replies to tokens. `laws` says that a tree has one text, and that escapes are read as they were written.
//!
//! This crate depends on h5_names, h5_token, h5_interface and h5_arena. `h5_commands` uses it, and so do `h5_tests` and `h5_vectors`. Begin
//! with `specs/Lines.antt`, `specs/Items.antt` and `src/items.rt`; or with `specs/Printed.antt` (the text of a tree) and `src/tree.rt`.
#![tactic(auto)]

mod escapes;
mod fault;
mod items;
pub mod laws;
mod line;
mod names;
mod nodes;
mod parts;
mod replies;
mod tree;
mod words;

pub use escapes::{read_escapes, write_escapes};
pub use fault::LineFault;
pub use items::{Item, parse};
pub use line::{Line, Part, parse_line};
pub use replies::{print_answer, print_quirks, print_refusal};
pub use tree::{print_tree, write_tree};
