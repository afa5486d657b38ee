//! The state of a tree builder, and single steps over it (HTML standard, section 13.2.4, "Parse state"). The crate
//! depends on the definitions in `h5_builder_spec`. Begin with `specs/View.antt` (the world of a state and a sink),
//! `specs/Steps.antt` (the effect of a step on it), `src/state.rt` and `src/steps.rt`.
//!
//! The stack of open elements: `open_element` has an open element with its summary, by which tests of all open elements
//! need no walk (`push`, `replace`, `renew` keep it right); `newest`, `scopes`, `open_elems` and `find` test and search
//! the stack, `name_test` and `set_test` a name; `name_numbers` numbers the names. `turn` has what a turn leaves,
//! `errors` reports parse errors, `blanks` splits texts into runs, and `pending_text` buffers text of a table.
//!
//! The list of active formatting elements: `formatting_list`; begin with `specs/Listed.antt`. A long list has an
//! `index` of two stacks of numbers (`stacks`): by `numbers` of names `named` finds the newest entry of a name; by
//! `keys` (alike entries have the same key) `surplus` finds those that are alike to a tag.
//!
//! Below both: `numbered_stack`, a stack that has the place of the newest value of each number (begin with
//! `specs/Numbered.antt`), its `item`s and `places`, the `numbering` of texts, and `moves` within a vector.
#![tactic(auto)]

mod blanks;
mod errors;
mod find;
mod formatting_list;
mod index;
mod item;
mod keys;
mod moves;
mod name_numbers;
mod name_test;
mod named;
mod newest;
mod numbered_stack;
mod numbering;
mod numbers;
mod open_element;
mod open_elems;
mod pending_text;
mod places;
mod push;
mod renew;
mod replace;
mod scopes;
mod set_test;
mod stacks;
mod state;
mod steps;
mod surplus;
mod turn;

pub use blanks::{first_run, is_blank_text, set_frameset_ok_by_text};
pub use errors::{
    report_error, report_tag, report_token, tell_message, unexpected, unexpected_tag,
};
pub use find::{find_listed, find_open, handle_at, is_node_in_scope};
pub use formatting_list::FormattingList;
pub use moves::move_up;
pub use name_numbers::NameNumbers;
pub use name_test::{FosterParent, Known, Local, NameTest, NewestTest, Nothing};
pub use newest::{newest_among, newest_foreign, newest_html, newest_named, newest_scope_end};
pub use numbered_stack::{MAX_LEN, NumberedStack};
pub use numbering::Numbering;
pub use open_element::{AllOpen, Listed, OpenElement, OpenElements, Summary};
pub use open_elems::{
    all_open, check_body_end, find_named, generate_implied_end_except, has_body_in_scope,
    has_body_second, has_open_template, has_p_in_button_scope, is_current, is_current_html,
    is_html_at, is_named, name_at, open_at, open_count, open_templates, pop_until_named, pop_while,
    root_node, truncate,
};
pub use pending_text::PendingText;
pub use push::push_open;
pub use renew::{all_under, renew_from};
pub use replace::replace_open;
pub use scopes::{find_before_special, find_in_scope, in_scope_named};
pub use state::{State, Turn};
pub use steps::{
    current_listed, current_mode, current_node, has_form, has_srcdoc, is_fragment, is_frameset_ok,
    is_in_quirks, is_scripting, is_select_context, mark_started, pop, save_mode, saved_mode,
    set_foster, set_frameset_not_ok, set_ignore_lf, set_mode, set_quirks_mode, take_form,
};
pub use turn::{set_again, set_answer, take_again, take_answer};
