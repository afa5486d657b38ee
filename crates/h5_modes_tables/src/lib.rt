//! The insertion modes of tables (HTML standard, sections 13.2.6.4.9 to 13.2.6.4.15).
//!
//! Each mode has a file with its name: `in_table`, `in_table_text`, `in_caption`, `in_column_group`, `in_table_body`,
//! `in_row` and `in_cell`. `parts` has steps that they share: a part of a table is inserted into the newest element
//! that may hold it. `foster` has foster parenting (section 13.2.6.1).
//!
//! The crate depends on `h5_modes_head` and `h5_modes_body`, whose rules handle many tokens, and on `h5_builder_actions`. The
//! contract of each step is the rule of its mode, followed unless an allocation fails; then the step returns
//! `AllocError`, and the state is sound. The rules are in `h5_builder_spec`: begin with `specs/modes/InTable.antt` and
//! `specs/modes/Tables.antt` there, then read `src/in_table.rt`.
#![tactic(auto)]

mod foster;
mod in_caption;
mod in_cell;
mod in_column_group;
mod in_row;
mod in_table;
mod in_table_body;
mod in_table_text;
mod parts;

pub use in_caption::step_in_caption;
pub use in_cell::{in_cell_tag, step_in_cell};
pub use in_column_group::step_in_column_group;
pub use in_row::{in_row_tag, step_in_row};
pub use in_table::{begin_table_text, in_table_tag, step_in_table};
pub use in_table_body::{in_table_body_tag, step_in_table_body};
pub use in_table_text::{keep_table_text, leave_table_text, step_in_table_text};
