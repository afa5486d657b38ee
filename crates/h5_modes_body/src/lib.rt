//! The rules of "in body" and of the modes after it (HTML standard, sections 13.2.6.4.7, .17 and .20).
//!
//! `in_body` chooses the row of a token by its kind and name. The rows of one family are in one file: `blocks`,
//! `lists`, `formatting`, `marked` (`applet`, `marquee`, `object`), `ruby`, `foreign` (`math`, `svg`), `raw_texts`
//! (`textarea` and others), `body_text`, `form`, `button`, `input` (also `hr`, `image`, `param`, `source`, `track`) and
//! `select` (also `option`, `optgroup`). `opens` has the last steps that several of them share; `hidden` tests for a
//! hidden input, also for tables. `after_body` and `after_after_body` are the modes that follow.
//!
//! The crate depends on `h5_builder_actions`, and on `h5_modes_head`, whose rules handle the tags of the head. The contract
//! of each step is the rule of its mode, followed unless an allocation fails; then the step returns `AllocError`, and
//! the state is sound. Begin with `src/in_body.rt`.
#![tactic(auto)]

mod after_after_body;
mod after_body;
mod blocks;
mod body_text;
mod button;
mod foreign;
mod form;
mod formatting;
mod hidden;
mod in_body;
mod input;
mod lists;
mod marked;
mod opens;
mod raw_texts;
mod ruby;
mod select;

pub use after_after_body::step_after_after_body;
pub use after_body::step_after_body;
pub use body_text::in_body_text;
pub use hidden::is_type_hidden;
pub use in_body::{in_body_tag, step_in_body};
