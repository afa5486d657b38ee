//! The rules of the modes of templates and framesets (HTML standard, sections 13.2.6.4.16, 13.2.6.4.18, 13.2.6.4.19 and
//! 13.2.6.4.21), and the rules for tokens in foreign content (section 13.2.6.5).
//!
//! Each mode has a file with its name: `in_template`, `in_frameset`, `after_frameset` and `after_after_frameset`. The
//! tags `template` themselves are in `h5_modes_head`. Of foreign content, `step` has the turn of a token: its result,
//! or that the token is left to the rules of the insertion mode. `start_tags` and `end_tags` have the tags, and `names`
//! the names of the tags that leave foreign content. The test for foreign content is in `h5_builder_actions`.
//!
//! The crate depends on `h5_modes_head`, `h5_modes_body` and `h5_builder_actions`. The contract of each step is the rule of
//! its mode, followed unless an allocation fails; then the step returns `AllocError`, and the state is sound. Begin
//! with `specs/modes/InFrameset.antt` of `h5_builder_spec` and `src/in_frameset.rt`, then read
//! `specs/modes/ForeignContent.antt` of `h5_builder_spec`, `specs/ForeignSteps.antt` and `src/step.rt`.
#![tactic(auto)]

mod after_after_frameset;
mod after_frameset;
mod end_tags;
mod in_frameset;
mod in_template;
mod names;
mod start_tags;
mod step;

pub use after_after_frameset::step_after_after_frameset;
pub use after_frameset::step_after_frameset;
pub use in_frameset::step_in_frameset;
pub use in_template::step_in_template;
pub use step::{ForeignStep, step_foreign};
