//! The rules of the modes up to "after head", and of the mode "text" (HTML standard, sections 13.2.6.4.1 to 13.2.6.4.6
//! and 13.2.6.4.8), with elements whose content is text (section 13.2.6.2).
//!
//! Each mode has a file with its name. `in_head_start_tags` has the start tags of "in head", which the modes of the
//! body, of tables and of templates also use. `template` has the tags `template`, `encoding` the encoding that a `meta`
//! names, `raw_text` the step into the mode "text", and `html_start_tag` a start tag `html`, which most modes handle in
//! the same way.
//!
//! The crate depends on `h5_builder_actions`. The contract of each step is the rule of its mode, followed unless an
//! allocation fails; then the step returns `AllocError`, and the state is sound. Begin with `src/in_head.rt`: a token,
//! its row by kind and name, and the operations of that row.
#![tactic(auto)]

mod after_head;
mod before_head;
mod before_html;
mod encoding;
mod html_start_tag;
mod ignored;
mod in_head;
mod in_head_noscript;
mod in_head_start_tags;
mod initial_mode;
mod raw_text;
mod template;
mod text_mode;

pub use after_head::step_after_head;
pub use before_head::step_before_head;
pub use before_html::step_before_html;
pub use html_start_tag::in_body_start_html;
pub use ignored::ignored_tag;
pub use in_head::step_in_head;
pub use in_head_noscript::step_in_head_noscript;
pub use in_head_start_tags::in_head_start_tag;
pub use initial_mode::step_initial;
pub use raw_text::{parse_raw_data, to_raw_text_mode};
pub use template::{in_head_end_template, template_eof};
pub use text_mode::step_text_mode;
