//! The tree builder (HTML standard, section 13.2.6, "Tree construction").
//!
//! `builder` has the builder over a sink, and `token_sink` makes it a token sink. `process_token` takes a token by its
//! kind, `process_all` a list of tokens. `dispatch` has the turns of a token, and `text` the runs of a text; `doctype`
//! handles doctypes, `refusal` has the tokens that a text refuses, and `end` has the end. `first_state` and `fragment`
//! make the first state of a builder of a document or of a fragment (section 13.4), and `queries` has the builder's
//! queries.
//!
//! The crate depends on `h5_builder_state`, on the crates of rules, whose steps it calls, and on the laws in `h5_builder_laws`. Begin
//! with `specs/Held.antt` and `specs/Builder.antt` (what contracts see of a builder), then read `src/builder.rt` and
//! `src/dispatch.rt`.
#![tactic(auto)]

mod active_formatting;
mod builder;
mod dispatch;
mod doctype;
mod end;
mod first_state;
mod foreign;
mod fragment;
mod open_elems;
mod process_all;
mod process_token;
mod queries;
mod refusal;
mod replies;
mod text;
mod token_sink;
mod turns_taken;

pub use active_formatting::ActiveFormattingIter;
pub use builder::TreeBuilder;
pub use h5_tables::TreeBuilderOpts;
pub use open_elems::{PushFlag, html_elem};
pub use replies::Reply;
