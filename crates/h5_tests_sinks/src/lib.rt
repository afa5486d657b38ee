//! Test doubles for tests and programs: tree sinks, token sinks and a writer that fails; and checks of an arena and of a serializer that
//! has failed.
//!
//! `attaching` has sinks that attach shadow roots, and `starved` a sink with one failing allocation; both are lawful. `recorder` and
//! `closing` are token sinks, with the replies in `answer`; `broken` is the writer. `forest`, `html` and `failing` have the checks. The
//! crates of tests use these. Begin with `specs/Answers.antt` and `src/recorder.rt`.
#![tactic(auto)]

mod answer;
mod attaching;
mod broken;
mod closing;
mod failing;
mod forest;
mod html;
mod recorder;
mod starved;

pub use answer::Answer;
pub use attaching::{Agreeing, Attaching, Detaching};
pub use broken::Broken;
pub use closing::{Closing, Counting};
pub use failing::all_calls_fail;
pub use forest::is_forest;
pub use html::html_of;
pub use recorder::Recorder;
pub use starved::Starved;
