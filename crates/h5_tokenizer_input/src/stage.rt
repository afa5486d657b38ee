//! The stage of a tokenizer: it reads, or it has ended or failed.

/// The stage of a tokenizer.
#[derive(Clone, Copy, Debug, PartialEq, Eq)]
pub enum Stage {
    Reading,
    /// The end was passed to the sink.
    Ended,
    /// A call failed.
    Failed,
}
