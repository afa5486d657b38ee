//! Equivalence of a token sink's meanings.

/// A relation between views of a sink's meaning, for the law that it doesn't matter how the input is split. It has no code.
pub trait Likeness {
    ghost Seen: { Type 0 };

    ghost alike: { Seen → Seen → Type 0 };
}
