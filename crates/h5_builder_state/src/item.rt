//! A value of a stack, with what the stack stores with it.

// A value, its number, and one more than the place of the next older value with the same number, or 0 if there is none.
#[derive(Drop)]
pub(super) struct Item<T> {
    pub(super) value: T,
    pub(super) number: u32,
    pub(super) older: u32,
}
