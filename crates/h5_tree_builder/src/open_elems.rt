//! Helpers for open elements.
ghost use Rattle.std.specs.Prelude.{◌≡◌, ◌≢◌, [], Some, slice_get};

/// A new element is pushed onto the stack of open elements, or not.
#[derive(Clone, Copy, PartialEq, Eq, Debug)]
pub enum PushFlag {
    Push,
    NoPush,
}

/// Returns the root: the first of the open elements, with the oldest first. There must be one.
pub fn html_elem<Handle>(open_elems: &[Handle]) -> &Handle
    requires { open_elems.now ≢ [] }
    ensures { Some result.now ≡ slice_get open_elems.now 0 }
{
    &open_elems[0]
}
