//! Moves a value within a vector.
ghost use Rattle.std.specs.Prelude.{◌≡◌, ◌<◌, ◌≤◌, length, slice_index_or, vec_len};
ghost use Rattle.std.specs.List.{insert, remove};

/// Moves the value at a place to another one, which must not be lower; those between move down by one. It doesn't
/// allocate.
pub fn move_up<T: Drop>(items: &mut Vec<T>, from: usize, to: usize)
    requires order { from ≤ to }
    requires inside { to < vec_len items.old }
    ensures moved { (one : T) → one ≡ slice_index_or items.old.items from one → items.new.items ≡ insert (remove items.old.items from) to one }
    ensures len { vec_len items.new ≡ vec_len items.old }
{
    let item = items.remove(from);
    // There is room for it.
    let _ = items.insert(to, item);
}
