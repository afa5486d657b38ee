//! The two stacks of numbers of an index: they grow together, or not at all.
ghost use Rattle.std.specs.Prelude.{◌≡◌, ◌∷◌, ◌++◌, [], OnErr, OnOk};
ghost use Rattle.h5_builder_state.specs.Numbered.{one_of};

use crate::NumberedStack;
use std::alloc::AllocError;

/// Pushes a number onto each. If an allocation fails, both stay as they were.
pub(super) fn push_both(
    numbers: &mut NumberedStack<()>,
    keys: &mut NumberedStack<()>,
    number: u32,
    key: u32,
) -> Result<(), AllocError>
    ensures numbers { OnOk result (numbers.new ≡ numbers.old ++ one_of number tt ∷ []) }
    ensures keys { OnOk result (keys.new ≡ keys.old ++ one_of key tt ∷ []) }
    ensures same_numbers { OnErr result (numbers.new ≡ numbers.old) }
    ensures same_keys { OnErr result (keys.new ≡ keys.old) }
{
    let count = numbers.len();
    numbers.push(number, ())?;
    let pushed = keys.push(key, ());
    if pushed.is_err() {
        numbers.truncate(count);
    }
    pushed
}
