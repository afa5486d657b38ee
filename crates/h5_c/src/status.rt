//! The statuses of calls, and how bytes are returned to the caller.
ghost use Rattle.std.specs.Prelude.{◌≡◌, ◌≢◌, ◌++◌, ◌∷◌, [], IfOk, MatchResult, OnOk};
ghost use Rattle.h5_tree_block.specs.Packed.{bytes_of_words};
ghost use Rattle.h5_c.specs.Status.{HandsOut};

use std::alloc::AllocError;
use std::mem::forget;

pub(crate) const OK: u32 = 0;

/// An allocation failed, or a tree is too large for a block.
pub(crate) const NO_MEMORY: u32 = 1;

/// No such node, row or name.
pub(crate) const NO_NODE: u32 = 2;

/// The bytes aren't a block, or it isn't sound.
pub(crate) const BAD_BLOCK: u32 = 3;

/// A name or a selector that isn't UTF-8, or a namespace that has no elements.
pub(crate) const BAD_ARGUMENT: u32 = 4;

/// An invalid selector.
pub(crate) const BAD_SELECTOR: u32 = 5;

/// An invalid policy.
pub(crate) const BAD_POLICY: u32 = 6;

// Bytes and a NUL after them: C may read them as a string, and even an empty result has its own memory.
fn with_nul(bytes: Vec<u8>) -> Result<Vec<u8>, AllocError>
    ensures { IfOk result (λ all. all.items ≡ bytes.items ++ 0 ∷ []) }
{
    let mut bytes = bytes;
    bytes.push(0)?;
    Ok(bytes)
}

// Leaves bytes to the caller, which frees them with `free`.
fn hand_over(bytes: Vec<u8>, out: &mut *mut u8) {
    let mut bytes = bytes;
    *out = bytes.as_mut_ptr();
    forget(bytes);
}

/// Returns bytes to the caller, which frees them with `free`. If there are none because an allocation failed, nothing is returned.
pub(crate) fn give(made: Result<Vec<u8>, AllocError>, out: &mut *mut u8, length: &mut usize) -> u32
    ensures status { MatchResult made (λ bytes. HandsOut bytes.items result length.new) (λ _. result ≡ 1) }
    ensures kept { result ≢ 0 → length.new ≡ length.old }
{
    let Ok(bytes) = made else {
        return NO_MEMORY;
    };
    let count = bytes.len();
    let Ok(bytes) = with_nul(bytes) else {
        return NO_MEMORY;
    };
    *length = count;
    hand_over(bytes, out);
    OK
}

/// Appends words to bytes, in little-endian order.
pub(crate) fn put_words(bytes: &mut Vec<u8>, words: &[u32]) -> Result<(), AllocError>
    ensures { OnOk result (bytes.new.items ≡ bytes.old.items ++ bytes_of_words words.now) }
{
    for word in words {
        bytes.extend_from_slice(&word.to_le_bytes())?;
    }
    Ok(())
}
