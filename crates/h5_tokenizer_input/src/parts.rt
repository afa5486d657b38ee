//! The size of the parts in which long texts are copied.
ghost use Rattle.std.specs.Prelude.{◌<◌};

/// Returns how many bytes of a text are copied at a time: a 128th of it, but at least 64 KiB. So a copy takes little extra
/// memory, and the parts are few.
pub fn part_size(length: usize) -> usize
    ensures { 0 < result }
{
    (length / 128).max(65_536)
}
