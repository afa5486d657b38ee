//! Tables of names.
ghost use Rattle.std.specs.Prelude.{◌≡◌};
ghost use Rattle.h5_tables.specs.Tables.{by_text};
ghost use Rattle.h5_tables.specs.AdjustedNames.{found_at};

// The value of a name in a table, if there is one.
pub fn find<T: Copy>(table: &[(&str, T)], name: &str) -> Option<T>
    ensures { result ≡ found_at (by_text table.now) name.now }
{
    for &(key, value) in table {
        if name == key {
            return Some(value);
        }
    }
    None
}
