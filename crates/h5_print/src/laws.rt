//! Laws of escapes and of printed trees. Each is the contract of a function that does nothing.
ghost use Rattle.std.specs.Prelude.{◌≡◌, ℕ, List, Some, false};
ghost use Rattle.h5_arena.specs.ArenaModel.{ArenaView};
ghost use Rattle.h5_print.specs.Escapes.{escape, is_raw, unescape};
ghost use Rattle.h5_print.specs.Printed.{IsTreeText};
ghost use Rattle.std.specs.List.{list_any};

/// If a text is written with its escapes and read, the result is the text.
pub fn what_was_written_is_read()
    ensures { (text : List ℕ) → unescape (escape text) ≡ Some text }
{}

/// If a text is read and written again, the result is what was read, unless that had one of the five bytes other than the backslash that
/// always have an escape.
pub fn what_was_read_is_written()
    ensures { (written text : List ℕ) → list_any is_raw written ≡ false → unescape written ≡ Some text →
        escape text ≡ written }
{}

/// A tree has at most one text.
pub fn a_tree_has_one_text()
    ensures { (a : ArenaView) (x y : List ℕ) → IsTreeText a x → IsTreeText a y → x ≡ y }
{}
