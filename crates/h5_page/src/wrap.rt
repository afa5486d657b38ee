//! Wrapped lines.
ghost use Rattle.std.specs.Prelude.{◌≡◌, ◌++◌, ◌-◌, IfOk, OnOk, string_bytes};
ghost use Rattle.h5_page.specs.Wrapped as w;

use std::alloc::AllocError;
use unicode_width::UnicodeWidthStr;

/// Writes `count` spaces.
pub fn write_spaces(line: &mut String, count: usize) -> Result<(), AllocError>
    ensures { OnOk result (string_bytes line.new ≡ string_bytes line.old ++ w.spaces count) }
{
    for _place in 0..count {
        line.push(' ')?;
    }
    Ok(())
}

// Writes a word after others: in their line if it fits, or else on a new one. Returns the room that is left.
fn write_word(
    lines: &mut String,
    word: &str,
    room: usize,
    width: usize,
    hang: usize,
) -> Result<usize, AllocError>
    ensures text { OnOk result (string_bytes lines.new ≡ string_bytes lines.old ++ w.put width hang room word.now) }
    ensures room { IfOk result (λ left. left ≡ w.left width hang room word.now) }
{
    let columns = word.width();
    if columns < room {
        lines.push(' ')?;
        lines.push_str(word)?;
        return Ok(room.saturating_sub(1).saturating_sub(columns));
    }
    lines.push('\n')?;
    write_spaces(lines, hang)?;
    lines.push_str(word)?;
    Ok(width.saturating_sub(hang).saturating_sub(columns))
}

// Writes the words of a text after others.
fn write_words(
    lines: &mut String,
    text: &str,
    room: usize,
    width: usize,
    hang: usize,
) -> Result<(), AllocError>
    ensures { OnOk result (string_bytes lines.new ≡ string_bytes lines.old ++ w.filled width hang room (w.words text.now)) }
{
    let mut rest = text;
    let mut left = room;
    while let Some((word, behind)) = rest.split_once(' ') {
        left = write_word(lines, word, left, width, hang)?;
        // For the loop's next turn: `behind` is UTF-8.
        let _bytes = behind.as_bytes();
        rest = behind;
    }
    write_word(lines, rest, left, width, hang)?;
    Ok(())
}

/// Writes a line as lines of at most this width, as far as its words allow it. All except the first are indented.
pub fn write_wrapped(
    lines: &mut String,
    line: &str,
    width: usize,
    hang: usize,
) -> Result<(), AllocError>
    ensures { OnOk result (string_bytes lines.new ≡ string_bytes lines.old ++ w.wrapped width hang line.now) }
{
    let Some((word, behind)) = line.split_once(' ') else {
        lines.push_str(line)?;
        return Ok(());
    };
    let room = width.saturating_sub(word.width());
    lines.push_str(word)?;
    write_words(lines, behind, room, width, hang)?;
    Ok(())
}
