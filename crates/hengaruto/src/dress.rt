//! Prepares output for a terminal, and adds the name of its file.
use std::alloc::{AllocError, Global};

// Writes the start of each line.
fn begin_line(out: &mut String, front: Option<&str>) -> Result<(), AllocError> {
    if let Some(front) = front {
        out.push_str(front)?;
        out.push(':')?;
    }
    Ok(())
}

// A character as it is printed: a terminal gets no control characters.
fn shown(c: char, is_terminal: bool) -> char {
    if is_terminal && c.is_control() && c != '\n' && c != '\t' {
        '?'
    } else {
        c
    }
}

/// Lines, each after this text and a colon, if there is one, and each with a newline. For a terminal, control characters become `?`. Fails with
/// `AllocError` if an allocation fails.
pub fn dressed(
    alloc: Global,
    text: &str,
    front: Option<&str>,
    is_terminal: bool,
) -> Result<String, AllocError> {
    let mut out = String::new(alloc);
    let mut begins = true;
    for c in text.chars() {
        if begins {
            begin_line(&mut out, front)?;
        }
        out.push(shown(c, is_terminal))?;
        begins = c == '\n';
    }
    if !begins {
        out.push('\n')?;
    }
    Ok(out)
}
