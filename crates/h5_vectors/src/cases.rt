//! The cases of a file.
use super::case::Case;
use super::draft::Draft;
use super::sections::{count_lines, sections_of};
use anyhow::{Result, bail};
use std::alloc::Global;

// Adds the sections of lines to a draft; `first` is the number of the first line.
fn take_sections(alloc: Global, draft: &mut Draft, first: u64, lines: &str) -> Result<()> {
    for section in sections_of(alloc, first, lines)? {
        draft.take(section)?;
    }
    Ok(())
}

// The case of these lines; `line` is the number of the line `#about` above them.
fn case_of(alloc: Global, line: u64, lines: &str) -> Result<Case> {
    let Some((about, below)) = lines.split_once("\n#") else {
        bail!("line {line}: the case has no section");
    };
    let mut draft = Draft::new(alloc, line, about)?;
    take_sections(alloc, &mut draft, line.saturating_add(2), below)?;
    draft.finish()
}

// Appends the cases of lines, the first of which is the second line of a file.
fn put_cases(alloc: Global, cases: &mut Vec<Case>, lines: &str) -> Result<()> {
    let mut line: u64 = 1;
    for lines in lines.split("\n\n#about\n") {
        cases.push(case_of(alloc, line, lines)?)?;
        line = line.saturating_add(count_lines(lines)).saturating_add(2);
    }
    Ok(())
}

/// Parses the cases of a file: each is from a line `#about` to the empty line before the next one, or to the end. An error names the
/// invalid line.
pub fn cases_of(alloc: Global, text: &str) -> Result<Vec<Case>> {
    let Some(behind) = text.strip_prefix("#about\n") else {
        bail!("line 1: no case begins");
    };
    let lines = behind.strip_suffix("\n").unwrap_or(behind);
    let mut cases = Vec::new(alloc);
    put_cases(alloc, &mut cases, lines)?;
    Ok(cases)
}
