//! Compares the results of a case with the expected ones.
use super::case::{Case, Expected, Part};
use super::made::Made;
use super::refusals::{Ending, refused_cuts_of, run_refused};
use super::run::{Cut, cuts_of, places_of, run};
use anyhow::Result;
use std::io;

/// The greatest number of runs of a case in which a call fails.
const MOST_REFUSED: usize = 1_000;

/// The parts that are compared.
#[derive(Clone, Copy)]
enum Scope {
    All,
    /// The parts that don't depend on how texts are split.
    AnyCut,
    /// The parts that belong to the tree.
    Tree,
}

impl Scope {
    fn has(self, part: Part) -> bool {
        match self {
            Scope::All => true,
            Scope::AnyCut => part.is_of_any_cut(),
            Scope::Tree => part.is_of_tree(),
        }
    }
}

// Returns true if each of these lines is a line of a text.
fn holds_lines(text: &str, lines: &str) -> bool {
    lines
        .lines()
        .all(|line| text.lines().any(|other| other == line))
}

// Returns true if a part is as expected. Of turns, only the given lines are compared; any replies are compared in any order.
fn is_met(expected: &Expected, got: &str) -> bool {
    let wanted = expected.text.as_str();
    match expected.part {
        Part::Turns => holds_lines(got, wanted),
        Part::AnyReplies => holds_lines(got, wanted) && holds_lines(wanted, got),
        _ => wanted == got,
    }
}

fn print_difference(
    rt: &impl Print,
    place: &str,
    cut: Cut,
    expected: &Expected,
    got: &str,
) -> io::Result<()> {
    let Expected { part, text } = expected;
    println!(rt; "{place}\n{part}, read {cut}; wanted:\n{text}\ngot:\n{got}\n")
}

// Returns true if a part is as expected, and prints it if not.
fn is_part_wanted(
    rt: &(impl Print + AllocGlobal),
    place: &str,
    cut: Cut,
    expected: &Expected,
    made: &Made,
) -> Result<bool> {
    let got = made.part(rt.alloc(), expected.part)?;
    if is_met(expected, got.as_str()) {
        return Ok(true);
    }
    print_difference(rt, place, cut, expected, got.as_str())?;
    Ok(false)
}

// Returns true if the parts in this scope are as expected, and prints those that aren't.
fn is_wanted(
    rt: &(impl Print + AllocGlobal),
    place: &str,
    case: &Case,
    cut: Cut,
    made: &Made,
    scope: Scope,
) -> Result<bool> {
    let mut agrees = true;
    for expected in &case.expected {
        if scope.has(expected.part) {
            agrees &= is_part_wanted(rt, place, cut, expected, made)?;
        }
    }
    Ok(agrees)
}

// Returns true if a case's results with this split are as expected, and prints those that aren't.
fn agrees_in(rt: &(impl Print + AllocGlobal), place: &str, case: &Case, cut: Cut) -> Result<bool> {
    let made = run(rt.alloc(), case, cut)?;
    let scope = match cut {
        Cut::Whole => Scope::All,
        _ => Scope::AnyCut,
    };
    is_wanted(rt, place, case, cut, &made, scope)
}

// Returns true if they are for any split of the text in two.
fn agrees_in_two(rt: &(impl Print + AllocGlobal), place: &str, case: &Case) -> Result<bool> {
    let mut agrees = true;
    for bytes in 0..places_of(&case.input) {
        agrees &= agrees_in(rt, place, case, Cut::After(bytes))?;
    }
    Ok(agrees)
}

// Returns true if they are for all other splits.
fn agrees_in_each(rt: &(impl Print + AllocGlobal), place: &str, case: &Case) -> Result<bool> {
    let mut agrees = true;
    for cut in cuts_of(&case.input) {
        agrees &= agrees_in(rt, place, case, *cut)?;
    }
    Ok(agrees)
}

// Judges a run in which a call of the sink may fail: returns nothing if one failed as it should, since more runs follow, and else whether
// the run is right. Prints what is wrong.
fn judge(
    rt: &(impl Print + AllocGlobal),
    place: &str,
    case: &Case,
    cut: Cut,
    before: usize,
) -> Result<Option<bool>> {
    match run_refused(rt.alloc(), case, cut, before)? {
        Ending::Refused => Ok(None),
        Ending::Whole(made) if before > 0 => {
            Ok(Some(is_wanted(rt, place, case, cut, &made, Scope::Tree)?))
        }
        _ => {
            println!(rt; "{place}\nread {cut}, refused behind {before} calls: wrong\n")?;
            Ok(Some(false))
        }
    }
}

// Lets each call of the sink fail in turn, with this split, until no call fails in a run. Returns true if all calls returned what they
// should and the last run makes the tree. Prints what is wrong.
fn agrees_refused_in(
    rt: &(impl Print + AllocGlobal),
    place: &str,
    case: &Case,
    cut: Cut,
) -> Result<bool> {
    for before in 0..MOST_REFUSED {
        if let Some(agrees) = judge(rt, place, case, cut, before)? {
            return Ok(agrees);
        }
    }
    println!(rt; "{place}\nread {cut}: each run was refused\n")?;
    Ok(false)
}

// Returns true if that holds for each split with which calls are to fail.
fn agrees_refused(rt: &(impl Print + AllocGlobal), place: &str, case: &Case) -> Result<bool> {
    let mut agrees = true;
    if case.settings.refuses_each {
        for cut in refused_cuts_of(&case.input) {
            agrees &= agrees_refused_in(rt, place, case, *cut)?;
        }
    }
    Ok(agrees)
}

// Returns true if the results of a case are as expected for all splits, and prints those that aren't.
fn agrees_at(rt: &(impl Print + AllocGlobal), place: &str, case: &Case) -> Result<bool> {
    let mut agrees = agrees_in_each(rt, place, case)?;
    agrees &= agrees_in_two(rt, place, case)?;
    agrees &= agrees_refused(rt, place, case)?;
    Ok(agrees)
}

/// Returns true if the results of a case of this file are as expected for all splits, and prints those that aren't.
pub fn agrees(rt: &(impl Print + AllocGlobal), file: &str, case: &Case) -> Result<bool> {
    let Case { line, about, .. } = case;
    let place = format!(in rt.alloc(); "{file}:{line}: {about}")?;
    agrees_at(rt, place.as_str(), case)
}
