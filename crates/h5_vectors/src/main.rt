//! Runs the cases of files, `h5_vectors FILE..`: each with its input whole, with every text in single characters and in single bytes, a
//! whole text in two chunks, split at each of its indices, and tokens as a list; and, if a case says so, with each call of the sink failing
//! in turn. Prints what differs, and then the number of cases and of those that differ. `data/README.md` describes the files.
//!
//! `cases`, `sections`, `repeats`, `inputs` and `draft` parse the cases of a file, and `settings` has the options of a case. `parsers`,
//! `texts`, `tokens`, `lists` and `run` run a case, `refusals` with calls that fail; `trees` and `made` have the results, and `compare`
//! compares them. Begin with `src/case.rt`; then read `src/compare.rt`.
#![tactic(auto)]

mod case;
mod cases;
mod compare;
mod draft;
mod inputs;
mod lists;
mod made;
mod parsers;
mod refusals;
mod repeats;
mod run;
mod sections;
mod settings;
mod texts;
mod tokens;
mod trees;

use anyhow::{Context, Result};
use case::Case;
use cases::cases_of;
use compare::agrees;
use std::process::ExitCode;
use std::{env, fs};

// The number of cases, and of those that differ.
#[derive(Drop)]
struct Tally {
    cases: u64,
    differing: u64,
}

fn run_cases(rt: &HostRuntime, file: &str, cases: &[Case], tally: &mut Tally) -> Result<()> {
    for case in cases {
        tally.cases = tally.cases.saturating_add(1);
        if !agrees(rt, file, case)? {
            tally.differing = tally.differing.saturating_add(1);
        }
    }
    Ok(())
}

fn run_text(rt: &HostRuntime, file: &str, text: &str, tally: &mut Tally) -> Result<()> {
    let cases = cases_of(rt.alloc(), text)?;
    run_cases(rt, file, cases.as_slice(), tally)
}

fn run_file(rt: &HostRuntime, file: &str, tally: &mut Tally) -> Result<()> {
    let text = fs::read_to_string(rt, file)?;
    run_text(rt, file, text.as_str(), tally)
}

// Runs the cases of a file. An error names the file.
fn run_named(rt: &HostRuntime, file: &str, tally: &mut Tally) -> Result<()> {
    run_file(rt, file, tally).context(format_args!("{file}"))
}

// Runs the cases of all files given as arguments.
fn run_files(rt: &HostRuntime) -> Result<Tally> {
    let mut tally = Tally {
        cases: 0,
        differing: 0,
    };
    for file in env::args(rt)?.skip(1) {
        run_named(rt, file.as_str(), &mut tally)?;
    }
    Ok(tally)
}

// Runs all cases, and prints their number. Returns true if none differs.
fn run_and_count(rt: &HostRuntime) -> Result<bool> {
    let tally = run_files(rt)?;
    let (cases, differing) = (tally.cases, tally.differing);
    println!(rt; "{cases} cases, {differing} differ")?;
    Ok(differing == 0)
}

fn main(rt: HostRuntime) -> ExitCode {
    match run_and_count(&rt) {
        Ok(true) => ExitCode::SUCCESS,
        Ok(false) => ExitCode::FAILURE,
        Err(error) => {
            let _ = eprintln!(rt; "{error:#}");
            ExitCode::FAILURE
        }
    }
}
