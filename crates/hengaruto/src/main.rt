//! The program `hengaruto`, which shows people what a page consists of.
//!
//! `h5_command_line` has the command line, `h5_input` reads pages, and `h5_policy` reads the policies that clean them. `output` has what a
//! subcommand prints, with the values of its own options, and `request` that and how pages are read; `policy_file` opens the file of a
//! policy. `run` reads each file, `answer` prints what a subcommand shows of a tree, `parts` writes HTML in parts, `charset` makes a page
//! declare UTF-8, `edit` edits a page, `select` prints what a selector matches, `errors` prints parse errors, `records` processes pages in JSON lines, `dress`
//! prepares lines for a terminal, and `progress` shows how much of a long input was read. Begin with `src/run.rt`.
#![tactic(auto)]

mod answer;
mod charset;
mod dress;
mod edit;
mod errors;
mod fault;
mod output;
mod parts;
mod policy_file;
mod progress;
mod records;
mod request;
mod run;
mod select;

use h5_command_line::command;
use run::run;
use std::env;
use std::io::Write;
use std::process::ExitCode;

// The arguments of the command line.
fn words_of(rt: &HostRuntime) -> anyhow::Result<Vec<String>> {
    let words: Vec<String> = env::args(rt)?.collect(rt.alloc())?;
    Ok(words)
}

fn main(rt: HostRuntime) -> anyhow::Result<ExitCode> {
    let alloc = rt.alloc();
    let Ok(words) = words_of(&rt) else {
        writeln!(
            rt.stderr(),
            "hengaruto: an argument isn't UTF-8, or out of memory"
        )?;
        return Ok(ExitCode::from(2));
    };
    let matches = match command(alloc)?.try_get_matches_from(words.as_slice()) {
        Ok(matches) => matches,
        Err(error) => {
            error.print(&rt)?;
            return Ok(ExitCode::from(error.exit_code() as u8));
        }
    };
    Ok(run(&rt, &matches))
}
