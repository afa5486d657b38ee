//! The program `h5`, a thin layer over [`h5_commands::run`], which has the commands.
//!
//! It reads its arguments, passes them with standard input, output and error, and ends with the returned status. Its output is defined in
//! `specs/Printed.antt` of `h5_commands`.
#![tactic(auto)]

use std::process::ExitCode;
use std::{env, io};

// The arguments, without the program's name.
fn words_of(rt: &HostRuntime) -> io::Result<Vec<String>> {
    let mut words = Vec::new(rt.alloc());
    for word in env::args(rt)?.skip(1) {
        words.push(word)?;
    }
    Ok(words)
}

fn main(rt: HostRuntime) -> ExitCode {
    let status = match words_of(&rt) {
        Ok(words) => h5_commands::run(
            rt.alloc(),
            words.as_slice(),
            rt.reader(),
            &mut rt.stdout(),
            &mut rt.stderr(),
        ),
        Err(error) => h5_commands::refuse_words(&error, &mut rt.stderr()),
    };
    ExitCode::from(status)
}
