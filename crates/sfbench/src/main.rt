//! The program `sfbench`: measures how fast indexes are built on a table of random rows.
//!
//! The library [`bench`] reads the words that the program is given, does what they ask for, and prints the figures. `main` only hands
//! the words and the standard streams in.
#![tactic(auto)]

use bench::{Failure, Figures, Options};
use std::process::ExitCode;
use std::{env, io};

/// The exit status of a run that gave its figures.
const DONE: u8 = 0;

/// The exit status of words that ask for nothing that can be run, and of a run that failed.
const FAILED: u8 = 2;

fn main(rt: HostRuntime) -> ExitCode {
    let status = match options(&rt) {
        Ok(options) => {
            let told = if options.threads {
                bench::by_threads(&rt, rt.alloc(), &options)
            } else {
                bench::by_turns(&rt, &options)
            };
            print(&rt, &options, told)
        }
        Err(status) => status,
    };
    ExitCode::from(status)
}

/// What the words ask for; else the exit status, once it is printed why nothing is run.
fn options(rt: &HostRuntime) -> Result<Options, u8> {
    let words = match words(rt) {
        Ok(words) => words,
        Err(error) => {
            let _ = eprintln!(rt; "sfbench: {error}");
            return Err(FAILED);
        }
    };
    match bench::read(rt.alloc(), words.as_slice()) {
        Ok(options) => Ok(options),
        Err(error) => Err(refuse(rt, &error)),
    }
}

/// The words that the program was given, its own name first.
fn words(rt: &HostRuntime) -> io::Result<Vec<String>> {
    let words = env::args(rt)?.collect(rt.alloc())?;
    Ok(words)
}

/// Prints a refusal of the words, or what they asked for, and answers the exit status.
fn refuse(rt: &HostRuntime, error: &clap::Error) -> u8 {
    match error.print(rt) {
        Ok(()) if !error.use_stderr() => DONE,
        _ => FAILED,
    }
}

/// Prints what a run told, or why it told nothing, and answers the exit status.
fn print(rt: &HostRuntime, options: &Options, told: Result<Figures, Failure>) -> u8 {
    let printed = match told {
        Ok(figures) => bench::print(rt.stdout(), rt.alloc(), options, &figures),
        Err(failure) => Err(failure),
    };
    match printed {
        Ok(()) => DONE,
        Err(failure) => {
            let _ = eprintln!(rt; "sfbench: {failure}");
            FAILED
        }
    }
}
