//! The program `sfbuild`: builds indexes, on the rows of a file or as a script tells it to.
//!
//! The library [`words`] reads the words that the program is given. [`csv_index`] builds the indexes of a file, [`replay`] runs a script
//! or looks at it, [`script_picture`] draws its run, [`race`] runs one in threads, and [`shell`] answers it record by record. `main` only
//! hands the file and the standard streams in.
#![tactic(auto)]

use command_line::{Choice, IndexWords, Task};
use race::ProgressLine;
use replay::Status;
use script::ScriptError;
use std::fs::File;
use std::io::{IsTerminal, Read};
use std::process::ExitCode;
use std::sync::Wait;
use std::thread::Threads;
use std::{env, io};

fn main(rt: HostRuntime) -> ExitCode {
    let status = match given(&rt) {
        Ok(words) => obey(&rt, &rt, words.as_slice()),
        Err(error) => {
            let _ = eprintln!(rt; "sfbuild: {error}");
            Status::Failed as u8
        }
    };
    ExitCode::from(status)
}

/// The words that the program was given, its own name first.
fn given(rt: &HostRuntime) -> io::Result<Vec<String>> {
    let words = env::args(rt)?.collect(rt.alloc())?;
    Ok(words)
}

/// Does what the words ask for, and answers the program's exit status.
fn obey<A: Threads + Wait + Sync>(rt: &HostRuntime, threads: &A, words: &[String]) -> u8 {
    match command_line::read(rt.alloc(), words) {
        Ok(Choice::Script { task, script }) => run(rt, threads, task, script),
        Ok(Choice::Index(words)) => index(rt, threads, &words),
        Ok(Choice::Shell) => converse(rt),
        Err(error) => print(rt, &error),
    }
}

/// Prints a refusal of the words, or what they asked for, and answers the exit status.
fn print(rt: &HostRuntime, error: &clap::Error) -> u8 {
    match error.print(rt) {
        Ok(()) if !error.use_stderr() => Status::Done as u8,
        _ => Status::Failed as u8,
    }
}

/// Does the task with the script of that path, or of standard input where the path is `-`.
fn run<A: Threads + Wait + Sync>(rt: &HostRuntime, threads: &A, task: Task, path: &str) -> u8 {
    if path == "-" {
        return run_on(rt, threads, task, path, rt.stdin());
    }
    match File::open(rt, path) {
        Ok(script) => run_on(rt, threads, task, path, script),
        Err(_) => replay::refuse(ScriptError::CannotRead, rt.stderr()),
    }
}

fn run_on<A: Threads + Wait + Sync, R: Read + Drop>(
    rt: &HostRuntime,
    threads: &A,
    task: Task,
    path: &str,
    script: R,
) -> u8 {
    match task {
        Task::Replay => replay::replay(rt.alloc(), script, rt.stdout(), rt.stderr()),
        Task::Picture => draw(rt, path, script),
        Task::Check => replay::check(rt.alloc(), script, rt.stdout(), rt.stderr()),
        Task::CheckRace => replay::check_race(rt.alloc(), script, rt.stdout(), rt.stderr()),
        Task::Race { workers, is_shown } => run_race(rt, threads, workers, is_shown, script),
    }
}

/// Draws a script's run, under the last name of its path.
fn draw<R: Read + Drop>(rt: &HostRuntime, path: &str, script: R) -> u8 {
    let (alloc, out, err) = (rt.alloc(), rt.stdout(), rt.stderr());
    picture::picture(alloc, picture::title(path), script, out, err)
}

/// Runs a race, and shows how far its build is where that is asked for.
fn run_race<A: Threads + Wait + Sync, R: Read + Drop>(
    rt: &HostRuntime,
    threads: &A,
    workers: usize,
    is_shown: bool,
    script: R,
) -> u8 {
    let (alloc, out, err) = (rt.alloc(), rt.stdout(), rt.stderr());
    if !is_shown {
        return race::race(threads, alloc, workers, script, out, err);
    }
    let line = ProgressLine::new(*rt, err, err.is_terminal());
    race::race_watched(threads, alloc, workers, script, out, err, line)
}

/// Answers the records of the standard input. A prompt is shown where somebody types them and reads the answers.
fn converse(rt: &HostRuntime) -> u8 {
    let (input, out, err) = (rt.stdin(), rt.stdout(), rt.stderr());
    let prompt = if input.is_terminal() && out.is_terminal() {
        Some(rt.stdout())
    } else {
        None
    };
    shell::shell(rt.alloc(), input, out, err, prompt)
}

/// Builds the indexes that the words ask for.
fn index<A: Threads + Wait + Sync>(rt: &HostRuntime, threads: &A, words: &IndexWords<'_>) -> u8 {
    if words.file == "-" {
        return index_on(rt, threads, words, rt.stdin());
    }
    match File::open(rt, words.file) {
        Ok(file) => index_on(rt, threads, words, file),
        Err(error) => csv_index::refuse(words.file, error, rt.stderr()),
    }
}

fn index_on<A: Threads + Wait + Sync, R: Read + Drop>(
    rt: &HostRuntime,
    threads: &A,
    words: &IndexWords<'_>,
    file: R,
) -> u8 {
    let (alloc, out, err) = (rt.alloc(), rt.stdout(), rt.stderr());
    let line = csv_index::ProgressLine::new(*rt, err, err.is_terminal());
    csv_index::index(threads, alloc, words, file, out, err, line)
}
