//! A race, from its script to what is printed.
ghost use Rattle.std.specs.Prelude.{◌≤◌, IfOk, IfSome};
ghost use Rattle.race.specs.Races.{EndsWith, ExitsWith};

use crate::printing::print;
use crate::running::run_race;
use crate::{Unwatched, Watch};
use replay::{Output, OutputFailed, Status, refuse, refuse_table};
use script::RaceScript;
use std::alloc::Global;
use std::io::{Read, Write};
use std::sync::Wait;
use std::thread::Threads;

/// Runs the race that the reader gives with so many workers, and prints to `out` how it went. A script that can't be run is named on
/// `err`, and then nothing is printed to `out`. Answers the exit status: 1 where an index was refused or the build was given up. It may
/// wait for the table's lock and for the threads that it starts; `rt` is the runtime that `main` hands in.
pub fn race<A, R, W, E>(rt: &A, alloc: Global, workers: usize, reader: R, out: W, err: E) -> u8
where
    A: Threads + Wait + Sync,
    R: Read + Drop,
    W: Write + Drop,
    E: Write + Drop,
    ensures limit { result ≤ 2 }
    ensures status { IfSome (R.remaining reader) (λ text. ExitsWith workers text result) }
{
    race_watched(rt, alloc, workers, reader, out, err, Unwatched)
}

/// As [`race`], while somebody watches how far the build is, from its first page on.
pub fn race_watched<A, R, W, E, V>(
    rt: &A,
    alloc: Global,
    workers: usize,
    mut reader: R,
    out: W,
    err: E,
    watch: V,
) -> u8
where
    A: Threads + Wait + Sync,
    R: Read + Drop,
    W: Write + Drop,
    E: Write + Drop,
    V: Watch + Send + Drop,
    ensures limit { result ≤ 2 }
    ensures status { IfSome (R.remaining reader) (λ text. ExitsWith workers text result) }
{
    let script = match RaceScript::read(alloc, &mut reader) {
        Ok(script) => script,
        Err(error) => return refuse(error, err),
    };
    match run(rt, alloc, workers, script, out, watch) {
        Ok(status) => status as u8,
        Err(OutputFailed) => Status::Failed as u8,
    }
}

/// Runs a race, and answers how it went.
fn run<A, W, V>(
    rt: &A,
    alloc: Global,
    workers: usize,
    script: RaceScript,
    out: W,
    watch: V,
) -> Result<Status, OutputFailed>
where
    A: Threads + Wait + Sync,
    W: Write + Drop,
    V: Watch + Send + Drop,
    ensures { IfOk result (EndsWith workers script) }
{
    let mut output = Output::new(out);
    let status = answer(rt, alloc, workers, script, &mut output, watch)?;
    output.flush()?;
    Ok(status)
}

/// Runs a race and prints it. Where the table is refused, that is the one answer.
fn answer<A, W, V>(
    rt: &A,
    alloc: Global,
    workers: usize,
    script: RaceScript,
    output: &mut Output<W>,
    watch: V,
) -> Result<Status, OutputFailed>
where
    A: Threads + Wait + Sync,
    W: Write + Drop,
    V: Watch + Send + Drop,
    ensures { IfOk result (EndsWith workers script) }
{
    let number = script.table_number;
    match run_race(rt, alloc, workers, script, watch) {
        Ok(report) => {
            print(output, &report)?;
            Ok(report.status())
        }
        Err(fault) => refuse_table(number, fault, output),
    }
}
