//! Small runs of `sfbench` with what they print, and the words that it refuses.

use crate::printed::text;
use bench::{Failure, Figures, Options, by_threads, by_turns, peak_in, print, read};
use std::alloc::Global;
use std::rt::Runtime;
use std::sync::Wait;
use std::test::Fail;
use std::thread::Threads;

/// What becomes of a run.
#[derive(Clone, Copy)]
enum Measured {
    /// The first fields of the records, in their order.
    Records(&'static [&'static str]),
    /// The first line of a table of figures.
    Table(&'static str),
    /// Two rows share a key of the unique index 0.
    Shared,
    /// The words ask for nothing that can be run.
    Nothing,
}

/// The phases of a run with updates, behind the names of the fields.
const PHASES: Measured = Measured::Records(&[
    "phase",
    "fill",
    "updates alone",
    "start",
    "scan",
    "digest",
    "updates",
    "seal",
    "load",
    "catch-up",
    "switch",
    "build",
    "look-ups",
    "inserts",
    "updates ready",
]);

/// Runs on two columns by two workers, of eight indexes in one scan and spools of both kinds, and of a unique index on random numbers, which
/// differ; one of texts of one letter, of which some are the same; and words that are refused.
static RUNS: [(&[&str], Measured); 21] = [
    (
        &[
            "--rows",
            "1000",
            "--columns",
            "int,text:20",
            "--writes",
            "100",
            "--seed",
            "7",
            "--workers",
            "2",
            "--csv",
        ],
        PHASES,
    ),
    (
        &[
            "--rows",
            "600",
            "--columns",
            "int:500,text:3:2",
            "--indexes",
            "8",
            "--spools",
            "mixed",
            "--writes",
            "50",
            "--csv",
        ],
        PHASES,
    ),
    (
        &["--rows", "600", "--unique", "--writes", "50", "--csv"],
        PHASES,
    ),
    (
        &["--rows", "600", "--columns", "text:1", "--unique"],
        Measured::Shared,
    ),
    (
        &["--rows", "1234", "--columns", "int,text:5"],
        Measured::Table(
            "1234 rows of int,text:5, indexes 1, workers 1, writes 0, sessions 1, writers 0, seed 1992",
        ),
    ),
    (&["fast"], Measured::Nothing),
    (&["--rows", "0"], Measured::Nothing),
    (&["--rows", "100000000"], Measured::Nothing),
    (&["--columns", "real"], Measured::Nothing),
    (&["--columns", "text:0"], Measured::Nothing),
    (&["--columns", "int,text:101"], Measured::Nothing),
    (&["--columns", "int:0"], Measured::Nothing),
    (&["--columns", "text:5:6"], Measured::Nothing),
    (&["--columns", "text:5:"], Measured::Nothing),
    (&["--spools", "flat"], Measured::Nothing),
    (&["--workers", "17"], Measured::Nothing),
    (&["--indexes", "0"], Measured::Nothing),
    (&["--indexes", "9"], Measured::Nothing),
    (&["--sessions", "0"], Measured::Nothing),
    (&["--writers", "17"], Measured::Nothing),
    (&["--threads", "--writes", "1"], Measured::Nothing),
];

/// A run whose rows come by three sessions, and whose two indexes are built by two workers beside two writers. Each worker has more pairs than the
/// batches of a load have room for.
const BESIDE: &[&str] = &[
    "sfbench",
    "--rows",
    "12000",
    "--columns",
    "int,text:20",
    "--indexes",
    "2",
    "--workers",
    "2",
    "--sessions=3",
    "--writers",
    "2",
    "--pause",
    "100",
    "--csv",
];

/// The phases of a run with writers in threads, behind the names of the fields; behind them the rates of three, and how many calls are in each of nine
/// bins, each with names of fields before them.
const STAGES: Measured = Measured::Records(&[
    "phase", "fill", "before", "start", "scan", "load", "catch-up", "build", "rate", "rate",
    "rate", "rate", "calls", "calls", "calls", "calls", "calls", "calls", "calls", "calls",
    "calls", "calls",
]);

impl Measured {
    /// Whether that is what is printed.
    fn is_printed(self, text: &str) -> bool {
        match self {
            Measured::Records(fields) => begin_with(text, fields),
            Measured::Table(line) => text.lines().next() == Some(line),
            Measured::Shared | Measured::Nothing => false,
        }
    }
}

/// Whether the first fields of the records are those.
fn begin_with(records: &str, fields: &[&str]) -> bool {
    let mut fields = fields.iter();
    for record in records.lines() {
        if record.split(',').next() != fields.next().copied() {
            return false;
        }
    }
    fields.next().is_none()
}

/// Whether that is what is printed of the figures.
fn is_printed(
    alloc: Global,
    options: &Options,
    figures: &Figures,
    measured: Measured,
) -> Result<bool, Fail> {
    let mut out = Vec::new(alloc);
    match print(&mut out, alloc, options, figures) {
        Ok(()) => Ok(measured.is_printed(text(out.as_slice()))),
        Err(failure) => Err(Fail::new(failure)),
    }
}

fn is_run(rt: &HostRuntime, options: &Options, measured: Measured) -> Result<bool, Fail> {
    match by_turns(rt, options) {
        Ok(figures) => is_printed(rt.alloc(), options, &figures, measured),
        Err(failure) => Ok(matches!((failure, measured), (Failure::Shared(0), Measured::Shared))),
    }
}

fn is_told(rt: &HostRuntime, words: &[&str], measured: Measured) -> Result<bool, Fail> {
    let mut all = Vec::new(rt.alloc());
    all.push("sfbench")?;
    all.extend_from_slice(words)?;
    match read(rt.alloc(), all.as_slice()) {
        Ok(options) => is_run(rt, &options, measured),
        Err(error) => {
            let is_refused = error.use_stderr() && error.exit_code() == 2;
            Ok(is_refused && matches!(measured, Measured::Nothing))
        }
    }
}

/// The place of the first run that becomes something else.
fn told_otherwise(rt: &HostRuntime) -> Result<Option<usize>, Fail> {
    for (place, (words, measured)) in RUNS.iter().enumerate() {
        if !is_told(rt, words, *measured)? {
            return Ok(Some(place));
        }
    }
    Ok(None)
}

#[test]
fn print_what_they_measure(rt: HostRuntime) -> Result<(), Fail> {
    let other = told_otherwise(&rt)?;
    assert_eq!(rt; other, None);
    Ok(())
}

/// Whether a run with threads prints its stages.
fn has_stages<R>(rt: &R, alloc: Global) -> Result<bool, Fail>
where
    R: Runtime + Threads + Wait + Sync,
{
    let options = read(alloc, BESIDE)?;
    match by_threads(rt, alloc, &options) {
        Ok(figures) => is_printed(alloc, &options, &figures, STAGES),
        Err(failure) => Err(Fail::new(failure)),
    }
}

#[test]
fn a_build_beside_writers(rt: HostRuntime) -> Result<(), Fail> {
    let has_stages = has_stages(&rt, rt.alloc())?;
    assert!(rt; has_stages);
    Ok(())
}

#[test]
fn the_peak_of_memory(rt: HostRuntime) {
    assert_eq!(rt;
        peak_in("Name:\tx\nVmPeak:\t  20 kB\nVmHWM:\t  12 kB\n"),
        Some(12)
    );
    assert_eq!(rt; peak_in("VmPeak:\t  20 kB\n"), None);
}
