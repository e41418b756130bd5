//! A run in threads: the table is filled, the writers begin, the build goes on beside them, and each index is compared with the table.
ghost use Rattle.std.specs.Prelude.{◌≡◌, ◌<◌};

use crate::build::{Work, parts};
use crate::compare::compared;
use crate::course::{Course, NAMES, SCAN, STAGES, START};
use crate::done::Done;
use crate::failure::Failure;
use crate::figures::{Figures, LINES, Line};
use crate::options::Options;
use crate::peak;
use crate::sessions::by_sessions;
use crate::span::Span;
use crate::subject::are_ready;
use crate::watch::Watch;
use builder_core::Ends;
use crew::{Opened, Table, TableParts, build};
use std::alloc::Global;
use std::marker::Brand;
use std::rt::Runtime;
use std::sync::Wait;
use std::sync::atomic::Ordering;
use std::thread::{Threads, join, sleep};
use std::time::{Clock, Duration, Instant};

/// How many seconds the writers write before the build.
const ALONE: u64 = 2;

/// Measures what is asked for, on a table of its own.
pub fn by_threads<R>(rt: &R, alloc: Global, options: &Options) -> Result<Figures, Failure>
where
    R: Runtime + Threads + Wait + Sync,
{
    let course = Course::new(Instant::now(rt)?);
    let parts = parts(alloc, options.columns.as_slice())?;
    let work = Work::new(alloc, parts.heap().schema(), options)?;
    match TableParts::new(alloc, parts) {
        Ok(parts) => run_on::<Brand, R>(rt, alloc, parts, work, options, &course),
        Err((_, fault)) => Err(Failure::from(fault)),
    }
}

/// The same on a table under its name.
fn run_on<T, R>(
    rt: &R,
    alloc: Global,
    parts: TableParts,
    work: Work,
    options: &Options,
    course: &Course,
) -> Result<Figures, Failure>
where
    T: Opened + Send + Sync,
    R: Runtime + Threads + Wait + Sync,
    requires word { parts.word ≡ T.table }
    requires pages { parts.parts.pages ≡ T.pages }
    requires sides { parts.parts.sides ≡ T.sides }
    requires opening { parts.parts.heap.log ≡ T.opening }
{
    let (table, ends) = parts.open::<T>();
    let told = measure(rt, alloc, &table, ends, work, options, course);
    let mut closed = table.close(Vec::new(alloc));
    compared(&mut closed.live, told)
}

/// Fills the table, and builds on it beside the writers then. Where the build or a writer fails it tells what was measured until then.
fn measure<T, R>(
    rt: &R,
    alloc: Global,
    table: &Table<T>,
    ends: Ends<T>,
    work: Work,
    options: &Options,
    course: &Course,
) -> Result<Figures, Failure>
where
    T: Opened + Send + Sync,
    R: Runtime + Threads + Wait + Sync,
{
    let filled = by_sessions(rt, alloc, table, options, course, 0);
    if let Some(failure) = filled.failure {
        return Err(failure);
    }
    course.go_to(rt, 0);
    let (met, built) = beside(
        rt,
        alloc,
        table,
        ends,
        work,
        options,
        course,
        filled.on_page,
    );
    let failure = built.err().or(met.failure);
    let peak = peak::read(rt);
    Ok(figures_of(options, course, &filled, &met, failure, peak))
}

/// The writers write in threads of their own until the build is done. Where no thread can be made they come last, and find that all is over.
fn beside<T, R>(
    rt: &R,
    alloc: Global,
    table: &Table<T>,
    ends: Ends<T>,
    work: Work,
    options: &Options,
    course: &Course,
    on_page: u16,
) -> (Done, Result<u64, Failure>)
where
    T: Opened + Send + Sync,
    R: Threads + Wait + Clock + Sync,
{
    join(
        rt,
        move || by_sessions(rt, alloc, table, options, course, on_page),
        move || build_beside(rt, alloc, table, ends, work, options, course),
    )
}

/// Lets the writers write alone for a while, and builds the indexes then by workers in threads.
fn build_beside<T, R>(
    rt: &R,
    alloc: Global,
    table: &Table<T>,
    ends: Ends<T>,
    work: Work,
    options: &Options,
    course: &Course,
) -> Result<u64, Failure>
where
    T: Opened + Send + Sync,
    R: Threads + Wait + Clock + Sync,
{
    if options.writers > 0 {
        sleep(rt, Duration::from_secs(ALONE));
    }
    course.go_to(rt, START);
    let Work { plan, spools } = work;
    let watch = Watch {
        rt,
        course,
        workers: plan.workers,
    };
    let (_ends, _spools, told) = build(rt, alloc, table, ends, &plan, spools, &watch);
    course.mark(rt, STAGES);
    course.is_over.store(1, Ordering::SeqCst);
    match &told {
        Ok(report) => {
            course.note_caught_up(report.caught_up);
            are_ready(report.verdicts.as_slice())
        }
        Err(fault) => Err(Failure::Refused("the build", fault.0)),
    }
}

/// The fill, the stages and the build. There is no stage before the build where nobody writes, and none to which a run that failed didn't come.
fn figures_of(
    options: &Options,
    course: &Course,
    filled: &Done,
    met: &Done,
    failure: Option<Failure>,
    peak: Option<u128>,
) -> Figures {
    let rows = u64::from(options.rows);
    let mut lines = [Line::NONE; LINES];
    lines[0] = Line {
        name: "fill",
        spent: filled.filled,
        rows,
        is_told: true,
        ..Line::NONE
    };
    let mut build = Line {
        name: "build",
        rows: if failure.is_none() { rows } else { 0 },
        peak,
        is_told: true,
        ..Line::NONE
    };
    for place in 0..STAGES {
        let line = line_of(options, course, place, met.met[place]);
        if place > 0 {
            build.spent = build.spent.saturating_add(line.spent);
            build.met = build.met.and(line.met);
        }
        lines[place + 1] = line;
    }
    lines[STAGES + 1] = build;
    if failure.is_none() {
        lines[STAGES].applied = applied(course, &lines);
    }
    Figures {
        lines,
        count: course.turns.load(Ordering::SeqCst),
        before: met.before,
        beside: met.beside,
        failure,
    }
}

/// The stage at that place, in which so much was met.
fn line_of(options: &Options, course: &Course, place: usize, met: Span) -> Line
    requires { place < 5 }
{
    let begun = course.begun[place].load(Ordering::SeqCst);
    Line {
        name: NAMES[place],
        spent: course.end_of(place).saturating_sub(begun),
        met,
        made: made(options, place as u64, met.entries),
        is_told: begun > 0 && (place > 0 || options.writers > 0),
        ..Line::NONE
    }
}

/// How many entries of all indexes writers made in a stage, so many for each. How many meet a condition isn't known.
fn made(options: &Options, stage: u64, entries: u64) -> Option<u64> {
    if stage < SCAN || options.writers == 0 || options.condition.is_some() {
        return None;
    }
    Some(entries.saturating_mul(u64::from(options.indexes)))
}

/// How many entries a build applied while it caught up: those that waited then, and all that were made since. Where it isn't told how many waited
/// it was at least what was made while pairs were put in order.
fn applied(course: &Course, lines: &[Line; LINES]) -> Option<u64> {
    let loading = lines[STAGES - 1].made?;
    let catching_up = lines[STAGES].made?;
    let waited = course.waited.load(Ordering::SeqCst).max(loading);
    Some(waited.saturating_add(catching_up))
}
