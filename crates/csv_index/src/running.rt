//! A run from its words to what is printed.
ghost use Rattle.std.specs.Prelude.{◌≡◌, ◌≤◌, IfOk, IfSome, IsOkAnd, map};
ghost use Rattle.csv_index.specs.Fillings.{IsFilledFrom};
ghost use Rattle.std.specs.List.{list_all};
ghost use Rattle.crew.specs.MadeReady.{is_ready};
ghost use Rattle.csv_index.specs.Runs.{EndsBuilt, ExitsWith, IsBuilt, RunsOn};

use crate::built::Built;
use crate::facts::Facts;
use crate::listing::list;
use crate::printing::{print_counts, print_verdicts};
use crate::searches::searches;
use crate::spools::{Amount, counted_spools};
use crate::table::{Asked, Failure, Filled, KeySizes, Reading, Watch, fill};
use crate::watching::Watching;
use builder_core::{Dealing, Ends, Live, Parts, Plan};
use command_line::IndexWords;
use crew::{BuildFault, Opened, Table, TableParts, build};
use heap_log::Verdicts;
use heap_table::Heap;
use keybytes::{Fault, copied_specs};
use prefix_spool::{CountedSpool, SpoolOfKind};
use std::alloc::Global;
use std::io::{self, ErrorKind, Read, Write};
use std::marker::Brand;
use std::sync::Wait;
use std::thread::{Threads, available_parallelism};

/// The exit status of a run that came to nothing.
const FAILED: u8 = 2;

/// How many workers there are where nobody knows how many processors.
const WORKERS: usize = 4;

/// The most workers of a build.
const WORKERS_MAX: usize = 16;

/// The pages are dealt into so many ranges for each worker, so that none waits long for another at the end.
const RANGES_OF_A_WORKER: usize = 8;

/// A build beside which nobody writes ends in its first turn.
const TRIES: u32 = 1;

/// Reads the records of the reader into a table, builds the indexes that the words ask for, and prints to `out` what became of them, and the
/// rows that the words ask the first one for. What went wrong, and how much was done, is told on `err`. Answers the exit status: 1 where an
/// index is refused, and 2 where nothing could be built. It may wait for the threads that it starts; `rt` is the runtime that `main` hands in.
pub fn index<A, R, W, E, V>(
    rt: &A,
    alloc: Global,
    words: &IndexWords<'_>,
    mut reader: R,
    mut out: W,
    mut err: E,
    watch: V,
) -> u8
where
    A: Threads + Wait + Sync,
    R: Read + Drop,
    W: Write + Drop,
    E: Write + Drop,
    V: Watch + Send + Drop,
    ensures limit { result ≤ 2 }
    ensures status { IfSome (R.remaining reader) (λ text. ExitsWith (map (λ word. word.unique) words.now.indexes.items) text result) }
{
    match run(rt, alloc, words, &mut reader, &mut out, &mut err, watch) {
        Ok(true) => 0,
        Ok(false) => 1,
        Err(failure) => say(words.file, &failure, &mut err),
    }
}

/// Says that the file can't be read, and why, and answers the exit status.
pub fn refuse<E: Write + Drop>(file: &str, error: io::Error, mut err: E) -> u8
    ensures { result ≡ 2 }
{
    say(file, &Failure::CannotRead(error), &mut err)
}

/// Says why a run on the file came to nothing, and answers the exit status.
fn say<E: Write>(file: &str, failure: &Failure, err: &mut E) -> u8
    ensures { result ≡ 2 }
{
    let _not_told = write_failure(file, failure, err);
    FAILED
}

fn write_failure<E: Write>(file: &str, failure: &Failure, err: &mut E) -> io::Result<()> {
    let name = if file == "-" { "standard input" } else { file };
    if failure.is_of_file() {
        writeln!(err, "sfbuild index: {name}: {failure}")?;
    } else {
        writeln!(err, "sfbuild index: {failure}")?;
    }
    err.flush()
}

/// All words are looked at before the file is read.
fn run<A, R, W, E, V>(
    rt: &A,
    alloc: Global,
    words: &IndexWords<'_>,
    reader: &mut R,
    out: &mut W,
    err: &mut E,
    mut watch: V,
) -> Result<bool, Failure>
where
    A: Threads + Wait + Sync,
    R: Read,
    W: Write,
    E: Write,
    V: Watch + Send + Drop,
    ensures { IfSome (R.remaining reader.old) (λ text. IfOk result (RunsOn (map (λ word. word.unique) words.now.indexes.items) text)) }
{
    let asked = Asked::new(alloc, words)?;
    let searches = searches(alloc, words, &asked)?;
    let filled = read(alloc, words, &asked, reader, &mut watch);
    watch.clear();
    let Filled {
        heap,
        lines,
        sizes,
        rows,
        left_out,
    } = filled?;
    let work = planned(alloc, &asked, amount(rt, words, rows, sizes.as_slice()));
    let facts = Facts {
        alloc,
        words,
        asked: &asked,
        searches: searches.as_slice(),
        lines: &lines,
        rows,
        left_out,
        pages: heap.pages(),
    };
    run_planned(rt, facts, heap, work, out, err, watch)
}

/// The table with the rows of the file.
fn read<R: Read, V: Watch>(
    alloc: Global,
    words: &IndexWords<'_>,
    asked: &Asked,
    reader: &mut R,
    watch: &mut V,
) -> Result<Filled, Failure>
    ensures { IfSome (R.remaining reader.old) (λ text. IfOk result (IsFilledFrom asked.now.schema asked.now.columns.items text)) }
{
    let mut text = Vec::new(alloc);
    if let Err(error) = reader.read_to_end(&mut text) {
        return Err(match error.kind() {
            ErrorKind::OutOfMemory => Failure::Table(Fault::Memory),
            _ => Failure::CannotRead(error),
        });
    }
    let reading = Reading {
        alloc,
        columns: asked.columns.as_slice(),
        skips_bad: words.skips_bad,
    };
    fill(reading, asked.schema.copy(), text.as_slice(), watch)
}

/// What a build is to do, and by which spools.
#[derive(Drop)]
struct Work {
    plan: Plan,
    spools: Vec<CountedSpool<SpoolOfKind>>,
}

fn run_planned<A, W, E, V>(
    rt: &A,
    facts: Facts<'_, '_>,
    heap: Heap,
    work: Result<Work, Fault>,
    out: &mut W,
    err: &mut E,
    watch: V,
) -> Result<bool, Failure>
where
    A: Threads + Wait + Sync,
    W: Write,
    E: Write,
    V: Watch + Send + Drop,
    ensures { IfOk result (λ all_ready. IsOkAnd work (λ work. EndsBuilt heap.state.log work.plan.specs.items all_ready)) }
{
    let work = work?;
    let parts = table_parts(facts.alloc, heap)?;
    run_named::<Brand, A, W, E, V>(rt, facts, parts, work, out, err, watch)
}

fn amount<'a, A: Threads>(
    threads: &A,
    words: &IndexWords<'_>,
    rows: u64,
    sizes: &'a [KeySizes],
) -> Amount<'a> {
    Amount {
        rows,
        workers: words.workers.unwrap_or_else(|| processors(threads)),
        sizes,
    }
}

fn processors<A: Threads>(threads: &A) -> usize {
    match available_parallelism(threads) {
        Ok(processors) => processors.get().min(WORKERS_MAX),
        Err(_) => WORKERS,
    }
}

fn planned(alloc: Global, asked: &Asked, amount: Amount<'_>) -> Result<Work, Fault>
    ensures { IfOk result (λ work. work.plan.specs.items ≡ asked.now.specs.items) }
{
    let spools = counted_spools(alloc, amount, asked.specs.as_slice())?;
    let specs = copied_specs(alloc, asked.specs.as_slice())?;
    Ok(Work {
        plan: Plan {
            specs,
            workers: amount.workers,
            dealing: Dealing::Even(amount.workers.saturating_mul(RANGES_OF_A_WORKER)),
            tries: TRIES,
            keep_pairs: false,
        },
        spools,
    })
}

/// The table, ready to be shared.
fn table_parts(alloc: Global, heap: Heap) -> Result<TableParts, Fault>
    ensures { IfOk result (λ made. made.parts.heap ≡ heap.state) }
{
    let parts = match Parts::new(alloc, heap) {
        Ok(parts) => parts,
        Err((_, fault)) => return Err(fault),
    };
    match TableParts::new(alloc, parts) {
        Ok(parts) => Ok(parts),
        Err((_, fault)) => Err(fault),
    }
}

/// The same on a table with a name.
fn run_named<T, A, W, E, V>(
    rt: &A,
    facts: Facts<'_, '_>,
    parts: TableParts,
    work: Work,
    out: &mut W,
    err: &mut E,
    watch: V,
) -> Result<bool, Failure>
where
    T: Opened + Send + Sync,
    A: Threads + Wait + Sync,
    W: Write,
    E: Write,
    V: Watch + Send + Drop,
    requires word { parts.word ≡ T.table }
    requires pages { parts.parts.pages ≡ T.pages }
    requires sides { parts.parts.sides ≡ T.sides }
    requires opening { parts.parts.heap.log ≡ T.opening }
    ensures { IfOk result (EndsBuilt T.opening work.plan.specs.items) }
{
    let (table, ends) = parts.open::<T>();
    let built = build_all(rt, facts, &table, ends, work, watch);
    let mut closed = table.close(Vec::new(facts.alloc));
    tell(facts, &mut closed.live, built, out, err)
}

/// Builds the indexes by workers in threads.
fn build_all<T, A, V>(
    rt: &A,
    facts: Facts<'_, '_>,
    table: &Table<T>,
    ends: Ends<T>,
    work: Work,
    watch: V,
) -> Result<Built, Fault>
where
    T: Opened + Send + Sync,
    A: Threads + Wait + Sync,
    V: Watch + Send + Drop,
    ensures { IfOk result (λ built. IsBuilt T.opening work.plan.specs.items built.verdicts) }
{
    let Work { plan, spools } = work;
    let gate = Watching::new(rt, watch, facts.pages);
    let (_ends, spools, told) = build(rt, facts.alloc, table, ends, &plan, spools, &gate);
    gate.end();
    match told {
        Ok(report) => Ok(Built {
            verdicts: report.verdicts,
            spools,
        }),
        Err(BuildFault(fault)) => Err(fault),
    }
}

/// Prints what became of the indexes, and the rows that the words ask for.
fn tell<T: Opened, W: Write, E: Write>(
    facts: Facts<'_, '_>,
    live: &mut Live<T>,
    built: Result<Built, Fault>,
    out: &mut W,
    err: &mut E,
) -> Result<bool, Failure>
    ensures { IfOk result (λ all_ready. IsOkAnd built (λ built. all_ready ≡ list_all is_ready built.verdicts)) }
{
    let built = built?;
    // That it can't be told how much was done is no reason to end.
    let _not_told = print_counts(facts, live, built.spools.as_slice(), err);
    let all_ready = print_verdicts(facts, live, built.verdicts.as_slice(), out)?;
    // Where the first index isn't ready, no rows are printed behind this.
    out.flush()?;
    if !list(facts, live, built.verdicts.as_slice(), out)? {
        let _not_told = write_unlisted(err);
        return Ok(false);
    }
    // Whatever the printer of rows couldn't send on as it ended is told by this.
    out.flush()?;
    Ok(all_ready)
}

/// Says that there are no rows to list.
fn write_unlisted<E: Write>(err: &mut E) -> io::Result<()> {
    writeln!(
        err,
        "sfbuild index: the first index isn't ready, and gives no rows"
    )?;
    err.flush()
}
