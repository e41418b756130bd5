//! What became of the indexes, as it is printed.
ghost use Rattle.std.specs.Prelude.{◌≡◌, IfOk, [], OnOk};
ghost use Rattle.std.specs.List.{list_all};
ghost use Rattle.crew.specs.MadeReady.{is_ready};
ghost use Rattle.csv.specs.Records.{fields_of};
ghost use Rattle.csv_index.specs.Printed.{IsBetween};

use crate::facts::Facts;
use crate::row_printer::RowPrinter;
use crate::table::Failure;
use builder_core::{Live, TableRings};
use command_line::IndexWord;
use heap_log::Outcome;
use keybytes::{Cell, Fault, KeySpec, Rid};
use prefix_spool::{CountedSpool, SpoolOfKind};
use std::io::{self, Write};
use tree_nodes::{FAN_MAX, LEAF_MAX};

/// Prints how much was done: what was read, scanned and loaded, and how many pages the spools of each index had leased at most.
pub fn print_counts<T: TableRings, E: Write>(
    facts: Facts<'_, '_>,
    live: &Live<T>,
    spools: &[CountedSpool<SpoolOfKind>],
    err: &mut E,
) -> io::Result<()> {
    let (rows, pages) = (facts.rows, facts.pages);
    let mut pairs = 0usize;
    for number in 0..live.ready().len() {
        if let Some(index) = live.ready().get(number) {
            pairs = pairs.saturating_add(index.tree().len());
        }
    }
    writeln!(
        err,
        "rows read: {rows}, pages scanned: {pages}, pairs loaded: {pairs}"
    )?;
    for (place, word) in facts.words.indexes.iter().enumerate() {
        let name = word.columns;
        let leased = leased_at_most(spools, place, facts.words.indexes.len());
        writeln!(err, "{name}: pages leased at most: {leased}")?;
    }
    err.flush()
}

/// How many pages the spools of the index at that place have leased, each at most.
fn leased_at_most(spools: &[CountedSpool<SpoolOfKind>], place: usize, indexes: usize) -> usize {
    let mut leased = 0usize;
    for (number, spool) in spools.iter().enumerate() {
        if indexes > 0 && number % indexes == place {
            leased = leased.saturating_add(spool.pages());
        }
    }
    leased
}

/// Prints a line for each index, and answers whether all are ready.
pub fn print_verdicts<T: TableRings, W: Write>(
    facts: Facts<'_, '_>,
    live: &mut Live<T>,
    verdicts: &[Outcome],
    out: &mut W,
) -> Result<bool, Failure>
    ensures { IfOk result (λ all_ready. all_ready ≡ list_all is_ready verdicts.now) }
{
    let mut all_ready = true;
    for (place, verdict) in verdicts.iter().enumerate() {
        let is_ready = print_verdict(facts, live, place, verdict, out)?;
        all_ready = all_ready && is_ready;
    }
    if facts.words.skips_bad {
        let left_out = facts.left_out;
        writeln!(out, "records left out: {left_out}")?;
    }
    Ok(all_ready)
}

/// Prints the line of the index at that place among those asked for, and answers whether it is ready.
fn print_verdict<T: TableRings, W: Write>(
    facts: Facts<'_, '_>,
    live: &mut Live<T>,
    place: usize,
    verdict: &Outcome,
    out: &mut W,
) -> Result<bool, Failure>
    ensures { IfOk result (λ is. is ≡ is_ready verdict.now) }
{
    let (Some(word), Some(spec)) = (facts.words.indexes.get(place), facts.asked.specs.get(place))
    else {
        return Err(Failure::Table(Fault::BadCount));
    };
    match verdict {
        Outcome::Ready(number) => {
            print_ready(live, *word, *number, out)?;
            Ok(true)
        }
        Outcome::Shared { first, second, .. } => {
            let row = live.get(*first)?;
            print_shared(facts, word.columns, *first, *second, out)?;
            print_key(facts, spec, row.cells(), out)?;
            Ok(false)
        }
    }
}

fn print_ready<T: TableRings, W: Write>(
    live: &Live<T>,
    word: IndexWord<'_>,
    number: usize,
    out: &mut W,
) -> Result<(), Failure> {
    let pairs = match live.ready().get(number) {
        Some(index) => index.tree().len(),
        None => return Err(Failure::Table(Fault::BadCount)),
    };
    let (name, unique) = (word.columns, if word.unique { ", unique" } else { "" });
    let levels = levels_of(pairs);
    writeln!(
        out,
        "{name}: pairs: {pairs}, levels: {levels}{unique}, ready"
    )?;
    Ok(())
}

/// How many levels a tree has that was loaded with so many pairs: each node but the last of a level is full. Without pairs it is an empty leaf.
fn levels_of(pairs: usize) -> usize {
    let mut levels = 1usize;
    let mut nodes = pairs.div_ceil(LEAF_MAX);
    for _ in 0..usize::BITS {
        if nodes <= 1 {
            break;
        }
        nodes = nodes.div_ceil(FAN_MAX);
        levels = levels.saturating_add(1);
    }
    levels
}

/// Names the lines of the rows at two places, up to the key that they share.
fn print_shared<W: Write>(
    facts: Facts<'_, '_>,
    name: &str,
    first: Rid,
    second: Rid,
    out: &mut W,
) -> Result<(), Failure> {
    let (line, other) = (facts.lines.line(first), facts.lines.line(second));
    write!(
        out,
        "{name}: unique, refused: lines {line} and {other} share the key "
    )?;
    Ok(())
}

/// The cells of the key that a row has.
fn print_key<W: Write>(
    facts: Facts<'_, '_>,
    spec: &KeySpec,
    cells: &[Cell],
    out: &mut W,
) -> Result<(), Failure> {
    let mut printer = RowPrinter::new(facts.alloc, out);
    print_cells(&mut printer, spec, cells)
}

fn print_cells<W: Write + Drop>(
    printer: &mut RowPrinter<W>,
    spec: &KeySpec,
    cells: &[Cell],
) -> Result<(), Failure>
    requires { IsBetween printer.old.writer }
{
    for column in spec.columns() {
        if let Some(cell) = cells.get(column.column) {
            printer.cell(cell)?;
        }
    }
    printer.end()?;
    printer.flush()
}
