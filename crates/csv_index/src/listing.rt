//! The rows that an index gives for what a user asks.
ghost use Rattle.std.specs.Prelude.{◌≡◌, ◌∷◌, [], IfOk, MatchOption, OnOk, false, map};
ghost use Rattle.std.specs.List.{list_all};
ghost use Rattle.crew.specs.MadeReady.{is_ready};
ghost use Rattle.csv.specs.Records.{fields_of};
ghost use Rattle.ready_indexes.specs.Following.{indexes_of};
ghost use Rattle.csv_index.specs.Listed.{AreFoundAt, AreFoundIn};
ghost use Rattle.csv_index.specs.Printed.{IsBetween, Prints, fields_at, header_fields};

use crate::facts::Facts;
use crate::look_up::look_up;
use crate::row_printer::RowPrinter;
use crate::search::Search;
use crate::table::Failure;
use builder_core::{Live, ReadyIndexes, TableRings};
use heap_log::Outcome;
use keybytes::{Fault, Rid};
use std::alloc::Global;
use std::io::Write;

/// Lists the rows that the first index is asked for, and answers whether it could; it can't where that index was refused.
pub fn list<T: TableRings, W: Write>(
    facts: Facts<'_, '_>,
    live: &mut Live<T>,
    verdicts: &[Outcome],
    out: &mut W,
) -> Result<bool, Failure>
    ensures { IfOk result (λ listed. listed ≡ false → list_all is_ready verdicts.now ≡ false) }
{
    for search in facts.searches {
        let Some(rids) = found(facts, live, verdicts, search)? else {
            return Ok(false);
        };
        print_rows(facts, live, rids.as_slice(), out)?;
    }
    Ok(true)
}

/// The places of the rows, as the first index has them.
fn found<T: TableRings>(
    facts: Facts<'_, '_>,
    live: &Live<T>,
    verdicts: &[Outcome],
    search: &Search,
) -> Result<Option<Vec<Rid>>, Failure>
    ensures { IfOk result (λ found. MatchOption found (list_all is_ready verdicts.now ≡ false)
        (λ rids. AreFoundIn live.now.state.ready verdicts.now search.now rids.items)) }
{
    match verdicts.first() {
        Some(Outcome::Ready(number)) => {
            let rids = found_in(facts.alloc, live.ready(), *number, search)?;
            Ok(Some(rids))
        }
        Some(Outcome::Shared { .. }) => Ok(None),
        None => Err(Failure::Table(Fault::BadCount)),
    }
}

/// The same of the ready index of that number.
fn found_in(
    alloc: Global,
    ready: &ReadyIndexes,
    number: usize,
    search: &Search,
) -> Result<Vec<Rid>, Failure>
    ensures { IfOk result (λ rids. AreFoundAt (indexes_of ready.now.indexes) number search.now rids.items) }
{
    let Some(index) = ready.get(number) else {
        return Err(Failure::Table(Fault::BadCount));
    };
    Ok(look_up(alloc, index.tree(), search)?)
}

/// Prints the rows at these places.
fn print_rows<T: TableRings, W: Write>(
    facts: Facts<'_, '_>,
    live: &mut Live<T>,
    rids: &[Rid],
    out: &mut W,
) -> Result<(), Failure> {
    let mut printer = RowPrinter::new(facts.alloc, out);
    print_each(facts, live, rids, &mut printer)
}

fn print_each<T: TableRings, W: Write + Drop>(
    facts: Facts<'_, '_>,
    live: &mut Live<T>,
    rids: &[Rid],
    printer: &mut RowPrinter<W>,
) -> Result<(), Failure>
    requires between { IsBetween printer.old.writer }
    requires fields { fields_of printer.old.fields ≡ [] }
    ensures { OnOk result (Prints W.contents printer.old.writer printer.new.writer
        (header_fields facts.entry.asked.now.columns.items ∷ map (fields_at live.old.state.heap.log facts.entry.lines.now) rids.now)) }
{
    printer.header(facts.asked.columns.as_slice())?;
    for rid in rids {
        let row = live.get(*rid)?;
        printer.row(facts.lines.line(*rid), row.cells())?;
    }
    printer.flush()
}
