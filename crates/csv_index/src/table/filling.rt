//! From the records of a file to the rows of a table.
ghost use Rattle.std.specs.Prelude.{◌≡◌, ◌⊎◌, ◌+◌, ◌-◌, ◌<◌, ◌^◌, [], ◌∷◌, Ok, true, false, IfErr, IfOk, OnOk, length};
ghost use Rattle.csv.specs.Records.{field_at, fields_of};
ghost use Rattle.heap_table.specs.Pages.{KeepsRows};
ghost use Rattle.csv_index.specs.BadRows.{IsOfRecord};
ghost use Rattle.csv_index.specs.Cells.{IsNoCell};
ghost use Rattle.csv_index.specs.Fillings.{AreTaken, IsCellAt, IsFilledFrom, IsLeftOut, IsNoRow, IsTakenIn, LeavesOutIf, OnlyTurns, PutsRow, SpellsRow, TakesRecord, field_or_empty};
ghost use Rattle.csv_index.specs.OpenTxns.{IsAlone, NoneIsOpen};
ghost use Rattle.csv_index.specs.Sizes.{AddsRow, HaveSizes};

use crate::table::bad_row::BadRow;
use crate::table::cell_fault::CellFault;
use crate::table::column::Column;
use crate::table::failure::Failure;
use crate::table::field::cell;
use crate::table::header::sources;
use crate::table::key_sizes::KeySizes;
use crate::table::layout::Layout;
use crate::table::line_counter::LineCounter;
use crate::table::lines::Lines;
use crate::table::refusal::Refusal;
use crate::table::source::Source;
use crate::table::watch::Watch;
use csv::ByteRecord;
use heap_table::{Heap, PAGES_MAX, SLOTS_MAX};
use keybytes::{Cell, Fault, Row, Schema};
use script::Records;
use std::alloc::Global;

/// The rows that one transaction puts in.
const ROWS_OF_A_TRANSACTION: u64 = 1_000;

/// A table with the rows of a file.
#[derive(Drop)]
pub struct Filled {
    pub heap: Heap,
    pub lines: Lines,
    /// Of each column.
    pub sizes: Vec<KeySizes>,
    pub rows: u64,
    pub left_out: u64,
}

/// What the records are read by.
#[derive(Clone, Copy)]
pub struct Reading<'a> {
    pub alloc: Global,
    pub columns: &'a [Column],
    pub skips_bad: bool,
}

/// Puts the rows of the text into a table. A text that begins with a byte order mark is read without it.
pub fn fill<V: Watch>(
    reading: Reading<'_>,
    schema: Schema,
    text: &[u8],
    watch: &mut V,
) -> Result<Filled, Failure>
    ensures taken { IfOk result (IsFilledFrom schema reading.entry.columns.now text.now) }
    ensures skipped { IfOk result (LeavesOutIf reading.entry.skips_bad) }
    ensures ended { IfOk result (λ filled. NoneIsOpen filled.heap.state) }
{
    let alloc = reading.alloc;
    let mut filled = Filled {
        heap: Heap::new(alloc, schema, SLOTS_MAX, PAGES_MAX)?,
        lines: Lines::new(alloc),
        sizes: vec![in alloc; KeySizes::NONE; reading.columns.len()]?,
        rows: 0,
        left_out: 0,
    };
    match read_all(reading, text, &mut filled, watch) {
        Ok(()) => Ok(filled),
        Err(failure) => Err(failure),
    }
}

fn read_all<V: Watch>(
    reading: Reading<'_>,
    text: &[u8],
    filled: &mut Filled,
    watch: &mut V,
) -> Result<(), Failure>
    requires rows { filled.old.rows ≡ 0 }
    requires left_out { filled.old.left_out ≡ 0 }
    requires sizes { HaveSizes (length reading.columns.now) [] filled.old.sizes.items }
    requires closed { NoneIsOpen filled.old.heap.state }
    ensures taken { OnOk result (IsTakenIn reading.entry.columns.now text.now filled.old.heap.state filled.new) }
    ensures skipped { OnOk result (LeavesOutIf reading.entry.skips_bad filled.new) }
    ensures ended { OnOk result (NoneIsOpen filled.new.heap.state) }
{
    let mut records = Records::new(reading.alloc, text);
    let mut record = ByteRecord::new(reading.alloc);
    if !read(&mut records, &mut record)? {
        return Err(Failure::refused(reading.alloc, Refusal::Empty, ""));
    }
    let layout = Layout {
        sources: sources(reading.alloc, &record, reading.columns)?,
        width: record.len(),
    };
    let mut lines = LineCounter::new(text);
    read_rows(
        reading,
        &layout,
        &mut records,
        &mut record,
        &mut lines,
        filled,
        watch,
    )
}

/// Puts the records that are left into the table.
fn read_rows<V: Watch>(
    reading: Reading<'_>,
    layout: &Layout,
    records: &mut Records<'_>,
    record: &mut ByteRecord,
    lines: &mut LineCounter<'_>,
    filled: &mut Filled,
    watch: &mut V,
) -> Result<(), Failure>
    requires rows { filled.old.rows ≡ 0 }
    requires left_out { filled.old.left_out ≡ 0 }
    requires sizes { HaveSizes (length layout.now.sources.items) [] filled.old.sizes.items }
    requires closed { NoneIsOpen filled.old.heap.state }
    ensures taken { OnOk result (AreTaken layout.now.width layout.now.sources.items
        lines.old.text lines.new.passed records.old filled.old.heap.state filled.new) }
    ensures skipped { OnOk result (LeavesOutIf reading.entry.skips_bad filled.new) }
    ensures ended { OnOk result (NoneIsOpen filled.new.heap.state) }
{
    let mut txn = begin(&mut filled.heap)?;
    for number in 0..u64::MAX {
        if !read(records, record)? {
            end(&mut filled.heap, txn)?;
            return Ok(());
        }
        txn = turn(filled, txn, number, watch)?;
        let start = record.position().map_or(0, |position| position.byte);
        let line = lines.line_from(start as usize);
        take(reading, layout, record, line, txn, filled)?;
    }
    Err(Failure::Table(Fault::Memory))
}

/// Reads the next record, and answers whether there is one. Of a text in memory that fails only for want of memory.
fn read(records: &mut Records<'_>, record: &mut ByteRecord) -> Result<bool, Failure>
    ensures found { result ≡ Ok true → records.old ≡ fields_of «record».new ∷ records.new }
    ensures ended { result ≡ Ok false → records.old ≡ [] }
{
    match records.read_bytes(record) {
        Ok(found) => Ok(found),
        Err(_) => Err(Failure::Table(Fault::Memory)),
    }
}

fn begin(heap: &mut Heap) -> Result<u64, Failure>
    requires { NoneIsOpen heap.old.state }
    ensures rows { OnOk result (KeepsRows heap.old.state.log heap.new.state.log) }
    ensures alone { IfOk result (λ txn. IsAlone txn heap.new.state) }
{
    let txn = heap.begin()?;
    Ok(txn)
}

/// Ends a transaction, and begins the next.
fn next_txn(heap: &mut Heap, txn: u64) -> Result<u64, Failure>
    requires { IsAlone txn heap.old.state }
    ensures rows { OnOk result (KeepsRows heap.old.state.log heap.new.state.log) }
    ensures alone { IfOk result (λ next. IsAlone next heap.new.state) }
{
    end(heap, txn)?;
    begin(heap)
}

fn end(heap: &mut Heap, txn: u64) -> Result<(), Failure>
    requires { IsAlone txn heap.old.state }
    ensures rows { OnOk result (KeepsRows heap.old.state.log heap.new.state.log) }
    ensures none { OnOk result (NoneIsOpen heap.new.state) }
{
    heap.commit(txn)?;
    Ok(())
}

/// The transaction of the record of that number, from 0, behind the one that is given.
fn turn<V: Watch>(filled: &mut Filled, txn: u64, number: u64, watch: &mut V) -> Result<u64, Failure>
    requires { IsAlone txn filled.old.heap.state }
    ensures turns { OnOk result (OnlyTurns filled.old filled.new) }
    ensures alone { IfOk result (λ next. IsAlone next filled.new.heap.state) }
{
    if number % ROWS_OF_A_TRANSACTION != ROWS_OF_A_TRANSACTION - 1 {
        return Ok(txn);
    }
    watch.show_rows(filled.rows);
    next_txn(&mut filled.heap, txn)
}

/// Puts a record into the table, or leaves it out.
fn take(
    reading: Reading<'_>,
    layout: &Layout,
    record: &ByteRecord,
    line: u64,
    txn: u64,
    filled: &mut Filled,
) -> Result<(), Failure>
    requires { filled.old.rows + filled.old.left_out < 2 ^ 64 - 1 }
    ensures taken { OnOk result (TakesRecord layout.now.width layout.now.sources.items (fields_of «record».now) line filled.old filled.new) }
    ensures skipped { OnOk result (reading.entry.skips_bad ≡ false → filled.new.left_out ≡ filled.old.left_out) }
{
    match read_row(reading, layout, record) {
        Ok(row) => put(reading.alloc, row, line, txn, filled),
        Err(fault) => leave_out(reading, line, fault, filled),
    }
}

/// Counts a record that is no row, or ends with it.
fn leave_out(
    reading: Reading<'_>,
    line: u64,
    fault: BadRow,
    filled: &mut Filled,
) -> Result<(), Failure>
    requires { filled.old.left_out < 2 ^ 64 - 1 }
    ensures bad { OnOk result (IsOfRecord fault) }
    ensures skipped { OnOk result (reading.entry.skips_bad ≡ true) }
    ensures left_out { OnOk result (IsLeftOut filled.old filled.new) }
{
    if reading.skips_bad && fault.is_of_record() {
        filled.left_out += 1;
        return Ok(());
    }
    let place = match fault {
        BadRow::Cell(place, _) => place,
        _ => 0,
    };
    let name = match reading.columns.get(place) {
        Some(column) => column.name.clone()?,
        None => String::new(reading.alloc),
    };
    Err(Failure::Row(line, fault, name))
}

/// Puts a row into the table.
fn put(alloc: Global, row: Row, line: u64, txn: u64, filled: &mut Filled) -> Result<(), Failure>
    requires { filled.old.rows < 2 ^ 64 - 1 }
    ensures { OnOk result (PutsRow row line filled.old filled.new) }
{
    add_sizes(filled.sizes.as_mut_slice(), row.cells());
    match filled.heap.insert(txn, row) {
        Ok((_, rid)) => filled.lines.note(rid, line)?,
        Err(fault) => return Err(Failure::Row(line, BadRow::Refused(fault), String::new(alloc))),
    }
    filled.rows += 1;
    Ok(())
}

/// Another row has these cells.
fn add_sizes(sizes: &mut [KeySizes], cells: &[Cell])
    ensures { AddsRow cells.now sizes.old sizes.new }
{
    for (place, of_column) in sizes.iter_mut().enumerate() {
        if let Some(cell) = cells.get(place) {
            of_column.add(cell);
        }
    }
}

/// The row that a record is.
fn read_row(reading: Reading<'_>, layout: &Layout, record: &ByteRecord) -> Result<Row, BadRow>
    ensures spelled { IfOk result (SpellsRow layout.now.width layout.now.sources.items (fields_of «record».now)) }
    ensures refused { IfErr result (λ bad. IsOfRecord bad → IsNoRow layout.now.width layout.now.sources.items (fields_of «record».now)) }
{
    if record.len() != layout.width {
        return Err(BadRow::Fields {
            found: record.len(),
            wanted: layout.width,
        });
    }
    let mut cells = Vec::with_capacity(reading.alloc, layout.sources.len())?;
    for (place, source) in layout.sources.iter().enumerate() {
        match cell_at(reading.alloc, *source, record) {
            Ok(cell) => cells.push(cell)?,
            Err(fault) => return Err(BadRow::Cell(place, fault)),
        }
    }
    Ok(Row::new(cells)?)
}

/// The cell that a record has of a column.
fn cell_at(alloc: Global, source: Source, record: &ByteRecord) -> Result<Cell, CellFault>
    ensures read { IfOk result (IsCellAt (fields_of «record».now) source) }
    ensures refused { IfErr result (λ fault. (fault ≡ CellFault.Memory)
        ⊎ IsNoCell source.kind (field_or_empty (field_at (fields_of «record».now) source.at))) }
{
    match record.get(source.at) {
        Some(field) => cell(alloc, source.kind, field),
        None => cell(alloc, source.kind, &[]),
    }
}
