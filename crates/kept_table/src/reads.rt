//! What is read of a table that is kept.
ghost use Rattle.std.specs.Prelude.{◌≡◌, true, List, Some, IfOk, IfErr, OnOk, OnErr};
ghost use Rattle.keybytes.specs.Cells.{fits};
ghost use Rattle.keybytes.specs.Faults.{RefusedFor};
ghost use Rattle.keybytes.specs.Rows.{RefusesReading, Spells};
ghost use Rattle.keybytes.specs.declared.cell.Cell.{Cell};
ghost use Rattle.heap_log.specs.Standing.{live_at};
ghost use Rattle.heap_table.specs.HeapState.{after_visit, row_missing};
ghost use Rattle.heap_table.specs.Pages.{pages_written};
ghost use Rattle.build_events.specs.CoreState.{with_heap};

use crate::Kept;
use crate::kept::taken;
use crate::unnamed_counted::UnnamedCounted;
use builder_core::TableRings;
use keybytes::{Fault, Rid, Row, Schema};
use std::marker::Brand;

impl Kept {
    /// The row that stands at a RID now; [`Fault::NoSuchRow`] where none does. Counts as a visit.
    pub fn get(&mut self, rid: Rid) -> Result<Row, Fault>
        ensures ok { IfOk result (λ row. live_at self.old.core.live.heap.log rid ≡ Some row) }
        ensures fits { IfOk result (λ row. fits self.old.core.live.heap.schema row ≡ true) }
        ensures visited { OnOk result (self.new.core ≡ with_heap self.old.core (after_visit self.old.core.live.heap)) }
        ensures unchanged { OnErr result (self.new.core ≡ self.old.core) }
        ensures refused { IfErr result (RefusedFor (row_missing (live_at self.old.core.live.heap.log rid))) }
        ensures decided { self.new.decided ≡ self.old.decided }
        ensures waited { self.new.waited ≡ self.old.waited }
    {
        let (table, row) = row_at::<Brand>(taken(&mut self.table), rid);
        self.table = Some(table);
        row
    }

    /// The columns. Takes no memory.
    pub fn schema(&mut self) -> Schema
        ensures schema { result ≡ self.old.core.live.heap.schema }
        ensures unchanged { self.new ≡ self.old }
    {
        let (table, schema) = schema_of::<Brand>(taken(&mut self.table));
        self.table = Some(table);
        schema
    }

    /// The number of pages. Takes no memory.
    pub fn pages(&mut self) -> u32
        ensures pages { result ≡ pages_written self.old.core.live.heap.log }
        ensures unchanged { self.new ≡ self.old }
    {
        let (table, pages) = pages_of::<Brand>(taken(&mut self.table));
        self.table = Some(table);
        pages
    }

    /// Reads the bytes of a row that fits the columns, as [`Row::read`].
    pub fn read_row(&mut self, bytes: &[u8]) -> Result<Row, Fault>
        ensures ok { IfOk result (λ row. Spells self.old.core.live.heap.schema bytes.now row) }
        ensures alone { IfOk result (λ row. (cells : List Cell) → Spells self.old.core.live.heap.schema bytes.now cells → cells ≡ row) }
        ensures refused { IfErr result (RefusesReading self.old.core.live.heap.schema bytes.now) }
        ensures unchanged { self.new ≡ self.old }
    {
        let (table, row) = row_of::<Brand>(taken(&mut self.table), bytes);
        self.table = Some(table);
        row
    }
}

/// The table under a name, for a row.
fn row_at<T: TableRings>(table: UnnamedCounted, rid: Rid) -> (UnnamedCounted, Result<Row, Fault>)
    requires pages { table.pages ≡ T.pages }
    requires sides { table.sides ≡ T.sides }
    ensures ok { IfOk result.1 (λ row. live_at table.core.live.heap.log rid ≡ Some row) }
    ensures fits { IfOk result.1 (λ row. fits table.core.live.heap.schema row ≡ true) }
    ensures visited { OnOk result.1 (result.0.core ≡ with_heap table.core (after_visit table.core.live.heap)) }
    ensures unchanged { OnErr result.1 (result.0.core ≡ table.core) }
    ensures refused { IfErr result.1 (RefusedFor (row_missing (live_at table.core.live.heap.log rid))) }
{
    let mut named = table.open::<T>();
    // Each row that stands has the table's columns.
    named.core().live().heap().laws();
    let row = named.get(rid);
    (named.unname(), row)
}

/// The table under a name, for its columns.
fn schema_of<T: TableRings>(table: UnnamedCounted) -> (UnnamedCounted, Schema)
    requires pages { table.pages ≡ T.pages }
    requires sides { table.sides ≡ T.sides }
    ensures schema { result.1 ≡ table.core.live.heap.schema }
    ensures unchanged { result.0.core ≡ table.core }
{
    let named = table.open::<T>();
    let schema = named.core().live().heap().schema().copy();
    (named.unname(), schema)
}

/// The table under a name, for the number of its pages.
fn pages_of<T: TableRings>(table: UnnamedCounted) -> (UnnamedCounted, u32)
    requires pages { table.pages ≡ T.pages }
    requires sides { table.sides ≡ T.sides }
    ensures pages { result.1 ≡ pages_written table.core.live.heap.log }
    ensures unchanged { result.0.core ≡ table.core }
{
    let named = table.open::<T>();
    let pages = named.core().live().heap().pages();
    (named.unname(), pages)
}

/// The table under a name, for the row that bytes spell.
fn row_of<T: TableRings>(
    table: UnnamedCounted,
    bytes: &[u8],
) -> (UnnamedCounted, Result<Row, Fault>)
    requires pages { table.pages ≡ T.pages }
    requires sides { table.sides ≡ T.sides }
    ensures ok { IfOk result.1 (λ row. Spells table.core.live.heap.schema bytes.now row) }
    ensures alone { IfOk result.1 (λ row. (cells : List Cell) → Spells table.core.live.heap.schema bytes.now cells → cells ≡ row) }
    ensures refused { IfErr result.1 (RefusesReading table.core.live.heap.schema bytes.now) }
    ensures unchanged { result.0.core ≡ table.core }
{
    let named = table.open::<T>();
    let live = named.core().live();
    let row = Row::read(live.allocator(), bytes, live.heap().schema());
    (named.unname(), row)
}
