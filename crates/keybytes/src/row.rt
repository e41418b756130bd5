ghost use Rattle.std.specs.Prelude.{List, ◌≡◌, ◌≢◌, ◌≤◌, ◌<◌, length, IfOk, IfErr, OnOk, Some, None, true};
ghost use Rattle.keybytes.specs.declared.cell.Cell.{Cell};
ghost use Rattle.keybytes.specs.Faults.{RefusedFor};
ghost use Rattle.keybytes.specs.Rows.{IsRow, row_bytes, row_refusal, shape_refusal, Spells, RefusesRow, RefusesReading};
ghost use Rattle.keybytes.specs.Cells.{fits};

use crate::row_bytes::{cell_size, push_cell, read_cell, skip_cell};
use crate::{Cell, Fault, Kind, Schema};
use std::alloc::Global;
use std::marker::Model;

/// The greatest number of cells of a row.
pub const CELLS_MAX: usize = 12;

/// A row: 1 to 12 cells, none with a text of more than 100 bytes. Contracts see the list of its cells.
pub struct Row {
    cells: Vec<Cell>,
}

impl Drop for Row {
    fn drop(self) {
        let Row { cells: _ } = self;
    }
}

impl Model for Row {
    ghost use Rattle.std.specs.Prelude.{List};
    ghost use Rattle.keybytes.specs.declared.cell.Cell.{Cell};

    ghost Value = { List Cell };

    ghost use Rattle.keybytes.specs.Rows.{IsRow};

    ghost view = { λ row. row.cells.items };

    ghost invariant = { λ row. IsRow row.cells.items };
}

impl Row {
    /// A row of these cells. No cells or more than [`CELLS_MAX`] are [`Fault::RowShape`], else a text that is too long
    /// is [`Fault::TextTooLong`]. Takes no memory.
    pub fn new(cells: Vec<Cell>) -> Result<Row, Fault>
        ensures ok { IfOk result (λ row. row ≡ cells.items) }
        ensures accepted { OnOk result (row_refusal cells.items ≡ None) }
        ensures refused { IfErr result (λ fault. row_refusal cells.items ≡ Some fault) }
    {
        if cells.is_empty() || cells.len() > CELLS_MAX {
            return Err(Fault::RowShape);
        }
        for cell in &cells {
            if !cell.is_short() {
                return Err(Fault::TextTooLong);
            }
        }
        Ok(Row { cells })
    }

    pub fn cells(&self) -> &[Cell]
        ensures cells { result.now ≡ self.now }
        ensures row { IsRow self.now }
    {
        self.cells.as_slice()
    }

    /// A copy, or [`Fault::Memory`].
    pub fn clone(&self) -> Result<Row, Fault>
        ensures same { IfOk result (λ row. row ≡ self.now) }
        ensures memory { IfErr result (λ fault. fault ≡ Fault.Memory) }
    {
        let mut cells = Vec::with_capacity(*self.cells.allocator(), self.cells.len())?;
        for cell in &self.cells {
            cells.push(cell.clone()?)?;
        }
        Ok(Row { cells })
    }

    /// Whether the row has a table's columns: as many cells, each of its column's kind or Null.
    pub fn fits(&self, schema: &Schema) -> bool
        ensures { result ≡ fits schema.now self.now }
    {
        cells_fit(schema.kinds(), self.cells())
    }

    /// How many bytes [`Row::to_bytes`] makes of the row.
    pub fn size(&self) -> usize
        ensures size { result ≡ length (row_bytes self.now) }
        ensures some { 0 < result }
        ensures limit { result ≤ 1224 }
    {
        let mut size = 0;
        for cell in &self.cells {
            size += cell_size(cell);
        }
        size
    }

    /// The bytes of the row, 1 to 1,224 of them; a row that does not fit the columns is [`Fault::RowShape`], before any
    /// memory is asked for.
    pub fn to_bytes(&self, schema: &Schema) -> Result<Vec<u8>, Fault>
        ensures ok { IfOk result (λ bytes. bytes.items ≡ row_bytes self.now) }
        ensures accepted { OnOk result (shape_refusal schema.now self.now ≡ None) }
        ensures refused { IfErr result (RefusedFor (shape_refusal schema.now self.now)) }
        ensures is_row { OnOk result (IsRow self.now) }
        ensures some { IfOk result (λ bytes. 0 < length bytes.items) }
        ensures size { IfOk result (λ bytes. length bytes.items ≤ 1224) }
    {
        if !self.fits(schema) {
            return Err(Fault::RowShape);
        }
        let mut bytes = Vec::new(*self.cells.allocator());
        self.write_bytes(&mut bytes)?;
        Ok(bytes)
    }

    /// Puts the bytes of the row in place of those that are there, which takes memory only where the list has no room for them.
    pub fn write_bytes(&self, bytes: &mut Vec<u8>) -> Result<(), Fault>
        ensures ok { OnOk result (bytes.new.items ≡ row_bytes self.now) }
        ensures memory { IfErr result (λ fault. fault ≡ Fault.Memory) }
        ensures is_row { OnOk result (IsRow self.now) }
        ensures some { OnOk result (0 < length bytes.new.items) }
        ensures size { OnOk result (length bytes.new.items ≤ 1224) }
    {
        bytes.clear();
        bytes.reserve(self.size())?;
        for cell in &self.cells {
            push_cell(bytes, cell)?;
        }
        Ok(())
    }

    /// Reads the bytes of a row that fits the columns. A text's length above 100 is [`Fault::TextTooLong`] where the
    /// bytes leave the spelling there first; every other departure is [`Fault::RowShape`]. [`Fault::Memory`] is answered
    /// only of bytes that spell a row.
    pub fn read(alloc: Global, bytes: &[u8], schema: &Schema) -> Result<Row, Fault>
        ensures ok { IfOk result (λ row. Spells schema.now bytes.now row) }
        ensures alone { IfOk result (λ row. (cells : List Cell) → Spells schema.now bytes.now cells → cells ≡ row) }
        ensures refused { IfErr result (RefusesReading schema.now bytes.now) }
    {
        match Row::read_cells(alloc, bytes, schema) {
            Ok(row) => Ok(row),
            Err(Fault::Memory) => {
                check_spelling(schema.kinds(), bytes)?;
                Err(Fault::Memory)
            }
            Err(fault) => Err(fault),
        }
    }

    /// Reads the cells one after the other; memory may be wanting for one before a later one turns out to be misspelled.
    fn read_cells(alloc: Global, bytes: &[u8], schema: &Schema) -> Result<Row, Fault>
        ensures ok { IfOk result (λ row. Spells schema.now bytes.now row) }
        ensures alone { IfOk result (λ row. (cells : List Cell) → Spells schema.now bytes.now cells → cells ≡ row) }
        ensures refused { IfErr result (λ fault. fault ≢ Fault.Memory → RefusesRow schema.now bytes.now fault) }
    {
        let kinds = schema.kinds();
        let mut cells = Vec::with_capacity(alloc, kinds.len())?;
        let mut rest = bytes;
        for kind in kinds {
            let (cell, after) = read_cell(alloc, *kind, rest)?;
            cells.push(cell)?;
            rest = after;
        }
        if !rest.is_empty() {
            return Err(Fault::RowShape);
        }
        Ok(Row { cells })
    }
}

/// Whether bytes spell a row of these columns. Takes no memory.
fn check_spelling(kinds: &[Kind], bytes: &[u8]) -> Result<(), Fault>
    ensures ok { OnOk result ((cells : List Cell) × Spells kinds.now bytes.now cells) }
    ensures refused { IfErr result (RefusesRow kinds.now bytes.now) }
{
    let mut rest = bytes;
    for kind in kinds {
        rest = skip_cell(*kind, rest)?;
    }
    match rest {
        [] => Ok(()),
        _ => Err(Fault::RowShape),
    }
}

/// Whether the cells are as many as the kinds, and each of its kind.
fn cells_fit(kinds: &[Kind], cells: &[Cell]) -> bool
    ensures { result ≡ fits kinds.now cells.now }
{
    if kinds.len() != cells.len() {
        return false;
    }
    for (i, kind) in kinds.iter().enumerate() {
        if !cells[i].fits(*kind) {
            return false;
        }
    }
    true
}
