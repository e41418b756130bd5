//! The bytes of cells that are handed out.
ghost use Rattle.std.specs.Prelude.{◌≡◌, true, None, IfOk, IfErr};
ghost use Rattle.keybytes.specs.Cells.{fits, fits_kind};
ghost use Rattle.keybytes.specs.Rows.{row_bytes, row_refusal};

use keybytes::{Cell, Fault, Kind, Row, Schema};
use std::alloc::Global;

/// The bytes of a row of these cells, whatever their kinds.
pub(crate) fn bytes_of_cells(alloc: Global, cells: Vec<Cell>) -> Result<Vec<u8>, Fault>
    requires { row_refusal cells.items ≡ None }
    ensures ok { IfOk result (λ bytes. bytes.items ≡ row_bytes cells.items) }
    ensures memory { IfErr result (λ fault. fault ≡ Fault.Memory) }
{
    let schema = Schema::new(kinds_of(alloc, &cells)?)?;
    Row::new(cells)?.to_bytes(&schema)
}

/// The columns that take these cells, one for each, or [`Fault::Memory`].
fn kinds_of(alloc: Global, cells: &[Cell]) -> Result<Vec<Kind>, Fault>
    ensures ok { IfOk result (λ kinds. fits kinds.items cells.now ≡ true) }
    ensures memory { IfErr result (λ fault. fault ≡ Fault.Memory) }
{
    let mut kinds = Vec::with_capacity(alloc, cells.len())?;
    for cell in cells {
        kinds.push(kind_that_takes(cell))?;
    }
    Ok(kinds)
}

/// The kind of a column that takes the cell.
fn kind_that_takes(cell: &Cell) -> Kind
    ensures { fits_kind result cell.now ≡ true }
{
    match cell {
        Cell::Null | Cell::Int(_) => Kind::Int,
        Cell::Text(_) => Kind::Text,
        Cell::Flag(_) => Kind::Flag,
    }
}
