ghost use Rattle.std.specs.Prelude.{◌≡◌, ◌↔◌, ◌&&◌, not, slice_index_or, IfOk, IfErr, IsTrue};
ghost use Rattle.std.specs.Ordering.{eq_by_cmp, is_lt};
ghost use Rattle.keybytes.specs.Cells.{cell_cmp};
ghost use Rattle.keybytes.specs.Conditions.{is_condition, is_null, may_be_asked, meets};

use crate::{Cell, Fault, Kind, Row, Schema};
use std::cmp::Ordering;

/// What a partial index asks of a row: something of its cell in one column, whose place among the table's is counted from 0. A
/// row that doesn't meet it isn't in the index.
#[derive(Drop)]
pub enum When {
    /// It is this cell.
    Equal(usize, Cell),
    /// It isn't Null, and comes before this one in ascending order.
    Less(usize, Cell),
    /// It is Null.
    IsNull(usize),
}

impl When {
    /// Whether the row meets the condition. Where a row ends before the column, its cell there counts as Null.
    pub fn is_met(&self, row: &Row) -> bool
        ensures { result ≡ meets self.now row.now }
    {
        match self {
            When::Equal(column, given) => is_equal(
                cell_in(*column, row.cells(), &Cell::Null),
                given,
            ),
            When::Less(column, bound) => is_below(
                cell_in(*column, row.cells(), &Cell::Null),
                bound,
            ),
            When::IsNull(column) => cell_in(*column, row.cells(), &Cell::Null).is_null(),
        }
    }

    /// A copy, or [`Fault::Memory`].
    pub fn clone(&self) -> Result<When, Fault>
        ensures same { IfOk result (λ condition. condition ≡ self.now) }
        ensures memory { IfErr result (λ fault. fault ≡ Fault.Memory) }
    {
        Ok(match self {
            When::Equal(column, given) => When::Equal(*column, given.clone()?),
            When::Less(column, bound) => When::Less(*column, bound.clone()?),
            When::IsNull(column) => When::IsNull(*column),
        })
    }

    /// Whether both ask the same of the same column.
    pub(crate) fn is_same(&self, other: &When) -> bool
        ensures { IsTrue result ↔ (self.now ≡ other.now) }
    {
        match (self, other) {
            (When::Equal(column, given), When::Equal(others, other)) => column == others
                && given.compare(other) == Ordering::Equal,
            (When::Less(column, bound), When::Less(others, other)) => column == others
                && bound.compare(other) == Ordering::Equal,
            (When::IsNull(column), When::IsNull(others)) => column == others,
            _ => false,
        }
    }

    /// Whether rows of the table may be asked for it: the column is there, and the cell is one that its rows may hold there, other
    /// than Null.
    pub fn is_of(&self, schema: &Schema) -> bool
        ensures { result ≡ is_condition schema.now self.now }
    {
        self.is_of_kinds(schema.kinds())
    }

    /// The same of a table with columns of these kinds.
    pub(crate) fn is_of_kinds(&self, kinds: &[Kind]) -> bool
        ensures { result ≡ is_condition kinds.now self.now }
    {
        match self {
            When::Equal(column, given) => may_be_asked(kinds, *column, given),
            When::Less(column, bound) => may_be_asked(kinds, *column, bound),
            When::IsNull(column) => *column < kinds.len(),
        }
    }
}

/// The cell in a column, or else `null`.
fn cell_in<'a>(column: usize, cells: &'a [Cell], null: &'a Cell) -> &'a Cell
    ensures { result.now ≡ slice_index_or cells.now column null.now }
{
    match cells.get(column) {
        Some(cell) => cell,
        None => null,
    }
}

fn is_equal(cell: &Cell, given: &Cell) -> bool
    ensures { result ≡ eq_by_cmp cell_cmp cell.now given.now }
{
    cell.compare(given) == Ordering::Equal
}

fn is_below(cell: &Cell, bound: &Cell) -> bool
    ensures { result ≡ (not (is_null cell.now) && is_lt (cell_cmp cell.now bound.now)) }
{
    !cell.is_null() && cell.compare(bound) == Ordering::Less
}

fn may_be_asked(kinds: &[Kind], column: usize, cell: &Cell) -> bool
    ensures { result ≡ may_be_asked kinds.now column cell.now }
{
    column < kinds.len() && !cell.is_null() && cell.fits(kinds[column]) && cell.is_short()
}
