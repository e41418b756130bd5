ghost use Rattle.std.specs.Prelude.{◌≡◌, ◌≢◌, ◌↔◌, List, ℕ, IsOk, IfOk, IfErr};
ghost use Rattle.std.specs.Bool.{OnTrue};
ghost use Rattle.std.specs.declared.cmp.Ordering.TheVariants.{Equal};
ghost use Rattle.keybytes.specs.Cells.{IsCell, cell_cmp, fits_kind, is_short};
ghost use Rattle.keybytes.specs.Conditions.{is_null};

use crate::{Fault, Kind, Text};
use std::cmp::Ordering;

/// The greatest number of bytes of a text in a row.
pub const TEXT_MAX: usize = 100;

/// One column's value in a row.
#[derive(Drop)]
pub enum Cell {
    Null,
    Int(i64),
    Text(Text),
    Flag(bool),
}

impl Cell {
    /// A copy; only a text takes memory.
    pub fn clone(&self) -> Result<Cell, Fault>
        ensures same { IfOk result (λ cell. cell ≡ self.now) }
        ensures memory { IfErr result (λ fault. fault ≡ Fault.Memory) }
        ensures plain { ((bytes : List ℕ) → self.now ≢ Cell.Text bytes) → IsOk result }
    {
        Ok(match self {
            Cell::Null => Cell::Null,
            Cell::Int(number) => Cell::Int(*number),
            Cell::Text(text) => Cell::Text(text.clone()?),
            Cell::Flag(flag) => Cell::Flag(*flag),
        })
    }

    /// Whether a column of that kind takes the cell.
    pub fn fits(&self, kind: Kind) -> bool
        ensures { result ≡ fits_kind kind self.now }
    {
        match (kind, self) {
            (_, Cell::Null) => true,
            (Kind::Int, Cell::Int(_)) => true,
            (Kind::Text, Cell::Text(_)) => true,
            (Kind::Flag, Cell::Flag(_)) => true,
            _ => false,
        }
    }

    /// Whether a row may hold the cell: its text, if it has one, is at most [`TEXT_MAX`] bytes.
    pub fn is_short(&self) -> bool
        ensures value { result ≡ is_short self.now }
        ensures cell { OnTrue result (IsCell self.now) }
    {
        match self {
            Cell::Null => true,
            Cell::Int(number) => {
                // Read, so that the clause knows a number of 64 bits.
                let _number = *number;
                true
            }
            Cell::Text(text) => text.as_str().len() <= TEXT_MAX,
            Cell::Flag(_) => true,
        }
    }

    pub fn is_null(&self) -> bool
        ensures { result ≡ is_null self.now }
    {
        matches!(self, Cell::Null)
    }

    /// The order of a column's cells: Null first, numbers by number, texts by their bytes, false before true.
    pub fn compare(&self, other: &Cell) -> Ordering
        ensures order { result ≡ cell_cmp self.now other.now }
        ensures same { (result ≡ Equal) ↔ (self.now ≡ other.now) }
    {
        match (self, other) {
            (Cell::Null, Cell::Null) => Ordering::Equal,
            (Cell::Null, _) => Ordering::Less,
            (_, Cell::Null) => Ordering::Greater,
            (Cell::Int(one), Cell::Int(other)) => one.cmp(other),
            (Cell::Int(_), _) => Ordering::Less,
            (_, Cell::Int(_)) => Ordering::Greater,
            (Cell::Text(one), Cell::Text(other)) => one
                .as_str()
                .as_bytes()
                .cmp(&other.as_str().as_bytes()),
            (Cell::Text(_), _) => Ordering::Less,
            (_, Cell::Text(_)) => Ordering::Greater,
            (Cell::Flag(one), Cell::Flag(other)) => one.cmp(other),
        }
    }
}
