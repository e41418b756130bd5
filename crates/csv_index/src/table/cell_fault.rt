use std::alloc::AllocError;
use std::fmt;

/// Why a field isn't a cell of its column's kind.
#[derive(Clone, Copy, PartialEq, Eq)]
pub enum CellFault {
    NoInt,
    NoFlag,
    /// Its bytes aren't UTF-8.
    NoText,
    TooLong,
    Memory,
}

impl fmt::Display for CellFault {
    fn fmt<W: fmt::Write>(&self, f: &mut fmt::Formatter<W>) -> fmt::Result {
        f.write_str(match self {
            CellFault::NoInt => "no whole number of 64 bits",
            CellFault::NoFlag => "neither true nor false",
            CellFault::NoText => "not UTF-8",
            CellFault::TooLong => "a text of more than 100 bytes",
            CellFault::Memory => "no memory",
        })
    }
}

impl From<AllocError> for CellFault {
    ghost use Rattle.std.specs.Prelude.{◌≡◌};
    ghost use Rattle.csv_index.specs.declared.table.cell_fault.CellFault.TheVariants.{Memory};

    ghost from_gives = { λ _ fault. fault ≡ Memory };

    fn from(_error: AllocError) -> CellFault {
        CellFault::Memory
    }
}
