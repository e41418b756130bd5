ghost use Rattle.std.specs.Prelude.{◌≡◌, true};
ghost use Rattle.csv_index.specs.BadRows.{IsOfRecord};

use crate::table::cell_fault::CellFault;
use keybytes::Fault;
use std::alloc::{AllocError, AllocFailed};

/// Why a record is no row of the table.
#[derive(Clone, Copy, PartialEq, Eq)]
pub enum BadRow {
    /// It hasn't as many fields as the header.
    Fields { found: usize, wanted: usize },
    /// Its field in the column of that number is no cell.
    Cell(usize, CellFault),
    /// The table refuses it.
    Refused(Fault),
}

impl BadRow {
    /// Whether the record itself is at fault, and neither memory nor a full table.
    pub fn is_of_record(self) -> bool
        ensures { result ≡ true → IsOfRecord self }
    {
        match self {
            BadRow::Fields { .. } => true,
            BadRow::Cell(_, fault) => fault != CellFault::Memory,
            BadRow::Refused(_) => false,
        }
    }
}

impl From<Fault> for BadRow {
    ghost use Rattle.std.specs.Prelude.{◌≡◌};
    ghost use Rattle.csv_index.specs.declared.table.bad_row.BadRow.TheVariants.{Refused};

    ghost from_gives = { λ fault bad. bad ≡ Refused fault };

    fn from(fault: Fault) -> BadRow {
        BadRow::Refused(fault)
    }
}

impl From<AllocError> for BadRow {
    ghost use Rattle.std.specs.Prelude.{◌≡◌};
    ghost use Rattle.keybytes.specs.declared.fault.Fault.TheVariants.{Memory};
    ghost use Rattle.csv_index.specs.declared.table.bad_row.BadRow.TheVariants.{Refused};

    ghost from_gives = { λ _ bad. bad ≡ Refused Memory };

    fn from(_error: AllocError) -> BadRow {
        BadRow::Refused(Fault::Memory)
    }
}

impl<T: Drop> From<AllocFailed<T>> for BadRow {
    ghost use Rattle.std.specs.Prelude.{◌≡◌};
    ghost use Rattle.keybytes.specs.declared.fault.Fault.TheVariants.{Memory};
    ghost use Rattle.csv_index.specs.declared.table.bad_row.BadRow.TheVariants.{Refused};

    ghost from_gives = { λ _ bad. bad ≡ Refused Memory };

    fn from(_error: AllocFailed<T>) -> BadRow {
        BadRow::Refused(Fault::Memory)
    }
}
