ghost use Rattle.csv_index.specs.Failures.{NamesRefusal};

use crate::table::bad_row::BadRow;
use crate::table::cell_fault::CellFault;
use crate::table::refusal::Refusal;
use keybytes::Fault;
use std::alloc::{AllocError, AllocFailed, Global};
use std::{fmt, io};

/// Why a run came to nothing.
#[derive(Drop)]
pub enum Failure {
    CannotRead(io::Error),
    CannotPrint,
    /// Something that the words or the header say, with its text.
    Refused(Refusal, String),
    /// A cell of a key that is looked for is none of its column: the key, and the column's name.
    KeyCell(CellFault, String, String),
    /// The record that begins in that line is no row. The text is the column's name, or that of the first one.
    Row(u64, BadRow, String),
    /// The table or its build refuses all.
    Table(Fault),
}

impl Failure {
    /// The refusal of a text.
    pub fn refused(alloc: Global, refusal: Refusal, text: &str) -> Failure
        ensures { NamesRefusal refusal text.now result }
    {
        match String::from_str(alloc, text) {
            Ok(text) => Failure::Refused(refusal, text),
            Err(_) => Failure::Table(Fault::Memory),
        }
    }

    /// Whether it is about the file, and not about the words.
    pub fn is_of_file(&self) -> bool {
        match self {
            Failure::CannotRead(_) | Failure::Row(..) => true,
            Failure::Refused(refusal, _) => refusal.is_of_header(),
            _ => false,
        }
    }
}

impl fmt::Display for Failure {
    fn fmt<W: fmt::Write>(&self, f: &mut fmt::Formatter<W>) -> fmt::Result {
        match self {
            Failure::CannotRead(error) => write!(f, "cannot be read: {error}"),
            Failure::CannotPrint => f.write_str("the answer can't be written"),
            Failure::Refused(refusal, text) if text.is_empty() => write!(f, "{refusal}"),
            Failure::Refused(refusal, text) => write!(f, "`{text}`: {refusal}"),
            Failure::KeyCell(fault, text, column) => {
                write!(f, "`{text}`: no key: column `{column}`: {fault}")
            }
            Failure::Row(line, BadRow::Fields { found, wanted }, _) => {
                write!(
                    f,
                    "line {line}: fields: {found}, and the header has {wanted}"
                )
            }
            Failure::Row(line, BadRow::Cell(_, fault), column) => {
                write!(f, "line {line}, column `{column}`: {fault}")
            }
            Failure::Row(line, BadRow::Refused(fault), _) => write!(f, "line {line}: {fault}"),
            Failure::Table(Fault::NoPage) => {
                f.write_str(
                    "a worker met more pairs than its spools have room for: take fewer workers",
                )
            }
            Failure::Table(fault) => write!(f, "{fault}"),
        }
    }
}

impl From<Fault> for Failure {
    ghost use Rattle.std.specs.Prelude.{◌≡◌};
    ghost use Rattle.csv_index.specs.declared.table.failure.Failure.TheVariants.{Table};

    ghost from_gives = { λ fault failure. failure ≡ Table fault };

    fn from(fault: Fault) -> Failure {
        Failure::Table(fault)
    }
}

impl From<AllocError> for Failure {
    ghost use Rattle.csv_index.specs.Failures.{LacksMemory};

    ghost from_gives = { λ _ failure. LacksMemory failure };

    fn from(_error: AllocError) -> Failure {
        Failure::Table(Fault::Memory)
    }
}

impl<T: Drop> From<AllocFailed<T>> for Failure {
    ghost use Rattle.csv_index.specs.Failures.{LacksMemory};

    ghost from_gives = { λ _ failure. LacksMemory failure };

    fn from(_error: AllocFailed<T>) -> Failure {
        Failure::Table(Fault::Memory)
    }
}

impl From<io::Error> for Failure {
    fn from(_error: io::Error) -> Failure {
        Failure::CannotPrint
    }
}
