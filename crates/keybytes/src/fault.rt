ghost use Rattle.std.specs.Prelude.{◌≡◌};
ghost use Rattle.keybytes.specs.Faults.{number_of, name_of};

use crate::Rid;
use std::alloc::{AllocError, AllocFailed};
use std::error::Error;
use std::fmt;

/// Why a call was refused. Each refusal has a number, under which scripts and their readers know it.
#[derive(Clone, Copy, PartialEq, Eq)]
pub enum Fault {
    BadColumn,
    TextTooLong,
    RowShape,
    TableFull,
    NoSuchRow,
    /// With the transaction that holds the row.
    RowHeld(u64),
    PageFull,
    NoSuchTxn,
    TooManyTxns,
    TxnEnding,
    Fenced,
    /// With the ready index and the RID that has the key.
    Duplicate(usize, Rid),
    /// With the ready index and the transaction that took the key away.
    KeyHeld(usize, u64),
    BuildRunning,
    NoBuild,
    BadRanges,
    BadCount,
    SpoolNotEmpty,
    RangeDone,
    RingFull,
    /// With the lowest range that has a page left to scan.
    NotScanned(usize),
    /// With the index that is not loaded.
    NotLoaded(usize),
    /// With the number of changes not applied yet.
    Behind(usize),
    /// With the number of open transactions that have written.
    Busy(usize),
    NoPage,
    /// With the number of pages that are missing.
    Short(usize),
    /// With the record's number in the script, from 1.
    BadScript(usize),
    /// With the lowest worker that has something left to seal.
    NotSealed(usize),
    Memory,
}

impl Fault {
    /// The number under which scripts know the refusal.
    pub fn number(self) -> u8
        ensures { result ≡ number_of self }
    {
        match self {
            Fault::BadColumn => 10,
            Fault::TextTooLong => 11,
            Fault::RowShape => 12,
            Fault::TableFull => 20,
            Fault::NoSuchRow => 21,
            Fault::RowHeld(_) => 22,
            Fault::PageFull => 23,
            Fault::NoSuchTxn => 24,
            Fault::TooManyTxns => 25,
            Fault::TxnEnding => 26,
            Fault::Fenced => 27,
            Fault::Duplicate(_, _) => 30,
            Fault::KeyHeld(_, _) => 31,
            Fault::BuildRunning => 40,
            Fault::NoBuild => 41,
            Fault::BadRanges => 42,
            Fault::BadCount => 43,
            Fault::SpoolNotEmpty => 44,
            Fault::RangeDone => 45,
            Fault::RingFull => 46,
            Fault::NotScanned(_) => 47,
            Fault::NotLoaded(_) => 48,
            Fault::Behind(_) => 49,
            Fault::Busy(_) => 50,
            Fault::NoPage => 51,
            Fault::Short(_) => 52,
            Fault::BadScript(_) => 53,
            Fault::NotSealed(_) => 54,
            Fault::Memory => 60,
        }
    }

    /// The refusal's name, as scripts print it.
    pub fn name(self) -> &'static str
        ensures { result.now ≡ name_of self }
    {
        match self {
            Fault::BadColumn => "BadColumn",
            Fault::TextTooLong => "TextTooLong",
            Fault::RowShape => "RowShape",
            Fault::TableFull => "TableFull",
            Fault::NoSuchRow => "NoSuchRow",
            Fault::RowHeld(_) => "RowHeld",
            Fault::PageFull => "PageFull",
            Fault::NoSuchTxn => "NoSuchTxn",
            Fault::TooManyTxns => "TooManyTxns",
            Fault::TxnEnding => "TxnEnding",
            Fault::Fenced => "Fenced",
            Fault::Duplicate(_, _) => "Duplicate",
            Fault::KeyHeld(_, _) => "KeyHeld",
            Fault::BuildRunning => "BuildRunning",
            Fault::NoBuild => "NoBuild",
            Fault::BadRanges => "BadRanges",
            Fault::BadCount => "BadCount",
            Fault::SpoolNotEmpty => "SpoolNotEmpty",
            Fault::RangeDone => "RangeDone",
            Fault::RingFull => "RingFull",
            Fault::NotScanned(_) => "NotScanned",
            Fault::NotLoaded(_) => "NotLoaded",
            Fault::Behind(_) => "Behind",
            Fault::Busy(_) => "Busy",
            Fault::NoPage => "NoPage",
            Fault::Short(_) => "Short",
            Fault::BadScript(_) => "BadScript",
            Fault::NotSealed(_) => "NotSealed",
            Fault::Memory => "Memory",
        }
    }

    /// What a refusal without numbers says.
    fn words(self) -> &'static str {
        match self {
            Fault::BadColumn =>
                "a column is not there, is named twice, there are too few or too many, or the table does not have such a condition",
            Fault::TextTooLong => "a text is longer than 100 bytes",
            Fault::RowShape => "the row does not fit the table's columns",
            Fault::TableFull => "the table has no page left for the row",
            Fault::NoSuchRow => "no row stands there",
            Fault::PageFull => "the page has no room for the row",
            Fault::NoSuchTxn => "no such transaction is open",
            Fault::TooManyTxns => "no further transaction can be opened",
            Fault::TxnEnding => "the transaction is being undone",
            Fault::Fenced => "new transactions wait until the index build has decided",
            Fault::BuildRunning => "an index build is running",
            Fault::NoBuild => "no index build is running",
            Fault::BadRanges => "the page ranges do not cover the table, or there are too many",
            Fault::BadCount => "a number is out of its limits",
            Fault::SpoolNotEmpty => "a spool is not empty",
            Fault::RangeDone => "every page of the range is scanned",
            Fault::RingFull => "the worker has not taken its page copies yet",
            Fault::NoPage => "no page is left to lease",
            Fault::Memory => "no memory",
            _ => "",
        }
    }
}

impl fmt::Display for Fault {
    fn fmt<W: fmt::Write>(&self, f: &mut fmt::Formatter<W>) -> fmt::Result {
        let words = self.words();
        match self {
            Fault::RowHeld(txn) => write!(f, "transaction {txn} holds the row until it ends"),
            Fault::Duplicate(index, rid) => {
                write!(f, "ready index {index} has the key already, at {rid}")
            }
            Fault::KeyHeld(index, txn) => {
                write!(
                    f,
                    "transaction {txn} may still give the key of ready index {index} back"
                )
            }
            Fault::NotScanned(range) => write!(f, "range {range} is not scanned to its end"),
            Fault::NotLoaded(index) => write!(f, "index {index} is not loaded"),
            Fault::Behind(changes) => write!(f, "{changes} changes are not applied yet"),
            Fault::Busy(txns) => write!(f, "{txns} open transactions have written"),
            Fault::Short(pages) => write!(f, "{pages} leased pages are missing"),
            Fault::BadScript(record) => write!(f, "record {record} is bad"),
            Fault::NotSealed(worker) => write!(f, "worker {worker} is not sealed"),
            _ => f.write_str(words),
        }
    }
}

impl fmt::Debug for Fault {
    /// The name, and what the refusal says.
    fn fmt<W: fmt::Write>(&self, f: &mut fmt::Formatter<W>) -> fmt::Result {
        let name = self.name();
        write!(f, "{name}: {self}")
    }
}

impl Error for Fault {}

impl From<AllocError> for Fault {
    ghost use Rattle.std.specs.Prelude.{◌≡◌};
    ghost use Rattle.keybytes.specs.declared.fault.Fault.TheVariants.{Memory};

    ghost from_gives = { λ _ fault. fault ≡ Memory };

    fn from(_error: AllocError) -> Fault {
        Fault::Memory
    }
}

impl<T: Drop> From<AllocFailed<T>> for Fault {
    ghost use Rattle.std.specs.Prelude.{◌≡◌};
    ghost use Rattle.keybytes.specs.declared.fault.Fault.TheVariants.{Memory};

    ghost from_gives = { λ _ fault. fault ≡ Memory };

    fn from(_error: AllocFailed<T>) -> Fault {
        Fault::Memory
    }
}
