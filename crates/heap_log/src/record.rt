ghost use Rattle.std.specs.Prelude.{◌≡◌, None, IsOk, IfOk, IfErr};
ghost use Rattle.heap_log.specs.Copies.{IsBare};

use crate::Verdicts;
use keybytes::{Fault, Rid, Row};

/// A record of the log.
#[derive(Drop)]
pub enum LogRec {
    /// The transaction wrote the row that stands at a RID from here on; none where it deleted one.
    Write {
        txn: u64,
        rid: Rid,
        row: Option<Row>,
    },
    /// The transaction takes the write of that number back.
    Undo {
        txn: u64,
        undone: usize,
    },
    /// The transaction ends, and keeps its writes.
    Commit {
        txn: u64,
    },
    /// An index build ends, with a verdict on each of its indexes.
    Switch {
        verdicts: Verdicts,
    },
}

fn copy_of(row: &Option<Row>) -> Result<Option<Row>, Fault>
    ensures same { IfOk result (λ copy. copy ≡ row.now) }
    ensures memory { IfErr result (λ fault. fault ≡ Fault.Memory) }
    ensures none { row.now ≡ None → IsOk result }
{
    Ok(match row {
        Some(row) => Some(row.clone()?),
        None => None,
    })
}

impl LogRec {
    /// A copy; only a row and verdicts take memory for it.
    pub fn clone(&self) -> Result<LogRec, Fault>
        ensures same { IfOk result (λ copy. copy ≡ self.now) }
        ensures memory { IfErr result (λ fault. fault ≡ Fault.Memory) }
        ensures bare { IsBare self.now → IsOk result }
    {
        Ok(match self {
            LogRec::Write { txn, rid, row } => LogRec::Write {
                txn: *txn,
                rid: *rid,
                row: copy_of(row)?,
            },
            LogRec::Undo { txn, undone } => LogRec::Undo {
                txn: *txn,
                undone: *undone,
            },
            LogRec::Commit { txn } => LogRec::Commit { txn: *txn },
            LogRec::Switch { verdicts } => LogRec::Switch {
                verdicts: verdicts.clone()?,
            },
        })
    }
}
