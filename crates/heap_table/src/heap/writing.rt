//! Inserts, updates and deletes.
ghost use Rattle.std.specs.Prelude.{◌≡◌, length, Some, None, IfOk, OnOk};
ghost use Rattle.keybytes.specs.Answered.{Answered};
ghost use Rattle.heap_table.specs.Calls.{OnState, Inserts, Updates, Deletes};
ghost use Rattle.heap_table.specs.HeapState.{insert_refusal, update_refusal, delete_refusal, after_write};
ghost use Rattle.heap_table.specs.Pages.{SetsRow};
ghost use Rattle.heap_table.specs.Ready.{IsReady};

use super::Heap;
use crate::Ready;
use crate::changes::write_slot;
use heap_log::LogRec;
use keybytes::{Fault, Rid, Row};
use std::mem::swap;

impl Heap {
    /// Puts a row into the lowest page with room, and answers the record's number and the row's RID. [`Fault::NoSuchTxn`]
    /// where the transaction isn't open, [`Fault::TxnEnding`] where it is being undone, [`Fault::RowShape`] where the row
    /// doesn't fit the columns, [`Fault::TableFull`] where no page has room and the page limit is reached, in that order.
    pub fn insert(&mut self, txn: u64, row: Row) -> Result<(usize, Rid), Fault>
        ensures inserted { Answered (insert_refusal self.old.state txn row) (OnState (Inserts txn row)) self.old result self.new }
        ensures rows { IfOk result (λ written. SetsRow self.old.state.log written.1 (Some row) self.new.state.log) }
    {
        let ready = self.ready_insert(txn, row)?;
        Ok(self.write(ready))
    }

    /// Gives a RID another row, and answers the record's number and the RID. Refused as an insert is, and then:
    /// [`Fault::RowHeld`] where another open transaction holds the RID, also where it emptied it, [`Fault::NoSuchRow`]
    /// where no row stands there, [`Fault::PageFull`] where the page has no room for the row.
    pub fn update(&mut self, txn: u64, rid: Rid, row: Row) -> Result<(usize, Rid), Fault>
        ensures updated { Answered (update_refusal self.old.state txn rid row) (OnState (Updates txn rid row)) self.old result self.new }
        ensures rows { OnOk result (SetsRow self.old.state.log rid (Some row) self.new.state.log) }
    {
        let ready = self.ready_update(txn, rid, row)?;
        Ok(self.write(ready))
    }

    /// Takes the row at a RID away, and answers the record's number and the RID. Refused as an update is. The slot and its
    /// room stay promised to an undo until the transaction ends.
    pub fn delete(&mut self, txn: u64, rid: Rid) -> Result<(usize, Rid), Fault>
        ensures deleted { Answered (delete_refusal self.old.state txn rid) (OnState (Deletes txn rid)) self.old result self.new }
        ensures rows { OnOk result (SetsRow self.old.state.log rid None self.new.state.log) }
    {
        let ready = self.ready_delete(txn, rid)?;
        Ok(self.write(ready))
    }

    /// Performs a write.
    pub(super) fn write(&mut self, mut ready: Ready) -> (usize, Rid)
        requires ready { IsReady self.old ready }
        requires write { ready.undone ≡ None }
        ensures written { self.new.state ≡ after_write self.old.state ready.txn ready.rid ready.new }
        ensures rows { SetsRow self.old.state.log ready.rid ready.new self.new.state.log }
        ensures number { result.0 ≡ length self.new.state.log }
        ensures rid { result.1 ≡ ready.rid }
    {
        write_slot(&mut self.pages, &ready);
        let rid = ready.rid;
        self.log.add(LogRec::Write {
            txn: ready.txn,
            rid,
            row: ready.new.take(),
        });
        swap(&mut self.spare_bytes, &mut ready.bytes);
        (self.log.len(), rid)
    }
}
