//! The undo of a transaction, write by write, the newest first.
ghost use Rattle.std.specs.Prelude.{◌≡◌, ℕ, length, Some, None, IsSome, IfSome, IfOk, IfErr, OnOk, OnErr};
ghost use Rattle.keybytes.specs.Answered.{Answered};
ghost use Rattle.keybytes.specs.Faults.{RefusedFor};
ghost use Rattle.heap_log.specs.Standing.{record_at, rid_of, place_of, row_at, newest_standing, standing_before, standing_count};
ghost use Rattle.heap_table.specs.Calls.{OnState, Undoes};
ghost use Rattle.heap_table.specs.HeapState.{undo_refusal, after_step};
ghost use Rattle.heap_table.specs.Pages.{SetsRow};
ghost use Rattle.heap_table.specs.Ready.{IsReady, IsUndo};

use super::Heap;
use super::transactions::has;
use crate::changes::{end, go_on_ending, undo_slot};
use crate::{Ready, Undone};
use heap_log::LogRec;
use keybytes::{Fault, Rid, Row};
use std::mem::swap;

impl Heap {
    /// Makes the undo of the transaction's newest standing write ready, as [`Heap::undo_step`] would do it; none where no
    /// write of it stands.
    pub fn ready_undo(&mut self, txn: u64) -> Result<Option<Ready>, Fault>
        ensures ready { IfOk result (λ ready. IfSome ready (IsReady self.new)) }
        ensures undoes { IfOk result (λ ready. IfSome ready (λ r. (n : ℕ) → newest_standing self.old.state.log txn ≡ Some n → IsUndo r txn n)) }
        ensures found { IfOk result (λ ready. IfSome ready (λ r. IsSome (newest_standing self.old.state.log txn))) }
        ensures none { result ≡ Ok None → newest_standing self.old.state.log txn ≡ None }
        ensures same { OnOk result (self.new.state ≡ self.old.state) }
        ensures accepted { OnOk result (undo_refusal self.old.state txn ≡ None) }
        ensures unchanged { OnErr result (self.new ≡ self.old) }
        ensures refused { IfErr result (RefusedFor (undo_refusal self.old.state txn)) }
    {
        if !has(&self.open_txns, txn) {
            return Err(Fault::NoSuchTxn);
        }
        let Some(number) = self.log.newest(txn) else {
            return Ok(None);
        };
        let (rid, new) = self.row_before(number)?;
        let bytes = self.bytes_of(&new)?;
        let old = self.row_at(rid)?;
        self.reserve(rid)?;
        Ok(Some(Ready {
            rid,
            old,
            new,
            txn,
            undone: Some(number),
            bytes,
        }))
    }

    /// Undoes the transaction's newest standing write, after which it can only be undone further; with its last one it
    /// ends. A transaction without a write ends, and leaves no record. [`Fault::NoSuchTxn`] where it isn't open. A step
    /// refused for want of memory is taken up again by the next call; there is always room for the row that comes back.
    pub fn undo_step(&mut self, txn: u64) -> Result<Undone, Fault>
        ensures undone { Answered (undo_refusal self.old.state txn) (OnState (Undoes txn)) self.old result self.new }
        ensures rows { let log = self.old.state.log in OnOk result ((n : ℕ) → newest_standing log txn ≡ Some n
            → SetsRow log (rid_of (record_at log n)) (row_at log (standing_before log n)) self.new.state.log) }
    {
        let Some(ready) = self.ready_undo(txn)? else {
            end(&mut self.open_txns, txn);
            return Ok(Undone { number: 0, left: 0 });
        };
        let Some(number) = ready.undone else {
            unreachable!()
        };
        Ok(self.undo(number, ready))
    }

    /// Performs the undo of the write of that number.
    pub(super) fn undo(&mut self, number: usize, mut ready: Ready) -> Undone
        requires ready { IsReady self.old ready }
        requires undo { ready.undone ≡ Some number }
        ensures undone { self.new.state ≡ after_step self.old.state ready.txn (Some number) }
        ensures rows { let log = self.old.state.log in
            SetsRow log (rid_of (record_at log number)) (row_at log (standing_before log number)) self.new.state.log }
        ensures number { result.number ≡ length self.new.state.log }
        ensures left { result.left ≡ standing_count self.new.state.log ready.txn }
    {
        let txn = ready.txn;
        undo_slot(&mut self.pages, &ready);
        self.log.add(LogRec::Undo {
            txn,
            undone: number,
        });
        let left = self.log.standing(txn);
        go_on_ending(&mut self.open_txns, &mut self.pages, &self.log, txn, left);
        swap(&mut self.spare_bytes, &mut ready.bytes);
        Undone {
            number: self.log.len(),
            left,
        }
    }

    /// Where a write was made, and a copy of the row that stood there before it.
    fn row_before(&self, number: usize) -> Result<(Rid, Option<Row>), Fault>
        requires { IsSome (place_of (record_at self.now.state.log number)) }
        ensures rid { IfOk result (λ before. before.0 ≡ rid_of (record_at self.now.state.log number)) }
        ensures row { IfOk result (λ before. before.1 ≡ row_at self.now.state.log (standing_before self.now.state.log number)) }
        ensures memory { IfErr result (λ fault. fault ≡ Fault.Memory) }
    {
        let LogRec::Write { rid, .. } = self.log.rec(number) else {
            unreachable!()
        };
        let Some(earlier) = self.log.before(number) else {
            return Ok((*rid, None));
        };
        match self.log.rec(earlier) {
            LogRec::Write { row: Some(row), .. } => Ok((*rid, Some(row.clone()?))),
            _ => Ok((*rid, None)),
        }
    }
}
