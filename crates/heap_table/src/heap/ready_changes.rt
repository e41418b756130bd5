//! Changes made ready: looked at, given their memory, and performed later.
ghost use Rattle.std.specs.Prelude.{◌≡◌, length, Some, None, IfOk, IfErr, OnOk, OnErr, MatchResult};
ghost use Rattle.keybytes.specs.Faults.{RefusedFor};
ghost use Rattle.keybytes.specs.Rows.{row_bytes};
ghost use Rattle.heap_log.specs.Standing.{live_at};
ghost use Rattle.heap_table.specs.HeapState.{insert_place, new_row_refusal, insert_refusal, update_refusal, delete_refusal, row_missing};
ghost use Rattle.heap_table.specs.Pages.{SetsRow};
ghost use Rattle.heap_table.specs.Ready.{IsReady, Writes, after_ready, answer_of};

use super::Heap;
use crate::{Performed, Ready};
use keybytes::{Fault, Rid, Row};

impl Heap {
    /// Why an insert of the row would be refused, and else where it would go. Takes no memory.
    pub fn check_insert(&self, txn: u64, row: &Row) -> Result<Rid, Fault>
        ensures empty { IfOk result (λ rid. live_at self.now.state.log rid ≡ None) }
        ensures place { IfOk result (λ rid. insert_place self.now.state (length (row_bytes row.now)) ≡ Some rid) }
        ensures accepted { OnOk result (insert_refusal self.now.state txn row.now ≡ None) }
        ensures refused { IfErr result (λ fault. insert_refusal self.now.state txn row.now ≡ Some fault) }
    {
        self.check_row(txn, row)?;
        // That no row stands there is known once the pages are reached.
        let _pages = &self.pages;
        self.place(row.size())
    }

    /// Why an update to the row would be refused. Takes no memory.
    pub fn check_update(&self, txn: u64, rid: Rid, row: &Row) -> Result<(), Fault>
        ensures { MatchResult result
            (λ _. update_refusal self.now.state txn rid row.now ≡ None)
            (λ fault. update_refusal self.now.state txn rid row.now ≡ Some fault) }
    {
        self.check_row(txn, row)?;
        self.check_hold(txn, rid)?;
        self.check_there(rid)?;
        self.check_growth(rid, row.size())
    }

    /// Why a transaction may write no such row, wherever it goes.
    fn check_row(&self, txn: u64, row: &Row) -> Result<(), Fault>
        ensures { MatchResult result
            (λ _. new_row_refusal self.now.state txn row.now ≡ None)
            (λ fault. new_row_refusal self.now.state txn row.now ≡ Some fault) }
    {
        self.check_txn(txn)?;
        if !row.fits(&self.schema) {
            return Err(Fault::RowShape);
        }
        Ok(())
    }

    /// Whether a row stands at a RID.
    fn check_there(&self, rid: Rid) -> Result<(), Fault>
        ensures { MatchResult result
            (λ _. row_missing (live_at self.now.state.log rid) ≡ None)
            (λ fault. row_missing (live_at self.now.state.log rid) ≡ Some fault) }
    {
        match self.pages.row(rid) {
            Some(_) => Ok(()),
            None => Err(Fault::NoSuchRow),
        }
    }

    /// Makes an insert ready, as [`Heap::insert`] would do it: its memory is taken, and the table is as before.
    pub fn ready_insert(&mut self, txn: u64, row: Row) -> Result<Ready, Fault>
        ensures ready { IfOk result (λ ready. IsReady self.new ready) }
        ensures writes { IfOk result (λ ready. Writes ready txn (Some row)) }
        ensures empty { IfOk result (λ ready. ready.old ≡ None) }
        ensures place { IfOk result (λ ready. insert_place self.old.state (length (row_bytes row)) ≡ Some ready.rid) }
        ensures same { OnOk result (self.new.state ≡ self.old.state) }
        ensures accepted { OnOk result (insert_refusal self.old.state txn row ≡ None) }
        ensures unchanged { OnErr result (self.new ≡ self.old) }
        ensures refused { IfErr result (RefusedFor (insert_refusal self.old.state txn row)) }
    {
        let rid = self.check_insert(txn, &row)?;
        self.ready_insert_at(txn, rid, row)
    }

    /// The same of a row that nothing refuses, at the RID that [`Heap::check_insert`] answered.
    pub fn ready_insert_at(&mut self, txn: u64, rid: Rid, row: Row) -> Result<Ready, Fault>
        requires free { insert_refusal self.old.state txn row ≡ None }
        requires place { insert_place self.old.state (length (row_bytes row)) ≡ Some rid }
        ensures ready { IfOk result (λ ready. IsReady self.new ready) }
        ensures writes { IfOk result (λ ready. Writes ready txn (Some row)) }
        ensures empty { IfOk result (λ ready. ready.old ≡ None) }
        ensures place { IfOk result (λ ready. ready.rid ≡ rid) }
        ensures same { OnOk result (self.new.state ≡ self.old.state) }
        ensures unchanged { OnErr result (self.new ≡ self.old) }
        ensures memory { IfErr result (λ fault. fault ≡ Fault.Memory) }
    {
        // That no row stands there is known once the pages are reached.
        let _pages = &self.pages;
        let new = Some(row);
        let bytes = self.bytes_of(&new)?;
        self.reserve(rid)?;
        Ok(Ready {
            rid,
            old: None,
            new,
            txn,
            undone: None,
            bytes,
        })
    }

    /// Makes an update ready, as [`Heap::update`] would do it.
    pub fn ready_update(&mut self, txn: u64, rid: Rid, row: Row) -> Result<Ready, Fault>
        ensures ready { IfOk result (λ ready. IsReady self.new ready) }
        ensures writes { IfOk result (λ ready. Writes ready txn (Some row)) }
        ensures place { IfOk result (λ ready. ready.rid ≡ rid) }
        ensures same { OnOk result (self.new.state ≡ self.old.state) }
        ensures accepted { OnOk result (update_refusal self.old.state txn rid row ≡ None) }
        ensures unchanged { OnErr result (self.new ≡ self.old) }
        ensures refused { IfErr result (RefusedFor (update_refusal self.old.state txn rid row)) }
    {
        self.check_update(txn, rid, &row)?;
        self.ready_update_at(txn, rid, row)
    }

    /// The same of a row that nothing refuses.
    pub fn ready_update_at(&mut self, txn: u64, rid: Rid, row: Row) -> Result<Ready, Fault>
        requires { update_refusal self.old.state txn rid row ≡ None }
        ensures ready { IfOk result (λ ready. IsReady self.new ready) }
        ensures writes { IfOk result (λ ready. Writes ready txn (Some row)) }
        ensures place { IfOk result (λ ready. ready.rid ≡ rid) }
        ensures same { OnOk result (self.new.state ≡ self.old.state) }
        ensures unchanged { OnErr result (self.new ≡ self.old) }
        ensures memory { IfErr result (λ fault. fault ≡ Fault.Memory) }
    {
        let new = Some(row);
        let bytes = self.bytes_of(&new)?;
        let old = self.read(rid)?;
        self.reserve(rid)?;
        Ok(Ready {
            rid,
            old: Some(old),
            new,
            txn,
            undone: None,
            bytes,
        })
    }

    /// Makes a delete ready, as [`Heap::delete`] would do it.
    pub fn ready_delete(&mut self, txn: u64, rid: Rid) -> Result<Ready, Fault>
        ensures ready { IfOk result (λ ready. IsReady self.new ready) }
        ensures writes { IfOk result (λ ready. Writes ready txn None) }
        ensures place { IfOk result (λ ready. ready.rid ≡ rid) }
        ensures same { OnOk result (self.new.state ≡ self.old.state) }
        ensures accepted { OnOk result (delete_refusal self.old.state txn rid ≡ None) }
        ensures unchanged { OnErr result (self.new ≡ self.old) }
        ensures refused { IfErr result (RefusedFor (delete_refusal self.old.state txn rid)) }
    {
        self.check_txn(txn)?;
        self.check_hold(txn, rid)?;
        let old = self.read(rid)?;
        self.reserve(rid)?;
        Ok(Ready {
            rid,
            old: Some(old),
            new: None,
            txn,
            undone: None,
            bytes: self.take_bytes(),
        })
    }

    /// Does what was made ready, where nothing came between. Takes no memory, and is never refused.
    pub fn perform(&mut self, ready: Ready) -> Performed
        requires { IsReady self.old ready }
        ensures performed { self.new.state ≡ after_ready self.old.state ready }
        ensures rows { SetsRow self.old.state.log ready.rid ready.new self.new.state.log }
        ensures answer { result ≡ answer_of self.new.state ready.txn ready.rid ready.undone }
    {
        match ready.undone {
            None => {
                let (number, rid) = self.write(ready);
                Performed::Written { number, rid }
            }
            Some(number) => Performed::Undone(self.undo(number, ready)),
        }
    }
}
