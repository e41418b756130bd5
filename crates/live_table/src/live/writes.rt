//! What transactions do to a table and its indexes.
ghost use Rattle.std.specs.Prelude.{◌≡◌, length, Some, None, MatchResult, OnOk, IfOk, IfErr};
ghost use Rattle.keybytes.specs.Answered.{Answered};
ghost use Rattle.keybytes.specs.Rows.{row_bytes};
ghost use Rattle.heap_table.specs.Calls.{Begins, Inserts, Updates, Deletes, Undoes, Commits};
ghost use Rattle.heap_table.specs.HeapState.{begin_refusal, insert_place, txn_refusal, delete_refusal, undo_refusal};
ghost use Rattle.building.specs.BuildingValue.{BuildingValue};
ghost use Rattle.live_lemmas.specs.Builds.{StandsBeside};
ghost use Rattle.live_lemmas.specs.Putting.{KeepsRings};
ghost use Rattle.build_events.specs.Steps.{row_refusal, change_refusal, OnHeap, OnRows};

use crate::{Live, TableRings, changes};
use heap_table::Undone;
use keybytes::{Fault, Rid, Row};

impl<T: TableRings> Live<T> {
    /// The next transaction begins. [`Fault::TooManyTxns`].
    pub fn begin(&mut self) -> Result<u64, Fault>
        ensures begun { Answered (begin_refusal self.old.state.heap) (OnHeap Begins) self.old.state result self.new.state }
        ensures works { (building : BuildingValue) → StandsBeside self.old building → StandsBeside self.new building }
        ensures rings { KeepsRings self.old self.new }
    {
        self.heap.begin()
    }

    /// Why [`Live::begin`] would be refused. Want of memory is no answer.
    pub fn check_begin(&self) -> Result<(), Fault>
        ensures { MatchResult result (λ _. begin_refusal self.now.state.heap ≡ None) (λ fault. begin_refusal self.now.state.heap ≡ Some fault) }
    {
        self.heap.check_begin()
    }

    /// Why [`Live::insert`] would be refused, likewise.
    pub fn check_insert(&self, txn: u64, row: &Row) -> Result<(), Fault>
        ensures accepted { OnOk result (row_refusal self.now.state txn row.now ≡ None) }
        ensures refused { IfErr result (λ fault. row_refusal self.now.state txn row.now ≡ Some fault) }
    {
        let _place = self.check_place(txn, row)?;
        Ok(())
    }

    /// Why the transaction could not insert the row, as [`Live::check_insert`]; answered with the RID that the row would get.
    pub fn check_place(&self, txn: u64, row: &Row) -> Result<Rid, Fault>
        ensures place { IfOk result (λ rid. insert_place self.now.state.heap (length (row_bytes row.now)) ≡ Some rid) }
        ensures accepted { OnOk result (row_refusal self.now.state txn row.now ≡ None) }
        ensures refused { IfErr result (λ fault. row_refusal self.now.state txn row.now ≡ Some fault) }
    {
        let rid = self.heap.check_insert(txn, row)?;
        self.ready.check(&self.heap, txn, rid, row)?;
        Ok(rid)
    }

    /// Why [`Live::update`] would be refused, likewise.
    pub fn check_update(&self, txn: u64, rid: Rid, row: &Row) -> Result<(), Fault>
        ensures accepted { OnOk result (change_refusal self.now.state txn rid row.now ≡ None) }
        ensures refused { IfErr result (λ fault. change_refusal self.now.state txn rid row.now ≡ Some fault) }
    {
        self.heap.check_update(txn, rid, row)?;
        self.ready.check(&self.heap, txn, rid, row)
    }

    /// The transaction inserts a row; answered with the record's number and the RID. Each ready index has its pair from then on, and
    /// a running build that sees the RID hears of it by its side-file. Refused as [`heap_table::Heap::insert`], and then by the first unique
    /// index where another row has the key, [`Fault::Duplicate`], or another open transaction may give it back, [`Fault::KeyHeld`].
    pub fn insert(&mut self, txn: u64, row: Row) -> Result<(usize, Rid), Fault>
        ensures inserted { Answered (row_refusal self.old.state txn row) (OnRows (Inserts txn row)) self.old.state result self.new.state }
        ensures works { (building : BuildingValue) → StandsBeside self.old building → StandsBeside self.new building }
        ensures rings { KeepsRings self.old self.new }
    {
        let rid = self.check_place(txn, &row)?;
        self.insert_free(txn, rid, row)
    }

    /// The transaction inserts a row that nothing refuses, as [`Live::insert`], at the RID that it gets ([`Live::check_place`]). [`Fault::Memory`].
    pub fn insert_free(&mut self, txn: u64, rid: Rid, row: Row) -> Result<(usize, Rid), Fault>
        requires free { row_refusal self.old.state txn row ≡ None }
        requires place { insert_place self.old.state.heap (length (row_bytes row)) ≡ Some rid }
        ensures inserted { Answered (row_refusal self.old.state txn row) (OnRows (Inserts txn row)) self.old.state result self.new.state }
        ensures works { (building : BuildingValue) → StandsBeside self.old building → StandsBeside self.new building }
        ensures rings { KeepsRings self.old self.new }
    {
        let ready = self.heap.ready_insert_at(txn, rid, row)?;
        changes::write(
            &mut self.ready,
            &mut self.heap,
            self.alloc,
            &mut self.sides,
            &self.build,
            ready,
        )
    }

    /// The transaction gives a RID another row. Refused as [`heap_table::Heap::update`], and then for its keys as [`Live::insert`].
    pub fn update(&mut self, txn: u64, rid: Rid, row: Row) -> Result<(usize, Rid), Fault>
        ensures updated { Answered (change_refusal self.old.state txn rid row) (OnRows (Updates txn rid row)) self.old.state result self.new.state }
        ensures works { (building : BuildingValue) → StandsBeside self.old building → StandsBeside self.new building }
        ensures rings { KeepsRings self.old self.new }
    {
        self.check_update(txn, rid, &row)?;
        self.update_free(txn, rid, row)
    }

    /// The transaction gives a RID another row, as [`Live::update`], where nothing refuses it ([`Live::check_update`]). [`Fault::Memory`].
    pub fn update_free(&mut self, txn: u64, rid: Rid, row: Row) -> Result<(usize, Rid), Fault>
        requires { change_refusal self.old.state txn rid row ≡ None }
        ensures updated { Answered (change_refusal self.old.state txn rid row) (OnRows (Updates txn rid row)) self.old.state result self.new.state }
        ensures works { (building : BuildingValue) → StandsBeside self.old building → StandsBeside self.new building }
        ensures rings { KeepsRings self.old self.new }
    {
        let ready = self.heap.ready_update_at(txn, rid, row)?;
        changes::write(
            &mut self.ready,
            &mut self.heap,
            self.alloc,
            &mut self.sides,
            &self.build,
            ready,
        )
    }

    /// The transaction takes the row at a RID away. Refused as [`heap_table::Heap::delete`].
    pub fn delete(&mut self, txn: u64, rid: Rid) -> Result<(usize, Rid), Fault>
        ensures deleted { Answered (delete_refusal self.old.state.heap txn rid) (OnRows (Deletes txn rid)) self.old.state result self.new.state }
        ensures works { (building : BuildingValue) → StandsBeside self.old building → StandsBeside self.new building }
        ensures rings { KeepsRings self.old self.new }
    {
        let ready = self.heap.ready_delete(txn, rid)?;
        changes::write(
            &mut self.ready,
            &mut self.heap,
            self.alloc,
            &mut self.sides,
            &self.build,
            ready,
        )
    }

    /// The transaction's newest standing write is undone: a change like any other, which each ready index follows, and of which the
    /// running build hears if it sees the RID by now. Refused as [`heap_table::Heap::undo_step`].
    pub fn undo(&mut self, txn: u64) -> Result<Undone, Fault>
        ensures undone { Answered (undo_refusal self.old.state.heap txn) (OnRows (Undoes txn)) self.old.state result self.new.state }
        ensures works { (building : BuildingValue) → StandsBeside self.old building → StandsBeside self.new building }
        ensures rings { KeepsRings self.old self.new }
    {
        match self.heap.ready_undo(txn)? {
            Some(ready) => changes::undo(
                &mut self.ready,
                &mut self.heap,
                self.alloc,
                &mut self.sides,
                &self.build,
                ready,
            ),
            None => self.heap.undo_step(txn),
        }
    }

    /// The transaction ends, and keeps its writes; answered with the record's number. [`Fault::NoSuchTxn`],
    /// [`Fault::TxnEnding`].
    pub fn commit(&mut self, txn: u64) -> Result<usize, Fault>
        ensures committed { Answered (txn_refusal self.old.state.heap txn) (OnHeap (Commits txn)) self.old.state result self.new.state }
        ensures works { (building : BuildingValue) → StandsBeside self.old building → StandsBeside self.new building }
        ensures rings { KeepsRings self.old self.new }
    {
        self.heap.laws();
        let number = self.heap.commit(txn)?;
        self.ready.commit(txn);
        Ok(number)
    }
}
