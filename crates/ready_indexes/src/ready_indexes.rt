ghost use Rattle.std.specs.Prelude.{◌≡◌, ◌+◌, ◌^◌, ◌++◌, ◌∷◌, ◌<◌, ◌≤◌, [], List, length, slice_get, true, None, Some, IfErr, OnOk, MatchOption};
ghost use Rattle.std.specs.List.{All};
ghost use Rattle.keybytes.specs.Cells.{fits};
ghost use Rattle.keybytes.specs.declared.kind.Kind.{Kind};
ghost use Rattle.heap_log.specs.Standing.{live_at};
ghost use Rattle.heap_log.specs.declared.record.LogRec.{LogRec};
ghost use Rattle.heap_log.specs.declared.outcome.Outcome.{Outcome};
ghost use Rattle.heap_log.specs.declared.record.LogRec.TheVariants.{Commit, Switch};
ghost use Rattle.heap_table.specs.HeapState.{HeapState};
ghost use Rattle.heap_table.specs.Pages.{SetsRow};
ghost use Rattle.heap_table.specs.Ready.{IsReady, after_ready, answer_of};
ghost use Rattle.heap_table.specs.Sound.{HoldsFollowLog};
ghost use Rattle.ready_indexes.specs.Indexes.{IsIndex, ready_now};
ghost use Rattle.ready_indexes.specs.KeyCauses.{KeysAreGuarded, keys_refusal};
ghost use Rattle.ready_indexes.specs.Following.{AllFollow, GoesOn, MayFollow, FitsColumns, IsPrepared, AreLetIn, indexes_of};

use crate::ReadyIndex;
use btree::Tree;
use heap_table::{Heap, Performed, Ready};
use keybytes::{Fault, KeySpec, Rid, Row};
use std::alloc::Global;
use std::marker::Model;

/// The ready indexes of a table, numbered from 0 in the order in which they became ready.
pub struct ReadyIndexes {
    indexes: Vec<ReadyIndex>,
}

impl Drop for ReadyIndexes {
    fn drop(self) {
        let ReadyIndexes { indexes: _ } = self;
    }
}

impl Model for ReadyIndexes {
    ghost use Rattle.ready_indexes.specs.Following.{IndexesValue};

    ghost Value = { IndexesValue };

    ghost use Rattle.std.specs.Prelude.{◌-◌, vec_len, vec_capacity};

    ghost view = { λ them. record { indexes = them.indexes.items; room = vec_capacity them.indexes - vec_len them.indexes } };
}

impl ReadyIndexes {
    /// None is ready.
    pub fn new(alloc: Global) -> ReadyIndexes
        ensures { result.indexes ≡ [] }
    {
        ReadyIndexes {
            indexes: Vec::new(alloc),
        }
    }

    /// How many there are.
    pub fn len(&self) -> usize
        ensures { result ≡ length (indexes_of self.now.indexes) }
    {
        self.indexes.len()
    }

    /// The one of that number.
    pub fn get(&self, number: usize) -> Option<&ReadyIndex>
        ensures { MatchOption result
            (slice_get (indexes_of self.now.indexes) number ≡ None)
            (λ it. slice_get (indexes_of self.now.indexes) number ≡ Some it.now.index) }
    {
        self.indexes.get(number)
    }

    /// Takes the memory for so many more.
    pub fn make_room(&mut self, count: usize) -> Result<(), Fault>
        ensures room { OnOk result (count ≤ self.new.room) }
        ensures few { OnOk result (length (indexes_of self.old.indexes) + count < 2 ^ 64) }
        ensures same { self.new.indexes ≡ self.old.indexes }
        ensures memory { IfErr result (λ fault. fault ≡ Fault.Memory) }
    {
        self.indexes.reserve(count)?;
        Ok(())
    }

    /// One more is ready, behind the others.
    pub fn push(&mut self, alloc: Global, spec: KeySpec, tree: Tree)
        requires room { 0 < self.old.room }
        requires index { IsIndex spec tree.pairs }
        ensures pushed { indexes_of self.new.indexes ≡ indexes_of self.old.indexes ++ record { spec = spec; pairs = tree.pairs } ∷ [] }
        ensures follow { (heap : HeapState) → MayFollow heap spec tree.pairs
            → AllFollow heap.schema heap.log self.old.indexes → AllFollow heap.schema heap.log self.new.indexes }
        ensures room { self.new.room + 1 ≡ self.old.room }
    {
        self.indexes
            .push_reserved(ReadyIndex::new(alloc, spec, tree));
    }

    /// Does nothing: its clauses tell what holds of indexes that follow a table.
    pub fn laws(&self)
        ensures keys { (heap : HeapState) → HoldsFollowLog heap → AllFollow heap.schema heap.log self.now.indexes
            → KeysAreGuarded heap.log (indexes_of self.now.indexes) }
        ensures switched { (kinds : List Kind) (old new : List LogRec) (verdicts : List Outcome) → GoesOn old (Switch verdicts) new
            → AllFollow kinds old self.now.indexes → AllFollow kinds new self.now.indexes }
    {
        laws_of(self.indexes.as_slice());
    }

    /// Why the transaction may not put that row at the RID: the first unique index that refuses tells where another row has its key
    /// ([`Fault::Duplicate`]), or which transaction may give the key back ([`Fault::KeyHeld`]). Never fails for lack of memory. Looks into the
    /// tree of each unique index, and into the keys that each transaction guards there.
    pub fn check(&self, heap: &Heap, txn: u64, rid: Rid, row: &Row) -> Result<(), Fault>
        requires follow { AllFollow heap.now.state.schema heap.now.state.log self.now.indexes }
        requires fits { fits heap.now.state.schema row.now ≡ true }
        ensures accepted { OnOk result
            (keys_refusal 0 (indexes_of self.now.indexes) heap.now.state.log txn (live_at heap.now.state.log rid) (Some row.now) ≡ None) }
        ensures refused { IfErr result (λ fault.
            keys_refusal 0 (indexes_of self.now.indexes) heap.now.state.log txn (live_at heap.now.state.log rid) (Some row.now) ≡ Some fault) }
    {
        check_from(0, self.indexes.as_slice(), heap, txn, rid, row)
    }

    /// Takes the memory that a change wants of the indexes, so that [`ReadyIndexes::perform`] wants none. Their pairs stay as they are.
    pub fn prepare(&mut self, ready: &Ready) -> Result<(), Fault>
        requires fits { All (λ it. FitsColumns ready.now it.index.spec) self.old.indexes }
        ensures prepared { OnOk result (All (IsPrepared ready.now) self.new.indexes) }
        ensures same { indexes_of self.new.indexes ≡ indexes_of self.old.indexes }
        ensures follow { (kinds : List Kind) (log : List LogRec) → AllFollow kinds log self.old.indexes → AllFollow kinds log self.new.indexes }
        ensures memory { IfErr result (λ fault. fault ≡ Fault.Memory) }
    {
        prepare_each(self.indexes.as_mut_slice(), ready)
    }

    /// Makes the change that was prepared, in the table and in each index. Takes no memory, and is never refused.
    pub fn perform(&mut self, heap: &mut Heap, ready: Ready) -> Performed
        requires ready { IsReady heap.old ready }
        requires prepared { All (IsPrepared ready) self.old.indexes }
        requires follow { AllFollow heap.old.state.schema heap.old.state.log self.old.indexes }
        requires let_in { ready.undone ≡ None → AreLetIn heap.old.state.log (indexes_of self.old.indexes) ready }
        ensures performed { heap.new.state ≡ after_ready heap.old.state ready }
        ensures rows { SetsRow heap.old.state.log ready.rid ready.new heap.new.state.log }
        ensures answer { result ≡ answer_of heap.new.state ready.txn ready.rid ready.undone }
        ensures follow { AllFollow heap.new.state.schema heap.new.state.log self.new.indexes }
        ensures ready { indexes_of self.new.indexes ≡ ready_now heap.new.state.log (indexes_of self.old.indexes) }
    {
        follow_each(self.indexes.as_mut_slice(), heap, &ready);
        heap.perform(ready)
    }

    /// The transaction committed: no rollback can bring its keys back any more.
    pub fn commit(&mut self, txn: u64)
        ensures same { indexes_of self.new.indexes ≡ indexes_of self.old.indexes }
        ensures follow { (kinds : List Kind) (old new : List LogRec) → GoesOn old (Commit txn) new
            → AllFollow kinds old self.old.indexes → AllFollow kinds new self.new.indexes }
    {
        commit_each(self.indexes.as_mut_slice(), txn);
    }
}

/// The first of these indexes that refuses the row, where they are numbered from that number on.
fn check_from(
    number: usize,
    indexes: &[ReadyIndex],
    heap: &Heap,
    txn: u64,
    rid: Rid,
    row: &Row,
) -> Result<(), Fault>
    requires few { number + length indexes.now < 2 ^ 64 }
    requires follow { AllFollow heap.now.state.schema heap.now.state.log indexes.now }
    requires fits { fits heap.now.state.schema row.now ≡ true }
    ensures accepted { OnOk result
        (keys_refusal number (indexes_of indexes.now) heap.now.state.log txn (live_at heap.now.state.log rid) (Some row.now) ≡ None) }
    ensures refused { IfErr result (λ fault.
        keys_refusal number (indexes_of indexes.now) heap.now.state.log txn (live_at heap.now.state.log rid) (Some row.now) ≡ Some fault) }
{
    let Some((index, rest)) = indexes.split_first() else {
        return Ok(());
    };
    index.check(number, heap, txn, rid, row)?;
    check_from(number + 1, rest, heap, txn, rid, row)
}

/// Prepares each of the indexes, until the memory for one isn't there.
fn prepare_each(indexes: &mut [ReadyIndex], ready: &Ready) -> Result<(), Fault>
    requires fits { All (λ it. FitsColumns ready.now it.index.spec) indexes.old }
    ensures prepared { OnOk result (All (IsPrepared ready.now) indexes.new) }
    ensures same { indexes_of indexes.new ≡ indexes_of indexes.old }
    ensures follow { (kinds : List Kind) (log : List LogRec) → AllFollow kinds log indexes.old → AllFollow kinds log indexes.new }
    ensures memory { IfErr result (λ fault. fault ≡ Fault.Memory) }
{
    let Some((index, rest)) = indexes.split_first_mut() else {
        return Ok(());
    };
    index.prepare(ready)?;
    prepare_each(rest, ready)
}

/// Each of the indexes follows the change that the table is about to make.
fn follow_each(indexes: &mut [ReadyIndex], heap: &Heap, ready: &Ready)
    requires ready { IsReady heap.now ready.now }
    requires prepared { All (IsPrepared ready.now) indexes.old }
    requires follow { AllFollow heap.now.state.schema heap.now.state.log indexes.old }
    requires let_in { ready.now.undone ≡ None → AreLetIn heap.now.state.log (indexes_of indexes.old) ready.now }
    ensures follow { AllFollow heap.now.state.schema (after_ready heap.now.state ready.now).log indexes.new }
    ensures ready { indexes_of indexes.new ≡ ready_now (after_ready heap.now.state ready.now).log (indexes_of indexes.old) }
{
    let Some((index, rest)) = indexes.split_first_mut() else {
        return;
    };
    index.follow(heap, ready);
    follow_each(rest, heap, ready);
}

/// Tells each of the indexes that the transaction committed.
fn commit_each(indexes: &mut [ReadyIndex], txn: u64)
    ensures same { indexes_of indexes.new ≡ indexes_of indexes.old }
    ensures follow { (kinds : List Kind) (old new : List LogRec) → GoesOn old (Commit txn) new
        → AllFollow kinds old indexes.old → AllFollow kinds new indexes.new }
{
    let Some((index, rest)) = indexes.split_first_mut() else {
        return;
    };
    index.commit(txn);
    commit_each(rest, txn);
}

/// Does nothing: its clauses tell what holds of indexes that follow a table.
fn laws_of(indexes: &[ReadyIndex])
    ensures keys { (heap : HeapState) → HoldsFollowLog heap → AllFollow heap.schema heap.log indexes.now → KeysAreGuarded heap.log (indexes_of indexes.now) }
    ensures switched { (kinds : List Kind) (old new : List LogRec) (verdicts : List Outcome) → GoesOn old (Switch verdicts) new
        → AllFollow kinds old indexes.now → AllFollow kinds new indexes.now }
{
    let Some((index, rest)) = indexes.split_first() else {
        return;
    };
    index.guards.laws();
    laws_of(rest);
}
