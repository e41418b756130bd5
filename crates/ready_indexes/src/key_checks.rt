//! Whether a row may have its key in an index that is unique.
ghost use Rattle.std.specs.Prelude.{◌≡◌, true, None, Some, MatchResult};
ghost use Rattle.keybytes.specs.Cells.{fits};
ghost use Rattle.heap_log.specs.Standing.{live_at};
ghost use Rattle.key_guards.specs.KeyRefusals.{key_refusal, guarded_refusal};
ghost use Rattle.ready_indexes.specs.Following.{Follows};
ghost use Rattle.ready_indexes.specs.KeyCauses.{AreFound, MayAsk, index_cause};

use crate::ReadyIndex;
use heap_table::Heap;
use keybytes::{Fault, Rid, Row};

impl ReadyIndex {
    /// Why the index, under that number, refuses to have the transaction put that row at the RID.
    pub(crate) fn check(
        &self,
        number: usize,
        heap: &Heap,
        txn: u64,
        rid: Rid,
        row: &Row,
    ) -> Result<(), Fault>
        requires follows { Follows heap.now.state.schema heap.now.state.log self.now }
        requires fits { fits heap.now.state.schema row.now ≡ true }
        ensures { MatchResult result
            (λ _. index_cause number self.now.index.spec heap.now.state.log txn (live_at heap.now.state.log rid) (Some row.now) ≡ None)
            (λ fault. index_cause number self.now.index.spec heap.now.state.log txn (live_at heap.now.state.log rid) (Some row.now) ≡ Some fault) }
    {
        if !self.spec.unique() {
            return Ok(());
        }
        self.check_key(number, heap, txn, rid, row)
    }

    /// The same of a unique index.
    fn check_key(
        &self,
        number: usize,
        heap: &Heap,
        txn: u64,
        rid: Rid,
        row: &Row,
    ) -> Result<(), Fault>
        requires { MayAsk heap.now.state self.now row.now }
        ensures { MatchResult result
            (λ _. key_refusal number self.now.index.spec heap.now.state.log txn (live_at heap.now.state.log rid) (Some row.now) ≡ None)
            (λ fault. key_refusal number self.now.index.spec heap.now.state.log txn (live_at heap.now.state.log rid) (Some row.now) ≡ Some fault) }
    {
        heap.laws();
        self.guards.laws();
        let (holder, guard) = self.ask(heap, txn, row);
        match holder {
            Some(other) if other == rid => Ok(()),
            Some(other) => Err(Fault::Duplicate(number, other)),
            None => check_guard(number, guard),
        }
    }

    /// Which row has that row's key, if the index takes the row, and which other transaction may give it back.
    fn ask(&self, heap: &Heap, txn: u64, row: &Row) -> (Option<Rid>, Option<u64>)
        requires { MayAsk heap.now.state self.now row.now }
        ensures { AreFound self.now.index.spec heap.now.state.log txn row.now result.0 result.1 }
    {
        let Ok(found) = self.spec.key(row) else {
            return self.ask_in_place(heap, txn, row);
        };
        let Some(key) = found else {
            return (None, None);
        };
        heap.laws();
        (self.tree.first_rid(&key), self.guards.other(txn, &key))
    }

    /// The same where there is no memory for the key, which takes some if it is longer than 24 bytes: it is looked for by its bytes.
    #[cold]
    fn ask_in_place(&self, heap: &Heap, txn: u64, row: &Row) -> (Option<Rid>, Option<u64>)
        requires { MayAsk heap.now.state self.now row.now }
        ensures { AreFound self.now.index.spec heap.now.state.log txn row.now result.0 result.1 }
    {
        let Some(key) = self.spec.key_in_place(row) else {
            return (None, None);
        };
        heap.laws();
        let bytes = key.bytes();
        (
            self.tree.first_rid_of_bytes(bytes),
            self.guards.other_of_bytes(txn, bytes),
        )
    }
}

/// Another transaction may give the key back.
fn check_guard(number: usize, other: Option<u64>) -> Result<(), Fault>
    ensures { MatchResult result (λ _. guarded_refusal number other ≡ None) (λ fault. guarded_refusal number other ≡ Some fault) }
{
    match other {
        Some(txn) => Err(Fault::KeyHeld(number, txn)),
        None => Ok(()),
    }
}
