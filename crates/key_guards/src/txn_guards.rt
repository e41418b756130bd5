ghost use Rattle.std.specs.Prelude.{◌≡◌, ◌+◌, ◌∷◌, ◌++◌, [], OnOk, IfErr};
ghost use Rattle.key_guards.specs.TxnGuards.{has_taken, is_nil, without_top, CanTake};

use crate::Taken;
use crate::key_counts::KeyCounts;
use keybytes::{Fault, Key};
use std::alloc::Global;
use std::marker::Model;

/// The keys that one transaction guards, in the order of the writes that took them.
#[derive(Drop)]
pub struct TxnGuards {
    txn: u64,
    taken: Vec<Taken>,
    counts: KeyCounts,
}

impl Model for TxnGuards {
    ghost use Rattle.std.specs.Prelude.{◌-◌, vec_len, vec_capacity};
    ghost use Rattle.key_guards.specs.TxnGuards.{AreCounts, TxnValue};

    ghost Value = { TxnValue };

    ghost view = { λ t. record { txn = t.txn; taken = t.taken.items; room = vec_capacity t.taken - vec_len t.taken; counts = t.counts.counts.entries } };

    ghost invariant = { λ t. AreCounts t.taken.items t.counts.counts.entries };
}

impl TxnGuards {
    pub fn new(alloc: Global, txn: u64) -> TxnGuards
        ensures txn { result.txn ≡ txn }
        ensures taken { result.taken ≡ [] }
    {
        TxnGuards {
            txn,
            taken: Vec::new(alloc),
            counts: KeyCounts::new(alloc),
        }
    }

    pub fn txn(&self) -> u64
        ensures { result ≡ self.now.txn }
    {
        self.txn
    }

    pub fn is_empty(&self) -> bool
        ensures { result ≡ is_nil self.now.taken }
    {
        self.taken.is_empty()
    }

    pub fn has(&self, key: &Key) -> bool
        ensures { result ≡ has_taken key.now self.now.taken }
    {
        self.counts.count(key) > 0
    }

    /// The same of a key that is given as bytes: each key is looked at.
    pub fn has_bytes(&self, bytes: &[u8]) -> bool
        ensures { result ≡ has_taken bytes.now self.now.taken }
    {
        self.taken.iter().any(|taken| taken.key.bytes() == bytes)
    }

    pub fn make_room(&mut self, key: &Key) -> Result<(), Fault>
        ensures room { OnOk result (CanTake key.now self.new) }
        ensures memory { IfErr result (λ fault. fault ≡ Fault.Memory) }
        ensures txn { self.new.txn ≡ self.old.txn }
        ensures taken { self.new.taken ≡ self.old.taken }
    {
        self.taken.reserve(1)?;
        self.counts.note(key)?;
        Ok(())
    }

    pub fn push(&mut self, number: usize, key: Key)
        requires { CanTake key self.old }
        ensures txn { self.new.txn ≡ self.old.txn }
        ensures taken { self.new.taken ≡ self.old.taken ++ record { number = number; key = key } ∷ [] }
    {
        // It tells that one more can be counted.
        let _capacity = self.taken.capacity();
        self.counts.raise(&key);
        self.taken.push_reserved(Taken { number, key });
    }

    /// Forgets what the write of that number took, where it is the newest one here.
    pub fn undo(&mut self, number: usize)
        ensures txn { self.new.txn ≡ self.old.txn }
        ensures taken { self.new.taken ≡ without_top number self.old.taken }
    {
        let Some(top) = self.taken.last() else {
            return;
        };
        if top.number != number {
            return;
        }
        if let Some(top) = self.taken.pop() {
            self.counts.lower_taken(top);
        }
    }
}
