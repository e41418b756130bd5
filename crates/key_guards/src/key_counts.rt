ghost use Rattle.std.specs.Prelude.{◌≡◌, ◌+◌, ◌-◌, ◌^◌, ◌<◌, ℕ, List, OnOk, IfErr};
ghost use Rattle.key_guards.specs.KeyCounts.{count_of, IsNoted, CountsOnly};

use crate::Taken;
use keybytes::{Fault, Key};
use std::alloc::Global;
use std::collections::BTreeMap;

/// How often each key was taken.
#[derive(Drop)]
pub struct KeyCounts {
    counts: BTreeMap<Key, usize>,
}

impl KeyCounts {
    pub fn new(alloc: Global) -> KeyCounts
        ensures { (key : List ℕ) → count_of result.counts.entries key ≡ 0 }
    {
        KeyCounts {
            counts: BTreeMap::new(alloc),
        }
    }

    pub fn count(&self, key: &Key) -> usize
        ensures { result ≡ count_of self.now.counts.entries key.now }
    {
        match self.counts.get(key) {
            Some(count) => *count,
            None => 0,
        }
    }

    /// Takes the memory to count the key.
    pub fn note(&mut self, key: &Key) -> Result<(), Fault>
        ensures noted { OnOk result (IsNoted self.new.counts.entries key.now) }
        ensures memory { IfErr result (λ fault. fault ≡ Fault.Memory) }
        ensures kept { (q : List ℕ) → count_of self.new.counts.entries q ≡ count_of self.old.counts.entries q }
    {
        if self.counts.contains_key(key) {
            return Ok(());
        }
        let copy = key.clone()?;
        self.counts.insert(copy, 0)?;
        Ok(())
    }

    /// Counts the key once more.
    pub fn raise(&mut self, key: &Key)
        requires noted { IsNoted self.old.counts.entries key.now }
        requires small { count_of self.old.counts.entries key.now + 1 < 2 ^ 64 }
        ensures { CountsOnly self.old.counts.entries self.new.counts.entries key.now (count_of self.old.counts.entries key.now + 1) }
    {
        if let Some(count) = self.counts.get_mut(key) {
            *count += 1;
        }
    }

    /// Counts the key once less.
    pub fn lower(&mut self, key: &Key)
        requires { 0 < count_of self.old.counts.entries key.now }
        ensures { CountsOnly self.old.counts.entries self.new.counts.entries key.now (count_of self.old.counts.entries key.now - 1) }
    {
        if self.count(key) == 1 {
            let _one = self.counts.remove(key);
        } else if let Some(count) = self.counts.get_mut(key) {
            *count -= 1;
        }
    }

    /// The same for a key that is given away.
    pub fn lower_taken(&mut self, taken: Taken)
        requires { 0 < count_of self.old.counts.entries taken.key }
        ensures { CountsOnly self.old.counts.entries self.new.counts.entries taken.key (count_of self.old.counts.entries taken.key - 1) }
    {
        self.lower(&taken.key);
    }
}
