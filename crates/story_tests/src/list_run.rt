//! A closed run of pairs in a list.
ghost use Rattle.std.specs.Prelude.{◌≡◌, ◌<◌, ◌≤◌, length, drop, IfOk, IfErr};
ghost use Rattle.run_spool.specs.Pages.{IsPairAt};

use keybytes::{Fault, Key, Pair, Rid};
use std::marker::Model;

/// The pairs of a closed run, the first of which may be freed. Contracts see those that aren't.
#[derive(Drop)]
pub struct ListRun {
    pairs: Vec<Pair>,
    freed: usize,
}

impl Model for ListRun {
    ghost use Rattle.std.specs.Prelude.{List, length, drop, ◌≤◌};
    ghost use Rattle.keybytes.specs.declared.pair.Pair.{Pair};

    ghost Value = { List Pair };

    ghost view = { λ run. drop run.freed run.pairs.items };

    ghost invariant = { λ run. run.freed ≤ length run.pairs.items };
}

impl ListRun {
    /// A run of which nothing is freed.
    pub fn new(pairs: Vec<Pair>) -> ListRun
        ensures { result ≡ pairs.items }
    {
        ListRun { pairs, freed: 0 }
    }

    /// The number of pairs that aren't freed.
    pub fn len(&self) -> usize
        ensures { result ≡ length self.now }
    {
        self.pairs.len() - self.freed
    }

    /// Reads a pair: its key into `key`, for which there may be no memory.
    pub fn read(&self, n: usize, key: &mut Key) -> Result<Rid, Fault>
        requires { n < length self.now }
        ensures pair { IfOk result (λ rid. IsPairAt self.now n key.new rid) }
        ensures memory { IfErr result (λ fault. fault ≡ Fault.Memory) }
    {
        let pair = &self.pairs[self.freed + n];
        key.cut(0);
        key.add(pair.key.bytes())?;
        Ok(pair.rid)
    }

    /// Frees the first pairs.
    pub fn free_front(&mut self, n: usize)
        requires { n ≤ length self.old }
        ensures { self.new ≡ drop n self.old }
    {
        self.freed += n;
    }
}
