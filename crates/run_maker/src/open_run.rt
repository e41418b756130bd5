ghost use Rattle.std.specs.Prelude.{◌≡◌, ◌<◌, ◌≤◌, ◌+◌, ◌⊎◌, ◌↔◌, [], ◌∷◌, ◌++◌, IfErr, OnOk, OnErr, IsTrue, length};
ghost use Rattle.run_spool.specs.Spools.{NoneEmpty, AreSorted, NoneFreed, NoPageOnlyIf, all_pairs};
ghost use Rattle.run_maker.specs.FullSpools.{IsFullOf};
ghost use Rattle.run_maker.specs.Spooling.{Spooled, Adds, MemoryOnlyIf};

use crate::RunSort;
use crate::spooling::spool_run;
use keybytes::{Fault, Pair};
use run_spool::Spool;
use std::alloc::Global;
use std::marker::Model;

/// How many pairs make a run.
pub const RUN_PAIRS: usize = 4096;

/// The pairs of an index that are in no run yet, fewer than make one.
#[derive(Drop)]
pub(crate) struct OpenRun {
    pairs: Vec<Pair>,
}

impl Model for OpenRun {
    ghost use Rattle.std.specs.Prelude.{List, length, ◌<◌};
    ghost use Rattle.keybytes.specs.declared.pair.Pair.{Pair};

    ghost Value = { List Pair };

    ghost view = { λ run. run.pairs.items };

    ghost invariant = { λ run. length run.pairs.items < 4096 };
}

impl OpenRun {
    /// One with no pair.
    pub(crate) fn new(alloc: Global) -> OpenRun
        ensures { result ≡ [] }
    {
        OpenRun {
            pairs: Vec::new(alloc),
        }
    }

    /// Does nothing: its clause tells what every one keeps.
    pub(crate) fn laws(&self)
        ensures { length self.now < 4096 }
    {
        let _kept = &self.pairs;
    }

    pub(crate) fn is_empty(&self) -> bool
        ensures { IsTrue result ↔ (self.now ≡ []) }
    {
        self.pairs.is_empty()
    }

    /// Adds a pair. With as many as make a run they are spooled.
    pub(crate) fn add<S: Spool, Q: RunSort>(
        &mut self,
        pair: Pair,
        spool: &mut S,
        sort: &mut Q,
    ) -> Result<(), Fault>
        requires none_empty { NoneEmpty (S.runs spool.old) }
        requires open_run { S.open_run spool.old ≡ [] }
        ensures added { OnOk result (Adds (pair ∷ []) (S.runs spool.old) self.old (S.runs spool.new) self.new) }
        ensures none_empty { NoneEmpty (S.runs spool.new) }
        ensures sorted { AreSorted (S.runs spool.old) → AreSorted (S.runs spool.new) }
        ensures intact { NoneFreed S.is_intact S.runs spool.old → NoneFreed S.is_intact S.runs spool.new }
        ensures open_run { OnOk result (S.open_run spool.new ≡ []) }
        ensures short { length self.new < 4096 }
        ensures stake { S.stake spool.new ≡ S.stake spool.old }
        ensures fault { IfErr result (λ fault. (fault ≡ Fault.NoPage) ⊎ (fault ≡ Fault.Memory)) }
        ensures full { IfErr result (NoPageOnlyIf
            (IsFullOf S.is_full S.runs S.open_run ((all_pairs (S.runs spool.old) ++ self.old) ++ pair ∷ []) spool.new)) }
        ensures runs { OnErr result (S.runs spool.new ≡ S.runs spool.old) }
        ensures many { IfErr result (NoPageOnlyIf (4096 ≤ length self.old + 1)) }
        ensures unchanged { IfErr result (MemoryOnlyIf (self.new ≡ self.old)) }
        ensures untouched { IfErr result (MemoryOnlyIf (spool.new ≡ spool.old)) }
    {
        self.pairs.push(pair)?;
        if self.pairs.len() < RUN_PAIRS {
            return Ok(());
        }
        spool_run(&mut self.pairs, spool, sort)
    }

    /// Spools its pairs, fewer than make a run.
    pub(crate) fn close<S: Spool, Q: RunSort>(
        &mut self,
        spool: &mut S,
        sort: &mut Q,
    ) -> Result<(), Fault>
        requires none_empty { NoneEmpty (S.runs spool.old) }
        requires open_run { S.open_run spool.old ≡ [] }
        ensures spooled { OnOk result (Spooled self.old (S.runs spool.old) (S.runs spool.new)) }
        ensures left { OnOk result (self.new ≡ []) }
        ensures none_empty { NoneEmpty (S.runs spool.new) }
        ensures sorted { AreSorted (S.runs spool.old) → AreSorted (S.runs spool.new) }
        ensures intact { NoneFreed S.is_intact S.runs spool.old → NoneFreed S.is_intact S.runs spool.new }
        ensures open_run { OnOk result (S.open_run spool.new ≡ []) }
        ensures stake { S.stake spool.new ≡ S.stake spool.old }
        ensures no_page { IfErr result (λ fault. fault ≡ Fault.NoPage) }
        ensures full { OnErr result (IsFullOf S.is_full S.runs S.open_run (all_pairs (S.runs spool.old) ++ self.old) spool.new) }
        ensures runs { OnErr result (S.runs spool.new ≡ S.runs spool.old) }
        ensures some { OnErr result (0 < length self.old) }
    {
        spool_run(&mut self.pairs, spool, sort)
    }
}
