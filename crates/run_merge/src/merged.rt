ghost use Rattle.std.specs.Prelude.{◌≡◌, ◌≤◌, ◌-◌, ◌+◌, ◌^◌, [], ℕ, IfOk, IfErr, OnErr, IsPermutation, map, count_by, vec_len};
ghost use Rattle.std.specs.List.Sorted.{IsSorted};
ghost use Rattle.keybytes.specs.Pairs.{pair_cmp};
ghost use Rattle.run_spool.specs.Spools.{AreSorted, all_pairs};
ghost use Rattle.run_merge.specs.Merging.{has_pair, Gives, all_runs};

use crate::lanes::Lanes;
use keybytes::{Fault, Pair};
use run_spool::Spool;
use std::alloc::Global;
use std::marker::Model;

/// The pairs of an index's spools in order of key, then RID. Contracts see, spool by spool, the pairs that are left in each
/// closed run, the open run and the stake, and then how many runs had a pair as the merge began and how many comparisons of two
/// pairs were made.
///
/// It is no `Drop`: whoever merges takes the spools out again.
pub struct Merged<S: Spool> {
    spools: Vec<S>,
    lanes: Lanes,
}

impl<S: Spool> Model for Merged<S> {
    ghost use Rattle.std.specs.Prelude.{map, length};
    ghost use Rattle.run_merge.specs.Merging.{MergedValue, all_runs, IsMerge, AreSeconds};
    ghost use Rattle.run_merge.specs.Places.{ArePlaces};

    ghost Value = { MergedValue };

    ghost view = { λ merged. record {
      runs = map S.runs merged.spools.items;
      open_runs = map S.open_run merged.spools.items;
      stakes = map S.stake merged.spools.items;
      ways = length merged.lanes.runs;
      compares = merged.lanes.compares;
    } };

    ghost invariant = { λ merged. IsMerge (all_runs (map S.runs merged.spools.items)) merged.lanes.runs merged.lanes.heads
        × AreSeconds (all_runs (map S.runs merged.spools.items)) merged.lanes.runs merged.lanes.seconds
        × ArePlaces (map S.runs merged.spools.items) merged.lanes.runs merged.lanes.places };
}

/// Merges the closed runs of spools. To begin takes one comparison fewer than there are runs that have a pair. An `Err` gives the
/// spools back.
pub fn merge<S: Spool>(alloc: Global, mut spools: Vec<S>) -> Result<Merged<S>, (Vec<S>, Fault)>
    requires { AreSorted (all_runs (map S.runs spools.items)) }
    ensures runs { IfOk result (λ merged. merged.runs ≡ map S.runs spools.items) }
    ensures open_runs { IfOk result (λ merged. merged.open_runs ≡ map S.open_run spools.items) }
    ensures stakes { IfOk result (λ merged. merged.stakes ≡ map S.stake spools.items) }
    ensures ways { IfOk result (λ merged. merged.ways ≡ count_by has_pair (all_runs (map S.runs spools.items))) }
    ensures compares { IfOk result (λ merged. merged.compares ≡ merged.ways - 1) }
    ensures same_runs { IfErr result (λ back. map S.runs back.0.items ≡ map S.runs spools.items) }
    ensures same_open_runs { IfErr result (λ back. map S.open_run back.0.items ≡ map S.open_run spools.items) }
    ensures same_stakes { IfErr result (λ back. map S.stake back.0.items ≡ map S.stake spools.items) }
    ensures memory { IfErr result (λ back. back.1 ≡ Fault.Memory) }
{
    match Lanes::new(alloc, &mut spools) {
        Ok(lanes) => Ok(Merged { spools, lanes }),
        Err(fault) => Err((spools, fault)),
    }
}

impl<S: Spool> Merged<S> {
    /// The next pair, which is freed in its run, or none where no run has a pair left. After an `Err` nothing was given or freed,
    /// and it can be called again.
    #[inline]
    pub fn next(&mut self) -> Result<Option<Pair>, Fault>
        ensures given { IfOk result (λ given. Gives (all_runs self.old.runs) given (all_runs self.new.runs)) }
        ensures refused { OnErr result (self.new ≡ self.old) }
        ensures open_runs { self.new.open_runs ≡ self.old.open_runs }
        ensures stakes { self.new.stakes ≡ self.old.stakes }
        ensures ways { self.new.ways ≡ self.old.ways }
        ensures compares { (d : ℕ) → self.old.ways ≤ 2 ^ d → self.new.compares ≤ self.old.compares + d }
        ensures grows { self.old.compares ≤ self.new.compares }
        ensures memory { IfErr result (λ fault. fault ≡ Fault.Memory) }
    {
        self.lanes.step(&mut self.spools)
    }

    /// All pairs that are left. After an `Err` those that were taken are lost.
    pub fn rest(&mut self, alloc: Global) -> Result<Vec<Pair>, Fault>
        ensures sorted { IfOk result (λ pairs. IsSorted pair_cmp pairs.items) }
        ensures all { IfOk result (λ pairs. IsPermutation (all_pairs (all_runs self.old.runs)) pairs.items) }
        ensures freed { IfOk result (λ _. all_pairs (all_runs self.new.runs) ≡ []) }
        ensures open_runs { self.new.open_runs ≡ self.old.open_runs }
        ensures stakes { self.new.stakes ≡ self.old.stakes }
        ensures ways { self.new.ways ≡ self.old.ways }
        ensures grows { self.old.compares ≤ self.new.compares }
        ensures memory { IfErr result (λ fault. fault ≡ Fault.Memory) }
    {
        let mut pairs = Vec::new(alloc);
        while let Some(pair) = self.next()? {
            pairs.push(pair)?;
        }
        Ok(pairs)
    }

    /// How many comparisons of two pairs were made so far; it stays at the greatest number.
    pub fn compares(&self) -> u64
        ensures { result ≡ self.now.compares }
    {
        self.lanes.compares()
    }

    /// The spools, with the pairs that weren't given, whose runs can be merged again.
    pub fn into_spools(self) -> Vec<S>
        ensures runs { map S.runs result.items ≡ self.runs }
        ensures sorted { AreSorted (all_runs self.runs) }
        ensures open_runs { map S.open_run result.items ≡ self.open_runs }
        ensures stakes { map S.stake result.items ≡ self.stakes }
    {
        let Merged { spools, lanes: _ } = self;
        spools
    }
}
