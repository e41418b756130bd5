//! A tree of the pairs that one thread merges.
ghost use Rattle.std.specs.Prelude.{◌≡◌, All, map, IfOk, IfErr, IsPermutation};
ghost use Rattle.run_spool.specs.Spools.{AreSorted, all_pairs};
ghost use Rattle.run_merge.specs.Merging.{all_runs};
ghost use Rattle.bulk_load.specs.Each.{AreEachOnce};

use crate::{Source, load};
use btree::Tree;
use keybytes::{Fault, Pair};
use run_merge::{Merged, merge};
use run_spool::Spool;
use std::alloc::Global;
use std::marker::Model;

/// A merge of pairs of which none is there twice. Contracts see the merge.
pub(crate) struct Once<S: Spool> {
    merged: Merged<S>,
}

impl<S: Spool> Drop for Once<S> {
    fn drop(self) {
        let Once { merged } = self;
        let _spools = merged.into_spools();
    }
}

impl<S: Spool> Model for Once<S> {
    ghost use Rattle.run_spool.specs.Spools.{all_pairs};
    ghost use Rattle.run_merge.specs.Merging.{MergedValue, all_runs};
    ghost use Rattle.bulk_load.specs.Each.{AreEachOnce};

    ghost Value = { MergedValue };

    ghost view = { λ once. once.merged };

    ghost invariant = { λ once. AreEachOnce (all_pairs (all_runs once.merged.runs)) };
}

impl<S: Spool> Source for Once<S> {
    ghost use Rattle.std.specs.Prelude.{List, Option};
    ghost use Rattle.spool_ledger.specs.Accounts.{Stake};
    ghost use Rattle.run_merge.specs.Merging.{all_runs};
    ghost use Rattle.bulk_load.specs.Each.{in_order};

    ghost left = { λ once. in_order (all_runs once.runs) };

    ghost Kept = { List (Option Stake) };

    ghost kept = { λ once. once.stakes };

    #[inline(always)]
    fn next(&mut self) -> Result<Option<Pair>, Fault> {
        self.merged.next()
    }
}

impl<S: Spool> Once<S> {
    /// The merge of all closed runs of the spools. An `Err` gives the spools back.
    pub(crate) fn new(alloc: Global, spools: Vec<S>) -> Result<Once<S>, (Vec<S>, Fault)>
        requires sorted { AreSorted (all_runs (map S.runs spools.items)) }
        requires once { AreEachOnce (all_pairs (all_runs (map S.runs spools.items))) }
        ensures runs { IfOk result (λ once. once.runs ≡ map S.runs spools.items) }
        ensures stakes { IfOk result (λ once. once.stakes ≡ map S.stake spools.items) }
        ensures back { IfErr result (λ back. map S.stake back.0.items ≡ map S.stake spools.items) }
        ensures memory { IfErr result (λ back. back.1 ≡ Fault.Memory) }
    {
        Ok(Once {
            merged: merge(alloc, spools)?,
        })
    }

    /// The spools, with the pairs that weren't given.
    pub(crate) fn into_spools(self) -> Vec<S>
        ensures stakes { map S.stake result.items ≡ self.stakes }
    {
        let Once { merged } = self;
        merged.into_spools()
    }
}

/// Merges the pairs of all closed runs of the spools, which are handed back, and makes a tree of them as they come. Want of memory may lose some
/// of the pairs.
pub fn tree_of<S: Spool>(alloc: Global, spools: Vec<S>) -> (Result<Tree, Fault>, Vec<S>)
    requires sorted { All AreSorted (map S.runs spools.items) }
    requires once { AreEachOnce (all_pairs (all_runs (map S.runs spools.items))) }
    ensures all { IfOk result.0 (λ tree. IsPermutation (all_pairs (all_runs (map S.runs spools.items))) tree.pairs) }
    ensures stakes { map S.stake result.1.items ≡ map S.stake spools.items }
    ensures memory { IfErr result.0 (λ fault. fault ≡ Fault.Memory) }
{
    let mut once = match Once::new(alloc, spools) {
        Ok(once) => once,
        Err((spools, fault)) => return (Err(fault), spools),
    };
    let tree = load(alloc, &mut once);
    (tree, once.into_spools())
}
