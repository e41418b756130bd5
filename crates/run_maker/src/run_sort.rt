ghost use Rattle.std.specs.Prelude.{◌≡◌, IsPermutation, IfErr, OnOk};
ghost use Rattle.std.specs.List.Sorted.{IsSorted};
ghost use Rattle.keybytes.specs.Pairs.{pair_cmp};

use keybytes::{Fault, Pair};

/// Puts the pairs of a run in order. Whoever calls a maker may bring a sort of its own, as one that works in several threads.
pub trait RunSort {
    /// Sorts the pairs by key, and where keys are equal by RID. [`Fault::Memory`] leaves the same pairs in some order.
    fn sort(&mut self, run: &mut Vec<Pair>) -> Result<(), Fault>
        ensures permutation { IsPermutation run.old.items run.new.items }
        ensures sorted { OnOk result (IsSorted pair_cmp run.new.items) }
        ensures memory { IfErr result (λ fault. fault ≡ Fault.Memory) };
}
