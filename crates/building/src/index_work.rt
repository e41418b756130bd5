ghost use Rattle.std.specs.Prelude.{◌≡◌, IsSome, IfSome, IfOk, IfErr, IsOk, OnOk};
ghost use Rattle.unique_verdict.specs.Verdicts.{IsShort, accepts};
ghost use Rattle.catch_up.specs.Applying.{TakesKnown};
ghost use Rattle.building.specs.Batches.{BatchIsIn};
ghost use Rattle.building.specs.Verdicts.{its_verdict};

use btree::Tree;
use catch_up::{Built, Pace, apply_batch};
use keybytes::Fault;
use side_file::EntryEnd;
use std::alloc::Global;
use std::marker::Model;
use unique_verdict::Verdict;

/// The work on one index of a build.
#[derive(Drop)]
pub struct IndexWork {
    /// Its pairs, once they are in order.
    pub(crate) built: Option<Built>,
    /// How many entries of its side-file were applied to them.
    pub(crate) applied: usize,
}

impl Model for IndexWork {
    ghost use Rattle.building.specs.BuildingValue.{IndexValue};

    ghost Value = { IndexValue };

    ghost view = { λ index. record { built = index.built; applied = index.applied } };
}

impl IndexWork {
    /// Whether its keys are unique, and which is shared if they aren't; one that needn't be unique is not asked.
    pub fn verdict(&self) -> Result<Verdict, Fault>
        ensures told { IfOk result (λ verdict. verdict ≡ its_verdict self.now) }
        ensures sure { IsShort (its_verdict self.now) → IsOk result }
        ensures memory { IfErr result (λ fault. fault ≡ Fault.Memory) }
    {
        match &self.built {
            Some(built) => built.verdict(),
            None => Ok(Verdict::Unique),
        }
    }

    /// Whether that verdict accepts it. Takes no memory.
    pub fn is_accepted(&self) -> bool
        ensures { result ≡ accepts (its_verdict self.now) }
    {
        match &self.built {
            Some(built) => built.is_accepted(),
            None => true,
        }
    }

    /// Applies all entries that the ring is known to have to its pairs, which are in order, and answers how many. Where memory is wanted, as where
    /// they can't be counted, the index is of no more use.
    pub(crate) fn apply_batch<P: Pace>(
        &mut self,
        alloc: Global,
        end: &mut EntryEnd,
        pace: &P,
    ) -> Result<usize, Fault>
        requires { IsSome self.old.built }
        ensures applied { IfOk result (λ count. BatchIsIn end.old.known self.old count self.new) }
        ensures taken { OnOk result (TakesKnown end.old end.new) }
        ensures ring { end.new.ring ≡ end.old.ring }
        ensures memory { IfErr result (λ fault. fault ≡ Fault.Memory) }
    {
        let Some(built) = &mut self.built else {
            unreachable!()
        };
        let Some(applied) = self.applied.checked_add(end.known()) else {
            return Err(Fault::Memory);
        };
        let count = apply_batch(alloc, built, end, pace)?;
        built.laws();
        self.applied = applied;
        Ok(count)
    }

    /// Its pairs, which are in order.
    pub fn into_tree(self) -> Tree
        requires { IsSome self.built }
        ensures { IfSome self.built (λ built. result.pairs ≡ built.pairs) }
    {
        let Some(built) = self.built else {
            unreachable!()
        };
        built.into_tree()
    }
}
