ghost use Rattle.std.specs.Prelude.{◌≡◌, ◌<◌, ◌≤◌, ◌⊎◌, ◌++◌, [], IsPermutation, IfErr, OnOk, OnErr, length};
ghost use Rattle.std.specs.List.Sorted.{IsSorted};
ghost use Rattle.keybytes.specs.Pairs.{pair_cmp};
ghost use Rattle.run_spool.specs.Spools.{NoneEmpty, NoneFreed, AreSorted, all_pairs};
ghost use Rattle.run_maker.specs.FullSpools.{IsFullOf};
ghost use Rattle.run_maker.specs.Spooling.{Spooled};

use crate::RunSort;
use keybytes::{Fault, Pair};
use run_spool::Spool;

/// Sorts the pairs. Where the sort finds no memory, they are sorted where they are, which needs none.
fn put_in_order<Q: RunSort>(pairs: &mut Vec<Pair>, sort: &mut Q)
    ensures permutation { IsPermutation pairs.old.items pairs.new.items }
    ensures len { length pairs.new.items ≡ length pairs.old.items }
    ensures sorted { IsSorted pair_cmp pairs.new.items }
{
    if sort.sort(pairs).is_err() {
        pairs.sort_unstable();
    }
}

/// Sorts the pairs and spools them as a run. After an `Err` some of them are in the spool's open run, and the others are lost or
/// still here.
pub(crate) fn spool_run<S: Spool, Q: RunSort>(
    pairs: &mut Vec<Pair>,
    spool: &mut S,
    sort: &mut Q,
) -> Result<(), Fault>
    requires none_empty { NoneEmpty (S.runs spool.old) }
    requires open_run { S.open_run spool.old ≡ [] }
    requires few { length pairs.old.items ≤ 4096 }
    ensures spooled { OnOk result (Spooled pairs.old.items (S.runs spool.old) (S.runs spool.new)) }
    ensures none_empty { NoneEmpty (S.runs spool.new) }
    ensures sorted { AreSorted (S.runs spool.old) → AreSorted (S.runs spool.new) }
    ensures intact { NoneFreed S.is_intact S.runs spool.old → NoneFreed S.is_intact S.runs spool.new }
    ensures left { OnOk result (pairs.new.items ≡ []) }
    ensures open_run { OnOk result (S.open_run spool.new ≡ []) }
    ensures runs { OnErr result (S.runs spool.new ≡ S.runs spool.old) }
    ensures lost { OnErr result (length pairs.new.items < length pairs.old.items) }
    ensures stake { S.stake spool.new ≡ S.stake spool.old }
    ensures no_page { IfErr result (λ fault. fault ≡ Fault.NoPage) }
    ensures full { OnErr result (IsFullOf S.is_full S.runs S.open_run (all_pairs (S.runs spool.old) ++ pairs.old.items) spool.new) }
{
    put_in_order(pairs, sort);
    // (the first is taken from the end, so that the memory stays here)
    pairs.reverse();
    while let Some(pair) = pairs.pop() {
        if let Err((_, fault)) = spool.push(pair) {
            return Err(fault);
        }
    }
    spool.end_run();
    Ok(())
}
