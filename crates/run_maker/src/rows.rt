//! The pairs of a row, one for each index that takes it.
ghost use Rattle.std.specs.Prelude.{◌≡◌, ◌≤◌, ◌+◌, ◌⊎◌, [], ◌∷◌, ◌++◌, All, Some, IfErr, OnOk, OnErr, map, length, true};
ghost use Rattle.std.specs.Option.{option_to_list};
ghost use Rattle.keybytes.specs.Cells.{fits};
ghost use Rattle.keybytes.specs.Pairs.{pair_with};
ghost use Rattle.run_spool.specs.Spools.{NoneEmpty, AreSorted, NoneFreed, NoPageOnlyIf, all_pairs};
ghost use Rattle.run_maker.specs.FullSpools.{HasFullOf, IsFullOf};
ghost use Rattle.run_maker.specs.Spooling.{Adds, MemoryOnlyIf};
ghost use Rattle.run_maker.specs.Making.{AreReady, TakesRow, TakesRowPart, AreHeldWithRow};

use crate::RunSort;
use crate::open_run::OpenRun;
use keybytes::{Fault, KeySpec, Pair, Rid, Row};
use run_spool::Spool;

// Makes the pair of a row for one index, if that takes the row.
fn add_key<S: Spool, Q: RunSort>(
    spec: &KeySpec,
    row: &Row,
    rid: Rid,
    begun: &mut OpenRun,
    spool: &mut S,
    sort: &mut Q,
) -> Result<(), Fault>
    requires fits { fits spec.now.kinds row.now ≡ true }
    requires none_empty { NoneEmpty (S.runs spool.old) }
    requires open_run { S.open_run spool.old ≡ [] }
    ensures added { OnOk result (Adds (option_to_list (pair_with spec.now rid (Some row.now))) (S.runs spool.old) begun.old
        (S.runs spool.new) begun.new) }
    ensures none_empty { NoneEmpty (S.runs spool.new) }
    ensures sorted { AreSorted (S.runs spool.old) → AreSorted (S.runs spool.new) }
    ensures intact { NoneFreed S.is_intact S.runs spool.old → NoneFreed S.is_intact S.runs spool.new }
    ensures open_run { OnOk result (S.open_run spool.new ≡ []) }
    ensures stake { S.stake spool.new ≡ S.stake spool.old }
    ensures fault { IfErr result (λ fault. (fault ≡ Fault.NoPage) ⊎ (fault ≡ Fault.Memory)) }
    ensures full { IfErr result (NoPageOnlyIf
        (IsFullOf S.is_full S.runs S.open_run
        ((all_pairs (S.runs spool.old) ++ begun.old) ++ option_to_list (pair_with spec.now rid (Some row.now))) spool.new)) }
    ensures runs { OnErr result (S.runs spool.new ≡ S.runs spool.old) }
    ensures many { IfErr result (NoPageOnlyIf (4096 ≤ length begun.old + length (option_to_list (pair_with spec.now rid (Some row.now))))) }
    ensures unchanged { IfErr result (MemoryOnlyIf (begun.new ≡ begun.old)) }
    ensures untouched { IfErr result (MemoryOnlyIf (spool.new ≡ spool.old)) }
{
    match spec.key(row)? {
        Some(key) => begun.add(Pair { key, rid }, spool, sort),
        None => Ok(()),
    }
}

/// Makes the pairs of a row.
pub(crate) fn add_row<S: Spool, Q: RunSort>(
    specs: &[KeySpec],
    row: &Row,
    rid: Rid,
    begun: &mut [OpenRun],
    spools: &mut [S],
    sort: &mut Q,
) -> Result<(), Fault>
    requires fits { All (λ spec. fits spec.kinds row.now ≡ true) specs.now }
    requires begun { length begun.old ≡ length specs.now }
    requires spools { length spools.old ≡ length specs.now }
    requires ready { AreReady (map S.runs spools.old) (map S.open_run spools.old) }
    ensures added { OnOk result (TakesRow specs.now rid (Some row.now)
        (record { runs = map S.runs spools.old; begun = begun.old }) (record { runs = map S.runs spools.new; begun = begun.new })) }
    ensures ready { OnOk result (AreReady (map S.runs spools.new) (map S.open_run spools.new)) }
    ensures sorted { All AreSorted (map S.runs spools.old) → All AreSorted (map S.runs spools.new) }
    ensures intact { All (NoneFreed S.is_intact S.runs) spools.old → All (NoneFreed S.is_intact S.runs) spools.new }
    ensures stakes { map S.stake spools.new ≡ map S.stake spools.old }
    ensures fault { IfErr result (λ fault. (fault ≡ Fault.NoPage) ⊎ (fault ≡ Fault.Memory)) }
    ensures full { IfErr result (NoPageOnlyIf (HasFullOf S.is_full S.runs S.open_run 4096 (map S.runs spools.old)
        (AreHeldWithRow specs.now rid (Some row.now) (record { runs = map S.runs spools.old; begun = begun.old })) spools.new)) }
    ensures want { IfErr result (MemoryOnlyIf (AreReady (map S.runs spools.new) (map S.open_run spools.new))) }
    ensures part { IfErr result (MemoryOnlyIf (TakesRowPart specs.now rid (Some row.now)
        (record { runs = map S.runs spools.old; begun = begun.old }) (record { runs = map S.runs spools.new; begun = begun.new }))) }
{
    for i in 0..specs.len() {
        add_key(&specs[i], row, rid, &mut begun[i], &mut spools[i], sort)?;
    }
    Ok(())
}
