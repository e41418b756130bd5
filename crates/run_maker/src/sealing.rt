ghost use Rattle.std.specs.Prelude.{◌≡◌, [], All, IfErr, OnOk, OnErr, map, length};
ghost use Rattle.run_spool.specs.Spools.{AreSorted, NoneFreed};
ghost use Rattle.run_maker.specs.FullSpools.{HasFullOf};
ghost use Rattle.run_maker.specs.Making.{AreHeld, AreReady, Seals};

use crate::RunSort;
use crate::open_run::OpenRun;
use keybytes::Fault;
use run_spool::Spool;

/// Spools the pairs of each index that are in no run yet.
pub(crate) fn close_all<S: Spool, Q: RunSort>(
    begun: &mut [OpenRun],
    spools: &mut [S],
    sort: &mut Q,
) -> Result<(), Fault>
    requires spools { length spools.old ≡ length begun.old }
    requires ready { AreReady (map S.runs spools.old) (map S.open_run spools.old) }
    ensures sealed { OnOk result (Seals (record { runs = map S.runs spools.old; begun = begun.old }) (map S.runs spools.new)) }
    ensures none_open { OnOk result (All (λ begun. begun ≡ []) begun.new) }
    ensures ready { OnOk result (AreReady (map S.runs spools.new) (map S.open_run spools.new)) }
    ensures sorted { All AreSorted (map S.runs spools.old) → All AreSorted (map S.runs spools.new) }
    ensures intact { All (NoneFreed S.is_intact S.runs) spools.old → All (NoneFreed S.is_intact S.runs) spools.new }
    ensures stakes { map S.stake spools.new ≡ map S.stake spools.old }
    ensures no_page { IfErr result (λ fault. fault ≡ Fault.NoPage) }
    ensures full { OnErr result (HasFullOf S.is_full S.runs S.open_run 1 (map S.runs spools.old)
        (AreHeld (record { runs = map S.runs spools.old; begun = begun.old })) spools.new) }
{
    for i in 0..begun.len() {
        begun[i].close(&mut spools[i], sort)?;
    }
    Ok(())
}
