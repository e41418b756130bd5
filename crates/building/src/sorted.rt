ghost use Rattle.std.specs.Prelude.{◌≡◌, ◌*◌, ◌<◌, ◌≤◌, All, map, length, slice_get, IfOk, IfErr, OnOk, IsPermutation, vec_capacity};
ghost use Rattle.keybytes.specs.Pairs.{AreOrdered};
ghost use Rattle.run_spool.specs.Spools.{AreSorted, all_pairs};
ghost use Rattle.run_merge.specs.Merging.{all_runs};
ghost use Rattle.index_load.specs.Columns.{column, other_columns, ended_column};
ghost use Rattle.bulk_load.specs.Each.{AreEachOnce};
ghost use Rattle.building.specs.BuildingValue.{is_unique};
ghost use Rattle.page_workers.specs.SpoolValue.{spool_value};

use crate::work::Work;
use catch_up::Built;
use index_load::merged_tree;
use keybytes::Fault;
use run_spool::Spool;
use std::alloc::Global;

/// The index of that number with the pairs of its spools in order, which are then ended; where it is unique, with a tally. Want of
/// memory may lose some of the pairs.
pub fn sorted_index<S: Spool>(
    alloc: Global,
    spools: &mut Vec<S>,
    index: usize,
    work: &Work,
    workers: usize,
) -> Result<Built, Fault>
    requires there { index < length work.now.specs }
    requires all { length spools.old.items ≡ workers * length work.now.specs }
    requires sorted { All AreSorted (map S.runs (column index (length work.now.specs) spools.old.items)) }
    requires once { AreEachOnce (all_pairs (all_runs (map S.runs (column index (length work.now.specs) spools.old.items)))) }
    ensures all { IfOk result (λ built. IsPermutation (all_pairs (all_runs (map S.runs (column index (length work.now.specs) spools.old.items)))) built.pairs) }
    ensures order { IfOk result (λ built. AreOrdered built.pairs) }
    ensures build { IfOk result (λ built. built.build ≡ work.now.build) }
    ensures unique { IfOk result (λ built. built.unique ≡ is_unique (slice_get work.now.specs index)) }
    ensures ended { OnOk result (map (spool_value S.runs S.open_run S.stake) spools.new.items
        ≡ ended_column index (length work.now.specs) (map (spool_value S.runs S.open_run S.stake) spools.old.items)) }
    ensures others { other_columns index (length work.now.specs) spools.new.items ≡ other_columns index (length work.now.specs) spools.old.items }
    ensures stakes { map S.stake spools.new.items ≡ map S.stake spools.old.items }
    ensures capacity { vec_capacity spools.old ≤ vec_capacity spools.new }
    ensures memory { IfErr result (λ fault. fault ≡ Fault.Memory) }
{
    let tree = merged_tree(alloc, spools, index, work.specs.len(), workers)?;
    tree.laws();
    if work.specs[index].unique() {
        return Built::unique(alloc, work.build, tree);
    }
    Ok(Built::new(work.build, tree))
}
