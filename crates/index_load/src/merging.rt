//! The pairs of an index's spools in a tree.
ghost use Rattle.std.specs.Prelude.{◌≡◌, List, ◌+◌, ◌*◌, ◌<◌, ◌≤◌, [], All, map, length, IfOk, IfErr, OnOk, OnErr, IsPermutation, vec_capacity};
ghost use Rattle.keybytes.specs.Pairs.{AreOrdered};
ghost use Rattle.run_spool.specs.Spools.{AreSorted, all_pairs};
ghost use Rattle.run_merge.specs.Merging.{all_runs};
ghost use Rattle.index_load.specs.Columns.{column, other_columns, ended_column};
ghost use Rattle.page_workers.specs.SpoolValue.{SpoolValue, spool_value, ended_spool, pairs_in, stakes_of};
ghost use Rattle.bulk_load.specs.Each.{AreEachOnce};
ghost use Rattle.index_load.specs.IndexLoad.{MakesIndex};

use crate::ending::end_spools;
use btree::Tree;
use bulk_load::{tree_in_threads, tree_of};
use catch_up::Built;
use keybytes::Fault;
use run_spool::Spool;
use std::alloc::Global;
use std::sync::Wait;
use std::thread::Threads;

/// Makes a tree of the pairs of all closed runs of an index's spools, one of each of so many workers, and then ends these spools;
/// those of the other indexes stay as they are. Want of memory may lose some of the pairs, and ends no spool.
pub fn merged_tree<S: Spool>(
    alloc: Global,
    spools: &mut Vec<S>,
    index: usize,
    indexes: usize,
    workers: usize,
) -> Result<Tree, Fault>
    requires there { index < indexes }
    requires all { length spools.old.items ≡ workers * indexes }
    requires sorted { All AreSorted (map S.runs (column index indexes spools.old.items)) }
    requires once { AreEachOnce (all_pairs (all_runs (map S.runs (column index indexes spools.old.items)))) }
    ensures all { IfOk result (λ tree. IsPermutation (all_pairs (all_runs (map S.runs (column index indexes spools.old.items)))) tree.pairs) }
    ensures ended { OnOk result (map (spool_value S.runs S.open_run S.stake) spools.new.items
        ≡ ended_column index indexes (map (spool_value S.runs S.open_run S.stake) spools.old.items)) }
    ensures others { other_columns index indexes spools.new.items ≡ other_columns index indexes spools.old.items }
    ensures stakes { map S.stake spools.new.items ≡ map S.stake spools.old.items }
    ensures capacity { vec_capacity spools.old ≤ vec_capacity spools.new }
    ensures memory { IfErr result (λ fault. fault ≡ Fault.Memory) }
{
    let own = take_out(alloc, spools, index, indexes, workers)?;
    let (tree, own) = tree_of(alloc, own);
    let (tree, own) = ended(tree, own);
    put_back(spools, own, index, indexes, workers);
    tree
}

/// Takes the spools of an index out of those of so many workers. Where there is no memory for them all stay.
fn take_out<S: Spool>(
    alloc: Global,
    spools: &mut Vec<S>,
    index: usize,
    indexes: usize,
    workers: usize,
) -> Result<Vec<S>, Fault>
    requires there { index < indexes }
    requires all { length spools.old.items ≡ workers * indexes }
    ensures own { IfOk result (λ own. own.items ≡ column index indexes spools.old.items) }
    ensures others { OnOk result (spools.new.items ≡ other_columns index indexes spools.old.items) }
    ensures many { IfOk result (λ own. length own.items ≡ workers) }
    ensures all { OnOk result (length spools.new.items + workers ≡ workers * indexes) }
    ensures room { OnOk result (workers * indexes ≤ vec_capacity spools.new) }
    ensures capacity { OnOk result (vec_capacity spools.new ≡ vec_capacity spools.old) }
    ensures unchanged { OnErr result (spools.new ≡ spools.old) }
    ensures memory { IfErr result (λ fault. fault ≡ Fault.Memory) }
{
    let own = Vec::with_capacity(alloc, workers)?;
    Ok(move_out(own, spools, index, indexes, workers))
}

/// Moves the spools of an index out of those of so many workers into an empty list that has room for them.
pub fn move_out<S: Spool>(
    own: Vec<S>,
    spools: &mut Vec<S>,
    index: usize,
    indexes: usize,
    workers: usize,
) -> Vec<S>
    requires none { own.items ≡ [] }
    requires places { workers ≤ vec_capacity own }
    requires there { index < indexes }
    requires all { length spools.old.items ≡ workers * indexes }
    ensures own { result.items ≡ column index indexes spools.old.items }
    ensures others { spools.new.items ≡ other_columns index indexes spools.old.items }
    ensures many { length result.items ≡ workers }
    ensures all { length spools.new.items + workers ≡ workers * indexes }
    ensures room { workers * indexes ≤ vec_capacity spools.new }
    ensures capacity { vec_capacity spools.new ≡ vec_capacity spools.old }
{
    let mut own = own;
    for worker in 0..workers {
        own.push_reserved(spools.remove(worker * (indexes - 1) + index));
    }
    own
}

/// Puts the spools of an index back among those of the others. Takes no memory.
pub fn put_back<S: Spool>(
    spools: &mut Vec<S>,
    mut own: Vec<S>,
    index: usize,
    indexes: usize,
    workers: usize,
)
    requires there { index < indexes }
    requires many { length own.items ≡ workers }
    requires all { length spools.old.items + workers ≡ workers * indexes }
    requires room { workers * indexes ≤ vec_capacity spools.old }
    ensures own { column index indexes spools.new.items ≡ own.items }
    ensures others { other_columns index indexes spools.new.items ≡ spools.old.items }
    ensures many { length spools.new.items ≡ workers * indexes }
    ensures capacity { vec_capacity spools.old ≤ vec_capacity spools.new }
{
    while let Some(spool) = own.pop() {
        let Ok(()) = spools.insert(own.len() * (indexes - 1) + index, spool) else {
            unreachable!()
        };
    }
}

/// Makes an index of the pairs of all closed runs of the spools, in order, with a tally where it is unique; the spools are handed back, ended if there
/// is an index.
pub(crate) fn built_of<S: Spool>(
    alloc: Global,
    spools: Vec<S>,
    build: u64,
    unique: bool,
) -> (Result<Built, Fault>, Vec<S>)
    requires sorted { All AreSorted (map S.runs spools.items) }
    requires once { AreEachOnce (all_pairs (all_runs (map S.runs spools.items))) }
    ensures { MakesIndex build unique (map (spool_value S.runs S.open_run S.stake) spools.items) result.0
        (map (spool_value S.runs S.open_run S.stake) result.1.items) }
{
    let (tree, back) = tree_of(alloc, spools);
    made_of(alloc, tree, back, build, unique)
}

/// The same with a thread for each spool, which merges its runs.
pub(crate) fn built_in_threads<S: Spool + Send, R: Threads + Wait + Sync>(
    rt: &R,
    alloc: Global,
    spools: Vec<S>,
    build: u64,
    unique: bool,
) -> (Result<Built, Fault>, Vec<S>)
    requires sorted { All AreSorted (map S.runs spools.items) }
    requires once { AreEachOnce (all_pairs (all_runs (map S.runs spools.items))) }
    ensures { MakesIndex build unique (map (spool_value S.runs S.open_run S.stake) spools.items) result.0
        (map (spool_value S.runs S.open_run S.stake) result.1.items) }
{
    let (tree, back) = tree_in_threads(rt, alloc, spools);
    made_of(alloc, tree, back, build, unique)
}

/// The index of a tree, if there is one, and the spools whose pairs are in it, ended.
fn made_of<S: Spool>(
    alloc: Global,
    tree: Result<Tree, Fault>,
    spools: Vec<S>,
    build: u64,
    unique: bool,
) -> (Result<Built, Fault>, Vec<S>)
    requires memory { IfErr tree (λ fault. fault ≡ Fault.Memory) }
    ensures { (old : List SpoolValue) → stakes_of old ≡ map S.stake spools.items
        → IfOk tree (λ tree. IsPermutation (pairs_in old) tree.pairs)
        → MakesIndex build unique old result.0 (map (spool_value S.runs S.open_run S.stake) result.1.items) }
{
    let (tree, back) = ended(tree, spools);
    let built = match tree {
        Ok(tree) => index_of(alloc, tree, build, unique),
        Err(fault) => Err(fault),
    };
    (built, back)
}

/// The index of a tree, with a tally where it is unique.
fn index_of(alloc: Global, tree: Tree, build: u64, unique: bool) -> Result<Built, Fault>
    ensures pairs { IfOk result (λ built. built.pairs ≡ tree.pairs) }
    ensures order { IfOk result (λ built. AreOrdered built.pairs) }
    ensures build { IfOk result (λ built. built.build ≡ build) }
    ensures unique { IfOk result (λ built. built.unique ≡ unique) }
    ensures memory { IfErr result (λ fault. fault ≡ Fault.Memory) }
{
    tree.laws();
    if unique {
        return Built::unique(alloc, build, tree);
    }
    Ok(Built::new(build, tree))
}

/// Ends the spools if their pairs are in a tree.
fn ended<S: Spool>(tree: Result<Tree, Fault>, spools: Vec<S>) -> (Result<Tree, Fault>, Vec<S>)
    ensures tree { result.0 ≡ tree }
    ensures ended { OnOk tree (map (spool_value S.runs S.open_run S.stake) result.1.items
        ≡ map ended_spool (map (spool_value S.runs S.open_run S.stake) spools.items)) }
    ensures stakes { map S.stake result.1.items ≡ map S.stake spools.items }
{
    let mut spools = spools;
    if tree.is_ok() {
        end_spools(&mut spools);
    }
    (tree, spools)
}
