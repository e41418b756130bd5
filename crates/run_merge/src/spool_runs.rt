//! The closed runs of several spools, numbered through: those of the first spool, then those of the second, and so on.
ghost use Rattle.std.specs.Prelude.{◌≡◌, ◌<◌, ℕ, [], IfOk, IfErr, OnOk, OnErr, length, map, drop, get_or, set, slice_get};
ghost use Rattle.std.specs.List.{flat_map};
ghost use Rattle.run_merge.specs.Merging.{all_runs};
ghost use Rattle.run_merge.specs.Places.{IsPlace};
ghost use Rattle.run_merge.specs.declared.place.Place.{Place};

use crate::place::Place;
use keybytes::{Fault, Key, Pair};
use run_spool::Spool;
use std::alloc::Global;

/// How many runs the spools have together. No memory has room for more than `usize` counts.
pub(crate) fn run_count<S: Spool>(spools: &[S]) -> Result<usize, Fault>
    ensures count { IfOk result (λ count. count ≡ length (flat_map S.runs spools.now)) }
    ensures memory { IfErr result (λ fault. fault ≡ Fault.Memory) }
{
    let mut count = 0usize;
    for spool in spools {
        count = count.checked_add(spool.run_count()).ok_or(Fault::Memory)?;
    }
    Ok(count)
}

/// Where a run stands.
pub(crate) fn place<S: Spool>(spools: &[S], run: usize) -> Place
    requires { run < length (flat_map S.runs spools.now) }
    ensures { IsPlace (map S.runs spools.now) run result }
{
    let mut spool = 0;
    let mut left = run;
    while spool < spools.len() {
        let count = spools[spool].run_count();
        if left < count {
            return Place { spool, run: left };
        }
        left -= count;
        spool += 1;
    }
    unreachable!()
}

/// The pair with number `n` of a run, if it has so many.
pub(crate) fn read<S: Spool>(
    alloc: Global,
    spools: &mut [S],
    run: usize,
    place: Place,
    n: usize,
) -> Result<Option<Pair>, Fault>
    requires { IsPlace (map S.runs spools.old) run place }
    ensures pair { IfOk result (λ pair. pair ≡ slice_get (get_or (all_runs (map S.runs spools.old)) run []) n) }
    ensures runs { map S.runs spools.new ≡ map S.runs spools.old }
    ensures open_runs { map S.open_run spools.new ≡ map S.open_run spools.old }
    ensures stakes { map S.stake spools.new ≡ map S.stake spools.old }
    ensures memory { IfErr result (λ fault. fault ≡ Fault.Memory) }
{
    pair_at(alloc, &mut spools[place.spool], place.run, n)
}

/// Frees the first pair of a run. Answers the one that is second then, if there is one; an `Err` frees none.
#[inline]
pub(crate) fn advance<S: Spool>(
    alloc: Global,
    spools: &mut [S],
    run: usize,
    place: Place,
) -> Result<Option<Pair>, Fault>
    requires place { IsPlace (map S.runs spools.old) run place }
    requires pair { 0 < length (get_or (all_runs (map S.runs spools.old)) run []) }
    ensures second { IfOk result (λ second. second ≡ slice_get (get_or (all_runs (map S.runs spools.old)) run []) 2) }
    ensures freed { OnOk result (all_runs (map S.runs spools.new)
        ≡ set (all_runs (map S.runs spools.old)) run (drop 1 (get_or (all_runs (map S.runs spools.old)) run []))) }
    ensures places { (n : ℕ) (at : Place) → IsPlace (map S.runs spools.old) n at → IsPlace (map S.runs spools.new) n at }
    ensures refused { OnErr result (map S.runs spools.new ≡ map S.runs spools.old) }
    ensures open_runs { map S.open_run spools.new ≡ map S.open_run spools.old }
    ensures stakes { map S.stake spools.new ≡ map S.stake spools.old }
    ensures memory { IfErr result (λ fault. fault ≡ Fault.Memory) }
{
    free_first(alloc, &mut spools[place.spool], place.run)
}

// The same of one spool's run.
fn free_first<S: Spool>(alloc: Global, spool: &mut S, run: usize) -> Result<Option<Pair>, Fault>
    requires run { run < length (S.runs spool.old) }
    requires pair { 0 < length (get_or (S.runs spool.old) run []) }
    ensures second { IfOk result (λ second. second ≡ slice_get (get_or (S.runs spool.old) run []) 2) }
    ensures freed { OnOk result (S.runs spool.new ≡ set (S.runs spool.old) run (drop 1 (get_or (S.runs spool.old) run []))) }
    ensures count { length (S.runs spool.new) ≡ length (S.runs spool.old) }
    ensures refused { OnErr result (S.runs spool.new ≡ S.runs spool.old) }
    ensures open_run { S.open_run spool.new ≡ S.open_run spool.old }
    ensures stake { S.stake spool.new ≡ S.stake spool.old }
    ensures memory { IfErr result (λ fault. fault ≡ Fault.Memory) }
{
    let second = pair_at(alloc, spool, run, 2)?;
    spool.free_front(run, 1);
    Ok(second)
}

// A pair of a run, if the run has so many.
fn pair_at<S: Spool>(
    alloc: Global,
    spool: &mut S,
    run: usize,
    place: usize,
) -> Result<Option<Pair>, Fault>
    requires { run < length (S.runs spool.old) }
    ensures pair { IfOk result (λ pair. pair ≡ slice_get (get_or (S.runs spool.old) run []) place) }
    ensures runs { S.runs spool.new ≡ S.runs spool.old }
    ensures open_run { S.open_run spool.new ≡ S.open_run spool.old }
    ensures stake { S.stake spool.new ≡ S.stake spool.old }
    ensures memory { IfErr result (λ fault. fault ≡ Fault.Memory) }
{
    if spool.run_len(run) <= place {
        return Ok(None);
    }
    let mut key = Key::new(alloc);
    let rid = spool.read(run, place, &mut key)?;
    Ok(Some(Pair { key, rid }))
}
