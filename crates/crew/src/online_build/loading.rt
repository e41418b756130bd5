//! The loads of a build's indexes side by side, each in a thread of its own, which may have further threads merge the runs of its spools.
ghost use Rattle.std.specs.Prelude.{◌≡◌, ◌≤◌, ◌+◌, [], List, length, map, IfErr, IfOk, IfSome, OnOk, vec_len, vec_capacity};
ghost use Rattle.keybytes.specs.declared.fault.Fault.{Fault};
ghost use Rattle.std.specs.List.{AllZip};
ghost use Rattle.index_load.specs.IndexLoad.{HasRun, IndexLoadValue};
ghost use Rattle.building.specs.Equipped.{HasRoomFor};
ghost use Rattle.building.specs.IndexLoads.{CanLoadAll, HasLoadedAll, LoadsStopped};
ghost use Rattle.crew.specs.Loading.{AreLoadsOf};
ghost use Rattle.crew.specs.Places.{GoesOnWith, stakes_beside};

use crate::{Gate, Opened, Point, Table};
use builder_core::{Building, Plan};
use index_load::IndexLoad;
use keybytes::Fault;
use run_spool::Spool;
use std::alloc::Global;
use std::snapshot::Snapshot;
use std::sync::Wait;
use std::thread;
use std::thread::{Promise, PromisedHandle, Scope, Threads};

/// The load that comes back is the one that went, and it ran.
#[derive(Drop)]
pub(crate) struct LoadRan<S: Spool> {
    pub(crate) load: Snapshot<IndexLoad<S>>,
}

impl<S: Spool> Promise<IndexLoad<S>> for LoadRan<S> {
    ghost use Rattle.index_load.specs.IndexLoad.{HasRun};

    ghost kept_by = { λ promise load. HasRun promise.load.value load };
}

/// What a thread does with its load: it makes the index, while threads of its own merge the runs of each worker's spool where it is to have helpers.
fn run<S: Spool + Send, R: Threads + Wait + Sync>(
    rt: &R,
    helpers: bool,
    mut load: IndexLoad<S>,
) -> IndexLoad<S>
    ensures { HasRun load result }
{
    if helpers {
        load.run_in_threads(rt);
    } else {
        load.run();
    }
    load
}

/// Lets loads run one after the other.
fn run_here<S: Spool>(loads: &mut [IndexLoad<S>])
    ensures { AllZip HasRun loads.old loads.new }
{
    for load in loads {
        load.run();
    }
}

/// Starts a thread for each load. Where one can't be started, the load and those behind it run here, and come back.
fn start<'s, 'e, S: Spool + Send + 'e, R: Threads + Wait + Sync>(
    scope: &'s Scope<'s, &'e ()>,
    rt: &'e R,
    helpers: bool,
    mut loads: Vec<IndexLoad<S>>,
    mut handles: Vec<PromisedHandle<IndexLoad<S>, LoadRan<S>>>,
) -> (
    Vec<PromisedHandle<IndexLoad<S>, LoadRan<S>>>,
    Vec<IndexLoad<S>>,
)
    requires none { handles.items ≡ [] }
    requires room { vec_len loads ≤ vec_capacity handles }
    ensures ran { AreLoadsOf loads.items (map (λ handle. handle.promise.load.value) result.0.items) result.1.items }
    ensures many { vec_len result.0 + vec_len result.1 ≡ vec_len loads }
{
    while !loads.is_empty() {
        let load = loads.remove(0);
        let promise = LoadRan {
            load: Snapshot::of(&load),
        };
        match scope.spawn_with(promise, move || run(rt, helpers, load)) {
            Ok(handle) => handles.push_reserved(handle),
            Err(refused) => {
                let load = (refused.value)();
                run_here(&mut loads);
                let Ok(()) = loads.insert(0, load) else {
                    unreachable!()
                };
                return (handles, loads);
            }
        }
    }
    (handles, loads)
}

/// Waits for each thread. The loads that had none come behind.
fn join_all<S: Spool, R: Threads>(
    rt: &R,
    handles: Vec<PromisedHandle<IndexLoad<S>, LoadRan<S>>>,
    rest: Vec<IndexLoad<S>>,
    mut back: Vec<IndexLoad<S>>,
) -> Vec<IndexLoad<S>>
    requires none { back.items ≡ [] }
    requires room { vec_len handles + vec_len rest ≤ vec_capacity back }
    ensures { (loads : List IndexLoadValue) → AreLoadsOf loads (map (λ handle. handle.promise.load.value) handles.items) rest.items
        → AllZip HasRun loads result.items }
{
    for handle in handles {
        back.push_reserved(handle.join(rt));
    }
    for load in rest {
        back.push_reserved(load);
    }
    back
}

/// Lets all loads run side by side, each in a thread of its own where one can be started, with helpers or without. There is room for the threads, and for the
/// loads that come back.
fn run_all<'e, S: Spool + Send + 'e, R: Threads + Wait + Sync>(
    rt: &'e R,
    helpers: bool,
    loads: Vec<IndexLoad<S>>,
    handles: Vec<PromisedHandle<IndexLoad<S>, LoadRan<S>>>,
    back: Vec<IndexLoad<S>>,
) -> Vec<IndexLoad<S>>
    requires none { (handles.items ≡ []) × (back.items ≡ []) }
    requires room { (vec_len loads ≤ vec_capacity handles) × (vec_len loads ≤ vec_capacity back) }
    ensures { AllZip HasRun loads.items result.items }
{
    thread::scope(
        thread::scope_env(),
        rt,
        move |scope| -> Vec<IndexLoad<S>>
            requires none { (handles.items ≡ []) × (back.items ≡ []) }
            requires room { (vec_len loads ≤ vec_capacity handles) × (vec_len loads ≤ vec_capacity back) }
            ensures { AllZip HasRun loads.items result.items }
        {
            let (handles, rest) = start(scope, rt, helpers, loads, handles);
            join_all(rt, handles, rest, back)
        },
    )
}

/// Tells of each index whose pairs are in order.
fn tell_loaded<S: Spool, T: Opened, G: Gate, R: Wait>(
    rt: &R,
    table: &Table<T>,
    gate: &G,
    loads: &[IndexLoad<S>],
) {
    for (index, load) in loads.iter().enumerate() {
        if let Some(pairs) = load.pairs() {
            table.lock().lock(rt).note_loaded(pairs);
            gate.at(Point::Loaded { index });
        }
    }
}

/// Room for so many threads, and for the loads that come back from them.
fn rooms<S: Spool>(
    alloc: Global,
    count: usize,
) -> Result<
    (
        Vec<PromisedHandle<IndexLoad<S>, LoadRan<S>>>,
        Vec<IndexLoad<S>>,
    ),
    Fault,
>
    ensures room { IfOk result (λ rooms. HasRoomFor count rooms.0 × HasRoomFor count rooms.1) }
    ensures memory { IfErr result (λ fault. fault ≡ Fault.Memory) }
{
    let handles = Vec::with_capacity(alloc, count)?;
    let back = Vec::with_capacity(alloc, count)?;
    Ok((handles, back))
}

/// Puts the pairs of all indexes in order, side by side. There is room for the threads, and for the loads that come back.
fn load_reserved<S: Spool + Send, T: Opened, G: Gate, R: Threads + Wait + Sync>(
    rt: &R,
    alloc: Global,
    table: &Table<T>,
    gate: &G,
    helpers: bool,
    building: Building<S, T>,
    handles: Vec<PromisedHandle<IndexLoad<S>, LoadRan<S>>>,
    back: Vec<IndexLoad<S>>,
) -> (Building<S, T>, Result<(), Fault>)
    requires loads { CanLoadAll building }
    requires none { (handles.items ≡ []) × (back.items ≡ []) }
    requires room { IfSome building.work (λ w. (length w.specs ≤ vec_capacity handles) × (length w.specs ≤ vec_capacity back)) }
    ensures loaded { OnOk result.1 (HasLoadedAll building result.0) }
    ensures spoiled { IfErr result.1 (λ fault. LoadsStopped building fault result.0) }
    ensures memory { IfErr result.1 (λ fault. fault ≡ Fault.Memory) }
{
    match building.lend_loads(alloc) {
        Ok((loads, rest)) => {
            let loads = run_all(rt, helpers, loads, handles, back);
            tell_loaded(rt, table, gate, &loads);
            rest.gather(loads)
        }
        Err((building, fault)) => (building, Err(fault)),
    }
}

/// Whether the loads of so many indexes have threads that merge for them. With fewer than two workers for an index the loads alone
/// keep as many processors busy, and handing pairs on costs more than it brings.
fn have_helpers(indexes: usize, workers: usize) -> bool {
    indexes <= workers / 2
}

/// Puts the pairs of all indexes in order, side by side.
pub(crate) fn load_all<S: Spool + Send, T: Opened, G: Gate, R: Threads + Wait + Sync>(
    rt: &R,
    alloc: Global,
    table: &Table<T>,
    plan: &Plan,
    gate: &G,
    building: Building<S, T>,
) -> (Building<S, T>, Result<(), Fault>)
    requires goes_on { GoesOnWith 0 plan.now.specs.items building }
    requires loads { CanLoadAll building }
    ensures goes_on { OnOk result.1 (GoesOnWith (length plan.now.specs.items) plan.now.specs.items result.0) }
    ensures stakes { stakes_beside result.0 ≡ stakes_beside building }
    ensures memory { IfErr result.1 (λ fault. fault ≡ Fault.Memory) }
{
    match rooms(alloc, plan.specs.len()) {
        Ok((handles, back)) => {
            let helpers = have_helpers(plan.specs.len(), plan.workers);
            load_reserved(rt, alloc, table, gate, helpers, building, handles, back)
        }
        Err(fault) => (building, Err(fault)),
    }
}
