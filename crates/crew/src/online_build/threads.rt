//! The workers of a build in threads of their own.
ghost use Rattle.std.specs.Prelude.{◌≡◌, ◌≤◌, ◌+◌, ◌++◌, [], map, All, None, Some, IfErr, IfSome, OnOk, vec_len, vec_capacity};
ghost use Rattle.keybytes.specs.declared.fault.Fault.{Fault};
ghost use Rattle.crew.specs.Reports.{IsOther};
ghost use Rattle.crew.specs.Places.{place_of, places_of};
ghost use Rattle.crew.specs.Returning.{first_fault};
ghost use Rattle.crew.specs.Working.{IsSealed};

use crate::online_build::comes_back::{ComesBack, Returned};
use crate::online_build::range_queue::RangeQueue;
use crate::online_build::working::work;
use crate::{Gate, Opened, Table};
use builder_core::Worker;
use keybytes::Fault;
use run_maker::ParSort;
use run_spool::Spool;
use std::alloc::Global;
use std::snapshot::Snapshot;
use std::sync::Wait;
use std::thread;
use std::thread::{PromisedHandle, Scope, Threads};

/// What a thread does with its worker. The sort that it makes would use more threads only for longer runs than a worker has.
fn run<S: Spool, T: Opened, G: Gate, R: Threads + Wait + Sync>(
    rt: &R,
    alloc: Global,
    table: &Table<T>,
    queue: &RangeQueue,
    gate: &G,
    mut worker: Worker<S>,
) -> Returned<S>
    ensures same { place_of result.worker ≡ place_of worker }
    ensures sealed { result.fault ≡ None → IsSealed result.worker }
    ensures other { IfSome result.fault IsOther }
{
    let mut sort = ParSort::new(rt);
    let fault = work(rt, alloc, table, queue, gate, &mut worker, &mut sort).err();
    Returned { worker, fault }
}

/// Starts a thread for each worker. Where one can't be started, the workers that have no thread come back.
fn start<
    's,
    'e,
    S: Spool + Send + 'e,
    T: Opened + Send + Sync + 'e,
    G: Gate + Sync + 'e,
    R: Threads + Wait + Sync,
>(
    scope: &'s Scope<'s, &'e ()>,
    rt: &'e R,
    alloc: Global,
    table: &'e Table<T>,
    queue: &'e RangeQueue,
    gate: &'e G,
    mut workers: Vec<Worker<S>>,
    mut handles: Vec<PromisedHandle<Returned<S>, ComesBack<S>>>,
) -> (
    Vec<PromisedHandle<Returned<S>, ComesBack<S>>>,
    Vec<Worker<S>>,
)
    requires none { handles.items ≡ [] }
    requires room { vec_len workers ≤ vec_capacity handles }
    ensures all { map (λ handle. place_of handle.promise.worker.value) result.0.items ++ places_of result.1.items ≡ places_of workers.items }
    ensures many { vec_len result.0 + vec_len result.1 ≡ vec_len workers }
{
    while !workers.is_empty() {
        let worker = workers.remove(0);
        let promise = ComesBack {
            worker: Snapshot::of(&worker),
        };
        match scope.spawn_with(promise, move || run(rt, alloc, table, queue, gate, worker)) {
            Ok(handle) => handles.push_reserved(handle),
            Err(refused) => {
                queue.drain(rt);
                let Returned { worker, fault: _ } = (refused.value)();
                let Ok(()) = workers.insert(0, worker) else {
                    unreachable!()
                };
                return (handles, workers);
            }
        }
    }
    (handles, workers)
}

/// Waits for each thread, in the order of the workers.
fn join_all<S: Spool, R: Threads>(
    rt: &R,
    handles: Vec<PromisedHandle<Returned<S>, ComesBack<S>>>,
    back: &mut Vec<Returned<S>>,
)
    requires none { back.old.items ≡ [] }
    requires room { vec_len handles ≤ vec_capacity back.old }
    ensures back { map (λ one. place_of one.worker) back.new.items ≡ map (λ handle. place_of handle.promise.worker.value) handles.items }
    ensures other { All (λ one. IfSome one.fault IsOther) back.new.items }
    ensures many { vec_len back.new ≡ vec_len handles }
    ensures room { vec_capacity back.new ≡ vec_capacity back.old }
{
    for handle in handles {
        back.push_reserved(handle.join(rt));
    }
}

/// Puts the workers that had no thread behind the others, each as refused for want of memory. There is room for them.
fn put_behind<S: Spool>(rest: Vec<Worker<S>>, back: &mut Vec<Returned<S>>)
    requires room { vec_len back.old + vec_len rest ≤ vec_capacity back.old }
    requires other { All (λ one. IfSome one.fault IsOther) back.old.items }
    ensures back { map (λ one. place_of one.worker) back.new.items ≡ map (λ one. place_of one.worker) back.old.items ++ places_of rest.items }
    ensures faults { map (λ one. one.fault) back.new.items ≡ map (λ one. one.fault) back.old.items ++ map (λ worker. Some Fault.Memory) rest.items }
    ensures other { All (λ one. IfSome one.fault IsOther) back.new.items }
    ensures many { vec_len back.new ≡ vec_len back.old + vec_len rest }
{
    for worker in rest {
        back.push_reserved(Returned {
            worker,
            fault: Some(Fault::Memory),
        });
    }
}

/// The fault of the lowest worker that was stopped, if one was.
fn lowest_fault<S: Spool>(back: &[Returned<S>]) -> Option<Fault>
    ensures { result ≡ first_fault (map (λ one. one.fault) back.now) }
{
    for number in 0..back.len() {
        let fault = back[number].fault;
        if fault.is_some() {
            return fault;
        }
    }
    None
}

/// The workers alone, and the fault of the lowest that was stopped.
fn told<S: Spool>(
    back: Vec<Returned<S>>,
    mut workers: Vec<Worker<S>>,
) -> (Vec<Worker<S>>, Result<(), Fault>)
    requires none { workers.items ≡ [] }
    requires room { vec_len back ≤ vec_capacity workers }
    requires other { All (λ one. IfSome one.fault IsOther) back.items }
    ensures back { places_of result.0.items ≡ map (λ one. place_of one.worker) back.items }
    ensures fine { OnOk result.1 (first_fault (map (λ one. one.fault) back.items) ≡ None) }
    ensures lowest { IfErr result.1 (λ fault. first_fault (map (λ one. one.fault) back.items) ≡ Some fault) }
    ensures other { IfErr result.1 IsOther }
{
    let lowest = lowest_fault(&back);
    take_workers(back, &mut workers);
    match lowest {
        Some(fault) => (workers, Err(fault)),
        None => (workers, Ok(())),
    }
}

/// Takes the workers that came back, in their order.
fn take_workers<S: Spool>(back: Vec<Returned<S>>, workers: &mut Vec<Worker<S>>)
    requires none { workers.old.items ≡ [] }
    requires room { vec_len back ≤ vec_capacity workers.old }
    ensures { places_of workers.new.items ≡ map (λ one. place_of one.worker) back.items }
{
    for one in back {
        let Returned { worker, fault: _ } = one;
        workers.push_reserved(worker);
    }
}

/// Runs each worker in a thread of its own, until none finds a range any more. Each comes back.
pub(crate) fn run_all<
    'e,
    S: Spool + Send + 'e,
    T: Opened + Send + Sync + 'e,
    G: Gate + Sync + 'e,
    R: Threads + Wait + Sync,
>(
    rt: &'e R,
    alloc: Global,
    table: &'e Table<T>,
    queue: &'e RangeQueue,
    gate: &'e G,
    workers: Vec<Worker<S>>,
) -> (Vec<Worker<S>>, Result<(), Fault>)
    ensures back { places_of result.0.items ≡ places_of workers.items }
    ensures other { IfErr result.1 IsOther }
{
    let Ok(handles) = Vec::with_capacity(alloc, workers.len()) else {
        return (workers, Err(Fault::Memory));
    };
    let Ok(back) = Vec::with_capacity(alloc, workers.len()) else {
        return (workers, Err(Fault::Memory));
    };
    let Ok(home) = Vec::with_capacity(alloc, workers.len()) else {
        return (workers, Err(Fault::Memory));
    };
    run_reserved(rt, alloc, table, queue, gate, workers, handles, back, home)
}

/// The same with room for the threads, and for what comes back from them.
fn run_reserved<
    'e,
    S: Spool + Send + 'e,
    T: Opened + Send + Sync + 'e,
    G: Gate + Sync + 'e,
    R: Threads + Wait + Sync,
>(
    rt: &'e R,
    alloc: Global,
    table: &'e Table<T>,
    queue: &'e RangeQueue,
    gate: &'e G,
    workers: Vec<Worker<S>>,
    handles: Vec<PromisedHandle<Returned<S>, ComesBack<S>>>,
    back: Vec<Returned<S>>,
    home: Vec<Worker<S>>,
) -> (Vec<Worker<S>>, Result<(), Fault>)
    requires none { (handles.items ≡ []) × (back.items ≡ []) × (home.items ≡ []) }
    requires room { (vec_len workers ≤ vec_capacity handles) × (vec_len workers ≤ vec_capacity back) × (vec_len workers ≤ vec_capacity home) }
    ensures back { places_of result.0.items ≡ places_of workers.items }
    ensures other { IfErr result.1 IsOther }
{
    thread::scope(
        thread::scope_env(),
        rt,
        move |scope| -> (Vec<Worker<S>>, Result<(), Fault>)
            requires none { (handles.items ≡ []) × (back.items ≡ []) × (home.items ≡ []) }
            requires room { (vec_len workers ≤ vec_capacity handles) × (vec_len workers ≤ vec_capacity back) × (vec_len workers ≤ vec_capacity home) }
            ensures back { places_of result.0.items ≡ places_of workers.items }
            ensures other { IfErr result.1 IsOther }
        {
            let (handles, rest) = start(scope, rt, alloc, table, queue, gate, workers, handles);
            let mut back = back;
            join_all(rt, handles, &mut back);
            put_behind(rest, &mut back);
            told(back, home)
        },
    )
}
