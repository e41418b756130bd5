//! The scans of a build.
ghost use Rattle.std.specs.Prelude.{◌≡◌, All, None, IfErr, OnOk};
ghost use Rattle.crew.specs.Reports.{IsOther};
ghost use Rattle.crew.specs.Places.{places_of};
ghost use Rattle.crew.specs.Working.{IsSealed};

use crate::online_build::range_queue::RangeQueue;
use crate::online_build::threads::run_all;
use crate::online_build::working::{scan_range, seal};
use crate::{Gate, Opened, Table};
use builder_core::{Dealing, Plan, Worker};
use keybytes::Fault;
use run_maker::StdSort;
use run_spool::Spool;
use std::alloc::Global;
use std::sync::Wait;
use std::thread::Threads;

/// How many ranges a plan deals the pages into.
fn ranges_of(plan: &Plan) -> usize {
    match &plan.dealing {
        Dealing::Ends(ends) => ends.len(),
        Dealing::Even(ranges) => *ranges,
    }
}

/// Copies all pages and makes their pairs: by a thread for each worker, and what these leave by the first worker. All runs are closed then.
pub(crate) fn scan_all<S, T, G, R>(
    rt: &R,
    alloc: Global,
    table: &Table<T>,
    plan: &Plan,
    gate: &G,
    workers: Vec<Worker<S>>,
) -> (Vec<Worker<S>>, Result<(), Fault>)
where
    S: Spool + Send,
    T: Opened + Send + Sync,
    G: Gate + Sync,
    R: Threads + Wait + Sync,
    ensures back { places_of result.0.items ≡ places_of workers.items }
    ensures fine { OnOk result.1 (All (λ worker. worker.fault ≡ None) result.0.items) }
    ensures sealed { OnOk result.1 (All IsSealed result.0.items) }
    ensures other { IfErr result.1 IsOther }
{
    match RangeQueue::new(rt, alloc, ranges_of(plan), gate) {
        Ok(queue) => scan_dealt(rt, alloc, table, plan, &queue, gate, workers),
        Err(fault) => (workers, Err(fault)),
    }
}

/// The same with a queue of ranges. Nothing rests on what it hands out.
pub(crate) fn scan_dealt<S, T, G, R>(
    rt: &R,
    alloc: Global,
    table: &Table<T>,
    plan: &Plan,
    queue: &RangeQueue,
    gate: &G,
    workers: Vec<Worker<S>>,
) -> (Vec<Worker<S>>, Result<(), Fault>)
where
    S: Spool + Send,
    T: Opened + Send + Sync,
    G: Gate + Sync,
    R: Threads + Wait + Sync,
    ensures back { places_of result.0.items ≡ places_of workers.items }
    ensures fine { OnOk result.1 (All (λ worker. worker.fault ≡ None) result.0.items) }
    ensures sealed { OnOk result.1 (All IsSealed result.0.items) }
    ensures other { IfErr result.1 IsOther }
{
    let (mut workers, scanned) = run_all(rt, alloc, table, queue, gate, workers);
    if let Err(fault) = scanned {
        return (workers, Err(fault));
    }
    let finished = finish_scan(rt, alloc, table, ranges_of(plan), gate, &mut workers);
    (workers, finished)
}

/// Scans all pages that are left by the first worker, and closes the runs of all.
fn finish_scan<S: Spool, T: Opened, G: Gate, R: Wait>(
    rt: &R,
    alloc: Global,
    table: &Table<T>,
    ranges: usize,
    gate: &G,
    workers: &mut Vec<Worker<S>>,
) -> Result<(), Fault>
    ensures back { places_of workers.new.items ≡ places_of workers.old.items }
    ensures fine { OnOk result (All (λ worker. worker.fault ≡ None) workers.new.items) }
    ensures sealed { OnOk result (All IsSealed workers.new.items) }
    ensures other { IfErr result IsOther }
{
    scan_rest(rt, alloc, table, ranges, gate, workers)?;
    seal_all(workers)
}

/// Scans all pages that are left by the first worker.
fn scan_rest<S: Spool, T: Opened, G: Gate, R: Wait>(
    rt: &R,
    alloc: Global,
    table: &Table<T>,
    ranges: usize,
    gate: &G,
    workers: &mut Vec<Worker<S>>,
) -> Result<(), Fault>
    ensures back { places_of workers.new.items ≡ places_of workers.old.items }
    ensures other { IfErr result IsOther }
{
    if workers.is_empty() {
        return Ok(());
    }
    for range in 0..ranges {
        scan_range(rt, alloc, table, gate, &mut workers[0], range, &mut StdSort)?;
    }
    Ok(())
}

/// Closes the runs of all workers.
fn seal_all<S: Spool>(workers: &mut Vec<Worker<S>>) -> Result<(), Fault>
    ensures back { places_of workers.new.items ≡ places_of workers.old.items }
    ensures fine { OnOk result (All (λ worker. worker.fault ≡ None) workers.new.items) }
    ensures sealed { OnOk result (All IsSealed workers.new.items) }
    ensures other { IfErr result IsOther }
{
    for number in 0..workers.len() {
        seal(&mut workers[number], &mut StdSort)?;
    }
    Ok(())
}
