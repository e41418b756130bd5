//! A build from its start to its switch.
ghost use Rattle.std.specs.Prelude.{◌≡◌, ◌≢◌, ℕ, [], All, length, map, None, false, IfErr, IfOk};
ghost use Rattle.keybytes.specs.declared.fault.Fault.{Fault};
ghost use Rattle.building.specs.Lent.{CanLend};
ghost use Rattle.crew.specs.Reports.{EndsFor, HasUnique, IsReport, lists_in};
ghost use Rattle.crew.specs.Credits.{IsBounded};
ghost use Rattle.crew.specs.Places.{GoesOnWith, HasPairsLeft, StillScans, stakes_beside};

mod comes_back;
mod gate;
mod loading;
mod range_queue;
mod report;
mod scanning;
mod threads;
mod turns;
mod working;

use crate::online_build::loading::load_all;
use crate::online_build::scanning::scan_all;
use crate::online_build::turns::catch_up;
use crate::{Opened, Table};
use builder_core::{Building, Ends, INDEXES_MAX, Plan};
pub use gate::{Gate, Point};
use keybytes::Fault;
pub use report::{BuildFault, CaughtUp, Report};
use run_spool::Spool;
use std::alloc::Global;
use std::sync::Wait;
use std::thread;
use std::thread::Threads;

/// Builds the plan's indexes by a thread for each worker, while sessions write. The workers copy pages under the lock and make their pairs outside
/// of it; the pairs are then put in order. Then it catches up in turns, which take what was written meanwhile and apply it by a thread for each
/// index, until a switch can take the rest. Sessions have credit for half as many entries as it applied: so it catches up however quickly they
/// write, after at most `2 * n / 1025` turns where `n` entries waited at first, and never ends with [`Fault::Behind`]. Where busy transactions keep
/// the switch waiting it is tried again, at most `tries` times of the plan together, and no other transaction begins until the build has decided or
/// is given up.
///
/// A fault gives the build up: where it is [`Fault::Busy`], that of the last try, and of several workers' the lowest worker's. Where a thread can't be
/// started, it is [`Fault::Memory`]. The ends of the rings and the spools come back in any case, the spools ended.
///
/// `rt` is the runtime that `main` hands in. It may wait for the lock, for the threads that it starts, and for the gate.
pub fn build<S, T, G, R>(
    rt: &R,
    alloc: Global,
    table: &Table<T>,
    ends: Ends<T>,
    plan: &Plan,
    spools: Vec<S>,
    gate: &G,
) -> (Ends<T>, Vec<S>, Result<Report<T>, BuildFault>)
where
    S: Spool + Send,
    T: Opened + Send + Sync,
    G: Gate + Sync,
    R: Threads + Wait + Sync,
    ensures report { IfOk result.2 (λ report. IsReport T.opening plan.now.specs.items report.receipt report.verdicts (lists_in report.pairs)) }
    ensures bounded { IfOk result.2 (λ report. IsBounded (length plan.now.specs.items) (length report.receipt) report.caught_up) }
    ensures unasked { plan.now.keep_pairs ≡ false → IfOk result.2 (λ report. report.pairs ≡ None) }
    ensures not_empty { IfErr result.2 (λ fault. fault.0 ≡ Fault.SpoolNotEmpty
        → All (λ spool. (S.runs spool ≡ []) × (S.open_run spool ≡ [])) spools.items → ⊥) }
    ensures busy { IfErr result.2 (λ fault. (count : ℕ) → fault.0 ≡ Fault.Busy count → HasUnique plan.now.specs.items) }
    ensures never_behind { IfErr result.2 (λ fault. (left : ℕ) → fault.0 ≢ Fault.Behind left) }
    ensures ended { All S.ended result.1.items }
    ensures stakes { map S.stake result.1.items ≡ map S.stake spools.items }
{
    let building = Building::new(ends, spools);
    let (building, told) = build_beside(rt, alloc, table, plan, gate, building);
    let (ends, spools) = building.into_parts();
    match told {
        Ok(report) => (ends, spools, Ok(report)),
        Err(fault) => (ends, spools, Err(BuildFault(fault))),
    }
}

/// The same with what stands beside the table. A build that has started and ends with a fault is abandoned.
fn build_beside<S, T, G, R>(
    rt: &R,
    alloc: Global,
    table: &Table<T>,
    plan: &Plan,
    gate: &G,
    building: Building<S, T>,
) -> (Building<S, T>, Result<Report<T>, Fault>)
where
    S: Spool + Send,
    T: Opened + Send + Sync,
    G: Gate + Sync,
    R: Threads + Wait + Sync,
    ensures report { IfOk result.1 (λ report. IsReport T.opening plan.now.specs.items report.receipt report.verdicts (lists_in report.pairs)) }
    ensures bounded { IfOk result.1 (λ report. IsBounded (length plan.now.specs.items) (length report.receipt) report.caught_up) }
    ensures unasked { plan.now.keep_pairs ≡ false → IfOk result.1 (λ report. report.pairs ≡ None) }
    ensures not_empty { IfErr result.1 (λ fault. fault ≡ Fault.SpoolNotEmpty → HasPairsLeft building) }
    ensures busy { IfErr result.1 (λ fault. (count : ℕ) → fault ≡ Fault.Busy count → HasUnique plan.now.specs.items) }
    ensures never_behind { IfErr result.1 (λ fault. (left : ℕ) → fault ≢ Fault.Behind left) }
    ensures stakes { stakes_beside result.0 ≡ stakes_beside building }
{
    let mut building = building;
    let started = table.lock().lock(rt).start(plan, &mut building);
    if let Err(fault) = started {
        return (building, Err(fault));
    }
    let (building, told) = build_started(rt, alloc, table, plan, gate, building);
    if told.is_err() {
        give_up(rt, alloc, table);
    }
    (building, told)
}

/// Gives the build up. What its side-files have left is dropped once the lock is given up, where there is memory to take it along.
fn give_up<T: Opened, R: Wait>(rt: &R, alloc: Global, table: &Table<T>) {
    let mut waste = match Vec::with_capacity(alloc, INDEXES_MAX) {
        Ok(waste) => waste,
        Err(_) => Vec::new(alloc),
    };
    let mut held = table.lock().lock(rt);
    held.abandon(&mut waste);
    table.release(held);
}

/// A build that has started: its workers are lent to threads, and come back for the rest.
fn build_started<S, T, G, R>(
    rt: &R,
    alloc: Global,
    table: &Table<T>,
    plan: &Plan,
    gate: &G,
    building: Building<S, T>,
) -> (Building<S, T>, Result<Report<T>, Fault>)
where
    S: Spool + Send,
    T: Opened + Send + Sync,
    G: Gate + Sync,
    R: Threads + Wait + Sync,
    requires lendable { CanLend building }
    requires goes_on { GoesOnWith 0 plan.now.specs.items building }
    ensures report { IfOk result.1 (λ report. IsReport T.opening plan.now.specs.items report.receipt report.verdicts (lists_in report.pairs)) }
    ensures bounded { IfOk result.1 (λ report. IsBounded (length plan.now.specs.items) (length report.receipt) report.caught_up) }
    ensures unasked { plan.now.keep_pairs ≡ false → IfOk result.1 (λ report. report.pairs ≡ None) }
    ensures ends { IfErr result.1 (EndsFor plan.now.specs.items) }
    ensures stakes { stakes_beside result.0 ≡ stakes_beside building }
{
    let (workers, rest) = building.lend();
    let (workers, scanned) = scan_all(rt, alloc, table, plan, gate, workers);
    let building = rest.gather(workers);
    if let Err(fault) = scanned {
        return (building, Err(fault));
    }
    finish(rt, alloc, table, plan, gate, building)
}

/// The rest of a build whose pages were scanned: the loads of its indexes are lent to threads, and come back for the turns.
fn finish<S, T, G, R>(
    rt: &R,
    alloc: Global,
    table: &Table<T>,
    plan: &Plan,
    gate: &G,
    building: Building<S, T>,
) -> (Building<S, T>, Result<Report<T>, Fault>)
where
    S: Spool + Send,
    T: Opened + Send + Sync,
    G: Gate,
    R: Threads + Wait + Sync,
    requires goes_on { GoesOnWith 0 plan.now.specs.items building }
    requires scans { StillScans building }
    ensures report { IfOk result.1 (λ report. IsReport T.opening plan.now.specs.items report.receipt report.verdicts (lists_in report.pairs)) }
    ensures bounded { IfOk result.1 (λ report. IsBounded (length plan.now.specs.items) (length report.receipt) report.caught_up) }
    ensures unasked { plan.now.keep_pairs ≡ false → IfOk result.1 (λ report. report.pairs ≡ None) }
    ensures ends { IfErr result.1 (EndsFor plan.now.specs.items) }
    ensures stakes { stakes_beside result.0 ≡ stakes_beside building }
{
    let mut building = building;
    let ended = table.lock().lock(rt).end_scan(&mut building);
    if let Err(fault) = ended {
        return (building, Err(fault));
    }
    let (mut building, loaded) = load_all(rt, alloc, table, plan, gate, building);
    if let Err(fault) = loaded {
        return (building, Err(fault));
    }
    let told = take_turns(rt, alloc, table, plan, gate, &mut building);
    (building, told)
}

/// Tries the switch until it decides, or the last try has to wait as well. Other threads run in between.
fn take_turns<S, T, G, R>(
    rt: &R,
    alloc: Global,
    table: &Table<T>,
    plan: &Plan,
    gate: &G,
    building: &mut Building<S, T>,
) -> Result<Report<T>, Fault>
where
    S: Spool,
    T: Opened + Send + Sync,
    G: Gate,
    R: Threads + Wait + Sync,
    requires { GoesOnWith (length plan.now.specs.items) plan.now.specs.items building.old }
    ensures report { IfOk result (λ report. IsReport T.opening plan.now.specs.items report.receipt report.verdicts (lists_in report.pairs)) }
    ensures bounded { IfOk result (λ report. IsBounded (length plan.now.specs.items) (length report.receipt) report.caught_up) }
    ensures unasked { plan.now.keep_pairs ≡ false → IfOk result (λ report. report.pairs ≡ None) }
    ensures ends { IfErr result (EndsFor plan.now.specs.items) }
    ensures stakes { stakes_beside building.new ≡ stakes_beside building.old }
{
    for n in 1..plan.tries {
        match try_switch(rt, alloc, table, plan, gate, building, n) {
            Err(Fault::Busy(_)) => thread::yield_now(),
            told => return told,
        }
    }
    try_switch(rt, alloc, table, plan, gate, building, plan.tries.max(1))
}

/// One try: sessions need no credit while the gate is asked; then the build catches up, and the switch is tried.
fn try_switch<S, T, G, R>(
    rt: &R,
    alloc: Global,
    table: &Table<T>,
    plan: &Plan,
    gate: &G,
    building: &mut Building<S, T>,
    n: u32,
) -> Result<Report<T>, Fault>
where
    S: Spool,
    T: Opened + Send + Sync,
    G: Gate,
    R: Threads + Wait + Sync,
    requires { GoesOnWith (length plan.now.specs.items) plan.now.specs.items building.old }
    ensures report { IfOk result (λ report. IsReport T.opening plan.now.specs.items report.receipt report.verdicts (lists_in report.pairs)) }
    ensures bounded { IfOk result (λ report. IsBounded (length plan.now.specs.items) (length report.receipt) report.caught_up) }
    ensures unasked { plan.now.keep_pairs ≡ false → IfOk result (λ report. report.pairs ≡ None) }
    ensures goes_on { IfErr result (λ fault. (count : ℕ) → fault ≡ Fault.Busy count
        → GoesOnWith (length plan.now.specs.items) plan.now.specs.items building.new) }
    ensures ends { IfErr result (EndsFor plan.now.specs.items) }
    ensures stakes { stakes_beside building.new ≡ stakes_beside building.old }
{
    let mut held = table.lock().lock(rt);
    held.note_try(n);
    table.release(held);
    gate.at(Point::Try { n });
    table.forget_applied();
    let credit = table.lock().lock(rt).give_credit();
    catch_up(rt, alloc, table, plan, building, credit)
}
