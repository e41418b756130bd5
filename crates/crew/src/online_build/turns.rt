//! The turns of a build that catches up with those who write.
ghost use Rattle.std.specs.Prelude.{◌≡◌, ℕ, ◌+◌, ◌≤◌, ◌^◌, ◌<◌, All, length, None, false, IfOk, IfErr, IfSome};
ghost use Rattle.live_lemmas.specs.Settling.{HasRoomForBatch};
ghost use Rattle.crew.specs.Credits.{IsBounded, TakesMore, caught_up_by};
ghost use Rattle.crew.specs.Places.{GoesOnWith, stakes_beside};
ghost use Rattle.crew.specs.Reports.{EndsFor, IsReport, lists_in};

use crate::locked::Credit;
use crate::{Opened, Report, Table};
use builder_core::{Building, Plan};
use catch_up::Pace;
use chunk_list::ChunkQueue;
use keybytes::Fault;
use run_spool::Spool;
use side_file::Entry;
use std::alloc::Global;
use std::sync::Wait;
use std::thread::Threads;

/// The most entries that a switch takes, over all indexes.
const SWITCH_MOST: usize = 1_024;

/// The most entries that one turn takes of each index. They are applied the more quickly the more they are, but while they are sorted sessions get no credit.
const TURN_MOST: usize = 32_768;

/// How much room a queue for a batch has beyond its entries: two chunks.
const BATCH_SPARE: usize = 2_048;

/// A build that applies a batch while sessions wait: they have credit for each portion once it is applied.
#[derive(Drop)]
struct Applying<'e, T: Opened> {
    table: &'e Table<T>,
}

impl<'e, T: Opened> Pace for Applying<'e, T> {
    fn applied(&self, count: usize) {
        self.table.note_applied(count);
    }
}

/// Takes and applies what was written meanwhile, until a switch takes what is left, and tries it in the same hold. While more than 1,024 entries
/// wait, less than twice as many were taken as waited at first, and each turn takes 1,025 at least: so it ends, however quickly sessions write.
pub(crate) fn catch_up<S, T, R>(
    rt: &R,
    alloc: Global,
    table: &Table<T>,
    plan: &Plan,
    building: &mut Building<S, T>,
    credit: Credit,
) -> Result<Report<T>, Fault>
where
    S: Spool,
    T: Opened + Send + Sync,
    R: Threads + Wait + Sync,
    requires { GoesOnWith (length plan.now.specs.items) plan.now.specs.items building.old }
    ensures report { IfOk result (λ report. IsReport T.opening plan.now.specs.items report.receipt report.verdicts (lists_in report.pairs)) }
    ensures bounded { IfOk result (λ report. IsBounded (length plan.now.specs.items) (length report.receipt) report.caught_up) }
    ensures unasked { plan.now.keep_pairs ≡ false → IfOk result (λ report. report.pairs ≡ None) }
    ensures waited { IfOk result (λ report. report.caught_up.waited ≡ credit.first) }
    ensures goes_on { IfErr result (λ fault. (count : ℕ) → fault ≡ Fault.Busy count
        → GoesOnWith (length plan.now.specs.items) plan.now.specs.items building.new) }
    ensures ends { IfErr result (EndsFor plan.now.specs.items) }
    ensures stakes { stakes_beside building.new ≡ stakes_beside building.old }
{
    let mut known = credit;
    loop {
        if let Some(report) = take_turn(rt, alloc, table, plan, building, &mut known)? {
            return Ok(report);
        }
    }
}

/// One turn of the build that knows the credit so: where few entries wait it tries the switch; else it takes a batch of each index, and applies them
/// outside of the lock.
fn take_turn<S, T, R>(
    rt: &R,
    alloc: Global,
    table: &Table<T>,
    plan: &Plan,
    building: &mut Building<S, T>,
    known: &mut Credit,
) -> Result<Option<Report<T>>, Fault>
where
    S: Spool,
    T: Opened + Send + Sync,
    R: Threads + Wait + Sync,
    requires { GoesOnWith (length plan.now.specs.items) plan.now.specs.items building.old }
    ensures report { IfOk result (λ told. IfSome told (λ report.
        IsReport T.opening plan.now.specs.items report.receipt report.verdicts (lists_in report.pairs))) }
    ensures bounded { IfOk result (λ told. IfSome told (λ report. IsBounded (length plan.now.specs.items) (length report.receipt) report.caught_up)) }
    ensures unasked { plan.now.keep_pairs ≡ false → IfOk result (λ told. IfSome told (λ report. report.pairs ≡ None)) }
    ensures told { IfOk result (λ told. IfSome told (λ report. report.caught_up ≡ caught_up_by known.old)) }
    ensures goes_on { IfErr result (λ fault. (count : ℕ) → fault ≡ Fault.Busy count
        → GoesOnWith (length plan.now.specs.items) plan.now.specs.items building.new) }
    ensures further { IfOk result (λ told. told ≡ None
        → GoesOnWith (length plan.now.specs.items) plan.now.specs.items building.new × TakesMore known.old known.new) }
    ensures ends { IfErr result (EndsFor plan.now.specs.items) }
    ensures stakes { stakes_beside building.new ≡ stakes_beside building.old }
{
    let batches = room_for_batches(alloc, plan.specs.len())?;
    let mut held = table.lock().lock(rt);
    if held.begin_turn(*known, building)? <= SWITCH_MOST {
        let told = held.switch(alloc, plan.keep_pairs, building);
        table.release(held);
        return Ok(Some(told?));
    }
    *known = held.feed_all(TURN_MOST, batches, building);
    table.release(held);
    building.apply_batches(rt, alloc, &Applying { table })?;
    Ok(None)
}

/// A queue for each index, into which a turn's batch can be moved while the lock is held.
fn room_for_batches(alloc: Global, indexes: usize) -> Result<Vec<ChunkQueue<Entry>>, Fault>
    ensures many { IfOk result (λ batches. length batches.items ≡ indexes) }
    ensures room { IfOk result (λ batches. All (HasRoomForBatch 32768) batches.items) }
    ensures memory { IfErr result (λ fault. fault ≡ Fault.Memory) }
{
    let mut batches = Vec::with_capacity(alloc, indexes)?;
    for _ in 0..indexes {
        let mut batch = ChunkQueue::new(alloc);
        batch.reserve(TURN_MOST + BATCH_SPARE)?;
        batches.push_reserved(batch);
    }
    Ok(batches)
}
