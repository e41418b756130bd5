//! What a worker does in its thread.
ghost use Rattle.std.specs.Prelude.{◌≡◌, ◌⊎◌, None, Some, true, false, IfErr, IfOk, IfSome, OnOk};
ghost use Rattle.run_spool.specs.Spools.{IsFullIntact};
ghost use Rattle.page_workers.specs.declared.turn.Turn.{Turn};
ghost use Rattle.crew.specs.Reports.{IsOther};
ghost use Rattle.crew.specs.Places.{place_of};
ghost use Rattle.crew.specs.Working.{IsSealed, LooksAndDoes, LooksAndStops};

use crate::online_build::range_queue::RangeQueue;
use crate::{Gate, Opened, Point, Table};
use builder_core::Worker;
use heap_table::PageImage;
use keybytes::Fault;
use run_maker::RunSort;
use run_spool::Spool;
use std::alloc::Global;
use std::sync::Wait;

/// Copies a page of the range for the worker, in one hold of the lock, and makes pairs outside of it: of a copy that the worker has. Says whether the
/// range had one; where it has none left, the worker does nothing.
fn scan_page<S: Spool, T: Opened, G: Gate, Q: RunSort, R: Wait>(
    rt: &R,
    alloc: Global,
    table: &Table<T>,
    gate: &G,
    worker: &mut Worker<S>,
    range: usize,
    sort: &mut Q,
) -> Result<bool, Fault>
    ensures digested { IfOk result (λ had. had ≡ true → LooksAndDoes Turn.Digest worker.old worker.new) }
    ensures none { IfOk result (λ had. had ≡ false → worker.new ≡ worker.old) }
    ensures stopped { IfErr result (λ fault. (worker.new ≡ worker.old)
        ⊎ LooksAndStops (IsFullIntact S.is_full S.is_intact S.runs) S.runs S.open_run S.stake Turn.Digest worker.old fault worker.new) }
    ensures same { place_of worker.new ≡ place_of worker.old }
    ensures other { IfErr result IsOther }
{
    let image = PageImage::new(alloc)?;
    let number = worker.number();
    let scanned = table.lock().lock(rt).scan_step(range, number, image);
    match scanned {
        Ok(page) => gate.at(Point::Scanned {
            worker: number,
            page,
        }),
        Err((_, Fault::RingFull)) => {}
        Err((_, Fault::RangeDone | Fault::BadCount)) => return Ok(false),
        Err((_, fault)) => return Err(fault),
    }
    digest(worker, sort)?;
    Ok(true)
}

/// Makes the pairs of the next copy that the worker has.
fn digest<S: Spool, Q: RunSort>(worker: &mut Worker<S>, sort: &mut Q) -> Result<(), Fault>
    ensures digested { OnOk result (LooksAndDoes Turn.Digest worker.old worker.new) }
    ensures stopped { IfErr result (λ fault.
        LooksAndStops (IsFullIntact S.is_full S.is_intact S.runs) S.runs S.open_run S.stake Turn.Digest worker.old fault worker.new) }
    ensures same { place_of worker.new ≡ place_of worker.old }
    ensures other { IfErr result IsOther }
{
    worker.look();
    worker.digest_with(sort)?;
    Ok(())
}

/// Makes the pairs of all copies that the worker has, and closes its runs.
pub(crate) fn seal<S: Spool, Q: RunSort>(worker: &mut Worker<S>, sort: &mut Q) -> Result<(), Fault>
    ensures sealed { OnOk result (LooksAndDoes Turn.Seal worker.old worker.new) }
    ensures stopped { IfErr result (λ fault.
        LooksAndStops (IsFullIntact S.is_full S.is_intact S.runs) S.runs S.open_run S.stake Turn.Seal worker.old fault worker.new) }
    ensures same { place_of worker.new ≡ place_of worker.old }
    ensures fine { OnOk result (worker.new.fault ≡ None) }
    ensures other { IfErr result IsOther }
{
    worker.look();
    worker.seal_with(sort)?;
    Ok(())
}

/// Scans a range to its end. A number that is no range has none left.
pub(crate) fn scan_range<S: Spool, T: Opened, G: Gate, Q: RunSort, R: Wait>(
    rt: &R,
    alloc: Global,
    table: &Table<T>,
    gate: &G,
    worker: &mut Worker<S>,
    range: usize,
    sort: &mut Q,
) -> Result<(), Fault>
    ensures same { place_of worker.new ≡ place_of worker.old }
    ensures other { IfErr result IsOther }
{
    for _ in rt.forever() {
        if !scan_page(rt, alloc, table, gate, worker, range, sort)? {
            return Ok(());
        }
    }
    unreachable!()
}

/// Takes ranges from the queue until it gets none, and closes the worker's runs then. What the queue hands out need not be a range.
pub(crate) fn work<S: Spool, T: Opened, G: Gate, Q: RunSort, R: Wait>(
    rt: &R,
    alloc: Global,
    table: &Table<T>,
    queue: &RangeQueue,
    gate: &G,
    worker: &mut Worker<S>,
    sort: &mut Q,
) -> Result<(), Fault>
    ensures sealed { OnOk result (IsSealed worker.new) }
    ensures same { place_of worker.new ≡ place_of worker.old }
    ensures other { IfErr result IsOther }
{
    for _ in rt.forever() {
        let Some(range) = queue.next(rt) else {
            seal(worker, sort)?;
            gate.at(Point::Sealed {
                worker: worker.number(),
            });
            return Ok(());
        };
        scan_range(rt, alloc, table, gate, worker, range, sort)?;
    }
    unreachable!()
}
