//! Both ends of the rings that copies of pages go through, side by side.
ghost use Rattle.std.specs.Prelude.{◌≡◌, ◌++◌, ◌<◌, ◌≤◌, ◌+◌, List, map, length, slice_get, All, true, false, None, Some, IfSome, MatchOption, ℕ, vec_capacity};
ghost use Rattle.side_file.specs.Ends.{PutEnd};
ghost use Rattle.page_workers.specs.IntakeValue.{IntakeValue};
ghost use Rattle.page_workers.specs.WorkerValue.{WorkerValue};
ghost use Rattle.page_workers.specs.declared.copied.Copied.{Copied};
ghost use Rattle.building.specs.BuildingValue.{intakes};
ghost use Rattle.building.specs.Keeping.{HasItsRing, KeepsLaws};
ghost use Rattle.building.specs.Rings.{put_rings, take_rings, all_sent, all_free, begun_on, AreLooked, AreSealed, FirstAreSealed, HasSeenAll, IsUnsealed, IsSealed};

use page_workers::{Intake, PagePutter, TableRings, Worker};
use run_spool::Spool;

/// Empties every ring, and lets its intake begin a build.
pub(crate) fn restart_all(pages: &mut Vec<PagePutter>, intakes: &mut Vec<Intake>, build: u64)
    requires { put_rings pages.old.items ≡ take_rings intakes.old.items }
    ensures rings { put_rings pages.new.items ≡ put_rings pages.old.items }
    ensures sent { all_sent pages.new.items ≡ all_sent pages.old.items }
    ensures free { pages.new.items ≡ map all_free pages.old.items }
    ensures intakes { intakes.new.items ≡ map (begun_on build) pages.new.items }
    ensures room { vec_capacity intakes.new ≡ vec_capacity intakes.old }
{
    for k in 0..pages.len() {
        intakes[k].restart(&mut pages[k], build);
    }
}

/// How many copies wait for a worker. Both ends of its ring then know all that there is to know of it.
pub(crate) fn waiting<S: Spool, T: TableRings>(
    pages: &mut Vec<PagePutter>,
    workers: &mut Vec<Worker<S>>,
    worker: usize,
) -> usize
    requires rings { put_rings pages.old.items ≡ T.pages }
    requires there { worker < length workers.old.items }
    requires few { length workers.old.items ≤ length pages.old.items }
    requires at { (k : ℕ) (w : WorkerValue) → slice_get workers.old.items k ≡ Some w → slice_get T.pages k ≡ Some w.intake.end.ring }
    ensures looked { AreLooked pages.old.items workers.old.items pages.new.items workers.new.items }
    ensures seen { IfSome (slice_get workers.new.items worker) (λ w. result ≡ length w.intake.end.known) }
    ensures in_order { (end : PutEnd Copied) (w : WorkerValue) → slice_get pages.new.items worker ≡ Some end → slice_get workers.new.items worker ≡ Some w
        → w.intake.end.received ++ w.intake.end.known ≡ end.sent }
    ensures free { (end : PutEnd Copied) → slice_get pages.new.items worker ≡ Some end → 4 ≤ end.free + result }
{
    workers[worker].waiting(&mut pages[worker])
}

/// Whether a worker has a copy in its ring, or a run open.
fn is_unsealed<S: Spool, T: TableRings>(
    pages: &mut Vec<PagePutter>,
    workers: &mut Vec<Worker<S>>,
    worker: usize,
) -> bool
    requires rings { put_rings pages.old.items ≡ T.pages }
    requires there { worker < length workers.old.items }
    requires few { length workers.old.items ≤ length pages.old.items }
    requires at { (k : ℕ) (w : WorkerValue) → slice_get workers.old.items k ≡ Some w → slice_get T.pages k ≡ Some w.intake.end.ring }
    ensures looked { AreLooked pages.old.items workers.old.items pages.new.items workers.new.items }
    ensures unsealed { result ≡ true → IsUnsealed worker (all_sent pages.new.items) workers.new.items }
    ensures seen { HasSeenAll worker (all_sent pages.new.items) workers.new.items }
    ensures sealed { result ≡ false → (sent : List Copied) (w : WorkerValue) → slice_get (all_sent pages.new.items) worker ≡ Some sent
        → slice_get workers.new.items worker ≡ Some w → IsSealed sent w }
{
    waiting::<S, T>(pages, workers, worker) > 0 || workers[worker].has_open_run()
}

/// The lowest worker that has a copy in its ring, or a run open.
pub(crate) fn first_unsealed<S: Spool, T: TableRings>(
    pages: &mut Vec<PagePutter>,
    workers: &mut Vec<Worker<S>>,
) -> Option<usize>
    requires rings { put_rings pages.old.items ≡ T.pages }
    requires few { length workers.old.items ≤ length pages.old.items }
    requires at { (k : ℕ) (w : WorkerValue) → slice_get workers.old.items k ≡ Some w → slice_get T.pages k ≡ Some w.intake.end.ring }
    ensures looked { AreLooked pages.old.items workers.old.items pages.new.items workers.new.items }
    ensures unsealed { MatchOption result
        (AreSealed (all_sent pages.new.items) workers.new.items)
        (λ k. (k < length workers.new.items) × FirstAreSealed k (all_sent pages.new.items) workers.new.items
        × IsUnsealed k (all_sent pages.new.items) workers.new.items) }
    ensures seen { IfSome result (λ k. HasSeenAll k (all_sent pages.new.items) workers.new.items) }
{
    for worker in 0..workers.len() {
        if is_unsealed::<S, T>(pages, workers, worker) {
            return Some(worker);
        }
    }
    None
}

/// Does nothing: its clause tells what each worker of the table keeps.
pub(crate) fn laws_of<S: Spool, T: TableRings>(workers: &[Worker<S>])
    requires { All (HasItsRing T.pages) workers.now }
    ensures { All (KeepsLaws T.pages) workers.now }
{
    for worker in workers {
        worker.laws();
    }
}
