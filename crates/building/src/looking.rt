//! What stands beside a table, with the other ends of its rings at hand: both ends of a ring then know all that there is to know of it.
ghost use Rattle.std.specs.Prelude.{◌≡◌, ◌++◌, ◌<◌, ◌≤◌, ◌+◌, [], map, length, slice_get, All, false, None, Some, IfSome, MatchOption};
ghost use Rattle.std.specs.List.{AllZip};
ghost use Rattle.side_file.specs.Changes.{Looks};
ghost use Rattle.side_file.specs.Ends.{PutEnd};
ghost use Rattle.side_file.specs.Ends.{PutEndLooked};
ghost use Rattle.page_workers.specs.WorkerValue.{WorkerValue};
ghost use Rattle.page_workers.specs.declared.copied.Copied.{Copied};
ghost use Rattle.table_scan.specs.SideFiles.{drained_end, put_ends, side_rings};
ghost use Rattle.building.specs.BuildingValue.{intakes};
ghost use Rattle.building.specs.Keeping.{KeepsLaws, KeepsWork};
ghost use Rattle.building.specs.Rings.{put_rings, all_sent, all_free, begun_on, AreLooked, AreSealed, AreTakeEnds, FirstAreSealed, HasSeenAll, IsUnsealed};
ghost use Rattle.building.specs.Working.{SideIsSeen};

use crate::beside::Building;
use crate::rings::{first_unsealed, laws_of, restart_all, waiting};
use page_workers::{PagePutter, TableRings};
use run_spool::Spool;
use side_file::SideFile;
use table_scan::empty_all;

impl<S: Spool, T: TableRings> Building<S, T> {
    /// Does nothing: its clauses tell what holds between two calls.
    pub fn laws(&self)
        ensures ends { AreTakeEnds T.pages T.sides (intakes self.now.workers self.now.idle) self.now.sides }
        ensures workers { self.now.work ≡ None → self.now.workers ≡ [] }
        ensures given { self.now.given ≡ false → self.now.work ≡ None }
        ensures kept { KeepsWork self.now.workers self.now.sides self.now.spools self.now.work }
        ensures each { All (KeepsLaws T.pages) self.now.workers }
    {
        let _kept = &self.given;
        laws_of::<S, T>(&self.workers);
    }

    /// How many copies wait for a worker of the build that runs. Takes no memory.
    pub fn waiting(&mut self, pages: &mut Vec<PagePutter>, worker: usize) -> usize
        requires rings { put_rings pages.old.items ≡ T.pages }
        requires there { worker < length self.old.workers }
        ensures looked { AreLooked pages.old.items self.old.workers pages.new.items self.new.workers }
        ensures others { self.new ≡ record self.old { workers = self.new.workers } }
        ensures few { length self.new.workers ≤ 16 }
        ensures seen { IfSome (slice_get self.new.workers worker) (λ w. result ≡ length w.intake.end.known) }
        ensures in_order { (end : PutEnd Copied) (w : WorkerValue) → slice_get pages.new.items worker ≡ Some end → slice_get self.new.workers worker ≡ Some w
            → w.intake.end.received ++ w.intake.end.known ≡ end.sent }
        ensures free { (end : PutEnd Copied) → slice_get pages.new.items worker ≡ Some end → 4 ≤ end.free + result }
    {
        // That there are few workers is known once their fields are reached.
        let _idle = &self.idle;
        waiting::<S, T>(pages, &mut self.workers, worker)
    }

    /// The lowest worker of the build that runs that has a copy in its ring, or a run open. It has then seen all that it hasn't taken. Takes no memory.
    pub fn first_unsealed(&mut self, pages: &mut Vec<PagePutter>) -> Option<usize>
        requires { put_rings pages.old.items ≡ T.pages }
        ensures looked { AreLooked pages.old.items self.old.workers pages.new.items self.new.workers }
        ensures others { self.new ≡ record self.old { workers = self.new.workers } }
        ensures unsealed { MatchOption result
            (AreSealed (all_sent pages.new.items) self.new.workers)
            (λ k. (k < length self.new.workers) × FirstAreSealed k (all_sent pages.new.items) self.new.workers
            × IsUnsealed k (all_sent pages.new.items) self.new.workers) }
        ensures seen { IfSome result (λ k. HasSeenAll k (all_sent pages.new.items) self.new.workers) }
        ensures laws { All (KeepsLaws T.pages) self.new.workers }
    {
        // That there are few workers is known once their fields are reached.
        let _idle = &self.idle;
        let unsealed = first_unsealed::<S, T>(pages, &mut self.workers);
        laws_of::<S, T>(&self.workers);
        unsealed
    }

    /// How many entries of an index's side-file wait in its ring. Takes no memory.
    pub fn look_at_side(&mut self, index: usize, side: &mut SideFile) -> usize
        requires there { index < 8 }
        requires ring { slice_get T.sides index ≡ Some side.old.end.ring }
        ensures looks { Looks side.old side.new }
        ensures sees { SideIsSeen index result side.old.end side.new.end self.old self.new }
    {
        let count = side.beside(&mut self.side_ends[index]);
        side.laws();
        count
    }

    /// Empties every ring and every side-file for a build, which the intakes of the page rings begin. Takes no memory.
    pub fn empty_rings(
        &mut self,
        pages: &mut Vec<PagePutter>,
        sides: &mut Vec<SideFile>,
        build: u64,
    )
        requires idle { self.old.work ≡ None }
        requires pages { put_rings pages.old.items ≡ T.pages }
        requires sides { side_rings (put_ends sides.old.items) ≡ T.sides }
        ensures rest { self.new ≡ record self.old { idle = self.new.idle; sides = self.new.sides } }
        ensures intakes { self.new.idle ≡ map (begun_on build) pages.new.items }
        ensures drained { self.new.sides ≡ map drained_end (put_ends sides.new.items) }
        ensures page_rings { put_rings pages.new.items ≡ put_rings pages.old.items }
        ensures sent { all_sent pages.new.items ≡ all_sent pages.old.items }
        ensures free { pages.new.items ≡ map all_free pages.old.items }
        ensures left { All (λ side. (side.left ≡ []) × (side.fed ≡ [])) sides.new.items }
        ensures side_rings { side_rings (put_ends sides.new.items) ≡ side_rings (put_ends sides.old.items) }
        ensures looked { AllZip PutEndLooked (put_ends sides.old.items) (put_ends sides.new.items) }
    {
        restart_all(pages, &mut self.idle, build);
        empty_all(sides, &mut self.side_ends);
    }
}
