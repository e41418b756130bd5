//! Workers that are lent, to threads.
ghost use Rattle.std.specs.Prelude.{◌≡◌, ◌-◌, ◌*◌, ◌≤◌, [], All, length, map, Some, IfSome, vec_capacity};
ghost use Rattle.page_workers.specs.SpoolValue.{spool_value, stakes_of};
ghost use Rattle.building.specs.BuildingValue.{intakes};
ghost use Rattle.building.specs.Equipped.{HasRoomFor};
ghost use Rattle.building.specs.Holding.{workers_spools};
ghost use Rattle.building.specs.Lent.{AreBack, AreNoMore, CanLend, lowest_fault, StaysWithout};

use crate::beside::Building;
use crate::returning::take_back;
use crate::rings::laws_of;
use crate::work::Work;
use keybytes::Fault;
use page_workers::{Intake, TableRings, Worker};
use run_spool::Spool;
use side_file::EntryEnd;
use std::marker::{Model, PhantomData};

/// A [`Building`] whose workers are lent.
///
/// It is no `Drop`, so nobody lets it go unless he forgets it, with the ends of rings that it has. Where all workers are back at their places,
/// each with its ring and its spools, also those that were stopped, [`WithoutWorkers::gather`] makes a [`Building`] of it again. Where a thread let its
/// worker go, or called [`Worker::hand_over`] or [`Worker::into_parts`], the build can only be given up: [`WithoutWorkers::give_up`] ends
/// the spools that came back. Lost are then the ends of the rings that did not come back, and spools that their thread didn't hand out.
pub struct WithoutWorkers<S: Spool, T: TableRings> {
    idle: Vec<Intake>,
    side_ends: Vec<EntryEnd>,
    /// Room for the spools of the workers, and none of them.
    spools: Vec<S>,
    work: Work,
    of: PhantomData<T>,
}

impl<S: Spool, T: TableRings> Model for WithoutWorkers<S, T> {
    ghost use Rattle.building.specs.BuildingValue.{BuildingValue};

    ghost Value = { BuildingValue };

    ghost use Rattle.std.specs.Prelude.{◌≡◌, ◌-◌, ◌*◌, ◌≤◌, [], length, map, true, Some, vec_capacity};
    ghost use Rattle.page_workers.specs.SpoolValue.{spool_value};
    ghost use Rattle.building.specs.Lent.{StaysWithout};

    ghost view = { λ rest. record {
      workers = [];
      idle = rest.idle.items;
      sides = rest.side_ends.items;
      spools = map (spool_value S.runs S.open_run S.stake) rest.spools.items;
      given = true;
      work = Some rest.work;
    } };

    ghost invariant = { λ rest. StaysWithout T.pages T.sides rest.idle.items rest.side_ends.items rest.work
        × (rest.spools.items ≡ [])
        × (16 ≤ vec_capacity rest.idle)
        × ((16 - length rest.idle.items) * length rest.work.specs ≤ vec_capacity rest.spools) };
}

impl<S: Spool, T: TableRings> Building<S, T> {
    /// Lends the workers of the build, each to a thread of its own: there a worker takes what it sees in its ring, and closes its runs, without
    /// any lock. [`WithoutWorkers::gather`] takes them back. Takes no memory.
    pub fn lend(self) -> (Vec<Worker<S>>, WithoutWorkers<S, T>)
        requires { CanLend self }
        ensures workers { result.0.items ≡ self.workers }
        ensures rest { result.1 ≡ record self { workers = [] } }
        ensures back { AreBack T.pages result.1 result.0.items }
    {
        let Building {
            workers,
            idle,
            side_ends,
            spools,
            given: _,
            work,
            of,
        } = self;
        let Some(work) = work else { unreachable!() };
        laws_of::<S, T>(&workers);
        let rest = WithoutWorkers {
            idle,
            side_ends,
            spools,
            work,
            of,
        };
        (workers, rest)
    }
}

impl<S: Spool, T: TableRings> WithoutWorkers<S, T> {
    /// Takes the workers back, in the order in which they were lent. The fault of the lowest that was stopped spoils the build. Takes no memory.
    pub fn gather(self, workers: Vec<Worker<S>>) -> Building<S, T>
        requires { AreBack T.pages self workers.items }
        ensures { IfSome self.work (λ work. result ≡ record self {
          workers = workers.items;
          work = Some (record work { spoiled = lowest_fault workers.items });
        }) }
    {
        let WithoutWorkers {
            idle,
            side_ends,
            spools,
            mut work,
            of,
        } = self;
        work.spoiled = first_stopped(&workers);
        Building {
            workers,
            idle,
            side_ends,
            spools,
            given: true,
            work: Some(work),
            of,
        }
    }

    /// Gives the work of the build up, with the workers that came back, whatever threads did with them: answered with the intakes that are
    /// left, theirs first, with the ends of the side-files' rings, and with the spools that came back, ended. Workers of another table would be
    /// ended as well: the intakes tell whose rings came back. Takes no memory.
    pub fn give_up(self, workers: Vec<Worker<S>>) -> (Vec<Intake>, Vec<EntryEnd>, Vec<S>)
        requires { AreNoMore self workers.items }
        ensures intakes { result.0.items ≡ intakes workers.items self.idle }
        ensures sides { result.1.items ≡ self.sides }
        ensures ended { All S.ended result.2.items }
        ensures stakes { map S.stake result.2.items ≡ stakes_of (workers_spools workers.items) }
    {
        let mut workers = workers;
        let (mut intakes, side_ends, mut spools) = self.into_parts();
        take_back(&mut workers, &mut spools, &mut intakes);
        (intakes, side_ends, spools)
    }

    /// Gives the work of the build up without its workers: answered with the intakes that no worker had, with the ends of the side-files'
    /// rings, and with an empty list that has room for the spools of all workers. Of a worker that came back [`Worker::into_parts`] takes the
    /// spools out, which `index_load::end_spools` ends. Takes no memory.
    pub fn into_parts(self) -> (Vec<Intake>, Vec<EntryEnd>, Vec<S>)
        ensures idle { result.0.items ≡ self.idle }
        ensures rings { 16 ≤ vec_capacity result.0 }
        ensures sides { result.1.items ≡ self.sides }
        ensures room { IfSome self.work (λ work. HasRoomFor ((16 - length self.idle) * length work.specs) result.2) }
    {
        let WithoutWorkers {
            idle,
            side_ends,
            spools,
            work: _,
            of: _,
        } = self;
        (idle, side_ends, spools)
    }
}

/// The fault of the lowest worker that was stopped.
fn first_stopped<S: Spool>(workers: &[Worker<S>]) -> Option<Fault>
    ensures { result ≡ lowest_fault workers.now }
{
    for worker in workers {
        if let Some(fault) = worker.fault() {
            return Some(fault);
        }
    }
    None
}
