ghost use Rattle.std.specs.Prelude.{◌≡◌, ◌+◌, ◌++◌, ◌<◌, ◌≤◌, [], All, length, map, true, false, None, IfSome};
ghost use Rattle.page_workers.specs.SpoolValue.{spool_value};
ghost use Rattle.side_file.specs.Ends.{PutEndLooked};
ghost use Rattle.page_workers.specs.Work.{at_start, knowing};
ghost use Rattle.page_workers.specs.WorkerValue.{IsCounting, IsHolding, IsShortage};

mod turns;

use crate::{Intake, PagePutter};
use keybytes::Fault;
use run_maker::Maker;
use run_spool::Spool;
use std::alloc::Global;
use std::marker::Model;
use std::mem::replace;

/// A worker of a build: its end of its ring, the maker of its pairs, and a spool for each index.
///
/// Whatever a thread that is lent one calls, its number and its ring stay as they are, and while no digest or seal was refused, and until it
/// hands its spools over, maker and spools hold, for each index, exactly the pairs of the copies of its build that it took. A refused
/// digest or seal stops it: each further one is refused for the same fault. After digests and seals, refused ones too, it is still
/// the worker of its place, with its own spools, and goes back to its build.
///
/// [`Worker::hand_over`] and [`Worker::into_parts`] are for the build, once it has it back. A thread that calls one of them gives that up: the
/// build can't take the worker back, and can only be given up. The spools are then the caller's, who has to end them: until then they keep
/// their pages. To let a worker go loses them: a drop ends no spool, and gives no account back to its pool.
pub struct Worker<S: Spool> {
    number: usize,
    intake: Intake,
    maker: Maker,
    spools: Vec<S>,
    /// Whether its spools went to the indexes.
    handed: bool,
    fault: Option<Fault>,
    alloc: Global,
}

impl<S: Spool> Drop for Worker<S> {
    fn drop(self) {
        let Worker {
            number: _,
            intake: _,
            maker: _,
            spools: _,
            handed: _,
            fault: _,
            alloc: _,
        } = self;
    }
}

impl<S: Spool> Model for Worker<S> {
    ghost use Rattle.page_workers.specs.WorkerValue.{WorkerValue};

    ghost Value = { WorkerValue };

    ghost use Rattle.std.specs.Prelude.{◌≡◌, [], All, map, true, false, None, IfSome};
    ghost use Rattle.run_spool.specs.Spools.{NoneFreed};
    ghost use Rattle.page_workers.specs.SpoolValue.{spool_value};
    ghost use Rattle.page_workers.specs.WorkerValue.{IsCounting, IsHolding, IsShortage};

    ghost view = { λ worker. record {
      number = worker.number;
      intake = worker.intake;
      maker = worker.maker;
      spools = map (spool_value S.runs S.open_run S.stake) worker.spools.items;
      handed = worker.handed;
      fault = worker.fault;
    } };

    ghost invariant = { λ worker. IfSome worker.fault IsShortage
        × (worker.fault ≡ None → IsCounting worker.intake worker.maker)
        × (worker.fault ≡ None → worker.handed ≡ false
        → IsHolding worker.intake worker.maker (map (spool_value S.runs S.open_run S.stake) worker.spools.items))
        × (worker.handed ≡ true → worker.spools.items ≡ [])
        × All (NoneFreed S.is_intact S.runs) worker.spools.items };
}

impl<S: Spool> Worker<S> {
    /// A worker that has taken nothing of its build, which gives it the ring of its number. It gets a spool for each specification of its maker, all
    /// empty.
    pub fn new(
        alloc: Global,
        number: usize,
        intake: Intake,
        maker: Maker,
        spools: Vec<S>,
    ) -> Worker<S>
        requires fresh { intake ≡ at_start intake.build intake.end }
        requires earlier { All (λ copied. copied.build < intake.build) intake.end.received }
        requires many { length spools.items ≡ length maker.specs }
        requires none { All (λ begun. begun ≡ []) maker.begun }
        requires empty { All (λ spool. (S.runs spool ≡ []) × (S.open_run spool ≡ [])) spools.items }
        ensures { result ≡ record {
          number = number;
          intake = intake;
          maker = maker;
          spools = map (spool_value S.runs S.open_run S.stake) spools.items;
          handed = false;
          fault = None;
        } }
    {
        Worker {
            number,
            intake,
            maker,
            spools,
            handed: false,
            fault: None,
            alloc,
        }
    }

    /// Does nothing: its clauses tell what every worker keeps.
    pub fn laws(&self)
        ensures shortage { IfSome self.now.fault IsShortage }
        ensures begun { length self.now.maker.begun ≡ length self.now.maker.specs }
        ensures columns { All (λ spec. spec.kinds ≡ self.now.maker.schema) self.now.maker.specs }
        ensures counts { self.now.fault ≡ None → IsCounting self.now.intake self.now.maker }
        ensures holds { self.now.fault ≡ None → self.now.handed ≡ false → IsHolding self.now.intake self.now.maker self.now.spools }
        ensures handed { self.now.handed ≡ true → self.now.spools ≡ [] }
    {
        self.maker.laws();
    }

    /// Its place among the workers of its build, whose ring its build expects it to have.
    pub fn number(&self) -> usize
        ensures { result ≡ self.now.number }
    {
        self.number
    }

    /// How far it is with its ring.
    pub fn intake(&self) -> &Intake
        ensures { result.now ≡ self.now.intake }
    {
        &self.intake
    }

    /// What makes its pairs.
    pub fn maker(&self) -> &Maker
        ensures { result.now ≡ self.now.maker }
    {
        &self.maker
    }

    /// The fault that stopped it.
    pub fn fault(&self) -> Option<Fault>
        ensures { result ≡ self.now.fault }
    {
        self.fault
    }

    /// Whether some pairs are in no run yet.
    pub fn has_open_run(&self) -> bool
        ensures some { result ≡ true → All (λ begun. begun ≡ []) self.now.maker.begun → ⊥ }
        ensures none { result ≡ false → All (λ begun. begun ≡ []) self.now.maker.begun }
    {
        self.maker.has_open_run()
    }

    /// How many copies are in its ring, with the other end at hand. Both ends then know all that there is to know of the ring.
    pub fn waiting(&mut self, putter: &mut PagePutter) -> usize
        requires { putter.old.ring ≡ self.old.intake.end.ring }
        ensures worker { self.new ≡ record self.old { intake = knowing self.new.intake.end.known self.old.intake } }
        ensures putter { PutEndLooked putter.old putter.new }
        ensures value { result ≡ length self.new.intake.end.known }
        ensures in_order { self.new.intake.end.received ++ self.new.intake.end.known ≡ putter.new.sent }
        ensures free { 4 ≤ putter.new.free + result }
    {
        self.intake.waiting(putter)
    }

    /// Gives its spools away, to the indexes whose pairs they have; from then on it takes no copy.
    pub fn hand_over(&mut self) -> Vec<S>
        ensures spools { map (spool_value S.runs S.open_run S.stake) result.items ≡ self.old.spools }
        ensures left { self.new ≡ record self.old { spools = []; handed = true } }
    {
        self.handed = true;
        replace(&mut self.spools, Vec::new(self.alloc))
    }

    /// Its end of the ring, and the spools that it still has.
    pub fn into_parts(self) -> (Intake, Vec<S>)
        ensures intake { result.0 ≡ self.intake }
        ensures spools { map (spool_value S.runs S.open_run S.stake) result.1.items ≡ self.spools }
    {
        let Worker {
            number: _,
            intake,
            maker: _,
            spools,
            handed: _,
            fault: _,
            alloc: _,
        } = self;
        (intake, spools)
    }
}
