ghost use Rattle.std.specs.Prelude.{◌≡◌, ◌≤◌, ◌⊎◌, ◌+◌, ◌++◌, [], All, length, map};
ghost use Rattle.std.specs.Prelude.{IfErr, IfOk, OnOk, OnErr};
ghost use Rattle.side_file.specs.Ends.{ring_take};
ghost use Rattle.heap_table.specs.Images.{IsReadable};
ghost use Rattle.run_spool.specs.Spools.{AreSorted, NoneFreed, NoPageOnlyIf};
ghost use Rattle.run_maker.specs.FullSpools.{HasFullOf};
ghost use Rattle.run_maker.specs.Making.{AreReady};
ghost use Rattle.run_maker.specs.Spooling.{MemoryOnlyIf};
ghost use Rattle.page_workers.specs.Holding.{AreHeldWith, TakesAll, TakesUpTo, HoldsMore};
ghost use Rattle.side_file.specs.Ends.{take_end, PutEndLooked};
ghost use Rattle.page_workers.specs.Turns.{AreHeldWithTaken, HoldsPart, StopsIn, TurnHolds, least_pairs, after_turn, marked, turn_images};
ghost use Rattle.page_workers.specs.Work.{at_start, IsIntake, SeesMore, StopsAt, knowing, next_images, after_digest, after_seal};
ghost use Rattle.page_workers.specs.WorkerValue.{IsShortage};

use crate::{Copied, PagePutter, Turn};
use keybytes::Fault;
use rtrb::Consumer;
use run_maker::{Maker, RunSort};
use run_spool::Spool;
use std::marker::Model;

/// A worker's end of its ring, and how far it is. It is lent the maker of its pairs and the spools that keep them.
pub struct Intake {
    build: u64,
    ring: Consumer<Copied>,
    taken: usize,
    /// How many were taken when it last sealed.
    sealed: usize,
}

impl Drop for Intake {
    fn drop(self) {
        let Intake {
            build: _,
            ring: _,
            taken: _,
            sealed: _,
        } = self;
    }
}

impl Model for Intake {
    ghost use Rattle.page_workers.specs.IntakeValue.{IntakeValue};

    ghost Value = { IntakeValue };

    ghost use Rattle.std.specs.Prelude.{◌≤◌};
    ghost use Rattle.side_file.specs.Ends.{take_end};

    ghost view = { λ worker. record {
      build = worker.build;
      end = take_end worker.ring;
      taken = worker.taken;
      sealed = worker.sealed;
    } };

    ghost invariant = { λ worker. worker.sealed ≤ worker.taken };
}

impl Intake {
    /// The end of a worker that has taken nothing. The numbers of builds begin above 0.
    pub fn new(ring: Consumer<Copied>) -> Intake
        ensures { result ≡ at_start 0 (take_end ring) }
    {
        Intake {
            build: 0,
            ring,
            taken: 0,
            sealed: 0,
        }
    }

    /// Does nothing: its clause tells what every such end keeps.
    pub fn laws(&self)
        ensures { IsIntake self.now }
    {
        let _kept = &self.taken;
    }

    /// The number of its build.
    pub fn build(&self) -> u64
        ensures { result ≡ self.now.build }
    {
        self.build
    }

    /// How many copies of its build it took.
    pub fn taken(&self) -> usize
        ensures { result ≡ self.now.taken }
    {
        self.taken
    }

    /// How many of these when it last sealed.
    pub fn sealed(&self) -> usize
        ensures { result ≡ self.now.sealed }
    {
        self.sealed
    }

    /// Empties its ring and begins a build. Takes no memory.
    pub fn restart(&mut self, putter: &mut PagePutter, build: u64)
        requires { putter.old.ring ≡ self.old.end.ring }
        ensures worker { self.new ≡ at_start build (record { ring = self.old.end.ring; received = putter.old.sent; known = [] }) }
        ensures putter { putter.new ≡ record putter.old { free = 4 } }
    {
        empty_ring(&mut self.ring, putter);
        self.build = build;
        self.taken = 0;
        self.sealed = 0;
    }

    /// How many copies are in its ring, with the other end at hand. Both ends then know all that there is to know of the ring.
    pub fn waiting(&mut self, putter: &mut PagePutter) -> usize
        requires { putter.old.ring ≡ self.old.end.ring }
        ensures worker { self.new ≡ knowing self.new.end.known self.old }
        ensures putter { PutEndLooked putter.old putter.new }
        ensures value { result ≡ length self.new.end.known }
        ensures in_order { self.new.end.received ++ self.new.end.known ≡ putter.new.sent }
        ensures free { 4 ≤ putter.new.free + result }
    {
        putter.beside(&mut self.ring)
    }

    /// Looks into its ring, and answers how many copies it has seen there. It needs no other end, so that it serves in a thread of its own: a
    /// digest or a seal takes what was seen. The other end may put more at any time.
    pub fn look(&mut self) -> usize
        ensures sees { SeesMore self.old self.new }
        ensures value { result ≡ length self.new.end.known }
    {
        self.ring.slots()
    }

    /// Takes the next copy that it has seen, makes its pairs, spools those that fill a run, and answers 1. The answer is 0 where it has seen
    /// none, and where the copy is of another build or of other columns than its maker's, and so is dropped. It is lent the spool of each index, and
    /// the sort of its runs. Want
    /// of memory or of a page spoils the build: the copy is gone, and a part of its pairs may be spooled. [`Fault::Memory`] is also
    /// the answer where its copies would be more than `usize` counts.
    pub fn digest<S: Spool, Q: RunSort>(
        &mut self,
        maker: &mut Maker,
        spools: &mut [S],
        sort: &mut Q,
    ) -> Result<usize, Fault>
        requires spools { length spools.old ≡ length maker.old.specs }
        requires ready { AreReady (map S.runs spools.old) (map S.open_run spools.old) }
        ensures count { IfOk result (λ images. images ≡ length (next_images 1 maker.old.schema self.old)) }
        ensures taken { OnOk result (self.new ≡ after_digest 1 maker.old.schema self.old) }
        ensures holds { OnOk result (TakesAll maker.old.specs (next_images 1 maker.old.schema self.old)
            (record { runs = map S.runs spools.old; begun = maker.old.begun }) (record { runs = map S.runs spools.new; begun = maker.new.begun })) }
        ensures ready { OnOk result (AreReady (map S.runs spools.new) (map S.open_run spools.new)) }
        ensures sorted { All AreSorted (map S.runs spools.old) → All AreSorted (map S.runs spools.new) }
        ensures intact { All (NoneFreed S.is_intact S.runs) spools.old → All (NoneFreed S.is_intact S.runs) spools.new }
        ensures stakes { map S.stake spools.new ≡ map S.stake spools.old }
        ensures schema { maker.new.schema ≡ maker.old.schema }
        ensures specs { maker.new.specs ≡ maker.old.specs }
        ensures readable { OnOk result (All IsReadable (next_images 1 maker.old.schema self.old)) }
        ensures failed { OnErr result (StopsAt 0 maker.old.schema self.old self.new) }
        ensures fault { IfErr result (λ fault. (fault ≡ Fault.NoPage) ⊎ (fault ≡ Fault.Memory)) }
        ensures full { IfErr result (NoPageOnlyIf
            (HasFullOf S.is_full S.runs S.open_run 4096 (map S.runs spools.old)
            (AreHeldWith maker.old.specs (next_images 1 maker.old.schema self.old)
            (record { runs = map S.runs spools.old; begun = maker.old.begun })) spools.new)) }
        ensures want { IfErr result (MemoryOnlyIf (AreReady (map S.runs spools.new) (map S.open_run spools.new))) }
        ensures part { IfErr result (MemoryOnlyIf (TakesUpTo maker.old.specs [] (next_images 1 maker.old.schema self.old)
            (record { runs = map S.runs spools.old; begun = maker.old.begun }) (record { runs = map S.runs spools.new; begun = maker.new.begun }))) }
    {
        if self.seen() == 0 {
            return Ok(0);
        }
        let copied = self.ring.pop_known();
        if !copied.is_for(self.build, maker.schema()) {
            return Ok(0);
        }
        if self.taken == usize::MAX {
            return Err(Fault::Memory);
        }
        copied.image.laws();
        maker.take_with(copied.image, spools, sort)?;
        self.taken += 1;
        Ok(1)
    }

    /// Takes all copies that it has seen, spools their pairs, closes the run of each index, and answers how many copies of its
    /// build and of its maker's columns there were. What it has taken is then sealed. Want of memory or of a page spoils the
    /// build: some of the copies are gone.
    pub fn seal<S: Spool, Q: RunSort>(
        &mut self,
        maker: &mut Maker,
        spools: &mut [S],
        sort: &mut Q,
    ) -> Result<usize, Fault>
        requires spools { length spools.old ≡ length maker.old.specs }
        requires ready { AreReady (map S.runs spools.old) (map S.open_run spools.old) }
        ensures count { IfOk result (λ images. images ≡ length (next_images (length self.old.end.known) maker.old.schema self.old)) }
        ensures taken { OnOk result (self.new ≡ after_seal (after_digest (length self.old.end.known) maker.old.schema self.old)) }
        ensures holds { OnOk result (HoldsMore maker.old.specs (next_images (length self.old.end.known) maker.old.schema self.old)
            (record { runs = map S.runs spools.old; begun = maker.old.begun }) (record { runs = map S.runs spools.new; begun = maker.new.begun })) }
        ensures closed { OnOk result (All (λ begun. begun ≡ []) maker.new.begun) }
        ensures ready { OnOk result (AreReady (map S.runs spools.new) (map S.open_run spools.new)) }
        ensures sorted { All AreSorted (map S.runs spools.old) → All AreSorted (map S.runs spools.new) }
        ensures intact { All (NoneFreed S.is_intact S.runs) spools.old → All (NoneFreed S.is_intact S.runs) spools.new }
        ensures stakes { map S.stake spools.new ≡ map S.stake spools.old }
        ensures schema { maker.new.schema ≡ maker.old.schema }
        ensures specs { maker.new.specs ≡ maker.old.specs }
        ensures readable { OnOk result (All IsReadable (next_images (length self.old.end.known) maker.old.schema self.old)) }
        ensures build { self.new.build ≡ self.old.build }
        ensures ring { self.new.end.ring ≡ self.old.end.ring }
        ensures failed { IfErr result (StopsIn Turn.Seal maker.old.schema self.old self.new) }
        ensures fault { IfErr result (λ fault. (fault ≡ Fault.NoPage) ⊎ (fault ≡ Fault.Memory)) }
        ensures full { IfErr result (NoPageOnlyIf
            (HasFullOf S.is_full S.runs S.open_run 1 (map S.runs spools.old)
            (AreHeldWithTaken maker.old.specs maker.old.schema self.old self.new
            (record { runs = map S.runs spools.old; begun = maker.old.begun })) spools.new)) }
        ensures want { IfErr result (MemoryOnlyIf (AreReady (map S.runs spools.new) (map S.open_run spools.new))) }
        ensures part { IfErr result (MemoryOnlyIf (HoldsPart maker.old.specs maker.old.schema self.old self.new
            (record { runs = map S.runs spools.old; begun = maker.old.begun }) (record { runs = map S.runs spools.new; begun = maker.new.begun }))) }
    {
        maker.laws();
        let mut images = 0;
        for _ in 0..self.seen() {
            images += self.digest(maker, spools, sort)?;
        }
        maker.laws();
        maker.seal_with(spools, sort)?;
        self.mark(Turn::Seal);
        Ok(images)
    }

    /// Takes what that turn asks, as [`Intake::digest`] or [`Intake::seal`].
    pub(crate) fn take<S: Spool, Q: RunSort>(
        &mut self,
        turn: Turn,
        maker: &mut Maker,
        spools: &mut [S],
        sort: &mut Q,
    ) -> Result<usize, Fault>
        requires spools { length spools.old ≡ length maker.old.specs }
        requires ready { AreReady (map S.runs spools.old) (map S.open_run spools.old) }
        ensures count { IfOk result (λ images. images ≡ length (turn_images turn maker.old.schema self.old)) }
        ensures taken { OnOk result (self.new ≡ after_turn turn maker.old.schema self.old) }
        ensures holds { OnOk result (TurnHolds turn maker.old.specs (turn_images turn maker.old.schema self.old)
            (record { runs = map S.runs spools.old; begun = maker.old.begun }) (record { runs = map S.runs spools.new; begun = maker.new.begun })) }
        ensures closed { OnOk result (turn ≡ Turn.Seal → All (λ begun. begun ≡ []) maker.new.begun) }
        ensures ready { OnOk result (AreReady (map S.runs spools.new) (map S.open_run spools.new)) }
        ensures sorted { All AreSorted (map S.runs spools.old) → All AreSorted (map S.runs spools.new) }
        ensures intact { All (NoneFreed S.is_intact S.runs) spools.old → All (NoneFreed S.is_intact S.runs) spools.new }
        ensures stakes { map S.stake spools.new ≡ map S.stake spools.old }
        ensures schema { maker.new.schema ≡ maker.old.schema }
        ensures specs { maker.new.specs ≡ maker.old.specs }
        ensures readable { OnOk result (All IsReadable (turn_images turn maker.old.schema self.old)) }
        ensures build { self.new.build ≡ self.old.build }
        ensures ring { self.new.end.ring ≡ self.old.end.ring }
        ensures took { IfErr result (StopsIn turn maker.old.schema self.old self.new) }
        ensures fault { IfErr result IsShortage }
        ensures full { IfErr result (NoPageOnlyIf
            (HasFullOf S.is_full S.runs S.open_run (least_pairs turn) (map S.runs spools.old)
            (AreHeldWithTaken maker.old.specs maker.old.schema self.old self.new
            (record { runs = map S.runs spools.old; begun = maker.old.begun })) spools.new)) }
        ensures want { IfErr result (MemoryOnlyIf (AreReady (map S.runs spools.new) (map S.open_run spools.new))) }
        ensures part { IfErr result (MemoryOnlyIf (HoldsPart maker.old.specs maker.old.schema self.old self.new
            (record { runs = map S.runs spools.old; begun = maker.old.begun }) (record { runs = map S.runs spools.new; begun = maker.new.begun }))) }
    {
        match turn {
            Turn::Digest => self.digest(maker, spools, sort),
            Turn::Seal => self.seal(maker, spools, sort),
        }
    }

    /// At a seal all that it took counts as sealed.
    pub(crate) fn mark(&mut self, turn: Turn)
        ensures { self.new ≡ marked turn self.old }
    {
        match turn {
            Turn::Digest => {}
            Turn::Seal => self.sealed = self.taken,
        }
    }

    // How many copies it has seen.
    fn seen(&self) -> usize
        ensures { result ≡ length self.now.end.known }
    {
        self.ring.cached_slots()
    }
}

// Takes out and drops all that is in the ring. Each of its places is then known to be free.
fn empty_ring(ring: &mut Consumer<Copied>, putter: &mut PagePutter)
    requires { putter.old.ring ≡ ring_take ring.old }
    ensures ring { take_end ring.new ≡ record { ring = ring_take ring.old; received = putter.old.sent; known = [] } }
    ensures putter { putter.new ≡ record putter.old { free = 4 } }
{
    for _ in 0..putter.beside(ring) {
        ring.pop_known();
    }
    putter.beside(ring);
}
