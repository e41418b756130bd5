//! The turns of a build that catches up with those who write, with both ends of the rings of its side-files at hand.
ghost use Rattle.std.specs.Prelude.{◌≡◌, ◌⊎◌, ◌+◌, ◌*◌, ◌^◌, ◌<◌, ◌≤◌, All, None, true, false, length, IfSome, IsSome, IfErr, OnOk, slice_get};
ghost use Rattle.build_events.specs.Workers.{unfed};
ghost use Rattle.build_events.specs.BuildSteps.{OnBuild};
ghost use Rattle.build_events.specs.declared.event.Event.{Event};
ghost use Rattle.table_scan.specs.SideFiles.{side_refusal};
ghost use Rattle.building.specs.BuildingValue.{BuildingValue};
ghost use Rattle.live_lemmas.specs.Builds.{core_state, cause_of, StandsBeside};
ghost use Rattle.live_lemmas.specs.CatchingUp.{MayCatchUp};
ghost use Rattle.live_lemmas.specs.Settling.{FeedsBatch, FeedsEach, HasFedBatch, HasRoomForBatch, IsSettled, OnlyFeeds, ring_at, waiting_in};
ghost use Rattle.live_lemmas.specs.Switching.{IsPartOf, KeepsOut};

use crate::{Building, Live, TableRings};
use chunk_list::ChunkQueue;
use keybytes::Fault;
use run_spool::Spool;
use side_file::Entry;

impl<T: TableRings> Live<T> {
    /// How many entries of all side-files of the build that runs weren't fed yet; 0 where none runs.
    pub fn entries_left(&self) -> usize
        ensures left { result ≡ waiting_in self.now.state }
        ensures few { result < 2 ^ 63 }
    {
        let Some(build) = self.build() else {
            return 0;
        };
        let mut sum = 0;
        for index in 0..build.indexes() {
            sum += self.left_in_side(index);
        }
        sum
    }

    /// How many entries of an index's side-file weren't fed yet.
    fn left_in_side(&self, index: usize) -> usize
        requires runs { IsSome self.now.state.build }
        requires there { IfSome self.now.state.build (λ b. index < length b.specs) }
        ensures left { OnBuild self.now.state.build (λ b. result ≡ unfed b self.now.state.heap.log index (slice_get b.specs index)) }
        ensures few { result < 2 ^ 60 }
    {
        let side = &self.sides[index];
        side.laws();
        side.left()
    }

    /// Takes in what stands beside the table, once all that was fed to its indexes is applied. [`Fault::NoBuild`], also where some of it still waits;
    /// the fault of a spoiled build, [`Fault::NotScanned`], [`Fault::NotLoaded`], [`Fault::NotSealed`] as a switch has them. Takes no memory.
    pub fn check_settled<S: Spool>(&mut self, building: &mut Building<S, T>) -> Result<(), Fault>
        ensures works { OnOk result (StandsBeside self.new building.new) }
        ensures settled { OnOk result (IsSettled (core_state self.old building.old)) }
        ensures part { OnOk result (IsPartOf self.old building.old) }
        ensures few { OnOk result (OnBuild self.old.state.build (λ b. length b.specs ≤ 8)) }
        ensures same { core_state self.new building.new ≡ core_state self.old building.old }
        ensures refused { IfErr result (λ fault. KeepsOut true self.old building.old fault
            ⊎ ((fault ≡ Fault.NoBuild) × (IsSettled (core_state self.old building.old) → ⊥))) }
    {
        // What the table keeps is known once its fields are reached.
        let _pages = &self.pages;
        self.take_in(building, true)?;
        if self.is_settled(building) {
            Ok(())
        } else {
            Err(Fault::NoBuild)
        }
    }

    /// Whether all that was fed to the indexes is applied.
    fn is_settled<S: Spool>(&mut self, building: &mut Building<S, T>) -> bool
        requires works { StandsBeside self.old building.old }
        requires runs { MayCatchUp (core_state self.old building.old) }
        ensures works { StandsBeside self.new building.new }
        ensures same { core_state self.new building.new ≡ core_state self.old building.old }
        ensures settled { result ≡ true → IsSettled (core_state self.old building.old) }
        ensures waits { result ≡ false → IsSettled (core_state self.old building.old) → ⊥ }
    {
        let Some(build) = self.build() else {
            unreachable!()
        };
        building.laws();
        for index in 0..build.indexes() {
            if self.waiting_at(index, building) > 0 {
                return false;
            }
        }
        true
    }

    /// How many entries wait in the ring of an index.
    fn waiting_at<S: Spool>(&mut self, index: usize, building: &mut Building<S, T>) -> usize
        requires works { StandsBeside self.old building.old }
        requires few { index < 8 }
        requires runs { cause_of self.old building.old (Event.Apply index 256) ≡ None }
        ensures works { StandsBeside self.new building.new }
        ensures same { core_state self.new building.new ≡ core_state self.old building.old }
        ensures waiting { result ≡ ring_at index (core_state self.old building.old) }
    {
        self.look_at_side(index, building)
    }

    /// Moves the first entries that each index has left into its ring as a batch, by whole chunks and at most `most` of each, and answers how many those
    /// are together. There is a queue for each batch. Takes no memory, and a time that goes with the number of chunks.
    pub fn feed_all<S: Spool>(
        &mut self,
        most: usize,
        batches: Vec<ChunkQueue<Entry>>,
        building: &mut Building<S, T>,
    ) -> usize
        requires works { StandsBeside self.old building.old }
        requires settled { IsSettled (core_state self.old building.old) }
        requires batches { OnBuild self.old.state.build (λ b. length batches.items ≡ length b.specs) }
        requires room { All (HasRoomForBatch most) batches.items }
        ensures works { StandsBeside self.new building.new }
        ensures feeds { OnlyFeeds (core_state self.old building.old) (core_state self.new building.new) }
        ensures each { FeedsEach most (core_state self.old building.old) (core_state self.new building.new) }
        ensures left { waiting_in self.new.state + result ≡ waiting_in self.old.state }
        ensures many { (most < result + 1024) ⊎ (result ≡ waiting_in self.old.state) }
        ensures within { OnBuild self.old.state.build (λ b. result ≤ length b.specs * most) }
    {
        let Some(build) = self.build() else {
            unreachable!()
        };
        let indexes = build.indexes();
        let waited = self.entries_left();
        let mut batches = batches;
        for index in 0..indexes {
            let Some(batch) = batches.pop() else {
                unreachable!()
            };
            self.feed_one(index, most, batch, building);
        }
        waited - self.entries_left()
    }

    /// Moves a batch into the ring of an index, in which nothing waits.
    fn feed_one<S: Spool>(
        &mut self,
        index: usize,
        most: usize,
        batch: ChunkQueue<Entry>,
        building: &mut Building<S, T>,
    ) -> usize
        requires works { StandsBeside self.old building.old }
        requires there { OnBuild self.old.state.build (λ b. index < length b.specs) }
        requires empty { ring_at index (core_state self.old building.old) ≡ 0 }
        requires room { HasRoomForBatch most batch }
        ensures works { StandsBeside self.new building.new }
        ensures fed { FeedsBatch index most (core_state self.old building.old) result (core_state self.new building.new) }
    {
        // What the table keeps is known once its fields are reached.
        let _pages = &self.pages;
        self.look_at_side(index, building);
        self.feed_batch(index, most, batch)
    }

    /// Moves the first entries that an index's side-file has left into its ring as one batch, by whole chunks and at most `most` together. None where
    /// this end of the ring knows no place. Takes no memory.
    fn feed_batch(&mut self, index: usize, most: usize, batch: ChunkQueue<Entry>) -> usize
        requires there { side_refusal self.old.state.build index ≡ None }
        requires room { HasRoomForBatch most batch }
        ensures fed { HasFedBatch index most self.old result self.new }
        ensures works { (building : BuildingValue) → StandsBeside self.old building → StandsBeside self.new building }
    {
        let Some(build) = &mut self.build else {
            unreachable!()
        };
        let side = &mut self.sides[index];
        let count = side.feed_batch(most, batch);
        side.laws();
        build.note_fed(index, count);
        count
    }
}
