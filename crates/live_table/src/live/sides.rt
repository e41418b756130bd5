//! The side-files of a build, one for each index: their entries go into their rings, and from there to the indexes.
ghost use Rattle.std.specs.Prelude.{◌≡◌, ◌<◌, None, Some, slice_get, IfSome, IfOk, IfErr, OnOk, OnErr};
ghost use Rattle.building.specs.BuildingValue.{BuildingValue};
ghost use Rattle.live_lemmas.specs.Builds.{core_state, cause_of, StandsBeside, SideIsLooked, SeesSideAt, HasFed};
ghost use Rattle.live_lemmas.specs.Putting.{SendsOn};
ghost use Rattle.table_scan.specs.TableBuilds.{BuildFollows};
ghost use Rattle.table_scan.specs.SideFiles.{AreFedEntries, side_refusal};
ghost use Rattle.build_events.specs.BuildSteps.{Feeds, Applies, AppliesSome};
ghost use Rattle.build_events.specs.declared.event.Event.{Event};

use crate::{Building, Live, TableRings};
use keybytes::Fault;
use run_spool::Spool;
use side_file::RING_ENTRIES;

impl<T: TableRings> Live<T> {
    /// Moves the next entries of an index's side-file into its ring, and answers how many: at most `most`, a ring's 256, and as many
    /// as this end of the ring knows places for. [`Fault::NoBuild`], [`Fault::BadCount`]. Takes no memory.
    pub fn feed(&mut self, index: usize, most: usize) -> Result<usize, Fault>
        ensures fed { IfOk result (λ count. HasFed index most self.old count self.new) }
        ensures works { (building : BuildingValue) → StandsBeside self.old building → StandsBeside self.new building }
        ensures accepted { OnOk result (side_refusal self.old.state.build index ≡ None) }
        ensures refused { IfErr result (λ fault. side_refusal self.old.state.build index ≡ Some fault) }
        ensures unchanged { OnErr result (self.new ≡ self.old) }
    {
        self.build_with(index)?;
        let Some(build) = &mut self.build else {
            unreachable!()
        };
        let side = &mut self.sides[index];
        let count = side.feed(most);
        side.laws();
        build.note_fed(index, count);
        Ok(count)
    }

    /// How many entries wait in an index's ring, with both its ends at hand.
    pub(crate) fn look_at_side<S: Spool>(
        &mut self,
        index: usize,
        building: &mut Building<S, T>,
    ) -> usize
        requires { index < 8 }
        ensures looked { SideIsLooked index self.old building.old self.new building.new }
        ensures sees { SeesSideAt index result self.new building.new }
        ensures fed { IfSome self.new.state.build (λ b. IfSome (slice_get b.specs index) (λ spec. IfSome (slice_get self.new.sides index)
            (AreFedEntries self.new.state.heap.log b index spec))) }
        ensures follows { BuildFollows self.new.state.heap.schema self.new.state.heap.log self.new.state.build }
    {
        building.look_at_side(index, &mut self.sides[index])
    }

    /// Moves entries into an index's ring as [`Live::feed`], with both ends of the ring at hand, so that each free place is known.
    pub fn feed_beside<S: Spool>(
        &mut self,
        index: usize,
        most: usize,
        building: &mut Building<S, T>,
    ) -> Result<usize, Fault>
        requires { StandsBeside self.old building.old }
        ensures fed { IfOk result (λ count. Feeds index most (core_state self.old building.old) count (core_state self.new building.new)) }
        ensures accepted { OnOk result (cause_of self.old building.old (Event.Feed index most) ≡ None) }
        ensures refused { IfErr result (λ fault. cause_of self.old building.old (Event.Feed index most) ≡ Some fault) }
        ensures unchanged { OnErr result ((self.new ≡ self.old) × (building.new ≡ building.old)) }
        ensures works { StandsBeside self.new building.new }
        ensures sends { OnOk result (SendsOn self.old self.new) }
        ensures pages { self.new.pages ≡ self.old.pages }
    {
        let _build = self.build_with(index)?;
        let waiting = self.look_at_side(index, building);
        self.feed(index, most.min(RING_ENTRIES.saturating_sub(waiting)))
    }

    /// Why no entries would be applied to the index. Takes no memory.
    pub fn check_apply<S: Spool>(
        &self,
        index: usize,
        building: &Building<S, T>,
    ) -> Result<(), Fault>
        requires { StandsBeside self.now building.now }
        ensures accepted { OnOk result (cause_of self.now building.now (Event.Apply index 0) ≡ None) }
        ensures refused { IfErr result (λ fault. cause_of self.now building.now (Event.Apply index 0) ≡ Some fault) }
        ensures few { OnOk result (index < 8) }
    {
        self.build_with(index)?;
        let Some(work) = building.work() else {
            unreachable!()
        };
        work.check()?;
        if !work.is_loaded(index) {
            return Err(Fault::NotLoaded(index));
        }
        Ok(())
    }

    /// Applies at most so many of the entries that wait in the ring to the index, and answers how many. Those that were applied
    /// before memory was wanted stay applied.
    pub fn apply<S: Spool>(
        &mut self,
        index: usize,
        most: usize,
        building: &mut Building<S, T>,
    ) -> Result<usize, Fault>
        requires works { StandsBeside self.old building.old }
        requires few { index < 8 }
        requires runs { cause_of self.old building.old (Event.Apply index most) ≡ None }
        ensures applied { IfOk result (λ count. Applies index most (core_state self.old building.old) count (core_state self.new building.new)) }
        ensures some { OnErr result (AppliesSome index most (core_state self.old building.old) (core_state self.new building.new)) }
        ensures works { StandsBeside self.new building.new }
        ensures sends { SendsOn self.old self.new }
        ensures pages { self.new.pages ≡ self.old.pages }
        ensures memory { IfErr result (λ fault. fault ≡ Fault.Memory) }
    {
        let waiting = self.look_at_side(index, building);
        building.apply(index, most.min(waiting))
    }
}
