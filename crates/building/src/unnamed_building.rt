ghost use Rattle.std.specs.Prelude.{◌≡◌};
ghost use Rattle.table_scan.specs.SideFiles.{taken_rings};
ghost use Rattle.building.specs.BuildingValue.{intakes};
ghost use Rattle.building.specs.Rings.{take_rings};

use crate::beside::Building;
use crate::work::Work;
use page_workers::{Intake, TableRings, Worker};
use run_spool::Spool;
use side_file::EntryEnd;
use std::marker::{Model, PhantomData};

/// A [`Building`] whose name was taken off, for whoever can't keep a type. Its ends tell which rings a name has to be of for
/// [`UnnamedBuilding::open`].
///
/// To let it go loses its spools and the ends of its rings: a drop ends no spool, and gives no account back to its pool.
pub struct UnnamedBuilding<S: Spool> {
    workers: Vec<Worker<S>>,
    idle: Vec<Intake>,
    side_ends: Vec<EntryEnd>,
    spools: Vec<S>,
    given: bool,
    work: Option<Work>,
}

impl<S: Spool> Drop for UnnamedBuilding<S> {
    fn drop(self) {
        let UnnamedBuilding {
            workers: _,
            idle: _,
            side_ends: _,
            spools: _,
            given: _,
            work: _,
        } = self;
    }
}

impl<S: Spool> Model for UnnamedBuilding<S> {
    ghost use Rattle.building.specs.BuildingValue.{BuildingValue, intakes};

    ghost Value = { BuildingValue };

    ghost use Rattle.std.specs.Prelude.{◌≡◌, ◌≤◌, [], length, map, true, false, All, None, vec_capacity};
    ghost use Rattle.table_scan.specs.SideFiles.{taken_rings};
    ghost use Rattle.page_workers.specs.SpoolValue.{spool_value};
    ghost use Rattle.building.specs.Holding.{all_spools};
    ghost use Rattle.building.specs.Keeping.{AreNumbered, KeepsWork};
    ghost use Rattle.building.specs.Rings.{AreTakeEnds, take_rings};

    ghost view = { λ unnamed. record {
      workers = unnamed.workers.items;
      idle = unnamed.idle.items;
      sides = unnamed.side_ends.items;
      spools = map (spool_value S.runs S.open_run S.stake) unnamed.spools.items;
      given = unnamed.given;
      work = unnamed.work;
    } };

    ghost invariant = { λ unnamed. AreTakeEnds (take_rings (intakes unnamed.workers.items unnamed.idle.items))
        (taken_rings unnamed.side_ends.items)
        (intakes unnamed.workers.items unnamed.idle.items) unnamed.side_ends.items
        × (16 ≤ vec_capacity unnamed.idle)
        × (length (all_spools unnamed.workers.items (map (spool_value S.runs S.open_run S.stake) unnamed.spools.items)) ≤ vec_capacity unnamed.spools)
        × (unnamed.work ≡ None → unnamed.workers.items ≡ [])
        × (unnamed.given ≡ false → unnamed.work ≡ None)
        × (unnamed.given ≡ true → unnamed.work ≡ None → All S.ended unnamed.spools.items)
        × KeepsWork unnamed.workers.items unnamed.side_ends.items (map (spool_value S.runs S.open_run S.stake) unnamed.spools.items) unnamed.work
        × AreNumbered unnamed.workers.items };
}

impl<S: Spool> UnnamedBuilding<S> {
    /// Gives it a name. Takes no memory.
    pub fn open<T: TableRings>(self) -> Building<S, T>
        requires pages { take_rings (intakes self.workers self.idle) ≡ T.pages }
        requires sides { taken_rings self.sides ≡ T.sides }
        ensures { result ≡ self }
    {
        let UnnamedBuilding {
            workers,
            idle,
            side_ends,
            spools,
            given,
            work,
        } = self;
        Building {
            workers,
            idle,
            side_ends,
            spools,
            given,
            work,
            of: PhantomData,
        }
    }
}

impl<S: Spool, T: TableRings> Building<S, T> {
    /// Takes its name off. Takes no memory.
    pub fn unname(self) -> UnnamedBuilding<S>
        ensures building { result ≡ self }
        ensures pages { take_rings (intakes result.workers result.idle) ≡ T.pages }
        ensures sides { taken_rings result.sides ≡ T.sides }
    {
        let Building {
            workers,
            idle,
            side_ends,
            spools,
            given,
            work,
            of: _,
        } = self;
        UnnamedBuilding {
            workers,
            idle,
            side_ends,
            spools,
            given,
            work,
        }
    }
}
