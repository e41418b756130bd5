ghost use Rattle.std.specs.Prelude.{◌≡◌};

use crate::{Core, TableRings};
use live_table::{UnnamedBuilding, UnnamedLive};
use run_spool::Spool;
use std::marker::Model;

/// A core whose name was taken off: what stands between two calls of a program that can't keep a type, as one in C. It tells which rings a
/// name has to be of for [`UnnamedCore::open`].
///
/// A core is no `Drop`, but this is one, so that a box can keep it. To let it go loses the spools, which no drop ends: whoever wants them and
/// their pages back opens it, and takes them out by [`Core::into_live`].
pub struct UnnamedCore<S: Spool> {
    live: UnnamedLive,
    building: UnnamedBuilding<S>,
}

impl<S: Spool> Drop for UnnamedCore<S> {
    fn drop(self) {
        let UnnamedCore {
            live: _,
            building: _,
        } = self;
    }
}

impl<S: Spool> Model for UnnamedCore<S> {
    ghost use Rattle.live_lemmas.specs.Builds.{UnnamedValue};

    ghost Value = { UnnamedValue };

    ghost use Rattle.std.specs.Prelude.{◌≡◌};
    ghost use Rattle.live_lemmas.specs.Builds.{core_state, StandsBeside};
    ghost use Rattle.table_scan.specs.SideFiles.{side_rings, taken_rings};
    ghost use Rattle.building.specs.BuildingValue.{intakes};
    ghost use Rattle.building.specs.Rings.{put_rings, take_rings};

    ghost view = { λ unnamed. record {
      core = core_state unnamed.live unnamed.building;
      pages = put_rings unnamed.live.pages;
      sides = side_rings unnamed.live.sides;
    } };

    ghost invariant = { λ unnamed. StandsBeside unnamed.live unnamed.building
        × (take_rings (intakes unnamed.building.workers unnamed.building.idle) ≡ put_rings unnamed.live.pages)
        × (taken_rings unnamed.building.sides ≡ side_rings unnamed.live.sides) };
}

impl<S: Spool> UnnamedCore<S> {
    /// Gives it a name: it is the core that it was, under any name with its rings. Takes no memory.
    pub fn open<T: TableRings>(self) -> Core<S, T>
        requires pages { self.pages ≡ T.pages }
        requires sides { self.sides ≡ T.sides }
        ensures { result ≡ self.core }
    {
        let UnnamedCore { live, building } = self;
        Core {
            live: live.open(),
            building: building.open(),
        }
    }
}

impl<S: Spool, T: TableRings> Core<S, T> {
    /// Takes its name off, whatever build runs. Takes no memory.
    pub fn unname(self) -> UnnamedCore<S>
        ensures core { result.core ≡ self }
        ensures pages { result.pages ≡ T.pages }
        ensures sides { result.sides ≡ T.sides }
    {
        let Core { live, building } = self;
        UnnamedCore {
            live: live.unname(),
            building: building.unname(),
        }
    }
}
