ghost use Rattle.std.specs.Prelude.{◌≡◌};
ghost use Rattle.table_scan.specs.SideFiles.{side_rings};
ghost use Rattle.building.specs.Rings.{put_rings};

use crate::{Live, TableRings};
use heap_table::Heap;
use page_workers::PagePutter;
use ready_indexes::ReadyIndexes;
use side_file::SideFile;
use std::alloc::Global;
use std::marker::{Model, PhantomData};
use table_scan::TableScan;

/// A [`Live`] whose name was taken off, for whoever can't keep a type. Its ends tell which rings a name has to be of for [`UnnamedLive::open`].
pub struct UnnamedLive {
    pub(crate) alloc: Global,
    pub(crate) heap: Heap,
    pub(crate) ready: ReadyIndexes,
    pub(crate) builds: u64,
    pub(crate) build: Option<TableScan>,
    pub(crate) pages: Vec<PagePutter>,
    pub(crate) sides: Vec<SideFile>,
}

impl Drop for UnnamedLive {
    fn drop(self) {
        let UnnamedLive {
            alloc: _,
            heap: _,
            ready: _,
            builds: _,
            build: _,
            pages: _,
            sides: _,
        } = self;
    }
}

impl Model for UnnamedLive {
    ghost use Rattle.ready_indexes.specs.Following.{AllFollow, indexes_of};
    ghost use Rattle.live_lemmas.specs.Builds.{LiveValue};
    ghost use Rattle.table_scan.specs.TableBuilds.{BuildFollows};
    ghost use Rattle.building.specs.Rings.{all_sent, put_rings, AreOfBuilds};
    ghost use Rattle.live_lemmas.specs.Rings.{ArePutEnds, PagesFollow};
    ghost use Rattle.table_scan.specs.SideFiles.{EntriesAreOfBuilds, SidesFollow, put_ends, side_rings};

    ghost Value = { LiveValue };

    ghost view = { λ unnamed. record {
      state = record { heap = unnamed.heap.state; ready = indexes_of unnamed.ready.indexes; builds = unnamed.builds; build = unnamed.build };
      pages = unnamed.pages.items;
      sides = put_ends unnamed.sides.items;
    } };

    ghost invariant = { λ unnamed. AllFollow unnamed.heap.state.schema unnamed.heap.state.log unnamed.ready.indexes
        × BuildFollows unnamed.heap.state.schema unnamed.heap.state.log unnamed.build
        × SidesFollow unnamed.heap.state.log unnamed.build unnamed.sides.items
        × PagesFollow unnamed.heap.state.schema unnamed.heap.state.log unnamed.builds unnamed.build (all_sent unnamed.pages.items)
        × AreOfBuilds unnamed.builds (all_sent unnamed.pages.items)
        × ArePutEnds (put_rings unnamed.pages.items) (side_rings (put_ends unnamed.sides.items)) unnamed.pages.items (put_ends unnamed.sides.items)
        × EntriesAreOfBuilds unnamed.builds (put_ends unnamed.sides.items) };
}

impl UnnamedLive {
    /// Gives it a name. Takes no memory.
    pub fn open<T: TableRings>(self) -> Live<T>
        requires pages { put_rings self.pages ≡ T.pages }
        requires sides { side_rings self.sides ≡ T.sides }
        ensures { result ≡ self }
    {
        let UnnamedLive {
            alloc,
            heap,
            ready,
            builds,
            build,
            pages,
            sides,
        } = self;
        Live {
            alloc,
            heap,
            ready,
            builds,
            build,
            pages,
            sides,
            of: PhantomData,
        }
    }
}
