ghost use Rattle.std.specs.Prelude.{◌≡◌, [], All, None, length, IfOk, IfErr};
ghost use Rattle.building.specs.Rings.{put_rings, take_rings, all_sent, AreOfBuilds};
ghost use Rattle.table_scan.specs.SideFiles.{side_rings, taken_rings, put_ends};

use crate::{Ends, Live, TableRings};
use heap_table::Heap;
use keybytes::Fault;
use page_workers::{Intake, PagePutter, page_ring};
use side_file::{EntryEnd, SideFile};
use std::alloc::Global;
use std::marker::Model;

/// The most workers of a build, and so the number of rings for copies of pages.
pub const WORKERS_MAX: usize = 16;

/// The most indexes of a build, and so the number of rings for entries of side-files.
pub const INDEXES_MAX: usize = 8;

/// A heap with the rings of all builds of its indexes, before the table has a name.
pub struct Parts {
    alloc: Global,
    heap: Heap,
    pages: Vec<PagePutter>,
    intakes: Vec<Intake>,
    sides: Vec<SideFile>,
    side_ends: Vec<EntryEnd>,
}

impl Drop for Parts {
    fn drop(self) {
        let Parts {
            alloc: _,
            heap: _,
            pages: _,
            intakes: _,
            sides: _,
            side_ends: _,
        } = self;
    }
}

impl Model for Parts {
    ghost use Rattle.live_lemmas.specs.Builds.{PartsValue};

    ghost Value = { PartsValue };

    ghost use Rattle.std.specs.Prelude.{◌≡◌, [], All};
    ghost use Rattle.table_scan.specs.SideFiles.{put_ends, side_rings};
    ghost use Rattle.building.specs.Rings.{put_rings, all_sent, AreTakeEnds, AreOfBuilds};
    ghost use Rattle.live_lemmas.specs.Rings.{ArePutEnds};

    ghost view = { λ parts. record {
      heap = parts.heap.state;
      pages = put_rings parts.pages.items;
      sides = side_rings (put_ends parts.sides.items);
    } };

    ghost invariant = { λ parts. ArePutEnds (put_rings parts.pages.items) (side_rings (put_ends parts.sides.items)) parts.pages.items
        (put_ends parts.sides.items)
        × AreTakeEnds (put_rings parts.pages.items) (side_rings (put_ends parts.sides.items)) parts.intakes.items parts.side_ends.items
        × AreOfBuilds 0 (all_sent parts.pages.items)
        × All (λ end. end.sent ≡ []) parts.pages.items × All (λ end. end.sent ≡ []) (put_ends parts.sides.items) };
}

impl Parts {
    /// The rings for a heap, once for all its builds: four copies of pages for each of 16 workers, and 256 entries for each of 8
    /// indexes. Where memory runs out the heap is handed back.
    pub fn new(alloc: Global, heap: Heap) -> Result<Parts, (Heap, Fault)>
        ensures ok { IfOk result (λ parts. parts.heap ≡ heap.state) }
        ensures handed_back { IfErr result (λ back. back.0 ≡ heap) }
        ensures memory { IfErr result (λ back. back.1 ≡ Fault.Memory) }
    {
        let (pages, intakes) = match page_rings(alloc) {
            Ok(rings) => rings,
            Err(fault) => return Err((heap, fault)),
        };
        let (sides, side_ends) = match entry_rings(alloc) {
            Ok(rings) => rings,
            Err(fault) => return Err((heap, fault)),
        };
        Ok(Parts {
            alloc,
            heap,
            pages,
            intakes,
            sides,
            side_ends,
        })
    }

    /// The table as it was handed in.
    pub fn heap(&self) -> &Heap
        ensures { result.now.state ≡ self.now.heap }
    {
        &self.heap
    }

    /// The table under its name, with no index and no build, and the other ends of its rings, which were sent nothing yet.
    pub fn open<T: TableRings>(self) -> (Live<T>, Ends<T>)
        requires pages { self.pages ≡ T.pages }
        requires sides { self.sides ≡ T.sides }
        ensures live { result.0.state ≡ record { heap = self.heap; ready = []; builds = 0; build = None } }
        ensures no_copies { All (λ end. end.sent ≡ []) result.0.pages }
        ensures no_entries { All (λ end. end.sent ≡ []) result.0.sides }
    {
        let Parts {
            alloc,
            heap,
            pages,
            intakes,
            sides,
            side_ends,
        } = self;
        let ends = Ends::new(intakes, side_ends);
        (Live::with_ends(alloc, heap, pages, sides), ends)
    }
}

/// New rings for copies of pages, each with its intake.
fn page_rings(alloc: Global) -> Result<(Vec<PagePutter>, Vec<Intake>), Fault>
    ensures rings { IfOk result (λ rings. put_rings rings.0.items ≡ take_rings rings.1.items) }
    ensures sixteen { IfOk result (λ rings. length rings.0.items ≡ 16) }
    ensures unused { IfOk result (λ rings. AreOfBuilds 0 (all_sent rings.0.items)) }
    ensures no_copies { IfOk result (λ rings. All (λ end. end.sent ≡ []) rings.0.items) }
    ensures memory { IfErr result (λ fault. fault ≡ Fault.Memory) }
{
    let mut pages = Vec::with_capacity(alloc, WORKERS_MAX)?;
    let mut intakes = Vec::with_capacity(alloc, WORKERS_MAX)?;
    for _ in 0..WORKERS_MAX {
        let (putter, end) = page_ring(alloc)?;
        pages.push_reserved(putter);
        intakes.push_reserved(Intake::new(end));
    }
    Ok((pages, intakes))
}

/// New side-files, each with the other end of its ring.
fn entry_rings(alloc: Global) -> Result<(Vec<SideFile>, Vec<EntryEnd>), Fault>
    ensures rings { IfOk result (λ rings. side_rings (put_ends rings.0.items) ≡ taken_rings rings.1.items) }
    ensures eight { IfOk result (λ rings. length rings.0.items ≡ 8) }
    ensures no_entries { IfOk result (λ rings. All (λ end. end.sent ≡ []) (put_ends rings.0.items)) }
    ensures memory { IfErr result (λ fault. fault ≡ Fault.Memory) }
{
    let mut sides = Vec::with_capacity(alloc, INDEXES_MAX)?;
    let mut ends = Vec::with_capacity(alloc, INDEXES_MAX)?;
    for _ in 0..INDEXES_MAX {
        let (side, end) = SideFile::new(alloc)?;
        sides.push_reserved(side);
        ends.push_reserved(end);
    }
    Ok((sides, ends))
}
