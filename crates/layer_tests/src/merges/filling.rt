//! The spools of a table's pairs.
ghost use Rattle.std.specs.Prelude.{◌≡◌, All, OnOk, IfOk, map, length};
ghost use Rattle.run_spool.specs.Spools.{AreSorted};
ghost use Rattle.run_maker.specs.Making.{AreReady};
ghost use Rattle.run_merge.specs.Merging.{all_runs};

use crate::fixtures::UP;
use heap_table::{Heap, PageImage};
use keybytes::{Fault, KeySpec};
use run_maker::Maker;
use run_spool::Spool;
use std::alloc::Global;

/// A maker of the pairs of as many indexes on the first column.
pub fn maker(alloc: Global, heap: &Heap, indexes: usize) -> Result<Maker, Fault>
    ensures schema { IfOk result (λ maker. maker.schema ≡ heap.now.state.schema) }
    ensures specs { IfOk result (λ maker. length maker.specs ≡ indexes) }
{
    let schema = heap.schema();
    let mut specs = Vec::new(alloc);
    for _ in 0..indexes {
        specs.push(KeySpec::new(alloc, schema, vec![in alloc; UP]?, false)?)?;
    }
    Maker::new(alloc, schema.clone()?, specs)
}

/// Takes a copy of a page, and spools what it left in no run if asked.
fn take_page<S: Spool>(
    heap: &mut Heap,
    page: u32,
    seals: bool,
    maker: &mut Maker,
    spools: &mut [S],
) -> Result<(), Fault>
    requires columns { maker.old.schema ≡ heap.old.state.schema }
    requires spools { length spools.old ≡ length maker.old.specs }
    requires ready { AreReady (map S.runs spools.old) (map S.open_run spools.old) }
    ensures ready { OnOk result (AreReady (map S.runs spools.new) (map S.open_run spools.new)) }
    ensures sorted { All AreSorted (map S.runs spools.old) → All AreSorted (map S.runs spools.new) }
    ensures stakes { map S.stake spools.new ≡ map S.stake spools.old }
    ensures columns { maker.new.schema ≡ heap.new.state.schema }
    ensures specs { maker.new.specs ≡ maker.old.specs }
{
    let mut image = PageImage::new(heap.allocator())?;
    if page >= heap.pages() {
        return Err(Fault::BadCount);
    }
    heap.copy_page(page, &mut image);
    maker.take(image, spools)?;
    if !seals {
        return Ok(());
    }
    maker.seal(spools)
}

/// Takes a copy of each page; with `seals` what is in no run is spooled after each, so that each page makes a run.
fn take_pages<S: Spool>(
    heap: &mut Heap,
    seals: bool,
    maker: &mut Maker,
    spools: &mut [S],
) -> Result<(), Fault>
    requires columns { maker.old.schema ≡ heap.old.state.schema }
    requires spools { length spools.old ≡ length maker.old.specs }
    requires ready { AreReady (map S.runs spools.old) (map S.open_run spools.old) }
    ensures ready { OnOk result (AreReady (map S.runs spools.new) (map S.open_run spools.new)) }
    ensures sorted { All AreSorted (map S.runs spools.old) → All AreSorted (map S.runs spools.new) }
    ensures stakes { map S.stake spools.new ≡ map S.stake spools.old }
    ensures specs { maker.new.specs ≡ maker.old.specs }
{
    for page in 0..heap.pages() {
        take_page(heap, page, seals, maker, spools)?;
    }
    Ok(())
}

/// Spools the pairs of a table, and answers whether some were in no run before the last seal.
pub fn fill<S: Spool>(
    alloc: Global,
    heap: &mut Heap,
    seals: bool,
    spools: &mut [S],
) -> Result<bool, Fault>
    requires ready { AreReady (map S.runs spools.old) (map S.open_run spools.old) }
    requires sorted { All AreSorted (map S.runs spools.old) }
    ensures { OnOk result (AreSorted (all_runs (map S.runs spools.new))) }
{
    let mut maker = maker(alloc, heap, spools.len())?;
    take_pages(heap, seals, &mut maker, spools)?;
    let opens = maker.has_open_run();
    maker.seal(spools)?;
    Ok(opens && !maker.has_open_run())
}
