//! A worker over the pages of a small table.
ghost use Rattle.std.specs.Prelude.{◌≡◌};

use crate::fixtures::table_of;
use crate::merges::{have, maker};
use crate::spools::plain_spool;
use heap_table::{Heap, PageImage};
use keybytes::Fault;
use page_workers::{Copied, Intake, PagePutter, Worker, page_ring};
use run_spool::Spool;
use std::alloc::Global;

/// Puts a copy of a page, for that build.
fn put(heap: &mut Heap, putter: &mut PagePutter, build: u64, page: u32) -> Result<(), Fault>
    ensures { putter.new.ring ≡ putter.old.ring }
{
    let mut image = PageImage::new(heap.allocator())?;
    if page >= heap.pages() || !putter.has_room() {
        return Err(Fault::RingFull);
    }
    heap.copy_page(page, &mut image);
    putter.put(Copied { build, image });
    Ok(())
}

/// Puts copies of both pages, and between them one for another build; takes one, and seals the others.
fn takes_both<S: Spool>(
    heap: &mut Heap,
    putter: &mut PagePutter,
    worker: &mut Worker<S>,
) -> Result<bool, Fault>
    requires { putter.old.ring ≡ worker.old.intake.end.ring }
{
    put(heap, putter, 7, 0)?;
    put(heap, putter, 6, 0)?;
    put(heap, putter, 7, 1)?;
    worker.waiting(putter);
    let first = worker.digest()?;
    let is_open = worker.has_open_run();
    worker.waiting(putter);
    let others = worker.seal()?;
    Ok((first, is_open, others) == (1, true, 1) && has_sealed_both(worker))
}

/// Whether a worker of build 7 took two copies and sealed them, and its spool has one run then, on one page.
fn has_sealed_both<S: Spool>(worker: &mut Worker<S>) -> bool {
    let intake = worker.intake();
    let counts = (intake.build(), intake.taken(), intake.sealed());
    let is_open = worker.has_open_run();
    counts == (7, 2, 2) && !is_open && have(worker.hand_over().as_slice(), (1, 1))
}

/// Whether a worker of build 7 does that over three rows, two a page.
pub fn pages_go_through(alloc: Global) -> Result<bool, Fault> {
    let mut heap = table_of(alloc, 3, 2)?;
    let (mut putter, ring) = page_ring(alloc)?;
    let mut intake = Intake::new(ring);
    intake.restart(&mut putter, 7);
    let maker = maker(alloc, &heap, 1)?;
    if maker.has_open_run() {
        return Ok(false);
    }
    let spools = vec![in alloc; plain_spool(alloc, 1)?]?;
    let mut worker = Worker::new(alloc, 0, intake, maker, spools);
    takes_both(&mut heap, &mut putter, &mut worker)
}
