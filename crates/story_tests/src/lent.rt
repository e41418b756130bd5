//! Workers that are lent, as threads are: each looks into its ring and takes what it sees there, by itself.
ghost use Rattle.std.specs.Prelude.{◌≡◌, List, true};
ghost use Rattle.side_file.specs.Ends.{RingId};
ghost use Rattle.page_workers.specs.WorkerValue.{SameWorker};
ghost use Rattle.building.specs.BuildingValue.{BuildingValue};
ghost use Rattle.building.specs.Lent.{AreBack, CanLend};

use crate::halves::{BACK, Plans, Told, first_other, scanned, started};
use crate::list_spool::Lists;
use crate::rows::row;
use builder_core::{Building, Ends, Live, TableRings, Worker};
use heap_table::PageImage;
use keybytes::{Fault, Rid};
use std::alloc::Global;

/// What is done with the table while the workers are lent, or by one of them by itself.
enum Lent {
    /// The next page of that range, for that worker.
    Scan(usize, usize),
    /// The row at 0.0 becomes another.
    Update(i64),
    Look(usize),
    Digest(usize),
    Seal(usize),
}

/// The second worker gets a page of the first one's range too, once the row at 0.0 was copied and changed.
static LENT: [(Lent, Told); 19] = [
    (Lent::Look(0), Ok(0)),
    (Lent::Scan(0, 0), Ok(0)),
    (Lent::Digest(0), Ok(0)),
    (Lent::Look(0), Ok(1)),
    (Lent::Look(0), Ok(1)),
    (Lent::Digest(0), Ok(1)),
    (Lent::Digest(0), Ok(0)),
    (Lent::Scan(1, 1), Ok(2)),
    (Lent::Scan(1, 1), Ok(3)),
    (Lent::Look(1), Ok(2)),
    (Lent::Digest(1), Ok(1)),
    (Lent::Update(8), Ok(10)),
    (Lent::Update(9), Ok(12)),
    (Lent::Scan(0, 1), Ok(1)),
    (Lent::Seal(1), Ok(1)),
    (Lent::Look(1), Ok(1)),
    (Lent::Seal(1), Ok(1)),
    (Lent::Seal(0), Ok(0)),
    (Lent::Look(0), Ok(0)),
];

fn by_worker(worker: &mut Worker<Lists>, what: &Lent) -> Told
    ensures { SameWorker worker.old worker.new }
{
    match what {
        Lent::Look(_) => Ok(worker.look()),
        Lent::Digest(_) => worker.digest(),
        Lent::Seal(_) => worker.seal(),
        _ => Err(Fault::BadCount),
    }
}

fn by_one(workers: &mut Vec<Worker<Lists>>, number: usize, what: &Lent) -> Told
    ensures { (rings : List RingId) (rest : BuildingValue) → AreBack rings rest workers.old.items → AreBack rings rest workers.new.items }
{
    if number >= workers.len() {
        return Err(Fault::BadCount);
    }
    by_worker(&mut workers[number], what)
}

fn updated<T: TableRings>(alloc: Global, live: &mut Live<T>, number: i64) -> Told {
    let txn = live.begin()?;
    live.update(txn, Rid { page: 0, slot: 0 }, row(alloc, number, 0)?)?;
    live.commit(txn)
}

fn does_while_lent<T: TableRings>(
    alloc: Global,
    live: &mut Live<T>,
    workers: &mut Vec<Worker<Lists>>,
    what: &Lent,
) -> Told
    ensures { (rings : List RingId) (rest : BuildingValue) → AreBack rings rest workers.old.items → AreBack rings rest workers.new.items }
{
    match what {
        Lent::Scan(range, worker) => scanned(live, *range, *worker, PageImage::new(alloc)?),
        Lent::Update(number) => updated(alloc, live, *number),
        Lent::Look(number) | Lent::Digest(number) | Lent::Seal(number) => {
            by_one(workers, *number, what)
        }
    }
}

/// The number of the first case that is answered otherwise while they are lent.
fn other_while_lent<T: TableRings>(
    alloc: Global,
    live: &mut Live<T>,
    workers: &mut Vec<Worker<Lists>>,
) -> Option<usize>
    ensures { (rings : List RingId) (rest : BuildingValue) → AreBack rings rest workers.old.items → AreBack rings rest workers.new.items }
{
    for number in 0..LENT.len() {
        let (what, told) = &LENT[number];
        if does_while_lent(alloc, live, workers, what) != *told {
            return Some(number);
        }
    }
    None
}

/// Whether a build goes on whose workers have their spools.
fn can_lend<T: TableRings>(building: &Building<Lists, T>) -> bool
    ensures { result ≡ true → CanLend building.now }
{
    match building.work() {
        Some(work) => work.check().is_ok() && !work.is_loading(),
        None => false,
    }
}

/// Lends the workers, and takes them back: the first case that is answered otherwise meanwhile.
fn lend_and_gather<T: TableRings>(
    alloc: Global,
    live: &mut Live<T>,
    building: Building<Lists, T>,
) -> (Building<Lists, T>, Option<usize>)
    requires { CanLend building }
{
    let (mut workers, rest) = building.lend();
    let other = other_while_lent(alloc, live, &mut workers);
    (rest.gather(workers), other)
}

/// The first case that is answered otherwise in a build by two workers, or behind those the first one once they are
/// back.
pub fn lent_of<T: TableRings>(
    alloc: Global,
    live: Live<T>,
    ends: Ends<T>,
    spools: Vec<Lists>,
    plans: &Plans,
) -> Option<usize> {
    let mut live = live;
    let mut building = Building::new(ends, spools);
    let started = started(&mut live, &mut building, &plans.plan);
    if !can_lend(&building) {
        building.into_parts();
        return started.ok();
    }
    let (mut building, other) = lend_and_gather(alloc, &mut live, building);
    let later = first_other(alloc, &mut live, &mut building, plans, &BACK);
    building.into_parts();
    other.or(later.map(|number| number.saturating_add(100)))
}
