//! What the workers of a build begin with.
ghost use Rattle.std.specs.Prelude.{◌≡◌, ◌≤◌, ◌<◌, ◌+◌, ◌*◌, ◌++◌, [], All, map, take, drop, length, vec_capacity, false, IfOk, IfErr};
ghost use Rattle.std.specs.Vec.Iter.{into_iter_items};
ghost use Rattle.page_workers.specs.SpoolValue.{spool_value};
ghost use Rattle.building.specs.BuildingValue.{intakes};
ghost use Rattle.building.specs.Holding.{fresh_maker, workers_spools};
ghost use Rattle.building.specs.Equipped.{HasOneMore, HasOwnSpools, HasRoomFor, IsFresh, IsNewMaker};
ghost use Rattle.building.specs.Keeping.{AreWorkers};

use crate::work::Work;
use keybytes::{Fault, KeySpec, Schema, copied_specs};
use page_workers::{Intake, Worker};
use run_maker::Maker;
use run_spool::Spool;
use std::alloc::Global;
use std::vec::IntoIter;

/// What a worker is given at the start of its build: its maker, and room for its spools.
#[derive(Drop)]
pub struct Equipment<S: Spool> {
    maker: Maker,
    spools: Vec<S>,
}

/// What each of so many workers of a build of these indexes is given.
pub fn prepare<S: Spool>(
    alloc: Global,
    schema: &Schema,
    specs: &[KeySpec],
    workers: usize,
) -> Result<Vec<Equipment<S>>, Fault>
    requires { All (λ spec. spec.kinds ≡ schema.now) specs.now }
    ensures many { IfOk result (λ all. length all.items ≡ workers) }
    ensures makers { IfOk result (λ all. All (λ it. it.maker ≡ fresh_maker schema.now specs.now) all.items) }
    ensures room { IfOk result (λ all. All (λ it. HasRoomFor (length specs.now) it.spools) all.items) }
    ensures memory { IfErr result (λ fault. fault ≡ Fault.Memory) }
{
    let mut all = Vec::with_capacity(alloc, workers)?;
    for _ in 0..workers {
        all.push_reserved(one(alloc, schema, specs)?);
    }
    Ok(all)
}

/// What one worker is given.
fn one<S: Spool>(alloc: Global, schema: &Schema, specs: &[KeySpec]) -> Result<Equipment<S>, Fault>
    requires { All (λ spec. spec.kinds ≡ schema.now) specs.now }
    ensures maker { IfOk result (λ it. it.maker ≡ fresh_maker schema.now specs.now) }
    ensures room { IfOk result (λ it. HasRoomFor (length specs.now) it.spools) }
    ensures memory { IfErr result (λ fault. fault ≡ Fault.Memory) }
{
    let own = copied_specs(alloc, specs)?;
    Ok(Equipment {
        maker: Maker::new(alloc, schema.clone()?, own)?,
        spools: Vec::with_capacity(alloc, specs.len())?,
    })
}

/// Makes the workers for this work, numbered from 0: each gets the next ring, and as many of the spools as there are indexes. The
/// rings have been emptied for the build, and the spools are empty. Takes no memory.
pub fn equip<S: Spool>(
    alloc: Global,
    work: &Work,
    equipment: Vec<Equipment<S>>,
    spools: Vec<S>,
    idle: &mut Vec<Intake>,
    workers: &mut Vec<Worker<S>>,
)
    requires none { workers.old.items ≡ [] }
    requires room { length equipment.items ≤ vec_capacity workers.old }
    requires enough { length equipment.items ≤ length idle.old.items }
    requires fresh { All (IsFresh work.now.build) idle.old.items }
    requires makers { All (λ it. IsNewMaker work.now.specs it.maker) equipment.items }
    requires rooms { All (λ it. HasRoomFor (length work.now.specs) it.spools) equipment.items }
    requires many { length spools.items ≡ length equipment.items * length work.now.specs }
    requires empty { All (λ spool. (S.runs spool ≡ []) × (S.open_run spool ≡ [])) spools.items }
    ensures intakes { intakes workers.new.items idle.new.items ≡ idle.old.items }
    ensures idle_room { vec_capacity idle.new ≡ vec_capacity idle.old }
    ensures makers { map (λ worker. worker.maker) workers.new.items ≡ map (λ it. it.maker) equipment.items }
    ensures lent { workers_spools workers.new.items ≡ map (spool_value S.runs S.open_run S.stake) spools.items }
    ensures own { All (HasOwnSpools work.now.specs) workers.new.items }
    ensures workers { AreWorkers work.now.build work.now.specs false workers.new.items }
{
    let mut rest = spools.into_iter();
    for it in equipment {
        add_one(alloc, work, it, &mut rest, idle, workers);
    }
}

/// Makes the next worker.
fn add_one<S: Spool>(
    alloc: Global,
    work: &Work,
    it: Equipment<S>,
    rest: &mut IntoIter<S>,
    idle: &mut Vec<Intake>,
    workers: &mut Vec<Worker<S>>,
)
    requires next { 0 < length idle.old.items }
    requires fresh { All (IsFresh work.now.build) idle.old.items }
    requires room { length workers.old.items < vec_capacity workers.old }
    requires maker { IsNewMaker work.now.specs it.maker }
    requires own { HasRoomFor (length work.now.specs) it.spools }
    requires there { length work.now.specs ≤ length (into_iter_items rest.old) }
    requires empty { All (λ spool. (S.runs spool ≡ []) × (S.open_run spool ≡ [])) (into_iter_items rest.old) }
    ensures intakes { intakes workers.new.items idle.new.items ≡ intakes workers.old.items idle.old.items }
    ensures more { HasOneMore work.now.build work.now.specs it.maker workers.old.items workers.new.items }
    ensures lent { workers_spools workers.new.items ++ map (spool_value S.runs S.open_run S.stake) (into_iter_items rest.new)
        ≡ workers_spools workers.old.items ++ map (spool_value S.runs S.open_run S.stake) (into_iter_items rest.old) }
    ensures rest { into_iter_items rest.new ≡ drop (length work.now.specs) (into_iter_items rest.old) }
    ensures idle { idle.new.items ≡ drop 1 idle.old.items }
    ensures idle_room { vec_capacity idle.new ≡ vec_capacity idle.old }
    ensures room { vec_capacity workers.new ≡ vec_capacity workers.old }
{
    let Equipment {
        maker,
        spools: mut own,
    } = it;
    lend(&mut own, rest, work.specs.len());
    let number = workers.len();
    let intake = idle.remove(0);
    workers.push_reserved(Worker::new(alloc, number, intake, maker, own));
}

/// Moves the next so many spools to those of a worker.
fn lend<S: Spool>(own: &mut Vec<S>, rest: &mut IntoIter<S>, count: usize)
    requires none { own.old.items ≡ [] }
    requires room { count ≤ vec_capacity own.old }
    requires there { count ≤ length (into_iter_items rest.old) }
    ensures own { own.new.items ≡ take count (into_iter_items rest.old) }
    ensures rest { into_iter_items rest.new ≡ drop count (into_iter_items rest.old) }
{
    for _ in 0..count {
        let Some(spool) = rest.next() else {
            unreachable!()
        };
        own.push_reserved(spool);
    }
}
