//! The loads of all indexes of a build, each by itself: their spools are taken out of the build's, and come back.
ghost use Rattle.std.specs.Prelude.{◌≡◌, ℕ, ◌*◌, ◌<◌, ◌≤◌, [], All, length, map, slice_get, Some, IfOk, IfErr, OnOk, OnErr, vec_capacity};
ghost use Rattle.page_workers.specs.SpoolValue.{spool_value};
ghost use Rattle.index_load.specs.Columns.{column};
ghost use Rattle.index_load.specs.IndexLoad.{IndexLoadValue, IsLoadable, without_spools};
ghost use Rattle.building.specs.Equipped.{HasRoomFor};
ghost use Rattle.building.specs.IndexLoads.{AreHome, first_fault_of, index_from, load_at};

use crate::index_work::IndexWork;
use crate::work::Work;
use index_load::{IndexLoad, move_out, put_back};
use keybytes::Fault;
use run_spool::Spool;
use std::alloc::Global;

/// Puts the spools of all loads back; answers the fault of the first that was refused.
pub(crate) fn take_home<S: Spool>(
    spools: &mut Vec<S>,
    loads: &mut [IndexLoad<S>],
    workers: usize,
) -> Option<Fault>
    requires none { spools.old.items ≡ [] }
    requires own { All (λ load. length load.spools ≡ workers) loads.old }
    requires room { workers * length loads.old ≤ vec_capacity spools.old }
    ensures home { AreHome workers loads.old loads.new result (map (spool_value S.runs S.open_run S.stake) spools.new.items) }
    ensures capacity { vec_capacity spools.old ≤ vec_capacity spools.new }
{
    put_spools_back(spools, loads, workers);
    first_fault(loads)
}

/// Gives each index what its load made.
pub(crate) fn install<S: Spool>(loads: Vec<IndexLoad<S>>, indexes: &mut Vec<IndexWork>)
    requires { length loads.items ≡ length indexes.old.items }
    ensures { indexes.new.items ≡ map index_from loads.items }
{
    let mut loads = loads;
    while let Some(load) = loads.pop() {
        indexes[loads.len()] = IndexWork {
            built: load.into_built(),
            applied: 0,
        };
    }
}

/// So many empty lists, each with room for as many spools.
fn rooms<S: Spool>(alloc: Global, count: usize, workers: usize) -> Result<Vec<Vec<S>>, Fault>
    ensures many { IfOk result (λ rooms. length rooms.items ≡ count) }
    ensures empty { IfOk result (λ rooms. All (HasRoomFor workers) rooms.items) }
    ensures memory { IfErr result (λ fault. fault ≡ Fault.Memory) }
{
    let mut rooms = Vec::with_capacity(alloc, count)?;
    for _ in 0..count {
        rooms.push_reserved(Vec::with_capacity(alloc, workers)?);
    }
    Ok(rooms)
}

/// The loads of all indexes, none of which began, with all spools. Where there is no memory for them the spools stay.
pub(crate) fn take_loads<S: Spool>(
    alloc: Global,
    spools: &mut Vec<S>,
    work: &Work,
    workers: usize,
) -> Result<Vec<IndexLoad<S>>, Fault>
    requires all { length spools.old.items ≡ workers * length work.now.specs }
    requires loadable { (index : ℕ) → index < length work.now.specs
        → IsLoadable (column index (length work.now.specs) (map (spool_value S.runs S.open_run S.stake) spools.old.items)) }
    ensures loads { IfOk result (λ loads. (index : ℕ) → index < length work.now.specs → slice_get loads.items index
        ≡ Some (load_at work.now (map (spool_value S.runs S.open_run S.stake) spools.old.items) index)) }
    ensures many { IfOk result (λ loads. length loads.items ≡ length work.now.specs) }
    ensures none { OnOk result (spools.new.items ≡ []) }
    ensures capacity { vec_capacity spools.new ≡ vec_capacity spools.old }
    ensures room { OnOk result (workers * length work.now.specs ≤ vec_capacity spools.new) }
    ensures unchanged { OnErr result (spools.new ≡ spools.old) }
    ensures memory { IfErr result (λ fault. fault ≡ Fault.Memory) }
{
    let count = work.specs.len();
    let loads = Vec::with_capacity(alloc, count)?;
    let rooms = rooms(alloc, count, workers)?;
    Ok(fill_loads(alloc, loads, rooms, spools, work, workers))
}

/// The same with room for the loads and for their spools.
fn fill_loads<S: Spool>(
    alloc: Global,
    loads: Vec<IndexLoad<S>>,
    rooms: Vec<Vec<S>>,
    spools: &mut Vec<S>,
    work: &Work,
    workers: usize,
) -> Vec<IndexLoad<S>>
    requires begun { loads.items ≡ [] }
    requires places { length work.now.specs ≤ vec_capacity loads }
    requires rooms { length rooms.items ≡ length work.now.specs }
    requires empty { All (HasRoomFor workers) rooms.items }
    requires all { length spools.old.items ≡ workers * length work.now.specs }
    requires loadable { (index : ℕ) → index < length work.now.specs
        → IsLoadable (column index (length work.now.specs) (map (spool_value S.runs S.open_run S.stake) spools.old.items)) }
    ensures loads { (index : ℕ) → index < length work.now.specs → slice_get result.items index
        ≡ Some (load_at work.now (map (spool_value S.runs S.open_run S.stake) spools.old.items) index) }
    ensures many { length result.items ≡ length work.now.specs }
    ensures none { spools.new.items ≡ [] }
    ensures capacity { vec_capacity spools.new ≡ vec_capacity spools.old }
{
    let mut loads = loads;
    let mut rooms = rooms;
    let count = work.specs.len();
    for index in 0..count {
        let Some(own) = rooms.pop() else {
            unreachable!()
        };
        let own = move_out(own, spools, 0, count - index, workers);
        let unique = work.specs[index].unique();
        loads.push_reserved(IndexLoad::new(alloc, work.build, unique, own));
    }
    loads
}

/// Puts the spools of all loads back, in the order in which they were taken. There is room for them.
fn put_spools_back<S: Spool>(spools: &mut Vec<S>, loads: &mut [IndexLoad<S>], workers: usize)
    requires none { spools.old.items ≡ [] }
    requires own { All (λ load. length load.spools ≡ workers) loads.old }
    requires room { workers * length loads.old ≤ vec_capacity spools.old }
    ensures columns { (index : ℕ) (load : IndexLoadValue) → slice_get loads.old index ≡ Some load
        → column index (length loads.old) (map (spool_value S.runs S.open_run S.stake) spools.new.items) ≡ load.spools }
    ensures many { length spools.new.items ≡ workers * length loads.old }
    ensures loads { loads.new ≡ map without_spools loads.old }
    ensures capacity { vec_capacity spools.old ≤ vec_capacity spools.new }
{
    let count = loads.len();
    for back in 0..count {
        let own = loads[count - 1 - back].take_spools();
        put_back(spools, own, 0, back + 1, workers);
    }
}

/// The fault of the first load that was refused.
fn first_fault<S: Spool>(loads: &[IndexLoad<S>]) -> Option<Fault>
    ensures { result ≡ first_fault_of loads.now }
{
    for load in loads {
        if let Some(fault) = load.fault() {
            return Some(fault);
        }
    }
    None
}
