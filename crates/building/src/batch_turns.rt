//! The batches of a build's indexes side by side.
ghost use Rattle.std.specs.Prelude.{◌≡◌, ◌++◌, ◌+◌, ◌<◌, ◌≤◌, ◌∷◌, [], length, map, vec_len, vec_capacity, IsSome, IfOk, IfErr};
ghost use Rattle.std.specs.List.{All, AllZip};
ghost use Rattle.table_scan.specs.SideFiles.{taken_rings};
ghost use Rattle.building.specs.Batches.{AreApplied};
ghost use Rattle.building.specs.BatchTurns.{HasTurned, HaveTotal};

use crate::index_work::IndexWork;
use catch_up::Pace;
use keybytes::Fault;
use rayon::slice::par_for_each_mut;
use side_file::EntryEnd;
use std::alloc::Global;
use std::thread::Threads;

/// An index with the end of its side-file's ring, while a thread applies what waits there.
#[derive(Drop)]
pub struct IndexTurn {
    pub work: IndexWork,
    pub end: EntryEnd,
    /// How many entries were applied.
    pub told: Result<usize, Fault>,
}

impl IndexTurn {
    /// Looks into the ring, and applies all entries that it has as one batch.
    fn run<P: Pace>(&mut self, alloc: Global, pace: &P)
        requires { IsSome self.old.work.built }
        ensures { HasTurned self.old self.new }
    {
        self.end.look();
        self.told = self.work.apply_batch(alloc, &mut self.end, pace);
    }
}

/// Applies to each of the indexes all entries that its ring has, side by side, and answers how many these are together. Each index has the end at
/// its place. Where memory is wanted for the turns nothing is changed, and else nothing is known of the indexes.
pub fn apply_all<R: Threads + Sync, P: Pace + Sync>(
    rt: &R,
    alloc: Global,
    pace: &P,
    indexes: &mut Vec<IndexWork>,
    ends: &mut Vec<EntryEnd>,
) -> Result<usize, Fault>
    requires many { length indexes.old.items ≤ length ends.old.items }
    requires loaded { All (λ it. IsSome it.built) indexes.old.items }
    ensures applied { IfOk result (λ count. AreApplied indexes.old.items ends.old.items count indexes.new.items ends.new.items) }
    ensures rings { taken_rings ends.new.items ≡ taken_rings ends.old.items }
    ensures many { length indexes.new.items ≡ length indexes.old.items }
    ensures memory { IfErr result (λ fault. fault ≡ Fault.Memory) }
{
    let mut turns = Vec::with_capacity(alloc, indexes.len())?;
    apply_reserved(rt, alloc, pace, indexes, ends, &mut turns)
}

/// The same with room for the turns.
fn apply_reserved<R: Threads + Sync, P: Pace + Sync>(
    rt: &R,
    alloc: Global,
    pace: &P,
    indexes: &mut Vec<IndexWork>,
    ends: &mut Vec<EntryEnd>,
    turns: &mut Vec<IndexTurn>,
) -> Result<usize, Fault>
    requires none { turns.old.items ≡ [] }
    requires room { vec_len indexes.old ≤ vec_capacity turns.old }
    requires many { length indexes.old.items ≤ length ends.old.items }
    requires loaded { All (λ it. IsSome it.built) indexes.old.items }
    ensures applied { IfOk result (λ count. AreApplied indexes.old.items ends.old.items count indexes.new.items ends.new.items) }
    ensures rings { taken_rings ends.new.items ≡ taken_rings ends.old.items }
    ensures many { length indexes.new.items ≡ length indexes.old.items }
    ensures memory { IfErr result (λ fault. fault ≡ Fault.Memory) }
{
    take_out(indexes, ends, turns);
    run_all(rt, alloc, pace, turns.as_mut_slice());
    let told = total(turns);
    put_back(indexes, ends, turns);
    told
}

/// Lets all turns run, each in a thread where there is a processor for it.
fn run_all<R: Threads + Sync, P: Pace + Sync>(
    rt: &R,
    alloc: Global,
    pace: &P,
    turns: &mut [IndexTurn],
)
    requires { All (λ turn. IsSome turn.work.built) turns.old }
    ensures { AllZip HasTurned turns.old turns.new }
{
    par_for_each_mut(
        rt,
        turns,
        |_place: usize, turn: &mut IndexTurn|
            requires { IsSome turn.old.work.built }
            ensures { HasTurned turn.old turn.new }
        {
            turn.run(alloc, pace);
        },
    );
}

/// How many entries all turns applied together, if each applied its own. [`Fault::Memory`] is also the answer where `usize` doesn't count them.
fn total(turns: &[IndexTurn]) -> Result<usize, Fault>
    requires { All (λ turn. IfErr turn.told (λ fault. fault ≡ Fault.Memory)) turns.now }
    ensures total { IfOk result (λ count. HaveTotal count turns.now) }
    ensures memory { IfErr result (λ fault. fault ≡ Fault.Memory) }
{
    let mut count: usize = 0;
    for turn in turns {
        let more = turn.told?;
        let Some(both) = count.checked_add(more) else {
            return Err(Fault::Memory);
        };
        count = both;
    }
    Ok(count)
}

/// Takes each index out, with the end at its place. There is room for the turns.
fn take_out(indexes: &mut Vec<IndexWork>, ends: &mut Vec<EntryEnd>, turns: &mut Vec<IndexTurn>)
    requires none { turns.old.items ≡ [] }
    requires room { vec_len indexes.old ≤ vec_capacity turns.old }
    requires many { length indexes.old.items ≤ length ends.old.items }
    ensures indexes { map (λ turn. turn.work) turns.new.items ≡ indexes.old.items }
    ensures ends { map (λ turn. turn.end) turns.new.items ++ ends.new.items ≡ ends.old.items }
    ensures none { indexes.new.items ≡ [] }
    ensures indexes_room { vec_capacity indexes.new ≡ vec_capacity indexes.old }
    ensures ends_room { vec_capacity ends.new ≡ vec_capacity ends.old }
{
    while !indexes.is_empty() {
        turns.push_reserved(IndexTurn {
            work: take_first(indexes),
            end: take_first(ends),
            told: Ok(0),
        });
    }
}

/// Puts each index back, and the end of its ring before the others. There is room for both.
fn put_back(indexes: &mut Vec<IndexWork>, ends: &mut Vec<EntryEnd>, turns: &mut Vec<IndexTurn>)
    requires none { indexes.old.items ≡ [] }
    requires indexes_room { vec_len turns.old ≤ vec_capacity indexes.old }
    requires ends_room { vec_len turns.old + vec_len ends.old ≤ vec_capacity ends.old }
    ensures indexes { indexes.new.items ≡ map (λ turn. turn.work) turns.old.items }
    ensures ends { ends.new.items ≡ map (λ turn. turn.end) turns.old.items ++ ends.old.items }
{
    while let Some(turn) = turns.pop() {
        let IndexTurn { work, end, told: _ } = turn;
        put_first(indexes, work);
        put_first(ends, end);
    }
}

/// Takes the first out.
fn take_first<T>(list: &mut Vec<T>) -> T
    requires { 0 < vec_len list.old }
    ensures items { list.old.items ≡ result ∷ list.new.items }
    ensures capacity { vec_capacity list.new ≡ vec_capacity list.old }
{
    list.remove(0)
}

/// Puts one before the others. There is room for it.
fn put_first<T: Drop>(list: &mut Vec<T>, it: T)
    requires { vec_len list.old < vec_capacity list.old }
    ensures items { list.new.items ≡ it ∷ list.old.items }
    ensures capacity { vec_capacity list.old ≤ vec_capacity list.new }
{
    let Ok(()) = list.insert(0, it) else {
        unreachable!()
    };
}
