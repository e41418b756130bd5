//! All entries that wait together, in the order of their pairs.
ghost use Rattle.std.specs.Prelude.{◌≡◌, ◌⊎◌, ◌+◌, ◌<◌, ◌≤◌, true, [], ◌++◌, ◌∷◌, length, is_some, vec_len, vec_capacity, IfOk, OnOk, OnErr, IfErr};
ghost use Rattle.std.specs.FinSet.{FinSet};
ghost use Rattle.keybytes.specs.Pairs.{pair_cmp, set_of};
ghost use Rattle.btree.specs.Changes.{changed, changed_by, AreInOrder};
ghost use Rattle.unique_verdict.specs.Shared.{shared_of};
ghost use Rattle.catch_up.specs.Applying.{Applied, TakesKnown};
ghost use Rattle.catch_up.specs.Batches.{change_of, changes_to, head_of};
ghost use Rattle.catch_up.specs.Built.{Tallies};

use crate::Built;
use crate::pace::Pace;
use btree::{Change, Tree};
use keybytes::{Fault, Key, Pair};
use side_file::{Entry, EntryEnd, Op};
use std::alloc::Global;
use std::collections::VecDeque;
use unique_verdict::Tally;

/// How many changes are made before it is told.
const PORTION: usize = 1024;

/// Takes all entries out that the ring is known to have, and applies those of the index's build, in the order of their pairs. Answers
/// how many it took. An index that keeps no tally goes down to each leaf about once. `pace` is told after each 1,024 that were applied, and
/// holds up the batch as long as it likes. [`Fault::Memory`] is also wanted for the batch and for its sort. Where it is refused the entries may be
/// lost, and the index is of no more use.
pub fn apply_batch<P: Pace>(
    alloc: Global,
    built: &mut Built,
    end: &mut EntryEnd,
    pace: &P,
) -> Result<usize, Fault>
    ensures taken { OnOk result (TakesKnown end.old end.new) }
    ensures applied { OnOk result (Applied end.old.known built.old built.new) }
    ensures count { IfOk result (λ count. count ≡ length end.old.known) }
    ensures build { built.new.build ≡ built.old.build }
    ensures unique { built.new.unique ≡ built.old.unique }
    ensures stopped { OnErr result ((end.new ≡ end.old) ⊎ TakesKnown end.old end.new) }
    ensures memory { IfErr result (λ fault. fault ≡ Fault.Memory) }
{
    let count = end.known();
    let mut batch = take_batch(alloc, built.build(), end)?;
    sort_batch(&mut batch)?;
    built.make_all(VecDeque::from_vec(batch), pace)?;
    Ok(count)
}

/// Takes all entries out that the ring is known to have. Answers the changes of those of that build, in order.
fn take_batch(alloc: Global, build: u64, end: &mut EntryEnd) -> Result<Vec<Change>, Fault>
    ensures taken { OnOk result (TakesKnown end.old end.new) }
    ensures changes { IfOk result (λ batch. batch.items ≡ changes_to build end.old.known) }
    ensures unchanged { OnErr result (end.new ≡ end.old) }
    ensures memory { IfErr result (λ fault. fault ≡ Fault.Memory) }
{
    let count = end.known();
    let mut batch = Vec::with_capacity(alloc, count)?;
    for _ in 0..count {
        add(&mut batch, build, end.pop());
    }
    Ok(batch)
}

/// Adds the change of an entry, if it is of that build.
fn add(batch: &mut Vec<Change>, build: u64, entry: Entry)
    requires { vec_len batch.old < vec_capacity batch.old }
    ensures changes { batch.new.items ≡ batch.old.items ++ changes_to build (entry ∷ []) }
    ensures len { vec_len batch.new ≤ vec_len batch.old + 1 }
    ensures capacity { vec_capacity batch.new ≡ vec_capacity batch.old }
{
    if entry.build == build {
        batch.push_reserved(change(entry));
    }
}

fn change(entry: Entry) -> Change
    ensures { result ≡ change_of entry }
{
    let Entry { op, key, rid, .. } = entry;
    Change {
        puts_in: matches!(op, Op::Insert),
        pair: Pair { key, rid },
    }
}

/// Puts changes into the order of their pairs; those of one pair stay in their order. What they make of a set of pairs stays the same.
fn sort_batch(batch: &mut Vec<Change>) -> Result<(), Fault>
    ensures same { (pairs : FinSet pair_cmp) → changed batch.new.items pairs ≡ changed batch.old.items pairs }
    ensures order { OnOk result (AreInOrder batch.new.items) }
    ensures memory { IfErr result (λ fault. fault ≡ Fault.Memory) }
{
    bring_near(batch);
    let sorted = batch.sort_by(|a, b| {
        a.pair
            .key
            .cmp(&b.pair.key)
            .then(a.pair.rid.cmp(&b.pair.rid))
    });
    match sorted {
        Ok(()) => Ok(()),
        Err(_) => Err(Fault::Memory),
    }
}

/// Brings changes near the order of their pairs, by numbers, which are compared much faster than keys: the sort of the pairs then mostly finds
/// them in order. Where there is no memory for the numbers, nothing is moved.
fn bring_near(batch: &mut Vec<Change>)
    ensures { (pairs : FinSet pair_cmp) → changed batch.new.items pairs ≡ changed batch.old.items pairs }
{
    let _ = batch.sort_by_cached_key(|change| head(&change.pair.key));
}

/// The number that the eight bytes behind the first one make, which is mostly the same one for all keys; 0 where the key is too short.
fn head(key: &Key) -> u64
    ensures { result ≡ head_of key.now }
{
    let Some((_, rest)) = key.bytes().split_first() else {
        return 0;
    };
    match rest.split_first_chunk::<8>() {
        Some((head, _)) => u64::from_be_bytes(*head),
        None => 0,
    }
}

/// Makes the changes, from the first to the last, and tells the tally of each, if one is kept. The pace is told after each portion.
pub fn make_all<P: Pace>(
    tree: &mut Tree,
    tally: &mut Option<Tally>,
    changes: &mut VecDeque<Change>,
    pace: &P,
) -> Result<(), Fault>
    requires { Tallies tally.old (set_of tree.old.pairs) }
    ensures tallies { Tallies tally.new (set_of tree.new.pairs) }
    ensures kept { is_some tally.new ≡ is_some tally.old }
    ensures made { OnOk result (set_of tree.new.pairs ≡ changed changes.old.items (set_of tree.old.pairs)) }
    ensures memory { IfErr result (λ fault. fault ≡ Fault.Memory) }
{
    while !changes.is_empty() {
        let count = changes.len().min(PORTION);
        make_portion(tree, tally, changes, count)?;
        pace.applied(count);
    }
    Ok(())
}

/// Makes the first `count` changes, and tells the tally of each, if one is kept.
fn make_portion(
    tree: &mut Tree,
    tally: &mut Option<Tally>,
    changes: &mut VecDeque<Change>,
    count: usize,
) -> Result<(), Fault>
    requires tallies { Tallies tally.old (set_of tree.old.pairs) }
    requires there { count ≤ length changes.old.items }
    ensures tallies { Tallies tally.new (set_of tree.new.pairs) }
    ensures kept { is_some tally.new ≡ is_some tally.old }
    ensures made { changed changes.new.items (set_of tree.new.pairs) ≡ changed changes.old.items (set_of tree.old.pairs) }
    ensures all { OnOk result (length changes.new.items + count ≡ length changes.old.items) }
    ensures memory { IfErr result (λ fault. fault ≡ Fault.Memory) }
{
    match tally {
        Some(tally) => make_tallied(tree, tally, changes, count),
        None => tree.apply_sorted(changes, count),
    }
}

/// Makes the first `count` changes one by one, and tells the tally of each.
fn make_tallied(
    tree: &mut Tree,
    tally: &mut Tally,
    changes: &mut VecDeque<Change>,
    count: usize,
) -> Result<(), Fault>
    requires tallies { tally.old ≡ shared_of (set_of tree.old.pairs) }
    requires there { count ≤ length changes.old.items }
    ensures tallies { tally.new ≡ shared_of (set_of tree.new.pairs) }
    ensures made { changed changes.new.items (set_of tree.new.pairs) ≡ changed changes.old.items (set_of tree.old.pairs) }
    ensures all { OnOk result (length changes.new.items + count ≡ length changes.old.items) }
    ensures memory { IfErr result (λ fault. fault ≡ Fault.Memory) }
{
    for _ in 0..count {
        make_first(tree, tally, changes)?;
    }
    Ok(())
}

/// Makes the first change, and tells the tally of it.
fn make_first(
    tree: &mut Tree,
    tally: &mut Tally,
    changes: &mut VecDeque<Change>,
) -> Result<(), Fault>
    requires some { 0 < length changes.old.items }
    requires tallies { tally.old ≡ shared_of (set_of tree.old.pairs) }
    ensures tallies { tally.new ≡ shared_of (set_of tree.new.pairs) }
    ensures made { changed changes.new.items (set_of tree.new.pairs) ≡ changed changes.old.items (set_of tree.old.pairs) }
    ensures one { OnOk result (length changes.old.items ≡ length changes.new.items + 1) }
    ensures memory { IfErr result (λ fault. fault ≡ Fault.Memory) }
{
    let Some(next) = changes.front() else {
        unreachable!()
    };
    tell(tree, tally, next)?;
    let Some(change) = changes.pop_front() else {
        unreachable!()
    };
    make(tree, change);
    Ok(())
}

/// Makes room for a change, and tells the tally of it.
fn tell(tree: &mut Tree, tally: &mut Tally, next: &Change) -> Result<(), Fault>
    requires { tally.old ≡ shared_of (set_of tree.old.pairs) }
    ensures told { OnOk result (tally.new ≡ shared_of (changed_by next.now (set_of tree.old.pairs))) }
    ensures room { OnOk result (next.now.puts_in ≡ true → tree.new.room ≡ true) }
    ensures unchanged { OnErr result (tally.new ≡ tally.old) }
    ensures pairs { tree.new.pairs ≡ tree.old.pairs }
    ensures memory { IfErr result (λ fault. fault ≡ Fault.Memory) }
{
    let Pair { key, rid } = &next.pair;
    if !next.puts_in {
        return tally.removed(tree, key, *rid);
    }
    tree.make_room(key)?;
    tally.added(tree, key, *rid)
}

/// Makes a change, for whose pair there is room if it puts one in.
fn make(tree: &mut Tree, change: Change)
    requires { change.puts_in ≡ true → tree.old.room ≡ true }
    ensures { set_of tree.new.pairs ≡ changed_by change (set_of tree.old.pairs) }
{
    let Change {
        puts_in,
        pair: Pair { key, rid },
    } = change;
    if puts_in {
        tree.insert(key, rid);
    } else {
        tree.remove(&key, rid);
    }
}
