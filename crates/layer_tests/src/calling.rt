//! The callers of a table, of a tree, and of spools and their merge that docs/CALLING.md shows.
ghost use Rattle.std.specs.Prelude.{All, map};
ghost use Rattle.run_spool.specs.Spools.{AreSorted};
ghost use Rattle.run_maker.specs.Making.{AreReady};

use crate::fixtures::{empty_table, key, number_row, rid, table_of};
use crate::merges::fill;
use crate::spools::plain_spool;
use btree::Tree;
use heap_table::Heap;
use keybytes::{Cell, Fault, Key, Pair, Rid, Row};
use run_merge::merge;
use run_spool::{Spool, end_all};
use std::alloc::Global;

/// Puts a row in, changes it in a second transaction that is rolled back, and answers the row as it then stands.
fn after_rollback(heap: &mut Heap, row: Row, other: Row) -> Result<Row, Fault> {
    let first = heap.begin()?;
    let (_, rid) = heap.insert(first, row)?;
    heap.commit(first)?;
    let second = heap.begin()?;
    heap.update(second, rid, other)?;
    let undone = heap.undo_step(second)?;
    if undone.left > 0 {
        return Err(Fault::TxnEnding);
    }
    heap.get(rid)
}

fn is_five_after_rollback(heap: &mut Heap) -> Result<bool, Fault> {
    let alloc = heap.allocator();
    let row = after_rollback(heap, number_row(alloc, 5)?, number_row(alloc, 6)?)?;
    Ok(matches!(row.cells(), [Cell::Int(5)]))
}

/// Whether a rollback brings the row back.
pub fn rolls_back(alloc: Global) -> Result<bool, Fault> {
    is_five_after_rollback(&mut empty_table(alloc, 50, 8)?)
}

/// Puts the pairs in, in whatever order they come, and answers the RIDs of a key, the least first.
fn rids_of(tree: &mut Tree, pairs: Vec<Pair>, key: &Key) -> Result<Vec<Rid>, Fault> {
    for pair in pairs {
        // What takes memory comes first, and changes nothing.
        tree.make_room(&pair.key)?;
        tree.insert(pair.key, pair.rid);
    }
    tree.rids(key)
}

/// Pairs of the keys and the RIDs of these numbers.
fn pairs_of(alloc: Global, numbers: &[(u32, u32)]) -> Result<Vec<Pair>, Fault> {
    let mut pairs = Vec::new(alloc);
    for (number, place) in numbers {
        let key = key(alloc, *number)?;
        let rid = rid(*place);
        pairs.push(Pair { key, rid })?;
    }
    Ok(pairs)
}

/// Whether a tree gives the RIDs of a key.
pub fn finds_both(alloc: Global) -> Result<bool, Fault> {
    let pairs = pairs_of(alloc, &[(8, 2), (3, 0), (8, 1)])?;
    let rids = rids_of(&mut Tree::new(alloc), pairs, &key(alloc, 8)?)?;
    Ok(rids.as_slice() == [rid(1), rid(2)].as_slice())
}

/// Sorts the pairs of a table through its spools, and answers where the row with the least key stands.
fn least<S: Spool>(alloc: Global, heap: &mut Heap, mut spools: Vec<S>) -> Result<Option<Rid>, Fault>
    requires ready { AreReady (map S.runs spools.items) (map S.open_run spools.items) }
    requires sorted { All AreSorted (map S.runs spools.items) }
{
    fill(alloc, heap, true, spools.as_mut_slice())?;
    match merge(alloc, spools) {
        Ok(mut merged) => {
            let first = merged.next();
            end_all(merged.into_spools().as_mut_slice());
            Ok(first?.map(|pair| pair.rid))
        }
        Err((_, fault)) => Err(fault),
    }
}

fn is_least(alloc: Global, heap: &mut Heap) -> Result<bool, Fault> {
    let spools = vec![in alloc; plain_spool(alloc, 3)?]?;
    Ok(least(alloc, heap, spools)? == Some(Rid { page: 2, slot: 0 }))
}

/// Whether the last of five rows that count down has the least key.
pub fn finds_least(alloc: Global) -> Result<bool, Fault> {
    is_least(alloc, &mut table_of(alloc, 5, 2)?)
}
