//! What the tests of several layers make.

use heap_table::Heap;
use keybytes::{Cell, Fault, Key, KeyCol, Kind, Pair, Rid, Row, Schema};
use std::alloc::Global;

/// The first column, from the least cell to the greatest.
pub const UP: KeyCol = KeyCol {
    column: 0,
    descending: false,
};

pub const FIRST: Rid = Rid { page: 0, slot: 0 };

pub fn schema(alloc: Global, kinds: &[Kind]) -> Result<Schema, Fault> {
    Schema::new(kinds.to_vec(alloc)?)
}

/// An empty table of one column of numbers, with so many slots a page.
pub fn empty_table(alloc: Global, slots: u8, pages: u32) -> Result<Heap, Fault> {
    Heap::new(alloc, schema(alloc, &[Kind::Int])?, slots, pages)
}

pub fn number_row(alloc: Global, number: i64) -> Result<Row, Fault> {
    Row::new(vec![in alloc; Cell::Int(number)]?)
}

/// Inserts that many rows, whose numbers count down to 1, and answers where the last one stands.
pub fn add_rows(heap: &mut Heap, txn: u64, rows: u32) -> Result<Rid, Fault> {
    let mut last = FIRST;
    for row in 0..rows {
        let row = number_row(heap.allocator(), (rows - row) as i64)?;
        (_, last) = heap.insert(txn, row)?;
    }
    Ok(last)
}

/// A table of one column, whose rows count down to 1.
pub fn table_of(alloc: Global, rows: u32, slots: u8) -> Result<Heap, Fault> {
    let mut heap = empty_table(alloc, slots, 64)?;
    fill(&mut heap, rows)?;
    Ok(heap)
}

fn fill(heap: &mut Heap, rows: u32) -> Result<Rid, Fault> {
    let txn = heap.begin()?;
    add_rows(heap, txn, rows)
}

/// The key of a number; that of each seventh is too long to lie in place.
pub fn key(alloc: Global, number: u32) -> Result<Key, Fault> {
    let mut key = Key::new(alloc);
    key.add(&number.to_be_bytes())?;
    if number % 7 == 0 {
        key.add(&[1; 40])?;
    }
    Ok(key)
}

/// The RID of a number: each key has three.
pub fn rid(number: u32) -> Rid {
    Rid {
        page: number % 3,
        slot: 5,
    }
}

pub fn pair(alloc: Global, number: u32) -> Result<Pair, Fault> {
    Ok(Pair {
        key: key(alloc, number / 3)?,
        rid: rid(number),
    })
}
