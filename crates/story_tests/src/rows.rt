//! Tables of two columns of numbers.

use crate::events::plan;
use crate::story::{Stock, stock_of};
use crate::writing::{script_of, start_of};
use builder_core::{Live, Pair, Plan, TableRings};
use heap_table::Heap;
use keybytes::{Cell, Fault, KeySpec, Row};
use replay::table_heap;
use script::Script;
use std::alloc::Global;

/// How many rows a table has: in the first column the numbers from 0, of which so many are distinct, in the second
/// these and `more`, in the same order or in the reverse one.
pub struct Rows {
    pub count: u32,
    pub distinct: u32,
    pub more: u32,
    pub is_reversed: bool,
}

pub const SEVEN: Rows = Rows {
    count: 7,
    distinct: 7,
    more: 0,
    is_reversed: true,
};

pub fn row(alloc: Global, first: i64, second: i64) -> Result<Row, Fault> {
    Row::new(vec![in alloc; Cell::Int(first), Cell::Int(second)]?)
}

fn insert_rows(heap: &mut Heap, rows: &Rows) -> Result<usize, Fault> {
    let txn = heap.begin()?;
    for number in 0..rows.count {
        let first = number % rows.distinct.max(1);
        let second = if rows.is_reversed {
            rows.count - number
        } else {
            number
        };
        let second = i64::from(second) + i64::from(rows.more);
        let row = row(heap.allocator(), i64::from(first), second)?;
        heap.insert(txn, row)?;
    }
    heap.commit(txn)
}

/// A script's table, in which one transaction put the rows, the plan of its build, which tries the switch so often and
/// tells its pairs, and the spools that this wants.
pub fn asked(
    alloc: Global,
    records: &str,
    rows: &Rows,
    tries: u32,
) -> Result<(Heap, Plan, Stock), Fault> {
    let Script {
        table,
        commands,
        ..
    } = script_of(alloc, records, 0)?;
    let Some(start) = start_of(&commands) else {
        return Err(Fault::NoBuild);
    };
    let mut heap = table_heap(alloc, table)?;
    insert_rows(&mut heap, rows)?;
    let mut plan = plan(alloc, heap.schema(), start)?;
    plan.tries = tries;
    plan.keep_pairs = true;
    Ok((heap, plan, stock_of(start)))
}

/// The pairs that an index would have of the table's rows. What is refused for want of memory is asked for once more.
pub fn rest_of<T: TableRings>(live: &mut Live<T>, spec: &KeySpec) -> Result<Vec<Pair>, Fault> {
    if !spec.is_of(live.heap().schema()) {
        return Err(Fault::BadColumn);
    }
    match live.rest(spec) {
        Err(_) => live.rest(spec),
        rest => rest,
    }
}

/// Whether a ready index has these pairs.
pub fn has_pairs<T: TableRings>(live: &Live<T>, number: usize, pairs: &[Pair]) -> bool {
    match live.ready().get(number) {
        Some(index) => index.tree().iter().eq(pairs),
        None => false,
    }
}
