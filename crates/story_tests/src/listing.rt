//! Pairs and entries as they are printed.

use builder_core::{Entry, Pair};
use chunk_list::QueueItems;
use heap_log::Outcome;
use keybytes::{Cell, Fault, Key};
use replay::{Answer, EntryLine, PairLine, SharedLine};
use std::alloc::Global;

/// The number, not below 0, whose key that is: a byte that tells a number from none, and its eight bytes from the
/// greatest on, with the least number at 0.
pub fn number_of(key: &Key) -> Option<i64> {
    let (first, rest) = key.bytes().split_first()?;
    let mut sum: u64 = 0;
    for byte in rest {
        sum = sum.wrapping_mul(256).wrapping_add(*byte as u64);
    }
    let number = sum.wrapping_sub(1 << 63);
    if *first != 1 || rest.len() != 8 || number >= 1 << 63 {
        return None;
    }
    Some(number as i64)
}

fn cells_of(alloc: Global, key: &Key) -> Result<Vec<Cell>, Fault> {
    let Some(number) = number_of(key) else {
        return Err(Fault::BadColumn);
    };
    Ok(vec![in alloc; Cell::Int(number)]?)
}

pub fn listed(alloc: Global, pairs: &[Pair]) -> Result<Answer, Fault> {
    let mut lines = Vec::new(alloc);
    for pair in pairs {
        lines.push(PairLine {
            cells: cells_of(alloc, &pair.key)?,
            rid: pair.rid,
        })?;
    }
    Ok(Answer::Pairs { lines })
}

pub fn listed_entries(alloc: Global, entries: QueueItems<'_, Entry>) -> Result<Answer, Fault> {
    let mut lines = Vec::new(alloc);
    for entry in entries {
        lines.push(EntryLine {
            op: entry.op,
            cells: cells_of(alloc, &entry.key)?,
            rid: entry.rid,
        })?;
    }
    Ok(Answer::Entries { lines })
}

/// Those of the indexes that the verdicts refuse.
pub fn shared_lines(alloc: Global, verdicts: &[Outcome]) -> Result<Vec<SharedLine>, Fault> {
    let mut lines = Vec::new(alloc);
    for index in 0..verdicts.len() {
        if let Outcome::Shared { key, first, second } = &verdicts[index] {
            lines.push(SharedLine {
                index,
                cells: cells_of(alloc, key)?,
                first: *first,
                second: *second,
            })?;
        }
    }
    Ok(lines)
}
