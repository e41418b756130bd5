//! Both sorts of runs: what several threads leave is what one thread leaves.

use keybytes::{Fault, Key, Pair, Rid};
use run_maker::{LEAST_IN_THREADS, ParSort, RUN_PAIRS, RunSort, StdSort};
use std::alloc::Global;
use std::thread::Threads;

/// The longest run of a maker.
pub const LONGEST_RUN: usize = RUN_PAIRS;

/// One that goes to several threads.
pub const IN_THREADS: usize = 70_000;

const _: () = prove!(RUN_PAIRS < LEAST_IN_THREADS && LEAST_IN_THREADS < 70_000);

/// A pair whose key is far from those of the pairs beside it. Some keys come several times.
fn pair(alloc: Global, place: usize) -> Result<Pair, Fault> {
    let scattered = (place as u64).wrapping_mul(0x9E37_79B9_7F4A_7C15) % 50_000;
    let mut key = Key::new(alloc);
    key.add(&scattered.to_be_bytes())?;
    Ok(Pair {
        key,
        rid: Rid {
            page: (place / 7 % 65_536) as u32,
            slot: (place % 7) as u16,
        },
    })
}

fn pairs(alloc: Global, count: usize) -> Result<Vec<Pair>, Fault> {
    let mut pairs = Vec::new(alloc);
    for place in 0..count {
        pairs.push(pair(alloc, place)?)?;
    }
    Ok(pairs)
}

/// Sorts both in their own way. Whether they are the same then.
fn sort_both<R: Threads + Sync>(
    rt: &R,
    one: &mut Vec<Pair>,
    other: &mut Vec<Pair>,
) -> Result<bool, Fault> {
    StdSort.sort(one)?;
    ParSort::new(rt).sort(other)?;
    Ok(one == other)
}

pub fn sort_alike<R: Threads + Sync>(rt: &R, alloc: Global, count: usize) -> Result<bool, Fault> {
    let mut one = pairs(alloc, count)?;
    sort_both(rt, &mut one, &mut pairs(alloc, count)?)
}
