//! A run is brought near its order before it is sorted.
//!
//! Numbers are sorted much faster than pairs. So each key gives its first bytes as a number, which is sorted with the pair's
//! place in its low bits, and the pairs are moved after it. The sort of the pairs then mostly finds them in order: where two keys
//! give one number, it does the rest.
ghost use Rattle.std.specs.Prelude.{IsPermutation};

use crate::open_run::RUN_PAIRS;
use keybytes::{Key, Pair};
use std::alloc::{AllocError, Global};

/// The bits of a number that tell the pair's place.
const PLACE: u64 = RUN_PAIRS as u64 - 1;

/// The number with which a key begins behind its first byte, which is mostly the same one for all; 0 where the key is too short.
fn head(key: &Key) -> u64 {
    let Some((_, rest)) = key.bytes().split_first() else {
        return 0;
    };
    match rest.split_first_chunk::<8>() {
        Some((head, _)) => u64::from_be_bytes(*head),
        None => 0,
    }
}

/// The numbers of the pairs' keys, less the least of them, and moved up until the greatest has its highest bit set, with the
/// pair's place in the low bits.
fn numbers(alloc: Global, pairs: &[Pair]) -> Result<Vec<u64>, AllocError> {
    let mut numbers = Vec::with_capacity(alloc, pairs.len())?;
    let mut least = u64::MAX;
    let mut greatest = 0;
    for pair in pairs {
        let number = head(&pair.key);
        least = least.min(number);
        greatest = greatest.max(number);
        numbers.push(number)?;
    }
    let unused = greatest.wrapping_sub(least).leading_zeros();
    for (place, number) in numbers.iter_mut().enumerate() {
        let raised = number.wrapping_sub(least).wrapping_shl(unused);
        *number = (raised & !PLACE) | (place as u64 & PLACE);
    }
    Ok(numbers)
}

/// Where each pair is to be moved.
fn goals(alloc: Global, pairs: &[Pair]) -> Result<Vec<usize>, AllocError> {
    let mut numbers = numbers(alloc, pairs)?;
    numbers.sort_unstable();
    let mut goals = vec![in alloc; 0; pairs.len()]?;
    for (goal, number) in numbers.iter().enumerate() {
        if let Some(place) = goals.get_mut((*number & PLACE) as usize) {
            *place = goal;
        }
    }
    Ok(goals)
}

/// Swaps pairs until each is at its goal.
fn move_to(pairs: &mut [Pair], goals: &mut [usize])
    ensures { IsPermutation pairs.old pairs.new }
{
    let count = pairs.len().min(goals.len());
    let mut place = 0;
    for _ in 0..count.saturating_mul(2) {
        if place >= count {
            return;
        }
        let goal = goals[place];
        if goal == place {
            place += 1;
        } else if goal < count {
            pairs.swap(place, goal);
            goals.swap(place, goal);
        } else {
            return;
        }
    }
}

/// Brings the pairs near their order. Where there is no memory for the numbers, nothing is moved.
pub(crate) fn bring_near(pairs: &mut Vec<Pair>)
    ensures { IsPermutation pairs.old.items pairs.new.items }
{
    if let Ok(mut goals) = goals(*pairs.allocator(), pairs) {
        move_to(pairs, &mut goals);
    }
}
