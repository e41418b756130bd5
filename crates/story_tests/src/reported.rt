//! What the report of a build beside a session tells of the rows at its switch.

use crate::listing::number_of;
use builder_core::Pair;
use crew::{Opened, Receipt};
use heap_log::LogRec;

/// How many transactions the session has committed before the record of that number.
pub fn committed<T: Opened>(receipts: &[Receipt<T>], switch: usize) -> usize {
    let mut count: usize = 0;
    for receipt in receipts {
        if receipt.number() < switch && matches!(receipt.rec(), LogRec::Commit { .. }) {
            count = count.saturating_add(1);
        }
    }
    count
}

/// Whether that number is a row's of the rows 0 to 6 once so many transactions were committed: the one of round n put
/// the row of 100 and n in, and made the first row that of 200 and n.
fn is_row(number: i64, commits: usize) -> bool {
    let count = commits.min(1000) as i64;
    match number {
        0 => count == 0,
        1..=6 => true,
        100..=199 => number.saturating_sub(100) < count,
        200..=299 => number.saturating_sub(199) == count,
        _ => false,
    }
}

/// Whether the pairs are those of the rows then, of a column whose numbers are by so much greater: each is one of
/// theirs, they are in order, and as many.
fn are_then(pairs: &[Pair], more: i64, commits: usize) -> bool {
    let mut before: i64 = -1;
    for pair in pairs {
        let Some(number) = number_of(&pair.key) else {
            return false;
        };
        if number <= before || !is_row(number.saturating_sub(more), commits) {
            return false;
        }
        before = number;
    }
    pairs.len() == commits.saturating_add(7)
}

/// Whether a report's pairs, of both columns, are those at its switch. Where no memory was left for them, there are
/// none.
pub fn are_reported(pairs: &Option<Vec<Vec<Pair>>>, is_short: bool, commits: usize) -> bool {
    match pairs {
        None => is_short,
        Some(pairs) => match pairs.as_slice() {
            [first, second] => are_then(first, 0, commits) && are_then(second, 1000, commits),
            _ => false,
        },
    }
}
