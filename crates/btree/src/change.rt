//! Changes of a tree, and what a walk made of them.
ghost use Rattle.std.specs.Prelude.{◌≡◌, ◌≤◌, ◌<◌, ◌+◌, ◌^◌, ◌∷◌, length, take};
ghost use Rattle.btree.specs.Changes.{AreInOrder, both, count_lower};

use keybytes::Pair;
use std::collections::VecDeque;
use tree_nodes::is_before;

/// A pair that is put into a tree, or taken out of it.
#[derive(Drop)]
pub struct Change {
    /// Whether the pair is put in.
    pub puts_in: bool,
    pub pair: Pair,
}

/// What was done.
#[derive(Drop)]
pub struct Steps {
    /// How many changes were made.
    pub taken: usize,
    /// How many of them put in a pair that wasn't there.
    pub added: usize,
    /// How many of them took out a pair that was there.
    pub removed: usize,
}

impl Steps {
    /// Nothing.
    pub fn none() -> Steps
        ensures { result ≡ record { taken = 0; added = 0; removed = 0 } }
    {
        Steps {
            taken: 0,
            added: 0,
            removed: 0,
        }
    }

    /// That, and then more.
    pub fn then(self, more: Steps) -> Steps
        requires taken { self.taken + more.taken < 2 ^ 64 }
        requires added { self.added + more.added < 2 ^ 64 }
        requires removed { self.removed + more.removed < 2 ^ 64 }
        ensures { result ≡ both self more }
    {
        Steps {
            taken: self.taken + more.taken,
            added: self.added + more.added,
            removed: self.removed + more.removed,
        }
    }
}

/// Takes the first change.
pub fn take_first(queue: &mut VecDeque<Change>) -> Change
    requires { 0 < length queue.old.items }
    ensures { queue.old.items ≡ result ∷ queue.new.items }
{
    match queue.pop_front() {
        Some(change) => change,
        None => unreachable!(),
    }
}

/// How many changes at the front of the queue are in the order of their pairs, of at most that many, none behind which is looked at.
pub fn count_in_order(queue: &VecDeque<Change>, most: usize) -> usize
    requires some { 0 < most }
    requires within { most ≤ length queue.now.items }
    ensures some { 0 < result }
    ensures few { result ≤ most }
    ensures order { AreInOrder (take result queue.now.items) }
{
    let mut count = 1;
    while count < most {
        let last = &queue[count - 1].pair;
        if is_before(&queue[count].pair, &last.key, last.rid) {
            break;
        }
        count += 1;
    }
    count
}

/// How many of that many changes, which are in order, stand before the pair. Mostly few of many do, so it looks at the 1st, 2nd, 4th and so on
/// until one doesn't.
pub fn count_before(queue: &VecDeque<Change>, count: usize, pair: &Pair) -> usize
    requires some { 0 < count }
    requires within { count ≤ length queue.now.items }
    requires order { AreInOrder (take count queue.now.items) }
    ensures { result ≡ count_lower pair.now (take count queue.now.items) }
{
    let mut low = 0;
    let mut high = 1;
    while high < count {
        let last = high - 1;
        if !is_before(&queue[last].pair, &pair.key, pair.rid) {
            return bisect(queue, count, low, last, pair);
        }
        low = high;
        high += high.min(count - high);
    }
    bisect(queue, count, low, count, pair)
}

/// The same, where it is known to lie between `low` and `high`.
fn bisect(queue: &VecDeque<Change>, count: usize, low: usize, high: usize, pair: &Pair) -> usize
    requires within { count ≤ length queue.now.items }
    requires order { AreInOrder (take count queue.now.items) }
    requires low { low ≤ count_lower pair.now (take count queue.now.items) }
    requires high { count_lower pair.now (take count queue.now.items) ≤ high }
    requires few { high ≤ count }
    ensures { result ≡ count_lower pair.now (take count queue.now.items) }
{
    let mut low = low;
    let mut high = high;
    while low < high {
        let middle = low + (high - low) / 2;
        if is_before(&queue[middle].pair, &pair.key, pair.rid) {
            low = middle + 1;
        } else {
            high = middle;
        }
    }
    low
}
