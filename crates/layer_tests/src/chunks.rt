//! Lists and queues that grow by chunks.

mod cases;

use crate::desk::Desk;
pub use cases::CASES;
use chunk_list::{CHUNK, ChunkList, ChunkQueue};
use keybytes::Fault;
use std::alloc::Global;

/// On a list of numbers, each of which is its place until it is written.
pub enum ListStep {
    /// Pushes so many more.
    Push(u64),
    Len(usize),
    At(usize, Option<u64>),
    Last(Option<u64>),
    /// Writes a number at a place.
    Write(usize, u64),
    /// How many items there are, and their sum.
    Sum(usize, u64),
}

/// On a queue of numbers from 0 on.
pub enum QueueStep {
    /// Puts so many more behind the others.
    Push(u64),
    /// Takes so many out, one by one.
    Pop(usize),
    /// Takes at most so many out by whole chunks, which are so many.
    Take(usize, usize),
    Clear,
    /// How many are left.
    Left(usize),
}

/// A queue of numbers, and which comes first and which is put next.
#[derive(Drop)]
pub struct Numbers {
    queue: ChunkQueue<u64>,
    first: u64,
    next: u64,
    alloc: Global,
}

impl Numbers {
    pub fn new(alloc: Global) -> Numbers {
        Numbers {
            queue: ChunkQueue::new(alloc),
            first: 0,
            next: 0,
            alloc,
        }
    }

    fn push(&mut self, count: u64) -> Result<(), Fault> {
        for _ in 0..count {
            self.queue.reserve(1)?;
            self.queue.push_back_reserved(self.next);
            self.next = self.next.wrapping_add(1);
        }
        Ok(())
    }

    /// Whether the queue gives so many numbers, and just those that come first.
    fn pops(&mut self, count: usize) -> bool {
        let is_given = gives(&mut self.queue, self.first, count);
        self.first = self.first.wrapping_add(count as u64);
        is_given
    }

    fn takes(&mut self, most: usize, count: usize) -> Result<bool, Fault> {
        let mut taken = ChunkQueue::new(self.alloc);
        let Some(room) = most.checked_add(2 * CHUNK) else {
            return Ok(false);
        };
        taken.reserve(room)?;
        if self.queue.take_first(most, &mut taken) != count || taken.len() != count {
            return Ok(false);
        }
        let is_given = gives(&mut taken, self.first, count) && taken.is_empty();
        self.first = self.first.wrapping_add(count as u64);
        Ok(is_given)
    }

    fn has_left(&self, count: usize) -> bool {
        let items = self.queue.iter();
        if items.len() != count || self.queue.len() != count {
            return false;
        }
        let mut expected = self.first;
        for item in items {
            if *item != expected {
                return false;
            }
            expected = expected.wrapping_add(1);
        }
        expected == self.next && self.queue.is_empty() == (count == 0)
    }
}

impl Desk for Numbers {
    type Step = QueueStep;

    fn does(&mut self, step: &QueueStep) -> Result<bool, Fault> {
        match *step {
            QueueStep::Push(count) => self.push(count)?,
            QueueStep::Pop(count) => return Ok(self.pops(count)),
            QueueStep::Take(most, count) => return self.takes(most, count),
            QueueStep::Clear => {
                self.queue.clear();
                self.first = self.next;
            }
            QueueStep::Left(count) => return Ok(self.has_left(count)),
        }
        Ok(true)
    }
}

fn gives(queue: &mut ChunkQueue<u64>, first: u64, count: usize) -> bool {
    let mut expected = first;
    for _ in 0..count {
        if queue.pop_front() != Some(expected) {
            return false;
        }
        expected = expected.wrapping_add(1);
    }
    true
}

impl Desk for ChunkList<u64> {
    type Step = ListStep;

    fn does(&mut self, step: &ListStep) -> Result<bool, Fault> {
        match *step {
            ListStep::Push(count) => push(self, count)?,
            ListStep::Len(len) => return Ok(self.len() == len && self.is_empty() == (len == 0)),
            ListStep::At(place, item) => return Ok(self.get(place).copied() == item),
            ListStep::Last(item) => return Ok(self.last().copied() == item),
            ListStep::Write(place, item) => return Ok(writes(self, place, item)),
            ListStep::Sum(count, sum) => return Ok(has_sum(self, count, sum)),
        }
        Ok(true)
    }
}

fn push(list: &mut ChunkList<u64>, count: u64) -> Result<(), Fault> {
    for _ in 0..count {
        let item = list.len() as u64;
        list.reserve(1)?;
        list.push_reserved(item);
    }
    Ok(())
}

fn writes(list: &mut ChunkList<u64>, place: usize, item: u64) -> bool {
    if place >= list.len() {
        return false;
    }
    list[place] = item;
    list[place] == item
}

fn has_sum(list: &ChunkList<u64>, count: usize, sum: u64) -> bool {
    let mut items = 0usize;
    let mut all = 0u64;
    for item in list.iter() {
        items = items.wrapping_add(1);
        all = all.wrapping_add(*item);
    }
    items == count && all == sum
}
