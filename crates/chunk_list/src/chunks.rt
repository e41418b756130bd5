ghost use Rattle.std.specs.Prelude.{◌≡◌, ◌+◌, ◌<◌, ◌≤◌, min, max, All, [], ◌∷◌, ◌++◌, length, IsSome, OnOk, vec_len};
ghost use Rattle.std.specs.Option.{option_to_list};
ghost use Rattle.std.specs.VecDeque.{deque_len, deque_capacity};
ghost use Rattle.chunk_list.specs.Chunks.{chunk_items, open_places, places, IsSpare, AreKept};
ghost use Rattle.chunk_list.specs.Moves.{KeepsSpare, MovesFull, MovesLast};
ghost use Rattle.chunk_list.specs.Left.{queue_items_left};

use crate::{CHUNK, QueueItems};
use std::alloc::{AllocError, Global};
use std::collections::VecDeque;
use std::mem::{replace, swap};

/// The chunks of a queue: first the items of the first one, then those of the full ones, then those of the last.
#[derive(Drop)]
pub(crate) struct Chunks<T> {
    /// What is popped comes from here, while something is left.
    pub first: VecDeque<T>,
    /// Each has [`CHUNK`] items.
    pub full: VecDeque<VecDeque<T>>,
    /// What is pushed goes here.
    pub last: VecDeque<T>,
    /// Each is empty, with [`CHUNK`] places.
    pub spare: Vec<VecDeque<T>>,
}

fn none<T>(alloc: Global) -> VecDeque<T>
    ensures items { result.items ≡ [] }
    ensures len { deque_len result ≡ 0 }
    ensures capacity { deque_capacity result ≡ 0 }
{
    VecDeque::from_vec(Vec::new(alloc))
}

/// Makes the spare chunks that many, if they are fewer.
fn add_spare<T>(spare: &mut Vec<VecDeque<T>>, count: usize) -> Result<(), AllocError>
    ensures spare { All IsSpare spare.old.items → All IsSpare spare.new.items }
    ensures longer { vec_len spare.old ≤ vec_len spare.new }
    ensures most { vec_len spare.new ≤ max (vec_len spare.old) count }
    ensures ok { OnOk result (count ≤ vec_len spare.new) }
{
    let alloc = *spare.allocator();
    spare.reserve(count.saturating_sub(spare.len()))?;
    while spare.len() < count {
        let empty = VecDeque::with_capacity(alloc, CHUNK)?;
        spare.push_reserved(empty);
    }
    Ok(())
}

impl<T: Drop> Chunks<T> {
    /// No chunks.
    pub fn new(alloc: Global) -> Chunks<T>
        ensures kept { AreKept result }
        ensures items { chunk_items result ≡ [] }
    {
        Chunks {
            first: none(alloc),
            full: VecDeque::new(alloc),
            last: none(alloc),
            spare: Vec::new(alloc),
        }
    }

    /// Makes places for that many more items.
    pub fn reserve(&mut self, additional: usize) -> Result<(), AllocError>
        requires { AreKept self.old }
        ensures kept { AreKept self.new }
        ensures items { chunk_items self.new ≡ chunk_items self.old }
        ensures ok { OnOk result (additional ≤ places self.new) }
        ensures places { places self.old ≤ places self.new }
    {
        let here = CHUNK.min(self.last.capacity()) - self.last.len();
        let count = additional.saturating_sub(here).div_ceil(CHUNK);
        self.full.reserve(count.max(self.spare.len()))?;
        add_spare(&mut self.spare, count)
    }

    /// Puts an item behind the others.
    #[inline]
    pub fn push_back(&mut self, value: T)
        requires kept { AreKept self.old }
        requires place { 0 < places self.old }
        ensures kept { AreKept self.new }
        ensures items { chunk_items self.new ≡ chunk_items self.old ++ value ∷ [] }
        ensures places { places self.new + 1 ≡ places self.old }
    {
        if self.last.len() >= CHUNK.min(self.last.capacity()) {
            self.begin_chunk();
        }
        self.last.push_back_reserved(value);
    }

    /// The last chunk is full or has no places: what is pushed next goes into an empty one.
    fn begin_chunk(&mut self)
        requires kept { AreKept self.old }
        requires done { open_places self.old.last ≡ 0 }
        requires spare { 0 < vec_len self.old.spare }
        ensures kept { AreKept self.new }
        ensures items { chunk_items self.new ≡ chunk_items self.old }
        ensures places { places self.new ≡ places self.old }
        ensures open { 0 < open_places self.new.last }
    {
        let Some(empty) = self.spare.pop() else {
            unreachable!()
        };
        let filled = replace(&mut self.last, empty);
        if filled.is_empty() {
            return;
        }
        self.full.push_back_reserved(filled);
    }

    /// Takes the first item out.
    #[inline]
    pub fn pop_front(&mut self) -> Option<T>
        requires { AreKept self.old }
        ensures kept { AreKept self.new }
        ensures items { chunk_items self.old ≡ option_to_list result ++ chunk_items self.new }
        ensures some { 0 < length (chunk_items self.old) → IsSome result }
        ensures places { places self.old ≤ places self.new }
    {
        if let Some(value) = self.first.pop_front() {
            return Some(value);
        }
        let Some(chunk) = self.full.pop_front() else {
            return self.last.pop_front();
        };
        let empty = replace(&mut self.first, chunk);
        self.keep(empty);
        self.first.pop_front()
    }

    /// Keeps an empty chunk for later items, if there is room for its pointer; else its memory is freed.
    fn keep(&mut self, empty: VecDeque<T>)
        requires kept { AreKept self.old }
        requires empty { empty.items ≡ [] }
        ensures kept { AreKept self.new }
        ensures spare { KeepsSpare self.old self.new }
    {
        let pointers = self.full.capacity() - self.full.len();
        if empty.capacity() < CHUNK {
            return;
        }
        if self.spare.len() >= pointers.min(self.spare.capacity()) {
            return;
        }
        self.spare.push_reserved(empty);
    }

    /// Drops all items.
    pub fn clear(&mut self)
        requires { AreKept self.old }
        ensures kept { AreKept self.new }
        ensures items { chunk_items self.new ≡ [] }
        ensures places { places self.old ≤ places self.new }
    {
        self.first.clear();
        self.full.clear();
        self.last.clear();
    }

    /// Moves the first chunks to `taken`, for empty ones of it: as many as have at most `most` items together. Answers how many
    /// items they have.
    pub fn move_first(&mut self, most: usize, taken: &mut Chunks<T>) -> usize
        requires kept { AreKept self.old }
        requires taken_kept { AreKept taken.old }
        requires empty { chunk_items taken.old ≡ [] }
        requires places { most + 2048 ≤ places taken.old }
        ensures kept { AreKept self.new }
        ensures taken_kept { AreKept taken.new }
        ensures items { chunk_items taken.new ++ chunk_items self.new ≡ chunk_items self.old }
        ensures count { result ≡ length (chunk_items taken.new) }
        ensures most { result ≤ most }
        ensures all { length (chunk_items self.old) ≤ most → chunk_items self.new ≡ [] }
        ensures stops { 0 < length (chunk_items self.new) → most < result + 1024 }
        ensures places { places self.old ≤ places self.new }
    {
        let first = self.first.len();
        if first > most {
            return 0;
        }
        swap(&mut self.first, &mut taken.first);
        let full = self.move_full((most - first) / CHUNK, taken);
        let moved = first + full * CHUNK;
        let last = self.last.len();
        if self.full.len() > 0 || last > most - moved {
            return moved;
        }
        self.move_last(taken);
        moved + last
    }

    /// Moves the first full chunks to `taken`, at most so many, for empty ones of it. Answers how many.
    fn move_full(&mut self, most: usize, taken: &mut Chunks<T>) -> usize
        requires kept { AreKept self.old }
        requires taken_kept { AreKept taken.old }
        requires spare { most ≤ vec_len taken.old.spare }
        ensures kept { AreKept self.new }
        ensures taken_kept { AreKept taken.new }
        ensures count { result ≡ min most (deque_len self.old.full) }
        ensures moves { MovesFull result self.old taken.old self.new taken.new }
    {
        let count = most.min(self.full.len());
        for _ in 0..count {
            self.move_one(taken);
        }
        count
    }

    /// Moves the first full chunk to `taken`, for an empty one of it.
    fn move_one(&mut self, taken: &mut Chunks<T>)
        requires kept { AreKept self.old }
        requires taken_kept { AreKept taken.old }
        requires full { 0 < deque_len self.old.full }
        requires spare { 0 < vec_len taken.old.spare }
        ensures kept { AreKept self.new }
        ensures taken_kept { AreKept taken.new }
        ensures moves { MovesFull 1 self.old taken.old self.new taken.new }
    {
        let Some(chunk) = self.full.pop_front() else {
            unreachable!()
        };
        let Some(empty) = taken.spare.pop() else {
            unreachable!()
        };
        taken.full.push_back_reserved(chunk);
        self.keep(empty);
    }

    /// Moves the last chunk to `taken`, which has no items in its last one, for an empty one of it.
    fn move_last(&mut self, taken: &mut Chunks<T>)
        requires kept { AreKept self.old }
        requires taken_kept { AreKept taken.old }
        requires empty { taken.old.last.items ≡ [] }
        requires spare { 0 < vec_len taken.old.spare }
        ensures kept { AreKept self.new }
        ensures taken_kept { AreKept taken.new }
        ensures moves { MovesLast self.old taken.old self.new taken.new }
        ensures places { places self.old ≤ places self.new }
    {
        let Some(empty) = taken.spare.pop() else {
            unreachable!()
        };
        let last = replace(&mut self.last, empty);
        let unused = replace(&mut taken.last, last);
        taken.keep(unused);
    }

    /// The items in order, which are so many.
    pub fn iter(&self, len: usize) -> QueueItems<'_, T>
        requires { len ≡ length (chunk_items self.now) }
        ensures { queue_items_left result ≡ chunk_items self.now }
    {
        QueueItems::new(self.first.iter(), self.full.iter(), self.last.iter(), len)
    }
}
