ghost use Rattle.std.specs.Prelude.{◌≡◌, ◌+◌, ◌^◌, ◌<◌, ◌≤◌, ◌==◌, max, [], ◌∷◌, ◌++◌, length, drop, slice_get, slice_index_or, IfSome, IsOk, OnOk, OnErr};
ghost use Rattle.std.specs.Option.{option_to_list};

use crate::chunks::Chunks;
use crate::{ITEMS_END, QueueItems};
use std::alloc::{AllocError, Global};
use std::marker::Model;

/// A queue in chunks of [`crate::CHUNK`] items. Contracts see its items in order, and its room: how many more can be pushed
/// without memory. Of the chunks whose items were popped it keeps some for later items, as many as reserving made places for in
/// the list of the spare ones (4 at the least), and frees the others.
#[derive(Drop)]
pub struct ChunkQueue<T> {
    chunks: Chunks<T>,
    len: usize,
    room: usize,
}

impl<T> Model for ChunkQueue<T> {
    ghost use Rattle.chunk_list.specs.ChunkValue.{ChunkValue, chunk_code};

    ghost Value = { ChunkValue T };

    ghost coded = { chunk_code T.code };

    ghost use Rattle.chunk_list.specs.Chunks.{chunk_items, IsQueue};

    ghost view = { λ queue. record { items = chunk_items queue.chunks; room = queue.room } };

    ghost invariant = { λ queue. IsQueue queue.chunks queue.len queue.room };
}

impl<T: Drop> ChunkQueue<T> {
    ghost use Rattle.chunk_list.specs.Left.{queue_items_left};

    /// The empty queue. It takes no memory.
    pub fn new(alloc: Global) -> ChunkQueue<T>
        ensures items { result.items ≡ [] }
        ensures room { result.room ≡ 0 }
    {
        ChunkQueue {
            chunks: Chunks::new(alloc),
            len: 0,
            room: 0,
        }
    }

    /// How many items there are.
    #[inline]
    pub fn len(&self) -> usize
        ensures value { result ≡ length self.now.items }
        ensures few { result < 2 ^ 63 }
    {
        self.len
    }

    /// Whether there is no item.
    pub fn is_empty(&self) -> bool
        ensures { result ≡ (length self.now.items == 0) }
    {
        self.len == 0
    }

    /// Makes room for that many more items. It takes whole chunks, and no memory where the room is there; no item moves, only the
    /// pointers to the chunks may be copied. A refusal changes nothing; 2^63 items are refused too.
    pub fn reserve(&mut self, additional: usize) -> Result<(), AllocError>
        ensures items { self.new.items ≡ self.old.items }
        ensures ok { OnOk result (self.new.room ≡ max self.old.room additional) }
        ensures err { OnErr result (self.new ≡ self.old) }
        ensures succeeds { additional ≤ self.old.room → IsOk result }
    {
        if additional <= self.room {
            return Ok(());
        }
        if ITEMS_END - self.len <= additional {
            return Err(AllocError);
        }
        self.chunks.reserve(additional)?;
        self.room = additional;
        Ok(())
    }

    /// Puts an item behind the others, in constant time. Takes no memory.
    #[inline]
    pub fn push_back_reserved(&mut self, value: T)
        requires { 0 < self.old.room }
        ensures items { self.new.items ≡ self.old.items ++ value ∷ [] }
        ensures room { self.new.room + 1 ≡ self.old.room }
    {
        self.chunks.push_back(value);
        self.len += 1;
        self.room -= 1;
    }

    /// Takes the first item out, in constant time. Takes no memory.
    #[inline]
    pub fn pop_front(&mut self) -> Option<T>
        ensures value { result ≡ slice_get self.old.items 0 }
        ensures lookup { IfSome result (λ item. item ≡ slice_index_or self.old.items 0 item) }
        ensures items { self.old.items ≡ option_to_list result ++ self.new.items }
        ensures rest { self.new.items ≡ drop 1 self.old.items }
        ensures room { self.new.room ≡ self.old.room }
    {
        let popped = self.chunks.pop_front();
        if popped.is_some() {
            self.len -= 1;
        }
        popped
    }

    /// Drops all items, in a time that goes with their number; the room stays.
    pub fn clear(&mut self)
        ensures { self.new ≡ record self.old { items = [] } }
    {
        self.chunks.clear();
        self.len = 0;
    }

    /// Moves the first items into another queue that has none, by whole chunks: as many chunks as have at most `most` items
    /// together, and so all if there are no more items. Answers how many items they have. It takes no memory, and a time that goes
    /// with the number of chunks, whatever they have: for each chunk an empty one of the other queue comes back, whose room is
    /// used up. The room here stays.
    pub fn take_first(&mut self, most: usize, taken: &mut ChunkQueue<T>) -> usize
        requires empty { taken.old.items ≡ [] }
        requires room { most + 2048 ≤ taken.old.room }
        ensures items { taken.new.items ++ self.new.items ≡ self.old.items }
        ensures count { result ≡ length taken.new.items }
        ensures most { result ≤ most }
        ensures all { length self.old.items ≤ most → self.new.items ≡ [] }
        ensures stops { 0 < length self.new.items → most < result + 1024 }
        ensures room { self.new.room ≡ self.old.room }
        ensures used { taken.new.room ≡ 0 }
    {
        let moved = self.chunks.move_first(most, &mut taken.chunks);
        self.len -= moved;
        taken.len = moved;
        taken.room = 0;
        moved
    }

    /// The items in order.
    pub fn iter(&self) -> QueueItems<'_, T>
        ensures { queue_items_left result ≡ self.now.items }
    {
        self.chunks.iter(self.len)
    }
}
