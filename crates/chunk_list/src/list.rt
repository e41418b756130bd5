ghost use Rattle.std.specs.Prelude.{◌≡◌, ◌+◌, ◌-◌, ◌^◌, ◌<◌, ◌≤◌, ◌==◌, max, [], ◌∷◌, ◌++◌, length, slice_get, slice_index_or, IsOk, OnOk, OnErr, vec_len};
ghost use Rattle.std.specs.Borrow.{sem};
ghost use Rattle.std.specs.Option.{option_copied};
ghost use Rattle.chunk_list.specs.Filled.{Grows};

use crate::{CHUNK, ITEMS_END, ListItems};
use std::alloc::{AllocError, Global};
use std::marker::Model;
use std::ops::{Index, IndexMut};

/// A list in chunks of [`CHUNK`] items. Contracts see its items in order, and its room: how many more can be pushed without
/// memory.
#[derive(Drop)]
pub struct ChunkList<T> {
    /// Those that have items are full but for the last of them; those behind it are empty.
    chunks: Vec<Vec<T>>,
    len: usize,
    room: usize,
}

impl<T> Model for ChunkList<T> {
    ghost use Rattle.chunk_list.specs.ChunkValue.{ChunkValue, chunk_code};

    ghost Value = { ChunkValue T };

    ghost coded = { chunk_code T.code };

    ghost use Rattle.std.specs.List.{flat_map};
    ghost use Rattle.std.specs.Vec.{vec_items};
    ghost use Rattle.chunk_list.specs.Filled.{IsList};

    ghost view = { λ list. record { items = flat_map vec_items list.chunks.items; room = list.room } };

    ghost invariant = { λ list. IsList list.chunks.items list.len list.room };
}

/// Makes the chunks that many, if they are fewer. It takes the memory of whole chunks, and moves none that is there.
fn add_chunks<T>(chunks: &mut Vec<Vec<T>>, count: usize) -> Result<(), AllocError>
    ensures grows { Grows chunks.old.items chunks.new.items }
    ensures count { OnOk result (count ≤ vec_len chunks.new) }
{
    let alloc = *chunks.allocator();
    chunks.reserve(count.saturating_sub(chunks.len()))?;
    while chunks.len() < count {
        let empty = Vec::with_capacity(alloc, CHUNK)?;
        chunks.push_reserved(empty);
    }
    Ok(())
}

impl<T> ChunkList<T> {
    ghost use Rattle.chunk_list.specs.Left.{list_items_left};

    /// The empty list. It takes no memory.
    pub fn new(alloc: Global) -> ChunkList<T>
        ensures items { result.items ≡ [] }
        ensures room { result.room ≡ 0 }
    {
        ChunkList {
            chunks: Vec::new(alloc),
            len: 0,
            room: 0,
        }
    }

    /// Where its memory comes from.
    pub fn allocator(&self) -> Global {
        *self.chunks.allocator()
    }

    /// How many items there are.
    #[inline]
    pub fn len(&self) -> usize
        ensures value { result ≡ length self.now.items }
        ensures few { result < 2 ^ 63 }
    {
        self.len
    }

    /// Whether there is no item.
    pub fn is_empty(&self) -> bool
        ensures { result ≡ (length self.now.items == 0) }
    {
        self.len() == 0
    }

    /// Makes room for that many more items. It takes whole chunks, and no memory where the room is there; no item moves, only the
    /// pointers to the chunks may be copied, 24 bytes for each. A refusal changes nothing; 2^63 items are refused too.
    pub fn reserve(&mut self, additional: usize) -> Result<(), AllocError>
        ensures items { self.new.items ≡ self.old.items }
        ensures ok { OnOk result (self.new.room ≡ max self.old.room additional) }
        ensures err { OnErr result (self.new ≡ self.old) }
        ensures succeeds { additional ≤ self.old.room → IsOk result }
    {
        if additional <= self.room {
            return Ok(());
        }
        if ITEMS_END - self.len <= additional {
            return Err(AllocError);
        }
        add_chunks(&mut self.chunks, (self.len + additional).div_ceil(CHUNK))?;
        self.room = additional;
        Ok(())
    }

    /// Puts an item behind the others, in constant time. Takes no memory.
    #[inline]
    pub fn push_reserved(&mut self, value: T)
        requires { 0 < self.old.room }
        ensures items { self.new.items ≡ self.old.items ++ value ∷ [] }
        ensures room { self.new.room + 1 ≡ self.old.room }
    {
        let chunk = self.len / CHUNK;
        self.chunks[chunk].push_reserved(value);
        self.len += 1;
        self.room -= 1;
    }

    /// The item at that place, from 0, in constant time; none past the end.
    #[inline]
    pub fn get(&self, place: usize) -> Option<&T>
        ensures { option_copied result ≡ slice_get self.now.items place }
    {
        if place < self.len {
            Some(&self[place])
        } else {
            None
        }
    }

    /// The item that was pushed last, in constant time.
    pub fn last(&self) -> Option<&T>
        ensures { option_copied result ≡ slice_get self.now.items (length self.now.items - 1) }
    {
        self.get(self.len().saturating_sub(1))
    }

    /// The items in order.
    pub fn iter(&self) -> ListItems<'_, T>
        ensures { list_items_left result ≡ self.now.items }
    {
        ListItems::new(self.chunks.as_slice())
    }
}

/// The item at a place, from 0, in constant time.
impl<T> Index<usize> for ChunkList<T> {
    type Output = T;

    ghost can_index = { λ list place. place < length list.items };

    ghost index_gives = { λ list place item. item ≡ slice_index_or list.items place item };

    #[inline]
    fn index(&self, place: usize) -> &T {
        let chunk = &self.chunks[place / CHUNK];
        &chunk[place % CHUNK]
    }
}

impl<T> IndexMut<usize> for ChunkList<T> {
    ghost use Rattle.chunk_list.specs.Lends.{lends_item};

    #[inline]
    fn index_mut(&mut self, place: usize) -> &mut T
        requires { place < length self.old.items }
        ensures* writes_back { sem 𝓛 (lends_item T.row self.entry place result) }
        ensures value { result.now ≡ slice_index_or self.old.items place result.now }
    {
        let chunk = &mut self.chunks[place / CHUNK];
        &mut chunk[place % CHUNK]
    }
}
