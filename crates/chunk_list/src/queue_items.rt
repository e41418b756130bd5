ghost use Rattle.std.specs.Prelude.{◌≡◌, ◌++◌, length};
ghost use Rattle.chunk_list.specs.Rest.{rest_of};

use std::collections::VecDeque;
use std::collections::vec_deque::Iter;

/// The items of a [`crate::ChunkQueue`] in order, from some item on.
#[derive(Drop)]
pub struct QueueItems<'a, T> {
    first: Iter<'a, T>,
    full: Iter<'a, VecDeque<T>>,
    last: Iter<'a, T>,
    left: usize,
    ghost counted: { left ≡ length (rest_of first full last) },
}

impl<'a, T> QueueItems<'a, T> {
    ghost use Rattle.chunk_list.specs.Left.{queue_items_left};

    /// The items of a chunk, of those behind it, of the last, and how many they are.
    pub(crate) fn new(
        first: Iter<'a, T>,
        full: Iter<'a, VecDeque<T>>,
        last: Iter<'a, T>,
        left: usize,
    ) -> QueueItems<'a, T>
        requires { left ≡ length (rest_of first full last) }
        ensures { queue_items_left result ≡ rest_of first.entry full.entry last.entry }
    {
        QueueItems {
            first,
            full,
            last,
            left,
        }
    }
}

impl<'a, T> Iterator for QueueItems<'a, T> {
    type Item = &'a T;

    ghost use Rattle.std.specs.Iterator.{YieldsFirstRef, item_count};
    ghost use Rattle.chunk_list.specs.Left.{queue_items_left};

    ghost next_gives = { YieldsFirstRef queue_items_left };

    ghost remaining = { item_count queue_items_left };

    #[inline]
    fn next(&mut self) -> Option<&'a T> {
        loop {
            if let Some(item) = self.first.next() {
                self.left -= 1;
                return Some(item);
            }
            let Some(chunk) = self.full.next() else {
                let item = self.last.next()?;
                self.left -= 1;
                return Some(item);
            };
            self.first = chunk.iter();
        }
    }
}

impl<'a, T> ExactSizeIterator for QueueItems<'a, T> {
    #[inline]
    fn len(&self) -> usize {
        self.left
    }
}
