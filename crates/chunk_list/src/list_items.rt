ghost use Rattle.std.specs.Prelude.{◌≡◌};
ghost use Rattle.std.specs.List.{flat_map};
ghost use Rattle.std.specs.Vec.{vec_items};

/// The items of a [`crate::ChunkList`] in order, from some item on.
#[derive(Drop)]
pub struct ListItems<'a, T> {
    chunk: &'a [T],
    /// Those behind it.
    chunks: &'a [Vec<T>],
}

impl<'a, T> ListItems<'a, T> {
    ghost use Rattle.chunk_list.specs.Left.{list_items_left};

    /// The items of those chunks.
    pub(crate) fn new(chunks: &'a [Vec<T>]) -> ListItems<'a, T>
        ensures { list_items_left result ≡ flat_map vec_items chunks.now }
    {
        ListItems { chunk: &[], chunks }
    }
}

impl<'a, T> Iterator for ListItems<'a, T> {
    type Item = &'a T;

    ghost use Rattle.std.specs.Iterator.{YieldsFirstRef, item_count};
    ghost use Rattle.chunk_list.specs.Left.{list_items_left};

    ghost next_gives = { YieldsFirstRef list_items_left };

    ghost remaining = { item_count list_items_left };

    #[inline]
    fn next(&mut self) -> Option<&'a T> {
        loop {
            if let Some((first, others)) = self.chunk.split_first() {
                self.chunk = others;
                return Some(first);
            }
            let Some((chunk, chunks)) = self.chunks.split_first() else {
                return None;
            };
            self.chunk = chunk.as_slice();
            self.chunks = chunks;
        }
    }
}
