use crate::pairs::Pairs;
use keybytes::{Key, Pair};

/// The pairs of a tree whose keys lie in a range, in order.
#[derive(Drop)]
pub struct Range<'a> {
    pub(crate) pairs: Pairs<'a>,
    /// The first key that is too great.
    pub(crate) end: Key,
}

impl<'a> Iterator for Range<'a> {
    type Item = &'a Pair;

    ghost use Rattle.std.specs.Iterator.{YieldsFirstRef, item_count};
    ghost use Rattle.btree.specs.Left.{range_left};

    ghost next_gives = { YieldsFirstRef range_left };

    ghost remaining = { item_count range_left };

    fn next(&mut self) -> Option<&'a Pair> {
        let pair = self.pairs.next()?;
        if pair.key < self.end {
            return Some(pair);
        }
        self.pairs.stop();
        None
    }
}
