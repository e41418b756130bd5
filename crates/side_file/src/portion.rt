//! What goes through a ring at once.
ghost use Rattle.std.specs.Prelude.{◌≡◌, length};
ghost use Rattle.side_file.specs.Portions.{portion_entries, MaySend};

use crate::Entry;
use chunk_list::ChunkQueue;
use rtrb::Protocol;

/// Entries that are sent through a ring in one of its places. There is at least one.
#[derive(Drop)]
pub(crate) enum Portion {
    One(Entry),
    Many(ChunkQueue<Entry>),
}

impl Portion {
    /// How many entries it has.
    pub fn len(&self) -> usize
        ensures { result ≡ length (portion_entries self.now) }
    {
        match self {
            Portion::One(_) => 1,
            Portion::Many(entries) => entries.len(),
        }
    }
}

/// Each portion has an entry, and all entries that were ever sent can be counted.
#[derive(Clone, Copy)]
pub(crate) struct Counted;

impl Protocol<Portion> for Counted {
    ghost allows = { MaySend };
}
