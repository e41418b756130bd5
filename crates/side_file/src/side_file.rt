ghost use Rattle.std.specs.Prelude.{◌≡◌, ◌⊎◌, ◌+◌, ◌^◌, ◌<◌, ◌≤◌, All, [], ◌∷◌, ◌++◌, None, length, take, drop, IfOk, IfErr, IsOk};
ghost use Rattle.chunk_list.specs.Left.{queue_items_left};
ghost use Rattle.rtrb.specs.Ring.{sent, known_free, SameProducer};
ghost use Rattle.keybytes.specs.Answered.{Answered};
ghost use Rattle.side_file.specs.Ends.{TakeEndLooked};
ghost use Rattle.side_file.specs.Portions.{entries_of, HasSome};
ghost use Rattle.side_file.specs.Changes.{all_appended, appended, emptied, Reserves, Feeds, Looks, TakesMost, feed_most, IsSideFile};

use crate::{Counted, Entry, EntryEnd, Portion};
use chunk_list::{ChunkQueue, QueueItems};
use keybytes::Fault;
use rtrb::{Producer, RingBuffer};
use std::alloc::Global;
use std::marker::Model;
use std::mem::replace;

/// How many places a ring has, and so the most entries that one call feeds one by one.
pub const RING_ENTRIES: usize = 256;

/// More entries than a side-file ever sends, with those left and the room, so that those of all indexes can be counted together.
const ENTRIES_END: usize = 1_152_921_504_606_846_976;

/// The entries of an index that is being built. Contracts see those fed since the last reset, those left, the room for more,
/// and this end of the ring.
pub struct SideFile {
    producer: Producer<Portion, Global, Counted>,
    /// Its room is the side-file's.
    left: ChunkQueue<Entry>,
    /// How many entries the ring was ever sent.
    put: usize,
    /// How many were fed since the last reset: the last ones that the ring was sent.
    fed: usize,
}

impl Drop for SideFile {
    fn drop(self) {
        let SideFile {
            producer: _,
            left: _,
            put: _,
            fed: _,
        } = self;
    }
}

impl Model for SideFile {
    ghost use Rattle.side_file.specs.SideFileValue.{SideFileValue};

    ghost Value = { SideFileValue };

    ghost use Rattle.std.specs.Prelude.{length};
    ghost use Rattle.rtrb.specs.Ring.{sent, producer_capacity};
    ghost use Rattle.side_file.specs.EntryEnds.{put_entries};
    ghost use Rattle.side_file.specs.Kept.{last_ones, IsKept};
    ghost use Rattle.side_file.specs.Portions.{entries_of};

    ghost view = { λ side. record {
      fed = last_ones side.fed (entries_of (sent side.producer));
      left = side.left.items;
      room = side.left.room;
      end = put_entries side.producer;
    } };

    ghost invariant = { λ side. IsKept (producer_capacity side.producer) (sent side.producer) side.put side.fed
        (length side.left.items) side.left.room };
}

impl SideFile {
    /// An empty side-file, and the other end of its ring.
    pub fn new(alloc: Global) -> Result<(SideFile, EntryEnd), Fault>
        ensures all { IfOk result (λ pair. all_appended pair.0 ≡ []) }
        ensures ring { IfOk result (λ pair. pair.0.end.ring ≡ pair.1.ring) }
        ensures sent { IfOk result (λ pair. pair.0.end.sent ≡ []) }
        ensures taken { IfOk result (λ pair. (pair.1.received ≡ []) × (pair.1.known ≡ [])) }
        ensures memory { IfErr result (λ fault. fault ≡ Fault.Memory) }
    {
        let (producer, consumer) = RingBuffer::with_protocol::<Global, Counted>(
            alloc,
            RING_ENTRIES,
        )?;
        let end = EntryEnd::new(alloc, consumer)?;
        let side = SideFile {
            producer,
            left: ChunkQueue::new(alloc),
            put: 0,
            fed: 0,
        };
        Ok((side, end))
    }

    /// Does nothing: its clause tells what every side-file keeps.
    pub fn laws(&self)
        ensures { IsSideFile self.now }
    {
        let _kept = &self.producer;
    }

    /// Drops what isn't fed.
    pub fn reset(&mut self)
        ensures reset { self.new ≡ emptied self.old }
        ensures all { all_appended self.new ≡ [] }
    {
        self.left.clear();
        self.fed = 0;
    }

    /// Takes out all that isn't fed, so that it can be dropped where nobody waits for it. No room is left.
    pub fn take_left(&mut self, alloc: Global) -> ChunkQueue<Entry>
        ensures taken { result.items ≡ self.old.left }
        ensures rest { self.new ≡ record self.old { left = []; room = 0 } }
    {
        replace(&mut self.left, ChunkQueue::new(alloc))
    }

    /// How many entries are in the ring, with its other end at hand. That end then knows them, and this one each free place.
    pub fn beside(&mut self, end: &mut EntryEnd) -> usize
        requires { self.old.end.ring ≡ end.old.ring }
        ensures looks { Looks self.old self.new }
        ensures end { TakeEndLooked end.old end.new }
        ensures value { result ≡ length end.new.known }
        ensures in_order { end.new.received ++ end.new.known ≡ self.new.end.sent }
        ensures free { self.new.end.capacity ≤ self.new.end.free + result }
    {
        end.beside(&mut self.producer, self.put)
    }

    /// Makes room for that many more entries; takes no memory where the room is there. Memory is also the answer where the
    /// entries that were ever sent and those left would come to 2^60.
    pub fn reserve(&mut self, n: usize) -> Result<(), Fault>
        ensures reserved { Answered None (Reserves n) self.old result self.new }
        ensures succeeds { n ≤ self.old.room → IsOk result }
    {
        if ENTRIES_END - self.put - self.left() <= n {
            return Err(Fault::Memory);
        }
        self.left.reserve(n)?;
        Ok(())
    }

    /// Puts an entry behind those that are left.
    pub fn append(&mut self, entry: Entry)
        requires { 0 < self.old.room }
        ensures appended { self.new ≡ appended self.old entry }
        ensures all { all_appended self.new ≡ all_appended self.old ++ entry ∷ [] }
    {
        self.left.push_back_reserved(entry);
    }

    /// Moves the first entries that are left into the ring: at most `k`, [`RING_ENTRIES`] and the ring's room. Answers how many.
    pub fn feed(&mut self, k: usize) -> usize
        ensures fed { Feeds self.old result self.new }
        ensures all { all_appended self.new ≡ all_appended self.old }
        ensures most { result ≤ feed_most k self.old }
        ensures exact { feed_most k self.old ≤ self.old.end.free → result ≡ feed_most k self.old }
        ensures first { feed_most k self.old + length self.old.end.sent ≤ self.old.end.capacity → result ≡ feed_most k self.old }
        ensures stops { result < feed_most k self.old → self.new.end.free ≡ 0 }
    {
        let most = k.min(self.left());
        let count = most.min(self.producer.slots());
        move_first(&mut self.left, &mut self.producer, count);
        self.put += count;
        self.fed += count;
        count
    }

    /// Moves the first entries that are left into the ring as one portion, by whole chunks and at most `most` together: all that are
    /// left if they are no more, else more than `most` less a chunk. They go in `batch`, which has no entry, but room for them and
    /// two chunks more. Answers how many, none where the ring has no place. It takes no memory, and a time that goes with the number of
    /// chunks.
    pub fn feed_batch(&mut self, most: usize, batch: ChunkQueue<Entry>) -> usize
        requires empty { batch.items ≡ [] }
        requires batch_room { most + 2048 ≤ batch.room }
        ensures fed { Feeds self.old result self.new }
        ensures all { all_appended self.new ≡ all_appended self.old }
        ensures most { result ≤ most }
        ensures whole { 0 < self.old.end.free → TakesMost most (length self.old.left) result }
        ensures stops { TakesMost most (length self.old.left) result ⊎ ((result ≡ 0) × (self.new.end.free ≡ 0)) }
    {
        let mut batch = batch;
        if self.producer.is_full() {
            return 0;
        }
        let count = self.left.take_first(most, &mut batch);
        if count > 0 {
            self.producer.push_reserved(Portion::Many(batch));
            self.put += count;
            self.fed += count;
        }
        count
    }

    /// How many entries were fed since the last reset.
    pub fn fed(&self) -> usize
        ensures { result ≡ length self.now.fed }
    {
        self.fed
    }

    /// How many entries aren't fed yet.
    pub fn left(&self) -> usize
        ensures { result ≡ length self.now.left }
    {
        self.left.len()
    }

    /// Those that aren't fed yet, in order.
    pub fn entries(&self) -> QueueItems<'_, Entry>
        ensures { queue_items_left result ≡ self.now.left }
    {
        self.left.iter()
    }
}

// Moves the first `count` entries into the ring, one by one.
fn move_first(
    left: &mut ChunkQueue<Entry>,
    producer: &mut Producer<Portion, Global, Counted>,
    count: usize,
)
    requires some { count ≤ length left.old.items }
    requires free { count ≤ known_free producer.old }
    requires countable { length (entries_of (sent producer.old)) + count < 2 ^ 60 }
    ensures ring { SameProducer producer.old producer.new }
    ensures sent { entries_of (sent producer.new) ≡ entries_of (sent producer.old) ++ take count left.old.items }
    ensures portions { All HasSome (sent producer.old) → All HasSome (sent producer.new) }
    ensures left { left.new.items ≡ drop count left.old.items }
    ensures room { left.new.room ≡ left.old.room }
    ensures taken { known_free producer.old ≡ known_free producer.new + count }
{
    for _ in 0..count {
        let Some(entry) = left.pop_front() else {
            unreachable!()
        };
        producer.push_reserved(Portion::One(entry));
    }
}
