ghost use Rattle.std.specs.Prelude.{◌≡◌, ◌+◌, ◌<◌, ◌≤◌, ◌↔◌, [], ◌∷◌, ◌++◌, length, true, IsTrue, IfOk, IfErr};
ghost use Rattle.rtrb.specs.Ring.{received, known_items, ConsumerLooked};
ghost use Rattle.side_file.specs.Ends.{ring_take};
ghost use Rattle.side_file.specs.Ends.{PutEndLooked};
ghost use Rattle.page_workers.specs.Places.{HasFourPlaces};

use crate::Copied;
use keybytes::Fault;
use rtrb::{Consumer, Producer, RingBuffer};
use std::alloc::Global;
use std::marker::Model;

/// How many copies of pages a ring has room for.
pub const RING_IMAGES: usize = 4;

/// The end of a ring that puts copies of pages. Contracts see all that was ever put, and the places known to be free.
pub struct PagePutter {
    producer: Producer<Copied>,
}

impl Drop for PagePutter {
    fn drop(self) {
        let PagePutter { producer: _ } = self;
    }
}

impl Model for PagePutter {
    ghost use Rattle.side_file.specs.Ends.{PutEnd};
    ghost use Rattle.page_workers.specs.declared.copied.Copied.{Copied};

    ghost Value = { PutEnd Copied };

    ghost use Rattle.std.specs.Prelude.{◌≡◌};
    ghost use Rattle.rtrb.specs.Ring.{producer_capacity};
    ghost use Rattle.side_file.specs.Ends.{put_end};

    ghost view = { λ putter. put_end putter.producer };

    ghost invariant = { λ putter. producer_capacity putter.producer ≡ 4 };
}

/// Both ends of a new ring.
pub fn page_ring(alloc: Global) -> Result<(PagePutter, Consumer<Copied>), Fault>
    ensures put { IfOk result (λ pair. pair.0 ≡ record { ring = ring_take pair.1; capacity = 4; sent = []; free = 4 }) }
    ensures taken { IfOk result (λ pair. (received pair.1 ≡ []) × (known_items pair.1 ≡ [])) }
    ensures memory { IfErr result (λ fault. fault ≡ Fault.Memory) }
{
    let (producer, consumer) = RingBuffer::new(alloc, RING_IMAGES)?;
    Ok((PagePutter { producer }, consumer))
}

impl PagePutter {
    /// Does nothing: its clause tells what every such end keeps.
    pub fn laws(&self)
        ensures { HasFourPlaces self.now }
    {
        let _kept = &self.producer;
    }

    /// Whether a copy can be put. The worker may free a place at any time.
    pub fn has_room(&mut self) -> bool
        ensures looked { PutEndLooked self.old self.new }
        ensures value { IsTrue result ↔ (0 < self.new.free) }
        ensures first { length self.old.sent < 4 → result ≡ true }
    {
        !self.producer.is_full()
    }

    /// Puts a copy behind those that were put.
    pub fn put(&mut self, copied: Copied)
        requires { 0 < self.old.free }
        ensures sent { self.new.sent ≡ self.old.sent ++ copied ∷ [] }
        ensures free { self.old.free ≡ self.new.free + 1 }
        ensures ring { self.new.ring ≡ self.old.ring }
        ensures capacity { self.new.capacity ≡ self.old.capacity }
    {
        self.producer.push_reserved(copied);
    }

    /// How many copies are in the ring, with its other end at hand. That end then knows them, and this one each free place.
    pub(crate) fn beside(&mut self, ring: &mut Consumer<Copied>) -> usize
        requires { self.old.ring ≡ ring_take ring.old }
        ensures looked { PutEndLooked self.old self.new }
        ensures ring { ConsumerLooked ring.old ring.new }
        ensures value { result ≡ length (known_items ring.new) }
        ensures in_order { received ring.new ++ known_items ring.new ≡ self.new.sent }
        ensures free { 4 ≤ self.new.free + result }
        ensures four { HasFourPlaces self.new }
    {
        self.producer.slots_beside(ring);
        ring.slots_beside(&mut self.producer)
    }
}
