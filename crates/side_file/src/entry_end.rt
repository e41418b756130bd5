ghost use Rattle.std.specs.Prelude.{◌≡◌, ◌+◌, ◌^◌, ◌<◌, ◌≤◌, All, [], ◌∷◌, ◌++◌, length, IfOk, IfErr};
ghost use mathlib.Core.List.{IsPrefix};
ghost use Rattle.rtrb.specs.Ring.{sent, known_free, producer_capacity, received, known_items, consumer_capacity, SameConsumer, ProducerLooked};
ghost use Rattle.side_file.specs.Ends.{ring_put, ring_take, TakeEndLooked};
ghost use Rattle.side_file.specs.EntryEnds.{Brings};
ghost use Rattle.side_file.specs.Portions.{entries_of, HasSome};

use crate::portion_queue::PortionQueue;
use crate::{Counted, Entry, Portion};
use keybytes::Fault;
use rtrb::{Consumer, Producer};
use std::alloc::Global;
use std::marker::Model;

/// The end of a side-file's ring that takes, in the thread of whoever builds the index. Contracts see its ring, the entries that it
/// gave out since the ring was made, and those that it knows to wait behind them. It takes no memory once it is made.
pub struct EntryEnd {
    ring: Consumer<Portion, Global, Counted>,
    hand: PortionQueue,
    /// How many entries were given out.
    taken: usize,
    /// How many are known: those at hand, and those that the ring is known to have.
    known: usize,
}

impl Drop for EntryEnd {
    fn drop(self) {
        let EntryEnd {
            ring: _,
            hand: _,
            taken: _,
            known: _,
        } = self;
    }
}

impl Model for EntryEnd {
    ghost use Rattle.side_file.specs.declared.entry.Entry.{Entry};
    ghost use Rattle.side_file.specs.Ends.{TakeEnd};

    ghost Value = { TakeEnd Entry };

    ghost use Rattle.rtrb.specs.Ring.{received, known_items, consumer_capacity};
    ghost use Rattle.side_file.specs.EntryEnds.{take_entries, IsEntryEnd};

    ghost view = { λ end. take_entries end.taken end.hand.entries end.ring };

    ghost invariant = { λ end. IsEntryEnd (received end.ring) (known_items end.ring) end.hand.entries end.taken end.known (consumer_capacity end.ring) };
}

impl EntryEnd {
    pub(crate) fn new(
        alloc: Global,
        ring: Consumer<Portion, Global, Counted>,
    ) -> Result<EntryEnd, Fault>
        requires received { received ring ≡ [] }
        requires known { known_items ring ≡ [] }
        requires capacity { consumer_capacity ring ≡ 256 }
        ensures ok { IfOk result (λ end. end ≡ record { ring = ring_take ring; received = []; known = [] }) }
        ensures memory { IfErr result (λ fault. fault ≡ Fault.Memory) }
    {
        let hand = PortionQueue::new(alloc)?;
        Ok(EntryEnd {
            ring,
            hand,
            taken: 0,
            known: 0,
        })
    }

    /// Looks into the ring, and answers how many entries are known then. More may be fed at any time.
    pub fn look(&mut self) -> usize
        ensures looked { TakeEndLooked self.old self.new }
        ensures value { result ≡ length self.new.known }
    {
        if !self.hand.has_room() {
            return self.known;
        }
        self.ring.slots();
        bring(&mut self.ring, &mut self.hand);
        self.known = self.hand.len();
        self.known
    }

    /// How many entries are known to wait.
    pub fn known(&self) -> usize
        ensures { result ≡ length self.now.known }
    {
        self.known
    }

    /// The next entry, which is known to be there.
    pub fn peek(&self) -> &Entry
        requires { 0 < length self.now.known }
        ensures { IsPrefix (result.now ∷ []) self.now.known }
    {
        self.hand.peek()
    }

    /// Takes the next entry, which is known to be there.
    pub fn pop(&mut self) -> Entry
        requires { 0 < length self.old.known }
        ensures ring { self.new.ring ≡ self.old.ring }
        ensures received { self.new.received ≡ self.old.received ++ result ∷ [] }
        ensures known { self.old.known ≡ result ∷ self.new.known }
    {
        let entry = self.hand.pop();
        self.taken += 1;
        self.known -= 1;
        refill(&mut self.ring, &mut self.hand);
        entry
    }

    /// [`EntryEnd::look`] with the other end at hand, which put so many entries: all that wait are known then.
    pub(crate) fn beside(
        &mut self,
        producer: &mut Producer<Portion, Global, Counted>,
        put: usize,
    ) -> usize
        requires ring { ring_put producer.old ≡ self.old.ring }
        requires put { put ≡ length (entries_of (sent producer.old)) }
        requires few { put < 2 ^ 60 }
        requires some { All HasSome (sent producer.old) }
        ensures producer { ProducerLooked producer.old producer.new }
        ensures looked { TakeEndLooked self.old self.new }
        ensures value { result ≡ length self.new.known }
        ensures in_order { self.new.received ++ self.new.known ≡ entries_of (sent producer.new) }
        ensures free { producer_capacity producer.new ≤ known_free producer.new + result }
    {
        producer.slots_beside(&mut self.ring);
        self.ring.slots_beside(producer);
        self.known = put - self.taken;
        refill(&mut self.ring, &mut self.hand);
        self.known
    }
}

// Takes all portions out that the ring is known to have.
fn bring(ring: &mut Consumer<Portion, Global, Counted>, hand: &mut PortionQueue)
    requires room { length (known_items ring.old) ≤ hand.old.room }
    requires came { length hand.old.entries ≤ length (entries_of (received ring.old)) }
    requires few { length (entries_of (received ring.old)) < 2 ^ 60 }
    ensures ring { SameConsumer ring.old ring.new }
    ensures brings { Brings (received ring.old) (known_items ring.old) hand.old.entries (received ring.new) (known_items ring.new) hand.new.entries }
    ensures all { known_items ring.new ≡ [] }
    ensures few { length (entries_of (received ring.new)) < 2 ^ 60 }
{
    for _ in 0..ring.cached_slots() {
        hand.push(ring.pop_known());
    }
}

// The same, if nothing is at hand.
fn refill(ring: &mut Consumer<Portion, Global, Counted>, hand: &mut PortionQueue)
    requires capacity { consumer_capacity ring.old ≡ 256 }
    requires came { length hand.old.entries ≤ length (entries_of (received ring.old)) }
    requires few { length (entries_of (received ring.old)) < 2 ^ 60 }
    ensures ring { SameConsumer ring.old ring.new }
    ensures brings { Brings (received ring.old) (known_items ring.old) hand.old.entries (received ring.new) (known_items ring.new) hand.new.entries }
    ensures first { hand.new.entries ≡ [] → known_items ring.new ≡ [] }
{
    if hand.is_empty() {
        bring(ring, hand);
    }
}
