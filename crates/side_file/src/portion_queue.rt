//! The entries of portions that came out of a ring.
ghost use Rattle.std.specs.Prelude.{◌≡◌, ◌+◌, ◌^◌, ◌<◌, ◌≤◌, ◌==◌, true, [], ◌∷◌, ◌++◌, length, None, All, IfOk, IfErr};
ghost use Rattle.std.specs.Option.{option_to_list};
ghost use Rattle.std.specs.VecDeque.{deque_capacity};
ghost use mathlib.Core.List.{IsPrefix};
ghost use Rattle.side_file.specs.Portions.{portion_entries, entries_of, HasSome};

use crate::side_file::RING_ENTRIES;
use crate::{Entry, Portion};
use chunk_list::ChunkQueue;
use keybytes::Fault;
use std::alloc::Global;
use std::collections::VecDeque;
use std::marker::Model;

/// A queue of entries that come by portions and go one by one. It takes no memory once it is made.
#[derive(Drop)]
pub(crate) struct PortionQueue {
    /// There is one wherever there is an entry at all.
    first: Option<Entry>,
    /// Those behind it.
    chunks: ChunkQueue<Entry>,
    next: VecDeque<Portion>,
    len: usize,
}

impl Model for PortionQueue {
    ghost use Rattle.side_file.specs.QueueValue.{QueueValue};

    ghost Value = { QueueValue };

    ghost use Rattle.std.specs.Prelude.{◌-◌};
    ghost use Rattle.std.specs.VecDeque.{deque_len, deque_capacity};
    ghost use Rattle.side_file.specs.Queues.{at_hand, IsAtHand};

    ghost view = { λ queue. record {
      entries = at_hand queue.first queue.chunks.items queue.next.items;
      room = deque_capacity queue.next - deque_len queue.next;
    } };

    ghost invariant = { λ queue. IsAtHand queue.first queue.chunks.items queue.next.items queue.len (deque_capacity queue.next) };
}

impl PortionQueue {
    /// The empty queue, with places for twice as many portions as a ring has.
    pub fn new(alloc: Global) -> Result<PortionQueue, Fault>
        ensures ok { IfOk result (λ queue. queue.entries ≡ []) }
        ensures memory { IfErr result (λ fault. fault ≡ Fault.Memory) }
    {
        let next = VecDeque::with_capacity(alloc, 2 * RING_ENTRIES)?;
        Ok(PortionQueue {
            first: None,
            chunks: ChunkQueue::new(alloc),
            next,
            len: 0,
        })
    }

    /// How many entries there are.
    pub fn len(&self) -> usize
        ensures { result ≡ length self.now.entries }
    {
        self.len
    }

    /// Whether there is no entry.
    pub fn is_empty(&self) -> bool
        ensures value { result ≡ (length self.now.entries == 0) }
        ensures room { result ≡ true → 256 ≤ self.now.room }
    {
        self.first.is_none()
    }

    /// Whether all portions of a ring find places.
    pub fn has_room(&self) -> bool
        ensures { result ≡ true → 256 ≤ self.now.room }
    {
        self.next.len() <= RING_ENTRIES
    }

    /// The first entry.
    pub fn peek(&self) -> &Entry
        requires { 0 < length self.now.entries }
        ensures { IsPrefix (result.now ∷ []) self.now.entries }
    {
        match &self.first {
            Some(entry) => entry,
            None => unreachable!(),
        }
    }

    /// Takes the first entry out.
    pub fn pop(&mut self) -> Entry
        requires { 0 < length self.old.entries }
        ensures { self.old.entries ≡ result ∷ self.new.entries }
    {
        let Some(entry) = self.first.take() else {
            unreachable!()
        };
        self.first = next_entry(&mut self.chunks, &mut self.next);
        self.len -= 1;
        entry
    }

    /// Puts a portion behind the others.
    pub fn push(&mut self, portion: Portion)
        requires room { 0 < self.old.room }
        requires some { HasSome portion }
        requires countable { length self.old.entries + length (portion_entries portion) < 2 ^ 60 }
        ensures entries { self.new.entries ≡ self.old.entries ++ portion_entries portion }
        ensures room { self.old.room ≤ self.new.room + 1 }
    {
        self.len += portion.len();
        self.next.push_back_reserved(portion);
        if self.first.is_none() {
            self.first = next_entry(&mut self.chunks, &mut self.next);
        }
    }
}

// Takes the next entry out.
fn next_entry(chunks: &mut ChunkQueue<Entry>, next: &mut VecDeque<Portion>) -> Option<Entry>
    requires { All HasSome next.old.items }
    ensures order { option_to_list result ++ (chunks.new.items ++ entries_of next.new.items) ≡ chunks.old.items ++ entries_of next.old.items }
    ensures none { result ≡ None → chunks.new.items ++ entries_of next.new.items ≡ [] }
    ensures some { All HasSome next.new.items }
    ensures fewer { length next.new.items ≤ length next.old.items }
    ensures places { deque_capacity next.new ≡ deque_capacity next.old }
{
    if let Some(entry) = chunks.pop_front() {
        return Some(entry);
    }
    let Some(portion) = next.pop_front() else {
        return None;
    };
    match portion {
        Portion::One(entry) => Some(entry),
        Portion::Many(entries) => {
            *chunks = entries;
            chunks.pop_front()
        }
    }
}
