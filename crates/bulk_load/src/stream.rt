ghost use Rattle.std.specs.Prelude.{◌≡◌, ◌++◌, ◌∷◌, ◌⊎◌, ◌+◌, [], length, None, IfErr, IfOk, IfSome, IfNone, MatchOption, OnErr, true};
ghost use Rattle.rtrb.specs.Ring.{received, sent, known_free};
ghost use Rattle.bulk_load.specs.Streams.{stream_at};

use crate::Source;
use crate::batch::Batch;
use crate::loading::Loading;
use crossbeam_utils::sync::Unparker;
use keybytes::{Fault, Pair};
use rtrb::{Consumer, Producer};
use std::collections::VecDeque;
use std::marker::Model;
use std::sync::Wait;
use std::{mem, thread};

/// How many batches are handed back until their sender is woken for them.
const WOKEN_FOR: usize = 8;

/// The pairs of a stream, as its batches come.
pub(crate) struct Stream<'a, R: Wait, T: Loading> {
    rt: &'a R,
    number: usize,
    filled: Consumer<Batch<T>>,
    spare: Producer<VecDeque<Pair>>,
    pairs: VecDeque<Pair>,
    end: usize,
    last: bool,
    fault: Option<Fault>,
    sender: Unparker,
    batches: usize,
}

/// A sender that sleeps is woken, and finds that nobody takes any more.
impl<'a, R: Wait, T: Loading> Drop for Stream<'a, R, T> {
    fn drop(self) {
        let Stream {
            rt: _,
            number: _,
            filled,
            spare,
            pairs: _,
            end: _,
            last: _,
            fault: _,
            sender,
            batches: _,
        } = self;
        drop(filled);
        drop(spare);
        sender.unpark();
    }
}

impl<'a, R: Wait, T: Loading> Model for Stream<'a, R, T> {
    ghost use Rattle.std.specs.Prelude.{◌≡◌, ◌++◌, [], drop, length, true};
    ghost use Rattle.rtrb.specs.Ring.{received, sent, known_free};
    ghost use Rattle.bulk_load.specs.Streams.{StreamValue, first_mark, stream_at};

    ghost Value = { StreamValue };

    ghost view = { λ stream. record {
      pairs = stream.pairs.items ++ drop stream.end (stream_at T.streams stream.number);
      received = received stream.filled;
      returned = length (sent stream.spare);
      places = known_free stream.spare;
      fault = stream.fault;
    } };

    ghost invariant = { λ stream. (stream.last ≡ true → drop stream.end (stream_at T.streams stream.number) ≡ [])
        × (first_mark (received stream.filled) ≡ stream.fault) };
}

/// No batch is there: whether one may still come. A sender that is gone put all that it ever puts before it went.
fn may_come<X: Drop>(filled: &mut Consumer<X>) -> bool
    ensures { received filled.new ≡ received filled.old }
{
    !filled.is_abandoned() || filled.slots() > 0
}

/// Hands an empty batch back, where a place for it is seen.
fn hand_back<X: Drop>(spare: &mut Producer<X>, used: X)
    ensures { (sent spare.new ≡ sent spare.old ++ used ∷ []) ⊎ (known_free spare.new ≡ 0) }
{
    if !spare.is_full() {
        spare.push_reserved(used);
    }
}

/// Wakes the sender, once so many batches were handed back that it is worth it.
fn wake(sender: &Unparker, batches: usize) {
    if batches % WOKEN_FOR == 0 {
        sender.unpark();
    }
}

impl<'a, R: Wait, T: Loading> Stream<'a, R, T> {
    pub(crate) fn new(
        rt: &'a R,
        number: usize,
        filled: Consumer<Batch<T>>,
        spare: Producer<VecDeque<Pair>>,
        empty: VecDeque<Pair>,
        sender: Unparker,
    ) -> Stream<'a, R, T>
        requires none { empty.items ≡ [] }
        requires new { received filled ≡ [] }
        ensures { result.pairs ≡ stream_at T.streams number }
    {
        Stream {
            rt,
            number,
            filled,
            spare,
            pairs: empty,
            end: 0,
            last: false,
            fault: None,
            sender,
            batches: 0,
        }
    }

    /// Takes the next batch, if one is there, and hands the one before it back; tells whether pairs are there, or none is left. A sender that is gone before
    /// its last batch, one that broke off and a batch that doesn't follow are refused for want of memory.
    fn fetch(&mut self) -> Result<bool, Fault>
        ensures pairs { self.new.pairs ≡ self.old.pairs }
        ensures back { IfOk result (λ _. (self.new.received ≡ self.old.received)
            ⊎ ((self.new.returned ≡ self.old.returned + 1) ⊎ (self.new.places ≡ 0))) }
        ensures mark { IfOk result (λ _. self.new.fault ≡ None) }
        ensures memory { IfErr result (λ fault. fault ≡ Fault.Memory) }
    {
        if self.fault.is_some() {
            return Err(Fault::Memory);
        }
        if !self.pairs.is_empty() || self.last {
            return Ok(true);
        }
        if self.filled.slots() == 0 {
            self.sender.unpark();
            return if may_come(&mut self.filled) {
                Ok(false)
            } else {
                Err(Fault::Memory)
            };
        }
        let batch = self.filled.pop_known();
        self.fault = batch.fault();
        if self.fault.is_some() || !batch.follows(self.number, self.end) {
            return Err(Fault::Memory);
        }
        let (pairs, end, last) = batch.into_parts();
        self.end = end;
        self.last = last;
        let used = mem::replace(&mut self.pairs, pairs);
        hand_back(&mut self.spare, used);
        self.batches = self.batches.wrapping_add(1);
        wake(&self.sender, self.batches);
        Ok(true)
    }

    /// The next pair of the batch at hand.
    fn give(&mut self) -> Option<Pair>
        ensures some { IfSome result (λ pair. self.old.pairs ≡ pair ∷ self.new.pairs) }
        ensures none { IfNone result (self.new.pairs ≡ self.old.pairs) }
        ensures fault { self.new.fault ≡ self.old.fault }
    {
        self.pairs.pop_front()
    }

    /// The next pair, of the batch at hand or of one that it waits for.
    fn wait_for_next(&mut self) -> Result<Option<Pair>, Fault>
        ensures first { IfOk result (λ next.
            MatchOption next ((self.old.pairs ≡ []) × (self.new.pairs ≡ [])) (λ pair. self.old.pairs ≡ pair ∷ self.new.pairs)) }
        ensures refused { OnErr result (self.new.pairs ≡ self.old.pairs) }
        ensures memory { IfErr result (λ fault. fault ≡ Fault.Memory) }
    {
        let rt = self.rt;
        for _ in rt.forever() {
            if let Some(pair) = self.give() {
                return Ok(Some(pair));
            }
            if self.is_done() {
                return Ok(None);
            }
            if !self.fetch()? {
                thread::yield_now();
            }
        }
        unreachable!()
    }

    /// Whether nothing is left.
    fn is_done(&self) -> bool
        ensures { result ≡ true → self.now.pairs ≡ [] }
    {
        self.last && self.pairs.is_empty()
    }
}

impl<'a, R: Wait, T: Loading> Source for Stream<'a, R, T> {
    ghost left = { λ stream. stream.pairs };

    ghost Kept = { Unit {0} };

    ghost kept = { λ _. tt };

    /// Mostly the next pair of the batch at hand: so much stands where it is called.
    #[inline(always)]
    fn next(&mut self) -> Result<Option<Pair>, Fault> {
        match self.give() {
            Some(pair) => Ok(Some(pair)),
            None => self.wait_for_next(),
        }
    }
}
