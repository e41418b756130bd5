ghost use Rattle.std.specs.Prelude.{◌≡◌, ◌≤◌, ◌<◌, ◌+◌, ◌^◌, ◌++◌, ◌∷◌, [], false, true, drop, length, IfOk, IfErr, None, Some, Ok, map};
ghost use Rattle.std.specs.VecDeque.{deque_capacity};
ghost use Rattle.rtrb.specs.Ring.{sent};
ghost use Rattle.bulk_load.specs.Each.{in_order};
ghost use Rattle.run_merge.specs.Merging.{all_runs};
ghost use Rattle.bulk_load.specs.Streams.{first_mark, pairs_of, stream_at};

use crate::Source;
use crate::batch::Batch;
use crate::loading::Loading;
use crate::once::Once;
use crate::stock::stock;
use crossbeam_utils::sync::Parker;
use keybytes::{Fault, Pair};
use rtrb::{Consumer, Producer};
use run_spool::Spool;
use std::alloc::Global;
use std::collections::VecDeque;
use std::marker::Model;
use std::sync::Wait;
use tree_nodes::Leaf;

/// Merges, and puts what it merges into a ring, batch after batch. Empty batches come back by another ring.
pub(crate) struct Sender<S: Spool, T: Loading> {
    number: usize,
    once: Once<S>,
    count: usize,
    filled: Producer<Batch<T>>,
    spare: Consumer<VecDeque<Pair>>,
    waiting: Parker,
    leaves: Producer<Leaf>,
    done: bool,
    fault: Option<Fault>,
}

impl<S: Spool, T: Loading> Model for Sender<S, T> {
    ghost use Rattle.std.specs.Prelude.{◌≡◌, drop, true, false, None, []};
    ghost use Rattle.rtrb.specs.Ring.{sent};
    ghost use Rattle.run_merge.specs.Merging.{all_runs};
    ghost use Rattle.bulk_load.specs.Each.{in_order};
    ghost use Rattle.bulk_load.specs.Streams.{SenderValue, IsBeginning, first_mark, stream_at};

    ghost Value = { SenderValue };

    ghost view = { λ sender. record {
      number = sender.number;
      sent = sent sender.filled;
      count = sender.count;
      stakes = sender.once.stakes;
      done = sender.done;
      fault = sender.fault;
    } };

    ghost invariant = { λ sender. (in_order (all_runs sender.once.runs) ≡ drop sender.count (stream_at T.streams sender.number))
        × IsBeginning (stream_at T.streams sender.number) (sent sender.filled) sender.count
        × (sender.done ≡ true → sender.fault ≡ None → drop sender.count (stream_at T.streams sender.number) ≡ [])
        × (first_mark (sent sender.filled) ≡ sender.fault)
        × (sender.done ≡ false → sender.fault ≡ None) };
}

/// Moves pairs of the source into an empty batch, as many as there is room for, and tells whether none is left.
fn fill<X: Source>(source: &mut X, pairs: &mut VecDeque<Pair>, room: usize) -> Result<bool, Fault>
    requires empty { pairs.old.items ≡ [] }
    requires room { room ≤ deque_capacity pairs.old }
    ensures all { X.left source.old ≡ pairs.new.items ++ X.left source.new }
    ensures last { IfOk result (λ last. last ≡ true → X.left source.new ≡ []) }
    ensures count { length pairs.new.items ≤ room }
    ensures kept { X.kept source.new ≡ X.kept source.old }
    ensures memory { IfErr result (λ fault. fault ≡ Fault.Memory) }
{
    for _ in 0..room {
        match source.next()? {
            Some(pair) => pairs.push_back_reserved(pair),
            None => return Ok(true),
        }
    }
    Ok(false)
}

/// The same, where the pairs can still be counted.
fn fill_counted<X: Source>(
    source: &mut X,
    pairs: &mut VecDeque<Pair>,
    count: usize,
) -> Result<bool, Fault>
    requires empty { pairs.old.items ≡ [] }
    ensures all { X.left source.old ≡ pairs.new.items ++ X.left source.new }
    ensures last { IfOk result (λ last. last ≡ true → X.left source.new ≡ []) }
    ensures count { count + length pairs.new.items < 2 ^ 64 }
    ensures kept { X.kept source.new ≡ X.kept source.old }
    ensures memory { IfErr result (λ fault. fault ≡ Fault.Memory) }
{
    let room = pairs.capacity();
    if room > usize::MAX - count {
        return Err(Fault::Memory);
    }
    fill(source, pairs, room)
}

/// What a batch is marked with: whether it is the last, whether the sender is done with it, and why it broke off.
fn mark(told: Result<bool, Fault>) -> (bool, bool, Option<Fault>)
    ensures last { result.0 ≡ true → told ≡ Ok true }
    ensures done { result.1 ≡ true → result.2 ≡ None → result.0 ≡ true }
    ensures fault { IfErr told (λ fault. result.2 ≡ Some fault) }
    ensures broken { result.1 ≡ false → result.2 ≡ None }
{
    match told {
        Ok(last) => (last, last, None),
        Err(fault) => (false, true, Some(fault)),
    }
}

impl<S: Spool, T: Loading> Sender<S, T> {
    pub(crate) fn new(
        number: usize,
        once: Once<S>,
        filled: Producer<Batch<T>>,
        spare: Consumer<VecDeque<Pair>>,
        waiting: Parker,
        leaves: Producer<Leaf>,
    ) -> Sender<S, T>
        requires stream { in_order (all_runs once.runs) ≡ stream_at T.streams number }
        requires new { sent filled ≡ [] }
        ensures { result ≡ record { number = number; sent = []; count = 0; stakes = once.stakes; done = false; fault = None } }
    {
        Sender {
            number,
            once,
            count: 0,
            filled,
            spare,
            waiting,
            leaves,
            done: false,
            fault: None,
        }
    }

    /// Puts a batch, if there is an empty one and a place for it, and tells whether it did. With the last one, or where the merge
    /// is refused, it is done.
    fn step(&mut self) -> bool
        ensures put { result ≡ true → length self.new.sent ≡ length self.old.sent + 1 }
        ensures idle { result ≡ false → self.new ≡ self.old }
        ensures number { self.new.number ≡ self.old.number }
        ensures stakes { self.new.stakes ≡ self.old.stakes }
    {
        if self.done || self.filled.is_full() || self.spare.slots() == 0 {
            return false;
        }
        let mut pairs = self.spare.pop_known();
        pairs.clear();
        let start = self.count;
        let told = fill_counted(&mut self.once, &mut pairs, start);
        let end = start + pairs.len();
        let (last, done, fault) = mark(told);
        self.filled
            .push_reserved(Batch::new(self.number, start, end, pairs, last, fault));
        self.count = end;
        self.done = done;
        self.fault = fault;
        true
    }

    /// Puts all that is left, and ends where the end that takes is gone. It sleeps while no batch or no place is free: who takes wakes it.
    pub(crate) fn run<R: Wait>(&mut self, rt: &R, alloc: Global)
        ensures number { self.new.number ≡ self.old.number }
        ensures stakes { self.new.stakes ≡ self.old.stakes }
    {
        for _ in rt.forever() {
            if self.done || self.filled.is_abandoned() {
                return;
            }
            if self.count > 0 {
                // (a stream of one batch needs so few leaves that none are made ahead)
                stock(alloc, &mut self.leaves);
            }
            if !self.step() {
                self.waiting.park(rt);
            }
        }
    }

    /// Its spools.
    pub(crate) fn into_spools(self) -> Vec<S>
        ensures { map S.stake result.items ≡ self.stakes }
    {
        let Sender {
            number: _,
            once,
            count: _,
            filled: _,
            spare: _,
            waiting: _,
            leaves: _,
            done: _,
            fault: _,
        } = self;
        once.into_spools()
    }
}
