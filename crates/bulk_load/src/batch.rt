ghost use Rattle.std.specs.Prelude.{◌≡◌, [], true, drop};
ghost use Rattle.bulk_load.specs.Streams.{IsPart, stream_at};

use crate::loading::Loading;
use keybytes::{Fault, Pair};
use std::collections::VecDeque;
use std::marker::{Model, PhantomData};

/// Some pairs of a stream. Its type keeps where in the stream they stand, and that none is behind the last batch.
#[derive(Drop)]
pub(crate) struct Batch<T: Loading> {
    number: usize,
    start: usize,
    end: usize,
    pairs: VecDeque<Pair>,
    last: bool,
    fault: Option<Fault>,
    of: PhantomData<T>,
}

impl<T: Loading> Model for Batch<T> {
    ghost use Rattle.std.specs.Prelude.{◌≡◌, [], true, drop};
    ghost use Rattle.bulk_load.specs.Streams.{BatchValue, IsPart, stream_at};

    ghost Value = { BatchValue };

    ghost view = { λ batch. record {
      number = batch.number;
      start = batch.start;
      end = batch.end;
      pairs = batch.pairs.items;
      last = batch.last;
      fault = batch.fault;
    } };

    ghost invariant = { λ batch. IsPart (stream_at T.streams batch.number) batch.start batch.end batch.pairs.items
        × (batch.last ≡ true → drop batch.end (stream_at T.streams batch.number) ≡ []) };
}

impl<T: Loading> Batch<T> {
    pub(crate) fn new(
        number: usize,
        start: usize,
        end: usize,
        pairs: VecDeque<Pair>,
        last: bool,
        fault: Option<Fault>,
    ) -> Batch<T>
        requires part { IsPart (stream_at T.streams number) start end pairs.items }
        requires last { last ≡ true → drop end (stream_at T.streams number) ≡ [] }
        ensures { result ≡ record { number = number; start = start; end = end; pairs = pairs.items; last = last; fault = fault } }
    {
        Batch {
            number,
            start,
            end,
            pairs,
            last,
            fault,
            of: PhantomData,
        }
    }

    /// Whether it is the part of that stream which begins there.
    pub(crate) fn follows(&self, number: usize, start: usize) -> bool
        ensures { result ≡ true → (self.now.number ≡ number) × (self.now.start ≡ start) }
    {
        self.number == number && self.start == start
    }

    /// Why the stream breaks off behind it.
    pub(crate) fn fault(&self) -> Option<Fault>
        ensures { result ≡ self.now.fault }
    {
        self.fault
    }

    /// Its pairs, the place behind them, and whether it is the last.
    pub(crate) fn into_parts(self) -> (VecDeque<Pair>, usize, bool)
        ensures pairs { result.0.items ≡ self.pairs }
        ensures end { result.1 ≡ self.end }
        ensures mark { result.2 ≡ self.last }
        ensures part { IsPart (stream_at T.streams self.number) self.start self.end self.pairs }
        ensures last { self.last ≡ true → drop self.end (stream_at T.streams self.number) ≡ [] }
    {
        let Batch {
            number: _,
            start: _,
            end,
            pairs,
            last,
            fault: _,
            of: _,
        } = self;
        (pairs, end, last)
    }
}
