//! What a session does: it fills its part of the table, or writes beside a build, by transactions of an insert, an update and a delete, of which
//! 15 in 100 are rolled back.

use crate::course::Course;
use crate::dealing::part_of;
use crate::done::Done;
use crate::failure::Failure;
use crate::hand::{Desk, Hand, ROWS_OF_A_TRANSACTION};
use crate::span::Span;
use crate::timer::nanos_between;
use builder_core::Event;
use keybytes::Fault;
use rand::RngExt;
use std::sync::Wait;
use std::sync::atomic::Ordering;
use std::thread::{sleep, yield_now};
use std::time::{Clock, Duration};

/// Of so many transactions ..
const OF_ALL: u32 = 100;

/// .. so many are rolled back.
const ROLLED_BACK: u32 = 15;

/// How many writes a transaction makes.
const WRITES: usize = 3;

/// Somebody who fills the table or writes beside the build, and what came of it.
#[derive(Drop)]
pub struct Writer<'h, 'c, R: Wait + Clock, D: Desk> {
    pub hand: Hand<'h, R, D>,
    course: &'c Course,
    /// The entries that the open transaction makes.
    entries: u64,
    pub done: Done,
}

/// That another transaction holds the row or its key, that there is no such row, or that no transaction may begin is no failure of a writer.
fn is_expected(fault: Fault) -> bool {
    matches!(
        fault,
        Fault::RowHeld(_)
            | Fault::NoSuchRow
            | Fault::PageFull
            | Fault::Duplicate(..)
            | Fault::KeyHeld(..)
            | Fault::Fenced
            | Fault::TooManyTxns
    )
}

impl<'h, 'c, R: Wait + Clock, D: Desk> Writer<'h, 'c, R, D> {
    pub fn new(hand: Hand<'h, R, D>, course: &'c Course) -> Writer<'h, 'c, R, D> {
        Writer {
            hand,
            course,
            entries: 0,
            done: Done::NOTHING,
        }
    }

    /// Puts so many rows in.
    pub fn fill(&mut self, rows: u32) {
        let transactions = rows.div_ceil(ROWS_OF_A_TRANSACTION);
        for number in 0..transactions {
            let rows = part_of(rows, transactions, number);
            let spent = self.hand.transact(rows, true);
            self.done.filled = self.done.filled.saturating_add(spent);
        }
    }

    /// Makes transactions until the run is over, with a pause behind each. Where none may begin it tries again.
    pub fn write(&mut self, pause: Duration) {
        let rt = self.hand.rt;
        self.hand.lap();
        let mut since = self.hand.timer.last;
        for _ in rt.forever() {
            if self.course.is_over.load(Ordering::SeqCst) != 0
                || self.hand.timer.failure.is_some()
            {
                return;
            }
            if let Some(txn) = self.call("a transaction", Event::Begin, 0) {
                self.transact(txn);
                let spent = nanos_between(since, self.hand.timer.last);
                self.note(Span::transaction(spent));
                if pause > Duration::ZERO {
                    sleep(rt, pause);
                }
                self.hand.lap();
                since = self.hand.timer.last;
            } else {
                yield_now();
                self.hand.lap();
            }
        }
    }

    /// A transaction that has begun.
    fn transact(&mut self, txn: u64) {
        self.entries = 0;
        self.hand.draw(2);
        self.hand.lap();
        for is_new in [true, false] {
            if let Some(write) = self.hand.rows.next_write(txn, is_new) {
                self.call("a write", write, if is_new { 1 } else { 2 });
            }
        }
        let rid = self.hand.rows.pick();
        self.call("a write", Event::Delete { txn, rid }, 1);
        if self.hand.rows.rng.random_range(0..OF_ALL) >= ROLLED_BACK {
            self.call("a commit", Event::Commit { txn }, 0);
            return;
        }
        for _ in 0..WRITES {
            if self.call("an undo", Event::Undo { txn }, 0) == Some(0) {
                break;
            }
        }
        // What is undone makes as many entries again.
        self.note(Span::call(0, self.entries));
    }

    /// Does an event whose change makes so many entries, and notes how long it took. Where it is refused, as is expected, nothing is answered.
    fn call(&mut self, step: &'static str, event: Event, entries: u64) -> Option<u64> {
        let is_write = !matches!(event, Event::Begin | Event::Commit { .. });
        let told = self.hand.desk.answer(step, event);
        let spent = self.hand.lap();
        let (number, entries) = match told {
            Ok(number) => (Some(number), entries),
            Err(Failure::Refused(_, fault)) if is_expected(fault) => (None, 0),
            Err(failure) => {
                self.hand.timer.fail(failure);
                (None, 0)
            }
        };
        self.entries = self.entries.saturating_add(entries);
        let step = self.step();
        self.done.note(step, Span::call(spent, entries));
        self.done.count(step, spent, is_write);
        number
    }

    /// Notes what was met in the step in which the run is.
    pub fn note(&mut self, met: Span) {
        let step = self.step();
        self.done.note(step, met);
    }

    /// The step in which the run is.
    fn step(&self) -> u64 {
        self.course.step.load(Ordering::SeqCst)
    }
}
