use crate::failure::Failure;
use crate::rows::Rows;
use crate::timer::{Timer, nanos_between};
use builder_core::Event;
use std::time::{Clock, Instant};

/// The most rows that one transaction puts in, or changes once the indexes are ready.
pub const ROWS_OF_A_TRANSACTION: u32 = 1_000;

/// Where events are answered: a core, or a session of a table that is shared. Those who ask know no more of either than this, so that their
/// proofs do without what it keeps.
pub trait Desk {
    /// Does an event; a refused one is named as `step`. Answers the number of the transaction that begins, of the page on which a row is put,
    /// of the entries that are fed or applied, of the writes that are left to undo, or of the indexes that are ready; of other events 0.
    fn answer(&mut self, step: &'static str, event: Event) -> Result<u64, Failure>;
}

/// Somebody who writes random rows to the table.
#[derive(Drop)]
pub struct Hand<'a, R: Clock, D: Desk> {
    pub rt: &'a R,
    pub desk: &'a mut D,
    pub rows: Rows<'a>,
    pub timer: Timer,
}

impl<R: Clock, D: Desk> Hand<'_, R, D> {
    /// Ends a lap: answers the nanoseconds since the last one ended.
    pub fn lap(&mut self) -> u64 {
        match Instant::now(self.rt) {
            Ok(now) => {
                let spent = nanos_between(self.timer.last, now);
                self.timer.last = now;
                spent
            }
            Err(error) => {
                self.timer.fail(Failure::from(error));
                0
            }
        }
    }

    /// Does an event, unless the run has failed; it fails where the event is refused, which is answered with 0.
    pub fn ask(&mut self, step: &'static str, event: Event) -> u64 {
        if self.timer.failure.is_some() {
            return 0;
        }
        let told = self.desk.answer(step, event);
        self.timer.take(told)
    }

    /// Draws so many rows for the next transaction.
    pub fn draw(&mut self, count: u32) {
        if let Err(fault) = self.rows.draw(count) {
            self.timer.fail(Failure::Refused("a row", fault));
        }
    }

    /// One transaction puts so many random rows in, or has them replace as many. Answers how long it took, once they were drawn.
    pub fn transact(&mut self, count: u32, is_new: bool) -> u64 {
        if self.timer.failure.is_some() {
            return 0;
        }
        self.draw(count);
        self.lap();
        let txn = self.ask("a transaction", Event::Begin);
        for _ in 0..count {
            self.write(txn, is_new);
        }
        self.ask("a commit", Event::Commit { txn });
        self.lap()
    }

    /// The transaction writes the next row, which is counted where it is new on the first page.
    fn write(&mut self, txn: u64, is_new: bool) {
        if let Some(event) = self.rows.next_write(txn, is_new) {
            let page = self.ask("a write", event);
            if is_new && page == 0 {
                self.rows.on_page = self.rows.on_page.saturating_add(1);
            }
        }
    }
}
