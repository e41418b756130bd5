//! The sessions of a run, each in a thread of its own.

use crate::course::Course;
use crate::dealing::part_of;
use crate::done::Done;
use crate::failure::Failure;
use crate::hand::{Desk, Hand};
use crate::options::Options;
use crate::rows::Rows;
use crate::span::Span;
use crate::timer::Timer;
use crate::writer::Writer;
use builder_core::Event;
use crew::{Opened, Receipt, Session, Table};
use heap_log::LogRec;
use keybytes::Fault;
use std::alloc::Global;
use std::sync::Wait;
use std::thread::{Threads, map_indices};
use std::time::{Clock, Duration};

/// No run has more sessions at a time.
const SESSIONS_MAX: usize = 16;

/// What the writers' rows are drawn by differs from what those of the table are drawn by.
const SEED_OF_WRITERS: u64 = 4_294_967_296;

/// A session that answers events.
#[derive(Drop)]
struct SessionDesk<'a, T: Opened, R: Wait> {
    rt: &'a R,
    session: Session<'a, T>,
}

impl<T: Opened, R: Wait> Desk for SessionDesk<'_, T, R> {
    fn answer(&mut self, step: &'static str, event: Event) -> Result<u64, Failure> {
        let rt = self.rt;
        let told = match event {
            Event::Begin => self.session.begin(rt),
            Event::Insert { txn, row } => page_of(self.session.insert(rt, txn, row)),
            Event::Update { txn, rid, row } => page_of(self.session.update(rt, txn, rid, row)),
            Event::Delete { txn, rid } => page_of(self.session.delete(rt, txn, rid)),
            Event::Commit { txn } => page_of(self.session.commit(rt, txn)),
            Event::Undo { txn } => match self.session.undo(rt, txn) {
                Ok(step) => Ok(step.left as u64),
                Err(fault) => Err(fault),
            },
            _other => Err(Fault::NoBuild),
        };
        match told {
            Ok(number) => Ok(number),
            Err(fault) => Err(Failure::Refused(step, fault)),
        }
    }
}

/// On which page a row was written, if one was.
fn page_of<T: Opened>(told: Result<Receipt<T>, Fault>) -> Result<u64, Fault> {
    match told {
        Ok(receipt) => match receipt.rec() {
            LogRec::Write { rid, .. } => Ok(u64::from(rid.page)),
            _ => Ok(0),
        },
        Err(fault) => Err(fault),
    }
}

/// Fills a table that has no row yet by as many sessions as are asked for. One whose first page has so many rows is written to by the writers
/// until the run is over.
pub fn by_sessions<T, R>(
    rt: &R,
    alloc: Global,
    table: &Table<T>,
    options: &Options,
    course: &Course,
    on_page: u16,
) -> Done
where
    T: Opened + Send + Sync,
    R: Threads + Wait + Clock + Sync,
{
    let count = if on_page == 0 {
        options.sessions
    } else {
        options.writers
    };
    let told = map_indices(
        rt,
        alloc,
        count as usize,
        &move |number| { by_session(rt, alloc, table, options, course, on_page, number) },
    );
    match told {
        Ok(all) => Done::together(all.as_slice()),
        Err(error) => Done {
            failure: Some(Failure::from(error)),
            ..Done::NOTHING
        },
    }
}

/// What the session of that number does.
fn by_session<'x, T: Opened, R: Wait + Clock>(
    rt: &'x R,
    alloc: Global,
    table: &'x Table<T>,
    options: &'x Options,
    course: &'x Course,
    on_page: u16,
    number: usize,
) -> Done {
    let number = number.min(SESSIONS_MAX) as u32;
    let seed = if on_page == 0 {
        options.seed
    } else {
        options.seed.wrapping_add(SEED_OF_WRITERS)
    };
    let mut desk = SessionDesk {
        rt,
        session: table.session(rt),
    };
    let hand = Hand {
        rt,
        desk: &mut desk,
        rows: Rows::new(
            alloc,
            options,
            seed.wrapping_add(u64::from(number)),
            on_page,
        ),
        timer: Timer::new(course.since),
    };
    let mut writer = Writer::new(hand, course);
    if on_page == 0 {
        writer.fill(part_of(options.rows, options.sessions, number));
    } else {
        writer.write(Duration::from_micros(u64::from(options.pause)));
        writer.note(Span::NONE);
    }
    Done {
        on_page: writer.hand.rows.on_page,
        failure: writer.hand.timer.failure,
        ..writer.done
    }
}
