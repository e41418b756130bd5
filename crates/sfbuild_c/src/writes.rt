//! Transactions, and what they write.
ghost use Rattle.std.specs.Prelude.{◌≡◌, ℕ};
ghost use Rattle.keybytes.specs.declared.rid.Rid.{Rid};
ghost use Rattle.build_events.specs.declared.event.Event.{Event};
ghost use Rattle.build_events.specs.declared.reply.Reply.{Reply};
ghost use Rattle.sfbuild_c.specs.Answers.{Answered, UnlessDone, WithRow};
ghost use Rattle.sfbuild_c.specs.Places.{rid_of};

use crate::place::Place;
use crate::session::Session;
use crate::status::{CLOSED, DONE};
use builder_core::{Event, Reply};
use std::alloc::Global;

/// Begins a transaction, and tells its number.
#[unsafe(no_mangle)]
pub extern "C" fn sfbuild_begin(alloc: Global, session: &mut Session, txn: &mut u64) -> u8
    ensures told { Answered Event.Begin (Reply.Begun txn.new) result session.old session.new }
    ensures kept { UnlessDone result (txn.new ≡ txn.old) }
{
    match session.step(alloc, Event::Begin) {
        Some(Reply::Begun { txn: number }) => {
            *txn = number;
            DONE
        }
        Some(Reply::Refused { fault }) => session.tell(fault),
        Some(_) => unreachable!(),
        None => CLOSED,
    }
}

/// Inserts a row, and tells where it stands.
#[unsafe(no_mangle)]
pub extern "C" fn sfbuild_insert(
    alloc: Global,
    session: &mut Session,
    txn: u64,
    row: &[u8],
    at: &mut Place,
) -> u8
    ensures told { WithRow row.now
        (λ cells status old new. (number : ℕ) × Answered (Event.Insert txn cells) (Reply.Written number (rid_of at.new)) status old new)
        result session.old session.new }
    ensures kept { UnlessDone result (at.new ≡ at.old) }
{
    let row = match session.read_row(alloc, row) {
        Ok(row) => row,
        Err(status) => return status,
    };
    match session.step(alloc, Event::Insert { txn, row }) {
        Some(Reply::Written { rid, .. }) => {
            *at = Place::of(rid);
            DONE
        }
        Some(Reply::Refused { fault }) => session.tell(fault),
        Some(_) => unreachable!(),
        None => CLOSED,
    }
}

/// Puts a row in the place of the one that stands there.
#[unsafe(no_mangle)]
pub extern "C" fn sfbuild_update(
    alloc: Global,
    session: &mut Session,
    txn: u64,
    at: Place,
    row: &[u8],
) -> u8
    ensures { WithRow row.now
        (λ cells status old new. (number : ℕ) × (rid : Rid) × Answered (Event.Update txn (rid_of at) cells) (Reply.Written number rid) status old new)
        result session.old session.new }
{
    let row = match session.read_row(alloc, row) {
        Ok(row) => row,
        Err(status) => return status,
    };
    let rid = at.rid();
    match session.step(alloc, Event::Update { txn, rid, row }) {
        Some(Reply::Written { .. }) => DONE,
        Some(Reply::Refused { fault }) => session.tell(fault),
        Some(_) => unreachable!(),
        None => CLOSED,
    }
}

/// Deletes the row that stands there.
#[unsafe(no_mangle)]
pub extern "C" fn sfbuild_delete(alloc: Global, session: &mut Session, txn: u64, at: Place) -> u8
    ensures { (number : ℕ) × (rid : Rid) × Answered (Event.Delete txn (rid_of at)) (Reply.Written number rid) result session.old session.new }
{
    let rid = at.rid();
    match session.step(alloc, Event::Delete { txn, rid }) {
        Some(Reply::Written { .. }) => DONE,
        Some(Reply::Refused { fault }) => session.tell(fault),
        Some(_) => unreachable!(),
        None => CLOSED,
    }
}

/// Commits a transaction.
#[unsafe(no_mangle)]
pub extern "C" fn sfbuild_commit(alloc: Global, session: &mut Session, txn: u64) -> u8
    ensures { (number : ℕ) × Answered (Event.Commit txn) (Reply.Committed number) result session.old session.new }
{
    match session.step(alloc, Event::Commit { txn }) {
        Some(Reply::Committed { .. }) => DONE,
        Some(Reply::Refused { fault }) => session.tell(fault),
        Some(_) => unreachable!(),
        None => CLOSED,
    }
}

/// Undoes the newest standing write of a transaction, and tells how many are left. With none left it has ended.
#[unsafe(no_mangle)]
pub extern "C" fn sfbuild_undo(
    alloc: Global,
    session: &mut Session,
    txn: u64,
    left: &mut usize,
) -> u8
    ensures told { (number : ℕ) × Answered (Event.Undo txn) (Reply.Undone number left.new) result session.old session.new }
    ensures kept { UnlessDone result (left.new ≡ left.old) }
{
    match session.step(alloc, Event::Undo { txn }) {
        Some(Reply::Undone { left: more, .. }) => {
            *left = more;
            DONE
        }
        Some(Reply::Refused { fault }) => session.tell(fault),
        Some(_) => unreachable!(),
        None => CLOSED,
    }
}
