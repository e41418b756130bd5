//! The log's answers, and copies of its records.
ghost use Rattle.std.specs.Prelude.{◌≡◌, ◌<◌, ◌≤◌, None, OnOk};
ghost use Rattle.heap_log.specs.Places.{HasPlace};

mod cases;

use crate::desk::Desk;
pub use cases::CASES;
use heap_log::{Log, LogRec, Outcome, Rid, Verdicts};
use keybytes::{Fault, Key};
use std::alloc::Global;

pub enum Step {
    /// The transaction deletes what stands there.
    Delete(u64, Rid),
    /// It takes the write of that number back.
    Undo(u64, usize),
    /// Makes room.
    Reserve(usize),
    Len(usize),
    /// A transaction's last write, its newest standing one and how many stand.
    Of(u64, (Option<usize>, Option<usize>, usize)),
    /// The last write at a RID.
    At(Rid, Option<usize>),
    /// Where a write leads: to the standing one before it at its RID, and to the one before it of its transaction.
    Before(usize, Option<(Option<usize>, Option<usize>)>),
    /// Copies a switch that refuses an index, two of whose rows share a key too long to be kept in place.
    CopySwitch,
}

/// A log, and what gives it memory.
pub struct Records {
    log: Log,
    alloc: Global,
}

impl Drop for Records {
    fn drop(self) {
        let Records { log: _, alloc: _ } = self;
    }
}

impl Records {
    pub fn new(alloc: Global) -> Records {
        Records {
            log: Log::new(alloc),
            alloc,
        }
    }
}

impl Desk for Records {
    type Step = Step;

    fn does(&mut self, step: &Step) -> Result<bool, Fault> {
        match *step {
            Step::Delete(txn, rid) => delete(&mut self.log, txn, rid)?,
            Step::Undo(txn, undone) => undo(&mut self.log, txn, undone)?,
            Step::Reserve(count) => reserve_again(&mut self.log, count)?,
            Step::Len(count) => return Ok(self.log.len() == count),
            Step::Of(txn, answer) => return Ok(of(&self.log, txn) == answer),
            Step::At(rid, answer) => return Ok(self.log.last(rid) == answer),
            Step::Before(number, answer) => return Ok(before(&self.log, number) == answer),
            Step::CopySwitch => return copies_a_switch(self.alloc),
        }
        Ok(true)
    }
}

/// Makes room, once more where memory was refused, which has changed nothing.
fn reserve_again(log: &mut Log, additional: usize) -> Result<(), Fault>
    ensures { OnOk result (additional ≤ log.new.room) }
{
    let newest = log.newest(1);
    if log.reserve(additional).is_err() {
        if log.newest(1) != newest {
            return Err(Fault::BadCount);
        }
        log.reserve(additional)?;
    }
    Ok(())
}

/// Makes room and a place for a write at the RID, once more where memory was refused, which has changed nothing.
fn reserve_at_again(log: &mut Log, rid: Rid) -> Result<(), Fault>
    ensures room { OnOk result (0 < log.new.room) }
    ensures place { OnOk result (HasPlace rid log.new.places) }
    ensures txns { log.new.txns ≡ log.old.txns }
{
    let last = log.last(rid);
    if log.reserve_at(rid).is_err() {
        if log.last(rid) != last {
            return Err(Fault::BadCount);
        }
        log.reserve_at(rid)?;
    }
    Ok(())
}

/// Makes places for the transaction's writes, once more where memory was refused, which has changed nothing.
fn reserve_txn_again(log: &mut Log, txn: u64) -> Result<(), Fault>
    ensures { OnOk result (txn < log.new.txns) }
{
    let newest = log.newest(txn);
    if log.reserve_txn(txn).is_err() {
        if log.newest(txn) != newest {
            return Err(Fault::BadCount);
        }
        log.reserve_txn(txn)?;
    }
    Ok(())
}

fn delete(log: &mut Log, txn: u64, rid: Rid) -> Result<(), Fault> {
    reserve_txn_again(log, txn)?;
    reserve_at_again(log, rid)?;
    log.add(LogRec::Write {
        txn,
        rid,
        row: None,
    });
    Ok(())
}

fn undo(log: &mut Log, txn: u64, undone: usize) -> Result<(), Fault> {
    reserve_again(log, 1)?;
    if undone == 0 || undone > log.len() {
        return Err(Fault::BadCount);
    }
    log.add(LogRec::Undo { txn, undone });
    Ok(())
}

fn of(log: &Log, txn: u64) -> (Option<usize>, Option<usize>, usize) {
    (log.last_of(txn), log.newest(txn), log.standing(txn))
}

fn before(log: &Log, number: usize) -> Option<(Option<usize>, Option<usize>)> {
    if number == 0 || number > log.len() {
        return None;
    }
    match log.rec(number) {
        LogRec::Write { .. } => Some((log.before(number), log.previous_of(number))),
        _ => None,
    }
}

const LONG: &[u8] = b"a key too long to be kept in place";

const FIRST: Rid = Rid { page: 0, slot: 0 };

const SECOND: Rid = Rid { page: 0, slot: 1 };

/// That key, cut from a longer one.
fn long_key(alloc: Global) -> Result<Key, Fault> {
    let mut key = Key::new(alloc);
    key.add(b"a key too long to be kept in place, and more")?;
    key.cut(34);
    Ok(key)
}

fn copies_a_switch(alloc: Global) -> Result<bool, Fault> {
    let refused = Outcome::Shared {
        key: long_key(alloc)?,
        first: FIRST,
        second: SECOND,
    };
    let verdicts = Verdicts::new(vec![in alloc; refused]?);
    Ok(refuses_long(&LogRec::Switch { verdicts }.clone()?))
}

fn refuses_long(record: &LogRec) -> bool {
    let LogRec::Switch { verdicts } = record else {
        return false;
    };
    match verdicts.as_slice() {
        [
            Outcome::Shared {
                key,
                first: FIRST,
                second: SECOND,
            },
        ] => key.bytes() == LONG,
        _ => false,
    }
}
