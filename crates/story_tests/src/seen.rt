//! All that the public calls tell of a table and its build.

use crate::made::Made;
use crate::stand::Stand;
use builder_core::{Core, Event, Op, TableRings};
use keybytes::{Cell, Fault, Key, Rid};
use replay::Answer;
use run_spool::Spool;
use std::alloc::Global;

/// More transactions than a story begins that is told where memory may run out.
const TXNS: u64 = 12;

/// How many slots of a page are looked at.
const SLOTS: u16 = 8;

/// Where no row ever stands.
const NOWHERE: Rid = Rid {
    page: 1000,
    slot: 0,
};

/// How a table and its build stand.
#[derive(Drop)]
pub struct Seen {
    /// One word for all but the side-files: the records of the log, the pages, the open transactions with writes that
    /// stand; which transactions are open, which of them are being undone, and the newest write of each that stands;
    /// the rows; what the ready indexes are on, with their pairs; and whether a build runs. Lists of the same length
    /// that differ in one word have different sums.
    word: u64,
    /// A word for each entry of the side-files of two indexes that wasn't fed yet.
    first: Vec<u64>,
    second: Vec<u64>,
    /// Whether there was memory for all that.
    is_whole: bool,
}

impl Seen {
    /// Whether all is as it was.
    pub fn is(&self, before: &Seen) -> bool {
        self.is_behind(before)
            && self.first.len() == before.first.len()
            && self.second.len() == before.second.len()
    }

    /// The same, but for entries at the front of a side-file, which may be gone.
    pub fn is_behind(&self, before: &Seen) -> bool {
        self.is_whole
            && before.is_whole
            && self.word == before.word
            && before.first.ends_with(self.first.as_slice())
            && before.second.ends_with(self.second.as_slice())
    }

    fn add(&mut self, word: u64) {
        self.word = with_word(self.word, word);
    }
}

/// A sum and a word more.
fn with_word(sum: u64, word: u64) -> u64 {
    (sum ^ word).wrapping_mul(0x100_0000_01b3)
}

fn with_pair(sum: u64, key: &Key, rid: Rid) -> u64 {
    let mut sum = sum;
    for byte in key.bytes() {
        sum = with_word(sum, *byte as u64);
    }
    with_word(with_word(sum, rid.page as u64), rid.slot as u64)
}

/// Why a transaction can't take away a row that isn't there: it isn't open, or is being undone; or just for that.
fn add_txns<S: Made, T: TableRings>(seen: &mut Seen, stand: &mut Stand<S, T>) {
    for txn in 1..=TXNS {
        let rid = NOWHERE;
        if let Answer::Refused { fault } = stand.step(Event::Delete { txn, rid }) {
            seen.add(fault.number() as u64);
        }
        seen.add(stand.core.live().newest(txn).unwrap_or(0) as u64);
    }
}

/// Adds the row at a RID, or that there is none.
fn add_row<S: Spool, T: TableRings>(seen: &mut Seen, core: &mut Core<S, T>, rid: Rid) {
    match core.get(rid) {
        Ok(row) => {
            for cell in row.cells() {
                if let Cell::Int(number) = cell {
                    seen.add((*number).cast_unsigned());
                }
            }
        }
        Err(fault) => {
            seen.is_whole &= fault != Fault::Memory;
            seen.add(fault.number() as u64);
        }
    }
}

fn add_rows<S: Spool, T: TableRings>(seen: &mut Seen, core: &mut Core<S, T>) {
    for page in 0..core.live().heap().pages() {
        for slot in 0..SLOTS {
            add_row(seen, core, Rid { page, slot });
        }
    }
}

fn add_index<S: Spool, T: TableRings>(seen: &mut Seen, core: &Core<S, T>, number: usize) {
    let Ok(index) = core.ready(number) else {
        return;
    };
    for column in index.spec().columns() {
        seen.add(column.column as u64);
        seen.add(u64::from(column.descending));
    }
    for pair in index.tree().iter() {
        seen.word = with_pair(seen.word, &pair.key, pair.rid);
    }
}

fn add_core<S: Spool, T: TableRings>(seen: &mut Seen, core: &Core<S, T>) {
    let heap = core.live().heap();
    seen.add(heap.records() as u64);
    seen.add(heap.pages() as u64);
    seen.add(heap.busy() as u64);
    seen.add(u64::from(core.is_building()));
    for number in 0..core.live().ready().len() {
        add_index(seen, core, number);
    }
}

/// Keeps a word for each entry of the index; whether there was memory for them.
fn are_kept<S: Spool, T: TableRings>(
    words: &mut Vec<u64>,
    core: &Core<S, T>,
    index: usize,
) -> bool {
    let Ok(entries) = core.side(index) else {
        return true;
    };
    let mut are_kept = true;
    for entry in entries {
        let sum = with_word(entry.build, u64::from(entry.op == Op::Insert));
        are_kept &= words.push(with_pair(sum, &entry.key, entry.rid)).is_ok();
    }
    are_kept
}

fn look_once<S: Made, T: TableRings>(stand: &mut Stand<S, T>, alloc: Global) -> Seen {
    let mut seen = Seen {
        word: 0xcbf2_9ce4_8422_2325,
        first: Vec::new(alloc),
        second: Vec::new(alloc),
        is_whole: true,
    };
    add_rows(&mut seen, &mut stand.core);
    add_txns(&mut seen, stand);
    add_core(&mut seen, &stand.core);
    seen.is_whole &= are_kept(&mut seen.first, &stand.core, 0);
    seen.is_whole &= are_kept(&mut seen.second, &stand.core, 1);
    seen
}

/// How all stands now. What is refused for want of memory is looked at once more.
pub fn look<S: Made, T: TableRings>(stand: &mut Stand<S, T>) -> Seen {
    let alloc = stand.alloc;
    let seen = look_once(stand, alloc);
    if seen.is_whole {
        seen
    } else {
        look_once(stand, alloc)
    }
}
