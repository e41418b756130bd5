//! What changes and the end of a transaction do to the pages.
ghost use Rattle.std.specs.Prelude.{◌≡◌, ◌<◌, ◌≤◌, ◌+◌, ◌&&◌, ◌==◌, ℕ, map, IfSome};
ghost use Rattle.std.specs.Option.{option_map};
ghost use Rattle.keybytes.specs.Rows.{row_bytes};
ghost use Rattle.keybytes.specs.declared.rid.Rid.{Rid};
ghost use Rattle.slotted_page.specs.Slot.{Slot};
ghost use Rattle.heap_table.specs.HeapState.{still_open, without, mark};
ghost use Rattle.heap_table.specs.Holders.{wrote};
ghost use Rattle.heap_table.specs.PageLists.{slot_in, with_slot_in, pages_by, changed, settled_if};
ghost use Rattle.heap_table.specs.Ready.{bytes_of_row, IsSized, CanWrite, CanRestore, HaveWritten};

use crate::pages::Pages;
use crate::{OpenTxn, Ready};
use heap_log::{Log, LogRec};

/// Puts a write's row into its slot, or empties it.
pub fn write_slot(pages: &mut Pages, ready: &Ready)
    requires size { IfSome ready.now.new IsSized }
    requires bytes { ready.now.bytes.items ≡ bytes_of_row ready.now.new }
    requires room { CanWrite pages.old ready.now.rid ready.now.old ready.now.new }
    ensures pages { pages.new.pages
        ≡ with_slot_in pages.old.pages pages.old.limit ready.now.rid
        (changed (slot_in pages.old.pages ready.now.rid) (option_map row_bytes ready.now.new)) }
    ensures limit { pages.new.limit ≡ pages.old.limit }
    ensures spare { pages.old.spare ≤ pages.new.spare + 1 }
{
    let rid = ready.rid;
    match (&ready.old, &ready.new) {
        (None, _) => pages.insert(rid, &ready.bytes),
        (Some(_), Some(_)) => pages.update(rid, &ready.bytes),
        (Some(_), None) => pages.hold(rid),
    }
}

/// Puts the row before a write back into its slot, or empties it.
pub fn undo_slot(pages: &mut Pages, ready: &Ready)
    requires size { IfSome ready.now.new IsSized }
    requires bytes { ready.now.bytes.items ≡ bytes_of_row ready.now.new }
    requires room { CanRestore pages.old ready.now.rid ready.now.old ready.now.new }
    ensures pages { pages.new.pages
        ≡ with_slot_in pages.old.pages pages.old.limit ready.now.rid
        (changed (slot_in pages.old.pages ready.now.rid) (option_map row_bytes ready.now.new)) }
    ensures limit { pages.new.limit ≡ pages.old.limit }
    ensures spare { pages.new.spare ≡ pages.old.spare }
{
    match (&ready.old, &ready.new) {
        (_, Some(_)) => pages.restore(ready.rid, &ready.bytes),
        (Some(_), None) => pages.hold(ready.rid),
        (None, None) => {}
    }
}

/// Settles each slot that the transaction wrote.
pub fn settle_writes(pages: &mut Pages, log: &Log, txn: u64)
    requires { (slot : Rid → Slot) × (slots : ℕ → ℕ) × (count : ℕ) × (limit : ℕ)
        × HaveWritten pages.old log.now.records txn slot slots count limit }
    ensures settled { (slot : Rid → Slot) (slots : ℕ → ℕ) (count limit : ℕ)
        → pages.old.pages ≡ pages_by slot slots count limit
        → pages.new.pages ≡ pages_by (λ rid. settled_if (wrote log.now.records txn rid) (slot rid)) slots count limit }
    ensures limit { pages.new.limit ≡ pages.old.limit }
    ensures spare { pages.new.spare ≡ pages.old.spare }
{
    let mut place = log.last_of(txn);
    while let Some(number) = place {
        let LogRec::Write { rid, .. } = log.rec(number) else {
            unreachable!()
        };
        pages.settle(*rid);
        place = log.previous_of(number);
    }
}

/// Takes an ended transaction off the open ones.
pub fn end(open_txns: &mut Vec<OpenTxn>, txn: u64)
    ensures { open_txns.new.items ≡ without txn open_txns.old.items }
{
    open_txns.retain(|t| !(t.txn == txn));
}

/// Marks an open transaction as ending.
pub fn mark_ending(open_txns: &mut Vec<OpenTxn>, txn: u64)
    ensures { open_txns.new.items ≡ map (mark txn) open_txns.old.items }
{
    for i in 0..open_txns.len() {
        if open_txns[i].txn == txn {
            open_txns[i].ending = true;
        }
    }
}

/// Marks a transaction as ending after an undo step of it, or ends it where none of its writes is left.
pub fn go_on_ending(
    open_txns: &mut Vec<OpenTxn>,
    pages: &mut Pages,
    log: &Log,
    txn: u64,
    left: usize,
)
    requires { (slot : Rid → Slot) × (slots : ℕ → ℕ) × (count : ℕ) × (limit : ℕ)
        × HaveWritten pages.old log.now.records txn slot slots count limit }
    ensures active { open_txns.new.items ≡ still_open txn left open_txns.old.items }
    ensures settled { (slot : Rid → Slot) (slots : ℕ → ℕ) (count limit : ℕ)
        → pages.old.pages ≡ pages_by slot slots count limit
        → pages.new.pages ≡ pages_by (λ rid. settled_if ((left == 0) && wrote log.now.records txn rid) (slot rid)) slots count limit }
    ensures limit { pages.new.limit ≡ pages.old.limit }
    ensures spare { pages.new.spare ≡ pages.old.spare }
{
    if left == 0 {
        end(open_txns, txn);
        settle_writes(pages, log, txn);
    } else {
        mark_ending(open_txns, txn);
    }
}
