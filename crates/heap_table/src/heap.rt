//! The table: what it is made of, and what tells of it. Its other calls stand in the modules below it, by subject.
ghost use Rattle.std.specs.Prelude.{◌≡◌, ◌≤◌, ◌+◌, length, Some, None, IfOk, IfErr, OnOk};
ghost use Rattle.heap_log.specs.Growing.{UndoesNameEarlier};
ghost use Rattle.heap_table.specs.HeapState.{limits_refusal, empty_heap, busy_txns};
ghost use Rattle.heap_table.specs.Limits.{pages_most};
ghost use Rattle.heap_table.specs.Pages.{SetsRow, pages_written};
ghost use Rattle.heap_table.specs.Kept.{RowsFit};
ghost use Rattle.heap_table.specs.declared.ready.Ready.{Ready};
ghost use Rattle.heap_table.specs.Ready.{IsReady, IsLawfulChange, after_ready};
ghost use Rattle.heap_table.specs.Sound.{HoldsFollowLog, UndoFits};

mod places;
mod reading;
mod ready_changes;
mod row_bytes;
mod transactions;
mod undoing;
mod writing;

use crate::pages::Pages;
use crate::{OpenTxn, PAGES_MAX};
use heap_log::Log;
use keybytes::{Fault, Schema};
use std::alloc::Global;
use std::marker::Model;

/// A table of rows in pages. Contracts see its state, which is its log and its open transactions, and the room for
/// changes and the places of RIDs that it has memory for; the rows are those that the log leaves standing. A refused
/// call changes nothing.
pub struct Heap {
    schema: Schema,
    slot_limit: u8,
    page_limit: u32,
    log: Log,
    pages: Pages,
    open_txns: Vec<OpenTxn>,
    begun: u64,
    fenced: bool,
    visits: u64,
    /// Each write up to that record is of a transaction that has ended, so that nobody needs to look who wrote it.
    ended: usize,
    /// Memory for the bytes of the next row that is written.
    spare_bytes: Vec<u8>,
}

impl Drop for Heap {
    fn drop(self) {
        let Heap {
            schema: _,
            slot_limit: _,
            page_limit: _,
            log: _,
            pages: _,
            open_txns: _,
            begun: _,
            fenced: _,
            visits: _,
            ended: _,
            spare_bytes: _,
        } = self;
    }
}

impl Model for Heap {
    ghost use Rattle.heap_table.specs.HeapValue.{HeapValue};

    ghost Value = { HeapValue };

    ghost use Rattle.heap_table.specs.Kept.{IsKeptWithRoom};
    ghost use Rattle.heap_table.specs.Inside.{heap_value};

    ghost view = { heap_value };

    ghost invariant = { λ h. IsKeptWithRoom (heap_value h) h.pages h.log.txns h.ended };
}

impl Heap {
    /// An empty table of these columns, of up to `slot_limit` slots a page and `page_limit` pages. No slots, no pages or
    /// more than [`PAGES_MAX`] pages are [`Fault::BadCount`].
    pub fn new(
        alloc: Global,
        schema: Schema,
        slot_limit: u8,
        page_limit: u32,
    ) -> Result<Heap, Fault>
        ensures ok { IfOk result (λ heap. heap.state ≡ empty_heap schema slot_limit page_limit) }
        ensures accepted { OnOk result (limits_refusal slot_limit page_limit ≡ None) }
        ensures refused { IfErr result (λ fault. limits_refusal slot_limit page_limit ≡ Some fault) }
    {
        if slot_limit == 0 || page_limit == 0 || page_limit > PAGES_MAX {
            return Err(Fault::BadCount);
        }
        Ok(Heap {
            schema,
            slot_limit,
            page_limit,
            log: Log::new(alloc),
            pages: Pages::new(alloc, slot_limit),
            open_txns: Vec::new(alloc),
            begun: 0,
            fenced: false,
            visits: 0,
            ended: 0,
            spare_bytes: Vec::new(alloc),
        })
    }

    /// Does nothing: its clauses tell what holds of every table.
    pub fn laws(&self)
        ensures rows { RowsFit self.now.state.schema self.now.state.log }
        ensures holds { HoldsFollowLog self.now.state }
        ensures fits { UndoFits self.now.state.log }
        ensures undos { UndoesNameEarlier self.now.state.log }
        ensures ready { (ready : Ready) → IsReady self.now ready → IsLawfulChange self.now.state ready }
        ensures sets { (ready : Ready) → IsReady self.now ready
            → SetsRow self.now.state.log ready.rid ready.new (after_ready self.now.state ready).log }
    {
        self.log.laws();
    }

    /// The columns.
    pub fn schema(&self) -> &Schema
        ensures { result.now ≡ self.now.state.schema }
    {
        &self.schema
    }

    /// Where its memory comes from.
    pub fn allocator(&self) -> Global {
        self.pages.allocator()
    }

    /// The number of pages.
    pub fn pages(&self) -> u32
        ensures pages { result ≡ pages_written self.now.state.log }
        ensures limit { result ≤ pages_most }
    {
        self.pages.len() as u32
    }

    /// The number of records of the log. Gives no row out, so it is no visit.
    pub fn records(&self) -> usize
        ensures { result ≡ length self.now.state.log }
    {
        self.log.len()
    }

    /// The number that the next record of the log will have.
    pub fn next_number(&self) -> usize
        ensures { result ≡ length self.now.state.log + 1 }
    {
        self.log.next_number()
    }

    /// How many open transactions have a write that stands.
    pub fn busy(&self) -> usize
        ensures { result ≡ length (busy_txns self.now.state) }
    {
        let log = &self.log;
        self.open_txns
            .iter()
            .filter(|t| log.standing(t.txn) > 0)
            .count()
    }
}
