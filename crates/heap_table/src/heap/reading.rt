//! How rows are given out, each time counted as a visit.
ghost use Rattle.std.specs.Prelude.{◌≡◌, ◌<◌, Some, IsSome, IfOk, IfErr, OnOk, OnErr};
ghost use Rattle.keybytes.specs.Faults.{RefusedFor};
ghost use Rattle.heap_log.specs.Standing.{live_at};
ghost use Rattle.heap_table.specs.HeapState.{row_missing, after_visit};
ghost use Rattle.std.specs.Borrow.{sem};
ghost use Rattle.heap_table.specs.HeapLends.{ends_visited};
ghost use Rattle.heap_table.specs.Pages.{pages_written, rows_on};
ghost use Rattle.heap_table.specs.Images.{IsImage};

use super::Heap;
use crate::PageImage;
use heap_log::Log;
use keybytes::{Fault, Rid, Row};

impl Heap {
    /// How often rows were given out: by [`Heap::get`], [`Heap::copy_page`], [`Heap::page_rows`] and [`Heap::log`]. The
    /// count stays at its greatest value.
    pub fn visits(&self) -> u64
        ensures { result ≡ self.now.state.visits }
    {
        self.visits
    }

    /// The log. Counts as a visit.
    pub fn log(&mut self) -> &Log
        ensures* visited { sem 𝓛 (ends_visited self.entry) }
        ensures records { result.now.records ≡ self.old.state.log }
    {
        self.visits = self.visits.saturating_add(1);
        &self.log
    }

    /// The row that stands at a RID now; [`Fault::NoSuchRow`] where none does. Counts as a visit.
    pub fn get(&mut self, rid: Rid) -> Result<Row, Fault>
        ensures ok { IfOk result (λ row. live_at self.old.state.log rid ≡ Some row) }
        ensures visited { OnOk result (self.new.state ≡ after_visit self.old.state) }
        ensures unchanged { OnErr result (self.new ≡ self.old) }
        ensures refused { IfErr result (RefusedFor (row_missing (live_at self.old.state.log rid))) }
    {
        let row = self.read(rid)?;
        self.visits = self.visits.saturating_add(1);
        Ok(row)
    }

    /// Copies a page as it is now. Counts as a visit; takes no memory.
    pub fn copy_page(&mut self, page: u32, image: &mut PageImage)
        requires { page < pages_written self.old.state.log }
        ensures copy { IsImage self.old.state.schema self.old.state.log page image.new }
        ensures visited { self.new.state ≡ after_visit self.old.state }
    {
        image.take_copy(page, self.pages.page(page as usize), &self.schema);
        self.visits = self.visits.saturating_add(1);
    }

    /// The rows that stand on a page now, by slot. Counts as a visit.
    pub fn page_rows(&mut self, page: u32) -> Result<Vec<(Rid, Row)>, Fault>
        requires { page < pages_written self.old.state.log }
        ensures ok { IfOk result (λ rows. rows.items ≡ rows_on self.old.state.log page) }
        ensures visited { OnOk result (self.new.state ≡ after_visit self.old.state) }
        ensures unchanged { OnErr result (self.new ≡ self.old) }
        ensures memory { IfErr result (λ fault. fault ≡ Fault.Memory) }
    {
        let mut rows = Vec::new(self.pages.allocator());
        let page_now = self.pages.page(page as usize);
        for slot in 0..page_now.slots() {
            if let Some(bytes) = page_now.row(slot) {
                let row = Row::read(self.pages.allocator(), bytes, &self.schema)?;
                rows.push((Rid { page, slot }, row))?;
            }
        }
        self.visits = self.visits.saturating_add(1);
        Ok(rows)
    }

    /// The row that stands at a RID, if one does.
    pub(super) fn row_at(&self, rid: Rid) -> Result<Option<Row>, Fault>
        ensures ok { IfOk result (λ row. row ≡ live_at self.now.state.log rid) }
        ensures there { OnErr result (IsSome (live_at self.now.state.log rid)) }
        ensures memory { IfErr result (λ fault. fault ≡ Fault.Memory) }
    {
        let Some(bytes) = self.pages.row(rid) else {
            return Ok(None);
        };
        Ok(Some(Row::read(self.pages.allocator(), bytes, &self.schema)?))
    }

    /// The row that stands at a RID.
    pub(super) fn read(&self, rid: Rid) -> Result<Row, Fault>
        ensures ok { IfOk result (λ row. live_at self.now.state.log rid ≡ Some row) }
        ensures refused { IfErr result (RefusedFor (row_missing (live_at self.now.state.log rid))) }
    {
        match self.row_at(rid)? {
            Some(row) => Ok(row),
            None => Err(Fault::NoSuchRow),
        }
    }
}
