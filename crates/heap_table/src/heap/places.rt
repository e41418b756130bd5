//! Where rows go, and the memory for one more change.
ghost use Rattle.std.specs.Prelude.{◌≡◌, ◌<◌, ◌≤◌, Some, None, IsSome, IfOk, IfErr, OnOk, OnErr, MatchResult};
ghost use Rattle.heap_log.specs.Places.{HasPlace};
ghost use Rattle.heap_log.specs.Standing.{live_at};
ghost use Rattle.slotted_page.specs.Slot.{IsRowSize};
ghost use Rattle.heap_table.specs.HeapState.{growth_refusal, insert_place, place_on, place_refusal};

use super::Heap;
use keybytes::{Fault, Rid};

impl Heap {
    /// Where a row of so many bytes goes.
    pub(super) fn place(&self, len: usize) -> Result<Rid, Fault>
        requires { IsRowSize len }
        ensures ok { IfOk result (λ rid. insert_place self.now.state len ≡ Some rid) }
        ensures full { IfErr result (λ fault. place_refusal (insert_place self.now.state len) ≡ Some fault) }
    {
        let Some(number) = self.pages.lowest_with_room(len) else {
            return self.next_page();
        };
        let slot = self.pages.room(number, len).unwrap();
        Ok(Rid {
            page: number as u32,
            slot,
        })
    }

    /// The first place of a new page.
    fn next_page(&self) -> Result<Rid, Fault>
        ensures { MatchResult result
            (λ rid. place_on self.now.state 0 None ≡ Some rid)
            (λ fault. place_refusal (place_on self.now.state 0 None) ≡ Some fault) }
    {
        let page = self.pages();
        if page >= self.page_limit {
            return Err(Fault::TableFull);
        }
        Ok(Rid { page, slot: 0 })
    }

    /// Whether a row of so many bytes fits where a row stands.
    pub(super) fn check_growth(&self, rid: Rid, len: usize) -> Result<(), Fault>
        requires row { IsSome (live_at self.now.state.log rid) }
        requires size { len ≤ 1224 }
        ensures { MatchResult result
            (λ _. growth_refusal self.now.state rid len ≡ None)
            (λ fault. growth_refusal self.now.state rid len ≡ Some fault) }
    {
        if !self.pages.fits(rid, len) {
            return Err(Fault::PageFull);
        }
        Ok(())
    }

    /// Makes room for one more change, at that RID.
    pub(super) fn reserve(&mut self, rid: Rid) -> Result<(), Fault>
        ensures same { OnOk result (self.new.state ≡ self.old.state) }
        ensures ready { OnOk result (0 < self.new.room) }
        ensures place { OnOk result (HasPlace rid self.new.places) }
        ensures err { OnErr result (self.new ≡ self.old) }
        ensures memory { IfErr result (λ fault. fault ≡ Fault.Memory) }
    {
        self.pages.reserve()?;
        self.log.reserve_at(rid)?;
        Ok(())
    }
}
