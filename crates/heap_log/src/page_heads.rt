//! The heads of all RIDs, by page and slot.
ghost use Rattle.std.specs.Prelude.{◌≡◌, ◌<◌, ◌≤◌, ◌+◌, ◌++◌, [], ◌∷◌, length, replicate, IsOk, IfSome, IfErr, OnOk, OnErr, if◌then◌else◌};
ghost use Rattle.keybytes.specs.declared.rid.Rid.{Rid};
ghost use Rattle.keybytes.specs.Rids.{same_rid};
ghost use Rattle.heap_log.specs.Heads.{with_rid};
ghost use Rattle.heap_log.specs.PageHeads.{rid_head_in, places_of, IsNumbered, IsReserved};
ghost use Rattle.heap_log.specs.Places.{HasPlace};

use crate::heads::Heads;
use crate::rid_head::RidHead;
use crate::slot_heads::SlotHeads;
use chunk_list::ChunkList;
use keybytes::{Fault, Rid};
use std::alloc::Global;
use std::marker::Model;

/// The heads of RIDs: for each page an array of its slots. Contracts see the heads of each page.
#[derive(Drop)]
pub(crate) struct PageHeads {
    pages: ChunkList<SlotHeads>,
}

impl Model for PageHeads {
    ghost use Rattle.std.specs.Prelude.{List};
    ghost use Rattle.heap_log.specs.declared.rid_head.RidHead.{RidHead};

    ghost Value = { List (List RidHead) };

    ghost view = { λ p. p.pages.items };
}

impl PageHeads {
    /// No RID has a place yet.
    pub fn new(alloc: Global) -> PageHeads
        ensures { result ≡ [] }
    {
        PageHeads {
            pages: ChunkList::new(alloc),
        }
    }

    /// The head of a RID. Nothing was written at one without a place.
    pub fn head(&self, rid: Rid) -> RidHead
        ensures { result ≡ rid_head_in self.now rid }
    {
        let page = rid.page as usize;
        if page < self.pages.len() {
            self.pages[page].head(rid.slot)
        } else {
            RidHead::none()
        }
    }

    /// Puts a head into the RID's place.
    fn set(&mut self, rid: Rid, head: RidHead)
        requires place { HasPlace rid (places_of self.old) }
        requires numbered { IsNumbered head }
        ensures set { (other : Rid) → rid_head_in self.new other
            ≡ (if same_rid rid other then head else rid_head_in self.old other) }
        ensures places { places_of self.new ≡ places_of self.old }
    {
        let slots = &mut self.pages[rid.page as usize];
        slots.set(rid.slot, head);
    }

    /// Makes a place for the RID.
    pub fn reserve_at(&mut self, rid: Rid) -> Result<(), Fault>
        ensures ok { OnOk result (IsReserved rid self.old self.new) }
        ensures err { OnErr result (self.new ≡ self.old) }
        ensures memory { IfErr result (λ fault. fault ≡ Fault.Memory) }
        ensures succeeds { HasPlace rid (places_of self.old) → IsOk result }
    {
        let page = rid.page as usize;
        if page >= self.pages.len() {
            return self.open_page(rid);
        }
        let slots = &mut self.pages[page];
        slots.reserve(rid.slot)
    }

    /// Adds the RID's page, with a place for the RID, and those below it that are not there.
    fn open_page(&mut self, rid: Rid) -> Result<(), Fault>
        requires { length self.old ≤ rid.page }
        ensures ok { OnOk result (IsReserved rid self.old self.new) }
        ensures err { OnErr result (self.new ≡ self.old) }
        ensures memory { IfErr result (λ fault. fault ≡ Fault.Memory) }
    {
        let mut slots = SlotHeads::new(self.pages.allocator());
        slots.reserve(rid.slot)?;
        let below = rid.page as usize - self.pages.len();
        self.pages.reserve(below + 1)?;
        push_empty(&mut self.pages, below);
        self.pages.push_reserved(slots);
        Ok(())
    }
}

/// Adds that many pages without a place. Takes no memory.
fn push_empty(pages: &mut ChunkList<SlotHeads>, count: usize)
    requires { count ≤ pages.old.room }
    ensures items { pages.new.items ≡ pages.old.items ++ replicate count [] }
    ensures room { pages.new.room + count ≡ pages.old.room }
{
    let alloc = pages.allocator();
    for _ in 0..count {
        pages.push_reserved(SlotHeads::new(alloc));
    }
}

/// Puts the changed head, if any, into the place of its RID.
pub(crate) fn set_rid_head(heads: &mut PageHeads, changed: Option<Heads>)
    requires place { IfSome changed (λ change. HasPlace change.rid (places_of heads.old)) }
    requires numbered { IfSome changed (λ change. IsNumbered change.at_rid) }
    ensures set { (rid : Rid) → rid_head_in heads.new rid ≡ with_rid changed rid (rid_head_in heads.old rid) }
    ensures places { places_of heads.new ≡ places_of heads.old }
{
    if let Some(changed) = changed {
        heads.set(changed.rid, changed.at_rid);
    }
}
