//! The heads of one page, by slot.
ghost use Rattle.std.specs.Prelude.{◌≡◌, ◌<◌, ◌≤◌, ◌+◌, ◌-◌, ◌++◌, [], length, get_or, set, replicate, unwrap_or, IsOk, IfErr, OnOk, OnErr};
ghost use Rattle.heap_log.specs.PageHeads.{no_head, unpacked, IsNumbered};

use crate::kept_number::{kept, number_in};
use crate::rid_head::RidHead;
use keybytes::Fault;
use std::alloc::Global;
use std::marker::Model;

/// A head as it is kept, in half of its size.
#[derive(Clone, Copy)]
pub(crate) struct PackedHead {
    pub last: usize,
    pub newest: usize,
}

fn packed(head: RidHead) -> PackedHead
    requires { IsNumbered head }
    ensures { unpacked result ≡ head }
{
    PackedHead {
        last: kept(head.last),
        newest: kept(head.newest),
    }
}

fn unpacked(kept: PackedHead) -> RidHead
    ensures { result ≡ unpacked kept }
{
    RidHead {
        last: number_in(kept.last),
        newest: number_in(kept.newest),
    }
}

/// The heads of a page's slots, in order of the slots. Contracts see them as a list.
#[derive(Drop)]
pub(crate) struct SlotHeads {
    kept: Vec<PackedHead>,
}

impl Model for SlotHeads {
    ghost use Rattle.std.specs.Prelude.{List, map};
    ghost use Rattle.heap_log.specs.declared.rid_head.RidHead.{RidHead};
    ghost use Rattle.heap_log.specs.PageHeads.{unpacked};

    ghost Value = { List RidHead };

    ghost view = { λ s. map unpacked s.kept.items };
}

impl SlotHeads {
    /// No slot has a place yet.
    pub fn new(alloc: Global) -> SlotHeads
        ensures { result ≡ [] }
    {
        SlotHeads {
            kept: Vec::new(alloc),
        }
    }

    /// The head at a slot. Nothing was written at a slot without a place.
    pub fn head(&self, slot: u16) -> RidHead
        ensures { result ≡ get_or self.now slot no_head }
    {
        let slot = slot as usize;
        if slot < self.kept.len() {
            unpacked(self.kept[slot])
        } else {
            RidHead::none()
        }
    }

    /// Puts a head into the slot's place.
    pub fn set(&mut self, slot: u16, head: RidHead)
        requires place { slot < length self.old }
        requires numbered { IsNumbered head }
        ensures { self.new ≡ set self.old slot head }
    {
        self.kept[slot as usize] = packed(head);
    }

    /// Makes places for the slots up to that one.
    pub fn reserve(&mut self, slot: u16) -> Result<(), Fault>
        ensures ok { OnOk result (self.new ≡ self.old ++ replicate (slot + 1 - length self.old) no_head) }
        ensures err { OnErr result (self.new ≡ self.old) }
        ensures memory { IfErr result (λ fault. fault ≡ Fault.Memory) }
        ensures succeeds { slot < length self.old → IsOk result }
    {
        let count = slot as usize + 1;
        if count > self.kept.len() {
            self.kept.resize(count, PackedHead { last: 0, newest: 0 })?;
        }
        Ok(())
    }
}
