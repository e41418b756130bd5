//! Which page takes an insert: the lowest one with so much room, found without a walk over the pages.
//!
//! Most inserts go to the last page, whose room stands beside the tree of the others: it changes in constant time.
ghost use Rattle.std.specs.Prelude.{◌≡◌, ◌<◌, ◌≤◌, ◌+◌, ◌++◌, ◌∷◌, [], length, set, position, nat_le, IfErr, OnOk, OnErr};

use crate::room_tree::RoomTree;
use keybytes::Fault;
use std::alloc::Global;
use std::marker::Model;

/// The rooms of a table's pages: for each page the most bytes that an insert there may have. Contracts see them in order
/// of the pages, and how many more can be added without memory.
#[derive(Drop)]
pub(crate) struct Rooms {
    below: RoomTree,
    /// That of the last page, if there is a page.
    last: Option<u16>,
}

impl Model for Rooms {
    ghost use Rattle.heap_table.specs.Rooms.{RoomsValue, with_last};

    ghost Value = { RoomsValue };

    ghost view = { λ r. with_last r.below r.last };
}

impl Rooms {
    /// No rooms.
    pub(crate) fn new(alloc: Global) -> Rooms
        ensures { result.rooms ≡ [] }
    {
        Rooms {
            below: RoomTree::new(alloc),
            last: None,
        }
    }

    /// Sees that one more room can be added without memory.
    pub(crate) fn reserve(&mut self) -> Result<(), Fault>
        ensures ok { OnOk result (0 < self.new.spare) }
        ensures rooms { self.new.rooms ≡ self.old.rooms }
        ensures spare { self.old.spare ≤ self.new.spare }
        ensures err { OnErr result (self.new ≡ self.old) }
        ensures memory { IfErr result (λ fault. fault ≡ Fault.Memory) }
    {
        self.below.reserve()
    }

    /// Adds the room of the next page. Takes no memory.
    pub(crate) fn push(&mut self, room: u16)
        requires { 0 < self.old.spare }
        ensures rooms { self.new.rooms ≡ self.old.rooms ++ room ∷ [] }
        ensures spare { self.new.spare + 1 ≡ self.old.spare }
    {
        if let Some(last) = self.last {
            self.below.push(last);
        }
        self.last = Some(room);
    }

    /// Gives a page another room. Takes no memory.
    pub(crate) fn set(&mut self, page: usize, room: u16)
        requires { page < length self.old.rooms }
        ensures rooms { self.new.rooms ≡ set self.old.rooms page room }
        ensures spare { self.new.spare ≡ self.old.spare }
    {
        if page < self.below.len() {
            self.below.set(page, room);
        } else {
            self.last = Some(room);
        }
    }

    /// The lowest page with room for so many bytes.
    pub(crate) fn lowest(&self, len: usize) -> Option<usize>
        requires { 0 < len }
        ensures { result ≡ position (λ room. nat_le len room) self.now.rooms }
    {
        if let Some(page) = self.below.lowest(len) {
            return Some(page);
        }
        match self.last {
            Some(room) if len <= room as usize => Some(self.below.len()),
            _ => None,
        }
    }
}
