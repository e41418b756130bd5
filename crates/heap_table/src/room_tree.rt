//! Rooms as the leaves of a full binary tree, in which each node above is the greater of the two below it. A new room is
//! carried up to the root, and a search goes down from there, so that each takes one step a level.
ghost use Rattle.std.specs.Prelude.{◌≡◌, ◌<◌, ◌≤◌, ◌+◌, ◌*◌, ◌^◌, ◌++◌, ◌∷◌, [], ℕ, length, get_or, set, drop, position, nat_le, IfOk, IfErr, OnOk, OnErr};
ghost use Rattle.heap_table.specs.Rooms.{IsTournament, IsFirstFrom};

use keybytes::Fault;
use std::alloc::Global;
use std::marker::Model;

/// Rooms of pages. Contracts see them in order of the pages, and how many more can be added without memory.
#[derive(Drop)]
pub(crate) struct RoomTree {
    /// The root is node 1, the two nodes below n are 2 n and 2 n + 1, and the second half of all are the leaves.
    nodes: Vec<u16>,
    /// How many leaves there are: none before the first room, and then 2 ^ `height`.
    leaves: usize,
    height: usize,
    /// How many rooms there are. The leaves past them are 0.
    count: usize,
}

impl Model for RoomTree {
    ghost use Rattle.std.specs.Prelude.{◌-◌, take, drop};
    ghost use Rattle.heap_table.specs.Rooms.{RoomsValue, IsRooms};

    ghost Value = { RoomsValue };

    ghost view = { λ r. record { rooms = take r.count (drop r.leaves r.nodes.items); spare = r.leaves - r.count } };

    ghost invariant = { λ r. IsRooms r.nodes.items r.leaves r.height r.count };
}

impl RoomTree {
    /// No rooms.
    pub(crate) fn new(alloc: Global) -> RoomTree
        ensures { result ≡ record { rooms = []; spare = 0 } }
    {
        RoomTree {
            nodes: Vec::new(alloc),
            leaves: 0,
            height: 0,
            count: 0,
        }
    }

    /// How many rooms there are.
    pub(crate) fn len(&self) -> usize
        ensures { result ≡ length self.now.rooms }
    {
        self.count
    }

    /// Sees that one more room can be added without memory.
    pub(crate) fn reserve(&mut self) -> Result<(), Fault>
        ensures ok { OnOk result (0 < self.new.spare) }
        ensures rooms { self.new.rooms ≡ self.old.rooms }
        ensures spare { self.old.spare ≤ self.new.spare }
        ensures err { OnErr result (self.new ≡ self.old) }
        ensures memory { IfErr result (λ fault. fault ≡ Fault.Memory) }
    {
        if self.count < self.leaves {
            return Ok(());
        }
        let mut grown = self.larger()?;
        grown.extend(&self.nodes[self.leaves..]);
        *self = grown;
        Ok(())
    }

    /// Adds the room of the next page. Takes no memory.
    pub(crate) fn push(&mut self, room: u16)
        requires { 0 < self.old.spare }
        ensures rooms { self.new.rooms ≡ self.old.rooms ++ room ∷ [] }
        ensures spare { self.new.spare + 1 ≡ self.old.spare }
    {
        set_leaf(&mut self.nodes, self.leaves, self.count, room);
        self.count += 1;
    }

    /// Adds the rooms of the next pages, in order.
    fn extend(&mut self, rooms: &[u16])
        requires { length rooms.now ≤ self.old.spare }
        ensures rooms { self.new.rooms ≡ self.old.rooms ++ rooms.now }
        ensures spare { self.new.spare + length rooms.now ≡ self.old.spare }
    {
        for room in rooms {
            self.push(*room);
        }
    }

    /// Gives a page another room. Takes no memory.
    pub(crate) fn set(&mut self, page: usize, room: u16)
        requires { page < length self.old.rooms }
        ensures rooms { self.new.rooms ≡ set self.old.rooms page room }
        ensures spare { self.new.spare ≡ self.old.spare }
    {
        set_leaf(&mut self.nodes, self.leaves, page, room);
    }

    /// The lowest page with room for so many bytes.
    pub(crate) fn lowest(&self, len: usize) -> Option<usize>
        requires { 0 < len }
        ensures { result ≡ position (λ room. nat_le len room) self.now.rooms }
    {
        if self.count == 0 {
            return None;
        }
        if (self.nodes[1] as usize) < len {
            return None;
        }
        Some(first_leaf(&self.nodes, self.height, len) - self.leaves)
    }

    /// No rooms, with space for twice as many as there are leaves, or for one.
    fn larger(&self) -> Result<RoomTree, Fault>
        ensures ok { IfOk result (λ grown. grown.rooms ≡ []) }
        ensures spare { IfOk result (λ grown. length self.now.rooms + self.now.spare < grown.spare) }
        ensures memory { IfErr result (λ fault. fault ≡ Fault.Memory) }
    {
        let alloc = *self.nodes.allocator();
        if self.leaves == 0 {
            return RoomTree::with_leaves(alloc, 1, 0);
        }
        let leaves = self.leaves.checked_mul(2).ok_or(Fault::Memory)?;
        RoomTree::with_leaves(alloc, leaves, self.height + 1)
    }

    /// No rooms, with space for 2 ^ `height` of them.
    fn with_leaves(alloc: Global, leaves: usize, height: usize) -> Result<RoomTree, Fault>
        requires { leaves ≡ 2 ^ height }
        ensures ok { IfOk result (λ rooms. rooms ≡ record { rooms = []; spare = leaves }) }
        ensures memory { IfErr result (λ fault. fault ≡ Fault.Memory) }
    {
        let count = leaves.checked_mul(2).ok_or(Fault::Memory)?;
        Ok(RoomTree {
            nodes: vec![in alloc; 0; count]?,
            leaves,
            height,
            count: 0,
        })
    }
}

/// Gives a page's leaf a room, and each node above it the greater of its two again, as far up as something changes.
fn set_leaf(nodes: &mut [u16], leaves: usize, page: usize, room: u16)
    requires long { length nodes.old ≡ 2 * leaves }
    requires page { page < leaves }
    requires tournament { IsTournament nodes.old }
    ensures tournament { IsTournament nodes.new }
    ensures leaves { drop leaves nodes.new ≡ set (drop leaves nodes.old) page room }
{
    let mut node = leaves + page;
    if nodes[node] == room {
        return;
    }
    nodes[node] = room;
    while node > 1 {
        node /= 2;
        let greater = nodes[2 * node].max(nodes[2 * node + 1]);
        if nodes[node] == greater {
            return;
        }
        nodes[node] = greater;
    }
}

/// The first leaf with so much room, in a tree of that height whose root has it.
fn first_leaf(nodes: &[u16], height: usize, len: usize) -> usize
    requires long { length nodes.now ≡ 2 * 2 ^ height }
    requires tournament { IsTournament nodes.now }
    requires root { len ≤ get_or nodes.now 1 0 }
    ensures { IsFirstFrom nodes.now (2 ^ height) len result }
{
    let mut node = 1;
    for _level in 0..height {
        let left = 2 * node;
        node = if (nodes[left] as usize) < len {
            left + 1
        } else {
            left
        };
    }
    node
}
