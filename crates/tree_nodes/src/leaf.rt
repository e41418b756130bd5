ghost use Rattle.std.specs.Prelude.{◌≡◌, ◌<◌, ◌≤◌, [], ◌∷◌, ◌++◌, length, take, drop, IfOk, IfErr};
ghost use Rattle.tree_nodes.specs.Found.{IsAt, IsGap};
ghost use Rattle.tree_nodes.specs.Lists.{put, without, has, front_count};
ghost use Rattle.tree_nodes.specs.Order.{is_before, PairsRise};

use crate::order::{count_before, is_after};
use crate::room::{insert_reserved, move_tail};
use keybytes::{Fault, Key, Pair, Rid};
use std::alloc::Global;
use std::marker::Model;

/// The greatest number of pairs in a leaf.
pub const LEAF_MAX: usize = 32;

/// For how many leaves memory is asked for at once.
pub const LEAVES_AHEAD: usize = 32;

/// At most [`LEAF_MAX`] pairs in order, none twice. Contracts see the list of the pairs.
#[derive(Drop)]
pub struct Leaf {
    pairs: Vec<Pair>,
}

impl Model for Leaf {
    ghost use Rattle.std.specs.Prelude.{List, vec_capacity};
    ghost use Rattle.keybytes.specs.declared.pair.Pair.{Pair};
    ghost use Rattle.tree_nodes.specs.Leaves.{IsLeaf};

    ghost Value = { List Pair };

    ghost view = { λ leaf. leaf.pairs.items };

    ghost invariant = { λ leaf. IsLeaf leaf.pairs.items (vec_capacity leaf.pairs) };
}

impl Leaf {
    /// An empty leaf, with the memory for all that it will ever have.
    pub fn new(alloc: Global) -> Result<Leaf, Fault>
        ensures empty { IfOk result (λ leaf. leaf ≡ []) }
        ensures memory { IfErr result (λ fault. fault ≡ Fault.Memory) }
    {
        Ok(Leaf {
            pairs: Vec::with_capacity(alloc, LEAF_MAX)?,
        })
    }

    /// Takes the memory of [`LEAVES_AHEAD`] leaves in one piece, and gives it back, so that the allocator has it at hand. glibc's asks the system for each page
    /// otherwise, in every thread but the first, and such a call stops the first use of memory by all threads. Where it is refused nothing is lost.
    pub fn take_ahead(alloc: Global) {
        let ahead: Result<Vec<Pair>, _> = Vec::with_capacity(alloc, LEAVES_AHEAD * LEAF_MAX);
        drop(ahead);
    }

    /// The pairs in order.
    pub fn pairs(&self) -> &[Pair]
        ensures pairs { result.now ≡ self.now }
        ensures rise { PairsRise self.now }
        ensures few { length self.now ≤ 32 }
    {
        self.pairs.as_slice()
    }

    /// The place of the pair of that key and RID, or else the place where it would stand.
    pub fn find(&self, key: &Key, rid: Rid) -> Result<usize, usize>
        ensures there { IfOk result (IsAt is_before (record { key = key.now; rid = rid }) self.now) }
        ensures gap { IfErr result (IsGap is_before (record { key = key.now; rid = rid }) self.now) }
    {
        let place = count_before(self.pairs(), key, rid);
        if place < self.pairs.len() && !is_after(&self.pairs[place], key, rid) {
            Ok(place)
        } else {
            Err(place)
        }
    }

    /// Whether the pair is there.
    pub fn contains(&self, key: &Key, rid: Rid) -> bool
        ensures { result ≡ has is_before (record { key = key.now; rid = rid }) self.now }
    {
        self.find(key, rid).is_ok()
    }

    /// The pairs from that of the key and RID on, or from where it would stand.
    pub fn from(&self, key: &Key, rid: Rid) -> &[Pair]
        ensures pairs { result.now ≡ drop (front_count (λ pair. is_before pair (record { key = key.now; rid = rid })) self.now) self.now }
        ensures rise { PairsRise self.now }
    {
        let pairs = self.pairs();
        &pairs[count_before(pairs, key, rid)..]
    }

    /// Puts the pair into its place, unless it is there.
    pub fn insert(&mut self, pair: Pair)
        requires { length self.old < 32 }
        ensures { self.new ≡ put is_before pair self.old }
    {
        if let Err(place) = self.find(&pair.key, pair.rid) {
            self.insert_at(place, pair);
        }
    }

    /// Puts a pair that isn't there into its place, which [`Leaf::find`] told.
    pub fn insert_at(&mut self, place: usize, pair: Pair)
        requires room { length self.old < 32 }
        requires place { IsGap is_before pair self.old place }
        ensures { self.new ≡ put is_before pair self.old }
    {
        insert_reserved(&mut self.pairs, place, pair);
    }

    /// Puts a pair behind all others, with no search.
    pub fn push(&mut self, pair: Pair)
        requires room { length self.old < 32 }
        requires rise { PairsRise (self.old ++ pair ∷ []) }
        ensures { self.new ≡ self.old ++ pair ∷ [] }
    {
        self.pairs.push_reserved(pair);
    }

    /// Takes the pair out, and answers whether it was there.
    pub fn remove(&mut self, key: &Key, rid: Rid) -> bool
        ensures found { result ≡ has is_before (record { key = key.now; rid = rid }) self.old }
        ensures removed { self.new ≡ without is_before (record { key = key.now; rid = rid }) self.old }
    {
        match self.find(key, rid) {
            Ok(place) => {
                self.pairs.remove(place);
                true
            }
            Err(_) => false,
        }
    }

    /// Keeps the first `kept` pairs, and moves the others to an empty leaf.
    pub fn split(&mut self, kept: usize, into: &mut Leaf)
        requires within { kept ≤ length self.old }
        requires empty { into.old ≡ [] }
        ensures kept { self.new ≡ take kept self.old }
        ensures moved { into.new ≡ drop kept self.old }
    {
        move_tail(&mut self.pairs, &mut into.pairs, kept);
    }
}
