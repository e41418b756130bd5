ghost use Rattle.std.specs.Prelude.{◌≡◌, ◌<◌, ◌≤◌, ◌-◌, [], length, take, drop, IfOk, IfErr, IfSome, IsSome, slice_index_or};
ghost use Rattle.std.specs.List.{insert, remove};
ghost use Rattle.tree_nodes.specs.Heads.{AreBefore, AreBehind};
ghost use Rattle.tree_nodes.specs.Order.{PairsRise};

use crate::fan::FAN_MAX;
use crate::order::{NOTHING, head};
use crate::room::{insert_reserved, move_tail};
use keybytes::{Fault, Key, Pair};
use std::alloc::Global;
use std::marker::Model;

/// The pairs between a fan's children, and beside them the numbers that begin their keys. These lie close together, and to count
/// the lesser ones takes no branch that the processor has to guess, so a search mostly reads no pair. Contracts see the list of
/// the pairs.
#[derive(Drop)]
pub struct Separators {
    heads: Vec<u64>,
    pairs: Vec<Pair>,
    /// Whether all keys begin with one number, so that looking at it is in vain.
    alike: bool,
}

impl Model for Separators {
    ghost use Rattle.std.specs.Prelude.{List, vec_capacity};
    ghost use Rattle.keybytes.specs.declared.pair.Pair.{Pair};
    ghost use Rattle.tree_nodes.specs.Heads.{IsHeaded};

    ghost Value = { List Pair };

    ghost view = { λ separators. separators.pairs.items };

    ghost invariant = { λ separators. IsHeaded separators.heads.items separators.pairs.items (vec_capacity separators.heads) (vec_capacity separators.pairs) };
}

impl Separators {
    /// None, and the memory for all that there will ever be.
    pub fn new(alloc: Global) -> Result<Separators, Fault>
        ensures empty { IfOk result (λ separators. separators ≡ []) }
        ensures memory { IfErr result (λ fault. fault ≡ Fault.Memory) }
    {
        Ok(Separators {
            heads: Vec::with_capacity(alloc, FAN_MAX)?,
            pairs: Vec::with_capacity(alloc, FAN_MAX)?,
            alike: true,
        })
    }

    /// The pairs in order.
    pub fn pairs(&self) -> &[Pair]
        ensures { result.now ≡ self.now }
    {
        self.pairs.as_slice()
    }

    /// How many of the pairs stand before the key by their first bytes alone: mostly all that do, else fewer.
    pub fn count_lesser(&self, key: &Key) -> usize
        requires { PairsRise self.now }
        ensures within { result ≤ length self.now }
        ensures before { AreBefore result key.now self.now }
    {
        let number = head(key);
        if number == NOTHING || self.alike {
            return 0;
        }
        if let Some(last) = self.heads.len().checked_sub(1) {
            // Pairs that come in order go behind all that are there.
            if self.heads[last] < number {
                return last + 1;
            }
        }
        let mut count = 0;
        for place in 0..self.heads.len() {
            if self.heads[place] < number {
                count = place + 1;
            }
        }
        count
    }

    /// How many of the pairs at most don't stand behind the key, by their first bytes alone, where `low` stand before it: those that
    /// begin with the same number may be on either side.
    pub fn count_to_greater(&self, low: usize, key: &Key) -> usize
        requires { low ≤ length self.now }
        ensures within { result ≤ length self.now }
        ensures behind { AreBehind result key.now self.now }
    {
        let len = self.heads.len();
        if self.alike {
            return len;
        }
        let number = head(key);
        let mut place = low;
        while place < len && self.heads[place] == number {
            place += 1;
        }
        if place < len {
            let next = self.heads[place];
            if number < next && next < NOTHING {
                return place;
            }
        }
        len
    }

    /// Puts a pair at that place.
    pub fn insert(&mut self, place: usize, pair: Pair)
        requires within { place ≤ length self.old }
        requires room { length self.old < 32 }
        ensures { self.new ≡ insert self.old place pair }
    {
        insert_reserved(&mut self.heads, place, head(&pair.key));
        insert_reserved(&mut self.pairs, place, pair);
        self.alike = self.heads.first() == self.heads.last();
    }

    /// Takes out the pair at that place.
    pub fn remove(&mut self, place: usize) -> Pair
        requires { place < length self.old }
        ensures pair { result ≡ slice_index_or self.old place result }
        ensures others { self.new ≡ remove self.old place }
    {
        self.heads.remove(place);
        self.alike = self.heads.first() == self.heads.last();
        self.pairs.remove(place)
    }

    /// Keeps the first `kept` pairs, and moves the others to where none are.
    pub fn split(&mut self, kept: usize, into: &mut Separators)
        requires within { kept ≤ length self.old }
        requires few { length self.old ≤ 32 }
        requires empty { into.old ≡ [] }
        ensures kept { self.new ≡ take kept self.old }
        ensures moved { into.new ≡ drop kept self.old }
    {
        move_tail(&mut self.heads, &mut into.heads, kept);
        move_tail(&mut self.pairs, &mut into.pairs, kept);
        self.alike = self.heads.first() == self.heads.last();
        into.alike = into.heads.first() == into.heads.last();
    }
}
