ghost use Rattle.std.specs.Prelude.{◌≡◌, ◌<◌, ◌≤◌, ◌+◌, ◌-◌, [], ◌∷◌, not, length, take, drop, slice_index_or, IfOk, IfErr};
ghost use Rattle.std.specs.List.{insert, remove};
ghost use Rattle.tree_nodes.specs.Fans.{children_of, separators_of, IsFan, IsBlankFan};
ghost use Rattle.tree_nodes.specs.Lists.{front_count};
ghost use Rattle.tree_nodes.specs.Order.{is_before, PairsRise};

use crate::order::count_up_to;
use crate::room::{insert_reserved, move_tail};
use crate::separators::Separators;
use keybytes::{Fault, Key, Pair, Rid};
use std::alloc::Global;

/// The greatest number of children of a fan.
pub const FAN_MAX: usize = 32;

/// At most [`FAN_MAX`] children, with a pair between each two: what is left of it is less, and what is right of it isn't.
/// A new one has no child.
#[derive(Drop)]
pub struct Fan<C> {
    children: Vec<C>,
    separators: Separators,
}

impl<C: Drop> Fan<C> {
    ghost use Rattle.std.specs.Borrow.{sem};
    ghost use Rattle.tree_nodes.specs.Lending.{LendsChild};

    /// A fan with no child, and the memory for all that it will ever have.
    pub fn new(alloc: Global) -> Result<Fan<C>, Fault>
        ensures blank { IfOk result IsBlankFan }
        ensures memory { IfErr result (λ fault. fault ≡ Fault.Memory) }
    {
        Ok(Fan {
            children: Vec::with_capacity(alloc, FAN_MAX)?,
            separators: Separators::new(alloc)?,
        })
    }

    /// How many children it has.
    pub fn len(&self) -> usize
        ensures { result ≡ length (children_of self.now) }
    {
        self.children.len()
    }

    /// The child at that place.
    pub fn child(&self, place: usize) -> &C
        requires { place < length (children_of self.now) }
        ensures { result.now ≡ slice_index_or (children_of self.now) place result.now }
    {
        &self.children[place]
    }

    /// The child at that place, to be changed.
    pub fn child_mut(&mut self, place: usize) -> &mut C
        requires { place < length (children_of self.old) }
        ensures* lends { sem 𝓛 (LendsChild C.row self.entry place result) }
        ensures child { result.now ≡ slice_index_or (children_of self.old) place result.now }
    {
        &mut self.children[place]
    }

    /// The pair behind the child at that place: what is left of it is less, and what is right of it isn't.
    pub fn separator(&self, place: usize) -> &Pair
        requires { place < length (separators_of self.now) }
        ensures { result.now ≡ slice_index_or (separators_of self.now) place result.now }
    {
        &self.separators.pairs()[place]
    }

    /// The place of the child that the pair of that key and RID belongs to.
    pub fn find(&self, key: &Key, rid: Rid) -> usize
        requires { PairsRise (separators_of self.now) }
        ensures { result ≡ front_count (λ pair. not (is_before (record { key = key.now; rid = rid }) pair)) (separators_of self.now) }
    {
        let low = self.separators.count_lesser(key);
        let high = self.separators.count_to_greater(low, key);
        count_up_to(self.separators.pairs(), low, high, key, rid)
    }

    /// Gives a new fan its first child.
    pub fn start(&mut self, child: C)
        requires { IsBlankFan self.old }
        ensures fan { IsFan self.new }
        ensures children { children_of self.new ≡ child ∷ [] }
        ensures separators { separators_of self.new ≡ [] }
    {
        self.children.push_reserved(child);
    }

    /// Puts a child behind the one at that place, with the pair between the two.
    pub fn insert(&mut self, place: usize, separator: Pair, child: C)
        requires fan { IsFan self.old }
        requires within { place < length (children_of self.old) }
        requires room { length (children_of self.old) < 32 }
        ensures fan { IsFan self.new }
        ensures children { children_of self.new ≡ insert (children_of self.old) (place + 1) child }
        ensures separators { separators_of self.new ≡ insert (separators_of self.old) place separator }
    {
        insert_reserved(&mut self.children, place + 1, child);
        self.separators.insert(place, separator);
    }

    /// Takes out the child behind the one at that place, with the pair between the two.
    pub fn remove(&mut self, place: usize) -> (Pair, C)
        requires fan { IsFan self.old }
        requires within { place + 1 < length (children_of self.old) }
        ensures fan { IsFan self.new }
        ensures children { children_of self.new ≡ remove (children_of self.old) (place + 1) }
        ensures separators { separators_of self.new ≡ remove (separators_of self.old) place }
        ensures child { result.1 ≡ slice_index_or (children_of self.old) (place + 1) result.1 }
        ensures separator { result.0 ≡ slice_index_or (separators_of self.old) place result.0 }
    {
        let child = self.children.remove(place + 1);
        let separator = self.separators.remove(place);
        (separator, child)
    }

    /// Keeps the first `kept` children, moves the others to a new fan, and answers the pair between the two fans.
    pub fn split(&mut self, kept: usize, into: &mut Fan<C>) -> Pair
        requires fan { IsFan self.old }
        requires some { 0 < kept }
        requires within { kept < length (children_of self.old) }
        requires blank { IsBlankFan into.old }
        ensures fan { IsFan self.new }
        ensures into_fan { IsFan into.new }
        ensures children { children_of self.new ≡ take kept (children_of self.old) }
        ensures into_children { children_of into.new ≡ drop kept (children_of self.old) }
        ensures separators { separators_of self.new ≡ take (kept - 1) (separators_of self.old) }
        ensures into_separators { separators_of into.new ≡ drop kept (separators_of self.old) }
        ensures between { result ≡ slice_index_or (separators_of self.old) (kept - 1) result }
    {
        move_tail(&mut self.children, &mut into.children, kept);
        self.separators.split(kept, &mut into.separators);
        self.separators.remove(kept - 1)
    }
}
