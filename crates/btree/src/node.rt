ghost use Rattle.std.specs.Prelude.{◌≡◌, ◌≤◌, ◌<◌, [], ◌∷◌, ◌++◌, suc, not, length, take, vec_len};
ghost use Rattle.btree.specs.Changes.{AreInOrder, Walked, WantsSplit};
ghost use Rattle.btree.specs.From.{LeafFrom, from, from_next, NextAbove};
ghost use Rattle.btree.specs.Growing.{LevelsAfter};
ghost use Rattle.btree.specs.Levels.{levels_over};
ghost use Rattle.tree_nodes.specs.Fans.{children_of, separators_of};
ghost use Rattle.tree_nodes.specs.Lists.{has, without, IsRising};
ghost use Rattle.btree.specs.Marks.{Item, Between, mark_before, items_of, pairs_in};
ghost use Rattle.btree.specs.Splits.{Inserted, Appended, AllBlank, LeafBlank, IsStocked, IsUsed};
ghost use Rattle.btree.specs.Nodes.{IsFanned};
ghost use Rattle.btree.specs.Weave.{weave, height_of};

use crate::change::{Change, Steps};
use crate::growing::{insert_into_fan, insert_into_leaf};
use crate::spare::Spare;
use crate::split::{Growth, Split};
use crate::walking::{apply_to_leaf, first_share};
use keybytes::{Key, Pair, Rid};
use std::collections::VecDeque;
use std::marker::Model;
use tree_nodes::{Fan, Leaf};

/// A leaf, or a fan over nodes of one height. Contracts see its pairs in order with the separators among them, its height, and
/// how many children each inner node has.
#[cycle(node)]
#[derive(Drop)]
pub struct Node {
    kind: Kind,
}

#[cycle(node)]
#[derive(Drop)]
enum Kind {
    Leaf(Leaf),
    Fan(Fan<Node>),
}

impl Model for Node {
    ghost use Rattle.btree.specs.Seen.{Seen};

    ghost Value = { Seen };

    ghost use Rattle.btree.specs.Nodes.{seen, IsNode};

    ghost view = { seen };

    ghost invariant = { IsNode };

    ghost size = { λ node. node.height };

    ghost use Rattle.btree.specs.Falls.{falls};

    ghost size_decreases = { falls };
}

impl Node {
    /// A leaf as a node.
    pub fn leaf(leaf: Leaf) -> Node
        ensures marks { result.marks ≡ items_of leaf }
        ensures height { result.height ≡ 0 }
        ensures levels { result.levels ≡ [] }
    {
        let _rise = leaf.pairs();
        Node {
            kind: Kind::Leaf(leaf),
        }
    }

    /// A fan as a node.
    pub fn fan(fan: Fan<Node>) -> Node
        requires { IsFanned fan }
        ensures marks { result.marks ≡ weave (children_of fan) (separators_of fan) }
        ensures height { result.height ≡ suc (height_of (children_of fan)) }
        ensures levels { result.levels ≡ levels_over (children_of fan) }
    {
        Node {
            kind: Kind::Fan(fan),
        }
    }

    /// Whether the pair is there.
    pub fn contains(&self, key: &Key, rid: Rid) -> bool
        ensures { result ≡ has mark_before (Item (record { key = key.now; rid = rid })) self.now.marks }
    {
        match &self.kind {
            Kind::Leaf(leaf) => leaf.contains(key, rid),
            Kind::Fan(fan) => {
                let place = fan.find(key, rid);
                fan.child(place).contains(key, rid)
            }
        }
    }

    /// What isn't before the pair in the leaf that it belongs to, and the separator behind that leaf.
    fn leaf_from(&self, key: &Key, rid: Rid) -> (&[Pair], Option<&Pair>)
        ensures { LeafFrom (record { key = key.now; rid = rid }) self.now.marks result.0.now result.1 }
    {
        match &self.kind {
            Kind::Leaf(leaf) => (leaf.from(key, rid), None),
            Kind::Fan(fan) => {
                let place = fan.find(key, rid);
                let (pairs, next) = fan.child(place).leaf_from(key, rid);
                if let Some(next) = next {
                    return (pairs, Some(next));
                }
                if place + 1 < fan.len() {
                    return (pairs, Some(fan.separator(place)));
                }
                (pairs, None)
            }
        }
    }

    /// The same, with what it tells of the pairs.
    pub fn pairs_from(&self, key: &Key, rid: Rid) -> (&[Pair], Option<&Pair>)
        ensures is { from (record { key = key.now; rid = rid }) (pairs_in self.now.marks) ≡ result.0.now ++ from_next result.1 (pairs_in self.now.marks) }
        ensures behind { NextAbove (record { key = key.now; rid = rid }) self.now.marks result.1 }
    {
        let _kind = &self.kind;
        self.leaf_from(key, rid)
    }

    /// Takes the pair out, and answers whether it was there.
    pub fn remove(&mut self, key: &Key, rid: Rid) -> bool
        ensures found { result ≡ has mark_before (Item (record { key = key.now; rid = rid })) self.old.marks }
        ensures removed { self.new.marks ≡ without mark_before (Item (record { key = key.now; rid = rid })) self.old.marks }
        ensures height { self.new.height ≡ self.old.height }
    {
        match &mut self.kind {
            Kind::Leaf(leaf) => leaf.remove(key, rid),
            Kind::Fan(fan) => {
                let place = fan.find(key, rid);
                fan.child_mut(place).remove(key, rid)
            }
        }
    }

    /// Puts the pair into its place, unless it is there; takes no memory but the spare one.
    pub fn insert(&mut self, pair: Pair, spare: &mut Spare) -> Growth
        requires { IsStocked spare.old self.old.height }
        ensures inserted { Inserted pair self.old self.new result.split }
        ensures added { result.added ≡ not (has mark_before (Item pair) self.old.marks) }
        ensures used { IsUsed spare.old spare.new self.old.height }
    {
        match &mut self.kind {
            Kind::Leaf(leaf) => insert_into_leaf(leaf, pair, spare),
            Kind::Fan(fan) => {
                let place = fan.find(&pair.key, pair.rid);
                let Growth { added, split } = fan.child_mut(place).insert(pair, spare);
                match split {
                    None => Growth { added, split: None },
                    Some(split) => Growth {
                        added,
                        split: insert_into_fan(fan, place, split, spare),
                    },
                }
            }
        }
    }

    /// Makes changes from the front of the queue, at most that many, which are in order, up to one for which a node has to be split. It goes
    /// to a child once for all changes that belong there.
    pub fn apply(&mut self, queue: &mut VecDeque<Change>, count: usize) -> Steps
        requires within { count ≤ length queue.old.items }
        requires order { AreInOrder (take count queue.old.items) }
        ensures walked { Walked count self.old.marks self.new.marks queue.old.items queue.new.items result }
        ensures stops { result.taken < count → WantsSplit queue.new.items self.new.marks }
        ensures height { self.new.height ≡ self.old.height }
    {
        match &mut self.kind {
            Kind::Leaf(leaf) => apply_to_leaf(leaf, queue, count),
            Kind::Fan(fan) => {
                let mut steps = Steps::none();
                'children: while steps.taken < count {
                    let share = first_share(fan, queue, count - steps.taken);
                    let more = fan.child_mut(share.place).apply(queue, share.count);
                    let stops = more.taken < share.count;
                    steps = steps.then(more);
                    if stops {
                        return steps;
                    }
                }
                steps
            }
        }
    }

    /// Puts a leaf behind all others, with the pair in front of it; takes no memory but the spare one.
    pub fn append(&mut self, separator: Pair, leaf: Leaf, spare: &mut Spare) -> Option<Split>
        requires rising { IsRising mark_before (self.old.marks ++ Between separator ∷ items_of leaf) }
        requires blank { AllBlank spare.old.fans.items }
        requires enough { self.old.height ≤ vec_len spare.old.fans }
        requires leaf { LeafBlank spare.old.leaf }
        ensures appended { Appended (Between separator ∷ items_of leaf) self.old self.new result }
        ensures levels { LevelsAfter self.old.levels self.new.levels result }
        ensures used { IsUsed spare.old spare.new self.old.height }
    {
        match &mut self.kind {
            Kind::Leaf(_) => Some(Split {
                separator,
                node: Node::leaf(leaf),
            }),
            Kind::Fan(fan) => {
                let last = fan.len() - 1;
                match fan.child_mut(last).append(separator, leaf, spare) {
                    None => None,
                    Some(split) => insert_into_fan(fan, last, split, spare),
                }
            }
        }
    }
}
