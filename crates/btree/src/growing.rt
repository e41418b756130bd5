//! Inserts into a leaf and into a fan, which are split where they are full.
ghost use Rattle.std.specs.Prelude.{◌≡◌, ◌<◌, ◌≤◌, ◌+◌, [], ◌∷◌, suc, not, length, Some, vec_len};
ghost use Rattle.tree_nodes.specs.Fans.{children_of, separators_of, IsFan};
ghost use Rattle.tree_nodes.specs.Lists.{has, IsRising};
ghost use Rattle.tree_nodes.specs.Order.{is_before, PairsRise};
ghost use Rattle.btree.specs.Growing.{PutLast};
ghost use Rattle.btree.specs.Grown.{GrownBy};
ghost use Rattle.btree.specs.Marks.{Item, mark_before, items_of};
ghost use Rattle.btree.specs.Splits.{marks_after, marks_with, SplitAt, AllBlank, IsStocked, LeafBlank, IsUsed};
ghost use Rattle.btree.specs.Nodes.{IsFanned};
ghost use Rattle.btree.specs.Weave.{weave, height_of, AllAt};

use crate::node::Node;
use crate::spare::Spare;
use crate::split::{Growth, Split};
use keybytes::Pair;
use tree_nodes::{FAN_MAX, Fan, LEAF_MAX, Leaf, is_after, is_before};

/// How many of a full leaf's pairs stay when it is split in the middle.
const LEAF_KEPT: usize = 16;

/// How many of a full fan's children stay when it is split in the middle.
const FAN_KEPT: usize = 16;

/// Puts the pair into the leaf, which is split where it is full.
pub fn insert_into_leaf(leaf: &mut Leaf, pair: Pair, spare: &mut Spare) -> Growth
    requires { IsStocked spare.old 0 }
    ensures grown { GrownBy pair (items_of leaf.old) (marks_after (items_of leaf.new) result.split) }
    ensures rising { IsRising mark_before (items_of leaf.new) }
    ensures beside { SplitAt 0 result.split }
    ensures added { result.added ≡ not (has is_before pair leaf.old) }
    ensures used { IsUsed spare.old spare.new 0 }
{
    let len = leaf.pairs().len();
    let Err(place) = leaf.find(&pair.key, pair.rid) else {
        return Growth {
            added: false,
            split: None,
        };
    };
    if len < LEAF_MAX {
        leaf.insert_at(place, pair);
        return Growth {
            added: true,
            split: None,
        };
    }
    Growth {
        added: true,
        split: Some(split_leaf(leaf, pair, spare)),
    }
}

/// A leaf of that pair alone.
pub fn leaf_of(pair: Pair, spare: &mut Spare) -> Node
    requires { spare.old.leaf ≡ Some [] }
    ensures marks { result.marks ≡ Item pair ∷ [] }
    ensures height { result.height ≡ 0 }
    ensures leaf { LeafBlank spare.new.leaf }
    ensures fans { spare.new.fans ≡ spare.old.fans }
{
    let mut leaf = match spare.leaf.take() {
        Some(leaf) => leaf,
        None => unreachable!(),
    };
    leaf.insert(pair);
    Node::leaf(leaf)
}

/// Puts the pair into a leaf of its own: so what comes in order fills its leaves.
fn start_leaf(pair: Pair, spare: &mut Spare) -> Split
    requires { IsStocked spare.old 0 }
    ensures separator { result.separator ≡ pair }
    ensures marks { result.node.marks ≡ Item pair ∷ [] }
    ensures height { result.node.height ≡ 0 }
    ensures used { IsUsed spare.old spare.new 0 }
{
    let separator = Pair {
        key: spare.copy(&pair.key),
        rid: pair.rid,
    };
    Split {
        separator,
        node: leaf_of(pair, spare),
    }
}

/// Splits a full leaf, and puts the pair into its half; one that belongs behind all others starts a leaf.
fn split_leaf(leaf: &mut Leaf, pair: Pair, spare: &mut Spare) -> Split
    requires spare { IsStocked spare.old 0 }
    requires full { length leaf.old ≡ 32 }
    requires rise { PairsRise leaf.old }
    ensures grown { GrownBy pair (items_of leaf.old) (marks_after (items_of leaf.new) (Some result)) }
    ensures rising { IsRising mark_before (items_of leaf.new) }
    ensures beside { result.node.height ≡ 0 }
    ensures used { IsUsed spare.old spare.new 0 }
{
    if is_before(&leaf.pairs()[LEAF_MAX - 1], &pair.key, pair.rid) {
        return start_leaf(pair, spare);
    }
    let mut right = match spare.leaf.take() {
        Some(right) => right,
        None => unreachable!(),
    };
    leaf.split(LEAF_KEPT, &mut right);
    let first = &right.pairs()[0];
    let separator = Pair {
        key: spare.copy(&first.key),
        rid: first.rid,
    };
    if is_after(&separator, &pair.key, pair.rid) {
        leaf.insert(pair);
    } else {
        right.insert(pair);
    }
    Split {
        separator,
        node: Node::leaf(right),
    }
}

/// Puts what was split off the child at that place behind it; a full fan is split.
pub fn insert_into_fan(
    fan: &mut Fan<Node>,
    place: usize,
    split: Split,
    spare: &mut Spare,
) -> Option<Split>
    requires fan { IsFan fan.old }
    requires within { place < length (children_of fan.old) }
    requires rising { IsRising mark_before (marks_with fan.old place split) }
    requires level { AllAt split.node.height (children_of fan.old) }
    requires blank { AllBlank spare.old.fans.items }
    requires enough { 1 ≤ vec_len spare.old.fans }
    requires leaf { LeafBlank spare.old.leaf }
    ensures fanned { IsFanned fan.new }
    ensures marks { marks_after (weave (children_of fan.new) (separators_of fan.new)) result ≡ marks_with fan.old place split }
    ensures height { height_of (children_of fan.new) ≡ split.node.height }
    ensures beside { SplitAt (suc split.node.height) result }
    ensures last { place + 1 ≡ length (children_of fan.old) → PutLast (children_of fan.old) split.node (children_of fan.new) result }
    ensures used { IsUsed spare.old spare.new 1 }
{
    let Split { separator, node } = split;
    if fan.len() < FAN_MAX {
        fan.insert(place, separator, node);
        return None;
    }
    let mut right = match spare.fans.pop() {
        Some(right) => right,
        None => unreachable!(),
    };
    if place == FAN_MAX - 1 {
        right.start(node);
        return Some(Split {
            separator,
            node: Node::fan(right),
        });
    }
    let between = fan.split(FAN_KEPT, &mut right);
    if place < FAN_KEPT {
        fan.insert(place, separator, node);
    } else {
        right.insert(place - FAN_KEPT, separator, node);
    }
    Some(Split {
        separator: between,
        node: Node::fan(right),
    })
}
