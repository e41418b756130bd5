//! Inserts into a whole tree, which may grow at its root.
ghost use Rattle.std.specs.Prelude.{◌≡◌, ◌≤◌, ◌<◌, ◌+◌, ◌++◌, suc, not, length, take, IsSome, vec_len};
ghost use Rattle.tree_nodes.specs.Lists.{has, without, IsRising};
ghost use Rattle.btree.specs.Changes.{AreInOrder, Walked, WantsSplit};
ghost use Rattle.btree.specs.Growing.{levels_raised};
ghost use Rattle.btree.specs.Grown.{GrownBy};
ghost use Rattle.btree.specs.Loading.{marks_behind, height_behind, leaves_behind, LevelsBehind};
ghost use Rattle.btree.specs.Marks.{Item, mark_before, items_of};
ghost use Rattle.btree.specs.Raising.{IsRaised};
ghost use Rattle.btree.specs.Roots.{marks_under, height_under};
ghost use Rattle.btree.specs.Splits.{marks_after, SplitAt, AllBlank, IsStocked, LeafBlank, IsUsed};
ghost use Rattle.btree.specs.TreeValue.{AreFilledAbove};

use crate::change::{Change, Steps};
use crate::growing::leaf_of;
use crate::loader::Full;
use crate::node::Node;
use crate::spare::Spare;
use crate::split::{Growth, Split};
use keybytes::{Key, Pair, Rid};
use std::collections::VecDeque;
use tree_nodes::Leaf;

/// A root that may be higher by one than before.
#[derive(Drop)]
pub struct Raised {
    pub root: Node,
    /// Whether the tree is deeper by one.
    pub deeper: bool,
}

/// A root after an insert.
#[derive(Drop)]
pub struct Rooted {
    pub raised: Raised,
    /// Whether the pair wasn't there before.
    pub added: bool,
}

/// Puts the pair into a tree of that root, if it has one.
pub fn insert_under(root: Option<Node>, pair: Pair, spare: &mut Spare) -> Rooted
    requires { IsStocked spare.old (suc (height_under root)) }
    ensures grown { GrownBy pair (marks_under root) result.raised.root.marks }
    ensures added { result.added ≡ not (has mark_before (Item pair) (marks_under root)) }
    ensures height { IsRaised (height_under root) result.raised }
    ensures used { IsUsed spare.old spare.new (suc (height_under root)) }
{
    let Some(mut root) = root else {
        return Rooted {
            raised: Raised {
                root: leaf_of(pair, spare),
                deeper: false,
            },
            added: true,
        };
    };
    let Growth { added, split } = root.insert(pair, spare);
    Rooted {
        raised: raise(root, split, spare),
        added,
    }
}

/// Puts a leaf behind all others of a tree, if it has others.
pub fn append_under(full: Option<Full>, leaf: Leaf, spare: &mut Spare) -> Raised
    requires rising { IsRising mark_before (marks_behind full ++ items_of leaf) }
    requires blank { AllBlank spare.old.fans.items }
    requires enough { suc (height_behind full) ≤ vec_len spare.old.fans }
    requires leaf { LeafBlank spare.old.leaf }
    ensures marks { result.root.marks ≡ marks_behind full ++ items_of leaf }
    ensures height { IsRaised (height_behind full) result }
    ensures levels { LevelsBehind full → AreFilledAbove (length (leaves_behind full) + 1) result.root.levels }
    ensures used { IsUsed spare.old spare.new (suc (height_behind full)) }
{
    let Some(
        Full {
            mut root,
            separator,
        },
    ) = full
    else {
        return Raised {
            root: Node::leaf(leaf),
            deeper: false,
        };
    };
    let split = root.append(separator, leaf, spare);
    raise(root, split, spare)
}

/// Takes the pair out of a tree of that root, if it has one, and answers whether it was there.
pub fn remove_under(root: &mut Option<Node>, key: &Key, rid: Rid) -> bool
    ensures found { result ≡ has mark_before (Item (record { key = key.now; rid = rid })) (marks_under root.old) }
    ensures removed { marks_under root.new ≡ without mark_before (Item (record { key = key.now; rid = rid })) (marks_under root.old) }
    ensures height { height_under root.new ≡ height_under root.old }
{
    match root {
        Some(root) => root.remove(key, rid),
        None => false,
    }
}

/// Makes changes from the front of the queue in a tree of that root, if it has one: at most that many, which are in order, up to one for which
/// a node has to be split.
pub fn apply_under(root: &mut Option<Node>, queue: &mut VecDeque<Change>, count: usize) -> Steps
    requires within { count ≤ length queue.old.items }
    requires order { AreInOrder (take count queue.old.items) }
    ensures walked { Walked count (marks_under root.old) (marks_under root.new) queue.old.items queue.new.items result }
    ensures stops { IsSome root.old → result.taken < count → WantsSplit queue.new.items (marks_under root.new) }
    ensures height { height_under root.new ≡ height_under root.old }
{
    match root {
        Some(root) => root.apply(queue, count),
        None => Steps::none(),
    }
}

/// The root, or a fan over the root and what was split off it.
fn raise(root: Node, split: Option<Split>, spare: &mut Spare) -> Raised
    requires rising { IsRising mark_before (marks_after root.marks split) }
    requires level { SplitAt root.height split }
    requires blank { AllBlank spare.old.fans.items }
    requires enough { 1 ≤ vec_len spare.old.fans }
    requires leaf { LeafBlank spare.old.leaf }
    ensures marks { result.root.marks ≡ marks_after root.marks split }
    ensures height { IsRaised root.height result }
    ensures levels { result.root.levels ≡ levels_raised root split }
    ensures used { IsUsed spare.old spare.new 1 }
{
    let Some(Split { separator, node }) = split else {
        return Raised {
            root,
            deeper: false,
        };
    };
    let mut fan = match spare.fans.pop() {
        Some(fan) => fan,
        None => unreachable!(),
    };
    fan.start(root);
    fan.insert(0, separator, node);
    Raised {
        root: Node::fan(fan),
        deeper: true,
    }
}
