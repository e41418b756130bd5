//! Changes that are made where no node has to be split.
ghost use Rattle.std.specs.Prelude.{◌≡◌, ◌≤◌, ◌<◌, false, length, take, slice_index_or};
ghost use Rattle.tree_nodes.specs.Fans.{separators_of, IsFan};
ghost use Rattle.tree_nodes.specs.Order.{PairsRise};
ghost use Rattle.btree.specs.Changes.{AreInOrder, Walked, WantsSplit, IsShare};
ghost use Rattle.btree.specs.Marks.{items_of};

use crate::change::{Change, Steps, count_before, take_first};
use crate::node::Node;
use crate::tree::one_if;
use std::collections::VecDeque;
use tree_nodes::{Fan, LEAF_MAX, Leaf};

/// Makes changes from the front of the queue, at most that many, up to one for which the leaf has no room.
pub fn apply_to_leaf(leaf: &mut Leaf, queue: &mut VecDeque<Change>, count: usize) -> Steps
    requires { count ≤ length queue.old.items }
    ensures walked { Walked count (items_of leaf.old) (items_of leaf.new) queue.old.items queue.new.items result }
    ensures stops { result.taken < count → WantsSplit queue.new.items (items_of leaf.new) }
{
    let mut steps = Steps::none();
    while steps.taken < count {
        let step = apply_first(leaf, queue);
        if step.taken == 0 {
            return steps;
        }
        steps = steps.then(step);
    }
    steps
}

/// Makes the first change, if the leaf has room for it.
fn apply_first(leaf: &mut Leaf, queue: &mut VecDeque<Change>) -> Steps
    requires { 0 < length queue.old.items }
    ensures walked { Walked 1 (items_of leaf.old) (items_of leaf.new) queue.old.items queue.new.items result }
    ensures stops { result.taken < 1 → WantsSplit queue.new.items (items_of leaf.new) }
{
    let Some(first) = queue.front() else {
        unreachable!()
    };
    if !first.puts_in {
        return take_out(leaf, queue);
    }
    match leaf.find(&first.pair.key, first.pair.rid) {
        Ok(_) => {
            let _there = take_first(queue);
            Steps {
                taken: 1,
                added: 0,
                removed: 0,
            }
        }
        Err(_) if leaf.pairs().len() == LEAF_MAX => Steps::none(),
        Err(place) => {
            let change = take_first(queue);
            leaf.insert_at(place, change.pair);
            Steps {
                taken: 1,
                added: 1,
                removed: 0,
            }
        }
    }
}

/// Takes the first change's pair out.
fn take_out(leaf: &mut Leaf, queue: &mut VecDeque<Change>) -> Steps
    requires some { 0 < length queue.old.items }
    requires out { (d : Change) → (slice_index_or queue.old.items 0 d).puts_in ≡ false }
    ensures walked { Walked 1 (items_of leaf.old) (items_of leaf.new) queue.old.items queue.new.items result }
    ensures one { result.taken ≡ 1 }
{
    let change = take_first(queue);
    Steps {
        taken: 1,
        added: 0,
        removed: one_if(leaf.remove(&change.pair.key, change.pair.rid)),
    }
}

/// The child that changes belong to, and how many of them do.
#[derive(Drop)]
pub struct Share {
    pub place: usize,
    pub count: usize,
}

/// To which child the first change belongs, and how many of that many changes, which are in order, do so.
pub fn first_share(fan: &Fan<Node>, queue: &VecDeque<Change>, count: usize) -> Share
    requires fan { IsFan fan.now }
    requires rise { PairsRise (separators_of fan.now) }
    requires some { 0 < count }
    requires within { count ≤ length queue.now.items }
    requires order { AreInOrder (take count queue.now.items) }
    ensures { IsShare (separators_of fan.now) queue.now.items count result }
{
    let Some(first) = queue.front() else {
        unreachable!()
    };
    let place = fan.find(&first.pair.key, first.pair.rid);
    if place + 1 < fan.len() {
        return Share {
            place,
            count: count_before(queue, count, fan.separator(place)),
        };
    }
    Share { place, count }
}
