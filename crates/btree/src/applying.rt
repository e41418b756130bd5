//! Changes of a whole tree.
ghost use Rattle.std.specs.Prelude.{◌≡◌, ◌≤◌, ◌<◌, ◌+◌, true, length, take, OnOk, IfErr};
ghost use Rattle.keybytes.specs.Pairs.{set_of};
ghost use Rattle.btree.specs.Changes.{changed_by, AreInOrder, Made};

use crate::change::{Change, take_first};
use crate::tree::Tree;
use keybytes::{Fault, Pair};
use std::collections::VecDeque;

/// Makes the first `count` changes, which are in order.
pub fn apply_run(tree: &mut Tree, queue: &mut VecDeque<Change>, count: usize) -> Result<(), Fault>
    requires within { count ≤ length queue.old.items }
    requires order { AreInOrder (take count queue.old.items) }
    ensures made { Made tree.old.pairs tree.new.pairs queue.old.items queue.new.items }
    ensures all { OnOk result (length queue.new.items + count ≡ length queue.old.items) }
    ensures memory { IfErr result (λ fault. fault ≡ Fault.Memory) }
{
    let mut left = count;
    while left > 0 {
        left -= tree.walk(queue, left);
        if left > 0 {
            apply_first(tree, queue)?;
            left -= 1;
        }
    }
    Ok(())
}

/// Makes the first change by a way of its own.
fn apply_first(tree: &mut Tree, queue: &mut VecDeque<Change>) -> Result<(), Fault>
    requires { 0 < length queue.old.items }
    ensures made { Made tree.old.pairs tree.new.pairs queue.old.items queue.new.items }
    ensures one { OnOk result (length queue.new.items + 1 ≡ length queue.old.items) }
    ensures memory { IfErr result (λ fault. fault ≡ Fault.Memory) }
{
    let Some(first) = queue.front() else {
        unreachable!()
    };
    if first.puts_in {
        tree.make_room(&first.pair.key)?;
    }
    apply_one(tree, take_first(queue));
    Ok(())
}

/// Makes a change, for whose pair there is room if it puts one in.
fn apply_one(tree: &mut Tree, change: Change)
    requires { change.puts_in ≡ true → tree.old.room ≡ true }
    ensures { set_of tree.new.pairs ≡ changed_by change (set_of tree.old.pairs) }
{
    let Change {
        puts_in,
        pair: Pair { key, rid },
    } = change;
    if puts_in {
        tree.insert(key, rid);
    } else {
        tree.remove(&key, rid);
    }
}
