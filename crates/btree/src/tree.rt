ghost use Rattle.std.specs.Prelude.{◌≡◌, ◌≤◌, ◌+◌, ◌-◌, true, [], length, map, min, take, IsOk, IfOk, IfErr, OnOk, Some, if◌then◌else◌};
ghost use Rattle.std.specs.FinMap.{contains_key};
ghost use Rattle.std.specs.List.{slice_get};
ghost use Rattle.keybytes.specs.Pairs.{set_of, with_pair, without_pair, AreOrdered};
ghost use Rattle.tree_nodes.specs.Lists.{IsRising};
ghost use Rattle.tree_nodes.specs.Order.{PairsRise};
ghost use Rattle.btree.specs.Changes.{changed, AreInOrder, Made};
ghost use Rattle.btree.specs.From.{from};
ghost use Rattle.btree.specs.Left.{pairs_left, range_left};
ghost use Rattle.btree.specs.Marks.{mark_before, pairs_in, leaves_in};
ghost use Rattle.btree.specs.Splits.{IsTidy};
ghost use Rattle.btree.specs.TreeValue.{rids_of, pairs_between};

use crate::applying::apply_run;
use crate::change::{Change, count_in_order};
use crate::node::Node;
use crate::pairs::Pairs;
use crate::range::Range;
use crate::rooting::{Rooted, apply_under, insert_under, remove_under};
use crate::spare::Spare;
use keybytes::{Fault, KEY_INLINE, Key, Pair, Rid};
use std::alloc::Global;
use std::cmp::Ordering;
use std::collections::VecDeque;
use std::marker::Model;

/// Pairs of a key and a RID in order, none twice. Contracts see the list of the pairs, whether there is room for one more,
/// which pairs each leaf has, and how many children each inner node has, level by level.
pub struct Tree {
    alloc: Global,
    root: Option<Node>,
    height: usize,
    count: usize,
    spare: Spare,
    ready: bool,
}

impl Drop for Tree {
    fn drop(self) {
        let Tree {
            alloc: _,
            root: _,
            height: _,
            count: _,
            spare: _,
            ready: _,
        } = self;
    }
}

impl Model for Tree {
    ghost use Rattle.btree.specs.TreeValue.{TreeValue};

    ghost Value = { TreeValue };

    ghost use Rattle.btree.specs.Trees.{tree_value, IsTree};

    ghost view = { tree_value };

    ghost invariant = { IsTree };
}

impl Tree {
    /// An empty tree.
    pub fn new(alloc: Global) -> Tree
        ensures { result.pairs ≡ [] }
    {
        Tree {
            alloc,
            root: None,
            height: 0,
            count: 0,
            spare: Spare::new(alloc),
            ready: false,
        }
    }

    /// A tree of that root, which is as high and has as many pairs as that.
    pub(crate) fn of(alloc: Global, root: Node, height: usize, count: usize, spare: Spare) -> Tree
        requires rising { IsRising mark_before root.marks }
        requires height { height ≡ root.height }
        requires count { count ≡ length (pairs_in root.marks) }
        requires tidy { IsTidy spare }
        ensures pairs { result.pairs ≡ pairs_in root.marks }
        ensures leaves { result.leaves ≡ leaves_in root.marks }
        ensures levels { result.levels ≡ root.levels }
    {
        Tree {
            alloc,
            root: Some(root),
            height,
            count,
            spare,
            ready: false,
        }
    }

    /// Does nothing: its clause tells what every tree keeps.
    pub fn laws(&self)
        ensures { AreOrdered self.now.pairs }
    {
        let _kept = &self.root;
    }

    /// How many pairs there are.
    pub fn len(&self) -> usize
        ensures { result ≡ length self.now.pairs }
    {
        self.count
    }

    /// Whether the pair is there.
    pub fn contains(&self, key: &Key, rid: Rid) -> bool
        ensures { result ≡ contains_key (set_of self.now.pairs) (record { key = key.now; rid = rid }) }
    {
        match &self.root {
            Some(root) => root.contains(key, rid),
            None => false,
        }
    }

    /// The RIDs that have the key, in order.
    pub fn rids(&self, key: &Key) -> Result<Vec<Rid>, Fault>
        ensures rids { IfOk result (λ rids. rids.items ≡ rids_of key.now self.now.pairs) }
        ensures memory { IfErr result (λ fault. fault ≡ Fault.Memory) }
    {
        let mut rids = Vec::new(self.alloc);
        let mut pairs = self.from(key);
        while let Some(pair) = pairs.next() {
            if pair.key.cmp(key) != Ordering::Equal {
                break;
            }
            rids.push(pair.rid)?;
        }
        Ok(rids)
    }

    /// The least RID that has the key. Takes no memory. Removals join no leaves, so several empty ones may stand in a row; each costs one more
    /// way down the tree.
    pub fn first_rid(&self, key: &Key) -> Option<Rid>
        ensures { result ≡ slice_get (rids_of key.now self.now.pairs) 0 }
    {
        let mut pairs = self.from(key);
        let pair = pairs.next()?;
        if pair.key.cmp(key) != Ordering::Equal {
            return None;
        }
        Some(pair.rid)
    }

    /// The same of a key that is given as bytes, for want of the memory for a key: beside the way down the tree it looks at the pairs that
    /// begin with as many of the bytes as a key keeps in place.
    pub fn first_rid_of_bytes(&self, bytes: &[u8]) -> Option<Rid>
        ensures { result ≡ slice_get (rids_of bytes.now self.now.pairs) 0 }
    {
        let front = front_key(self.alloc, bytes);
        let mut pairs = self.from(&front);
        while let Some(pair) = pairs.next() {
            match pair.key.bytes().cmp(&bytes) {
                Ordering::Less => {}
                Ordering::Equal => return Some(pair.rid),
                Ordering::Greater => return None,
            }
        }
        None
    }

    /// The pairs whose key isn't less than `lo`, and less than `hi`, in order. Of all that, `hi` alone is copied.
    pub fn range(&self, lo: &Key, hi: &Key) -> Result<Range<'_>, Fault>
        ensures pairs { IfOk result (λ range. range_left range ≡ pairs_between lo.now hi.now self.now.pairs) }
        ensures memory { IfErr result (λ fault. fault ≡ Fault.Memory) }
    {
        let end = hi.clone()?;
        Ok(Range {
            pairs: self.from(lo),
            end,
        })
    }

    /// All pairs in order.
    pub fn iter(&self) -> Pairs<'_>
        ensures { pairs_left result ≡ self.now.pairs }
    {
        let least = Key::new(self.alloc);
        self.from(&least)
    }

    /// The pairs in order, from the first that isn't before this one. So whoever reads a part of them goes on behind its last pair, whatever
    /// was put in and taken out meanwhile. Takes no memory.
    pub fn iter_from(&self, key: &Key, rid: Rid) -> Pairs<'_>
        ensures { pairs_left result ≡ from (record { key = key.now; rid = rid }) self.now.pairs }
    {
        Pairs::new(self.root.as_ref(), key, rid)
    }

    /// The pairs in order, from the least that the key may have.
    fn from(&self, key: &Key) -> Pairs<'_>
        ensures pairs { pairs_left result ≡ from (record { key = key.now; rid = record { page = 0; slot = 0 } }) self.now.pairs }
        ensures rise { PairsRise self.now.pairs }
    {
        Pairs::new(self.root.as_ref(), key, Rid { page: 0, slot: 0 })
    }

    /// Takes the memory that the insert of a pair needs, whatever its key. An `Err` changes nothing that contracts see.
    pub fn make_room(&mut self, _key: &Key) -> Result<(), Fault>
        ensures pairs { self.new.pairs ≡ self.old.pairs }
        ensures ok { OnOk result (self.new.room ≡ true) }
        ensures sure { self.old.room ≡ true → IsOk result }
        ensures memory { IfErr result (λ fault. fault ≡ Fault.Memory) }
    {
        if self.ready {
            return Ok(());
        }
        if self.count == usize::MAX {
            return Err(Fault::Memory);
        }
        self.spare.fill(self.alloc, self.height)?;
        self.ready = true;
        Ok(())
    }

    /// Puts the pair into its place, unless it is there.
    pub fn insert(&mut self, key: Key, rid: Rid)
        requires { self.old.room ≡ true }
        ensures { set_of self.new.pairs ≡ with_pair (Some (record { key = key; rid = rid })) (set_of self.old.pairs) }
    {
        self.ready = false;
        let Rooted { raised, added } = insert_under(
            self.root.take(),
            Pair { key, rid },
            &mut self.spare,
        );
        self.root = Some(raised.root);
        self.height += one_if(raised.deeper);
        self.count += one_if(added);
    }

    /// Takes the pair out, and answers whether it was there.
    pub fn remove(&mut self, key: &Key, rid: Rid) -> bool
        ensures found { result ≡ contains_key (set_of self.old.pairs) (record { key = key.now; rid = rid }) }
        ensures removed { set_of self.new.pairs ≡ without_pair (Some (record { key = key.now; rid = rid })) (set_of self.old.pairs) }
        ensures room { self.new.room ≡ self.old.room }
    {
        let found = remove_under(&mut self.root, key, rid);
        self.count -= one_if(found);
        found
    }

    /// Makes the first changes of the queue, at most that many. As far as they are in the order of their pairs it goes down to each leaf once
    /// for all that belong there. Only an insert for which a leaf has to be split goes a way of its own, and may want memory: then what is not
    /// made yet stays in the queue. Those behind the first `most` aren't looked at.
    pub fn apply_sorted(&mut self, queue: &mut VecDeque<Change>, most: usize) -> Result<(), Fault>
        ensures made { Made self.old.pairs self.new.pairs queue.old.items queue.new.items }
        ensures whole { changed queue.new.items (set_of self.new.pairs) ≡ changed queue.old.items (set_of self.old.pairs) }
        ensures all { OnOk result (length queue.new.items ≡ length queue.old.items - most) }
        ensures memory { IfErr result (λ fault. fault ≡ Fault.Memory) }
    {
        let mut left = most.min(queue.len());
        while left > 0 {
            let count = count_in_order(queue, left);
            apply_run(self, queue, count)?;
            left -= count;
        }
        Ok(())
    }

    /// Makes changes from the front of the queue, at most that many, which are in order, up to one for which a node has to be split. Answers
    /// how many.
    pub(crate) fn walk(&mut self, queue: &mut VecDeque<Change>, count: usize) -> usize
        requires within { count ≤ length queue.old.items }
        requires order { AreInOrder (take count queue.old.items) }
        ensures made { Made self.old.pairs self.new.pairs queue.old.items queue.new.items }
        ensures few { result ≤ count }
        ensures taken { length queue.new.items + result ≡ length queue.old.items }
    {
        let most = count.min(usize::MAX - self.count);
        self.ready = false;
        let steps = apply_under(&mut self.root, queue, most);
        self.count += steps.added;
        self.count -= steps.removed;
        steps.taken
    }
}

/// As many of the bytes as a key keeps in place.
fn front_key(alloc: Global, bytes: &[u8]) -> Key
    ensures { result ≡ take (min (length bytes.now) 24) bytes.now }
{
    let mut front = Key::new(alloc);
    let len = bytes.len().min(KEY_INLINE);
    match front.add(&bytes[..len]) {
        Ok(()) => front,
        Err(_) => unreachable!(),
    }
}

/// 1 where the test is true, else 0.
pub fn one_if(test: bool) -> usize
    ensures { result ≡ (if test then 1 else 0) }
{
    if test { 1 } else { 0 }
}
