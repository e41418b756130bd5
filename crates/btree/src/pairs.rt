ghost use Rattle.std.specs.Prelude.{◌≡◌, []};
ghost use Rattle.btree.specs.From.{from};
ghost use Rattle.btree.specs.Marks.{pairs_in};

use crate::node::Node;
use keybytes::{Key, Pair, Rid};

/// The pairs of a tree in order, from some pair on. It takes no memory: it goes down the tree once a leaf.
#[derive(Drop)]
pub struct Pairs<'a> {
    root: Option<&'a Node>,
    leaf: &'a [Pair],
    /// The separator behind the leaf, if there are further leaves.
    next: Option<&'a Pair>,
}

impl<'a> Pairs<'a> {
    ghost use Rattle.btree.specs.Left.{marks_of, pairs_left};

    /// The pairs from that of the key and RID on.
    pub(crate) fn new(root: Option<&'a Node>, key: &Key, rid: Rid) -> Pairs<'a>
        ensures { pairs_left result ≡ from (record { key = key.now; rid = rid }) (pairs_in (marks_of root.entry)) }
    {
        match root {
            Some(node) => {
                let (leaf, next) = node.pairs_from(key, rid);
                Pairs { root, leaf, next }
            }
            None => Pairs {
                root: None,
                leaf: &[],
                next: None,
            },
        }
    }

    /// Gives no more.
    pub(crate) fn stop(&mut self)
        ensures { pairs_left self.new ≡ [] }
    {
        self.leaf = &[];
        self.next = None;
    }
}

impl<'a> Iterator for Pairs<'a> {
    type Item = &'a Pair;

    ghost use Rattle.std.specs.Iterator.{YieldsFirstRef, item_count};
    ghost use Rattle.btree.specs.Left.{pairs_left};

    ghost next_gives = { YieldsFirstRef pairs_left };

    ghost remaining = { item_count pairs_left };

    fn next(&mut self) -> Option<&'a Pair> {
        loop {
            if let Some((first, others)) = self.leaf.split_first() {
                self.leaf = others;
                return Some(first);
            }
            let Some(root) = self.root else {
                return None;
            };
            let Some(next) = self.next else {
                return None;
            };
            let (leaf, behind) = root.pairs_from(&next.key, next.rid);
            self.leaf = leaf;
            self.next = behind;
        }
    }
}
