//! What a tree gives for what a user asks.
ghost use Rattle.std.specs.Prelude.{◌≡◌, IfOk};
ghost use Rattle.csv_index.specs.Listed.{rids_between, rids_found};

use crate::search::Search;
use btree::Tree;
use keybytes::{Fault, Key, Rid};
use std::alloc::Global;

/// The places of the rows that are looked for.
pub fn look_up(alloc: Global, tree: &Tree, search: &Search) -> Result<Vec<Rid>, Fault>
    ensures { IfOk result (λ rids. rids.items ≡ rids_found search.now tree.now.pairs) }
{
    match search {
        Search::Key(key) => tree.rids(key),
        Search::Between(from, to) => between(alloc, tree, from, to),
    }
}

/// The places of the rows whose keys in the tree lie between these two, the first of which is among them.
fn between(alloc: Global, tree: &Tree, from: &Key, to: &Key) -> Result<Vec<Rid>, Fault>
    ensures { IfOk result (λ rids. rids.items ≡ rids_between from.now to.now tree.now.pairs) }
{
    let mut rids = Vec::new(alloc);
    let mut pairs = tree.range(from, to)?;
    while let Some(pair) = pairs.next() {
        rids.push(pair.rid)?;
    }
    Ok(rids)
}
