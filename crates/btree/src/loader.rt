ghost use Rattle.std.specs.Prelude.{◌≡◌, ◌≤◌, [], ◌∷◌, ◌++◌, true, length, IfOk, IfErr, OnOk, OnErr};
ghost use Rattle.keybytes.specs.Pairs.{AreOrdered};
ghost use Rattle.btree.specs.Splits.{IsTidy};
ghost use Rattle.btree.specs.TreeValue.{AreFilled, AreFilledAbove};

use crate::node::Node;
use crate::rooting::{Raised, append_under};
use crate::spare::{Spare, fill_fans};
use crate::tree::{Tree, one_if};
use keybytes::{Fault, Pair};
use std::alloc::Global;
use std::marker::Model;
use std::mem;
use tree_nodes::{LEAF_MAX, LEAVES_AHEAD, Leaf};

/// Leaves that are full, as a tree, and the pair between them and the leaf behind them.
#[derive(Drop)]
pub struct Full {
    pub root: Node,
    pub separator: Pair,
}

/// Makes a tree of pairs that come in order, with no search. Leaves are filled from left to right with 32 pairs each, the last
/// with the rest, and so is each level above with 32 children. Contracts see the list of the pairs so far.
#[derive(Drop)]
pub struct Loader {
    alloc: Global,
    full: Option<Full>,
    leaf: Leaf,
    height: usize,
    count: usize,
    spare: Spare,
}

impl Model for Loader {
    ghost use Rattle.std.specs.Prelude.{List};
    ghost use Rattle.keybytes.specs.declared.pair.Pair.{Pair};
    ghost use Rattle.btree.specs.Loading.{loaded, IsLoading};

    ghost Value = { List Pair };

    ghost view = { loaded };

    ghost invariant = { IsLoading };
}

impl Loader {
    /// With no pair as yet.
    pub fn new(alloc: Global) -> Result<Loader, Fault>
        ensures empty { IfOk result (λ loader. loader ≡ []) }
        ensures memory { IfErr result (λ fault. fault ≡ Fault.Memory) }
    {
        Ok(Loader {
            alloc,
            full: None,
            leaf: Leaf::new(alloc)?,
            height: 0,
            count: 0,
            spare: Spare::new(alloc),
        })
    }

    /// Whether the next pair begins a leaf behind a full one.
    pub fn wants_leaf(&self) -> bool
        ensures { result ≡ true → 32 ≤ length self.now }
    {
        self.leaf.pairs().len() == LEAF_MAX
    }

    /// Gives it an empty leaf, which it takes when it begins the next one. Any other leaf is let go.
    pub fn stock(&mut self, leaf: Option<Leaf>)
        ensures { self.new ≡ self.old }
    {
        if let Some(leaf) = leaf
            && leaf.pairs().is_empty()
        {
            self.spare.leaf = Some(leaf);
        }
    }

    /// Takes the next pair, which stands behind those so far. An `Err` leaves all as it was.
    #[inline(always)]
    pub fn push(&mut self, pair: Pair) -> Result<(), Fault>
        requires { AreOrdered (self.old ++ pair ∷ []) }
        ensures ok { OnOk result (self.new ≡ self.old ++ pair ∷ []) }
        ensures err { OnErr result (self.new ≡ self.old) }
        ensures memory { IfErr result (λ fault. fault ≡ Fault.Memory) }
    {
        let Some(count) = self.count.checked_add(1) else {
            return Err(Fault::Memory);
        };
        if self.leaf.pairs().len() < LEAF_MAX {
            self.leaf.push(pair);
            self.count = count;
            return Ok(());
        }
        let separator = Pair {
            key: pair.key.clone()?,
            rid: pair.rid,
        };
        let mut leaf = next_leaf(&mut self.spare, self.alloc, self.count)?;
        fill_fans(&mut self.spare.fans, self.alloc, self.height)?;
        leaf.push(pair);
        let full = mem::replace(&mut self.leaf, leaf);
        let Raised { root, deeper } = append_under(self.full.take(), full, &mut self.spare);
        self.full = Some(Full { root, separator });
        self.height += one_if(deeper);
        self.count = count;
        Ok(())
    }

    /// The tree of the pairs.
    pub fn finish(self) -> Result<Tree, Fault>
        ensures pairs { IfOk result (λ tree. tree.pairs ≡ self) }
        ensures filled { IfOk result (λ tree. AreFilled tree.leaves) }
        ensures levels { IfOk result (λ tree. AreFilledAbove (length tree.leaves) tree.levels) }
        ensures memory { IfErr result (λ fault. fault ≡ Fault.Memory) }
    {
        let Loader {
            alloc,
            full,
            leaf,
            height,
            count,
            mut spare,
        } = self;
        let _few = leaf.pairs();
        fill_fans(&mut spare.fans, alloc, height)?;
        let Raised { root, deeper } = append_under(full, leaf, &mut spare);
        Ok(Tree::of(alloc, root, height + one_if(deeper), count, spare))
    }
}

/// The leaf for what comes behind so many pairs: the spare one, if there is one.
fn next_leaf(spare: &mut Spare, alloc: Global, pairs: usize) -> Result<Leaf, Fault>
    requires { IsTidy spare.old }
    ensures tidy { IsTidy spare.new }
    ensures empty { IfOk result (λ leaf. leaf ≡ []) }
    ensures memory { IfErr result (λ fault. fault ≡ Fault.Memory) }
{
    if let Some(leaf) = spare.leaf.take() {
        return Ok(leaf);
    }
    if pairs % (LEAVES_AHEAD * LEAF_MAX) == 0 {
        Leaf::take_ahead(alloc);
    }
    Leaf::new(alloc)
}
