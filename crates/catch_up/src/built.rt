ghost use Rattle.std.specs.Prelude.{◌≡◌, ◌+◌, ◌<◌, [], length, take, true, false, IfOk, OnOk, OnErr, IfErr, IsOk};
ghost use Rattle.keybytes.specs.Pairs.{AreOrdered, set_of};
ghost use Rattle.btree.specs.Changes.{changed};
ghost use Rattle.catch_up.specs.Applying.{Applied, NextMayWant, Taken};
ghost use Rattle.catch_up.specs.Built.{verdict_of};
ghost use Rattle.unique_verdict.specs.Verdicts.{IsShort, accepts};

use crate::batch;
use crate::changing::{change, count, make_room};
use crate::pace::Pace;
use btree::{Change, Tree};
use keybytes::Fault;
use side_file::EntryEnd;
use std::alloc::Global;
use std::collections::VecDeque;
use std::marker::Model;
use unique_verdict::{Tally, Verdict};

/// The tree of an index that is being built, and the number of its build; where the index is to be unique, with a tally of the keys that
/// two RIDs have, which is told of each change of the tree. Contracts see the number, whether there is a tally, and the pairs.
pub struct Built {
    build: u64,
    tree: Tree,
    tally: Option<Tally>,
}

impl Drop for Built {
    fn drop(self) {
        let Built {
            build: _,
            tree: _,
            tally: _,
        } = self;
    }
}

impl Model for Built {
    ghost use Rattle.catch_up.specs.Built.{BuiltValue};

    ghost Value = { BuiltValue };

    ghost use Rattle.std.specs.Prelude.{is_some};
    ghost use Rattle.keybytes.specs.Pairs.{set_of};
    ghost use Rattle.catch_up.specs.Built.{Tallies};

    ghost view = { λ built. record { build = built.build; unique = is_some built.tally; pairs = built.tree.pairs } };

    ghost invariant = { λ built. Tallies built.tally (set_of built.tree.pairs) };
}

impl Built {
    /// The index of a build, with the pairs that it scanned.
    pub fn new(build: u64, tree: Tree) -> Built
        ensures { result ≡ record { build = build; unique = false; pairs = tree.pairs } }
    {
        Built {
            build,
            tree,
            tally: None,
        }
    }

    /// The same of an index that is to be unique: its tally is made by one walk over its pairs.
    pub fn unique(alloc: Global, build: u64, tree: Tree) -> Result<Built, Fault>
        ensures ok { IfOk result (λ built. built ≡ record { build = build; unique = true; pairs = tree.pairs }) }
        ensures memory { IfErr result (λ fault. fault ≡ Fault.Memory) }
    {
        let tally = Tally::of(alloc, &tree)?;
        Ok(Built {
            build,
            tree,
            tally: Some(tally),
        })
    }

    /// Whether its keys are unique, as a [`Built::verdict`] would tell. Takes no memory.
    pub fn is_accepted(&self) -> bool
        ensures { result ≡ accepts (verdict_of self.now) }
    {
        self.tree.laws();
        match &self.tally {
            Some(tally) => tally.is_unique(),
            None => true,
        }
    }

    /// Whether its keys are unique, and which is shared if they aren't; one that keeps no tally may share them. No walk over the pairs,
    /// and no memory but for the copy of a long key that is shared.
    pub fn verdict(&self) -> Result<Verdict, Fault>
        ensures told { IfOk result (λ verdict. verdict ≡ verdict_of self.now) }
        ensures sure { IsShort (verdict_of self.now) → IsOk result }
        ensures memory { IfErr result (λ fault. fault ≡ Fault.Memory) }
    {
        self.tree.laws();
        match &self.tally {
            Some(tally) => tally.verdict(),
            None => Ok(Verdict::Unique),
        }
    }

    /// Does nothing: its clause tells what every index keeps.
    pub fn laws(&self)
        ensures { AreOrdered self.now.pairs }
    {
        self.tree.laws();
    }

    /// The number of its build.
    pub fn build(&self) -> u64
        ensures { result ≡ self.now.build }
    {
        self.build
    }

    /// The tree, with the pairs.
    pub fn tree(&self) -> &Tree
        ensures { result.now.pairs ≡ self.now.pairs }
    {
        &self.tree
    }

    /// Gives the tree.
    pub fn into_tree(self) -> Tree
        ensures { result.pairs ≡ self.pairs }
    {
        let Built {
            build: _,
            tree,
            tally: _,
        } = self;
        tree
    }

    /// Takes the next entry out of the ring, which is known to have one, and applies it if it is of this build. Room for its pair
    /// comes first: want of memory leaves the entry in the ring.
    pub(crate) fn take_next(&mut self, end: &mut EntryEnd) -> Result<(), Fault>
        requires { 0 < length end.old.known }
        ensures taken { OnOk result (Taken (take 1 end.old.known) end.old end.new) }
        ensures known { OnOk result (length end.old.known ≡ length end.new.known + 1) }
        ensures applied { OnOk result (Applied (take 1 end.old.known) self.old self.new) }
        ensures waits { OnErr result (Taken [] end.old end.new) }
        ensures unchanged { OnErr result (self.new ≡ self.old) }
        ensures needed { OnErr result (NextMayWant self.new end.new) }
        ensures memory { IfErr result (λ fault. fault ≡ Fault.Memory) }
    {
        let next = end.peek();
        make_room(&mut self.tree, self.build, next)?;
        count(&mut self.tally, &self.tree, self.build, next)?;
        let entry = end.pop();
        if entry.build == self.build {
            change(&mut self.tree, entry);
        }
        Ok(())
    }

    /// Makes the changes, from the first to the last, and tells the pace of them. Where memory is wanted nothing is known of the pairs.
    pub(crate) fn make_all<P: Pace>(
        &mut self,
        changes: VecDeque<Change>,
        pace: &P,
    ) -> Result<(), Fault>
        ensures build { self.new.build ≡ self.old.build }
        ensures unique { self.new.unique ≡ self.old.unique }
        ensures made { OnOk result (set_of self.new.pairs ≡ changed changes.items (set_of self.old.pairs)) }
        ensures memory { IfErr result (λ fault. fault ≡ Fault.Memory) }
    {
        let mut changes = changes;
        batch::make_all(&mut self.tree, &mut self.tally, &mut changes, pace)
    }
}
