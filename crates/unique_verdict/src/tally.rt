ghost use Rattle.std.specs.Prelude.{◌≡◌, List, Some, IfOk, IfErr, OnOk, OnErr, IsOk};
ghost use Rattle.keybytes.specs.Pairs.{set_of, with_pair, without_pair, AreOrdered};
ghost use Rattle.keybytes.specs.declared.pair.Pair.{Pair};
ghost use Rattle.btree.specs.TreeValue.{is_key};
ghost use Rattle.unique_verdict.specs.Counting.{counted};
ghost use Rattle.unique_verdict.specs.Shared.{shared_of};
ghost use Rattle.unique_verdict.specs.Verdicts.{IsVerdict, IsShort, first_shared, accepts};

use crate::Verdict;
use crate::key_holders::KeyHolders;
use crate::key_search::holders_in;
use crate::pair_changes::{has_pair, put_copy, take_out};
use btree::Tree;
use keybytes::{Fault, Key, Pair, Rid};
use std::alloc::Global;
use std::cmp::Ordering;
use std::marker::Model;

/// The pairs of a tree whose key another pair of the tree has too. Contracts see their list.
#[derive(Drop)]
pub struct Tally {
    shared: Tree,
}

impl Model for Tally {
    ghost use Rattle.std.specs.Prelude.{List};
    ghost use Rattle.keybytes.specs.declared.pair.Pair.{Pair};

    ghost Value = { List Pair };

    ghost view = { λ tally. tally.shared.pairs };
}

impl Tally {
    /// The tally of a tree, by one walk over its pairs.
    pub fn of(alloc: Global, tree: &Tree) -> Result<Tally, Fault>
        ensures shared { IfOk result (λ tally. tally ≡ shared_of (set_of tree.now.pairs)) }
        ensures memory { IfErr result (λ fault. fault ≡ Fault.Memory) }
    {
        tree.laws();
        let mut shared = Tree::new(alloc);
        let mut before: Option<&Pair> = None;
        let mut pairs = tree.iter();
        while let Some(pair) = pairs.next() {
            count_next(&mut shared, before, pair)?;
            before = Some(pair);
        }
        Ok(Tally { shared })
    }

    /// Keeps the tally of a tree into which the pair is put next. An `Err` changes nothing.
    pub fn added(&mut self, tree: &Tree, key: &Key, rid: Rid) -> Result<(), Fault>
        requires { self.old ≡ shared_of (set_of tree.now.pairs) }
        ensures shared { OnOk result (self.new ≡ shared_of (with_pair (Some (record { key = key.now; rid = rid })) (set_of tree.now.pairs))) }
        ensures unchanged { OnErr result (self.new ≡ self.old) }
        ensures memory { IfErr result (λ fault. fault ≡ Fault.Memory) }
    {
        tree.laws();
        self.shared.laws();
        if has_pair(tree, key, rid) {
            return Ok(());
        }
        let Some(other) = tree.first_rid(key) else {
            return Ok(());
        };
        let there = has_pair(&self.shared, key, other);
        put_copy(&mut self.shared, key, other)?;
        if let Err(fault) = put_copy(&mut self.shared, key, rid) {
            if !there {
                take_out(&mut self.shared, key, other);
            }
            return Err(fault);
        }
        Ok(())
    }

    /// Keeps the tally of a tree from which the pair is taken next. An `Err` changes nothing.
    pub fn removed(&mut self, tree: &Tree, key: &Key, rid: Rid) -> Result<(), Fault>
        requires { self.old ≡ shared_of (set_of tree.now.pairs) }
        ensures shared { OnOk result (self.new ≡ shared_of (without_pair (Some (record { key = key.now; rid = rid })) (set_of tree.now.pairs))) }
        ensures unchanged { OnErr result (self.new ≡ self.old) }
        ensures memory { IfErr result (λ fault. fault ≡ Fault.Memory) }
    {
        tree.laws();
        self.shared.laws();
        if !has_pair(&self.shared, key, rid) {
            return Ok(());
        }
        match holders_in(&self.shared, key)? {
            KeyHolders::Two(first, second) => {
                take_out(&mut self.shared, key, first);
                take_out(&mut self.shared, key, second);
            }
            _ => take_out(&mut self.shared, key, rid),
        }
        Ok(())
    }

    /// Whether keys are unique in the tree whose tally it is. Takes no memory.
    pub fn is_unique(&self) -> bool
        ensures { result ≡ accepts (first_shared self.now) }
    {
        let mut pairs = self.shared.iter();
        pairs.next().is_none() || pairs.next().is_none()
    }

    /// Whether keys are unique in the tree whose tally it is, and which is shared if they aren't. The copy of a long key takes memory.
    pub fn verdict(&self) -> Result<Verdict, Fault>
        ensures told { IfOk result (λ verdict. verdict ≡ first_shared self.now) }
        ensures sure { IsShort (first_shared self.now) → IsOk result }
        ensures is { IfOk result (λ verdict. (pairs : List Pair) → AreOrdered pairs → self.now ≡ shared_of (set_of pairs) → IsVerdict pairs verdict) }
        ensures memory { IfErr result (λ fault. fault ≡ Fault.Memory) }
    {
        let mut pairs = self.shared.iter();
        let Some(first) = pairs.next() else {
            return Ok(Verdict::Unique);
        };
        let Some(second) = pairs.next() else {
            return Ok(Verdict::Unique);
        };
        Ok(Verdict::Shared {
            key: first.key.clone()?,
            first: first.rid,
            second: second.rid,
        })
    }
}

/// Counts a pair that comes behind all others, the last of which is `before`.
fn count_next(shared: &mut Tree, before: Option<&Pair>, pair: &Pair) -> Result<(), Fault>
    ensures shared { OnOk result (shared.new.pairs ≡ counted before.entry pair.now shared.old.pairs) }
    ensures memory { IfErr result (λ fault. fault ≡ Fault.Memory) }
{
    let Some(last) = before else {
        return Ok(());
    };
    if has_key(last, &pair.key) {
        put_copy(shared, &last.key, last.rid)?;
        put_copy(shared, &pair.key, pair.rid)?;
    }
    Ok(())
}

/// Whether the pair has the key.
fn has_key(pair: &Pair, key: &Key) -> bool
    ensures { result ≡ is_key key.now pair.now }
{
    match pair.key.cmp(key) {
        Ordering::Equal => true,
        _ => false,
    }
}
