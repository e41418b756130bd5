ghost use Rattle.std.specs.Prelude.{◌≡◌, ◌+◌, ◌++◌, ◌∷◌, [], ℕ, List, Option, true, length, None, Some, IsSome, IfSome, IfErr, IfOk, OnOk};
ghost use Rattle.keybytes.specs.Pairs.{HaveKeysOf, AreInColumnOrder, AreOrdered, pair_with, set_of};
ghost use Rattle.keybytes.specs.declared.kind.Kind.{Kind};
ghost use Rattle.heap_log.specs.declared.record.LogRec.{LogRec};
ghost use Rattle.heap_log.specs.declared.record.LogRec.TheVariants.{Commit};
ghost use Rattle.heap_table.specs.HeapState.{HeapState};
ghost use Rattle.heap_table.specs.Ready.{IsReady, after_ready};
ghost use Rattle.heap_table.specs.Sound.{HoldsFollowLog};
ghost use Rattle.key_guards.specs.GuardLists.{key_taken};
ghost use Rattle.key_guards.specs.Guarded.{HasRoomFor};
ghost use Rattle.visibility.specs.Applied.{apply_entries};
ghost use Rattle.visibility.specs.SideEntries.{changes, entries_of_change};
ghost use Rattle.ready_indexes.specs.Indexes.{IsIndex};
ghost use Rattle.ready_indexes.specs.Following.{Follows, GoesOn, HasGuards, FitsColumns, IsPrepared, LetsIn, MayBeGuarded};

use crate::key_there;
use btree::Tree;
use heap_table::{Heap, Ready};
use key_guards::Guards;
use keybytes::{Fault, Key, KeySpec, Rid};
use std::alloc::Global;
use std::marker::Model;
use std::mem::replace;
use visibility::{Change, entries};

/// An index that is ready: its specification and its pairs in order, and beside them what lets it follow its table.
pub struct ReadyIndex {
    pub(crate) spec: KeySpec,
    pub(crate) tree: Tree,
    /// The keys that open transactions may give back, where it is unique.
    pub(crate) guards: Guards,
    /// What the change that was prepared last means for it.
    change: Change,
}

impl Drop for ReadyIndex {
    fn drop(self) {
        let ReadyIndex {
            spec: _,
            tree: _,
            guards: _,
            change: _,
        } = self;
    }
}

impl Model for ReadyIndex {
    ghost use Rattle.ready_indexes.specs.Following.{GuardedIndex};

    ghost Value = { GuardedIndex };

    ghost use Rattle.ready_indexes.specs.Indexes.{IsIndex};

    ghost view = { λ it. record {
      index = record { spec = it.spec; pairs = it.tree.pairs };
      guards = it.guards;
      change = it.change;
      room = it.tree.room;
    } };

    ghost invariant = { λ it. IsIndex it.spec it.tree.pairs };
}

impl ReadyIndex {
    pub(crate) fn new(alloc: Global, spec: KeySpec, tree: Tree) -> ReadyIndex
        requires { IsIndex spec tree.pairs }
        ensures index { result.index ≡ record { spec = spec; pairs = tree.pairs } }
        ensures guarded { (heap : HeapState) → HoldsFollowLog heap → MayBeGuarded heap spec → HasGuards heap.log spec result.guards }
    {
        ReadyIndex {
            spec,
            tree,
            guards: Guards::new(alloc),
            change: no_change(),
        }
    }

    /// What makes the keys of its pairs.
    pub fn spec(&self) -> &KeySpec
        ensures { result.now ≡ self.now.index.spec }
    {
        &self.spec
    }

    /// The pairs, by key, then by RID.
    pub fn tree(&self) -> &Tree
        ensures pairs { result.now.pairs ≡ self.now.index.pairs }
        ensures keys { HaveKeysOf self.now.index.spec self.now.index.pairs }
        ensures order { AreInColumnOrder self.now.index.spec self.now.index.pairs }
    {
        &self.tree
    }

    /// Takes the memory that the change wants of this index.
    pub(crate) fn prepare(&mut self, ready: &Ready) -> Result<(), Fault>
        requires { FitsColumns ready.now self.old.index.spec }
        ensures prepared { OnOk result (IsPrepared ready.now self.new) }
        ensures index { self.new.index ≡ self.old.index }
        ensures kept { (log : List LogRec) → HasGuards log self.old.index.spec self.old.guards → HasGuards log self.new.index.spec self.new.guards }
        ensures unguarded { IsSome ready.now.undone → self.new.guards ≡ self.old.guards }
        ensures memory { IfErr result (λ fault. fault ≡ Fault.Memory) }
    {
        self.change = change_of(&self.spec, ready)?;
        if let Some(key) = &self.change.insert {
            self.tree.make_room(key)?;
        }
        make_guard_room(&mut self.guards, &self.spec, ready, &self.change)
    }

    /// Follows the change that it was prepared for, which the table is about to make.
    pub(crate) fn follow(&mut self, heap: &Heap, ready: &Ready)
        requires ready { IsReady heap.now ready.now }
        requires prepared { IsPrepared ready.now self.old }
        requires follows { Follows heap.now.state.schema heap.now.state.log self.old }
        requires let_in { ready.now.undone ≡ None → LetsIn heap.now.state.log ready.now self.old.index.spec }
        ensures follows { Follows heap.now.state.schema (after_ready heap.now.state ready.now).log self.new }
        ensures spec { self.new.index.spec ≡ self.old.index.spec }
    {
        heap.laws();
        let _columns = self.spec.columns();
        let change = replace(&mut self.change, no_change());
        let taken = change_tree(&mut self.tree, ready.rid, change);
        tell(&mut self.guards, &self.spec, heap, ready, taken);
    }

    /// The transaction committed: its keys are free from then on.
    pub(crate) fn commit(&mut self, txn: u64)
        ensures index { self.new.index ≡ self.old.index }
        ensures follows { (kinds : List Kind) (old new : List LogRec) → GoesOn old (Commit txn) new → Follows kinds old self.old → Follows kinds new self.new }
    {
        self.guards.committed(txn);
    }
}

/// No pair leaves, and none comes.
fn no_change() -> Change
    ensures { result ≡ record { delete = None; insert = None } }
{
    Change {
        delete: None,
        insert: None,
    }
}

/// What a change of a row means for an index.
fn change_of(spec: &KeySpec, ready: &Ready) -> Result<Change, Fault>
    requires { FitsColumns ready.now spec.now }
    ensures change { IfOk result (λ change. entries_of_change ready.now.rid change
        ≡ changes (pair_with spec.now ready.now.rid ready.now.old) (pair_with spec.now ready.now.rid ready.now.new)) }
    ensures memory { IfErr result (λ fault. fault ≡ Fault.Memory) }
{
    Ok(entries(
        key_there(spec, &ready.old)?,
        key_there(spec, &ready.new)?,
        true,
    ))
}

/// Takes the pair of the old key at the RID out of a tree, and puts the one of the new key in; gives the key that left.
fn change_tree(tree: &mut Tree, rid: Rid, change: Change) -> Option<Key>
    requires { IsSome change.insert → tree.old.room ≡ true }
    ensures changed { set_of tree.new.pairs ≡ apply_entries (entries_of_change rid change) (set_of tree.old.pairs) }
    ensures order { AreOrdered tree.new.pairs }
    ensures taken { result ≡ change.delete }
{
    let Change { delete, insert } = change;
    if let Some(key) = &delete {
        tree.remove(key, rid);
    }
    if let Some(key) = insert {
        tree.insert(key, rid);
    }
    tree.laws();
    delete
}

/// Room to guard the key that a write takes from its row, if it takes one from a unique index; an undo takes none.
fn make_guard_room(
    guards: &mut Guards,
    spec: &KeySpec,
    ready: &Ready,
    change: &Change,
) -> Result<(), Fault>
    ensures room { OnOk result (ready.now.undone ≡ None → spec.now.unique ≡ true → IfSome change.now.delete (HasRoomFor guards.new ready.now.txn)) }
    ensures unguarded { IsSome ready.now.undone → guards.new ≡ guards.old }
    ensures kept { (log : List LogRec) → HasGuards log spec.now guards.old → HasGuards log spec.now guards.new }
    ensures memory { IfErr result (λ fault. fault ≡ Fault.Memory) }
{
    if !spec.unique() || ready.undone().is_some() {
        return Ok(());
    }
    match &change.delete {
        Some(key) => guards.make_room(ready.txn(), key),
        None => Ok(()),
    }
}

/// Tells the guards of a unique index of a change that the table is about to make: of a write, and the key that it takes, or of the undo of one.
fn tell(guards: &mut Guards, spec: &KeySpec, heap: &Heap, ready: &Ready, taken: Option<Key>)
    requires ready { IsReady heap.now ready.now }
    requires let_in { ready.now.undone ≡ None → LetsIn heap.now.state.log ready.now spec.now }
    requires taken { taken ≡ key_taken spec.now ready.now.old ready.now.new }
    requires room { ready.now.undone ≡ None → spec.now.unique ≡ true → IfSome taken (HasRoomFor guards.old ready.now.txn) }
    requires guarded { HasGuards heap.now.state.log spec.now guards.old }
    ensures { HasGuards (after_ready heap.now.state ready.now).log spec.now guards.new }
{
    if !spec.unique() {
        return;
    }
    heap.laws();
    match ready.undone() {
        Some(undone) => guards.undone(ready.txn(), undone),
        None => guards.wrote(heap.next_number(), ready.txn(), taken),
    }
}
