ghost use Rattle.std.specs.Prelude.{◌≡◌, ◌+◌, ◌∷◌, ◌++◌, ◌==◌, not, filter, position, IfOk, [], ℕ, List, Option, length, true, Some, IfSome, IfErr, OnOk};
ghost use Rattle.keybytes.specs.Keys.{KeySpecValue};
ghost use Rattle.keybytes.specs.declared.cell.Cell.{Cell};
ghost use Rattle.heap_log.specs.declared.outcome.Outcome.{Outcome};
ghost use Rattle.heap_log.specs.declared.record.LogRec.{LogRec};
ghost use Rattle.heap_log.specs.declared.record.LogRec.TheVariants.{Write, Undo, Commit, Switch};
ghost use Rattle.heap_log.specs.Growing.{UndoesNameEarlier};
ghost use Rattle.heap_log.specs.Standing.{live_at, newest_standing};
ghost use Rattle.heap_table.specs.HeapState.{HeapState, busy_txns, is_open};
ghost use Rattle.heap_table.specs.Sound.{HoldsFollowLog};
ghost use Rattle.heap_table.specs.TablePairs.{pairs_at_rest};
ghost use Rattle.key_guards.specs.UniqueKeys.{HaveOwnKeys, KeysAreUnique, UniqueKeysAreGuarded};
ghost use Rattle.key_guards.specs.KeyRefusals.{other_guard};
ghost use Rattle.key_guards.specs.GuardLists.{AreGuards, AreUndone, key_taken, other_in};
ghost use Rattle.key_guards.specs.TxnGuards.{is_nil};
ghost use Rattle.key_guards.specs.Guarded.{HasRoomFor, IsGuarded, IsLetIn};

use crate::txn_guards::TxnGuards;
use keybytes::{Fault, Key, Rid};
use std::alloc::Global;
use std::marker::Model;

/// The keys of one unique index that open transactions guard. Contracts say that it follows a table's log; what it keeps
/// for that is its own.
pub struct Guards {
    txns: Vec<TxnGuards>,
}

impl Drop for Guards {
    fn drop(self) {
        let Guards { txns: _ } = self;
    }
}

impl Model for Guards {
    ghost use Rattle.key_guards.specs.Guarded.{GuardsValue};

    ghost Value = { GuardsValue };

    ghost view = { λ g. record { txns = g.txns.items } };
}

/// Where the transaction's keys are.
fn place(txns: &Vec<TxnGuards>, txn: u64) -> Option<usize>
    ensures { result ≡ position (λ t. t.txn == txn) txns.now.items }
{
    txns.iter().position(|t| t.txn() == txn)
}

/// The same with a place that is new where there is none, after transactions without keys are forgotten.
fn place_or_new(txns: &mut Vec<TxnGuards>, txn: u64) -> Result<usize, Fault>
    ensures at { IfOk result (λ at. position (λ t. t.txn == txn) txns.new.items ≡ Some at) }
    ensures memory { IfErr result (λ fault. fault ≡ Fault.Memory) }
    ensures kept { (spec : KeySpecValue) (log : List LogRec) → AreGuards spec log txns.old.items → AreGuards spec log txns.new.items }
{
    if let Some(at) = place(txns, txn) {
        return Ok(at);
    }
    forget_empty(txns);
    txns.reserve(1)?;
    let alloc = *txns.allocator();
    txns.push_reserved(TxnGuards::new(alloc, txn));
    Ok(txns.len() - 1)
}

/// Forgets transactions without keys.
fn forget_empty(txns: &mut Vec<TxnGuards>)
    ensures { txns.new.items ≡ filter (λ t. not (is_nil t.taken)) txns.old.items }
{
    txns.retain(|t| !t.is_empty());
}

/// Forgets a transaction.
fn forget_txn(txns: &mut Vec<TxnGuards>, txn: u64)
    ensures { txns.new.items ≡ filter (λ t. not (t.txn == txn)) txns.old.items }
{
    txns.retain(|t| !(t.txn() == txn));
}

/// Forgets what the write of that number took, where it is a transaction's newest one there.
fn undo_each(txns: &mut Vec<TxnGuards>, number: usize)
    ensures { AreUndone number txns.old.items txns.new.items }
{
    for i in 0..txns.len() {
        txns[i].undo(number);
    }
}

/// The transaction other than that one that took the key, if there is one.
fn other_txn(txns: &Vec<TxnGuards>, txn: u64, key: &Key) -> Option<u64>
    ensures { result ≡ other_in txns.now.items txn key.now }
{
    txns.iter()
        .find(|t| !(t.txn() == txn) && t.has(key))
        .map(|t| t.txn())
}

/// The same of a key that is given as bytes.
fn other_txn_of_bytes(txns: &Vec<TxnGuards>, txn: u64, bytes: &[u8]) -> Option<u64>
    ensures { result ≡ other_in txns.now.items txn bytes.now }
{
    txns.iter()
        .find(|t| !(t.txn() == txn) && t.has_bytes(bytes))
        .map(|t| t.txn())
}

impl Guards {
    /// For an index whose keys are unique, at a moment when no open transaction has a standing write.
    pub fn new(alloc: Global) -> Guards
        ensures rows { (spec : KeySpecValue) (s : HeapState) → HoldsFollowLog s → busy_txns s ≡ [] → KeysAreUnique spec s.log
            → IsGuarded spec s.log result }
        ensures pairs { (spec : KeySpecValue) (s : HeapState) → HoldsFollowLog s → busy_txns s ≡ [] → HaveOwnKeys (pairs_at_rest spec s.log)
            → IsGuarded spec s.log result }
    {
        Guards {
            txns: Vec::new(alloc),
        }
    }

    /// Does nothing: its clauses tell what holds of guards that follow a log.
    pub fn laws(&self)
        ensures switched { (spec : KeySpecValue) (log : List LogRec) (verdicts : List Outcome) → UndoesNameEarlier log
            → IsGuarded spec log self.now → IsGuarded spec (log ++ Switch verdicts ∷ []) self.now }
        ensures guarded { (spec : KeySpecValue) (s : HeapState) → HoldsFollowLog s → IsGuarded spec s.log self.now → UniqueKeysAreGuarded spec s.log }
    {}

    /// The transaction other than that one that guards the key, if there is one.
    pub fn other(&self, txn: u64, key: &Key) -> Option<u64>
        ensures { (spec : KeySpecValue) (s : HeapState) → HoldsFollowLog s → IsGuarded spec s.log self.now → result ≡ other_guard spec s.log txn key.now }
    {
        other_txn(&self.txns, txn, key)
    }

    /// The same of a key that is given as bytes, for want of the memory for a key: it looks at each key that is guarded.
    pub fn other_of_bytes(&self, txn: u64, bytes: &[u8]) -> Option<u64>
        ensures { (spec : KeySpecValue) (s : HeapState) → HoldsFollowLog s → IsGuarded spec s.log self.now → result ≡ other_guard spec s.log txn bytes.now }
    {
        other_txn_of_bytes(&self.txns, txn, bytes)
    }

    /// Takes the memory to guard the key for the transaction. What no write uses stays until the transaction is forgotten.
    pub fn make_room(&mut self, txn: u64, key: &Key) -> Result<(), Fault>
        ensures room { OnOk result (HasRoomFor self.new txn key.now) }
        ensures memory { IfErr result (λ fault. fault ≡ Fault.Memory) }
        ensures kept { (spec : KeySpecValue) (log : List LogRec) → IsGuarded spec log self.old → IsGuarded spec log self.new }
    {
        let at = place_or_new(&mut self.txns, txn)?;
        self.txns[at].make_room(key)
    }

    /// Tells of a write of that number, which was performed, and of the key that it took from its row, if any.
    pub fn wrote(&mut self, number: usize, txn: u64, taken: Option<Key>)
        requires { IfSome taken (HasRoomFor self.old txn) }
        ensures { (spec : KeySpecValue) (index : ℕ) (s : HeapState) (rid : Rid) (row : Option (List Cell)) → IsLetIn spec index s txn rid row
            → number ≡ length s.log + 1 → taken ≡ key_taken spec (live_at s.log rid) row → IsGuarded spec s.log self.old
            → IsGuarded spec (s.log ++ Write txn rid row ∷ []) self.new }
    {
        let Some(key) = taken else {
            return;
        };
        if let Some(at) = place(&self.txns, txn) {
            self.txns[at].push(number, key);
        }
    }

    /// Tells that the transaction's newest standing write, which is of that number, was undone.
    pub fn undone(&mut self, txn: u64, number: usize)
        ensures { (spec : KeySpecValue) (s : HeapState) → HoldsFollowLog s → UndoesNameEarlier s.log → is_open s.active txn ≡ true
            → newest_standing s.log txn ≡ Some number → IsGuarded spec s.log self.old → IsGuarded spec (s.log ++ Undo txn number ∷ []) self.new }
    {
        undo_each(&mut self.txns, number);
    }

    /// Tells that the transaction committed: its keys are free from then on.
    pub fn committed(&mut self, txn: u64)
        ensures { (spec : KeySpecValue) (log : List LogRec) → UndoesNameEarlier log → IsGuarded spec log self.old
            → IsGuarded spec (log ++ Commit txn ∷ []) self.new }
    {
        forget_txn(&mut self.txns, txn);
    }
}
