//! How transactions begin and end, and who holds a RID meanwhile.
ghost use Rattle.std.specs.Prelude.{◌≡◌, Some, None, MatchResult};
ghost use Rattle.keybytes.specs.Answered.{Answered};
ghost use Rattle.heap_log.specs.Standing.{newest_standing};
ghost use Rattle.heap_table.specs.Calls.{OnState, Begins, Commits, Notes};
ghost use Rattle.heap_table.specs.HeapState.{is_open, is_ending, txn_refusal, held_refusal, begin_refusal, after_fence};
ghost use Rattle.heap_table.specs.Holders.{holder};
ghost use Rattle.heap_table.specs.Kept.{ended_to};
ghost use Rattle.heap_table.specs.Pages.{KeepsRows};

use super::Heap;
use crate::changes::{end, settle_writes};
use crate::{OPEN_MAX, OpenTxn};
use heap_log::{Log, LogRec, Outcome, Verdicts};
use keybytes::{Fault, Rid};

/// Whether the transaction is open.
pub(super) fn has(open_txns: &[OpenTxn], txn: u64) -> bool
    ensures { result ≡ is_open open_txns.now txn }
{
    open_txns.iter().any(|t| t.txn == txn)
}

/// Whether an undo of the open transaction has begun.
fn has_ending(open_txns: &[OpenTxn], txn: u64) -> bool
    ensures { result ≡ is_ending open_txns.now txn }
{
    open_txns.iter().any(|t| t.txn == txn && t.ending)
}

/// Up to which record each write is of a transaction that has ended: the last one, where none is open.
fn ended_to(open_txns: &[OpenTxn], log: &Log, before: usize) -> usize
    ensures { result ≡ ended_to open_txns.now log.now.records before }
{
    if open_txns.is_empty() {
        log.len()
    } else {
        before
    }
}

impl Heap {
    /// From now on no transaction may begin, or each may. Those that are open go on.
    pub fn set_fence(&mut self, fenced: bool)
        ensures state { self.new.state ≡ after_fence fenced self.old.state }
        ensures room { self.new.room ≡ self.old.room }
    {
        self.fenced = fenced;
    }

    /// Why [`Heap::begin`] would be refused: [`Fault::Fenced`] where none may begin, [`Fault::TooManyTxns`] where [`OPEN_MAX`] are open or the
    /// numbers are used up. Want of memory is no answer.
    pub fn check_begin(&self) -> Result<(), Fault>
        ensures { MatchResult result (λ _. begin_refusal self.now.state ≡ None) (λ fault. begin_refusal self.now.state ≡ Some fault) }
    {
        if self.fenced {
            return Err(Fault::Fenced);
        }
        if self.open_txns.len() >= OPEN_MAX || self.begun == u64::MAX {
            return Err(Fault::TooManyTxns);
        }
        Ok(())
    }

    /// Begins the next transaction.
    pub fn begin(&mut self) -> Result<u64, Fault>
        ensures { Answered (begin_refusal self.old.state) (OnState Begins) self.old result self.new }
    {
        self.check_begin()?;
        let txn = self.begun + 1;
        self.log.reserve_txn(txn)?;
        let ended = ended_to(&self.open_txns, &self.log, self.ended);
        self.open_txns.push(OpenTxn { txn, ending: false })?;
        self.begun = txn;
        self.ended = ended;
        Ok(txn)
    }

    /// Ends the transaction, whose writes stand from now on, and answers the record's number. What was promised to an
    /// undo is given free, in time that grows with its writes alone.
    pub fn commit(&mut self, txn: u64) -> Result<usize, Fault>
        ensures committed { Answered (txn_refusal self.old.state txn) (OnState (Commits txn)) self.old result self.new }
        ensures rows { KeepsRows self.old.state.log self.new.state.log }
    {
        self.check_txn(txn)?;
        self.log.reserve(1)?;
        self.log.add(LogRec::Commit { txn });
        end(&mut self.open_txns, txn);
        settle_writes(&mut self.pages, &self.log, txn);
        Ok(self.log.len())
    }

    /// Notes in the log what a switch decided, and answers the record's number.
    pub fn note(&mut self, outcomes: Vec<Outcome>) -> Result<usize, Fault>
        ensures noted { Answered None (OnState (Notes outcomes.items)) self.old result self.new }
        ensures rows { KeepsRows self.old.state.log self.new.state.log }
    {
        self.log.reserve(1)?;
        self.log.add(LogRec::Switch {
            verdicts: Verdicts::new(outcomes),
        });
        Ok(self.log.len())
    }

    /// The number of the transaction's newest standing write, which the next undo step takes back.
    pub fn newest(&self, txn: u64) -> Option<usize>
        ensures { result ≡ newest_standing self.now.state.log txn }
    {
        self.log.newest(txn)
    }

    /// Why a transaction may not write or commit.
    pub(super) fn check_txn(&self, txn: u64) -> Result<(), Fault>
        ensures { MatchResult result (λ _. txn_refusal self.now.state txn ≡ None) (λ fault. txn_refusal self.now.state txn ≡ Some fault) }
    {
        if !has(&self.open_txns, txn) {
            return Err(Fault::NoSuchTxn);
        }
        if has_ending(&self.open_txns, txn) {
            return Err(Fault::TxnEnding);
        }
        Ok(())
    }

    /// The transaction that holds a RID.
    fn holder(&self, rid: Rid) -> Option<u64>
        ensures { result ≡ holder self.now.state.log rid }
    {
        let number = self.log.last(rid)?;
        if number <= self.ended {
            return None;
        }
        let LogRec::Write { txn, .. } = self.log.rec(number) else {
            return None;
        };
        has(&self.open_txns, *txn).then_some(*txn)
    }

    /// Why a transaction may not change a RID.
    pub(super) fn check_hold(&self, txn: u64, rid: Rid) -> Result<(), Fault>
        ensures { MatchResult result
            (λ _. held_refusal txn (holder self.now.state.log rid) ≡ None)
            (λ fault. held_refusal txn (holder self.now.state.log rid) ≡ Some fault) }
    {
        match self.holder(rid) {
            Some(other) if other != txn => Err(Fault::RowHeld(other)),
            _ => Ok(()),
        }
    }
}
