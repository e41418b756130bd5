//! Transactions on a table, event by event.
ghost use Rattle.std.specs.Prelude.{ℕ, OnOk, IfOk, IfErr};
ghost use Rattle.build_events.specs.Steps.{Step};
ghost use Rattle.build_events.specs.declared.event.Event.{Event};
ghost use Rattle.build_events.specs.declared.reply.Reply.{Reply};
ghost use Rattle.replay.specs.Answers.{FailsToPut, PutsRow, TakesBack};

use builder_core::TableRings;
use heap_table::Undone;
use keybytes::{Fault, Rid, Row};
use leased_core::LeasedCore;

/// Begins a transaction, and answers its number.
pub fn begin<T: TableRings>(leased: &mut LeasedCore<T>) -> Result<u64, Fault>
    ensures ok { IfOk result (λ txn. Step leased.old Event.Begin (Reply.Begun txn) leased.new) }
    ensures refused { IfErr result (λ fault. Step leased.old Event.Begin (Reply.Refused fault) leased.new) }
{
    leased.begin()
}

/// Inserts a row, and answers where it stands.
pub fn insert<T: TableRings>(leased: &mut LeasedCore<T>, txn: u64, row: Row) -> Result<Rid, Fault>
    ensures ok { IfOk result (λ rid. (number : ℕ) × Step leased.old (Event.Insert txn row) (Reply.Written number rid) leased.new) }
    ensures refused { IfErr result (λ fault. Step leased.old (Event.Insert txn row) (Reply.Refused fault) leased.new) }
{
    let (_number, rid) = leased.insert(txn, row)?;
    Ok(rid)
}

/// Commits a transaction.
pub fn commit<T: TableRings>(leased: &mut LeasedCore<T>, txn: u64) -> Result<(), Fault>
    ensures ok { OnOk result ((number : ℕ) × Step leased.old (Event.Commit txn) (Reply.Committed number) leased.new) }
    ensures refused { IfErr result (λ fault. Step leased.old (Event.Commit txn) (Reply.Refused fault) leased.new) }
{
    let _number = leased.commit(txn)?;
    Ok(())
}

/// Inserts a row and commits, and answers where the row stands.
pub fn put<T: TableRings>(leased: &mut LeasedCore<T>, txn: u64, row: Row) -> Result<Rid, Fault>
    ensures ok { IfOk result (λ rid. PutsRow row txn leased.old rid leased.new) }
    ensures refused { IfErr result (λ fault. FailsToPut row txn leased.old fault leased.new) }
{
    let rid = insert(leased, txn, row)?;
    commit(leased, txn)?;
    Ok(rid)
}

/// Undoes the transaction's writes until it has ended. Where an undo is refused, because memory is wanting, the transaction stays
/// open.
pub fn take_back<T: TableRings>(leased: &mut LeasedCore<T>, txn: u64)
    ensures { (more : ℕ) × TakesBack more leased.old txn leased.new }
{
    let Ok(Undone { left, .. }) = leased.undo(txn) else {
        return;
    };
    if left > 0 {
        take_back(leased, txn);
    }
}
