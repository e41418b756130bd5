//! Commands, done by a session on a shared table.

use crate::events::row;
use crate::listing::listed;
use crew::{Opened, Receipt, Session, UndoStep};
use heap_log::LogRec;
use keybytes::Fault;
use replay::Answer;
use script::Command;
use std::alloc::Global;
use std::sync::Wait;

/// Keeps the receipt of a record, for which there is room, and answers what it tells.
fn kept<T: Opened>(
    receipts: &mut Vec<Receipt<T>>,
    told: Result<Receipt<T>, Fault>,
) -> Result<Answer, Fault> {
    let receipt = told?;
    let number = receipt.number();
    let answer = match receipt.rec() {
        LogRec::Write { rid, .. } => Answer::Written { number, rid: *rid },
        _ => Answer::Number {
            number: number as u64,
        },
    };
    receipts.push(receipt)?;
    Ok(answer)
}

/// The same of a step of a rollback, which may have written no record.
fn undone<T: Opened>(
    receipts: &mut Vec<Receipt<T>>,
    told: Result<UndoStep<T>, Fault>,
) -> Result<Answer, Fault> {
    let UndoStep { receipt, left } = told?;
    let mut number = 0;
    if let Some(receipt) = receipt {
        number = receipt.number();
        receipts.push(receipt)?;
    }
    Ok(Answer::Undone { number, left })
}

/// What a session answers to a command of a transaction. The room for its receipt is made first.
pub fn session_answer<T: Opened, R: Wait>(
    rt: &R,
    alloc: Global,
    session: &mut Session<'_, T>,
    receipts: &mut Vec<Receipt<T>>,
    txn: u64,
    command: &Command,
) -> Result<Answer, Fault> {
    receipts.reserve(1)?;
    let told = match command {
        Command::Begin { .. } => {
            let number = session.begin(rt)?;
            return Ok(Answer::Number { number });
        }
        Command::Undo { .. } => return undone(receipts, session.undo(rt, txn)),
        Command::Get { rid } => {
            let row = session.get(rt, *rid)?;
            return Ok(Answer::Cells { row });
        }
        Command::Pairs { number } => return listed(alloc, &session.pairs(rt, alloc, *number)?.1),
        Command::Insert { cells, .. } => session.insert(rt, txn, row(alloc, cells)?),
        Command::Update { rid, cells, .. } => session.update(rt, txn, *rid, row(alloc, cells)?),
        Command::Delete { rid, .. } => session.delete(rt, txn, *rid),
        Command::Commit { .. } => session.commit(rt, txn),
        _ => Err(Fault::BadScript(0)),
    };
    kept(receipts, told)
}
