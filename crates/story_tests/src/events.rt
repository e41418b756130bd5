//! The events of commands.

use builder_core::{Dealing, Event, Plan};
use keybytes::{Cell, Fault, KeySpec, Row, Schema};
use script::{Command, Label, Spec, Start};
use std::alloc::Global;

/// The transaction that a label is the number of; from the one on that was begun beside the story's each has a number
/// more.
pub fn txn_of(label: &Label, beside: u64) -> u64 {
    let txn: u64 = label.as_str().parse().unwrap_or(0);
    txn.saturating_add(u64::from(txn >= beside))
}

pub fn row(alloc: Global, cells: &[Cell]) -> Result<Row, Fault> {
    let mut copies = Vec::with_capacity(alloc, cells.len())?;
    for cell in cells {
        copies.push(cell.clone()?)?;
    }
    Row::new(copies)
}

/// The specification as it is spelled, but for its condition.
pub fn key_spec(alloc: Global, schema: &Schema, spec: &Spec) -> Result<KeySpec, Fault> {
    KeySpec::new(alloc, schema, spec.columns.to_vec(alloc)?, spec.unique)
}

pub fn plan(alloc: Global, schema: &Schema, start: &Start) -> Result<Plan, Fault> {
    let mut specs = Vec::with_capacity(alloc, start.specs.len())?;
    for spec in &start.specs {
        specs.push(key_spec(alloc, schema, spec)?)?;
    }
    let dealing = match &start.dealing {
        Dealing::Even(ranges) => Dealing::Even(*ranges),
        Dealing::Ends(ends) => Dealing::Ends(ends.to_vec(alloc)?),
    };
    Ok(Plan {
        specs,
        workers: start.workers,
        dealing,
        tries: 1,
        keep_pairs: false,
    })
}

/// The event of a command, if it is one.
pub fn event(
    alloc: Global,
    schema: &Schema,
    command: &Command,
    beside: u64,
) -> Result<Event, Fault> {
    Ok(match command {
        Command::Begin { .. } => Event::Begin,
        Command::Insert { label, cells } => Event::Insert {
            txn: txn_of(label, beside),
            row: row(alloc, cells)?,
        },
        Command::Update { label, rid, cells } => Event::Update {
            txn: txn_of(label, beside),
            rid: *rid,
            row: row(alloc, cells)?,
        },
        Command::Delete { label, rid } => Event::Delete {
            txn: txn_of(label, beside),
            rid: *rid,
        },
        Command::Undo { label } => Event::Undo {
            txn: txn_of(label, beside),
        },
        Command::Commit { label } => Event::Commit {
            txn: txn_of(label, beside),
        },
        Command::Start(start) => Event::Start {
            plan: plan(alloc, schema, start)?,
        },
        Command::Scan { range, worker } => Event::Scan {
            range: *range,
            worker: *worker,
        },
        Command::Digest { worker } => Event::Digest { worker: *worker },
        Command::Seal { worker } => Event::Seal { worker: *worker },
        Command::Load { index } => Event::Load { index: *index },
        Command::Feed { index, most } => Event::Feed {
            index: *index,
            most: *most,
        },
        Command::Apply { index, most } => Event::Apply {
            index: *index,
            most: *most,
        },
        Command::Fence => Event::Fence,
        Command::Switch => Event::Switch,
        Command::Abandon => Event::Abandon,
        _ => return Err(Fault::BadScript(0)),
    })
}
