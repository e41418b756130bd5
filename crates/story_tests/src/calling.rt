//! The caller that docs/CALLING.md shows.
ghost use Rattle.std.specs.Prelude.{◌≡◌};

use crate::meetings::{Meeting, WHOLE, shared};
use crate::rows::row;
use crew::{Opened, Receipt, Session, TableParts};
use keybytes::{Fault, Row};
use std::alloc::Global;
use std::marker::Brand;
use std::sync::Wait;
use std::thread::{Threads, join};

static SEVEN_ROWS: Meeting = WHOLE;

/// Inserts a row in a transaction of its own.
fn insert<T: Opened, R: Wait>(
    rt: &R,
    mut session: Session<'_, T>,
    row: Row,
) -> Result<(Receipt<T>, Receipt<T>), Fault> {
    let txn = session.begin(rt)?;
    let written = session.insert(rt, txn, row)?;
    let committed = session.commit(rt, txn)?;
    Ok((written, committed))
}

/// Inserts two rows in two threads, and tells how many records no receipt is for.
fn missing<T: Opened + Send + Sync, R: Threads + Wait + Sync>(
    rt: &R,
    alloc: Global,
    parts: TableParts,
    rows: (Row, Row),
) -> Result<usize, Fault>
    requires word { parts.word ≡ T.table }
    requires pages { parts.parts.pages ≡ T.pages }
    requires sides { parts.parts.sides ≡ T.sides }
    requires opening { parts.parts.heap.log ≡ T.opening }
{
    let (table, _ends) = parts.open::<T>();
    let (one, two) = (table.session(rt), table.session(rt));
    let (first, second) = rows;
    let (a, b) = join(
        rt,
        move || insert(rt, one, first),
        move || insert(rt, two, second),
    );
    let ((row, end), (other_row, other_end)) = (a?, b?);
    let receipts = vec![in alloc; row, end, other_row, other_end]?;
    Ok(table.close(receipts).missing)
}

fn missing_of_two<R: Threads + Wait + Sync>(rt: &R, alloc: Global) -> Result<usize, Fault> {
    let rows = (row(alloc, 5, 0)?, row(alloc, 3, 0)?);
    let (parts, _build) = shared(alloc, &SEVEN_ROWS)?;
    missing::<Brand, R>(rt, alloc, parts, rows)
}

#[test]
fn no_record_is_missing(rt: HostRuntime) {
    assert_eq!(rt; missing_of_two(&rt, rt.alloc()), Ok(0));
}
