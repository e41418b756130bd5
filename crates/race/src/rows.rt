//! The rows that the table of a race has first.
ghost use Rattle.std.specs.Prelude.{◌≡◌, ◌≢◌, ◌⊎◌, true, false, IfErr, OnErr, OnOk};
ghost use Rattle.heap_table.specs.HeapState.{is_open, without};
ghost use Rattle.race.specs.Rows.{HasPassedOver, HasPut, HasPutRows, OpensNone};

use heap_table::{Heap, Undone};
use keybytes::{Cell, Fault, Row};

/// Puts the rows in, each by a transaction of its own. One that is refused is passed over.
pub fn put_rows(heap: &mut Heap, rows: Vec<Vec<Cell>>)
    ensures { HasPutRows rows.items heap.old.state.log heap.new.state.log }
{
    for cells in rows {
        let _passed_over = put_row(heap, cells);
    }
}

/// Puts a row in. Where that is refused once the transaction has begun, it is taken back.
fn put_row(heap: &mut Heap, cells: Vec<Cell>) -> Result<(), Fault>
    ensures put { OnOk result (HasPut cells.items heap.old.state.log heap.new.state.log) }
    ensures refused { OnErr result (HasPassedOver heap.old.state.log heap.new.state.log) }
    ensures ended { OnOk result (OpensNone heap.old.state heap.new.state) }
    ensures taken_back { IfErr result (λ fault. fault ≢ Fault.Memory → OpensNone heap.old.state heap.new.state) }
{
    let row = Row::new(cells)?;
    let txn = heap.begin()?;
    match insert(heap, txn, row) {
        Ok(()) => Ok(()),
        Err(fault) => {
            if take_back(heap, txn) {
                Err(fault)
            } else {
                Err(Fault::Memory)
            }
        }
    }
}

fn insert(heap: &mut Heap, txn: u64, row: Row) -> Result<(), Fault>
    ensures put { OnOk result (HasPut row heap.old.state.log heap.new.state.log) }
    ensures refused { OnErr result (HasPassedOver heap.old.state.log heap.new.state.log) }
    ensures ended { OnOk result (heap.new.state.active ≡ without txn heap.old.state.active) }
    ensures open_still { OnErr result (heap.new.state.active ≡ heap.old.state.active) }
{
    let _written = heap.insert(txn, row)?;
    let _number = heap.commit(txn)?;
    Ok(())
}

/// Undoes the writes of a transaction until it has ended. Where there is no memory for an undo, it stays open. Answers whether it has ended.
fn take_back(heap: &mut Heap, txn: u64) -> bool
    ensures passed { HasPassedOver heap.old.state.log heap.new.state.log }
    ensures ended { result ≡ true → is_open heap.new.state.active txn ≡ false }
    ensures others { OpensNone heap.old.state heap.new.state }
{
    let Ok(Undone { left, .. }) = heap.undo_step(txn) else {
        return false;
    };
    if left > 0 {
        return take_back(heap, txn);
    }
    true
}
