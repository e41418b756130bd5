//! A change of a row, done together with what it means for the indexes of the running build and for those that are ready.
ghost use Rattle.std.specs.Prelude.{◌≡◌, length, Some, None, ℕ, IsSome, IfOk, IfErr, OnOk, OnErr};
ghost use Rattle.heap_log.specs.Standing.{standing_count};
ghost use Rattle.heap_table.specs.HeapState.{after_write, after_undo};
ghost use Rattle.heap_table.specs.Ready.{IsReady, after_ready, answer_of};
ghost use Rattle.live_lemmas.specs.Changing.{BuildHears, HasHeard};
ghost use Rattle.ready_indexes.specs.Following.{AllFollow, AreLetIn, indexes_of};
ghost use Rattle.ready_indexes.specs.Indexes.{ready_now};

use heap_table::{Heap, Performed, Ready, Undone};
use keybytes::{Fault, Rid};
use ready_indexes::ReadyIndexes;
use side_file::SideFile;
use std::alloc::Global;
use table_scan::{TableScan, note};

/// Makes a change that was made ready: takes all memory first, then changes the table and its ready indexes, and appends the entries; out of
/// memory, nothing changes.
fn perform(
    indexes: &mut ReadyIndexes,
    heap: &mut Heap,
    alloc: Global,
    sides: &mut Vec<SideFile>,
    build: &Option<TableScan>,
    ready: Ready,
) -> Result<Performed, Fault>
    requires ready { IsReady heap.old ready }
    requires keys { ready.undone ≡ None → AreLetIn heap.old.state.log (indexes_of indexes.old.indexes) ready }
    requires indexes { AllFollow heap.old.state.schema heap.old.state.log indexes.old.indexes }
    requires build { BuildHears heap.old.state build.now sides.old.items }
    ensures performed { OnOk result (heap.new.state ≡ after_ready heap.old.state ready) }
    ensures answer { IfOk result (λ done. done ≡ answer_of heap.new.state ready.txn ready.rid ready.undone) }
    ensures ready { OnOk result (indexes_of indexes.new.indexes ≡ ready_now heap.new.state.log (indexes_of indexes.old.indexes)) }
    ensures kept { OnErr result (indexes_of indexes.new.indexes ≡ indexes_of indexes.old.indexes) }
    ensures indexes { AllFollow heap.new.state.schema heap.new.state.log indexes.new.indexes }
    ensures heard { HasHeard build.now heap.old.state sides.old.items heap.new.state sides.new.items }
    ensures unchanged { OnErr result (heap.new ≡ heap.old) }
    ensures memory { IfErr result (λ fault. fault ≡ Fault.Memory) }
{
    heap.laws();
    indexes.prepare(&ready)?;
    note(alloc, sides, build, &ready)?;
    Ok(indexes.perform(heap, ready))
}

/// Does a write that was made ready; answered with its record's number and the RID.
pub fn write(
    indexes: &mut ReadyIndexes,
    heap: &mut Heap,
    alloc: Global,
    sides: &mut Vec<SideFile>,
    build: &Option<TableScan>,
    ready: Ready,
) -> Result<(usize, Rid), Fault>
    requires ready { IsReady heap.old ready }
    requires write { ready.undone ≡ None }
    requires keys { AreLetIn heap.old.state.log (indexes_of indexes.old.indexes) ready }
    requires indexes { AllFollow heap.old.state.schema heap.old.state.log indexes.old.indexes }
    requires build { BuildHears heap.old.state build.now sides.old.items }
    ensures written { OnOk result (heap.new.state ≡ after_write heap.old.state ready.txn ready.rid ready.new) }
    ensures number { IfOk result (λ written. written.0 ≡ length heap.new.state.log) }
    ensures rid { IfOk result (λ written. written.1 ≡ ready.rid) }
    ensures ready { OnOk result (indexes_of indexes.new.indexes ≡ ready_now heap.new.state.log (indexes_of indexes.old.indexes)) }
    ensures kept { OnErr result (indexes_of indexes.new.indexes ≡ indexes_of indexes.old.indexes) }
    ensures indexes { AllFollow heap.new.state.schema heap.new.state.log indexes.new.indexes }
    ensures heard { HasHeard build.now heap.old.state sides.old.items heap.new.state sides.new.items }
    ensures unchanged { OnErr result (heap.new ≡ heap.old) }
    ensures memory { IfErr result (λ fault. fault ≡ Fault.Memory) }
{
    let Performed::Written { number, rid } = perform(indexes, heap, alloc, sides, build, ready)?
    else {
        unreachable!()
    };
    Ok((number, rid))
}

/// Does an undo that was made ready.
pub fn undo(
    indexes: &mut ReadyIndexes,
    heap: &mut Heap,
    alloc: Global,
    sides: &mut Vec<SideFile>,
    build: &Option<TableScan>,
    ready: Ready,
) -> Result<Undone, Fault>
    requires ready { IsReady heap.old ready }
    requires undo { IsSome ready.undone }
    requires indexes { AllFollow heap.old.state.schema heap.old.state.log indexes.old.indexes }
    requires build { BuildHears heap.old.state build.now sides.old.items }
    ensures undone { OnOk result ((n : ℕ) → ready.undone ≡ Some n → heap.new.state ≡ after_undo heap.old.state ready.txn n) }
    ensures number { IfOk result (λ undone. undone.number ≡ length heap.new.state.log) }
    ensures left { IfOk result (λ undone. undone.left ≡ standing_count heap.new.state.log ready.txn) }
    ensures ready { OnOk result (indexes_of indexes.new.indexes ≡ ready_now heap.new.state.log (indexes_of indexes.old.indexes)) }
    ensures kept { OnErr result (indexes_of indexes.new.indexes ≡ indexes_of indexes.old.indexes) }
    ensures indexes { AllFollow heap.new.state.schema heap.new.state.log indexes.new.indexes }
    ensures heard { HasHeard build.now heap.old.state sides.old.items heap.new.state sides.new.items }
    ensures unchanged { OnErr result (heap.new ≡ heap.old) }
    ensures memory { IfErr result (λ fault. fault ≡ Fault.Memory) }
{
    let Performed::Undone(undone) = perform(indexes, heap, alloc, sides, build, ready)? else {
        unreachable!()
    };
    Ok(undone)
}
