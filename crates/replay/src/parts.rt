//! What a script's table is made of.
ghost use Rattle.std.specs.Prelude.{◌≡◌, None, OnOk, IfOk, IfErr};
ghost use Rattle.keybytes.specs.Faults.{RefusedFor};
ghost use Rattle.replay.specs.Sessions.{empty_heap_of};
ghost use Rattle.replay.specs.Limits.{table_refusal};

use builder_core::Parts;
use heap_table::{Heap, PAGES_MAX, SLOTS_MAX};
use keybytes::{Fault, Schema};
use script::Table;
use std::alloc::Global;

/// An empty table, with the rings of its builds. Its slot limit is looked at before its columns.
pub fn table_parts(alloc: Global, table: Table) -> Result<Parts, Fault>
    ensures accepted { OnOk result (table_refusal table ≡ None) }
    ensures refused { IfErr result (RefusedFor (table_refusal table)) }
    ensures empty { IfOk result (λ parts. parts.heap ≡ empty_heap_of table) }
{
    let heap = table_heap(alloc, table)?;
    match Parts::new(alloc, heap) {
        Ok(parts) => Ok(parts),
        Err((_, fault)) => Err(fault),
    }
}

/// An empty table with no rings.
pub fn table_heap(alloc: Global, table: Table) -> Result<Heap, Fault>
    ensures accepted { OnOk result (table_refusal table ≡ None) }
    ensures refused { IfErr result (RefusedFor (table_refusal table)) }
    ensures empty { IfOk result (λ heap. heap.state ≡ empty_heap_of table) }
{
    if table.slot_limit == 0 || table.slot_limit > u32::from(SLOTS_MAX) {
        return Err(Fault::BadCount);
    }
    let schema = Schema::new(table.kinds)?;
    Heap::new(alloc, schema, table.slot_limit as u8, PAGES_MAX)
}
