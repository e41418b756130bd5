//! The table itself: it is opened and closed.
ghost use Rattle.std.specs.Prelude.{◌≡◌, None, Some, IfOk, IfErr, OnOk};
ghost use Rattle.heap_table.specs.HeapState.{empty_heap, limits_refusal};
ghost use Rattle.kept_table.specs.KeptTables.{new_table};
ghost use Rattle.sfbuild_c.specs.Opening.{Closes, IsNew, Opens, RefusesTable};

use crate::kind_bytes::{check_kinds, read_kinds};
use crate::session::Session;
use crate::status::{CLOSED, DONE, OPENED};
use heap_table::Heap;
use kept_table::Kept;
use keybytes::{Fault, Kind, Schema};
use std::alloc::Global;

/// Opens a table of these columns, with no row and no index.
#[unsafe(no_mangle)]
pub extern "C" fn sfbuild_open(
    alloc: Global,
    session: &mut Session,
    kinds: &[u8],
    slots_a_page: u8,
    pages: u32,
) -> u8
    ensures { Opens kinds.now slots_a_page pages result session.old session.new }
{
    if session.is_open() {
        return OPENED;
    }
    match made_table(alloc, kinds, slots_a_page, pages) {
        Ok(table) => {
            session.put(table);
            DONE
        }
        Err(fault) => session.tell(fault),
    }
}

/// Closes the table, and frees its memory. Where none is open nothing changes.
#[unsafe(no_mangle)]
pub extern "C" fn sfbuild_close(alloc: Global, session: &mut Session) -> u8
    ensures { Closes result session.old session.new }
{
    match session.take(alloc) {
        Some(table) => {
            let _handed_back = Box::into_inner(table).close();
            DONE
        }
        None => CLOSED,
    }
}

/// A box with a new table. What the bytes and the limits refuse is told before memory is asked for.
fn made_table(alloc: Global, kinds: &[u8], slots_a_page: u8, pages: u32) -> Result<Box<Kept>, Fault>
    ensures ok { IfOk result (λ table. IsNew kinds.now slots_a_page pages table.value) }
    ensures refused { IfErr result (RefusesTable kinds.now slots_a_page pages) }
{
    check_kinds(kinds)?;
    check_limits(alloc, slots_a_page, pages)?;
    let schema = read_kinds(alloc, kinds)?;
    boxed_table(alloc, schema, slots_a_page, pages)
}

/// Refuses limits that no table may have, by making one of some column, which takes no memory.
fn check_limits(alloc: Global, slots_a_page: u8, pages: u32) -> Result<(), Fault>
    ensures accepted { OnOk result (limits_refusal slots_a_page pages ≡ None) }
    ensures refused { IfErr result (λ fault. limits_refusal slots_a_page pages ≡ Some fault) }
{
    let _empty = Heap::new(alloc, Schema::of_one(Kind::Int), slots_a_page, pages)?;
    Ok(())
}

/// A box with a new table of these columns.
fn boxed_table(
    alloc: Global,
    schema: Schema,
    slots_a_page: u8,
    pages: u32,
) -> Result<Box<Kept>, Fault>
    requires { limits_refusal slots_a_page pages ≡ None }
    ensures ok { IfOk result (λ table. table.value ≡ record { core = new_table (empty_heap schema slots_a_page pages); decided = None; waited = None }) }
    ensures memory { IfErr result (λ fault. fault ≡ Fault.Memory) }
{
    let heap = Heap::new(alloc, schema, slots_a_page, pages)?;
    match Kept::new(alloc, heap) {
        Ok(table) => Ok(Box::new(alloc, table)?),
        Err((_, fault)) => Err(fault),
    }
}
