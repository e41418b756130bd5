//! What is read of the table.
ghost use Rattle.std.specs.Prelude.{◌≡◌, IfOk, IfErr, OnOk};
ghost use Rattle.sfbuild_c.specs.Answers.{Answers, Tells, UnlessDone, UnlessTold};
ghost use Rattle.sfbuild_c.specs.Places.{rid_of};
ghost use Rattle.sfbuild_c.specs.Reading.{HandsOutRow, HasPages, IsRowAt, IsVisited, RefusesNothing, RefusesToHandOut};

use crate::buffer::hand_out;
use crate::place::Place;
use crate::session::Session;
use crate::status::{CLOSED, DONE};
use kept_table::Kept;
use keybytes::{Fault, Rid};
use std::alloc::Global;

/// Tells how many pages the table has.
#[unsafe(no_mangle)]
pub extern "C" fn sfbuild_pages(alloc: Global, session: &mut Session, pages: &mut u32) -> u8
    ensures told { Answers (HasPages pages.new) RefusesNothing result session.old session.new }
    ensures kept { UnlessDone result (pages.new ≡ pages.old) }
{
    let Some(mut table) = session.take(alloc) else {
        return CLOSED;
    };
    *pages = table.pages();
    session.put(table);
    DONE
}

/// Writes the bytes of the row that stands there, and their number.
#[unsafe(no_mangle)]
pub extern "C" fn sfbuild_get(
    alloc: Global,
    session: &mut Session,
    at: Place,
    row: &mut [u8],
    length: &mut usize,
) -> u8
    ensures told { Tells (HandsOutRow (rid_of at) row.old result row.new length.new) (RefusesToHandOut (rid_of at)) result session.old session.new }
    ensures kept { UnlessTold result ((row.new ≡ row.old) × (length.new ≡ length.old)) }
{
    let Some(mut table) = session.take(alloc) else {
        return CLOSED;
    };
    let bytes = bytes_at(&mut table, at.rid());
    session.put(table);
    match bytes {
        Ok(bytes) => hand_out(bytes.as_slice(), row, length),
        Err(fault) => session.tell(fault),
    }
}

/// The bytes of the row that stands there.
fn bytes_at(table: &mut Kept, rid: Rid) -> Result<Vec<u8>, Fault>
    ensures ok { IfOk result (λ bytes. IsRowAt rid table.old bytes.items) }
    ensures visited { OnOk result (IsVisited table.old table.new) }
    ensures refused { IfErr result (λ fault. RefusesToHandOut rid fault table.old table.new) }
{
    let schema = table.schema();
    let row = table.get(rid)?;
    row.to_bytes(&schema)
}
