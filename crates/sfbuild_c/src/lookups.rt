//! Look-ups in the ready indexes.
ghost use Rattle.std.specs.Prelude.{◌≡◌, None, take, slice_get, IfOk, IfErr, OnOk};
ghost use Rattle.std.specs.Option.{option_map};
ghost use Rattle.keybytes.specs.Faults.{RefusedFor};
ghost use Rattle.kept_table.specs.Lookups.{GoesOnWith, pair_of};
ghost use Rattle.sfbuild_c.specs.Answers.{Answers, Tells, UnlessDone, UnlessTold};
ghost use Rattle.sfbuild_c.specs.Lookups.{GoesOn, HandsOutKey, HasNoKey, IsKeyOfRow, RefusesKey, RefusesToGoOn, pair_refusal};
ghost use Rattle.sfbuild_c.specs.Reading.{HasReady, RefusesNothing};

use crate::buffer::hand_out;
use crate::place::Place;
use crate::session::Session;
use crate::status::{CLOSED, DONE, END};
use kept_table::Kept;
use keybytes::{Fault, KEY_MAX, Key, Rid};
use std::alloc::Global;

/// Tells how many indexes are ready.
#[unsafe(no_mangle)]
pub extern "C" fn sfbuild_ready(alloc: Global, session: &mut Session, indexes: &mut usize) -> u8
    ensures told { Answers (HasReady indexes.new) RefusesNothing result session.old session.new }
    ensures kept { UnlessDone result (indexes.new ≡ indexes.old) }
{
    let Some(mut table) = session.take(alloc) else {
        return CLOSED;
    };
    *indexes = table.ready();
    session.put(table);
    DONE
}

/// Writes the key that the first columns of a ready index have of a row, and its length.
#[unsafe(no_mangle)]
pub extern "C" fn sfbuild_key(
    alloc: Global,
    session: &mut Session,
    index: usize,
    columns: usize,
    row: &[u8],
    key: &mut [u8],
    length: &mut usize,
) -> u8
    ensures told { Tells (HandsOutKey index columns row.now key.old result key.new length.new) (RefusesKey index columns row.now)
        result session.old session.new }
    ensures kept { UnlessTold result ((key.new ≡ key.old) × (length.new ≡ length.old)) }
{
    let Some(mut table) = session.take(alloc) else {
        return CLOSED;
    };
    let found = key_of(&mut table, index, columns, row);
    session.put(table);
    match found {
        Ok(found) => hand_out(found.bytes(), key, length),
        Err(fault) => session.tell(fault),
    }
}

/// The key of a row that comes as bytes.
fn key_of(table: &mut Kept, index: usize, columns: usize, bytes: &[u8]) -> Result<Key, Fault>
    ensures ok { IfOk result (IsKeyOfRow index columns bytes.now table.old) }
    ensures refused { IfErr result (HasNoKey index columns bytes.now table.old) }
    ensures unchanged { table.new ≡ table.old }
{
    let row = table.read_row(bytes)?;
    table.key(index, columns, &row)
}

/// Writes the first pair of a ready index that isn't before the key and the place, or with `past` the first behind it, in their stead.
#[unsafe(no_mangle)]
pub extern "C" fn sfbuild_next(
    alloc: Global,
    session: &mut Session,
    index: usize,
    past: bool,
    key: &mut [u8],
    length: &mut usize,
    rid: &mut Place,
) -> u8
    ensures told { Tells
        (GoesOn index past (record { room = key.old; size = length.old; rid = rid.old }) result (record { room = key.new; size = length.new; rid = rid.new }))
        (RefusesToGoOn index (record { room = key.old; size = length.old; rid = rid.old }))
        result session.old session.new }
    ensures kept { UnlessTold result ((key.new ≡ key.old) × (length.new ≡ length.old) × (rid.new ≡ rid.old)) }
{
    let Some(mut table) = session.take(alloc) else {
        return CLOSED;
    };
    let found = next_from(&mut table, alloc, index, past, key, *length, rid.rid());
    session.put(table);
    match found {
        Ok(Some((found, at))) => {
            let status = hand_out(found.bytes(), key, length);
            if status == DONE {
                *rid = Place::of(at);
            }
            status
        }
        Ok(None) => END,
        Err(fault) => session.tell(fault),
    }
}

/// The next pair from a key that comes as bytes.
fn next_from(
    table: &mut Kept,
    alloc: Global,
    index: usize,
    past: bool,
    bytes: &[u8],
    size: usize,
    rid: Rid,
) -> Result<Option<(Key, Rid)>, Fault>
    ensures ok { IfOk result (λ found.
        GoesOnWith past (record { key = take size bytes.now; rid = rid }) (slice_get table.old.core.live.ready index) (option_map pair_of found)) }
    ensures accepted { OnOk result (pair_refusal bytes.now size (slice_get table.old.core.live.ready index) ≡ None) }
    ensures refused { IfErr result (RefusedFor (pair_refusal bytes.now size (slice_get table.old.core.live.ready index))) }
    ensures unchanged { table.new ≡ table.old }
{
    if size > bytes.len() || size > KEY_MAX || index >= table.ready() {
        return Err(Fault::BadCount);
    }
    let mut key = Key::new(alloc);
    key.add(&bytes[..size])?;
    table.next(index, &key, rid, past)
}
