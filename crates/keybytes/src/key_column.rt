//! The bytes of one column in a key: those of its cell or, where the column descends, each of them complemented. Of two lists of bytes
//! neither of which begins the other, the lesser is the greater one once all bytes are complemented: so descending columns compare by
//! bytes as well, and what follows such a column in the key isn't touched.
ghost use Rattle.std.specs.Prelude.{◌≡◌, ◌+◌, ◌≤◌, ◌++◌, List, ℕ, length, map, IsOk, IfOk, IfErr, OnOk};
ghost use Rattle.keybytes.specs.Keys.{cell_key, column_key, complement, BeginsWithColumnKey};
ghost use Rattle.keybytes.specs.declared.cell.Cell.{Cell};

use crate::key_cell::{add_cell, read_cell};
use crate::{Cell, Fault, Kind};
use smallvec::SmallVec;
use std::alloc::Global;

/// Puts the column's bytes behind those of the key that are there, and takes memory only where they have no room. After an `Err` it is
/// open what stands behind those that were there.
pub fn add_column<const N: usize>(
    key: &mut SmallVec<u8, N>,
    descending: bool,
    cell: &Cell,
) -> Result<(), Fault>
    ensures ok { OnOk result (key.new.items ≡ key.old.items ++ column_key descending cell.now) }
    ensures memory { IfErr result (λ fault. fault ≡ Fault.Memory) }
    ensures room { length key.old.items + length (column_key descending cell.now) ≤ key.old.capacity → IsOk result }
    ensures capacity { key.old.capacity ≤ key.new.capacity }
{
    let front = key.len();
    add_cell(key, cell)?;
    if descending {
        turn(&mut key.as_mut_slice()[front..]);
    }
    Ok(())
}

/// Complements each byte.
fn turn(bytes: &mut [u8])
    ensures { bytes.new ≡ map complement bytes.old }
{
    for byte in bytes.iter_mut() {
        *byte = !*byte;
    }
}

/// The cell of a column of that kind and direction whose bytes stand in front, and how many they are. Those of a descending column are
/// read from a copy.
pub fn read_column(
    alloc: Global,
    kind: Kind,
    descending: bool,
    bytes: &[u8],
) -> Result<(Cell, usize), Fault>
    requires { (cell : Cell) × (rest : List ℕ) × BeginsWithColumnKey descending kind cell rest bytes.now }
    ensures cell { IfOk result (λ read. (cell : Cell) (rest : List ℕ) → BeginsWithColumnKey descending kind cell rest bytes.now → read.0 ≡ cell) }
    ensures len { IfOk result (λ read. (cell : Cell) (rest : List ℕ) → BeginsWithColumnKey descending kind cell rest bytes.now
        → read.1 ≡ length (cell_key cell)) }
    ensures memory { IfErr result (λ fault. fault ≡ Fault.Memory) }
{
    if descending {
        let turned = complemented(alloc, bytes)?;
        return read_cell(alloc, kind, &turned);
    }
    read_cell(alloc, kind, bytes)
}

/// A copy of which each byte is complemented.
fn complemented(alloc: Global, bytes: &[u8]) -> Result<Vec<u8>, Fault>
    ensures ok { IfOk result (λ turned. turned.items ≡ map complement bytes.now) }
    ensures memory { IfErr result (λ fault. fault ≡ Fault.Memory) }
{
    let mut turned = Vec::with_capacity(alloc, bytes.len())?;
    for byte in bytes {
        turned.push(!*byte)?;
    }
    Ok(turned)
}
