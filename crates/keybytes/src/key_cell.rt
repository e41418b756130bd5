//! The bytes of a cell in a key: a tag, then what its column's kind says.
//!
//! Null is the tag alone and comes first where the column ascends. A number stands with its sign bit turned, the highest byte first, so that
//! numbers compare as their bytes do. A text has no length in front, which would sort short texts first: it runs to an
//! end mark instead, and since the mark's first byte is 0, each byte 0 of the text is followed by a byte above the
//! mark's second one.
ghost use Rattle.std.specs.Prelude.{◌≡◌, ◌+◌, ◌≤◌, ◌++◌, List, ℕ, length, IsOk, IfOk, IfErr, OnOk};
ghost use Rattle.keybytes.specs.Keys.{cell_key, text_key, BeginsWithCellKey, BeginsWithTextKey};
ghost use Rattle.keybytes.specs.declared.cell.Cell.{Cell};

use crate::{Cell, Fault, Kind, Text};
use byteorder::{BigEndian, ByteOrder};
use smallvec::SmallVec;
use std::alloc::Global;

/// The tag of Null.
const NULL: u8 = 0;

/// The tag of every other cell.
const VALUE: u8 = 1;

/// What follows a byte 0 that is the text's own.
const OWN_ZERO: u8 = 0xFF;

/// What follows the byte 0 that ends a text.
const TEXT_END: u8 = 1;

/// A number's sign bit.
const SIGN: u64 = 1 << 63;

/// The bytes of a number behind its tag.
const INT_LEN: usize = 8;

/// Puts the cell's bytes behind those of the key that are there, and takes memory only where they have no room; after an `Err` some of
/// them stand there.
pub fn add_cell<const N: usize>(key: &mut SmallVec<u8, N>, cell: &Cell) -> Result<(), Fault>
    ensures ok { OnOk result (key.new.items ≡ key.old.items ++ cell_key cell.now) }
    ensures memory { IfErr result (λ fault. fault ≡ Fault.Memory) }
    ensures room { length key.old.items + length (cell_key cell.now) ≤ key.old.capacity → IsOk result }
    ensures capacity { key.old.capacity ≤ key.new.capacity }
{
    match cell {
        Cell::Null => add(key, &[NULL]),
        Cell::Int(number) => {
            let mut bytes = [VALUE; 1 + INT_LEN];
            let raised = number.cast_unsigned().wrapping_add(SIGN);
            BigEndian::write_u64(&mut bytes[1..], raised);
            add(key, &bytes)
        }
        Cell::Text(text) => {
            add(key, &[VALUE])?;
            add_text(key, text.as_str().as_bytes())
        }
        Cell::Flag(flag) => add(key, &[VALUE, u8::from(*flag)]),
    }
}

fn add_text<const N: usize>(key: &mut SmallVec<u8, N>, text: &[u8]) -> Result<(), Fault>
    ensures ok { OnOk result (key.new.items ≡ key.old.items ++ text_key text.now) }
    ensures memory { IfErr result (λ fault. fault ≡ Fault.Memory) }
    ensures room { length key.old.items + length (text_key text.now) ≤ key.old.capacity → IsOk result }
    ensures capacity { key.old.capacity ≤ key.new.capacity }
{
    for byte in text {
        if *byte == 0 {
            add(key, &[0, OWN_ZERO])?;
        } else {
            add(key, &[*byte])?;
        }
    }
    add(key, &[0, TEXT_END])
}

fn add<const N: usize>(key: &mut SmallVec<u8, N>, bytes: &[u8]) -> Result<(), Fault>
    ensures ok { OnOk result (key.new.items ≡ key.old.items ++ bytes.now) }
    ensures memory { IfErr result (λ fault. fault ≡ Fault.Memory) }
    ensures room { length key.old.items + length bytes.now ≤ key.old.capacity → IsOk result }
    ensures capacity { key.old.capacity ≤ key.new.capacity }
{
    key.extend_from_slice(bytes)?;
    Ok(())
}

/// The cell of a column of that kind whose bytes stand in front, and how many they are.
pub fn read_cell(alloc: Global, kind: Kind, bytes: &[u8]) -> Result<(Cell, usize), Fault>
    requires { (cell : Cell) × (rest : List ℕ) × BeginsWithCellKey kind cell rest bytes.now }
    ensures cell { IfOk result (λ read. (cell : Cell) (rest : List ℕ) → BeginsWithCellKey kind cell rest bytes.now → read.0 ≡ cell) }
    ensures len { IfOk result (λ read. (cell : Cell) (rest : List ℕ) → BeginsWithCellKey kind cell rest bytes.now → read.1 ≡ length (cell_key cell)) }
    ensures memory { IfErr result (λ fault. fault ≡ Fault.Memory) }
{
    if bytes[0] == NULL {
        return Ok((Cell::Null, 1));
    }
    let behind = &bytes[1..];
    Ok(match kind {
        Kind::Int => {
            let number = BigEndian::read_u64(behind).wrapping_sub(SIGN).cast_signed();
            (Cell::Int(number), 1 + INT_LEN)
        }
        Kind::Text => {
            let (text, len) = read_text(alloc, behind)?;
            (Cell::Text(text), 1 + len)
        }
        Kind::Flag => (Cell::Flag(behind[0] != 0), 2),
    })
}

fn read_text(alloc: Global, bytes: &[u8]) -> Result<(Text, usize), Fault>
    requires { (text : List ℕ) × (rest : List ℕ) × BeginsWithTextKey text rest bytes.now }
    ensures text { IfOk result (λ read. (text rest : List ℕ) → BeginsWithTextKey text rest bytes.now → read.0 ≡ text) }
    ensures len { IfOk result (λ read. (text rest : List ℕ) → BeginsWithTextKey text rest bytes.now → read.1 ≡ length (text_key text)) }
    ensures memory { IfErr result (λ fault. fault ≡ Fault.Memory) }
{
    let mut text = Vec::new(alloc);
    let mut at = 0;
    while bytes[at] != 0 || bytes[at + 1] == OWN_ZERO {
        text.push(bytes[at])?;
        at += if bytes[at] == 0 { 2 } else { 1 };
    }
    match String::from_utf8(text) {
        Ok(string) => Ok((Text::new(string), at + 2)),
        Err(_) => unreachable!(),
    }
}
