//! The bytes of a row: its cells' bytes one after the other, in the order of the columns, with nothing between.
ghost use Rattle.std.specs.Prelude.{◌≡◌, ◌≢◌, ◌<◌, ◌≤◌, ◌++◌, ◌∷◌, length, IfOk, IfErr, OnOk};
ghost use Rattle.keybytes.specs.Cells.{IsCell};
ghost use Rattle.keybytes.specs.declared.cell.Cell.{Cell};
ghost use Rattle.keybytes.specs.Rows.{cell_bytes, BeginsWith, RefusesCell};

use crate::{Cell, Fault, Kind, TEXT_MAX, Text};
use byteorder::{BigEndian, ByteOrder};
use std::alloc::Global;

/// The tag of Null, behind which nothing follows.
const NULL: u8 = 0;

/// The tag of every other cell.
const PRESENT: u8 = 1;

/// How many bytes a cell has in a row.
pub fn cell_size(cell: &Cell) -> usize
    requires { IsCell cell.now }
    ensures size { result ≡ length (cell_bytes cell.now) }
    ensures some { 0 < result }
    ensures limit { result ≤ 102 }
{
    match cell {
        Cell::Null => 1,
        Cell::Int(_) => 9,
        Cell::Text(text) => 2 + text.as_str().len(),
        Cell::Flag(_) => 2,
    }
}

/// Puts a cell's bytes behind those that are there.
pub fn push_cell(bytes: &mut Vec<u8>, cell: &Cell) -> Result<(), Fault>
    requires { IsCell cell.now }
    ensures ok { OnOk result (bytes.new.items ≡ bytes.old.items ++ cell_bytes cell.now) }
    ensures memory { IfErr result (λ fault. fault ≡ Fault.Memory) }
{
    match cell {
        Cell::Null => bytes.push(NULL)?,
        Cell::Int(number) => push_int(bytes, *number)?,
        Cell::Text(text) => push_text(bytes, text)?,
        Cell::Flag(flag) => bytes.extend_from_slice(&[PRESENT, u8::from(*flag)])?,
    }
    Ok(())
}

fn push_int(bytes: &mut Vec<u8>, number: i64) -> Result<(), Fault>
    ensures ok { OnOk result (bytes.new.items ≡ bytes.old.items ++ cell_bytes (Cell.Int number)) }
    ensures memory { IfErr result (λ fault. fault ≡ Fault.Memory) }
{
    let mut cell = [PRESENT; 9];
    BigEndian::write_u64(&mut cell[1..], number.cast_unsigned());
    bytes.extend_from_slice(&cell)?;
    Ok(())
}

fn push_text(bytes: &mut Vec<u8>, text: &Text) -> Result<(), Fault>
    requires { IsCell (Cell.Text text.now) }
    ensures ok { OnOk result (bytes.new.items ≡ bytes.old.items ++ cell_bytes (Cell.Text text.now)) }
    ensures memory { IfErr result (λ fault. fault ≡ Fault.Memory) }
{
    let text = text.as_str();
    bytes.extend_from_slice(&[PRESENT, text.len() as u8])?;
    bytes.extend_from_slice(text.as_bytes())?;
    Ok(())
}

/// Reads the cell with which the bytes begin, in a column of that kind, and answers what follows it.
pub fn read_cell(alloc: Global, kind: Kind, bytes: &[u8]) -> Result<(Cell, &[u8]), Fault>
    ensures ok { IfOk result (λ read. BeginsWith kind bytes.now read.0 read.1.now) }
    ensures refused { IfErr result (λ fault. fault ≢ Fault.Memory → RefusesCell kind bytes.now fault) }
{
    let Some((tag, rest)) = bytes.split_first() else {
        return Err(Fault::RowShape);
    };
    match *tag {
        NULL => Ok((Cell::Null, rest)),
        PRESENT => read_present(alloc, kind, rest),
        _ => Err(Fault::RowShape),
    }
}

/// Passes over the cell with which the bytes begin, in a column of that kind, and answers what follows it. Takes no memory.
pub fn skip_cell(kind: Kind, bytes: &[u8]) -> Result<&[u8], Fault>
    ensures ok { IfOk result (λ after. (cell : Cell) × BeginsWith kind bytes.now cell after.now) }
    ensures refused { IfErr result (RefusesCell kind bytes.now) }
{
    let Some((tag, rest)) = bytes.split_first() else {
        return Err(Fault::RowShape);
    };
    match *tag {
        NULL => Ok(rest),
        PRESENT => skip_present(kind, rest),
        _ => Err(Fault::RowShape),
    }
}

/// Passes over what follows the tag of a cell that is not Null.
fn skip_present(kind: Kind, rest: &[u8]) -> Result<&[u8], Fault>
    ensures ok { IfOk result (λ after. (cell : Cell) × BeginsWith kind (1 ∷ rest.now) cell after.now) }
    ensures refused { IfErr result (RefusesCell kind (1 ∷ rest.now)) }
{
    match kind {
        Kind::Int => Ok(read_int(rest)?.1),
        Kind::Text => Ok(text_in(rest)?.1),
        Kind::Flag => Ok(read_flag(rest)?.1),
    }
}

/// Reads what follows the tag of a cell that is not Null.
fn read_present(alloc: Global, kind: Kind, rest: &[u8]) -> Result<(Cell, &[u8]), Fault>
    ensures ok { IfOk result (λ read. BeginsWith kind (1 ∷ rest.now) read.0 read.1.now) }
    ensures refused { IfErr result (λ fault. fault ≢ Fault.Memory → RefusesCell kind (1 ∷ rest.now) fault) }
{
    match kind {
        Kind::Int => read_int(rest),
        Kind::Text => read_text(alloc, rest),
        Kind::Flag => read_flag(rest),
    }
}

fn read_int(rest: &[u8]) -> Result<(Cell, &[u8]), Fault>
    ensures ok { IfOk result (λ read. BeginsWith Kind.Int (1 ∷ rest.now) read.0 read.1.now) }
    ensures refused { IfErr result (λ fault. RefusesCell Kind.Int (1 ∷ rest.now) fault) }
{
    let Some((digits, after)) = rest.split_first_chunk::<8>() else {
        return Err(Fault::RowShape);
    };
    let number = u64::from_be_bytes(*digits).cast_signed();
    Ok((Cell::Int(number), after))
}

fn read_text(alloc: Global, rest: &[u8]) -> Result<(Cell, &[u8]), Fault>
    ensures ok { IfOk result (λ read. BeginsWith Kind.Text (1 ∷ rest.now) read.0 read.1.now) }
    ensures refused { IfErr result (λ fault. fault ≢ Fault.Memory → RefusesCell Kind.Text (1 ∷ rest.now) fault) }
{
    let (text, after) = text_in(rest)?;
    let string = String::from_str(alloc, text)?;
    Ok((Cell::Text(Text::new(string)), after))
}

/// The text that follows a tag, still among the bytes, and what follows it.
fn text_in(rest: &[u8]) -> Result<(&str, &[u8]), Fault>
    ensures ok { IfOk result (λ read. BeginsWith Kind.Text (1 ∷ rest.now) (Cell.Text read.0.now) read.1.now) }
    ensures refused { IfErr result (RefusesCell Kind.Text (1 ∷ rest.now)) }
{
    let Some((len, body)) = rest.split_first() else {
        return Err(Fault::RowShape);
    };
    let len = usize::from(*len);
    if len > TEXT_MAX {
        return Err(Fault::TextTooLong);
    }
    let Some((bytes, after)) = body.split_at_checked(len) else {
        return Err(Fault::RowShape);
    };
    let Ok(text) = str::from_utf8(bytes) else {
        return Err(Fault::RowShape);
    };
    Ok((text, after))
}

fn read_flag(rest: &[u8]) -> Result<(Cell, &[u8]), Fault>
    ensures ok { IfOk result (λ read. BeginsWith Kind.Flag (1 ∷ rest.now) read.0 read.1.now) }
    ensures refused { IfErr result (λ fault. RefusesCell Kind.Flag (1 ∷ rest.now) fault) }
{
    let Some((flag, after)) = rest.split_first() else {
        return Err(Fault::RowShape);
    };
    match *flag {
        0 => Ok((Cell::Flag(false), after)),
        1 => Ok((Cell::Flag(true), after)),
        _ => Err(Fault::RowShape),
    }
}
