//! Keys and refusals in few words.

use crate::failure::Failure;
use keybytes::{Cell, Fault, Rid};
use std::alloc::Global;
use std::fmt::Write;

/// The cells, spelled as in a script, and where the row stands.
pub fn key_at(alloc: Global, cells: &[Cell], rid: Rid) -> Result<String, Failure> {
    let mut words = String::new(alloc);
    push_cells(&mut words, cells)?;
    write!(words, " at {rid}")?;
    Ok(words)
}

/// The cells, with commas between them.
pub fn push_cells(words: &mut String, cells: &[Cell]) -> Result<(), Failure> {
    let mut is_first = true;
    for cell in cells {
        if !is_first {
            words.push(',')?;
        }
        is_first = false;
        push_cell(words, cell)?;
    }
    Ok(())
}

fn push_cell(words: &mut String, cell: &Cell) -> Result<(), Failure> {
    match cell {
        Cell::Null => words.push('~')?,
        Cell::Int(number) => write!(words, "{number}")?,
        Cell::Text(text) => {
            words.push('=')?;
            words.push_str(text.as_str())?;
        }
        Cell::Flag(flag) => write!(words, "{flag}")?,
    }
    Ok(())
}

/// The name of a refusal, and what it comes with.
pub fn refusal(alloc: Global, fault: Fault) -> Result<String, Failure> {
    let name = fault.name();
    let words = match fault {
        Fault::RowHeld(txn) => format!(in alloc; "{name}, transaction {txn}")?,
        Fault::Duplicate(index, rid) => format!(in alloc; "{name}, index {index}, {rid}")?,
        Fault::KeyHeld(index, txn) => {
            format!(in alloc; "{name}, index {index}, transaction {txn}")?
        }
        Fault::NotScanned(count)
        | Fault::NotLoaded(count)
        | Fault::Behind(count)
        | Fault::Busy(count)
        | Fault::Short(count)
        | Fault::BadScript(count)
        | Fault::NotSealed(count) => format!(in alloc; "{name}, {count}")?,
        _ => String::from_str(alloc, name)?,
    };
    Ok(words)
}
