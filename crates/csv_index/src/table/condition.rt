//! What the indexes ask of a row.

use crate::table::cell_fault::CellFault;
use crate::table::column::{Column, place_of};
use crate::table::failure::Failure;
use crate::table::field::cell;
use crate::table::refusal::Refusal;
use keybytes::{Cell, Fault, When};
use std::alloc::Global;

/// The condition that a text spells: a column and `~`, or a column, `<` or `=`, and a cell.
pub fn condition(alloc: Global, columns: &[Column], text: &str) -> Result<When, Failure> {
    match spelled(alloc, columns, text)? {
        Some(condition) => Ok(condition),
        None => Err(Failure::refused(alloc, Refusal::Condition, text)),
    }
}

fn spelled(alloc: Global, columns: &[Column], text: &str) -> Result<Option<When>, Failure> {
    if let Some(name) = text.strip_suffix('~') {
        if let Some(column) = place_of(columns, name) {
            return Ok(Some(When::IsNull(column)));
        }
    }
    if let Some((column, bound)) = compared(alloc, columns, text.split_once('<'))? {
        return Ok(Some(When::Less(column, bound)));
    }
    Ok(match compared(alloc, columns, text.split_once('='))? {
        Some((column, given)) => Some(When::Equal(column, given)),
        None => None,
    })
}

/// The column and the cell that stand on both sides of a mark.
fn compared(
    alloc: Global,
    columns: &[Column],
    sides: Option<(&str, &str)>,
) -> Result<Option<(usize, Cell)>, Failure> {
    let Some((name, text)) = sides else {
        return Ok(None);
    };
    let Some(column) = place_of(columns, name) else {
        return Ok(None);
    };
    let Some(named) = columns.get(column) else {
        return Ok(None);
    };
    match cell(alloc, named.kind, text.as_bytes()) {
        Ok(cell) => Ok(Some((column, cell))),
        Err(CellFault::Memory) => Err(Failure::Table(Fault::Memory)),
        Err(_) => Ok(None),
    }
}
