//! What a field of a file is in a table.
ghost use Rattle.std.specs.Prelude.{◌≡◌, ◌⊎◌, ◌<◌, IfOk, IfErr, length};
ghost use Rattle.csv_index.specs.Cells.{IsNoCell, ReadsAs};

use crate::table::cell_fault::CellFault;
use keybytes::{Cell, Kind, TEXT_MAX, Text};
use std::alloc::Global;

/// The cell that a field of a column of that kind is; an empty one is Null.
pub fn cell(alloc: Global, kind: Kind, field: &[u8]) -> Result<Cell, CellFault>
    ensures read { IfOk result (ReadsAs kind field.now) }
    ensures refused { IfErr result (λ fault. (fault ≡ CellFault.Memory) ⊎ IsNoCell kind field.now) }
{
    if field.is_empty() {
        return Ok(Cell::Null);
    }
    let Ok(text) = str::from_utf8(field) else {
        return Err(CellFault::NoText);
    };
    match kind {
        Kind::Int => match text.parse::<i64>() {
            Ok(number) => Ok(Cell::Int(number)),
            Err(_) => Err(CellFault::NoInt),
        },
        Kind::Text => text_cell(alloc, text),
        Kind::Flag => match text {
            "true" => Ok(Cell::Flag(true)),
            "false" => Ok(Cell::Flag(false)),
            _ => Err(CellFault::NoFlag),
        },
    }
}

fn text_cell(alloc: Global, text: &str) -> Result<Cell, CellFault>
    ensures read { IfOk result (λ cell. cell ≡ Cell.Text text.now) }
    ensures refused { IfErr result (λ fault. (fault ≡ CellFault.Memory) ⊎ (100 < length text.now)) }
{
    if text.len() > TEXT_MAX {
        return Err(CellFault::TooLong);
    }
    let string = String::from_str(alloc, text)?;
    Ok(Cell::Text(Text::new(string)))
}
