ghost use Rattle.std.specs.Prelude.{◌≡◌, IfOk, map};

use crate::table::failure::Failure;
use crate::table::list::record;
use crate::table::refusal::Refusal;
use keybytes::{COLUMNS_MAX, Kind, Schema};
use std::alloc::Global;

/// A column that the table gets.
pub struct Column {
    pub name: String,
    pub kind: Kind,
}

impl Drop for Column {
    fn drop(self) {
        let Column { name: _, kind: _ } = self;
    }
}

/// The columns that a list names, each with its kind.
pub fn columns(alloc: Global, list: &str) -> Result<Vec<Column>, Failure> {
    let record = record(alloc, list)?;
    let mut columns = Vec::new(alloc);
    for place in 0..record.len() {
        add_column(alloc, &mut columns, list, record.get(place).unwrap_or(""))?;
    }
    Ok(columns)
}

fn add_column(
    alloc: Global,
    columns: &mut Vec<Column>,
    list: &str,
    text: &str,
) -> Result<(), Failure> {
    if text.is_empty() || text.starts_with(':') {
        return Err(Failure::refused(alloc, Refusal::NoColumn, list));
    }
    let Some((name, kind)) = named(text) else {
        return Err(Failure::refused(alloc, Refusal::NoKind, text));
    };
    if place_of(columns.as_slice(), name).is_some() {
        return Err(Failure::refused(alloc, Refusal::AskedTwice, name));
    }
    if columns.len() >= COLUMNS_MAX {
        return Err(Failure::refused(alloc, Refusal::TooManyColumns, name));
    }
    columns.push(Column {
        name: String::from_str(alloc, name)?,
        kind,
    })?;
    Ok(())
}

/// A name, and behind the last colon a kind.
fn named(text: &str) -> Option<(&str, Kind)> {
    let (name, kind) = text.rsplit_once(':')?;
    let kind = match kind {
        "int" => Kind::Int,
        "text" => Kind::Text,
        "flag" => Kind::Flag,
        _ => return None,
    };
    Some((name, kind))
}

/// The place of the column of that name.
pub fn place_of(columns: &[Column], name: &str) -> Option<usize> {
    for (place, column) in columns.iter().enumerate() {
        if column.name.as_str() == name {
            return Some(place);
        }
    }
    None
}

/// What the rows of a table of these columns have.
pub fn schema(alloc: Global, columns: &[Column]) -> Result<Schema, Failure>
    ensures { IfOk result (λ schema. schema ≡ map (λ column. column.kind) columns.now) }
{
    let mut kinds = Vec::with_capacity(alloc, columns.len())?;
    for column in columns {
        kinds.push(column.kind)?;
    }
    Ok(Schema::new(kinds)?)
}
