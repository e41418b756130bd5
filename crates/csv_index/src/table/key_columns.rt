//! The columns of an index.
ghost use Rattle.std.specs.Prelude.{◌≡◌, None, IfOk};

use crate::table::column::{Column, place_of};
use crate::table::failure::Failure;
use crate::table::list::record;
use crate::table::refusal::Refusal;
use keybytes::{Fault, KeyCol, KeySpec, Schema};
use std::alloc::Global;

/// What makes the keys of an index on the columns that a list names.
pub fn key_spec(
    alloc: Global,
    schema: &Schema,
    columns: &[Column],
    list: &str,
    unique: bool,
) -> Result<KeySpec, Failure>
    ensures kinds { IfOk result (λ spec. spec.kinds ≡ schema.now) }
    ensures unique { IfOk result (λ spec. spec.unique ≡ unique) }
    ensures whole { IfOk result (λ spec. spec.condition ≡ None) }
{
    let record = record(alloc, list)?;
    let mut named = Vec::new(alloc);
    for place in 0..record.len() {
        let text = record.get(place).unwrap_or("");
        match key_column(columns, text) {
            Some(column) => named.push(column)?,
            None => return Err(Failure::refused(alloc, Refusal::NotAsked, text)),
        }
    }
    match KeySpec::new(alloc, schema, named, unique) {
        Ok(spec) => Ok(spec),
        Err(Fault::Memory) => Err(Failure::Table(Fault::Memory)),
        Err(_) => Err(Failure::refused(alloc, Refusal::KeyColumns, list)),
    }
}

/// The column that a text names, and behind it `:desc` where it descends. A column may have a name that ends so.
fn key_column(columns: &[Column], text: &str) -> Option<KeyCol> {
    if let Some(column) = place_of(columns, text) {
        return Some(KeyCol {
            column,
            descending: false,
        });
    }
    let name = text.strip_suffix(":desc")?;
    Some(KeyCol {
        column: place_of(columns, name)?,
        descending: true,
    })
}
