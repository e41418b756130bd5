//! Keys that a user asks for.

use crate::table::{CellFault, Column, Failure, Refusal, cell, record};
use csv::StringRecord;
use keybytes::{Fault, KEY_MAX, Key, KeyCol, KeySpec, Row, Schema};
use std::alloc::{AllocError, Global};

/// The bytes behind a key of an index's first columns that no key with these columns has behind it, nor a greater one.
const ABOVE: [u8; 24] = [255; 24];

/// What a user may ask an index for.
#[derive(Clone, Copy)]
pub struct Subject<'a> {
    pub alloc: Global,
    pub schema: &'a Schema,
    pub columns: &'a [Column],
    pub spec: &'a KeySpec,
}

impl<'a> Subject<'a> {
    /// The key that the index's first columns have with these cells, joined by commas, and whether these are all its columns.
    pub fn key(self, text: &str) -> Result<(Key, bool), Failure> {
        let record = record(self.alloc, text)?;
        let Some(columns) = self.spec.columns().get(..record.len()) else {
            return Err(Failure::refused(self.alloc, Refusal::TooManyCells, text));
        };
        let is_whole = columns.len() == self.spec.columns().len();
        let row = self.row(&record, columns, text)?;
        match self.key_of(&row, columns)? {
            Some(key) => Ok((key, is_whole)),
            None => Err(Failure::Table(Fault::RowShape)),
        }
    }

    /// The key that a row has by these columns.
    fn key_of(self, row: &Row, columns: &[KeyCol]) -> Result<Option<Key>, Fault> {
        let spec = KeySpec::new(self.alloc, self.schema, columns.to_vec(self.alloc)?, false)?;
        if !row.fits(self.schema) || !spec.is_of(self.schema) {
            return Ok(None);
        }
        spec.key(row)
    }

    /// A row with these cells in these columns, and Null in all others.
    fn row(self, record: &StringRecord, columns: &[KeyCol], text: &str) -> Result<Row, Failure> {
        let mut cells = Vec::with_capacity(self.alloc, self.columns.len())?;
        for (place, column) in self.columns.iter().enumerate() {
            let given = columns.iter().position(|named| named.column == place);
            let field = given.and_then(|given| record.get(given)).unwrap_or("");
            match cell(self.alloc, column.kind, field.as_bytes()) {
                Ok(cell) => cells.push(cell)?,
                Err(fault) => return Err(self.refused(fault, text, column)?),
            }
        }
        Ok(Row::new(cells)?)
    }

    /// The refusal of a text for its cell of a column.
    fn refused(self, fault: CellFault, text: &str, column: &Column) -> Result<Failure, AllocError> {
        if fault == CellFault::Memory {
            return Ok(Failure::Table(Fault::Memory));
        }
        let text = String::from_str(self.alloc, text)?;
        Ok(Failure::KeyCell(fault, text, column.name.clone()?))
    }
}

/// A key above all that begin with these bytes, where these are those of some of an index's columns.
pub fn above(key: &Key) -> Result<Key, Fault> {
    let mut above = key.clone()?;
    if above.bytes().len() <= KEY_MAX - ABOVE.len() {
        above.add(&ABOVE)?;
    }
    Ok(above)
}
