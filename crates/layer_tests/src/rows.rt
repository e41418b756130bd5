//! Rows and keys, their bytes, and refusals as scripts know them.

mod cases;

use crate::desk::Desk;
use crate::fixtures::schema;
pub use cases::CASES;
use keybytes::{Fault, KeyCol, KeySpec, Kind, Row, Schema};
use std::alloc::Global;

/// The bytes of a row, and of its key in a unique index.
pub struct Keyed {
    kinds: &'static [Kind],
    columns: &'static [KeyCol],
    row: &'static [u8],
    key: &'static [u8],
    /// Why there are no such columns, or no such row.
    fault: Option<Fault>,
}

/// A refusal, its number and name, and how it is printed.
pub struct Known {
    fault: Fault,
    number: u8,
    name: &'static str,
    text: &'static str,
}

pub enum Step {
    Keys(Keyed),
    Names(Known),
}

/// What makes rows and keys.
#[derive(Clone, Copy)]
pub struct Rows(pub Global);

impl Desk for Rows {
    type Step = Step;

    fn does(&mut self, step: &Step) -> Result<bool, Fault> {
        match step {
            Step::Keys(keyed) => Ok(is_keyed(self.0, keyed) == keyed.answer()),
            Step::Names(known) => is_known(self.0, known),
        }
    }
}

impl Keyed {
    fn answer(&self) -> Result<bool, Fault> {
        match self.fault {
            None => Ok(true),
            Some(fault) => Err(fault),
        }
    }
}

/// Whether the row has that key, whose cells give the row's bytes back.
fn is_keyed(alloc: Global, keyed: &Keyed) -> Result<bool, Fault> {
    let schema = schema(alloc, keyed.kinds)?.clone()?;
    is_keyed_in(alloc, &schema, keyed)
}

fn is_keyed_in(alloc: Global, schema: &Schema, keyed: &Keyed) -> Result<bool, Fault> {
    let spec = KeySpec::new(alloc, schema, keyed.columns.to_vec(alloc)?, true)?.clone()?;
    let row = Row::read(alloc, keyed.row, schema)?.clone()?;
    has_key(&spec, schema, &row, keyed)
}

fn has_key(spec: &KeySpec, schema: &Schema, row: &Row, keyed: &Keyed) -> Result<bool, Fault> {
    if !spec.is_of(schema) || !row.fits(schema) {
        return Err(Fault::RowShape);
    }
    if spec.columns() != keyed.columns || !spec.unique() {
        return Ok(false);
    }
    match spec.key(row)? {
        Some(key) if keyed.columns.len() == keyed.kinds.len() => {
            let bytes = Row::new(spec.cells(&key)?)?.to_bytes(schema)?;
            Ok((key.bytes(), bytes.as_slice()) == (keyed.key, keyed.row))
        }
        Some(key) => Ok(key.bytes() == keyed.key),
        None => Ok(false),
    }
}

fn is_known(alloc: Global, known: &Known) -> Result<bool, Fault> {
    let fault = known.fault;
    let printed = format!(in alloc; "{fault}")?;
    Ok((fault.number(), fault.name(), printed.as_str()) == (known.number, known.name, known.text))
}
