ghost use Rattle.std.specs.Prelude.{◌≡◌, IfOk, map};

use crate::table::column::{Column, columns, schema};
use crate::table::condition::condition;
use crate::table::failure::Failure;
use crate::table::key_columns::key_spec;
use crate::table::refusal::Refusal;
use command_line::{IndexWord, IndexWords};
use keybytes::{KeySpec, Schema};
use std::alloc::Global;

/// The most indexes of a build.
pub const INDEXES_MAX: usize = 8;

/// What the words ask for: the columns of the table, and what makes the keys of its indexes.
pub struct Asked {
    pub columns: Vec<Column>,
    pub schema: Schema,
    pub specs: Vec<KeySpec>,
}

impl Drop for Asked {
    fn drop(self) {
        let Asked {
            columns: _,
            schema: _,
            specs: _,
        } = self;
    }
}

impl Asked {
    pub fn new(alloc: Global, words: &IndexWords<'_>) -> Result<Asked, Failure>
        ensures schema { IfOk result (λ asked. asked.schema ≡ map (λ column. column.kind) asked.columns.items) }
        ensures unique { IfOk result (λ asked.
            map (λ spec. spec.unique) asked.specs.items ≡ map (λ word. word.unique) words.now.indexes.items) }
    {
        let columns = columns(alloc, words.columns)?;
        let schema = schema(alloc, columns.as_slice())?;
        let specs = specs(alloc, &schema, columns.as_slice(), words)?;
        Ok(Asked {
            columns,
            schema,
            specs,
        })
    }
}

fn specs(
    alloc: Global,
    schema: &Schema,
    columns: &[Column],
    words: &IndexWords<'_>,
) -> Result<Vec<KeySpec>, Failure>
    ensures { IfOk result (λ specs. map (λ spec. spec.unique) specs.items ≡ map (λ word. word.unique) words.now.indexes.items) }
{
    if words.indexes.is_empty() {
        return Err(Failure::refused(alloc, Refusal::NoIndex, ""));
    }
    if let Some(index) = words.indexes.get(INDEXES_MAX) {
        return Err(Failure::refused(alloc, Refusal::TooManyIndexes, index.columns));
    }
    let mut specs = Vec::with_capacity(alloc, words.indexes.len())?;
    for index in &words.indexes {
        specs.push(spec(alloc, schema, columns, *index, words.condition)?)?;
    }
    Ok(specs)
}

/// What makes the keys of an index, which takes only rows that meet the condition.
fn spec(
    alloc: Global,
    schema: &Schema,
    columns: &[Column],
    index: IndexWord<'_>,
    condition: Option<&str>,
) -> Result<KeySpec, Failure>
    ensures { IfOk result (λ spec. spec.unique ≡ index.entry.unique) }
{
    let spec = key_spec(alloc, schema, columns, index.columns, index.unique)?;
    match condition {
        Some(text) => with_condition(alloc, schema, columns, spec, text),
        None => Ok(spec),
    }
}

fn with_condition(
    alloc: Global,
    schema: &Schema,
    columns: &[Column],
    spec: KeySpec,
    text: &str,
) -> Result<KeySpec, Failure>
    ensures { IfOk result (λ partial. partial.unique ≡ spec.unique) }
{
    let condition = condition(alloc, columns, text)?;
    match spec.with_when(schema, condition) {
        Ok(spec) => Ok(spec),
        Err(_) => Err(Failure::refused(alloc, Refusal::Condition, text)),
    }
}
