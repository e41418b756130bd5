ghost use Rattle.std.specs.Prelude.{◌≤◌, ◌<◌, ℕ, length, get_or, IfSome};
ghost use Rattle.bench.specs.Columns.{AreMeasured, key_size};
ghost use Rattle.bench.specs.declared.column.Column.{Column as ColumnValue};

use crate::values::Values;

/// A column of the table that is measured.
#[derive(Drop)]
pub struct Column {
    pub values: Values,
    /// Whether an index on it has the greatest cell first.
    pub descending: bool,
}

impl Column {
    /// Reads what the column is filled with, and behind it `:desc` where it descends.
    pub fn parse(text: &str) -> Option<Column>
        ensures { IfSome result (λ column. AreMeasured column.values) }
    {
        let (text, descending) = match text.strip_suffix(":desc") {
            Some(text) => (text, true),
            None => (text, false),
        };
        let values = Values::parse(text)?;
        Some(Column { values, descending })
    }
}

/// The bytes of the longest key of an index: each is on one of the columns.
pub fn longest_key(columns: &[Column]) -> usize
    ensures each { (k : ℕ) (d : ColumnValue) → k < length columns.now → key_size (get_or columns.now k d).values ≤ result }
    ensures limit { result ≤ 258 }
{
    let mut longest = 0;
    for column in columns {
        longest = longest.max(column.values.key_size());
    }
    longest
}
