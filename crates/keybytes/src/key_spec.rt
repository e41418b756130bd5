ghost use Rattle.std.specs.Prelude.{◌≡◌, ◌≤◌, ◌↔◌, List, [], IsTrue, IsOk, IfOk, IfErr, IfSome, OnOk, true, Some, None, length, nat_eq};
ghost use Rattle.std.specs.List.{list_any};
ghost use Rattle.keybytes.specs.Cells.{fits};
ghost use Rattle.keybytes.specs.Conditions.{condition_refusal, takes};
ghost use Rattle.keybytes.specs.Faults.{RefusedFor, first_cause};
ghost use Rattle.keybytes.specs.Keys.{are_key_columns, key_columns, key_columns_refusal, key_of, indexed_key, HasKey, IsKeyOf, IsRowOf, StandsForColumns};
ghost use Rattle.keybytes.specs.declared.cell.Cell.{Cell};

use crate::key_column::{add_column, read_column};
use crate::{Cell, Fault, Key, KeyCol, KeyInPlace, Kind, Row, Schema, When};
use smallvec::SmallVec;
use std::alloc::Global;
use std::marker::Model;

/// The greatest number of columns of a key.
pub const KEY_COLUMNS_MAX: usize = 4;

/// Which columns of a table make the key of an index, whether the index is unique, and which rows it takes, if it is a partial one.
///
/// Keys of one specification compare as their columns do, each in its direction, and none begins another.
pub struct KeySpec {
    kinds: Vec<Kind>,
    columns: Vec<KeyCol>,
    unique: bool,
    condition: Option<When>,
}

impl Drop for KeySpec {
    fn drop(self) {
        let KeySpec {
            kinds: _,
            columns: _,
            unique: _,
            condition: _,
        } = self;
    }
}

impl Model for KeySpec {
    ghost use Rattle.std.specs.Prelude.{◌≡◌, true};
    ghost use Rattle.keybytes.specs.Keys.{KeySpecValue, are_key_columns};

    ghost Value = { KeySpecValue };

    ghost view = { λ spec. record { kinds = spec.kinds.items; columns = spec.columns.items; unique = spec.unique; condition = spec.condition } };

    ghost invariant = { λ spec. are_key_columns spec.kinds.items spec.columns.items ≡ true };
}

impl KeySpec {
    /// The specification of these columns of the schema, in that order, for an index that takes each row. No columns, more than [`KEY_COLUMNS_MAX`], one
    /// that is named twice, in whichever directions, or one that the schema lacks is [`Fault::BadColumn`].
    pub fn new(
        alloc: Global,
        schema: &Schema,
        columns: Vec<KeyCol>,
        unique: bool,
    ) -> Result<KeySpec, Fault>
        ensures kinds { IfOk result (λ spec. spec.kinds ≡ schema.now) }
        ensures columns { IfOk result (λ spec. spec.columns ≡ columns.items) }
        ensures unique { IfOk result (λ spec. spec.unique ≡ unique) }
        ensures whole { IfOk result (λ spec. spec.condition ≡ None) }
        ensures accepted { OnOk result (key_columns_refusal schema.now columns.items ≡ None) }
        ensures refused { IfErr result (RefusedFor (key_columns_refusal schema.now columns.items)) }
    {
        if !are_key_columns(schema.kinds(), columns.as_slice()) {
            return Err(Fault::BadColumn);
        }
        let kinds = schema.kinds().to_vec(alloc)?;
        Ok(KeySpec {
            kinds,
            columns,
            unique,
            condition: None,
        })
    }

    /// The same for an index that takes only the rows that meet the condition, in place of one that it had. The schema is that of
    /// the table; a column that it lacks, a cell that is Null or of another kind than its column, or a text of more than 100 bytes
    /// is [`Fault::BadColumn`], and so is what is that by the columns that the specification was made for. Takes no memory.
    pub fn with_when(self, schema: &Schema, condition: When) -> Result<KeySpec, Fault>
        ensures same { IfOk result (λ spec. spec ≡ record { kinds = self.kinds; columns = self.columns; unique = self.unique; condition = Some condition }) }
        ensures accepted { OnOk result (first_cause (condition_refusal schema.now condition) (condition_refusal self.kinds condition) ≡ None) }
        ensures refused { IfErr result (λ fault.
            first_cause (condition_refusal schema.now condition) (condition_refusal self.kinds condition) ≡ Some fault) }
    {
        if !condition.is_of(schema) || !condition.is_of_kinds(self.kinds.as_slice()) {
            return Err(Fault::BadColumn);
        }
        let mut spec = self;
        spec.condition = Some(condition);
        Ok(spec)
    }

    /// The key's columns, in the key's order.
    pub fn columns(&self) -> &[KeyCol]
        ensures columns { result.now ≡ self.now.columns }
        ensures key { are_key_columns self.now.kinds self.now.columns ≡ true }
    {
        self.columns.as_slice()
    }

    /// Whether no two rows may have one key.
    pub fn unique(&self) -> bool
        ensures { result ≡ self.now.unique }
    {
        self.unique
    }

    /// Whether it was made for a table of these columns.
    pub fn is_of(&self, schema: &Schema) -> bool
        ensures { IsTrue result ↔ (self.now.kinds ≡ schema.now) }
    {
        self.kinds.as_slice() == schema.kinds()
    }

    /// Whether both make keys of tables of the same columns, by the same columns in the same order and directions, both are unique or
    /// neither is, and both have the same condition or none.
    pub fn is_same(&self, other: &KeySpec) -> bool
        ensures { IsTrue result ↔ (self.now ≡ other.now) }
    {
        are_same_kinds(self.kinds.as_slice(), other.kinds.as_slice())
            && are_same_columns(self.columns.as_slice(), other.columns.as_slice())
            && self.unique == other.unique
            && are_same_conditions(&self.condition, &other.condition)
    }

    /// A copy, or [`Fault::Memory`].
    pub fn clone(&self) -> Result<KeySpec, Fault>
        ensures same { IfOk result (λ spec. spec ≡ self.now) }
        ensures memory { IfErr result (λ fault. fault ≡ Fault.Memory) }
    {
        let kinds = self.kinds.clone()?;
        let columns = self.columns.clone()?;
        let condition = copied(&self.condition)?;
        Ok(KeySpec {
            kinds,
            columns,
            unique: self.unique,
            condition,
        })
    }

    /// The key that the index has of a row of the table: none of a row that doesn't meet its condition. A key of up to 24 bytes takes
    /// no memory.
    pub fn key(&self, row: &Row) -> Result<Option<Key>, Fault>
        requires { fits self.now.kinds row.now ≡ true }
        ensures value { IfOk result (λ key. key ≡ indexed_key self.now row.now) }
        ensures size { IfOk result (λ found. IfSome found (λ key. length key ≤ 812)) }
        ensures laws { IfOk result (λ found. IfSome found (StandsForColumns self.now row.now)) }
        ensures is_key { IfOk result (λ found. IfSome found (IsKeyOf self.now)) }
        ensures memory { IfErr result (λ fault. fault ≡ Fault.Memory) }
        ensures inline { IfSome (indexed_key self.now row.now) (λ key. length key ≤ 24) → IsOk result }
    {
        if !self.takes(row) {
            return Ok(None);
        }
        let mut bytes = SmallVec::new(*self.kinds.allocator());
        self.write(row, &mut bytes)?;
        Ok(Some(Key { bytes }))
    }

    /// The bytes of the key that the index has of the row, in place: for a moment when there is no memory for the key.
    pub fn key_in_place(&self, row: &Row) -> Option<KeyInPlace>
        requires { fits self.now.kinds row.now ≡ true }
        ensures { result ≡ indexed_key self.now row.now }
    {
        if !self.takes(row) {
            return None;
        }
        let mut bytes = SmallVec::new(*self.kinds.allocator());
        match self.write(row, &mut bytes) {
            Ok(()) => Some(KeyInPlace { bytes }),
            Err(_) => unreachable!(),
        }
    }

    /// Whether the index takes the row: it has no condition, or the row meets it.
    fn takes(&self, row: &Row) -> bool
        ensures { result ≡ takes self.now.condition row.now }
    {
        match &self.condition {
            None => true,
            Some(condition) => condition.is_met(row),
        }
    }

    /// Writes the bytes that the row's columns make, and takes memory only where they have no room.
    fn write<const N: usize>(&self, row: &Row, bytes: &mut SmallVec<u8, N>) -> Result<(), Fault>
        requires fits { fits self.now.kinds row.now ≡ true }
        requires empty { bytes.old.items ≡ [] }
        ensures value { OnOk result (bytes.new.items ≡ key_of self.now row.now) }
        ensures memory { IfErr result (λ fault. fault ≡ Fault.Memory) }
        ensures room { length (key_of self.now row.now) ≤ bytes.old.capacity → IsOk result }
        ensures capacity { bytes.old.capacity ≤ bytes.new.capacity }
        ensures size { length (key_of self.now row.now) ≤ 812 }
        ensures laws { OnOk result (StandsForColumns self.now row.now (key_of self.now row.now)) }
        ensures is_key { OnOk result (IsKeyOf self.now (key_of self.now row.now)) }
    {
        let cells = row.cells();
        for column in &self.columns {
            add_column(bytes, column.descending, &cells[column.column])?;
        }
        Ok(())
    }

    /// The columns that a key of this specification stands for, in the key's order.
    pub fn cells(&self, key: &Key) -> Result<Vec<Cell>, Fault>
        requires { IsKeyOf self.now key.now }
        ensures columns { IfOk result (λ cells. HasKey self.now key.now cells.items) }
        ensures only { IfOk result (λ cells. (columns : List Cell) → HasKey self.now key.now columns → columns ≡ cells.items) }
        ensures of_rows { IfOk result (λ cells. (row : List Cell) → IsRowOf self.now row → key_of self.now row ≡ key.now
            → key_columns self.now row ≡ cells.items) }
        ensures memory { IfErr result (λ fault. fault ≡ Fault.Memory) }
    {
        let alloc = *self.kinds.allocator();
        let bytes = key.bytes();
        let mut at = 0;
        let mut cells = Vec::with_capacity(alloc, self.columns.len())?;
        for column in &self.columns {
            let kind = self.kinds[column.column];
            let (cell, len) = read_column(alloc, kind, column.descending, &bytes[at..])?;
            cells.push(cell)?;
            at += len;
        }
        Ok(cells)
    }
}

fn are_key_columns(kinds: &[Kind], columns: &[KeyCol]) -> bool
    ensures { result ≡ are_key_columns kinds.now columns.now }
{
    if columns.is_empty() || columns.len() > KEY_COLUMNS_MAX {
        return false;
    }
    for (place, column) in columns.iter().enumerate() {
        if column.column >= kinds.len() || is_named(column.column, &columns[place + 1..]) {
            return false;
        }
    }
    true
}

/// Whether that column of the table is one of these.
fn is_named(column: usize, columns: &[KeyCol]) -> bool
    ensures { result ≡ list_any (λ other. nat_eq other.column column) columns.now }
{
    for other in columns {
        if other.column == column {
            return true;
        }
    }
    false
}

fn are_same_kinds(one: &[Kind], other: &[Kind]) -> bool
    ensures { IsTrue result ↔ (one.now ≡ other.now) }
{
    one == other
}

fn are_same_columns(one: &[KeyCol], other: &[KeyCol]) -> bool
    ensures { IsTrue result ↔ (one.now ≡ other.now) }
{
    one == other
}

fn are_same_conditions(one: &Option<When>, other: &Option<When>) -> bool
    ensures { IsTrue result ↔ (one.now ≡ other.now) }
{
    match (one, other) {
        (None, None) => true,
        (Some(one), Some(other)) => one.is_same(other),
        _ => false,
    }
}

/// A copy of the condition, if there is one, or [`Fault::Memory`].
fn copied(condition: &Option<When>) -> Result<Option<When>, Fault>
    ensures same { IfOk result (λ copy. copy ≡ condition.now) }
    ensures memory { IfErr result (λ fault. fault ≡ Fault.Memory) }
{
    match condition {
        None => Ok(None),
        Some(condition) => Ok(Some(condition.clone()?)),
    }
}
