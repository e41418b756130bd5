//! Indexes that are to be built, as C names them.
ghost use Rattle.std.specs.Prelude.{◌≡◌, ◌⊎◌, ◌≤◌, ◌<◌, ◌++◌, ◌∷◌, [], ℕ, Bool, List, length, nat_eq, take};
ghost use Rattle.std.specs.Prelude.{MatchOption, IfSome, OnOk, IfOk, IfErr};
ghost use Rattle.std.specs.List.{flat_map, list_any};
ghost use Rattle.keybytes.specs.Keys.{KeySpecValue, are_key_columns};
ghost use Rattle.keybytes.specs.declared.key_col.KeyCol.{KeyCol};
ghost use Rattle.sfbuild_c.specs.IndexBytes.{BreaksOff, IsIndexOf, NoIndexBegins, RefusesIndexes, SpellsIndexes, column_bytes, flag_byte};
ghost use Rattle.sfbuild_c.specs.NamedIndexes.{Begins, named_spec};

use keybytes::{Fault, KEY_COLUMNS_MAX, KeyCol, KeySpec, Kind, Schema};
use std::alloc::Global;

/// An index as its bytes name it.
#[derive(Clone, Copy)]
struct Named {
    unique: bool,
    /// The number of its columns, which come first in `columns`.
    count: usize,
    columns: [KeyCol; KEY_COLUMNS_MAX],
}

impl Named {
    /// The index of a table with these columns, or [`Fault::Memory`].
    fn spec(&self, alloc: Global, schema: &Schema) -> Result<KeySpec, Fault>
        requires count { self.now.count ≤ 4 }
        requires is_index { IsIndexOf schema.now (named_spec schema.now self.now) }
        ensures same { IfOk result (λ spec. spec ≡ named_spec schema.now self.now) }
        ensures memory { IfErr result (λ fault. fault ≡ Fault.Memory) }
    {
        let columns = self.columns[..self.count].to_vec(alloc)?;
        KeySpec::new(alloc, schema, columns, self.unique)
    }
}

/// The indexes that the bytes name. Other bytes are [`Fault::BadColumn`], before any memory is asked for.
pub(crate) fn read_indexes(
    alloc: Global,
    bytes: &[u8],
    schema: &Schema,
) -> Result<Vec<KeySpec>, Fault>
    ensures ok { IfOk result (λ specs. SpellsIndexes schema.now bytes.now specs.items) }
    ensures refused { IfErr result (RefusesIndexes schema.now bytes.now) }
{
    check_indexes(bytes, schema)?;
    make_indexes(alloc, bytes, schema)
}

/// Refuses bytes that are not those of indexes. Takes no memory.
fn check_indexes(bytes: &[u8], schema: &Schema) -> Result<(), Fault>
    ensures accepted { OnOk result ((specs : List KeySpecValue) × SpellsIndexes schema.now bytes.now specs) }
    ensures refused { IfErr result (λ fault. (fault ≡ Fault.BadColumn) × BreaksOff schema.now bytes.now) }
{
    let mut rest = bytes;
    while !rest.is_empty() {
        let Some((_, behind)) = read_index(rest, schema) else {
            return Err(Fault::BadColumn);
        };
        rest = behind;
    }
    Ok(())
}

/// Makes the indexes that the bytes name.
fn make_indexes(alloc: Global, bytes: &[u8], schema: &Schema) -> Result<Vec<KeySpec>, Fault>
    ensures ok { IfOk result (λ specs. SpellsIndexes schema.now bytes.now specs.items) }
    ensures refused { IfErr result (λ fault. ((fault ≡ Fault.BadColumn) × BreaksOff schema.now bytes.now) ⊎ (fault ≡ Fault.Memory)) }
{
    let mut specs = Vec::new(alloc);
    let mut rest = bytes;
    while !rest.is_empty() {
        rest = add_index(alloc, rest, schema, &mut specs)?;
    }
    Ok(specs)
}

/// Adds the index whose bytes come first, and answers the bytes behind it.
fn add_index<'a>(
    alloc: Global,
    bytes: &'a [u8],
    schema: &Schema,
    specs: &mut Vec<KeySpec>,
) -> Result<&'a [u8], Fault>
    ensures added { IfOk result (λ rest. (spec : KeySpecValue) × (Begins schema.now bytes.now spec rest.now
        × (specs.new.items ≡ specs.old.items ++ spec ∷ []))) }
    ensures refused { IfErr result (λ fault. ((fault ≡ Fault.BadColumn) × NoIndexBegins schema.now bytes.now) ⊎ (fault ≡ Fault.Memory)) }
{
    let Some((named, behind)) = read_index(bytes, schema) else {
        return Err(Fault::BadColumn);
    };
    specs.push(named.spec(alloc, schema)?)?;
    Ok(behind)
}

/// The index whose bytes come first, if one begins there, and the bytes behind it.
fn read_index<'a>(bytes: &'a [u8], schema: &Schema) -> Option<(Named, &'a [u8])>
    ensures found { MatchOption result (NoIndexBegins schema.now bytes.now)
        (λ found. Begins schema.now bytes.now (named_spec schema.now found.0) found.1.now) }
    ensures count { IfSome result (λ found. found.0.count ≤ 4) }
{
    let (flag, count, body) = split_pair(bytes)?;
    let unique = read_flag(flag)?;
    let count = count as usize;
    if count > KEY_COLUMNS_MAX {
        return None;
    }
    let (columns, rest) = read_columns(body, count)?;
    if !are_key_columns(schema.kinds(), &columns[..count]) {
        return None;
    }
    let named = Named {
        unique,
        count,
        columns,
    };
    Some((named, rest))
}

/// That many columns, whose bytes come first, and the bytes behind them.
fn read_columns<'a>(bytes: &'a [u8], count: usize) -> Option<([KeyCol; KEY_COLUMNS_MAX], &'a [u8])>
    requires { count ≤ 4 }
    ensures found { MatchOption result
        ((columns : List KeyCol) (rest : List ℕ) → length columns ≡ count → bytes.now ≡ flat_map column_bytes columns ++ rest → ⊥)
        (λ found. bytes.now ≡ flat_map column_bytes (take count found.0) ++ found.1.now) }
    ensures places { IfSome result (λ found. length found.0 ≡ 4) }
{
    let mut columns = [KeyCol {
        column: 0,
        descending: false,
    }; KEY_COLUMNS_MAX];
    let mut rest = bytes;
    for place in 0..count {
        let (column, flag, behind) = split_pair(rest)?;
        columns[place] = KeyCol {
            column: column as usize,
            descending: read_flag(flag)?,
        };
        rest = behind;
    }
    Some((columns, rest))
}

/// The first two bytes and those behind them, if there are two.
fn split_pair(bytes: &[u8]) -> Option<(u8, u8, &[u8])>
    ensures { MatchOption result (length bytes.now < 2) (λ found. bytes.now ≡ found.0 ∷ found.1 ∷ found.2.now) }
{
    let (pair, rest) = bytes.split_first_chunk::<2>()?;
    Some((pair[0], pair[1], rest))
}

/// What the byte says, if it is that of a flag.
fn read_flag(byte: u8) -> Option<bool>
    ensures { MatchOption result ((flag : Bool) → flag_byte flag ≡ byte → ⊥) (λ flag. flag_byte flag ≡ byte) }
{
    match byte {
        0 => Some(false),
        1 => Some(true),
        _ => None,
    }
}

/// Whether these make a key of a table of these kinds.
fn are_key_columns(kinds: &[Kind], columns: &[KeyCol]) -> bool
    ensures { result ≡ are_key_columns kinds.now columns.now }
{
    if columns.is_empty() || columns.len() > KEY_COLUMNS_MAX {
        return false;
    }
    for (place, column) in columns.iter().enumerate() {
        if column.column >= kinds.len() || is_named(column.column, &columns[place + 1..]) {
            return false;
        }
    }
    true
}

/// Whether that column of the table is one of these.
fn is_named(column: usize, columns: &[KeyCol]) -> bool
    ensures { result ≡ list_any (λ other. nat_eq other.column column) columns.now }
{
    for other in columns {
        if other.column == column {
            return true;
        }
    }
    false
}
